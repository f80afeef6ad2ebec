//! A run whose events have spans in the place of one order.

ghost use Rattle.std.specs.Prelude.{◌≡◌, ◌+◌, ◌<◌, ◌≤◌, ◌^◌, [], ◌∷◌, ◌++◌, length, None};
ghost use Rattle.std.specs.Prelude.{IfOk, OnOk, OnErr, IfSome, slice_get, option_map};
ghost use Rattle.pg_event.specs.Form.{broken_rule};
ghost use Rattle.pg_event.specs.Heads.{with_rules};
ghost use Rattle.pg_event.specs.Spelling.{IsHead};
ghost use Rattle.pg_span_run.specs.Spanned.{IsSpanned};

use pg_entry::Rules;
use pg_event::{Event, Header};
use std::alloc::{AllocError, Global};
use std::marker::Model;

/// The settings of a run, its events in the order in which they ended, and the span of each. What
/// moments its accesses and assists name is of no account.
#[derive(Drop)]
pub struct SpannedRun {
    header: Header,
    events: Vec<Event>,
    backs: Vec<u32>,
}

impl Model for SpannedRun {
    ghost use Rattle.pg_span_run.specs.Orders.{Spanned};
    ghost use Rattle.pg_span_run.specs.Spanned.{IsSpanned};

    ghost Value = { Spanned };

    ghost view = { λ r. record {
      head = r.header;
      events = r.events.items;
      backs = r.backs.items;
    } };

    ghost invariant = { λ r. IsSpanned (record {
      head = r.header;
      events = r.events.items;
      backs = r.backs.items;
    }) };
}

impl SpannedRun {
    /// A run with no event yet.
    pub fn new(alloc: Global, header: Header) -> SpannedRun
        requires { IsHead header }
        ensures { result ≡ record { head = header; events = []; backs = [] } }
    {
        SpannedRun {
            header,
            events: Vec::new(alloc),
            backs: Vec::new(alloc),
        }
    }

    /// Adds the event that ends next. It began after the first events of the run had ended, all
    /// but `back` of them. Fails where memory is refused, and then the run is as it was.
    pub fn push(&mut self, event: &Event, back: u32) -> Result<(), AllocError>
        requires well { broken_rule self.old.head event.now ≡ None }
        requires span { back ≤ length self.old.events }
        requires count { length self.old.events + 1 < 2 ^ 32 }
        ensures ok { OnOk result (self.new ≡ record {
          head = self.old.head;
          events = self.old.events ++ event.now ∷ [];
          backs = self.old.backs ++ back ∷ [];
        }) }
        ensures err { OnErr result (self.new ≡ self.old) }
    {
        // Room comes first, so that nothing can fail once the event is in.
        self.events.reserve(1)?;
        self.backs.reserve(1)?;
        self.events.push_reserved(*event);
        self.backs.push_reserved(back);
        Ok(())
    }

    /// The same events and spans, of processors that are held to these rules.
    #[tactic(auto, using(crate::proofs::Held::held_is_spanned))]
    pub fn held_to(self, rules: Rules) -> SpannedRun
        ensures { result ≡ record self { head = with_rules self.head rules } }
    {
        SpannedRun {
            header: self.header.with_rules(rules),
            events: self.events,
            backs: self.backs,
        }
    }

    /// How many events there are.
    pub fn len(&self) -> usize
        ensures length { result ≡ length self.now.events }
        ensures within { result < 2 ^ 32 }
    {
        self.events.len()
    }

    /// The settings of the run.
    pub fn header(&self) -> &Header
        ensures header { result.now ≡ self.now.head }
        ensures head { IsHead self.now.head }
    {
        &self.header
    }

    /// How many processors there are.
    pub(crate) fn processors(&self) -> usize
        ensures { result ≡ length self.now.head.processors }
    {
        self.header.processors.len()
    }

    /// The events as they ended.
    pub fn events(&self) -> &[Event]
        ensures events { result.now ≡ self.now.events }
        ensures spanned { IsSpanned self.now }
    {
        self.events.as_slice()
    }

    /// The event with this number, if there is one.
    pub fn event_at(&self, number: u32) -> Option<&Event>
        ensures event { option_map (λ e. e.now) result ≡ slice_get self.now.events number }
        ensures well { IfSome result (λ e. broken_rule self.now.head e.now ≡ None) }
    {
        if (number as usize) < self.events.len() {
            Some(&self.events[number as usize])
        } else {
            None
        }
    }

    /// For each event how many of those before it had not yet ended when it began.
    pub fn backs(&self) -> &[u32]
        ensures backs { result.now ≡ self.now.backs }
        ensures spanned { IsSpanned self.now }
    {
        self.backs.as_slice()
    }
}
