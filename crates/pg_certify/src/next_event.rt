//! A run whose events come one by one, each judged and then kept.

ghost use Rattle.std.specs.Prelude.{◌≡◌, ◌+◌, ◌<◌, ◌≤◌, ◌^◌, ◌++◌, ◌∷◌, []};
ghost use Rattle.std.specs.Prelude.{length, map, take, None, OnOk, OnErr};
ghost use Rattle.pg_event.specs.Form.{broken_rule};
ghost use Rattle.pg_check.specs.Kept.{AreWellFormed};
ghost use Rattle.pg_search.specs.Changes.{kept_of};

use crate::certifier::Certifier;
use crate::guesses::Guesses;
use crate::recent_lookups::RecentLookups;
use pg_event::Event;
use pg_search::KeptRun;
use std::alloc::AllocError;

impl Certifier<KeptRun> {
    /// How many events there are.
    pub(crate) fn len(&self) -> usize
        ensures length { result ≡ length self.now.events }
        ensures within { result < 2 ^ 32 }
    {
        self.judging.len()
    }

    /// The events that are kept.
    pub(crate) fn kept(&self) -> &KeptRun
        ensures { result.now ≡ self.now }
    {
        &self.judging
    }

    /// Takes note of the event that comes next, and keeps it. Fails where memory is refused, and
    /// then it is not kept.
    #[inline(always)]
    pub(crate) fn keep(&mut self, event: &Event) -> Result<(), AllocError>
        requires well { broken_rule self.old.head event.now ≡ None }
        requires room { length self.old.events + 1 < 2 ^ 32 }
        ensures ok { OnOk result (self.new ≡ record {
          head = self.old.head;
          events = self.old.events ++ kept_of event.now ∷ [];
        }) }
        ensures err { OnErr result (self.new ≡ self.old) }
    {
        self.recent.forget(event);
        self.judging.keep(event)
    }

    /// Keeps the event that is denied and those that come next, which nobody judges. Fails where
    /// memory is refused, and then nothing is kept.
    pub(crate) fn keep_rest(&mut self, events: &[Event]) -> Result<(), AllocError>
        requires well { AreWellFormed self.old.head events.now }
        requires room { length self.old.events + length events.now < 2 ^ 32 }
        ensures ok { OnOk result (self.new ≡ record {
          head = self.old.head;
          events = self.old.events ++ map kept_of events.now;
        }) }
        ensures err { OnErr result (self.new ≡ self.old) }
    {
        let kept = self.judging.extend(events);
        // Whoever tells why an event is denied asks of many drops.
        self.judging.make_lists();
        kept
    }

    /// Forgets the events from a number on, and all that was found.
    pub(crate) fn forget_from(&mut self, number: u32)
        requires { number ≤ length self.old.events }
        ensures { self.new
            ≡ record { head = self.old.head; events = take number self.old.events } }
    {
        self.judging.forget_from(number);
        self.guesses = Guesses::new(self.alloc);
        self.recent = RecentLookups::new(self.alloc);
    }
}
