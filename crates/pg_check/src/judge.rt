//! A run that is judged at its tip: each event as it comes, by the events before it.

ghost use Rattle.std.specs.Prelude.{◌≡◌, ◌+◌, ◌<◌, ◌≤◌, ◌^◌, ◌++◌, ◌∷◌, List, [], length, None};
ghost use Rattle.std.specs.Prelude.{IfOk, OnOk, OnErr};
ghost use Rattle.std.specs.List.{AllByRecursion};
ghost use Rattle.std.specs.Option.{option_or};
ghost use Rattle.pg_event.specs.declared.event.Event.{Event};
ghost use Rattle.pg_event.specs.Form.{processor_of};
ghost use Rattle.pg_event.specs.Heads.{Head};
ghost use Rattle.pg_event.specs.Spelling.{IsHead};
ghost use Rattle.pg_event.specs.Witness.{failing_event, first_bad_from, first_some};
ghost use Rattle.pg_chain.specs.Standing.{processor_count};
ghost use Rattle.pg_check.specs.Judging.{HasNoted, MayNote};

use crate::ahead::{AHEAD, look_ahead};
use crate::by_past::first_bad_of;
use crate::memo::Memo;
use crate::places::WalkCache;
use crate::tip::failing_next;
use pg_chain::Past;
use pg_event::{Event, Header, Reason};
use std::alloc::{AllocError, Global};
use std::marker::Model;

/// What is known of a run up to some event, and the walks that were made by the events that were
/// judged. The events themselves are let go. Events may also be noted unjudged, and events that
/// were noted may be judged afterwards, by the past.
#[derive(Drop)]
pub struct Judge {
    past: Past,
    count: u64,
    kept: WalkCache,
}

impl Model for Judge {
    ghost use Rattle.pg_check.specs.Judging.{Noted};
    ghost use Rattle.pg_check.specs.Remembered.{HaveWalks};
    ghost use Rattle.pg_check.specs.Stems.{HaveStems};

    ghost Value = { Noted };

    ghost view = { λ j. record { past = j.past; count = j.count } };

    ghost invariant = { λ j. HaveWalks j.past j.count j.kept.slots.items
        × HaveStems j.past j.count j.kept.stems.items };
}

impl Judge {
    /// A run with no event yet. Fails where memory is refused.
    pub fn new(alloc: Global, header: &Header) -> Result<Judge, AllocError>
        requires { IsHead header.now }
        ensures { IfOk result (λ judge. HasNoted judge header.now []) }
    {
        Ok(Judge {
            past: Past::new(alloc, header)?,
            count: 0,
            kept: WalkCache::new(alloc),
        })
    }

    /// How many events were noted.
    pub(crate) fn count(&self) -> u64
        ensures { result ≡ self.now.count }
    {
        self.count
    }

    /// What the run did up to the last event that was noted.
    pub(crate) fn past(&self) -> &Past
        ensures { result.now ≡ self.now.past }
    {
        &self.past
    }

    /// Notes the events that come next, unjudged. Fails where memory is refused, and then they
    /// have not come.
    pub(crate) fn note(&mut self, events: &[Event]) -> Result<(), AllocError>
        requires { MayNote self.old events.now }
        ensures ok { (head : Head) (before : List Event) → HasNoted self.old head before →
            OnOk result (HasNoted self.new head (before ++ events.now)) }
        ensures err { (head : Head) (before : List Event) → HasNoted self.old head before →
            OnErr result (HasNoted self.new head before) }
    {
        let count = self.count as u32;
        for event in events {
            if let Err(refused) = self.note_next(event) {
                self.go_back(count);
                return Err(refused);
            }
        }
        Ok(())
    }

    /// Judges the events that come next, each by those before it, up to the first that is not
    /// witnessed, and notes them all. Tells that one. Fails where memory is refused, and then they
    /// have not come.
    pub(crate) fn judge(&mut self, events: &[Event]) -> Result<Option<(u64, Reason)>, AllocError>
        requires { MayNote self.old events.now }
        ensures ok { (head : Head) (before : List Event) → HasNoted self.old head before →
            OnOk result (HasNoted self.new head (before ++ events.now)) }
        ensures found { (head : Head) (before : List Event) → HasNoted self.old head before →
            IfOk result (λ found. found
            ≡ first_bad_from head (before ++ events.now) (length before) events.now) }
        ensures err { (head : Head) (before : List Event) → HasNoted self.old head before →
            OnErr result (HasNoted self.new head before) }
    {
        let count = self.count as u32;
        let mut found = None;
        for (i, event) in events.iter().enumerate() {
            self.look_ahead(events, i);
            found = self.found_next(event, found);
            if let Err(refused) = self.note_next(event) {
                self.go_back(count);
                return Err(refused);
            }
        }
        Ok(found)
    }

    /// The first that is not witnessed of some events that were noted before, where the first of
    /// them has this number: each is judged by the past, which may have gone further since.
    pub(crate) fn judge_again(&mut self, first: u64, events: &[Event]) -> Option<(u64, Reason)>
        requires processors { AllByRecursion
            (λ e. processor_of e < processor_count self.old.past) events.now }
        requires count { first + length events.now ≤ 2 ^ 32 }
        ensures same { self.new ≡ self.old }
        ensures found { (head : Head) (all : List Event) → HasNoted self.old head all →
            result ≡ first_bad_from head all first events.now }
    {
        self.make_lists();
        let mut memo = Memo::new(&self.past, events.len());
        first_bad_of(&mut memo, first, events)
    }

    /// Makes all lists of what was dropped, for those who look up the past at many moments.
    pub(crate) fn make_lists(&mut self)
        ensures { self.new ≡ self.old }
    {
        self.past.catch_up_pages();
        self.past.catch_up_regions();
        self.past.catch_up_wide();
    }

    /// Before every so many events, reads what these will ask for. `i` is the index of the next.
    #[inline(always)]
    fn look_ahead(&mut self, events: &[Event], i: usize)
        ensures { self.new ≡ self.old }
    {
        if i % AHEAD == 0 && i < events.len() {
            let end = i.saturating_add(AHEAD).min(events.len());
            look_ahead(&self.past, &mut self.kept, &events[i..end]);
        }
    }

    /// The first event that is not witnessed, if one before the next is, and else whether the next
    /// one is that.
    #[inline(always)]
    fn found_next(&mut self, event: &Event, before: Option<(u64, Reason)>) -> Option<(u64, Reason)>
        requires { MayNote self.old (event.now ∷ []) }
        ensures same { self.new ≡ self.old }
        ensures found { (head : Head) (noted : List Event) → HasNoted self.old head noted →
            result ≡ option_or before (first_some (length noted)
            (failing_event head noted (length noted) event.now) None) }
    {
        if before.is_some() {
            return before;
        }
        match failing_next(&mut self.past, &mut self.kept, self.count as u32, event) {
            Some(reason) => Some((self.count, reason)),
            None => None,
        }
    }

    /// Notes the event that comes next. Fails where memory is refused, and then it has not come.
    #[inline(always)]
    fn note_next(&mut self, event: &Event) -> Result<(), AllocError>
        requires { MayNote self.old (event.now ∷ []) }
        ensures ok { (head : Head) (before : List Event) → HasNoted self.old head before →
            OnOk result (HasNoted self.new head (before ++ event.now ∷ [])) }
        ensures err { (head : Head) (before : List Event) → HasNoted self.old head before →
            OnErr result (HasNoted self.new head before) }
    {
        match self.past.note_later(self.count as u32, event) {
            Ok(()) => {
                self.count += 1;
                Ok(())
            }
            Err(refused) => Err(refused),
        }
    }

    /// Goes back to the first so many events.
    fn go_back(&mut self, count: u32)
        requires { (head : Head) × (before : List Event) × (more : List Event)
            × HasNoted self.old head (before ++ more) × (count ≡ length before) }
        ensures { (head : Head) (before more : List Event) →
            HasNoted self.old head (before ++ more) → count ≡ length before →
            HasNoted self.new head before }
    {
        self.past.forget_from(count);
        self.kept = WalkCache::new(self.past.alloc);
        self.count = count as u64;
    }
}
