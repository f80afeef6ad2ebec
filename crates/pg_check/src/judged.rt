//! A run that is judged as it is read.

ghost use Rattle.std.specs.Prelude.{◌≡◌, ◌+◌, ◌<◌, ◌≤◌, ◌^◌, ◌++◌, List, [], length};
ghost use Rattle.std.specs.Prelude.{IfOk, OnOk, OnErr};
ghost use Rattle.pg_event.specs.declared.event.Event.{Event};
ghost use Rattle.pg_event.specs.Heads.{Head};
ghost use Rattle.pg_event.specs.Spelling.{IsHead, segment_count};
ghost use Rattle.pg_event.specs.Witness.{first_bad};
ghost use Rattle.pg_check.specs.Judging.{Awaits, IsFound, IsJudged, MayFollow};

use crate::judge::Judge;
use pg_chain::Past;
use pg_event::{Event, Header, Reason};
use std::alloc::{AllocError, Global};
use std::marker::Model;

/// What judging a run has come to, without what it goes on by.
#[derive(Drop)]
pub struct Tally {
    /// The settings of the run.
    pub header: Header,
    /// How many events were judged.
    pub count: u64,
    /// The least event that is not witnessed, with the least reason that fails for it.
    pub first_bad: Option<(u64, Reason)>,
}

/// What is known of a run so far, and its first bad event. The events themselves are let go once
/// they are judged; those after a bad one are noted alone.
#[derive(Drop)]
pub struct Judged {
    header: Header,
    judge: Judge,
    /// How many events were judged.
    count: u64,
    first_bad: Option<(u64, Reason)>,
}

impl Model for Judged {
    ghost use Rattle.pg_event.specs.Spelling.{IsHead};
    ghost use Rattle.pg_check.specs.Judging.{Findings};

    ghost Value = { Findings };

    ghost view = { λ j. record {
      head = j.header;
      past = j.judge.past;
      noted = j.judge.count;
      count = j.count;
      first_bad = j.first_bad;
    } };

    ghost invariant = { λ j. IsHead j.header };
}

impl Judged {
    /// A run with no event yet. Fails where memory is refused.
    pub fn new(alloc: Global, header: Header) -> Result<Judged, AllocError>
        requires { IsHead header }
        ensures { IfOk result (λ judged. IsJudged judged header []) }
    {
        let judge = Judge::new(alloc, &header)?;
        Ok(Judged {
            header,
            judge,
            count: 0,
            first_bad: None,
        })
    }

    /// What it has come to, and what it goes on by, apart.
    pub fn apart(self) -> (Tally, Judge)
        ensures parts { self ≡ record {
          head = result.0.header;
          past = result.1.past;
          noted = result.1.count;
          count = result.0.count;
          first_bad = result.0.first_bad;
        } }
        ensures head { IsHead result.0.header }
    {
        let Judged {
            header,
            judge,
            count,
            first_bad,
        } = self;
        let tally = Tally {
            header,
            count,
            first_bad,
        };
        (tally, judge)
    }

    /// A run that has come to this, and goes on by this judge.
    pub fn together(tally: Tally, judge: Judge) -> Judged
        requires { IsHead tally.header }
        ensures { result ≡ record {
          head = tally.header;
          past = judge.past;
          noted = judge.count;
          count = tally.count;
          first_bad = tally.first_bad;
        } }
    {
        let Tally {
            header,
            count,
            first_bad,
        } = tally;
        Judged {
            header,
            judge,
            count,
            first_bad,
        }
    }

    /// The settings of the run.
    pub fn header(&self) -> &Header
        ensures header { result.now ≡ self.now.head }
        ensures head { IsHead self.now.head }
    {
        &self.header
    }

    /// What the run did up to the last event that was noted.
    pub(crate) fn past(&self) -> &Past
        ensures { result.now ≡ self.now.past }
    {
        self.judge.past()
    }

    /// Makes all lists of what was dropped, for those who look up the past at many moments.
    pub(crate) fn make_lists(&mut self)
        ensures { self.new ≡ self.old }
    {
        self.judge.make_lists();
    }

    /// Takes the first bad event of those that wait. It is not asked for where one before them is
    /// bad: that one stays the first.
    pub fn settle(&mut self, events: &[Event], found: Option<(u64, Reason)>)
        requires { (head : Head) × (before : List Event) × Awaits self.old head before events.now }
        ensures { (head : Head) (before : List Event) → Awaits self.old head before events.now →
            IsFound found head before events.now →
            IsJudged self.new head (before ++ events.now) }
    {
        self.first_bad = self.first_bad.or(found);
        self.count += events.len() as u64;
    }

    /// Judges the events that come next, each by those before it, and notes them; one after a bad
    /// event is noted alone. Fails where memory is refused, and then they have not come.
    pub fn judge(&mut self, events: &[Event]) -> Result<(), AllocError>
        requires { MayFollow self.old events.now }
        ensures ok { (head : Head) (before : List Event) → IsJudged self.old head before →
            OnOk result (IsJudged self.new head (before ++ events.now)) }
        ensures err { (head : Head) (before : List Event) → IsJudged self.old head before →
            OnErr result (IsJudged self.new head before) }
    {
        match self.found_in(events) {
            Ok(found) => {
                self.settle(events, found);
                Ok(())
            }
            Err(refused) => Err(refused),
        }
    }

    /// Judges the events that come next and notes them, which then wait for what was found to be
    /// taken. They are not judged where an event before them is bad. Fails where memory is refused,
    /// and then they have not come.
    fn found_in(&mut self, events: &[Event]) -> Result<Option<(u64, Reason)>, AllocError>
        requires { MayFollow self.old events.now }
        ensures ok { (head : Head) (before : List Event) → IsJudged self.old head before →
            OnOk result (Awaits self.new head before events.now) }
        ensures found { (head : Head) (before : List Event) → IsJudged self.old head before →
            IfOk result (λ found. IsFound found head before events.now) }
        ensures err { (head : Head) (before : List Event) → IsJudged self.old head before →
            OnErr result (IsJudged self.new head before) }
    {
        if self.first_bad.is_none() {
            return self.judge.judge(events);
        }
        self.judge.note(events)?;
        Ok(None)
    }

    /// How many events were judged.
    pub fn len(&self) -> u64
        ensures count { result ≡ self.now.count }
        ensures length { (head : Head) (events : List Event) → IsJudged self.now head events →
            result ≡ length events }
    {
        self.count
    }

    /// How many segments held them: each was full but the last.
    pub fn segments(&self) -> u64
        ensures { (head : Head) (events : List Event) → IsJudged self.now head events →
            result ≡ segment_count (record { head = head; events = events }) }
    {
        self.count.div_ceil(self.header.segment as u64)
    }

    /// The least event that is not witnessed, with the least reason that fails for it.
    pub fn first_bad(&self) -> Option<(u64, Reason)>
        ensures found { result ≡ self.now.first_bad }
        ensures first { (head : Head) (events : List Event) → IsJudged self.now head events →
            result ≡ first_bad head events }
    {
        self.first_bad
    }
}
