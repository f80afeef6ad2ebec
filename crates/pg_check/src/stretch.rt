//! A stretch of a run, judged segment by segment.

ghost use Rattle.std.specs.Prelude.{◌≡◌, List};
ghost use Rattle.pg_event.specs.declared.event.Event.{Event};
ghost use Rattle.pg_event.specs.Heads.{Head};
ghost use Rattle.pg_event.specs.Spelling.{Recorded};
ghost use Rattle.pg_chain.specs.Standing.{IsPast};
ghost use Rattle.pg_check.specs.Segments.{segment_verdict};
ghost use Rattle.pg_check.specs.Stretches.{IsStretch, HasSegment};

use crate::by_past::first_bad_of;
use crate::memo::Memo;
use pg_chain::Past;
use pg_event::{Event, Reason};

/// What the check of one segment found.
#[derive(Clone, Copy, PartialEq, Eq)]
pub struct SegmentVerdict {
    /// The number of the segment.
    pub number: u64,
    /// The least event of the segment that is not witnessed, with the least reason that fails.
    pub first_bad: Option<(u64, Reason)>,
}

/// The events of a run from some number on, with what is known of all events up to their end. The
/// events before them need not be at hand, since an event is judged by its past alone.
#[derive(Clone, Copy)]
pub struct Stretch<'a> {
    /// What the run did up to the end of the events.
    pub past: &'a Past,
    /// How many events a full segment has.
    pub segment: u32,
    /// The number of the first event.
    pub first: u64,
    pub events: &'a [Event],
}

impl<'a> Stretch<'a> {
    /// A memo for one thread's judging, with room for so many walks, up to a limit.
    pub fn memo(&self, walks: usize) -> Memo<'a>
        ensures { result ≡ self.now.past.now }
    {
        Memo::new(self.past, walks)
    }

    /// Checks the events of one segment, in their order, up to the first that is not witnessed.
    pub fn check_segment(&self, memo: &mut Memo<'_>, k: u64) -> SegmentVerdict
        requires segment { HasSegment self.now k }
        requires memo { memo.old ≡ self.now.past.now }
        ensures memo { memo.new ≡ memo.old }
        ensures verdict { (r : Recorded) → IsStretch self.now r → result ≡ segment_verdict r k }
    {
        let size = self.segment as u64;
        let start = k * size - self.first;
        let end = (start + size).min(self.events.len() as u64);
        let events = &self.events[start as usize..end as usize];
        SegmentVerdict {
            number: k,
            first_bad: first_bad_of(memo, k * size, events),
        }
    }
}
