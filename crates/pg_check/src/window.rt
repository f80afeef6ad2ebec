//! A window of a run, judged segment by segment, in whatever order.

ghost use Rattle.std.specs.Prelude.{◌≡◌, ◌+◌, ◌≤◌, ◌++◌, List, length, IfOk, OnOk};
ghost use Rattle.pg_event.specs.declared.event.Event.{Event};
ghost use Rattle.pg_event.specs.Heads.{Head};
ghost use Rattle.pg_check.specs.Judging.{HasNoted};
ghost use Rattle.pg_check.specs.Segments.{segment_verdict};
ghost use Rattle.pg_check.specs.Windows.{HasPart, IsAmid, IsNextWindow, with_window};

use crate::judge::Judge;
use crate::stretch::SegmentVerdict;
use pg_event::Event;
use std::alloc::AllocError;

/// The events of a run from some number on: segments that follow each other, all of which are full
/// but for the last of the run.
#[derive(Clone, Copy)]
pub struct Window<'a> {
    /// How many events a full segment has.
    pub segment: u32,
    /// The number of the first event, with which a segment begins.
    pub first: u64,
    pub events: &'a [Event],
}

impl Judge {
    /// How many events of a window were noted.
    fn place_in(&self, window: &Window<'_>) -> usize
        requires { (head : Head) × (before : List Event) × IsNextWindow head before window.now
            × IsAmid self.now head before window.now }
        ensures place { (head : Head) (before : List Event) →
            IsNextWindow head before window.now → IsAmid self.now head before window.now →
            self.now.count ≡ length before + result }
        ensures within { result ≤ length window.now.events.now }
    {
        (self.count() - window.first) as usize
    }

    /// Notes the events of a window up to a place, unless they were noted.
    fn note_to(&mut self, window: &Window<'_>, end: usize) -> Result<(), AllocError>
        requires amid { (head : Head) × (before : List Event) × IsNextWindow head before window.now
            × IsAmid self.old head before window.now }
        requires within { end ≤ length window.now.events.now }
        ensures ok { (head : Head) (before : List Event) → IsNextWindow head before window.now →
            IsAmid self.old head before window.now →
            OnOk result (IsAmid self.new head before window.now) }
        ensures place { (head : Head) (before : List Event) → IsNextWindow head before window.now →
            IsAmid self.old head before window.now → self.old.count ≤ length before + end →
            OnOk result (self.new.count ≡ length before + end) }
        ensures least { (head : Head) (before : List Event) → IsNextWindow head before window.now →
            IsAmid self.old head before window.now →
            OnOk result (length before + end ≤ self.new.count) }
    {
        let place = self.place_in(window);
        if place < end {
            self.note(&window.events[place..end])?;
        }
        Ok(())
    }

    /// Judges one segment of a window. If no event of the segment, or after it, was noted, those
    /// before it are noted and it is judged at the tip; else it is judged by the past. Fails where
    /// memory is refused, and then the judge is not to be used.
    pub fn judge_segment(
        &mut self,
        window: &Window<'_>,
        number: u64,
    ) -> Result<SegmentVerdict, AllocError>
        requires amid { (head : Head) × (before : List Event) × IsNextWindow head before window.now
            × IsAmid self.old head before window.now }
        requires part { HasPart window.now number }
        ensures ok { (head : Head) (before : List Event) → IsNextWindow head before window.now →
            IsAmid self.old head before window.now →
            OnOk result (IsAmid self.new head before window.now) }
        ensures verdict { (head : Head) (before : List Event) →
            IsNextWindow head before window.now → IsAmid self.old head before window.now →
            IfOk result (λ v. v ≡ segment_verdict (with_window head before window.now) number) }
    {
        let first = number * window.segment as u64;
        let start = (first - window.first) as usize;
        let end = (start + window.segment as usize).min(window.events.len());
        let first_bad = if self.place_in(window) <= start {
            self.note_to(window, start)?;
            self.judge(&window.events[start..end])?
        } else {
            self.note_to(window, end)?;
            self.judge_again(first, &window.events[start..end])
        };
        Ok(SegmentVerdict { number, first_bad })
    }

    /// Notes the events of a window that were not noted so far. Fails where memory is refused, and
    /// then the judge is not to be used.
    pub fn note_rest(&mut self, window: &Window<'_>) -> Result<(), AllocError>
        requires { (head : Head) × (before : List Event) × IsNextWindow head before window.now
            × IsAmid self.old head before window.now }
        ensures { (head : Head) (before : List Event) → IsNextWindow head before window.now →
            IsAmid self.old head before window.now →
            OnOk result (HasNoted self.new head (before ++ window.now.events.now)) }
    {
        self.note_to(window, window.events.len())
    }
}
