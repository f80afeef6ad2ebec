//! What a round asks of the segments.
ghost use Rattle.std.specs.Prelude.{◌≡◌, IfOk, OnOk};
ghost use Rattle.pg_event.specs.Spelling.{Recorded};
ghost use Rattle.pg_pool.specs.Rounds.{IsIn};

use crate::round::Round;
use std::alloc::AllocError;

/// The segments of a round, and how a checker judges one. Many threads ask it at once.
pub trait Segments: Sync {
    ghost use Rattle.std.specs.Prelude.{ℕ};
    ghost use Rattle.pg_event.specs.Spelling.{Recorded};
    ghost use Rattle.pg_pool.specs.declared.round.Round.{Round};

    /// What a checker keeps from one segment to the next.
    type CheckerState: Drop + Send;

    /// What is told of a segment.
    type Verdict: Copy + Drop + Send;

    // The segments that can be judged.
    ghost round: { Self → Round };

    // With this, a checker judges the segments of this run.
    ghost fits: { Self → Recorded → Self.CheckerState → Type 0 };

    // This is what a checker keeps once it has gone through the run.
    ghost ends: { Self → Recorded → Self.CheckerState → Type 0 };

    // This is so of the segment of this run with this number.
    ghost tells: { Self → Recorded → ℕ → Self.Verdict → Type 0 };

    // Who has gone through the run may judge its segments still.
    ghost again: { (s : Self) (run : Recorded) (state : Self.CheckerState) →
        ends s run state → fits s run state };

    fn round(&self) -> Round
        ensures { result ≡ round self.now };

    /// What stands at a place until the verdict of its segment comes.
    fn blank(&self) -> Self::Verdict;

    /// The verdict of one segment. Fails where memory is refused.
    fn judge(
        &self,
        state: &mut Self::CheckerState,
        number: u32,
    ) -> Result<Self::Verdict, AllocError>
        requires round { IsIn (round self.now) number }
        requires fits { (run : Recorded) × fits self.now run state.old }
        ensures fits { (run : Recorded) → fits self.now run state.old →
            OnOk result (fits self.now run state.new) }
        ensures verdict { (run : Recorded) → fits self.now run state.old →
            IfOk result (tells self.now run number) };

    /// Goes through what is left of the run. Fails where memory is refused.
    fn finish(&self, state: &mut Self::CheckerState) -> Result<(), AllocError>
        requires { (run : Recorded) × fits self.now run state.old }
        ensures fits { (run : Recorded) → fits self.now run state.old →
            OnOk result (fits self.now run state.new) }
        ensures ends { (run : Recorded) → fits self.now run state.old →
            OnOk result (ends self.now run state.new) };
}
