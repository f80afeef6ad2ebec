//! A round over the segments of a stretch.
ghost use Rattle.std.specs.Prelude.{◌≡◌, ◌<◌, ◌↔◌, All, IfOk, map, vec_len};
ghost use Rattle.pg_event.specs.Spelling.{Recorded};
ghost use Rattle.pg_check.specs.Segments.{segment_verdict};
ghost use Rattle.pg_check.specs.Stretches.{HasSegments, IsStretch};
ghost use Rattle.pg_pool.specs.Rounds.{AreCheckers, numbers};

use crate::beside::NoWork;
use crate::error::PoolError;
use crate::gate::Gate;
use crate::numbered_verdict::NO_VERDICT;
use crate::round::Round;
use crate::rounds::judge_round;
use crate::segments::Segments;
use pg_check::{Memo, SegmentVerdict, Stretch};
use std::alloc::{AllocError, Global};
use std::marker::Model;
use std::sync::Wait;
use std::thread::Threads;

/// The segments of a stretch that belong to a round.
#[derive(Drop)]
struct OfStretch<'a> {
    stretch: Stretch<'a>,
    round: Round,
}

impl<'a> Model for OfStretch<'a> {
    ghost use Rattle.pg_pool.specs.Work.{Task};

    ghost Value = { Task };

    ghost use Rattle.pg_check.specs.Stretches.{HasSegments};

    ghost view = { λ s. record { stretch = s.stretch; round = s.round } };

    ghost invariant = { λ s. HasSegments s.stretch s.round.first s.round.last };
}

impl<'a> Segments for OfStretch<'a> {
    ghost use Rattle.std.specs.Prelude.{◌≡◌};
    ghost use Rattle.pg_check.specs.Segments.{segment_verdict};
    ghost use Rattle.pg_check.specs.Stretches.{IsStretch};

    type CheckerState = Memo<'a>;

    type Verdict = SegmentVerdict;

    ghost round = { λ s. s.round };

    ghost fits = { λ s run memo. IsStretch s.stretch run × (memo ≡ s.stretch.past.now) };

    ghost ends = { λ s run memo. IsStretch s.stretch run × (memo ≡ s.stretch.past.now) };

    ghost tells = { λ s run n verdict. verdict ≡ segment_verdict run n };

    ghost again = { λ s run memo h. h };

    fn round(&self) -> Round {
        self.round
    }

    fn blank(&self) -> SegmentVerdict {
        NO_VERDICT
    }

    fn judge(&self, memo: &mut Memo<'a>, number: u32) -> Result<SegmentVerdict, AllocError> {
        Ok(self.stretch.check_segment(memo, number as u64))
    }

    fn finish(&self, _memo: &mut Memo<'a>) -> Result<(), AllocError> {
        Ok(())
    }
}

/// As many memos as there are checkers.
fn memos<'a>(
    alloc: Global,
    stretch: Stretch<'a>,
    checkers: u32,
) -> Result<Vec<Memo<'a>>, AllocError>
    requires { 0 < checkers }
    ensures len { IfOk result (λ memos. vec_len memos ≡ checkers) }
    ensures all { IfOk result (λ memos. All (λ memo. memo ≡ stretch.entry.past.now) memos.items) }
{
    // A checker judges its share of the events, or somewhat more.
    let walks = stretch.events.len() / checkers as usize;
    let mut memos = Vec::new(alloc);
    for _ in 0..checkers {
        memos.push(stretch.memo(walks))?;
    }
    Ok(memos)
}

/// The verdicts of the segments from `first` on and below `last`, in order, by so many checkers,
/// each in a thread of its own.
///
/// Each segment's judging goes through the gate, with the number of its checker; what the checkers
/// left is judged by the calling thread, as the worker after the last of them. Fails where memory
/// or a thread is refused, by the lower number where both are, once all threads that were started
/// have ended; and where the number of checkers is none of 1 to 64, before all else.
pub fn audit_round<R: Threads + Wait + Sync, G: Gate>(
    rt: &R,
    alloc: Global,
    stretch: Stretch<'_>,
    round: Round,
    checkers: u32,
    gate: &G,
) -> Result<Vec<SegmentVerdict>, PoolError>
    requires { HasSegments stretch round.first round.last }
    ensures ok { (r : Recorded) → IsStretch stretch.entry r → IfOk result (λ verdicts.
        verdicts.items ≡ map (segment_verdict r) (numbers round)) }
    ensures checkers { (result ≡ Err PoolError.Checkers) ↔ (¬ AreCheckers checkers) }
{
    if checkers == 0 || checkers > 64 {
        return Err(PoolError::Checkers);
    }
    let memos = memos(alloc, stretch, checkers)?;
    let segments = OfStretch { stretch, round };
    let (outcome, ()) = judge_round(rt, alloc, &segments, gate, memos, NoWork);
    match outcome {
        Ok(outcome) => Ok(outcome.verdicts),
        Err(error) => Err(error),
    }
}
