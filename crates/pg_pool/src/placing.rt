//! Verdicts at the places of their segments.
ghost use Rattle.std.specs.Prelude.{◌≡◌, ◌+◌, All, OnOk, IfOk, length};
ghost use Rattle.pg_event.specs.Spelling.{Recorded};
ghost use Rattle.pg_pool.specs.Rounds.{IsIn, round};
ghost use Rattle.pg_pool.specs.Verdicts.{IsTold, numbers_of, placed};
ghost use Rattle.pg_pool.specs.Work.{all_told};

use crate::checker::Done;
use crate::gate::Gate;
use crate::numbered_verdict::NumberedVerdict;
use crate::segments::Segments;
use std::alloc::{AllocError, Global};

/// Puts verdicts to the places of their numbers.
pub(crate) fn place_all<V: Copy>(verdicts: &mut [V], first: u32, told: &[NumberedVerdict<V>])
    requires { All (λ t. IsIn (round first (first + length verdicts.old)) t.number) told.now }
    ensures { verdicts.new ≡ placed first verdicts.old told.now }
{
    for one in told {
        verdicts[(one.number - first) as usize] = one.verdict;
    }
}

/// Puts the verdicts of all checkers to the places of their numbers.
pub(crate) fn place_done<B, V: Copy>(verdicts: &mut [V], first: u32, done: &[Done<B, V>])
    requires { All (λ d. All (λ t. IsIn (round first (first + length verdicts.old)) t.number)
        d.told.items) done.now }
    ensures { verdicts.new ≡ placed first verdicts.old (all_told done.now) }
{
    for one in done {
        place_all(verdicts, first, &one.told);
    }
}

/// Judges the segments that were left. Fails where memory is refused.
pub(crate) fn judge_left<J: Segments, G: Gate>(
    alloc: Global,
    segments: &J,
    gate: &G,
    worker: u32,
    state: &mut J::CheckerState,
    left: &[u32],
) -> Result<Vec<NumberedVerdict<J::Verdict>>, AllocError>
    requires round { All (IsIn (J.round segments.now)) left.now }
    requires fits { (run : Recorded) × J.fits segments.now run state.old }
    ensures fits { (run : Recorded) → J.fits segments.now run state.old →
        OnOk result (J.fits segments.now run state.new) }
    ensures told { (run : Recorded) → J.fits segments.now run state.old → IfOk result
        (λ told. All (IsTold (J.tells segments.now run) (J.round segments.now)) told.items) }
    ensures numbers { IfOk result (λ told. numbers_of told.items ≡ left.now) }
{
    let mut told = Vec::new(alloc);
    for number in left {
        gate.enter(worker, *number as u64);
        let judged = segments.judge(state, *number);
        gate.leave(worker, *number as u64);
        told.push(NumberedVerdict {
            number: *number,
            verdict: judged?,
        })?;
    }
    Ok(told)
}
