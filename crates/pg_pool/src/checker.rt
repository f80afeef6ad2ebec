//! The work of one checker.
ghost use Rattle.std.specs.Prelude.{◌≡◌, IfOk};
ghost use Rattle.pg_event.specs.Spelling.{Recorded};
ghost use Rattle.pg_pool.specs.Work.{IsDone, IsFresh};

use crate::gate::Gate;
use crate::numbered_verdict::NumberedVerdict;
use crate::seat::Seat;
use crate::segments::Segments;
use std::alloc::{AllocError, Global};

/// What a checker gives back: what it keeps, its seat, and what it tells of the segments that it
/// took.
#[derive(Drop)]
pub(crate) struct Done<B, V> {
    pub state: B,
    pub seat: Seat,
    pub told: Vec<NumberedVerdict<V>>,
}

/// Takes segments and judges them, until none is found, and goes through what is left of the run.
/// Fails where memory is refused.
pub(crate) fn work<J: Segments, G: Gate>(
    alloc: Global,
    segments: &J,
    mut state: J::CheckerState,
    gate: &G,
    mut seat: Seat,
) -> Result<Done<J::CheckerState, J::Verdict>, AllocError>
    requires fresh { IsFresh seat }
    requires round { seat.round ≡ J.round segments.now }
    requires fits { (run : Recorded) × J.fits segments.now run state }
    ensures { (run : Recorded) → J.fits segments.now run state → IfOk result
        (IsDone (J.ends segments.now run) (J.tells segments.now run) seat.round) }
{
    let worker = seat.number();
    let round = seat.round();
    let mut told = Vec::new(alloc);
    // Each turn takes another number, so no more turns than numbers are needed.
    for _ in round.first..round.last {
        let Some(number) = seat.take() else {
            break;
        };
        gate.enter(worker, number as u64);
        let judged = segments.judge(&mut state, number);
        gate.leave(worker, number as u64);
        told.push(NumberedVerdict {
            number,
            verdict: judged?,
        })?;
    }
    segments.finish(&mut state)?;
    Ok(Done { state, seat, told })
}
