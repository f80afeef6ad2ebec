//! A round over the segments of a window, by judges that live as long as the run.
ghost use Rattle.std.specs.Prelude.{◌≡◌, ◌≢◌, List, IfOk, IfErr, vec_len};
ghost use Rattle.pg_event.specs.declared.event.Event.{Event};
ghost use Rattle.pg_event.specs.Heads.{Head};
ghost use Rattle.pg_check.specs.Windows.{IsNextWindow};
ghost use Rattle.pg_pool.specs.Rounds.{AreCheckers};
ghost use Rattle.pg_pool.specs.Windows.{HasParts, IsWindowJudged, MayJudge, round_of};

use crate::beside::Beside;
use crate::error::PoolError;
use crate::gate::Gate;
use crate::numbered_verdict::NO_VERDICT;
use crate::round::Round;
use crate::rounds::judge_round;
use crate::segments::Segments;
use pg_check::{Judge, SegmentVerdict, Window};
use std::alloc::{AllocError, Global};
use std::marker::Model;
use std::sync::Wait;
use std::thread::Threads;

/// The segments of a window.
struct OfWindow<'a> {
    window: &'a Window<'a>,
    round: Round,
    ghost parts: { HasParts round window.now },
}

// By hand, since a derive would take a ghost field for one to be dropped.
impl<'a> Drop for OfWindow<'a> {
    fn drop(self) {
        let OfWindow {
            window: _,
            round: _,
        } = self;
    }
}

impl<'a> Segments for OfWindow<'a> {
    ghost use Rattle.std.specs.Prelude.{◌≡◌};
    ghost use Rattle.pg_check.specs.Judging.{HasNoted};
    ghost use Rattle.pg_check.specs.Segments.{segment_verdict};
    ghost use Rattle.pg_pool.specs.Windows.{Fits};

    type CheckerState = Judge;

    type Verdict = SegmentVerdict;

    ghost round = { λ s. s.round };

    ghost fits = { λ s run judge. Fits s.window.now run judge };

    ghost ends = { λ s run judge.
        Fits s.window.now run judge × HasNoted judge run.head run.events };

    ghost tells = { λ s run n verdict. verdict ≡ segment_verdict run n };

    ghost again = { λ s run judge h. h.0 };

    fn round(&self) -> Round {
        self.round
    }

    fn blank(&self) -> SegmentVerdict {
        NO_VERDICT
    }

    fn judge(&self, judge: &mut Judge, number: u32) -> Result<SegmentVerdict, AllocError> {
        judge.judge_segment(self.window, number as u64)
    }

    fn finish(&self, judge: &mut Judge) -> Result<(), AllocError> {
        judge.note_rest(self.window)
    }
}

/// What judging a window gives: the verdicts of its segments, in order, and the judges, which have
/// noted all its events.
#[derive(Drop)]
pub struct WindowJudged {
    /// The numbers of its segments.
    pub round: Round,
    pub verdicts: Vec<SegmentVerdict>,
    pub judges: Vec<Judge>,
}

/// The segments of a window.
fn round_of(window: &Window<'_>) -> Round
    requires { (head : Head) × (before : List Event) × IsNextWindow head before window.now }
    ensures { result ≡ round_of window.now }
{
    let size = window.segment as u64;
    let last = window.first + window.events.len() as u64;
    Round {
        first: (window.first / size) as u32,
        last: last.div_ceil(size) as u32,
    }
}

/// The verdicts of the segments of a window, in order, by the judges given, each in a thread of its
/// own; and what a piece of work gives that the calling thread does once their threads were
/// started, and before they are joined. That is done once, also where the round fails.
///
/// The judges take the segments from one another. Each segment's judging goes through the gate,
/// with the number of its checker; what they left is judged by the calling thread, as the worker
/// after the last of them. Fails where memory or a thread is refused, by the lower number where
/// both are, once all threads that were started have ended; the judges are gone then.
pub fn judge_window_beside<R: Threads + Wait + Sync, G: Gate, B: Beside>(
    rt: &R,
    alloc: Global,
    window: &Window<'_>,
    judges: Vec<Judge>,
    gate: &G,
    beside: B,
) -> (Result<WindowJudged, PoolError>, B::Output)
    requires checkers { AreCheckers (vec_len judges) }
    requires next { (head : Head) × (before : List Event)
        × MayJudge head before window.now judges.items }
    requires beside { B.can_run beside }
    ensures ok { (head : Head) (before : List Event) →
        MayJudge head before window.now judges.items →
        IfOk result.0 (IsWindowJudged head before window.now) }
    ensures len { IfOk result.0 (λ judged. vec_len judged.judges ≡ vec_len judges) }
    ensures err { IfErr result.0 (λ e. e ≢ PoolError.Checkers) }
    ensures beside { B.gives beside result.1 }
{
    let round = round_of(window);
    let segments = OfWindow { window, round };
    let (outcome, output) = judge_round(rt, alloc, &segments, gate, judges, beside);
    match outcome {
        Ok(outcome) => {
            let judged = WindowJudged {
                round,
                verdicts: outcome.verdicts,
                judges: outcome.states,
            };
            (Ok(judged), output)
        }
        Err(error) => (Err(error), output),
    }
}
