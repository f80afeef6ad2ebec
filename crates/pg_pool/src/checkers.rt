//! The checkers' threads.
ghost use Rattle.std.specs.Prelude.{◌≡◌, ◌≢◌, ◌≤◌, ◌<◌, ℕ, All, Err, IfOk, IfErr, Ok, map, vec_len};
ghost use Rattle.pg_event.specs.Spelling.{Recorded};
ghost use Rattle.pg_pool.specs.Work.{IsDone, IsFresh, IsFreshIn};

use crate::beside::Beside;
use crate::checker::{Done, work};
use crate::error::PoolError;
use crate::gate::Gate;
use crate::round::Round;
use crate::seat::Seat;
use crate::segments::Segments;
use std::alloc::{AllocError, Global};
use std::snapshot::Snapshot;
use std::sync::Wait;
use std::thread;
use std::thread::{Promise, Threads};

/// What a checker's thread promises of what it gives back, by what the checker began with.
pub(crate) struct Promised<'a, J, B> {
    pub segments: &'a J,
    pub round: Round,
    pub began: Snapshot<B>,
}

// By hand, since a derive would ask it of the segments.
impl<'a, J, B> Drop for Promised<'a, J, B> {
    fn drop(self) {
        let Promised {
            segments: _,
            round: _,
            began: _,
        } = self;
    }
}

impl<'a, J: Segments> Promise<Result<Done<J::CheckerState, J::Verdict>, AllocError>>
    for Promised<'a, J, J::CheckerState> {
    ghost use Rattle.std.specs.Prelude.{IfOk};
    ghost use Rattle.pg_event.specs.Spelling.{Recorded};
    ghost use Rattle.pg_pool.specs.Work.{IsDone};

    ghost kept_by = { λ p done. (run : Recorded) → J.fits p.segments.now run p.began.value →
        IfOk done (IsDone (J.ends p.segments.now run) (J.tells p.segments.now run) p.round) };
}

/// What all threads did, if as many worked as were asked for and none was refused memory.
fn settled<B: Drop, V: Drop>(
    alloc: Global,
    done: Vec<Result<Done<B, V>, AllocError>>,
    asked: usize,
) -> Result<Vec<Done<B, V>>, PoolError>
    ensures len { IfOk result (λ all. asked ≤ vec_len all) }
    ensures items { IfOk result (λ all. done.items ≡ map (λ d. Ok d) all.items) }
    ensures thread { result ≡ Err PoolError.Thread →
        (vec_len done < asked) × All (λ d. IfErr d (λ _. ⊥)) done.items }
    ensures err { IfErr result (λ e. e ≢ PoolError.Checkers) }
{
    let started = done.len();
    let mut all = Vec::new(alloc);
    for one in done {
        if all.push(one?).is_err() {
            return Err(PoolError::Memory);
        }
    }
    if started < asked {
        return Err(PoolError::Thread);
    }
    Ok(all)
}

/// Lets each seat's checker work in a thread of its own, and does a piece of work beside them. All
/// that were started are joined before it answers, also where a thread was refused.
pub(crate) fn run_checkers<R: Threads + Wait + Sync, J: Segments, G: Gate, B: Beside>(
    rt: &R,
    alloc: Global,
    segments: &J,
    gate: &G,
    seats: Vec<Seat>,
    states: Vec<J::CheckerState>,
    beside: B,
) -> (
    Result<Vec<Done<J::CheckerState, J::Verdict>>, PoolError>,
    B::Output,
)
    requires fresh { All (IsFreshIn (J.round segments.now)) seats.items }
    requires len { vec_len states ≡ vec_len seats }
    requires fits { (run : Recorded) × All (J.fits segments.now run) states.items }
    requires beside { B.can_run beside }
    ensures len { IfOk result.0 (λ done. vec_len done ≡ vec_len seats) }
    ensures done { (run : Recorded) → All (J.fits segments.now run) states.items →
        IfOk result.0 (λ done. All (IsDone (J.ends segments.now run) (J.tells segments.now run)
        (J.round segments.now)) done.items) }
    ensures err { IfErr result.0 (λ e. e ≢ PoolError.Checkers) }
    ensures beside { B.gives beside result.1 }
{
    let round = segments.round();
    thread::scope(
        thread::scope_env(),
        rt,
        |scope| -> (
            Result<Vec<Done<J::CheckerState, J::Verdict>>, PoolError>,
            B::Output,
        )
            requires fresh { All (IsFreshIn round) seats.items }
            requires len { vec_len states ≡ vec_len seats }
            requires round { round ≡ J.round segments.now }
            requires fits { (run : Recorded) × All (J.fits segments.now run) states.items }
            requires beside { B.can_run beside }
            ensures len { IfOk result.0 (λ done. vec_len done ≡ vec_len seats) }
            ensures done { (run : Recorded) →
                All (J.fits segments.entry.now run) states.items → IfOk result.0 (λ done.
                All (IsDone (J.ends segments.entry.now run) (J.tells segments.entry.now run) round)
                done.items) }
            ensures err { IfErr result.0 (λ e. e ≢ PoolError.Checkers) }
            ensures beside { B.gives beside result.1 }
        {
            let asked = seats.len();
            let mut waiting = states;
            let Ok(mut handles) = Vec::with_capacity(alloc, asked) else {
                return (Err(PoolError::Memory), beside.run());
            };
            // Any state does for any seat. The last comes first, as it was used last.
            for seat in seats {
                let Some(state) = waiting.pop() else {
                    unreachable!()
                };
                let promised = Promised {
                    segments,
                    round,
                    began: Snapshot::of(&state),
                };
                let started = scope.spawn_with(
                    promised,
                    move || -> Result<Done<J::CheckerState, J::Verdict>, AllocError>
                        requires fresh { IsFresh seat }
                        requires round { seat.round ≡ J.round segments.now }
                        requires some { (run : Recorded) × J.fits segments.now run state }
                    { work(alloc, segments, state, gate, seat) },
                );
                match started {
                    Ok(handle) => handles.push_reserved(handle),
                    Err(_) => break,
                }
            }
            let output = beside.run();
            match thread::join_promised(rt, handles) {
                Ok(done) => (settled(alloc, done, asked), output),
                Err(_) => (Err(PoolError::Memory), output),
            }
        },
    )
}
