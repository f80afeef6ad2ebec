//! A round from its start to its verdicts.
ghost use Rattle.std.specs.Prelude.{◌≡◌, ◌≢◌, ◌-◌, ◌≤◌, ◌<◌, ℕ, All, IfOk, IfErr, map};
ghost use Rattle.std.specs.Prelude.{vec_len};
ghost use Rattle.pg_event.specs.Spelling.{Recorded};
ghost use Rattle.pg_pool.specs.Rounds.{AreCheckers};
ghost use Rattle.pg_pool.specs.Verdicts.{AreVerdicts};
ghost use Rattle.pg_pool.specs.Work.{IsDone};

use crate::beside::Beside;
use crate::checker::Done;
use crate::checkers::run_checkers;
use crate::close::close_round;
use crate::deal::open_blocks;
use crate::error::PoolError;
use crate::gate::Gate;
use crate::placing::{judge_left, place_all, place_done};
use crate::round::Round;
use crate::seat::Seat;
use crate::segments::Segments;
use std::alloc::{AllocError, Global};
use std::sync::Wait;
use std::thread::Threads;

/// What a round gives: the verdicts of its segments, in order, and what its checkers keep.
#[derive(Drop)]
pub struct Outcome<B, V> {
    pub verdicts: Vec<V>,
    pub states: Vec<B>,
}

/// The seats and what the checkers keep, apart.
fn apart<B: Drop, V: Drop>(
    alloc: Global,
    done: Vec<Done<B, V>>,
) -> Result<(Vec<Seat>, Vec<B>), AllocError>
    ensures seats { IfOk result (λ r. r.0.items ≡ map (λ d. d.seat) done.items) }
    ensures states { IfOk result (λ r. r.1.items ≡ map (λ d. d.state) done.items) }
{
    let mut seats = Vec::new(alloc);
    let mut states = Vec::new(alloc);
    for one in done {
        let Done {
            state,
            seat,
            told: _,
        } = one;
        seats.push(seat)?;
        states.push(state)?;
    }
    Ok((seats, states))
}

/// All verdicts of a round at their places: those that its checkers gave, and those of the segments
/// that none of them took, which it judges as the worker with the number given.
fn gather<J: Segments, G: Gate>(
    alloc: Global,
    segments: &J,
    gate: &G,
    round: Round,
    worker: u32,
    done: Vec<Done<J::CheckerState, J::Verdict>>,
) -> Result<Outcome<J::CheckerState, J::Verdict>, AllocError>
    requires ordered { round.first ≤ round.last }
    requires round { round ≡ J.round segments.now }
    requires some { 0 < vec_len done }
    requires done { (run : Recorded)
        × All (IsDone (J.ends segments.now run) (J.tells segments.now run) round) done.items }
    ensures verdicts { (run : Recorded) →
        All (IsDone (J.ends segments.now run) (J.tells segments.now run) round) done.items →
        IfOk result (λ outcome.
        AreVerdicts (J.tells segments.now run) round outcome.verdicts.items) }
    ensures ends { (run : Recorded) →
        All (IsDone (J.ends segments.now run) (J.tells segments.now run) round) done.items →
        IfOk result (λ outcome. All (J.ends segments.now run) outcome.states.items) }
    ensures len { IfOk result (λ outcome. vec_len outcome.states ≡ vec_len done) }
{
    let count = (round.last - round.first) as usize;
    let mut verdicts = Vec::from_elem(alloc, segments.blank(), count)?;
    place_done(&mut verdicts, round.first, &done);
    let (seats, mut states) = apart(alloc, done)?;
    let left = close_round(alloc, seats)?;
    // Each has gone through the run, so any of them may judge what was left.
    let Some(mut state) = states.pop() else {
        unreachable!()
    };
    let told = judge_left(alloc, segments, gate, worker, &mut state, &left)?;
    place_all(&mut verdicts, round.first, &told);
    // Nothing is left to go through, but only this says that the state is at the end still.
    segments.finish(&mut state)?;
    states.push_reserved(state);
    Ok(Outcome { verdicts, states })
}

/// How many segments that follow each other are dealt to a checker: its whole share. They have most
/// walks in common, and each checker makes its own.
fn block_of(round: Round, checkers: u32) -> u32
    requires ordered { round.first ≤ round.last }
    requires some { 0 < checkers }
    ensures { 0 < result }
{
    (round.last - round.first).div_ceil(checkers).max(1)
}

/// The outcome of a round by what its checkers did, if they did it.
fn gather_done<J: Segments, G: Gate>(
    alloc: Global,
    segments: &J,
    gate: &G,
    worker: u32,
    done: Result<Vec<Done<J::CheckerState, J::Verdict>>, PoolError>,
) -> Result<Outcome<J::CheckerState, J::Verdict>, PoolError>
    requires ordered { (J.round segments.now).first ≤ (J.round segments.now).last }
    requires some { IfOk done (λ all. 0 < vec_len all) }
    requires done { (run : Recorded) × IfOk done (λ all. All (IsDone (J.ends segments.now run)
        (J.tells segments.now run) (J.round segments.now)) all.items) }
    requires err { IfErr done (λ e. e ≢ PoolError.Checkers) }
    ensures verdicts { (run : Recorded) → IfOk done (λ all. All (IsDone (J.ends segments.now run)
        (J.tells segments.now run) (J.round segments.now)) all.items) → IfOk result (λ outcome.
        AreVerdicts (J.tells segments.now run) (J.round segments.now) outcome.verdicts.items) }
    ensures ends { (run : Recorded) → IfOk done (λ all. All (IsDone (J.ends segments.now run)
        (J.tells segments.now run) (J.round segments.now)) all.items) →
        IfOk result (λ outcome. All (J.ends segments.now run) outcome.states.items) }
    ensures len { (n : ℕ) → IfOk done (λ all. vec_len all ≡ n) →
        IfOk result (λ outcome. vec_len outcome.states ≡ n) }
    ensures err { IfErr result (λ e. e ≢ PoolError.Checkers) }
{
    match done {
        Ok(done) => Ok(gather(alloc, segments, gate, segments.round(), worker, done)?),
        Err(error) => Err(error),
    }
}

/// The outcome of a round by checkers that begin with what is given, and what the work beside them
/// gives. The calling thread does that work while they judge, and then judges what they left, as
/// the worker after the last of them.
pub fn judge_round<R: Threads + Wait + Sync, J: Segments, G: Gate, B: Beside>(
    rt: &R,
    alloc: Global,
    segments: &J,
    gate: &G,
    states: Vec<J::CheckerState>,
    beside: B,
) -> (
    Result<Outcome<J::CheckerState, J::Verdict>, PoolError>,
    B::Output,
)
    requires ordered { (J.round segments.now).first ≤ (J.round segments.now).last }
    requires checkers { AreCheckers (vec_len states) }
    requires fits { (run : Recorded) × All (J.fits segments.now run) states.items }
    requires beside { B.can_run beside }
    ensures verdicts { (run : Recorded) → All (J.fits segments.now run) states.items →
        IfOk result.0 (λ outcome.
        AreVerdicts (J.tells segments.now run) (J.round segments.now) outcome.verdicts.items) }
    ensures ends { (run : Recorded) → All (J.fits segments.now run) states.items →
        IfOk result.0 (λ outcome. All (J.ends segments.now run) outcome.states.items) }
    ensures len { IfOk result.0 (λ outcome. vec_len outcome.states ≡ vec_len states) }
    ensures err { IfErr result.0 (λ e. e ≢ PoolError.Checkers) }
    ensures beside { B.gives beside result.1 }
{
    let round = segments.round();
    let checkers = states.len() as u32;
    let block = block_of(round, checkers);
    let seats = match open_blocks(alloc, round, block, checkers) {
        Ok(seats) => seats,
        Err(_) => return (Err(PoolError::Memory), beside.run()),
    };
    let (done, output) = run_checkers(rt, alloc, segments, gate, seats, states, beside);
    (gather_done(alloc, segments, gate, checkers, done), output)
}
