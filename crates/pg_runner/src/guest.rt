//! A script's run, one thread a processor.

ghost use Rattle.std.specs.Prelude.{◌≡◌, ◌⊎◌, ◌↔◌, IfOk, IfErr, Err};
ghost use Rattle.pg_event.specs.Spelling.{IsRecord};
ghost use Rattle.pg_pool.specs.Rounds.{AreCheckers};
ghost use Rattle.pg_runner.specs.Seats.{counts, is_at};
ghost use Rattle.pg_runner.specs.Runs.{record_of};
ghost use Rattle.pg_runner.specs.Guests.{IsGuestRun};
ghost use Rattle.pg_runner.specs.Live.{IsWant};

use crate::board::Board;
use crate::ending::ended;
use crate::error::RunError;
use crate::given::{Naming, Opened};
use crate::live_judging::LiveJudging;
use crate::lookout::Lookout;
use crate::observer::{Nobody, Observer};
use crate::processor_threads::run_processors;
use crate::progress::Progress;
use crate::publisher::Publisher;
use crate::reader::ReadSeat;
use crate::result::RunResult;
use crate::shared::Shared;
use pg_guest::Script;
use pg_pool::{Gate, OpenGate};
use pg_report::Crew;
use std::alloc::{AllocError, Global};
use std::marker::Brand;
use std::sync::{Mutex, Wait};
use std::thread::Threads;

/// The counts of a run at its start, with their publisher and their one reader.
fn told_by_one_word(alloc: Global) -> Result<(Progress, Publisher, ReadSeat), AllocError>
    ensures publisher { IfOk result (λ r. r.1 ≡ is_at r.0 (counts 0 0)) }
    ensures reader { IfOk result (λ r. r.2 ≡ is_at r.0 (counts 0 0)) }
{
    let (progress, publisher, mut seats) = Progress::open(alloc, 1)?;
    let Some(seat) = seats.pop() else {
        unreachable!()
    };
    Ok((progress, publisher, seat))
}

/// The run on a board that was opened for it, by a name for what is given out of it.
fn run_named<J: Naming + Send + Sync, R: Threads + Wait + Sync, G: Gate, H: Gate, O: Observer>(
    crew: &Crew<'_, R, H>,
    script: &Script,
    gate: &G,
    board: Board<'_>,
    lookout: &mut Lookout<'_, O>,
    opened: Opened,
) -> Result<RunResult, RunError>
    requires name { opened.seen.book ≡ J.book }
    requires board { board.world.taken ≡ 0 }
    ensures ok { IfOk result (λ run. IsGuestRun script.now run) }
    ensures formed { IfOk result (λ run. IsRecord (record_of run.trace)) }
    ensures err { IfErr result IsWant }
{
    let (count, given) = opened.named::<J>();
    let mut judging = LiveJudging::new(crew, script.header().clone()?, count, given.again())?;
    let shared = Mutex::new(Shared::new(board, given));
    match run_processors(crew, &shared, script, gate, lookout, &mut judging) {
        Ok(()) => {
            let (board, team) = shared.into_inner().apart(judging);
            ended(crew, script, board, team)
        }
        Err(e) => Err(e),
    }
}

/// The run on a board that was opened for it.
fn run_on<R: Threads + Wait + Sync, G: Gate, H: Gate, O: Observer>(
    crew: &Crew<'_, R, H>,
    script: &Script,
    gate: &G,
    board: Board<'_>,
    lookout: &mut Lookout<'_, O>,
) -> Result<RunResult, RunError>
    requires { board.world.taken ≡ 0 }
    ensures ok { IfOk result (λ run. IsGuestRun script.now run) }
    ensures formed { IfOk result (λ run. IsRecord (record_of run.trace)) }
    ensures err { IfErr result IsWant }
{
    run_named::<Brand, R, G, H, O>(crew, script, gate, board, lookout, Opened::new())
}

/// Runs a script, each processor in a thread of its own, and has its segments judged by a crew
/// while the processors run. These share their record and its memory under one lock, and take it
/// for one turn at a time. Each instruction goes through the gate, with the number of its processor
/// and its own, and each segment's judging through that of the crew. The calling thread lets the
/// observer see the counts of events and sealed segments, each time that it looks for segments to
/// be judged, and once more when the processors' threads have ended, unless memory or a thread was
/// refused. It was told nothing before.
///
/// Fails once all threads that were started have ended, by the lowest number that there is, where
/// memory or a thread was refused.
pub fn run_guest_followed<R: Threads + Wait + Sync, G: Gate, H: Gate, O: Observer + Drop>(
    crew: &Crew<'_, R, H>,
    script: &Script,
    gate: &G,
    observer: O,
) -> Result<RunResult, RunError>
    requires { O.told observer ≡ counts 0 0 }
    ensures ok { IfOk result (λ run. IsGuestRun script.now run) }
    ensures formed { IfOk result (λ run. IsRecord (record_of run.trace)) }
    ensures err { IfErr result IsWant }
{
    let (progress, publisher, seat) = told_by_one_word(crew.alloc)?;
    let mut lookout = Lookout::new(&progress, seat, observer);
    let board = Board::new(crew.alloc, script, publisher, &progress)?;
    run_on(crew, script, gate, board, &mut lookout)
}

/// Runs a script as `run_guest_followed` does, with no observer, by a crew of so many checkers,
/// whose work goes through a gate.
///
/// Fails where the number of checkers is none of 1 to 64, before all else.
pub fn run_guest_watched<R: Threads + Wait + Sync, G: Gate, H: Gate>(
    rt: &R,
    alloc: Global,
    script: &Script,
    checkers: u32,
    gate: &G,
    checkers_gate: &H,
) -> Result<RunResult, RunError>
    ensures ok { IfOk result (λ run. IsGuestRun script.now run) }
    ensures formed { IfOk result (λ run. IsRecord (record_of run.trace)) }
    ensures checkers { (result ≡ Err RunError.Checkers) ↔ (¬ AreCheckers checkers) }
    ensures err { IfErr result (λ e. (e ≡ RunError.Checkers) ⊎ IsWant e) }
{
    if checkers == 0 || checkers > 64 {
        return Err(RunError::Checkers);
    }
    let crew = Crew {
        rt,
        alloc,
        checkers,
        gate: checkers_gate,
    };
    run_guest_followed(&crew, script, gate, Nobody)
}

/// Runs a script as `run_guest_watched` does, with nothing around the checkers' work.
pub fn run_guest<R: Threads + Wait + Sync, G: Gate>(
    rt: &R,
    alloc: Global,
    script: &Script,
    checkers: u32,
    gate: &G,
) -> Result<RunResult, RunError>
    ensures ok { IfOk result (λ run. IsGuestRun script.now run) }
    ensures formed { IfOk result (λ run. IsRecord (record_of run.trace)) }
    ensures checkers { (result ≡ Err RunError.Checkers) ↔ (¬ AreCheckers checkers) }
    ensures err { IfErr result (λ e. (e ≡ RunError.Checkers) ⊎ IsWant e) }
{
    run_guest_watched(rt, alloc, script, checkers, gate, &OpenGate)
}
