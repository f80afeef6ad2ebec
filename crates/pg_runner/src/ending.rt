//! What is left once the threads are joined.

ghost use Rattle.std.specs.Prelude.{◌≡◌, ◌≢◌, ◌<◌, ℕ, length, map, IfOk, IfErr, IfSome, IsTrue};
ghost use Rattle.std.specs.Prelude.{slice_get};
ghost use mathlib.Core.List.{IsPrefix};
ghost use Rattle.pg_runner.specs.Boards.{HasToldAll, IsRunOf};
ghost use Rattle.pg_guest.specs.Held.{seen};
ghost use Rattle.pg_event.specs.Spelling.{IsRecord};
ghost use Rattle.pg_runner.specs.Runs.{record_of};
ghost use Rattle.pg_runner.specs.Live.{IsBegun, IsWant};
ghost use Rattle.pg_runner.specs.Guests.{IsGuestRun, HaveToldAll, StayBut};

use crate::board::Board;
use crate::error::RunError;
use crate::finished::Finished;
use crate::record_report::report_by;
use crate::result::RunResult;
use crate::single::{run_single, transcripts_of};
use pg_guest::{Advance, Script, Stop};
use pg_pool::Gate;
use pg_report::{Crew, Team};
use std::alloc::Global;
use std::sync::Wait;
use std::thread::Threads;

/// So many turns are enough for a processor's instructions, where no other has one between: nine
/// for each, and one that says that it has ended.
fn enough_turns(script: &Script, p: u16) -> usize {
    script
        .instructions(p)
        .len()
        .saturating_mul(9)
        .saturating_add(1)
}

/// Turns processor `p` until it has ended, and says whether it has: these turns are enough in every
/// board that threads leave.
fn end_one(board: &mut Board<'_>, script: &Script, p: u16) -> Result<bool, RunError>
    requires within { p < length board.old.processors }
    requires script { IsRunOf script.now board.old.world board.old.processors }
    ensures script { IsRunOf script.now board.new.world board.new.processors }
    ensures count { length board.new.processors ≡ length board.old.processors }
    ensures others { StayBut p (map seen board.old.processors) (map seen board.new.processors) }
    ensures grows { IsPrefix board.old.world.events board.new.world.events }
    ensures ended { IfOk result (λ ended. IsTrue ended →
        HasToldAll p (map seen board.new.processors)) }
    ensures err { IfErr result IsWant }
{
    for _ in 0..enough_turns(script, p) {
        match board.turn(p) {
            Advance::Read(_) | Advance::Assisted(_) | Advance::Done(_) => {}
            Advance::Ended => return Ok(true),
            Advance::Stopped(Stop::Memory) => return Err(RunError::Memory),
            Advance::Stopped(Stop::Full) => return Ok(false),
            Advance::Stopped(Stop::Finished) => unreachable!(),
        }
    }
    Ok(false)
}

/// Turns all processors until they have ended, and says whether they have.
fn end_all(board: &mut Board<'_>, script: &Script) -> Result<bool, RunError>
    requires { IsRunOf script.now board.old.world board.old.processors }
    ensures script { IsRunOf script.now board.new.world board.new.processors }
    ensures grows { IsPrefix board.old.world.events board.new.world.events }
    ensures ended { IfOk result (λ ended. IsTrue ended →
        HaveToldAll (map seen board.new.processors)) }
    ensures err { IfErr result IsWant }
{
    let count = script.header().processors.len();
    for p in 0..count {
        match end_one(board, script, p as u16) {
            Ok(true) => {}
            Ok(false) => return Ok(false),
            Err(e) => return Err(e),
        }
    }
    Ok(true)
}

/// What the run of a script came to whose processors have ended.
fn result_of<R: Threads + Wait + Sync, H: Gate>(
    crew: &Crew<'_, R, H>,
    script: &Script,
    board: Board<'_>,
    team: Option<Team>,
) -> Result<RunResult, RunError>
    requires script { IsRunOf script.now board.world board.processors }
    requires ended { HaveToldAll (map seen board.processors) }
    requires begun { IfSome team (λ t. IsBegun t board.world.events) }
    ensures ok { IfOk result (λ run. IsGuestRun script.now run) }
    ensures formed { IfOk result (λ run. IsRecord (record_of run.trace)) }
    ensures err { IfErr result IsWant }
{
    // Its settings say that it is a script.
    let _header = script.header();
    let Finished {
        world,
        processors,
        publisher: _,
    } = board.finish();
    let trace = world.into_record();
    let report = match report_by(crew, team, &trace) {
        Ok(report) => report,
        Err(e) => return Err(e),
    };
    let transcripts = transcripts_of(crew.alloc, processors)?;
    Ok(RunResult {
        trace,
        report,
        transcripts,
    })
}

/// Has each processor of a board tell all its instructions, where the board is one of the script.
fn told_all(board: &mut Board<'_>, script: &Script) -> Result<bool, RunError>
    ensures script { IfOk result (λ told. IsTrue told →
        IsRunOf script.now board.new.world board.new.processors) }
    ensures told { IfOk result (λ told. IsTrue told →
        HaveToldAll (map seen board.new.processors)) }
    ensures grows { IsPrefix board.old.world.events board.new.world.events }
    ensures err { IfErr result IsWant }
{
    if !board.is_of(script) {
        return Ok(false);
    }
    end_all(board, script)
}

/// Ends the run of a script on the calling thread, and judges what was not judged before by this
/// team, if there is one. Where the board is another script's, or does not come to its end, which
/// no threads bring about, the script is run anew.
pub(crate) fn ended<R: Threads + Wait + Sync, H: Gate>(
    crew: &Crew<'_, R, H>,
    script: &Script,
    mut board: Board<'_>,
    team: Option<Team>,
) -> Result<RunResult, RunError>
    requires { IfSome team (λ t. IsBegun t board.world.events) }
    ensures ok { IfOk result (λ run. IsGuestRun script.now run) }
    ensures formed { IfOk result (λ run. IsRecord (record_of run.trace)) }
    ensures err { IfErr result IsWant }
{
    match told_all(&mut board, script) {
        Ok(true) => result_of(crew, script, board, team),
        Ok(false) => anew(crew.alloc, script),
        Err(e) => Err(e),
    }
}

/// The script's run on this thread alone.
fn anew(alloc: Global, script: &Script) -> Result<RunResult, RunError>
    ensures ok { IfOk result (λ run. IsGuestRun script.now run) }
    ensures formed { IfOk result (λ run. IsRecord (record_of run.trace)) }
    ensures err { IfErr result IsWant }
{
    run_single(alloc, script)
}
