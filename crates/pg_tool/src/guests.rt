//! Runs of guest scripts, from a script's bytes to its record or that record's report.

ghost use Rattle.std.specs.Prelude.{◌≡◌, IfOk, IfErr};
ghost use Rattle.pg_event.specs.Spelling.{IsRecord, record_bytes};
ghost use Rattle.pg_runner.specs.Seats.{counts};
ghost use Rattle.pg_report.specs.Changes.{drawn, filled};
ghost use Rattle.pg_report.specs.Text.{report_text};
ghost use Rattle.pg_runner.specs.Runs.{record_of};
ghost use Rattle.pg_runner.specs.Guests.{IsGuestRun as IsThreadsRun};
ghost use Rattle.pg_runner.specs.Live.{IsWant};
ghost use Rattle.pg_tool.specs.Guests.{IsGuestRun, IsResultBy, StopsBy, TakesScript, WritesAnswer};

use crate::guest_error::GuestError;
use pg_arguments::{Checkers, RunOptions};
use pg_codec::{IntakeError, Sink, Source, pull_all, put_all, write_record};
use pg_event::Record;
use pg_guest::Script;
use pg_pool::OpenGate;
use pg_report::{Crew, Report};
use pg_runner::{Observer, RunError, RunResult, run_guest_followed, run_single};
use std::alloc::{AllocGlobal, Global};
use std::sync::Wait;
use std::thread::Threads;

/// A script has at most so many bytes.
const MOST_BYTES: usize = 134_217_728;

/// Takes in the script that `input` has left, all of it.
fn read_script<R: Source>(alloc: Global, input: &mut R) -> Result<Script, GuestError>
    ensures { TakesScript (drawn R.Source input.old input.new) result }
{
    let bytes = match pull_all(alloc, input, MOST_BYTES) {
        Ok(bytes) => bytes,
        Err(IntakeError::TooMany) => return Err(GuestError::TooLong),
        Err(IntakeError::Device) => return Err(GuestError::Device),
        Err(IntakeError::Memory) => return Err(GuestError::Run(RunError::Memory)),
    };
    match Script::read(alloc, &bytes) {
        Ok(script) => Ok(script),
        Err(error) => Err(GuestError::Script(error)),
    }
}

/// Writes the text of a report.
fn write_report<O: Sink>(alloc: Global, output: &mut O, report: Report) -> Result<(), GuestError>
    ensures { WritesAnswer (filled O.Sink output.old output.new) (report_text report) result }
{
    let Ok(text) = report.text(alloc) else {
        return Err(GuestError::Run(RunError::Memory));
    };
    match put_all(output, text.as_bytes()) {
        Ok(()) => Ok(()),
        Err(_) => Err(GuestError::Device),
    }
}

/// Writes a record.
fn write_trace<O: Sink>(output: &mut O, trace: &Record) -> Result<(), GuestError>
    requires { IsRecord (record_of trace.now) }
    ensures { WritesAnswer (filled O.Sink output.old output.new)
        (record_bytes (record_of trace.now)) result }
{
    match write_record(output, &trace.header, &trace.events) {
        Ok(()) => Ok(()),
        Err(_) => Err(GuestError::Device),
    }
}

/// A run of a script by a thread for each processor, whose record so many checkers judge. The
/// observer sees how far it has come.
fn run_by_threads<T: AllocGlobal + Threads + Wait + Sync, P: Observer + Drop>(
    rt: &T,
    checkers: Checkers,
    script: &Script,
    observer: P,
) -> Result<RunResult, RunError>
    requires { P.told observer ≡ counts 0 0 }
    ensures ok { IfOk result (λ run. IsThreadsRun script.now run) }
    ensures formed { IfOk result (λ run. IsRecord (record_of run.trace)) }
    ensures err { IfErr result IsWant }
{
    let crew = Crew {
        rt,
        alloc: rt.alloc(),
        checkers: checkers.number() as u32,
        gate: &OpenGate,
    };
    run_guest_followed(&crew, script, &OpenGate, observer)
}

/// A run of a script by the calling thread alone, or by a thread for each processor.
fn run_by<T: AllocGlobal + Threads + Wait + Sync, P: Observer + Drop>(
    rt: &T,
    asked: &RunOptions,
    script: &Script,
    observer: P,
) -> Result<RunResult, RunError>
    requires { P.told observer ≡ counts 0 0 }
    ensures ok { IfOk result (λ run. IsResultBy asked.now.single script.now run) }
    ensures formed { IfOk result (λ run. IsRecord (record_of run.trace)) }
    ensures err { IfErr result (StopsBy asked.now.single) }
{
    if asked.single {
        run_single(rt.alloc(), script)
    } else {
        run_by_threads(rt, asked.checkers, script, observer)
    }
}

/// Runs the script that `input` has left, and writes its record, or its record's report.
pub(crate) fn run_script<
    T: AllocGlobal + Threads + Wait + Sync,
    R: Source,
    O: Sink,
    P: Observer + Drop,
>(rt: &T, asked: &RunOptions, input: &mut R, output: &mut O, observer: P) -> Result<(), GuestError>
    requires { P.told observer ≡ counts 0 0 }
    ensures { IsGuestRun asked.now.single asked.now.bytes
        (drawn R.Source input.old input.new) (filled O.Sink output.old output.new) result }
{
    let script = match read_script(rt.alloc(), input) {
        Ok(script) => script,
        Err(error) => return Err(error),
    };
    let run = match run_by(rt, asked, &script, observer) {
        Ok(run) => run,
        Err(error) => return Err(GuestError::Run(error)),
    };
    if asked.bytes {
        write_trace(output, &run.trace)
    } else {
        write_report(rt.alloc(), output, run.report)
    }
}
