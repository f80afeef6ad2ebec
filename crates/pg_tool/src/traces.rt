//! Records with one order as traces.

ghost use Rattle.std.specs.Prelude.{◌≡◌, ◌≢◌, Err};
ghost use Rattle.pg_answers.specs.Streams.{streams};
ghost use Rattle.pg_report.specs.Changes.{drawn, filled};
ghost use Rattle.pg_show_trace.specs.Given.{IsTraceGiven};
ghost use Rattle.pg_show_trace.specs.Judged.{IsCertifiedTrace};
ghost use Rattle.pg_show_trace.specs.Shown.{IsShownTrace};
ghost use Rattle.pg_tool.specs.Traces.{IsExplanationTrace, TracesShown, TracesCertified};
ghost use Rattle.pg_tool.specs.Traces.{TracesExplained, shown_status, traced_status};

use pg_answers::{NO, YES, error_status, is_unnamed, tell_error};
use pg_arguments::Checkers;
use pg_codec::{Sink, Source};
use pg_event::Selection;
use pg_report::{AuditError, read_record};
use pg_show_trace::{Traced, trace_certified, trace_explained, trace_shown};
use std::alloc::{AllocGlobal, Global};
use std::sync::Wait;
use std::thread::Threads;

/// The exit status of a trace that was shown.
fn shown_status(answer: Result<(), AuditError>) -> u8
    ensures { result ≡ shown_status answer }
{
    match answer {
        Ok(()) => YES,
        Err(error) => error_status(error),
    }
}

/// The exit status of a trace of a record that was judged.
fn traced_status(answer: Result<Traced, AuditError>) -> u8
    ensures { result ≡ traced_status answer }
{
    match answer {
        Ok(Traced::Accepted) => YES,
        Ok(Traced::Rejected) => NO,
        Err(error) => error_status(error),
    }
}

/// Writes the trace of the events that a selection asks for of the record on `input`, and gives the
/// exit status.
pub(crate) fn show_trace<R: Source, O: Sink, E: Sink>(
    alloc: Global,
    selection: Selection,
    input: &mut R,
    output: &mut O,
    errors: &mut E,
) -> u8
    ensures { TracesShown selection (streams R.Source O.Sink E.Sink
        (input.old, output.old, errors.old) (input.new, output.new, errors.new)) result }
{
    let answer = trace_shown(alloc, selection, input, output);
    tell_error(errors, &answer);
    shown_status(answer)
}

/// Reads a record, has so many checkers certify it, and writes its trace.
fn write_certified<T: AllocGlobal + Threads + Wait + Sync, R: Source, O: Sink>(
    rt: &T,
    checkers: Checkers,
    input: &mut R,
    output: &mut O,
) -> Result<Traced, AuditError>
    ensures { IsTraceGiven IsCertifiedTrace checkers
        (drawn R.Source input.old input.new) (filled O.Sink output.old output.new) result }
{
    match read_record(rt.alloc(), input) {
        Ok(history) => trace_certified(rt, checkers.number() as u32, &history, output),
        Err(error) => Err(error),
    }
}

/// Certifies the record on `input`, writes its trace, and gives the exit status.
pub(crate) fn certify_trace<T: AllocGlobal + Threads + Wait + Sync, R: Source, O: Sink, E: Sink>(
    rt: &T,
    checkers: Checkers,
    input: &mut R,
    output: &mut O,
    errors: &mut E,
) -> u8
    ensures { TracesCertified checkers (streams R.Source O.Sink E.Sink
        (input.old, output.old, errors.old) (input.new, output.new, errors.new)) result }
{
    let answer = write_certified(rt, checkers, input, output);
    tell_error(errors, &answer);
    traced_status(answer)
}

/// Reads a record, judges it by its moments, or certifies it where it names none, and writes its
/// trace.
fn write_explained<T: AllocGlobal + Threads + Wait + Sync, R: Source, O: Sink>(
    rt: &T,
    input: &mut R,
    output: &mut O,
) -> Result<Traced, AuditError>
    ensures { IsTraceGiven IsExplanationTrace 1
        (drawn R.Source input.old input.new) (filled O.Sink output.old output.new) result }
{
    match read_record(rt.alloc(), input) {
        Ok(history) => {
            if is_unnamed(history.events()) {
                trace_certified(rt, 1, &history, output)
            } else {
                trace_explained(rt.alloc(), &history, output)
            }
        }
        Err(error) => Err(error),
    }
}

/// Explains the record on `input` by its trace, and gives the exit status.
pub(crate) fn explain_trace<T: AllocGlobal + Threads + Wait + Sync, R: Source, O: Sink, E: Sink>(
    rt: &T,
    input: &mut R,
    output: &mut O,
    errors: &mut E,
) -> u8
    ensures { TracesExplained (streams R.Source O.Sink E.Sink
        (input.old, output.old, errors.old) (input.new, output.new, errors.new)) result }
{
    let answer = write_explained(rt, input, output);
    tell_error(errors, &answer);
    traced_status(answer)
}
