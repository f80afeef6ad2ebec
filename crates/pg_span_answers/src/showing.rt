//! The events of a record with no one order, a line each.

ghost use Rattle.pg_report.specs.Changes.{filled};
ghost use Rattle.pg_answers.specs.Streams.{streams};
ghost use Rattle.pg_span_answers.specs.Shown.{GivesLines, GivesEvents, ShowsSpans, TracesSpans};

use crate::answers::{give_out, tell_memory, tell_unread};
use crate::reading::read_run;
use pg_answers::YES;
use pg_codec::{Sink, Source};
use pg_event::Selection;
use pg_show_trace::spanned_trace;
use pg_span_run::SpannedRun;
use pg_span_text::spanned_lines;
use std::alloc::Global;

/// Writes the lines of a run's events that a selection asks for.
fn give_lines<O: Sink, E: Sink>(
    alloc: Global,
    selection: Selection,
    run: &SpannedRun,
    output: &mut O,
    errors: &mut E,
) -> u8
    ensures { GivesLines selection run.now
        (filled O.Sink output.old output.new) (filled E.Sink errors.old errors.new) result }
{
    match spanned_lines(alloc, selection, run) {
        Ok(text) => give_out(output, errors, text.as_bytes(), YES),
        Err(_) => tell_memory(output, errors),
    }
}

/// Writes the events of the record of version 3 or 4 on `input` that a selection asks for, a line
/// each with the event's span, which may be none. Nothing is judged. It gives the exit status: 0
/// shown, 2 refused, 3 memory.
pub fn show_spanned<R: Source, O: Sink, E: Sink>(
    alloc: Global,
    selection: Selection,
    input: &mut R,
    output: &mut O,
    errors: &mut E,
) -> u8
    ensures { ShowsSpans selection (streams R.Source O.Sink E.Sink
        (input.old, output.old, errors.old) (input.new, output.new, errors.new)) result }
{
    match read_run(alloc, input) {
        Ok(run) => give_lines(alloc, selection, &run, output, errors),
        Err(why) => tell_unread(output, errors, why),
    }
}

/// Writes the trace of a run's events that a selection asks for.
fn give_events<O: Sink, E: Sink>(
    alloc: Global,
    selection: Selection,
    run: &SpannedRun,
    output: &mut O,
    errors: &mut E,
) -> u8
    ensures { GivesEvents selection run.now
        (filled O.Sink output.old output.new) (filled E.Sink errors.old errors.new) result }
{
    match spanned_trace(alloc, selection, run) {
        Ok(text) => give_out(output, errors, text.as_bytes(), YES),
        Err(_) => tell_memory(output, errors),
    }
}

/// Writes the events of the record of version 3 or 4 on `input` that a selection asks for as a
/// trace. An event lasts from its beginning, or from the end of its processor's event before it
/// where that is later, to its end. Nothing is judged. It gives the exit status: 0 shown,
/// 2 refused, 3 memory.
pub fn trace_spanned<R: Source, O: Sink, E: Sink>(
    alloc: Global,
    selection: Selection,
    input: &mut R,
    output: &mut O,
    errors: &mut E,
) -> u8
    ensures { TracesSpans selection (streams R.Source O.Sink E.Sink
        (input.old, output.old, errors.old) (input.new, output.new, errors.new)) result }
{
    match read_run(alloc, input) {
        Ok(run) => give_events(alloc, selection, &run, output, errors),
        Err(why) => tell_unread(output, errors, why),
    }
}
