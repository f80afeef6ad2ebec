//! The events of a record with no one order, an object a line.

ghost use Rattle.std.specs.Prelude.{◌≡◌, ◌++◌, ◌<◌, IfOk, OnOk, length, string_bytes};
ghost use Rattle.serde_json.specs.View.{view, members_view};
ghost use Rattle.pg_show_json.specs.Tree.{data_of, members_of};
ghost use Rattle.pg_show_json_answers.specs.SpannedLines.{event_fields, event_json, spanned_line};
ghost use Rattle.pg_show_json_answers.specs.SpannedLines.{spanned_json_lines};

use pg_event::{Event, Selection, processor_of};
use pg_explain::{fits, is_marked, marks_of};
use pg_show_json::{Fields, began_fields, line_of};
use pg_span_run::{SpannedRun, ended_before};
use serde_json::Value;
use std::alloc::{AllocError, Global};

/// The fields of an event with its span.
fn event_fields(
    alloc: Global,
    run: &SpannedRun,
    number: u32,
    event: &Event,
) -> Result<Fields, AllocError>
    requires { number < length run.now.events }
    ensures { IfOk result (λ m. members_view m.entries
        ≡ members_of (event_fields run.now number event.now)) }
{
    let began = ended_before(run, number);
    began_fields(alloc, began as u64, number as u64, event)
}

/// An event with its span.
pub(crate) fn event_json(
    alloc: Global,
    run: &SpannedRun,
    number: u32,
    event: &Event,
) -> Result<Value, AllocError>
    requires { number < length run.now.events }
    ensures { IfOk result (λ v. view v ≡ data_of (event_json run.now number event.now)) }
{
    Ok(Value::Object(event_fields(alloc, run, number, event)?))
}

/// Appends the line of an event, if it is shown.
fn push_shown(
    alloc: Global,
    text: &mut String,
    run: &SpannedRun,
    is_shown: bool,
    number: u32,
    event: &Event,
) -> Result<(), AllocError>
    requires { number < length run.now.events }
    ensures { OnOk result (string_bytes text.new
        ≡ string_bytes text.old ++ spanned_line is_shown run.now number event.now) }
{
    if is_shown {
        let fields = event_fields(alloc, run, number, event)?;
        let line = line_of(alloc, fields)?;
        text.push_str(line.as_str())?;
    }
    Ok(())
}

/// The lines of the events that a selection asks for, as they ended.
pub(crate) fn spanned_json_lines(
    alloc: Global,
    selection: Selection,
    run: &SpannedRun,
) -> Result<String, AllocError>
    ensures { IfOk result (λ t. string_bytes t ≡ spanned_json_lines selection run.now) }
{
    let events = run.events();
    let marks = marks_of(alloc, selection.page, events)?;
    let mut text = String::new(alloc);
    for (i, event) in events.iter().enumerate() {
        let is_its = is_marked(&marks, processor_of(event));
        let is_shown = fits(selection, is_its, i as u64, event);
        push_shown(alloc, &mut text, run, is_shown, i as u32, event)?;
    }
    Ok(text)
}
