//! A record's events, an object a line.

ghost use Rattle.std.specs.Prelude.{◌≡◌, ◌++◌, IfOk, OnOk, string_bytes};
ghost use Rattle.pg_show_json_answers.specs.Answers.{shown_line, shown_json};

use pg_event::{Event, Selection, processor_of};
use pg_explain::{fits, is_marked, marks_of};
use pg_show_json::{event_fields, line_of};
use std::alloc::{AllocError, Global};

/// Appends the line of an event, if it is shown.
fn push_shown(
    alloc: Global,
    text: &mut String,
    is_shown: bool,
    number: u64,
    event: &Event,
) -> Result<(), AllocError>
    ensures { OnOk result
        (string_bytes text.new ≡ string_bytes text.old ++ shown_line is_shown number event.now) }
{
    if is_shown {
        let fields = event_fields(alloc, number, event)?;
        let line = line_of(alloc, fields)?;
        text.push_str(line.as_str())?;
    }
    Ok(())
}

/// The lines of the events that a selection asks for, in their order, where these are all events
/// of a run.
pub(crate) fn shown_json(
    alloc: Global,
    selection: Selection,
    events: &[Event],
) -> Result<String, AllocError>
    ensures { IfOk result (λ t. string_bytes t ≡ shown_json selection events.now) }
{
    let marks = marks_of(alloc, selection.page, events)?;
    let mut text = String::new(alloc);
    for (i, event) in events.iter().enumerate() {
        let is_its = is_marked(&marks, processor_of(event));
        let is_shown = fits(selection, is_its, i as u64, event);
        push_shown(alloc, &mut text, is_shown, i as u64, event)?;
    }
    Ok(text)
}
