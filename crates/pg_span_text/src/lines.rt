//! Events with their spans, as lines.

ghost use Rattle.std.specs.Prelude.{◌≡◌, ◌++◌, ◌<◌, IfOk, OnOk, length, string_bytes};
ghost use Rattle.pg_span_text.specs.Lines.{began_line, spanned_line, spanned_lines};

use pg_event::{Event, Selection, processor_of};
use pg_explain::{fits, is_marked, marks_of, push_claim_line};
use pg_span_run::{SpannedRun, ended_before};
use std::alloc::{AllocError, Global};

/// Appends the line of an event with its span, without its end. Fails only when out of memory, and
/// may then leave a part of the line.
pub fn push_began(
    text: &mut String,
    number: u32,
    began: u32,
    event: &Event,
) -> Result<(), AllocError>
    ensures { OnOk result
        (string_bytes text.new ≡ string_bytes text.old ++ began_line began number event.now) }
{
    push_claim_line(text, number, event)?;
    write!(text, " began {began}")
}

/// Appends the line of an event, if it is shown.
fn push_spanned(
    text: &mut String,
    run: &SpannedRun,
    is_shown: bool,
    number: u32,
    event: &Event,
) -> Result<(), AllocError>
    requires { number < length run.now.events }
    ensures { OnOk result (string_bytes text.new
        ≡ string_bytes text.old ++ spanned_line is_shown run.now number event.now) }
{
    if is_shown {
        push_began(text, number, ended_before(run, number), event)?;
        text.push_str("\n")?;
    }
    Ok(())
}

/// The lines of the events that a selection asks for, as they ended. It takes one pass over them,
/// and where a page is asked for another. Fails only when out of memory.
pub fn spanned_lines(
    alloc: Global,
    selection: Selection,
    run: &SpannedRun,
) -> Result<String, AllocError>
    ensures { IfOk result (λ t. string_bytes t ≡ spanned_lines selection run.now) }
{
    let events = run.events();
    let marks = marks_of(alloc, selection.page, events)?;
    let mut text = String::new(alloc);
    for (i, event) in events.iter().enumerate() {
        let is_its = is_marked(&marks, processor_of(event));
        let is_shown = fits(selection, is_its, i as u64, event);
        push_spanned(&mut text, run, is_shown, i as u32, event)?;
    }
    Ok(text)
}
