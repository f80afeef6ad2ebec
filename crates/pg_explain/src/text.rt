//! The text of an explanation.

ghost use Rattle.std.specs.Prelude.{◌≡◌, ◌++◌, IfOk, OnOk, string_bytes, slice_get, codes};
ghost use Rattle.pg_explain.specs.Line.{numbers_text};
ghost use Rattle.pg_explain.specs.Text.{deed_name, ended_text, last_text, head_text};
ghost use Rattle.pg_explain.specs.Text.{explanation_text};

use crate::explainer::Explanation;
use crate::finding_text::{push_finding, push_numbered};
use crate::last_lines::push_taken;
use crate::line::{event_at, push_numbers};
use crate::walk_text::push_walk;
use pg_event::{Event, Moments, Request};
use pg_search::Last;
use std::alloc::{AllocError, Global};

/// What the event with this number is: `access`, `assist` or `event`.
pub fn deed_name(events: &[Event], number: u32) -> &'static str
    ensures { result.now ≡ deed_name (slice_get events.now number) }
{
    match event_at(events, number) {
        Some(event) => match event.request() {
            Request::Access { .. } => "access",
            Request::Update { .. } => "assist",
            Request::Nothing => "event",
        },
        None => "event",
    }
}

/// Appends a line of a name and numbers.
fn push_listed(text: &mut String, name: &str, numbers: &[u32]) -> Result<(), AllocError>
    ensures { OnOk result (string_bytes text.new
        ≡ string_bytes text.old ++ (name.now ++ (numbers_text numbers.now ++ codes "\n"))) }
{
    text.push_str(name)?;
    push_numbers(text, numbers)?;
    text.push_str("\n")
}

/// Appends whether other moments would do, as a line. Fails only when out of memory, and may then
/// leave a part of the line.
pub fn push_last(text: &mut String, deed: &str, other: Option<Moments>) -> Result<(), AllocError>
    ensures { OnOk result
        (string_bytes text.new ≡ string_bytes text.old ++ last_text deed.now other) }
{
    match other {
        None => writeln!(text, "final: no moments prove this {deed}"),
        Some(moments) => push_listed(text, "other moments would:", moments.as_slice()),
    }
}

/// Appends when an event would last have been witnessed, where no moments prove it.
fn push_ended(
    text: &mut String,
    events: &[Event],
    other: Option<Moments>,
    last: Option<Last>,
) -> Result<(), AllocError>
    ensures { OnOk result (string_bytes text.new
        ≡ string_bytes text.old ++ ended_text events.now other last) }
{
    match other {
        None => push_taken(text, events, last),
        Some(_) => Ok(()),
    }
}

/// Appends the event, as it is shown.
fn push_head(text: &mut String, events: &[Event], number: u32) -> Result<(), AllocError>
    ensures { OnOk result
        (string_bytes text.new ≡ string_bytes text.old ++ head_text events.now number) }
{
    text.push_str("event: ")?;
    push_numbered(text, events, number)?;
    text.push_str("\n")
}

/// Appends the text of an explanation, where these are the events of its run: the event, the
/// entries that its moments name down to the first that is no table, what was found for the reason,
/// and whether other moments would do, or when some last would have.
pub(crate) fn push_explained(
    text: &mut String,
    events: &[Event],
    explanation: &Explanation,
) -> Result<(), AllocError>
    ensures { OnOk result (string_bytes text.new
        ≡ string_bytes text.old ++ explanation_text events.now explanation.now) }
{
    let number = explanation.number;
    push_head(text, events, number)?;
    push_walk(text, &explanation.walk)?;
    push_finding(text, events, explanation.finding)?;
    text.push_str("\n")?;
    push_last(text, deed_name(events, number), explanation.other)?;
    push_ended(text, events, explanation.other, explanation.last)
}

/// The text of an explanation, where these are the events of its run. Fails only when out of
/// memory.
pub fn explanation_text(
    alloc: Global,
    events: &[Event],
    explanation: &Explanation,
) -> Result<String, AllocError>
    ensures { IfOk result (λ t. string_bytes t
        ≡ explanation_text events.now explanation.now) }
{
    let mut text = String::new(alloc);
    push_explained(&mut text, events, explanation)?;
    Ok(text)
}
