//! The text of why no moments witness an event.

ghost use Rattle.std.specs.Prelude.{◌≡◌, ◌++◌, Some, IfOk, OnOk, string_bytes};
ghost use Rattle.pg_explain.specs.Denied.{claimed_text, now_entry_text, now_walk_text};
ghost use Rattle.pg_explain.specs.Denied.{claim_line, claim_at, now_level_text, given_text};
ghost use Rattle.pg_explain.specs.Denied.{lacking_text, dropped_text, takers_text, takers_in};
ghost use Rattle.pg_explain.specs.Denied.{denial_text_by};

use crate::denial::Denial;
use crate::entry::WalkEntry;
use crate::finding::Finding;
use crate::finding_text::push_finding;
use crate::last_lines::{Takers, dropped_in, push_last_seen, taken_in};
use crate::line::{push_claim, push_line_at, push_outcome};
use crate::names::level_number;
use crate::walk_end::down_to_end;
use crate::walk_text::{push_held, push_writer};
use pg_chain::EntryRead;
use pg_entry::Level;
use pg_event::{Event, Outcome, processor_of};
use pg_search::Last;
use std::alloc::{AllocError, Global};

/// Appends the line of an event without the moments that it names, without its end. Fails only when
/// out of memory, and may then leave a part of the line.
pub fn push_claim_line(text: &mut String, number: u32, event: &Event) -> Result<(), AllocError>
    ensures { OnOk result
        (string_bytes text.new ≡ string_bytes text.old ++ claim_line number event.now) }
{
    let p = processor_of(event);
    write!(text, "{number} cpu {p} ")?;
    push_claim(text, event)
}

/// Appends the line that `push_claim_line` gives of an event, where there is one.
fn push_claim_at(text: &mut String, number: u32, event: Option<Event>) -> Result<(), AllocError>
    ensures { OnOk result
        (string_bytes text.new ≡ string_bytes text.old ++ claim_at number event) }
{
    match event {
        Some(event) => push_claim_line(text, number, &event),
        None => Ok(()),
    }
}

/// Appends the event of this number, as it is shown, without the moments that it names.
fn push_claimed(text: &mut String, number: u32, event: Option<Event>) -> Result<(), AllocError>
    ensures { OnOk result
        (string_bytes text.new ≡ string_bytes text.old ++ claimed_text number event) }
{
    text.push_str("event: ")?;
    push_claim_at(text, number, event)?;
    text.push_str("\n")
}

fn push_now_level(text: &mut String, level: Level) -> Result<(), AllocError>
    ensures { OnOk result
        (string_bytes text.new ≡ string_bytes text.old ++ now_level_text level) }
{
    let level = level_number(level);
    write!(text, "now: level {level} ")
}

fn push_now_entry(text: &mut String, entry: &WalkEntry) -> Result<(), AllocError>
    ensures { OnOk result
        (string_bytes text.new ≡ string_bytes text.old ++ now_entry_text entry.now) }
{
    let EntryRead {
        level,
        address,
        value,
        ..
    } = entry.step;
    push_now_level(text, level)?;
    push_held(text, address, value, entry.kind)?;
    push_writer(text, entry.writer)
}

/// Appends the entries of a walk, down to the first that is no table.
fn push_now_walk(text: &mut String, walk: &[WalkEntry]) -> Result<(), AllocError>
    ensures { OnOk result
        (string_bytes text.new ≡ string_bytes text.old ++ now_walk_text walk.now) }
{
    for entry in down_to_end(walk) {
        push_now_entry(text, entry)?;
    }
    Ok(())
}

/// Appends what the walk would give.
fn push_given(text: &mut String, given: Option<Outcome>) -> Result<(), AllocError>
    ensures { OnOk result
        (string_bytes text.new ≡ string_bytes text.old ++ given_text given) }
{
    match given {
        None => Ok(()),
        Some(outcome) => {
            text.push_str("now: would give ")?;
            push_outcome(text, outcome)?;
            text.push_str("\n")
        }
    }
}

/// Appends what an access lacks in what it would read.
fn push_lacking(text: &mut String, lacking: Option<Finding>) -> Result<(), AllocError>
    ensures { OnOk result
        (string_bytes text.new ≡ string_bytes text.old ++ lacking_text lacking) }
{
    match lacking {
        None => Ok(()),
        Some(finding) => {
            text.push_str("now: ")?;
            push_finding(text, &[], finding)?;
            text.push_str("\n")
        }
    }
}

/// Appends the event that had to drop a translation, which is not the one at a number.
fn push_dropped_at(
    text: &mut String,
    number: u32,
    at: u32,
    event: Option<Event>,
) -> Result<(), AllocError>
    ensures { OnOk result (string_bytes text.new
        ≡ string_bytes text.old ++ dropped_text number (Some at) event) }
{
    if at == number {
        return Ok(());
    }
    text.push_str("last: dropped by ")?;
    push_line_at(text, at, event)?;
    text.push_str("\n")
}

/// Appends the event that had to drop a translation, where one had to.
fn push_dropped(
    text: &mut String,
    number: u32,
    dropped: Option<u32>,
    event: Option<Event>,
) -> Result<(), AllocError>
    ensures { OnOk result (string_bytes text.new
        ≡ string_bytes text.old ++ dropped_text number dropped event) }
{
    match dropped {
        None => Ok(()),
        Some(at) => push_dropped_at(text, number, at, event),
    }
}

/// Appends when an event would last have been witnessed, and what took that away.
fn push_takers(
    text: &mut String,
    takers: Takers,
    last: Option<Last>,
    dropped: Option<u32>,
) -> Result<(), AllocError>
    ensures { OnOk result
        (string_bytes text.new ≡ string_bytes text.old ++ takers_text takers last dropped) }
{
    match last {
        None => text.push_str("last: never\n"),
        Some(last) => {
            push_last_seen(text, takers.taken, &last)?;
            push_dropped(text, last.number, dropped, takers.dropped)
        }
    }
}

/// The events that took the last moments of an event away, where these are the events of its run.
pub fn takers_in(events: &[Event], denial: &Denial) -> Takers
    ensures { result ≡ takers_in events.now denial.now }
{
    Takers {
        taken: taken_in(events, denial.last),
        dropped: dropped_in(events, denial.dropped),
    }
}

/// The text of why no moments witness an event, where these took its last moments away. Fails only
/// when out of memory.
pub fn denial_text_by(
    alloc: Global,
    event: Option<Event>,
    takers: Takers,
    denial: &Denial,
) -> Result<String, AllocError>
    ensures { IfOk result (λ t. string_bytes t ≡ denial_text_by event takers denial.now) }
{
    let mut text = String::new(alloc);
    push_claimed(&mut text, denial.number, event)?;
    push_now_walk(&mut text, &denial.walk)?;
    push_given(&mut text, denial.given)?;
    push_lacking(&mut text, denial.lacking)?;
    push_takers(&mut text, takers, denial.last, denial.dropped)?;
    Ok(text)
}
