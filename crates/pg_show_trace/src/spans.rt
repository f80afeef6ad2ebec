//! A record with spans as a trace.

ghost use Rattle.std.specs.Prelude.{◌≡◌, ◌+◌, ◌++◌, ◌<◌, ◌≤◌, ◌^◌, length, Some, None};
ghost use Rattle.std.specs.Prelude.{IfOk, OnOk, string_bytes};
ghost use Rattle.pg_show_trace.specs.Marks.{said};
ghost use Rattle.pg_show_trace.specs.Spans.{spanned_item, chosen_item, document_text, writers_of};
ghost use Rattle.pg_show_trace.specs.Spans.{spanned_mark, walk_sources, never_mark, writer_before};
ghost use Rattle.pg_show_trace.specs.Spans.{start_after, start_of};
ghost use Rattle.pg_span_text.specs.Parts.{walked_address};
ghost use Rattle.pg_show_trace.specs.Texts.{marking};

use crate::mark::{Cause, Mark, Role, Source, push_source};
use crate::objects::{Slot, ending, opening, others_of, push_slice};
use crate::writer::{is_chosen, processor_count};
use pg_event::{Event, Selection, processor_of};
use pg_show_json::began_fields;
use pg_span_run::{SpannedRun, ended_before, event_of};
use pg_span_text::{Seen, cause_text, walk_cause, walked_address};
use std::alloc::{AllocError, Global};

/// Behind an event with this number, if it is of a processor, and else where it was.
fn start_after(p: u16, number: u32, start: u32, event: &Event) -> u32
    requires number { number + 1 < 2 ^ 32 }
    requires start { start ≤ number }
    ensures value { result ≡ start_after p number start event.now }
    ensures within { result ≤ number + 1 }
{
    if processor_of(event) == p {
        number + 1
    } else {
        start
    }
}

/// Where an event that began so starts on its processor's track: behind the last event of the
/// processor since, where there is one, so that no two slices of a track overlap.
fn start_of(events: &[Event], p: u16, began: u32, number: u32) -> u32
    requires began { began ≤ number }
    requires number { number ≤ length events.now }
    ensures value { result ≡ start_of events.now p began number }
    ensures within { result ≤ number }
{
    let mut start = began;
    for (i, event) in events[began as usize..number as usize].iter().enumerate() {
        start = start_after(p, began + i as u32, start, event);
    }
    start
}

/// Appends an event.
fn push_spanned(
    alloc: Global,
    text: &mut String,
    mark: &Option<Mark>,
    run: &SpannedRun,
    number: u32,
    event: &Event,
) -> Result<(), AllocError>
    requires { number < length run.now.events }
    ensures { OnOk result (string_bytes text.new ≡ string_bytes text.old
        ++ spanned_item (marking mark.now) run.now number event.now) }
{
    let began = ended_before(run, number);
    let args = began_fields(alloc, began as u64, number as u64, event)?;
    let others = others_of(alloc, mark, number, args)?;
    let start = start_of(run.events(), processor_of(event), began, number);
    let slot = Slot {
        from: start as u64,
        length: (number - start) as u64 + 1,
    };
    push_slice(alloc, text, slot, number, event, others)
}

/// Appends an event, if it is written.
fn push_chosen(
    alloc: Global,
    text: &mut String,
    mark: &Option<Mark>,
    selection: Option<Selection>,
    run: &SpannedRun,
    number: u32,
    event: &Event,
) -> Result<(), AllocError>
    requires { number < length run.now.events }
    ensures { OnOk result (string_bytes text.new ≡ string_bytes text.old
        ++ chosen_item selection (marking mark.now) run.now number event.now) }
{
    if is_chosen(selection, number as u64, event) {
        push_spanned(alloc, text, mark, run, number, event)?;
    }
    Ok(())
}

/// The whole document.
fn document(
    alloc: Global,
    mark: &Option<Mark>,
    selection: Option<Selection>,
    run: &SpannedRun,
) -> Result<String, AllocError>
    ensures { IfOk result (λ t. string_bytes t
        ≡ document_text selection (marking mark.now) run.now) }
{
    let events = run.events();
    let mut text = opening(alloc, processor_count(run.header()))?;
    for (i, event) in events.iter().enumerate() {
        push_chosen(alloc, &mut text, mark, selection, run, i as u32, event)?;
    }
    let end = ending(alloc, mark)?;
    text.push_str(end.as_str())?;
    Ok(text)
}

/// The events of a record with spans that a selection asks for.
pub fn spanned_trace(
    alloc: Global,
    selection: Selection,
    run: &SpannedRun,
) -> Result<String, AllocError>
    ensures { IfOk result (λ t. string_bytes t
        ≡ document_text (Some selection) None run.now) }
{
    document(alloc, &None, Some(selection), run)
}

/// The event that wrote an entry, where it has a lower number than this.
fn writer_before(number: u32, writer: Option<u32>) -> Option<u32>
    ensures { result ≡ writer_before number writer }
{
    match writer {
        None => None,
        Some(writer) => { if writer < number { Some(writer) } else { None } }
    }
}

/// The events with lower numbers than this that wrote these entries.
fn writers_of(
    alloc: Global,
    run: &SpannedRun,
    number: u32,
    seen: &[Seen],
) -> Result<Vec<Source>, AllocError>
    ensures { IfOk result (λ found. found.items ≡ writers_of run.now number seen.now) }
{
    let mut sources = Vec::new(alloc);
    for entry in seen {
        let writer = writer_before(number, entry.writer);
        push_source(&mut sources, run.events(), Role::Write, writer)?;
    }
    Ok(sources)
}

/// The events that wrote what the walk of an event may read, where it names a walk.
fn walk_sources(
    alloc: Global,
    run: &SpannedRun,
    number: u32,
    event: &Event,
) -> Result<Vec<Source>, AllocError>
    requires { number < length run.now.events }
    ensures { IfOk result (λ found. found.items
        ≡ walk_sources run.now number event.now (walked_address event.now)) }
{
    match walked_address(event) {
        None => Ok(Vec::new(alloc)),
        Some(la) => {
            let cause = walk_cause(alloc, run, number, event, la)?;
            writers_of(alloc, run, number, &cause.may_read)
        }
    }
}

/// The mark of an event that comes to pass in no order.
fn spanned_mark(
    alloc: Global,
    run: &SpannedRun,
    number: u32,
    event: &Event,
) -> Result<Mark, AllocError>
    requires { number < length run.now.events }
    ensures { IfOk result (λ m. said m ≡ spanned_mark run.now number event.now) }
{
    Ok(Mark {
        number,
        p: processor_of(event),
        cause: Cause::NoOrder,
        words: cause_text(alloc, run, number as u64)?,
        sources: walk_sources(alloc, run, number, event)?,
    })
}

/// The mark of the event with this number, where there is one.
fn never_mark(
    alloc: Global,
    run: &SpannedRun,
    never: Option<u64>,
) -> Result<Option<Mark>, AllocError>
    ensures { IfOk result (λ m. marking m ≡ never_mark run.now never) }
{
    match never {
        Some(number) if number < run.len() as u64 => {
            let number = number as u32;
            let mark = spanned_mark(alloc, run, number, event_of(run, number))?;
            Ok(Some(mark))
        }
        _ => Ok(None),
    }
}

/// A record with spans, and the event that comes to pass in no order of it, where there is one.
pub fn spanned_verdict_trace(
    alloc: Global,
    run: &SpannedRun,
    never: Option<u64>,
) -> Result<String, AllocError>
    ensures { IfOk result (λ t. string_bytes t
        ≡ document_text None (never_mark run.now never) run.now) }
{
    let mark = never_mark(alloc, run, never)?;
    document(alloc, &mark, None, run)
}
