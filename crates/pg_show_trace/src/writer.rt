//! A record with one order as a trace, written batch by batch.

ghost use Rattle.std.specs.Prelude.{◌≡◌, ◌++◌, ◌+◌, ◌<◌, ◌^◌, length, IfOk, OnOk, string_bytes};
ghost use Rattle.pg_event.specs.Spelling.{IsHead};
ghost use Rattle.pg_report.specs.Changes.{filled};
ghost use Rattle.pg_show_trace.specs.Given.{WritesPart};
ghost use Rattle.pg_show_trace.specs.Objects.{opening_text, ending_text};
ghost use Rattle.pg_show_trace.specs.Texts.{is_chosen, chosen_text, marking};
ghost use Rattle.pg_show_trace.specs.Texts.{scene_items, scene_text};

use crate::mark::Mark;
use crate::objects::{ending, opening, push_item};
use pg_check::History;
use pg_codec::Sink;
use pg_event::{Event, Header, Selection};
use pg_explain::fits;
use pg_report::{AuditError, write_text};
use std::alloc::{AllocError, Global};

/// How many events are made into text before it is written.
const BATCH: usize = 64;

/// What is written of a record.
#[derive(Drop)]
pub(crate) struct Scene {
    /// Which events, where not all.
    pub selection: Option<Selection>,
    /// The rejected event, where there is one.
    pub mark: Option<Mark>,
}

/// Whether an event is written. No event's processor is asked whether it uses a page, since that
/// takes all events.
pub(crate) fn is_chosen(selection: Option<Selection>, number: u64, event: &Event) -> bool
    ensures { result ≡ is_chosen selection number event.now }
{
    match selection {
        None => true,
        Some(selection) => fits(selection, false, number, event),
    }
}

/// Appends an event, if it is written.
fn push_chosen(
    alloc: Global,
    text: &mut String,
    scene: &Scene,
    number: u32,
    event: &Event,
) -> Result<(), AllocError>
    ensures { OnOk result (string_bytes text.new ≡ string_bytes text.old
        ++ chosen_text scene.now.selection (marking scene.now.mark) number event.now) }
{
    if is_chosen(scene.selection, number as u64, event) {
        push_item(alloc, text, &scene.mark, number, event)?;
    }
    Ok(())
}

/// The text of events, of which the first has this number.
fn batch_text(
    alloc: Global,
    scene: &Scene,
    first: u32,
    events: &[Event],
) -> Result<String, AllocError>
    requires { first + length events.now < 2 ^ 32 }
    ensures { IfOk result (λ t. string_bytes t ≡ scene_items scene.now first events.now) }
{
    let mut text = String::new(alloc);
    for (i, event) in events.iter().enumerate() {
        push_chosen(alloc, &mut text, scene, first + i as u32, event)?;
    }
    Ok(text)
}

/// Writes a text that was made.
fn write_part<O: Sink>(text: &str, output: &mut O) -> Result<(), AuditError>
    ensures { WritesPart text.now (filled O.Sink output.old output.new) result }
{
    write_text(output, text)
}

/// How many processors a record has.
pub(crate) fn processor_count(header: &Header) -> usize
    ensures { result ≡ length header.now.processors }
{
    header.processors.len()
}

/// Writes some events.
fn write_batch<O: Sink>(
    alloc: Global,
    scene: &Scene,
    first: u32,
    events: &[Event],
    output: &mut O,
) -> Result<(), AuditError>
    requires { first + length events.now < 2 ^ 32 }
    ensures { WritesPart (scene_items scene.now first events.now)
        (filled O.Sink output.old output.new) result }
{
    let text = batch_text(alloc, scene, first, events)?;
    write_part(text.as_str(), output)
}

/// Writes events, of which the first has this number.
pub(crate) fn write_events<O: Sink>(
    alloc: Global,
    scene: &Scene,
    first: u32,
    events: &[Event],
    output: &mut O,
) -> Result<(), AuditError>
    requires { first + length events.now < 2 ^ 32 }
    ensures { WritesPart (scene_items scene.now first events.now)
        (filled O.Sink output.old output.new) result }
{
    let mut from = 0;
    while from < events.len() {
        let to = events.len().min(from + BATCH);
        match write_batch(alloc, scene, first + from as u32, &events[from..to], output) {
            Ok(()) => {}
            Err(error) => return Err(error),
        }
        from = to;
    }
    Ok(())
}

/// Writes the beginning of a record's document, up to its first event.
pub(crate) fn write_opening<O: Sink>(
    alloc: Global,
    header: &Header,
    output: &mut O,
) -> Result<(), AuditError>
    requires { IsHead header.now }
    ensures { WritesPart (opening_text (length header.now.processors))
        (filled O.Sink output.old output.new) result }
{
    let text = opening(alloc, processor_count(header))?;
    write_part(text.as_str(), output)
}

/// Writes the end of a document.
pub(crate) fn write_ending<O: Sink>(
    alloc: Global,
    scene: &Scene,
    output: &mut O,
) -> Result<(), AuditError>
    ensures { WritesPart (ending_text (marking scene.now.mark))
        (filled O.Sink output.old output.new) result }
{
    let text = ending(alloc, &scene.mark)?;
    write_part(text.as_str(), output)
}

/// Writes a whole record.
pub(crate) fn write_history<O: Sink>(
    alloc: Global,
    scene: &Scene,
    history: &History,
    output: &mut O,
) -> Result<(), AuditError>
    ensures { WritesPart (scene_text scene.now history.now)
        (filled O.Sink output.old output.new) result }
{
    match write_opening(alloc, history.header(), output) {
        Ok(()) => {}
        Err(error) => return Err(error),
    }
    match write_events(alloc, scene, 0, history.events(), output) {
        Ok(()) => write_ending(alloc, scene, output),
        Err(error) => Err(error),
    }
}
