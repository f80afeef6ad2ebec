//! A record's events as a trace, written as they are read.

ghost use Rattle.std.specs.Prelude.{◌≡◌, ◌+◌, ◌<◌, ◌^◌, [], ℕ, List, Option, length};
ghost use Rattle.pg_event.specs.declared.event.Event.{Event as Deed};
ghost use Rattle.pg_event.specs.declared.version.Version.TheVariants.{Two};
ghost use Rattle.pg_event.specs.Heads.{Head};
ghost use Rattle.pg_codec.specs.declared.stage.Stage.TheVariants.{Start};
ghost use Rattle.pg_report.specs.Changes.{drawn, filled};
ghost use Rattle.pg_report.specs.Going.{IsGoing};
ghost use Rattle.pg_show_trace.specs.Given.{IsTraceGiven, ReadsBehind, WritesRead};
ghost use Rattle.pg_show_trace.specs.Shown.{IsShownTrace, IsSceneTrace};
ghost use Rattle.pg_show_trace.specs.Texts.{scene_items};

use crate::writer::{Scene, write_ending, write_events, write_opening};
use pg_codec::{RecordReader, Sink, Source};
use pg_event::{Event, Selection};
use pg_report::{AuditError, MOST_CHUNKS, audit_error};
use std::alloc::Global;

/// The number behind events, of which the first has this one.
fn number_after(first: u32, events: &[Event]) -> u32
    requires { first + length events.now < 2 ^ 32 }
    ensures { result ≡ first + length events.now }
{
    first + events.len() as u32
}

/// Reads what is left of a record behind its header, and writes its events as they are read.
fn write_rest<R: Source, O: Sink>(
    alloc: Global,
    scene: &Scene,
    reader: &mut RecordReader,
    source: &mut R,
    output: &mut O,
) -> Result<(), AuditError>
    requires going { (head : Head) × (start : Option (List ℕ)) × (f : ℕ)
        × IsGoing R.Source Two start f (reader.old.unread, source.old) reader.old.stage
        (record { head = head; events = [] }) 0 }
    ensures { (events : List Deed)
        × WritesRead (scene_items scene.now 0 events)
        (drawn R.Source source.old source.new) (filled O.Sink output.old output.new) result
        × ((head : Head) (start : Option (List ℕ)) (f : ℕ) →
        IsGoing R.Source Two start f (reader.old.unread, source.old) reader.old.stage
        (record { head = head; events = [] }) 0 → ReadsBehind head start events result) }
{
    let mut number = 0;
    let mut room = Vec::new(alloc);
    for _ in 0..MOST_CHUNKS {
        match reader.read_segment_in(room, source) {
            Ok(Some(events)) => {
                let next = number_after(number, &events);
                match write_events(alloc, scene, number, &events, output) {
                    Ok(()) => {}
                    Err(error) => return Err(error),
                }
                number = next;
                room = events;
            }
            Ok(None) => return Ok(()),
            Err(error) => return Err(audit_error(error)),
        }
    }
    unreachable!()
}

/// Reads a record by a new reader, and writes it as it is read.
fn write_by<R: Source, O: Sink>(
    alloc: Global,
    scene: &Scene,
    reader: &mut RecordReader,
    source: &mut R,
    output: &mut O,
) -> Result<(), AuditError>
    requires { reader.old ≡ record { unread = []; stage = Start } }
    ensures { IsTraceGiven (IsSceneTrace scene.now) 1
        (drawn R.Source source.old source.new) (filled O.Sink output.old output.new) result }
{
    let header = match reader.read_header(alloc, source) {
        Ok(header) => header,
        Err(error) => return Err(audit_error(error)),
    };
    match write_opening(alloc, &header, output) {
        Ok(()) => {}
        Err(error) => return Err(error),
    }
    match write_rest(alloc, scene, reader, source, output) {
        Ok(()) => write_ending(alloc, scene, output),
        Err(error) => Err(error),
    }
}

/// Writes the events that a selection asks for of the record that `input` has left, as they are
/// read: a segment is held in memory. Loads are shown of no page's processors, since these are
/// known only at the end. Where the record is refused, or a failure comes, a beginning was written.
pub fn trace_shown<R: Source, O: Sink>(
    alloc: Global,
    selection: Selection,
    input: &mut R,
    output: &mut O,
) -> Result<(), AuditError>
    ensures { IsTraceGiven (IsShownTrace selection) 1
        (drawn R.Source input.old input.new) (filled O.Sink output.old output.new) result }
{
    let scene = Scene {
        selection: Some(selection),
        mark: None,
    };
    let mut reader = RecordReader::new(alloc)?;
    write_by(alloc, &scene, &mut reader, input, output)
}
