//! The objects of a trace, each as text behind a comma and a line end.

ghost use Rattle.std.specs.Prelude.{◌≡◌, ◌++◌, ◌≤◌, ◌^◌, IfOk, OnOk, string_bytes};
ghost use Rattle.serde_json.specs.View.{view, members_view};
ghost use Rattle.pg_show_json.specs.Tree.{data_of, members_of, json_text, object, no_fields};
ghost use Rattle.pg_show_json.specs.Tree.{Json, Fields as Told};
ghost use Rattle.pg_show_trace.specs.Marks.{said};
ghost use Rattle.pg_explain.specs.Denied.{claim_line};
ghost use Rattle.pg_show_trace.specs.Objects.{with_place, named_fields, name_json, thread_json};
ghost use Rattle.pg_show_trace.specs.Objects.{next_text, first_text, opening_text, slice_fields};
ghost use Rattle.pg_show_trace.specs.Objects.{end_fields};
ghost use Rattle.pg_show_trace.specs.Objects.{slice_text, args_fields, marked_fields, others_of};
ghost use Rattle.pg_show_trace.specs.Objects.{rejected_json, item_text, arrow_fields, arrow_text};
ghost use Rattle.pg_show_trace.specs.Objects.{arrows_from, ending_text};
ghost use Rattle.pg_show_trace.specs.Texts.{marking};

use crate::mark::{Mark, Source};
use pg_event::{Event, processor_of};
use pg_explain::push_claim_line;
use pg_show_json::{Fields, event_fields, object_of, put_count, put_text};
use serde_json::{Map, Value, put};
use std::alloc::{AllocError, Global};

/// What begins a document.
const OPENING: &str = "{\"traceEvents\":[\n";

/// What ends a document.
pub(crate) const CLOSING: &str = "\n]}\n";

/// No fields.
fn none(alloc: Global) -> Fields
    ensures { members_view result.entries ≡ members_of no_fields }
{
    Map::new(alloc)
}

/// Puts the track of a processor.
fn put_place(fields: &mut Fields, alloc: Global, p: u16) -> Result<(), AllocError>
    ensures { (others : Told) → members_view fields.old.entries ≡ members_of others →
        OnOk result (members_view fields.new.entries ≡ members_of (with_place p others)) }
{
    put_count(fields, alloc, "tid", p as u64)?;
    put_count(fields, alloc, "pid", 0)
}

/// The text of a value.
fn value_text(alloc: Global, value: &Value) -> Result<String, AllocError>
    ensures { (told : Json) → view value.now ≡ data_of told →
        IfOk result (λ t. string_bytes t ≡ json_text told) }
{
    let text = value.to_string(alloc)?;
    Ok(text)
}

/// Appends the text of an object.
fn push_object(alloc: Global, text: &mut String, fields: Fields) -> Result<(), AllocError>
    ensures { (told : Told) → members_view fields.entries ≡ members_of told →
        OnOk result (string_bytes text.new
        ≡ string_bytes text.old ++ json_text (object told)) }
{
    let told = value_text(alloc, &object_of(fields))?;
    text.push_str(told.as_str())?;
    Ok(())
}

/// Appends an object behind another.
fn push_next(alloc: Global, text: &mut String, fields: Fields) -> Result<(), AllocError>
    ensures { (told : Told) → members_view fields.entries ≡ members_of told →
        OnOk result (string_bytes text.new
        ≡ string_bytes text.old ++ next_text (object told)) }
{
    text.push_str(",\n")?;
    push_object(alloc, text, fields)?;
    Ok(())
}

/// The object of a name.
fn name_json(alloc: Global, name: &str) -> Result<Value, AllocError>
    ensures { IfOk result (λ v. view v ≡ data_of (name_json name.now)) }
{
    let mut fields = none(alloc);
    put_text(&mut fields, alloc, "name", name)?;
    Ok(Value::Object(fields))
}

/// What names a track, or all of them.
fn named_fields(alloc: Global, kind: &str, p: u16, name: &str) -> Result<Fields, AllocError>
    ensures { IfOk result (λ m. members_view m.entries
        ≡ members_of (named_fields kind.now p name.now)) }
{
    let args = name_json(alloc, name)?;
    let mut fields = none(alloc);
    put(&mut fields, alloc, "args", args)?;
    put_place(&mut fields, alloc, p)?;
    put_text(&mut fields, alloc, "name", kind)?;
    put_text(&mut fields, alloc, "ph", "M")?;
    Ok(fields)
}

/// Appends the object that names the track of a processor.
fn push_thread(alloc: Global, text: &mut String, p: u16) -> Result<(), AllocError>
    ensures { OnOk result (string_bytes text.new
        ≡ string_bytes text.old ++ next_text (thread_json p)) }
{
    let name = format!(in alloc; "cpu {p}")?;
    let fields = named_fields(alloc, "thread_name", p, name.as_str())?;
    push_next(alloc, text, fields)
}

/// The beginning of a document, up to the name of all tracks.
fn first_object(alloc: Global) -> Result<String, AllocError>
    ensures { IfOk result (λ t. string_bytes t ≡ first_text) }
{
    let fields = named_fields(alloc, "process_name", 0, "record")?;
    let mut text = String::from_str(alloc, OPENING)?;
    push_object(alloc, &mut text, fields)?;
    Ok(text)
}

/// The beginning of a document, up to the names of tracks, of so many processors.
pub(crate) fn opening(alloc: Global, processors: usize) -> Result<String, AllocError>
    requires { processors ≤ 2 ^ 16 }
    ensures { IfOk result (λ t. string_bytes t ≡ opening_text processors) }
{
    let mut text = first_object(alloc)?;
    for p in 0..processors {
        push_thread(alloc, &mut text, p as u16)?;
    }
    Ok(text)
}

/// When an event began, and how long it lasted, both counted in events.
#[derive(Clone, Copy)]
pub(crate) struct Slot {
    pub from: u64,
    pub length: u64,
}

/// The line of an event without its moments.
fn line_of(alloc: Global, number: u32, event: &Event) -> Result<String, AllocError>
    ensures { IfOk result (λ t. string_bytes t ≡ claim_line number event.now) }
{
    let mut line = String::new(alloc);
    push_claim_line(&mut line, number, event)?;
    Ok(line)
}

/// The fields of an event, with what else is said of it.
fn slice_fields(
    alloc: Global,
    slot: Slot,
    number: u32,
    event: &Event,
    others: Fields,
) -> Result<Fields, AllocError>
    ensures { (told : Told) → members_view others.entries ≡ members_of told →
        IfOk result (λ m. members_view m.entries
        ≡ members_of (slice_fields slot.from slot.length number event.now told)) }
{
    let line = line_of(alloc, number, event)?;
    let mut fields = others;
    put_count(&mut fields, alloc, "dur", slot.length)?;
    put_count(&mut fields, alloc, "ts", slot.from)?;
    put_place(&mut fields, alloc, processor_of(event))?;
    put_text(&mut fields, alloc, "name", line.as_str())?;
    put_text(&mut fields, alloc, "ph", "X")?;
    Ok(fields)
}

/// Appends the object of an event, with what else is said of it.
pub(crate) fn push_slice(
    alloc: Global,
    text: &mut String,
    slot: Slot,
    number: u32,
    event: &Event,
    others: Fields,
) -> Result<(), AllocError>
    ensures { (told : Told) → members_view others.entries ≡ members_of told →
        OnOk result (string_bytes text.new ≡ string_bytes text.old
        ++ slice_text slot.from slot.length number event.now told) }
{
    let fields = slice_fields(alloc, slot, number, event, others)?;
    push_next(alloc, text, fields)
}

/// What an object says of its event.
fn args_of(alloc: Global, args: Fields) -> Result<Fields, AllocError>
    ensures { (told : Told) → members_view args.entries ≡ members_of told →
        IfOk result (λ m. members_view m.entries ≡ members_of (args_fields told)) }
{
    let mut fields = none(alloc);
    put(&mut fields, alloc, "args", object_of(args))?;
    Ok(fields)
}

/// Why an event is rejected.
fn rejected(alloc: Global, mark: &Mark) -> Result<Value, AllocError>
    ensures { IfOk result (λ v. view v ≡ data_of (rejected_json (said mark.now))) }
{
    let mut fields = none(alloc);
    put_text(&mut fields, alloc, "text", mark.words.as_str())?;
    put_text(&mut fields, alloc, "reason", mark.cause.name())?;
    Ok(Value::Object(fields))
}

/// That of the rejected event.
fn marked_of(alloc: Global, mark: &Mark, args: Fields) -> Result<Fields, AllocError>
    ensures { (told : Told) → members_view args.entries ≡ members_of told →
        IfOk result (λ m. members_view m.entries
        ≡ members_of (marked_fields (said mark.now) told)) }
{
    let mut args = args;
    let why = rejected(alloc, mark)?;
    put(&mut args, alloc, "rejected", why)?;
    let mut fields = args_of(alloc, args)?;
    put_text(&mut fields, alloc, "cname", "terrible")?;
    Ok(fields)
}

/// What is said of an event, which may be the rejected one.
pub(crate) fn others_of(
    alloc: Global,
    mark: &Option<Mark>,
    number: u32,
    args: Fields,
) -> Result<Fields, AllocError>
    ensures { (told : Told) → members_view args.entries ≡ members_of told →
        IfOk result (λ m. members_view m.entries
        ≡ members_of (others_of (marking mark.now) number told)) }
{
    match mark {
        None => args_of(alloc, args),
        Some(mark) => {
            if mark.number == number {
                marked_of(alloc, mark, args)
            } else {
                args_of(alloc, args)
            }
        }
    }
}

/// Appends an event of a record with one order.
pub(crate) fn push_item(
    alloc: Global,
    text: &mut String,
    mark: &Option<Mark>,
    number: u32,
    event: &Event,
) -> Result<(), AllocError>
    ensures { OnOk result (string_bytes text.new
        ≡ string_bytes text.old ++ item_text (marking mark.now) number event.now) }
{
    let args = event_fields(alloc, number as u64, event)?;
    let others = others_of(alloc, mark, number, args)?;
    let slot = Slot {
        from: number as u64,
        length: 1,
    };
    push_slice(alloc, text, slot, number, event, others)
}

/// One end of an arrow.
fn arrow_fields(
    alloc: Global,
    kind: &str,
    id: u64,
    name: &str,
    p: u16,
    at: u64,
) -> Result<Fields, AllocError>
    ensures { IfOk result (λ m. members_view m.entries
        ≡ members_of (arrow_fields kind.now id name.now p at)) }
{
    let mut fields = none(alloc);
    put_count(&mut fields, alloc, "ts", at)?;
    put_place(&mut fields, alloc, p)?;
    put_count(&mut fields, alloc, "id", id)?;
    put_text(&mut fields, alloc, "cat", "rejection")?;
    put_text(&mut fields, alloc, "name", name)?;
    put_text(&mut fields, alloc, "ph", kind)?;
    Ok(fields)
}

/// The end of an arrow at the rejected event.
fn end_fields(alloc: Global, mark: &Mark, id: u64, name: &str) -> Result<Fields, AllocError>
    ensures { IfOk result (λ m. members_view m.entries
        ≡ members_of (end_fields id name.now (said mark.now))) }
{
    let mut fields = arrow_fields(alloc, "f", id, name, mark.p, mark.number as u64)?;
    put_text(&mut fields, alloc, "bp", "e")?;
    Ok(fields)
}

/// Appends an arrow from an event that led to a rejection to the rejected one.
fn push_arrow(
    alloc: Global,
    text: &mut String,
    mark: &Mark,
    id: u64,
    source: Source,
) -> Result<(), AllocError>
    ensures { OnOk result (string_bytes text.new
        ≡ string_bytes text.old ++ arrow_text (said mark.now) id source) }
{
    let name = source.role.name();
    let start = arrow_fields(alloc, "s", id, name, source.p, source.number as u64)?;
    let end = end_fields(alloc, mark, id, name)?;
    push_next(alloc, text, start)?;
    push_next(alloc, text, end)?;
    Ok(())
}

/// Appends the arrows to a rejected event.
fn push_arrows(alloc: Global, text: &mut String, mark: &Mark) -> Result<(), AllocError>
    ensures { OnOk result (string_bytes text.new
        ≡ string_bytes text.old ++ arrows_from (said mark.now) 0 mark.now.sources.items) }
{
    for (i, source) in mark.sources.iter().enumerate() {
        push_arrow(alloc, text, mark, i as u64, *source)?;
    }
    Ok(())
}

/// The end of a document: the arrows to the rejected event, where there is one.
pub(crate) fn ending(alloc: Global, mark: &Option<Mark>) -> Result<String, AllocError>
    ensures { IfOk result (λ t. string_bytes t ≡ ending_text (marking mark.now)) }
{
    let mut text = String::new(alloc);
    if let Some(mark) = mark {
        push_arrows(alloc, &mut text, mark)?;
    }
    text.push_str(CLOSING)?;
    Ok(text)
}
