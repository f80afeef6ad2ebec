//! When an event would last have been witnessed, as JSON.

ghost use Rattle.std.specs.Prelude.{◌≡◌, IfOk, Some, slice_get};
ghost use Rattle.serde_json.specs.View.{view};
ghost use Rattle.pg_show_json.specs.Tree.{data_of};
ghost use Rattle.pg_show_json.specs.Lasts.{event_at, under_json, dropped_json, last_json};

use crate::events::event_json;
use crate::fields::{hex_json, numbers_json, put_count};
use pg_event::Event;
use pg_explain::event_at as find_event;
use pg_search::Last;
use serde_json::{Map, Value, put};
use std::alloc::{AllocError, Global};

/// An event with its number, where there is one.
fn numbered(alloc: Global, number: u32, event: Option<Event>) -> Result<Value, AllocError>
    ensures { IfOk result (λ v. view v ≡ data_of (event_at number event)) }
{
    match event {
        None => Ok(Value::Null),
        Some(event) => event_json(alloc, number as u64, &event),
    }
}

/// The event of a run with a number.
pub(crate) fn event_at(alloc: Global, events: &[Event], number: u32) -> Result<Value, AllocError>
    ensures { IfOk result (λ v. view v
        ≡ data_of (event_at number (slice_get events.now number))) }
{
    numbered(alloc, number, find_event(events, number))
}

/// The PCID of moments, where it is another than the event's.
fn under_json(alloc: Global, other: Option<u16>) -> Result<Value, AllocError>
    ensures { IfOk result (λ v. view v ≡ data_of (under_json other)) }
{
    match other {
        None => Ok(Value::Null),
        Some(pcid) => hex_json(alloc, pcid as u64),
    }
}

/// The event that had to drop a translation, by its number, where one had to.
pub(crate) fn dropped_json(
    alloc: Global,
    number: Option<u32>,
    event: Option<Event>,
) -> Result<Value, AllocError>
    ensures { IfOk result (λ v. view v ≡ data_of (dropped_json number event)) }
{
    match number {
        None => Ok(Value::Null),
        Some(number) => numbered(alloc, number, event),
    }
}

fn some_last(alloc: Global, taken: Option<Event>, last: &Last) -> Result<Value, AllocError>
    ensures { IfOk result (λ v. view v ≡ data_of (last_json taken (Some last.now))) }
{
    let mut fields = Map::new(alloc);
    let taken = numbered(alloc, last.number, taken)?;
    put(&mut fields, alloc, "taken_by", taken)?;
    let under = under_json(alloc, last.other)?;
    put(&mut fields, alloc, "under", under)?;
    let moments = numbers_json(alloc, last.moments.as_slice())?;
    put(&mut fields, alloc, "by", moments)?;
    put_count(&mut fields, alloc, "moment", last.number as u64)?;
    Ok(Value::Object(fields))
}

/// When an event would last have been witnessed, and the event that took that away.
pub(crate) fn last_json(
    alloc: Global,
    taken: Option<Event>,
    last: Option<Last>,
) -> Result<Value, AllocError>
    ensures { IfOk result (λ v. view v ≡ data_of (last_json taken last)) }
{
    match last {
        None => Ok(Value::Null),
        Some(last) => some_last(alloc, taken, &last),
    }
}
