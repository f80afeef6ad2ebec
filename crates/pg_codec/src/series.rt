//! Parts of a record that come one after the other.

ghost use Rattle.std.specs.Prelude.{◌≡◌, ◌+◌, ◌^◌, ◌<◌, ◌≤◌, length, IfOk, None};
ghost use Rattle.std.specs.List.{AllByRecursion};
ghost use Rattle.pg_event.specs.Form.{broken_rule};
ghost use Rattle.pg_event.specs.Reading.{starts_at, events_at};
ghost use Rattle.pg_codec.specs.Reads.{seen, Pulls};

use crate::buffer::Buffer;
use crate::error::ReadError;
use crate::parts::{add_next, next_start};
use crate::stream::Source;
use pg_event::{Event, Header};
use std::alloc::Global;

pub(crate) fn next_starts<R: Source>(
    alloc: Global,
    buffer: &mut Buffer,
    source: &mut R,
    maxphyaddr: u8,
    count: u16,
) -> Result<Vec<(u64, bool)>, ReadError>
    requires { maxphyaddr ≤ 52 }
    ensures pulls { Pulls R.Source (starts_at maxphyaddr count)
        (buffer.old, source.old) (buffer.new, source.new) (seen (λ v. v.items) result) }
    ensures starts { IfOk result (λ v. AllByRecursion (λ s. s.0 < 2 ^ maxphyaddr) v.items) }
    ensures count { IfOk result (λ v. length v.items ≡ count) }
{
    let mut starts = Vec::with_capacity(alloc, count as usize)?;
    for _ in 0..count {
        let start = next_start(buffer, source, maxphyaddr)?;
        starts.push(start)?;
    }
    Ok(starts)
}

/// Room for at most so many events is taken before they have come. What a segment's head says costs
/// no more, and room for the others is taken as they come.
const AHEAD: u32 = 4096;

/// So many events, of which the first has the number `before`, in the memory of a list whose own
/// events are let go.
pub(crate) fn next_events<R: Source>(
    room: Vec<Event>,
    buffer: &mut Buffer,
    source: &mut R,
    header: &Header,
    before: u32,
    count: u32,
) -> Result<Vec<Event>, ReadError>
    requires address { header.now.cfg.m ≤ 52 }
    requires limit { before + count < 2 ^ 32 }
    ensures pulls { Pulls R.Source (events_at header.now before count)
        (buffer.old, source.old) (buffer.new, source.new) (seen (λ v. v.items) result) }
    ensures well { IfOk result (λ v.
        AllByRecursion (λ e. broken_rule header.now e ≡ None) v.items) }
    ensures count { IfOk result (λ v. length v.items ≡ count) }
{
    let mut events = room;
    events.clear();
    events.reserve(count.min(AHEAD) as usize)?;
    for i in 0..count {
        events.reserve(1)?;
        add_next(buffer, source, header, (before + i) as u64, &mut events)?;
    }
    Ok(events)
}
