//! Records into any sink, from a fixed array.

ghost use Rattle.std.specs.Prelude.{◌≡◌, ◌+◌, ◌≤◌, ◌<◌, ◌^◌, length, take, drop, IsOk};
ghost use Rattle.pg_event.specs.Spelling.{IsHead, header_bytes, segment_bytes, segments_bytes};
ghost use Rattle.pg_event.specs.Spelling.{end_bytes, record_bytes};
ghost use Rattle.pg_codec.specs.Streams.{RaisesFailures};
ghost use Rattle.pg_codec.specs.Writing.{Puts, Passes, FitVersion};

use crate::block::{BLOCK, Block};
use crate::spelling::{
    LONGEST_PART, push_end, push_event, push_segment_head, push_settings, push_start,
    version_number,
};
use crate::stream::{Failed, Sink};
use crate::transfer::put_all;
use pg_event::{Event, Header, Version};

/// Puts what the block holds, where there may be no room for one more part.
fn make_room<W: Sink>(sink: &mut W, block: &mut Block) -> Result<(), Failed>
    ensures room { IsOk result → length block.new + 38 ≤ 4096 }
    ensures bytes { Passes (W.held sink.old) block.old (W.held sink.new) block.new result }
    ensures failures { RaisesFailures (W.failed sink.old) (W.failed sink.new) result }
{
    if block.len() > BLOCK - LONGEST_PART {
        put_all(sink, block.as_slice())?;
        block.clear();
    }
    Ok(())
}

/// Writes the one spelling of a header. It fails only where the sink does, which then holds a
/// beginning of it.
pub fn write_header<W: Sink>(sink: &mut W, header: &Header) -> Result<(), Failed>
    requires { IsHead header.now }
    ensures { Puts W.Sink (header_bytes header.now) sink.old sink.new result }
{
    let mut block = Block::new();
    push_settings(&mut block, version_number(header.version), header);
    for (cr3, pge) in &header.processors {
        make_room(sink, &mut block)?;
        push_start(&mut block, *cr3, *pge);
    }
    put_all(sink, block.as_slice())
}

/// Writes the one spelling of a segment with its number, in a record of this version. It fails only
/// where the sink does, which then holds a beginning of it.
pub fn write_segment<W: Sink>(
    sink: &mut W,
    version: Version,
    number: u32,
    events: &[Event],
) -> Result<(), Failed>
    requires some { 1 ≤ length events.now }
    requires few { length events.now ≤ 65536 }
    requires processors { FitVersion version events.now }
    ensures { Puts W.Sink (segment_bytes version number events.now) sink.old sink.new result }
{
    let mut block = Block::new();
    push_segment_head(&mut block, number, events.len() as u32);
    for event in events {
        make_room(sink, &mut block)?;
        push_event(&mut block, version, event);
    }
    put_all(sink, block.as_slice())
}

/// Writes the one spelling of an end mark with the total of events. It fails only where the sink
/// does, which then holds a beginning of it.
pub fn write_end<W: Sink>(sink: &mut W, total: u32) -> Result<(), Failed>
    ensures { Puts W.Sink (end_bytes total) sink.old sink.new result }
{
    let mut block = Block::new();
    push_end(&mut block, total);
    put_all(sink, block.as_slice())
}

/// The events of the next segment, and those after it.
fn cut_segment(events: &[Event], size: u32) -> (&[Event], &[Event])
    ensures front { result.0.now ≡ take size events.now }
    ensures others { result.1.now ≡ drop size events.now }
{
    events.split_at(events.len().min(size as usize))
}

/// Puts the segments of events, each full but the last.
fn write_segments<W: Sink>(sink: &mut W, header: &Header, events: &[Event]) -> Result<(), Failed>
    requires size { 1 ≤ header.now.segment }
    requires limit { header.now.segment ≤ 65536 }
    requires count { length events.now < 2 ^ 32 }
    requires processors { FitVersion header.now.version events.now }
    ensures { Puts W.Sink (segments_bytes header.now 0 (length events.now) events.now)
        sink.old sink.new result }
{
    let mut rest = events;
    let mut number = 0;
    while !rest.is_empty() {
        let (segment, others) = cut_segment(rest, header.segment);
        write_segment(sink, header.version, number, segment)?;
        rest = others;
        number += 1;
    }
    Ok(())
}

/// Writes the one spelling of a whole record. It fails only where the sink does, which then holds a
/// beginning of it.
pub fn write_record<W: Sink>(sink: &mut W, header: &Header, events: &[Event]) -> Result<(), Failed>
    requires head { IsHead header.now }
    requires count { length events.now < 2 ^ 32 }
    requires processors { FitVersion header.now.version events.now }
    ensures { Puts W.Sink (record_bytes (record { head = header.now; events = events.now }))
        sink.old sink.new result }
{
    write_header(sink, header)?;
    write_segments(sink, header, events)?;
    write_end(sink, events.len() as u32)
}
