//! The one spelling of a run with spans. Each part is spelled in a block, whose bytes are added.

ghost use Rattle.std.specs.Prelude.{◌≡◌, ◌<◌, ◌≤◌, ◌^◌, ◌++◌, IfOk, OnOk, length, ℕ};
ghost use Rattle.std.specs.List.{flat_map, zip, AllByRecursion};
ghost use Rattle.pg_event.specs.Form.{processor_of};
ghost use Rattle.pg_event.specs.Heads.{most_processors};
ghost use Rattle.pg_event.specs.Spelling.{IsHead, start_bytes, end_bytes};
ghost use Rattle.pg_codec.specs.Writing.{FitVersion, segment_head_bytes};
ghost use Rattle.pg_span_run.specs.Spelling.{spans_number, timed_bytes, spans_settings_bytes};
ghost use Rattle.pg_span_run.specs.Spelling.{spans_header_bytes, timed_segment_bytes};
ghost use Rattle.pg_span_run.specs.Spelling.{timed_segments_bytes, spanned_bytes};

use crate::spanned::SpannedRun;
use pg_codec::{
    Block, push_bare, push_end, push_event_head, push_segment_head, push_settings, push_start,
};
use pg_event::{Event, Header, Version};
use std::alloc::{AllocError, Global};

fn spans_number(version: Version) -> u16
    ensures { result ≡ spans_number version }
{
    match version {
        Version::One => 3,
        Version::Two => 4,
    }
}

/// What stands before the processors.
fn add_settings(bytes: &mut Vec<u8>, block: &mut Block, header: &Header) -> Result<(), AllocError>
    requires { IsHead header.now }
    ensures { OnOk result (bytes.new.items ≡ bytes.old.items ++ spans_settings_bytes header.now) }
{
    block.clear();
    push_settings(block, spans_number(header.version), header);
    bytes.extend_from_slice(block.as_slice())
}

/// The CR3 of a processor at the start, and whether it has global pages.
fn add_start(bytes: &mut Vec<u8>, block: &mut Block, cr3: u64, pge: bool) -> Result<(), AllocError>
    ensures { OnOk result (bytes.new.items ≡ bytes.old.items ++ start_bytes (cr3, pge)) }
{
    block.clear();
    push_start(block, cr3, pge);
    bytes.extend_from_slice(block.as_slice())
}

fn add_starts(
    bytes: &mut Vec<u8>,
    block: &mut Block,
    starts: &[(u64, bool)],
) -> Result<(), AllocError>
    ensures { OnOk result (bytes.new.items ≡ bytes.old.items ++ flat_map start_bytes starts.now) }
{
    for (cr3, pge) in starts {
        add_start(bytes, block, *cr3, *pge)?;
    }
    Ok(())
}

fn add_header(bytes: &mut Vec<u8>, block: &mut Block, header: &Header) -> Result<(), AllocError>
    requires { IsHead header.now }
    ensures { OnOk result (bytes.new.items ≡ bytes.old.items ++ spans_header_bytes header.now) }
{
    add_settings(bytes, block, header)?;
    add_starts(bytes, block, &header.processors)?;
    Ok(())
}

fn add_event(
    bytes: &mut Vec<u8>,
    block: &mut Block,
    version: Version,
    event: &Event,
    back: u32,
) -> Result<(), AllocError>
    requires { processor_of event.now < most_processors version }
    ensures { OnOk result (bytes.new.items ≡ bytes.old.items
        ++ timed_bytes version (event.now, back)) }
{
    block.clear();
    push_event_head(block, version, event);
    block.push_u32(back);
    push_bare(block, event);
    bytes.extend_from_slice(block.as_slice())
}

/// A segment without its events.
fn add_segment_head(
    bytes: &mut Vec<u8>,
    block: &mut Block,
    number: u32,
    count: u32,
) -> Result<(), AllocError>
    ensures { OnOk result (bytes.new.items ≡ bytes.old.items ++ segment_head_bytes number count) }
{
    block.clear();
    push_segment_head(block, number, count);
    bytes.extend_from_slice(block.as_slice())
}

/// The end mark with the total of events.
fn add_end(bytes: &mut Vec<u8>, block: &mut Block, total: u32) -> Result<(), AllocError>
    ensures { OnOk result (bytes.new.items ≡ bytes.old.items ++ end_bytes total) }
{
    block.clear();
    push_end(block, total);
    bytes.extend_from_slice(block.as_slice())
}

/// A segment with its number.
fn add_segment(
    bytes: &mut Vec<u8>,
    block: &mut Block,
    version: Version,
    number: u32,
    events: &[Event],
    backs: &[u32],
) -> Result<(), AllocError>
    requires count { length backs.now ≡ length events.now }
    requires few { length events.now < 2 ^ 32 }
    requires processors { FitVersion version events.now }
    ensures { OnOk result (bytes.new.items ≡ bytes.old.items
        ++ timed_segment_bytes version number (zip events.now backs.now)) }
{
    add_segment_head(bytes, block, number, events.len() as u32)?;
    for (i, event) in events.iter().enumerate() {
        add_event(bytes, block, version, event, backs[i])?;
    }
    Ok(())
}

/// The segments, each full but the last.
fn add_segments(
    bytes: &mut Vec<u8>,
    block: &mut Block,
    header: &Header,
    events: &[Event],
    backs: &[u32],
) -> Result<(), AllocError>
    requires size { 1 ≤ header.now.segment }
    requires count { length backs.now ≡ length events.now }
    requires few { length events.now < 2 ^ 32 }
    requires processors { FitVersion header.now.version events.now }
    ensures { OnOk result (bytes.new.items ≡ bytes.old.items
        ++ timed_segments_bytes header.now 0 (length events.now) (zip events.now backs.now)) }
{
    let mut events = events;
    let mut backs = backs;
    let mut number = 0;
    while !events.is_empty() {
        let size = events.len().min(header.segment as usize);
        let (segment, others) = events.split_at(size);
        let (segment_backs, other_backs) = backs.split_at(size);
        add_segment(bytes, block, header.version, number, segment, segment_backs)?;
        events = others;
        backs = other_backs;
        number += 1;
    }
    Ok(())
}

/// The one spelling of a run as a record of version 3, or of version 4 where its header has the
/// second version. The moments of its events are not spelled. It fails only where memory is
/// refused.
pub fn spell_spanned(alloc: Global, run: &SpannedRun) -> Result<Vec<u8>, AllocError>
    ensures { IfOk result (λ bytes. bytes.items ≡ spanned_bytes run.now) }
{
    let mut bytes = Vec::new(alloc);
    let mut block = Block::new();
    add_header(&mut bytes, &mut block, run.header())?;
    add_segments(
        &mut bytes,
        &mut block,
        run.header(),
        run.events(),
        run.backs(),
    )?;
    add_end(&mut bytes, &mut block, run.len() as u32)?;
    Ok(bytes)
}
