//! The one spelling of the parts of a record, into a block.

ghost use Rattle.std.specs.Prelude.{◌≡◌, ◌+◌, ◌<◌, ◌≤◌, [], ◌∷◌, ◌++◌, length, codes};
ghost use Rattle.pg_event.specs.Form.{processor_of};
ghost use Rattle.pg_event.specs.Heads.{most_processors};
ghost use Rattle.pg_event.specs.Spelling.{IsHead, start_bytes, processor_bytes, outcome_bytes};
ghost use Rattle.pg_event.specs.Spelling.{moments_bytes, tag_of, event_bytes, end_bytes};
ghost use Rattle.pg_event.specs.Spelling.{version_number};
ghost use Rattle.pg_codec.specs.Bare.{bare_bytes, named_bytes};
ghost use Rattle.pg_codec.specs.Writing.{numbered_bytes, segment_head_bytes};

use crate::block::Block;
use pg_event::{Event, Header, Moments, Outcome, Version, processor_of};

/// The most bytes of a part that is read or written at once: an access in a record of version 2.
pub(crate) const LONGEST_PART: usize = 38;

fn push_magic(block: &mut Block)
    requires { length block.old + 8 ≤ 4096 }
    ensures { block.new ≡ block.old ++ codes "PGRECORD" }
{
    block.push_u64(u64::from_le_bytes(*b"PGRECORD"));
}

/// The number of the version in a record without spans.
pub(crate) fn version_number(version: Version) -> u16
    ensures { result ≡ version_number version }
{
    match version {
        Version::One => 1,
        Version::Two => 2,
    }
}

/// The number of a processor, or how many there are.
fn push_processor(block: &mut Block, version: Version, number: u16)
    requires room { length block.old + 2 ≤ 4096 }
    requires fits { number ≤ most_processors version }
    ensures { block.new ≡ block.old ++ processor_bytes version number }
{
    match version {
        Version::One => block.push_u8(number as u8),
        Version::Two => block.push_u16(number),
    }
}

/// What stands before the processors, with this number of the version.
pub fn push_settings(block: &mut Block, number: u16, header: &Header)
    requires room { length block.old + 18 ≤ 4096 }
    requires head { IsHead header.now }
    ensures { block.new ≡ block.old ++ numbered_bytes number header.now }
{
    push_magic(block);
    block.push_u16(number);
    block.push_u8(header.cfg.m);
    block.push_u8(header.cfg.flags.0);
    push_processor(block, header.version, header.processors.len() as u16);
    block.push_u32(header.segment);
}

/// The CR3 of a processor at the start, and whether it has global pages.
pub fn push_start(block: &mut Block, cr3: u64, pge: bool)
    requires { length block.old + 9 ≤ 4096 }
    ensures { block.new ≡ block.old ++ start_bytes (cr3, pge) }
{
    block.push_u64(cr3);
    block.push_bit(pge);
}

/// A segment without its events.
pub fn push_segment_head(block: &mut Block, number: u32, count: u32)
    requires { length block.old + 9 ≤ 4096 }
    ensures { block.new ≡ block.old ++ segment_head_bytes number count }
{
    block.push_u8(1);
    block.push_u32(number);
    block.push_u32(count);
}

/// The end mark with the total of events.
pub fn push_end(block: &mut Block, total: u32)
    requires { length block.old + 5 ≤ 4096 }
    ensures { block.new ≡ block.old ++ end_bytes total }
{
    block.push_u8(2);
    block.push_u32(total);
}

fn push_outcome(block: &mut Block, outcome: Outcome)
    requires { length block.old + 9 ≤ 4096 }
    ensures { block.new ≡ block.old ++ outcome_bytes outcome }
{
    match outcome {
        Outcome::Page(page) => {
            block.push_u8(0);
            block.push_u64(page);
        }
        Outcome::Fault(code) => {
            block.push_u8(1);
            block.push_u16(code);
        }
    }
}

fn push_moments(block: &mut Block, moments: &Moments)
    requires { length block.old + 17 ≤ 4096 }
    ensures { block.new ≡ block.old ++ moments_bytes moments.now }
{
    block.push_u8(moments.len() as u8);
    for i in 0..moments.len() {
        if let Some(moment) = moments.get(i) {
            block.push_u32(moment);
        }
    }
}

fn tag_of(event: &Event) -> u8
    ensures { result ≡ tag_of event.now }
{
    match *event {
        Event::Write { .. } => 0x10,
        Event::Access { .. } => 0x11,
        Event::MovCr3 { .. } => 0x12,
        Event::Invlpg { .. } => 0x13,
        Event::Invpcid { .. } => 0x14,
        Event::MovCr4Pge { .. } => 0x15,
        Event::Assist { .. } => 0x16,
    }
}

/// The tag of an event and the number of its processor.
pub fn push_event_head(block: &mut Block, version: Version, event: &Event)
    requires room { length block.old + 3 ≤ 4096 }
    requires processor { processor_of event.now < most_processors version }
    ensures { block.new ≡ block.old
        ++ tag_of event.now ∷ processor_bytes version (processor_of event.now) }
{
    block.push_u8(tag_of(event));
    push_processor(block, version, processor_of(event));
}

/// The fields of an event after those, without its moments.
pub fn push_bare(block: &mut Block, event: &Event)
    requires { length block.old + 18 ≤ 4096 }
    ensures { block.new ≡ block.old ++ bare_bytes event.now }
{
    match *event {
        Event::Write { addr, value, .. } => {
            block.push_u64(addr);
            block.push_u64(value);
        }
        Event::Access {
            flags,
            la,
            outcome,
            ..
        } => {
            block.push_u8(flags);
            block.push_u64(la);
            push_outcome(block, outcome);
        }
        Event::Assist {
            flags,
            la,
            word,
            ..
        } => {
            block.push_u8(flags);
            block.push_u64(la);
            block.push_u64(word);
        }
        Event::MovCr3 { operand, .. } => block.push_u64(operand),
        Event::Invlpg { la, .. } => block.push_u64(la),
        Event::Invpcid { kind, pcid, la, .. } => {
            block.push_u8(kind);
            block.push_u16(pcid);
            block.push_u64(la);
        }
        Event::MovCr4Pge { on, .. } => block.push_bit(on),
    }
}

/// The moments that an event names, if it does.
fn push_named(block: &mut Block, event: &Event)
    requires { length block.old + 17 ≤ 4096 }
    ensures { block.new ≡ block.old ++ named_bytes event.now }
{
    match *event {
        Event::Access { moments, .. } => push_moments(block, &moments),
        Event::Assist { moments, .. } => push_moments(block, &moments),
        Event::Write { .. } => {}
        Event::MovCr3 { .. } => {}
        Event::Invlpg { .. } => {}
        Event::Invpcid { .. } => {}
        Event::MovCr4Pge { .. } => {}
    }
}

/// An event that names its moments.
pub(crate) fn push_event(block: &mut Block, version: Version, event: &Event)
    requires room { length block.old + 38 ≤ 4096 }
    requires processor { processor_of event.now < most_processors version }
    ensures { block.new ≡ block.old ++ event_bytes version event.now }
{
    push_event_head(block, version, event);
    push_bare(block, event);
    push_named(block, event);
}
