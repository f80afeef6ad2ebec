//! Headers and segments, from a buffer over a source.

ghost use Rattle.std.specs.Prelude.{◌≡◌, ◌≤◌, None, IfOk, IfSome, option_map};
ghost use Rattle.pg_event.specs.Spelling.{IsHead};
ghost use Rattle.pg_event.specs.Reading.{header_at, end_at};
ghost use Rattle.pg_codec.specs.Reads.{seen, Pulls, Finds, FindsEnd};
ghost use Rattle.pg_codec.specs.Parts.{version_said, is_two, old_header_at};
ghost use Rattle.pg_codec.specs.Readers.{next_segment_at, next_chunk_at, next_closed_chunk_at};
ghost use Rattle.pg_codec.specs.Readers.{IsSegment, MayCome};

use crate::buffer::Buffer;
use crate::error::ReadError;
use crate::front::says_two;
use crate::parts::{next_byte, next_settings, next_u32};
use crate::series::{next_events, next_starts};
use crate::stage::Progress;
use crate::stream::{Failed, Source};
use pg_event::{Event, Header, Refusal};
use std::alloc::Global;

pub(crate) fn next_header<R: Source>(
    alloc: Global,
    buffer: &mut Buffer,
    source: &mut R,
) -> Result<Header, ReadError>
    ensures pulls { Pulls R.Source header_at
        (buffer.old, source.old) (buffer.new, source.new) result }
    ensures head { IfOk result (λ h. IsHead h) }
{
    let settings = next_settings(buffer, source)?;
    let processors = next_starts(alloc, buffer, source, settings.cfg.m, settings.count)?;
    Ok(Header {
        version: settings.version,
        cfg: settings.cfg,
        segment: settings.segment,
        processors,
    })
}

fn is_version_two<R: Source>(buffer: &mut Buffer, source: &mut R) -> Result<bool, Failed>
    ensures { Finds R.Source (λ bytes. is_two (version_said bytes))
        (buffer.old, source.old) (buffer.new, source.new) result }
{
    buffer.prepare(source)?;
    Ok(says_two(buffer.unread()))
}

/// The header of a version 1 record.
pub(crate) fn next_old_header<R: Source>(
    alloc: Global,
    buffer: &mut Buffer,
    source: &mut R,
) -> Result<Header, ReadError>
    ensures pulls { Pulls R.Source old_header_at
        (buffer.old, source.old) (buffer.new, source.new) result }
    ensures head { IfOk result (λ h. IsHead h) }
{
    if is_version_two(buffer, source)? {
        return Err(ReadError::Refused(Refusal::Version));
    }
    match next_header(alloc, buffer, source) {
        Ok(header) => Ok(header),
        Err(error) => Err(error),
    }
}

/// A segment after its tag, in the memory of a list whose own events are let go.
#[tactic(auto, unfolding(pg_event::specs::Reading::segment_at))]
fn next_segment<R: Source>(
    room: Vec<Event>,
    buffer: &mut Buffer,
    source: &mut R,
    progress: &Progress,
) -> Result<Vec<Event>, ReadError>
    requires { progress.now.header.cfg.m ≤ 52 }
    ensures pulls { Pulls R.Source (next_segment_at progress.now)
        (buffer.old, source.old) (buffer.new, source.new) (seen (λ v. v.items) result) }
    ensures next { IfOk result (λ v. IsSegment progress.now v.items) }
{
    let found = next_u32(buffer, source)?;
    if found != progress.number {
        return Err(ReadError::Refused(Refusal::SegmentNumber));
    }
    let count = next_u32(buffer, source)?;
    if count < 1 || count > progress.header.segment || count > u32::MAX - progress.before {
        return Err(ReadError::Refused(Refusal::SegmentCount));
    }
    next_events(
        room,
        buffer,
        source,
        &progress.header,
        progress.before,
        count,
    )
}

/// The end mark after its tag.
#[tactic(auto, unfolding(pg_event::specs::Reading::end_at))]
fn next_end<R: Source>(
    buffer: &mut Buffer,
    source: &mut R,
    total: u32,
) -> Result<Option<Vec<Event>>, ReadError>
    ensures pulls { Pulls R.Source (end_at total)
        (buffer.old, source.old) (buffer.new, source.new)
        (seen (option_map (λ v. v.items)) result) }
    ensures none { IfOk result (λ chunk. chunk ≡ None) }
{
    if next_u32(buffer, source)? != total {
        return Err(ReadError::Refused(Refusal::Total));
    }
    Ok(None)
}

/// A segment, or none at the end mark.
#[tactic(auto, unfolding(pg_event::specs::Reading::chunk_at))]
fn next_chunk<R: Source>(
    room: Vec<Event>,
    buffer: &mut Buffer,
    source: &mut R,
    progress: &Progress,
) -> Result<Option<Vec<Event>>, ReadError>
    requires { progress.now.header.cfg.m ≤ 52 }
    ensures pulls { Pulls R.Source (next_chunk_at progress.now)
        (buffer.old, source.old) (buffer.new, source.new)
        (seen (option_map (λ v. v.items)) result) }
    ensures next { IfOk result (λ chunk.
        IfSome chunk (λ v. MayCome progress.now v.items)) }
{
    let tag = next_byte(buffer, source)?;
    if tag != 1 && tag != 2 {
        return Err(ReadError::Refused(Refusal::Tag));
    }
    if tag == 2 {
        return next_end(buffer, source, progress.before);
    }
    if !progress.full {
        return Err(ReadError::Refused(Refusal::SegmentCount));
    }
    let events = next_segment(room, buffer, source, progress)?;
    Ok(Some(events))
}

fn is_at_end<R: Source>(buffer: &mut Buffer, source: &mut R) -> Result<bool, Failed>
    ensures { FindsEnd R.Source (buffer.old, source.old) (buffer.new, source.new) result }
{
    buffer.prepare(source)?;
    Ok(buffer.unread().is_empty())
}

/// A segment, or none at the end mark and the end of the input after it.
pub(crate) fn next_closed_chunk<R: Source>(
    room: Vec<Event>,
    buffer: &mut Buffer,
    source: &mut R,
    progress: &Progress,
) -> Result<Option<Vec<Event>>, ReadError>
    requires { progress.now.header.cfg.m ≤ 52 }
    ensures pulls { Pulls R.Source (next_closed_chunk_at progress.now)
        (buffer.old, source.old) (buffer.new, source.new)
        (seen (option_map (λ v. v.items)) result) }
    ensures next { IfOk result (λ chunk.
        IfSome chunk (λ v. MayCome progress.now v.items)) }
{
    let Some(events) = next_chunk(room, buffer, source, progress)? else {
        if is_at_end(buffer, source)? {
            return Ok(None);
        }
        return Err(ReadError::Refused(Refusal::Trailing));
    };
    Ok(Some(events))
}
