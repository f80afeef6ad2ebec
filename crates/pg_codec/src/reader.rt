//! Records from any source, segment by segment.

ghost use Rattle.std.specs.Prelude.{◌≡◌, ◌+◌, ◌^◌, ◌<◌, ◌≤◌, [], length, IfOk, IfSome, Err};
ghost use Rattle.std.specs.Prelude.{option_map};
ghost use Rattle.pg_event.specs.Spelling.{IsHead};
ghost use Rattle.pg_codec.specs.declared.stage.Stage.TheVariants.{Start, Refused};
ghost use Rattle.pg_codec.specs.Reads.{seen};
ghost use Rattle.pg_codec.specs.Readers.{MayReadHeader, MayReadSegment, PullsHeader};
ghost use Rattle.pg_codec.specs.Readers.{PullsOldHeader, PullsSegment};
ghost use Rattle.pg_codec.specs.Readers.{IsNext, stage_after_header, stage_after_chunk};
ghost use Rattle.pg_codec.specs.Readers.{behind_chunk, behind_header};

use crate::buffer::Buffer;
use crate::chunk::{next_closed_chunk, next_header, next_old_header};
use crate::error::ReadError;
use crate::stage::{Progress, Stage};
use crate::stream::Source;
use pg_event::{Event, Header};
use std::alloc::{AllocError, Global};
use std::marker::Model;
use std::mem;

/// Reads a record from a source, which each call is passed: the header, and then segment by
/// segment. It pulls ahead in large blocks. What it has left is what it pulled and has not read,
/// and then what the source has left.
#[derive(Drop)]
pub struct RecordReader {
    buffer: Buffer,
    stage: Stage,
}

impl Model for RecordReader {
    ghost use Rattle.pg_codec.specs.Readers.{Reader, IsSound};

    ghost Value = { Reader };

    ghost view = { λ r. record { unread = r.buffer; stage = r.stage } };

    ghost invariant = { λ r. IsSound r.stage };
}

fn behind_header(header: &Header) -> Result<Stage, AllocError>
    ensures { IfOk result (λ stage. stage ≡ behind_header header.now) }
{
    Ok(Stage::Segments(Progress {
        header: header.clone()?,
        number: 0,
        before: 0,
        full: true,
    }))
}

fn behind_chunk(progress: Progress, chunk: &Option<Vec<Event>>) -> Stage
    requires number { progress.number ≤ progress.before }
    requires limit { IfSome chunk.now (λ v. progress.before + length v.items < 2 ^ 32) }
    requires some { IfSome chunk.now (λ v. 1 ≤ length v.items) }
    ensures { result ≡ behind_chunk progress (option_map (λ v. v.items) chunk.now) }
{
    match chunk {
        None => Stage::Ended,
        Some(events) => {
            let count = events.len() as u32;
            let full = count == progress.header.segment;
            Stage::Segments(Progress {
                number: progress.number + 1,
                before: progress.before + count,
                full,
                header: progress.header,
            })
        }
    }
}

impl RecordReader {
    /// A reader that has read nothing. It takes the memory of its block.
    pub fn new(alloc: Global) -> Result<RecordReader, AllocError>
        ensures { IfOk result (λ r. r ≡ record { unread = []; stage = Start }) }
    {
        Ok(RecordReader {
            buffer: Buffer::new(alloc)?,
            stage: Stage::Start,
        })
    }

    /// Reads the header, first and once.
    pub fn read_header<R: Source>(
        &mut self,
        alloc: Global,
        source: &mut R,
    ) -> Result<Header, ReadError>
        requires { MayReadHeader self.old.stage }
        ensures pulls { PullsHeader R.Source self.old.stage
            (self.old.unread, source.old) (self.new.unread, source.new) result }
        ensures head { IfOk result (λ h. IsHead h) }
        ensures stage { self.new.stage ≡ stage_after_header result }
        ensures refused { self.old.stage ≡ Refused →
            (result ≡ Err ReadError.Failed) × (self.new ≡ self.old) × (source.new ≡ source.old) }
    {
        match mem::replace(&mut self.stage, Stage::Refused) {
            Stage::Start => {}
            Stage::Segments(_) | Stage::Ended | Stage::Refused => return Err(ReadError::Failed),
        }
        let part = next_header(alloc, &mut self.buffer, source);
        let header = self.buffer.settle(source, part)?;
        self.stage = behind_header(&header)?;
        Ok(header)
    }

    /// Reads the header of a version 1 record, first and once. A version 2 record is refused at its
    /// version field, whatever follows.
    pub fn read_old_header<R: Source>(
        &mut self,
        alloc: Global,
        source: &mut R,
    ) -> Result<Header, ReadError>
        requires { MayReadHeader self.old.stage }
        ensures pulls { PullsOldHeader R.Source self.old.stage
            (self.old.unread, source.old) (self.new.unread, source.new) result }
        ensures head { IfOk result (λ h. IsHead h) }
        ensures stage { self.new.stage ≡ stage_after_header result }
        ensures refused { self.old.stage ≡ Refused →
            (result ≡ Err ReadError.Failed) × (self.new ≡ self.old) × (source.new ≡ source.old) }
    {
        match mem::replace(&mut self.stage, Stage::Refused) {
            Stage::Start => {}
            Stage::Segments(_) | Stage::Ended | Stage::Refused => return Err(ReadError::Failed),
        }
        let part = next_old_header(alloc, &mut self.buffer, source);
        let header = self.buffer.settle(source, part)?;
        self.stage = behind_header(&header)?;
        Ok(header)
    }

    /// Reads the next segment, or answers `None` once the end mark and the end of the input were
    /// seen. It comes after the header, and not after `None`.
    pub fn read_segment<R: Source>(
        &mut self,
        alloc: Global,
        source: &mut R,
    ) -> Result<Option<Vec<Event>>, ReadError>
        requires { MayReadSegment self.old.stage }
        ensures pulls { PullsSegment R.Source self.old.stage
            (self.old.unread, source.old) (self.new.unread, source.new)
            (seen (option_map (λ v. v.items)) result) }
        ensures next { IfOk result (λ chunk.
            IsNext self.old.stage (option_map (λ v. v.items) chunk)) }
        ensures stage { self.new.stage ≡
            stage_after_chunk self.old.stage (seen (option_map (λ v. v.items)) result) }
        ensures refused { self.old.stage ≡ Refused →
            (result ≡ Err ReadError.Failed) × (self.new ≡ self.old) × (source.new ≡ source.old) }
    {
        self.read_segment_in(Vec::new(alloc), source)
    }

    /// What `read_segment` gives, in the memory of a list whose own events are freed.
    pub fn read_segment_in<R: Source>(
        &mut self,
        room: Vec<Event>,
        source: &mut R,
    ) -> Result<Option<Vec<Event>>, ReadError>
        requires { MayReadSegment self.old.stage }
        ensures pulls { PullsSegment R.Source self.old.stage
            (self.old.unread, source.old) (self.new.unread, source.new)
            (seen (option_map (λ v. v.items)) result) }
        ensures next { IfOk result (λ chunk.
            IsNext self.old.stage (option_map (λ v. v.items) chunk)) }
        ensures stage { self.new.stage ≡
            stage_after_chunk self.old.stage (seen (option_map (λ v. v.items)) result) }
        ensures refused { self.old.stage ≡ Refused →
            (result ≡ Err ReadError.Failed) × (self.new ≡ self.old) × (source.new ≡ source.old) }
    {
        let progress = match mem::replace(&mut self.stage, Stage::Refused) {
            Stage::Segments(progress) => progress,
            Stage::Start | Stage::Ended | Stage::Refused => return Err(ReadError::Failed),
        };
        let part = next_closed_chunk(room, &mut self.buffer, source, &progress);
        let chunk = self.buffer.settle(source, part)?;
        self.stage = behind_chunk(progress, &chunk);
        Ok(chunk)
    }
}
