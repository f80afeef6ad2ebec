//! Bytes that were pulled from a source in large blocks, and not yet read.

ghost use Rattle.std.specs.Prelude.{◌≡◌, ◌-◌, ◌<◌, ◌≤◌, [], length, take, drop, IfOk};
ghost use Rattle.std.specs.List.{slice_range};
ghost use Rattle.std.specs.Io.KnownBytes.{Keeps, IsAtEnd};
ghost use Rattle.pg_event.specs.Laws.{AreBytes};
ghost use Rattle.pg_codec.specs.Streams.{RaisesFailures};
ghost use Rattle.pg_codec.specs.Reads.{left_of, Prepares};

use crate::error::ReadError;
use crate::spelling::LONGEST_PART;
use crate::stream::{Failed, Source};
use crate::transfer::fill;
use std::alloc::{AllocError, Global};
use std::marker::Model;

/// The bytes of a block.
const CAPACITY: usize = 65536;

/// Moves the bytes of a range to the front, fills the rest of the slice as far as the source has
/// bytes, and answers how many there are.
pub fn refill_slice<R: Source>(
    source: &mut R,
    bytes: &mut [u8],
    start: usize,
    end: usize,
) -> Result<usize, Failed>
    requires from { start ≤ end }
    requires to { end ≤ length bytes.old }
    ensures bound { IfOk result (λ n. n ≤ length bytes.new) }
    ensures kept { IfOk result (λ n. Keeps
        (left_of (slice_range bytes.old start end) (R.left source.old))
        (left_of (take n bytes.new) (R.left source.new))) }
    ensures end { IfOk result (λ n. n < length bytes.new → IsAtEnd (R.left source.new)) }
    ensures failures { RaisesFailures (R.failed source.old) (R.failed source.new) result }
{
    let len = end - start;
    bytes.copy_within(start..end, 0);
    let n = fill(source, &mut bytes[len..])?;
    Ok(len + n)
}

fn range_of(bytes: &[u8], start: usize, end: usize) -> &[u8]
    requires from { start ≤ end }
    requires to { end ≤ length bytes.now }
    ensures value { result.now ≡ slice_range bytes.now start end }
    ensures bytes { AreBytes (slice_range bytes.now start end) }
{
    &bytes[start..end]
}

/// What was pulled and not yet read.
#[derive(Drop)]
pub(crate) struct Buffer {
    bytes: Vec<u8>,
    start: usize,
    end: usize,
}

impl Model for Buffer {
    ghost use Rattle.std.specs.Prelude.{ℕ, List, ◌≤◌, length};
    ghost use Rattle.std.specs.List.{slice_range};

    ghost Value = { List ℕ };

    ghost view = { λ b. slice_range b.bytes.items b.start b.end };

    ghost invariant = { λ b.
        (b.start ≤ b.end) × (b.end ≤ length b.bytes.items) × (38 ≤ length b.bytes.items) };
}

impl Buffer {
    pub(crate) fn new(alloc: Global) -> Result<Buffer, AllocError>
        ensures { IfOk result (λ b. b ≡ []) }
    {
        Ok(Buffer {
            bytes: vec![in alloc; 0; CAPACITY]?,
            start: 0,
            end: 0,
        })
    }

    pub(crate) fn unread(&self) -> &[u8]
        ensures value { result.now ≡ self.now }
        ensures bytes { AreBytes self.now }
    {
        range_of(&self.bytes, self.start, self.end)
    }

    /// Lets all go but the last bytes.
    pub(crate) fn keep_last(&mut self, n: usize)
        requires { n ≤ length self.old }
        ensures { self.new ≡ drop (length self.old - n) self.old }
    {
        self.start = self.end - n;
    }

    /// Gives a part that was read. If none was, the source hears how much was pulled and not read.
    pub(crate) fn settle<T, R: Source>(
        &self,
        source: &mut R,
        part: Result<T, ReadError>,
    ) -> Result<T, ReadError>
        ensures part { result ≡ part }
        ensures left { R.left source.new ≡ R.left source.old }
        ensures failed { R.failed source.new ≡ R.failed source.old }
    {
        match part {
            Ok(value) => Ok(value),
            Err(error) => {
                source.stop(self.end - self.start);
                Err(error)
            }
        }
    }

    fn refill<R: Source>(&mut self, source: &mut R) -> Result<(), Failed>
        ensures { Prepares R.Source (self.old, source.old) (self.new, source.new) result }
    {
        let end = refill_slice(source, &mut self.bytes, self.start, self.end)?;
        self.start = 0;
        self.end = end;
        Ok(())
    }

    /// Has the bytes of the longest part at hand, or all that the source has left.
    pub(crate) fn prepare<R: Source>(&mut self, source: &mut R) -> Result<(), Failed>
        ensures { Prepares R.Source (self.old, source.old) (self.new, source.new) result }
    {
        if self.end - self.start >= LONGEST_PART {
            return Ok(());
        }
        self.refill(source)
    }
}
