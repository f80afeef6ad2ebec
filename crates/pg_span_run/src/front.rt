//! The first bytes of a source, which were looked at and still wait to be pulled.

ghost use Rattle.std.specs.Prelude.{◌≡◌, ◌≤◌, ◌<◌, [], ◌++◌, length, take, OnOk};
ghost use Rattle.std.specs.Io.KnownBytes.{Keeps, IsAtEnd};
ghost use Rattle.pg_codec.specs.Reads.{left_of};
ghost use Rattle.pg_codec.specs.Streams.{RaisesFailures};

use pg_codec::{Failed, Source, refill_slice};
use std::marker::Model;

/// The bytes of the magic and the version.
const FRONT: usize = 10;

/// Copies the first bytes, as many as there is room for, and answers how many.
fn copy_front(bytes: &[u8], out: &mut [u8]) -> usize
    ensures within { result ≤ length bytes.now }
    ensures bound { result ≤ length out.new }
    ensures bytes { take result out.new ≡ take result bytes.now }
    ensures some { 0 < length out.new → 0 < length bytes.now → 0 < result }
{
    let n = bytes.len().min(out.len());
    out[..n].copy_from_slice(&bytes[..n]);
    n
}

/// Bytes that were pulled and wait to be given.
#[derive(Drop)]
pub(crate) struct Front {
    bytes: [u8; FRONT],
    start: usize,
    end: usize,
}

impl Model for Front {
    ghost use Rattle.std.specs.Prelude.{ℕ, List, ◌≤◌};
    ghost use Rattle.std.specs.List.{slice_range};

    ghost Value = { List ℕ };

    ghost view = { λ f. slice_range f.bytes f.start f.end };

    ghost invariant = { λ f. (f.start ≤ f.end) × (f.end ≤ 10) };
}

impl Front {
    pub(crate) fn new() -> Front
        ensures { result ≡ [] }
    {
        Front {
            bytes: [0; FRONT],
            start: 0,
            end: 0,
        }
    }

    pub(crate) fn as_slice(&self) -> &[u8]
        ensures { result.now ≡ self.now }
    {
        &self.bytes[self.start..self.end]
    }

    /// Gives the first bytes, as many as there is room for, and answers how many.
    pub(crate) fn give(&mut self, out: &mut [u8]) -> usize
        ensures bound { result ≤ length out.new }
        ensures bytes { self.old ≡ take result out.new ++ self.new }
        ensures some { 0 < length out.new → 0 < length self.old → 0 < result }
    {
        let n = copy_front(&self.bytes[self.start..self.end], out);
        self.start += n;
        n
    }

    /// Pulls what there is room for, as far as the source has it.
    pub(crate) fn fill<R: Source>(&mut self, source: &mut R) -> Result<(), Failed>
        ensures kept { OnOk result (Keeps (left_of self.old (R.left source.old))
            (left_of self.new (R.left source.new))) }
        ensures enough { OnOk result (length self.new < 10 → IsAtEnd (R.left source.new)) }
        ensures failures { RaisesFailures (R.failed source.old) (R.failed source.new) result }
    {
        let end = refill_slice(source, &mut self.bytes, self.start, self.end)?;
        self.start = 0;
        self.end = end;
        Ok(())
    }
}
