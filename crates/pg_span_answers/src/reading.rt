//! A whole record with spans, from a source.

ghost use Rattle.std.specs.Prelude.{◌≡◌, ℕ, Some};
ghost use Rattle.pg_codec.specs.Streams.{FailsWithDevice};
ghost use Rattle.pg_span_run.specs.Spelling.{SpellsSpanned};
ghost use Rattle.pg_span_answers.specs.Readings.{is_device, ReadsRun};

use pg_codec::{IntakeError, Source, pull_all};
use pg_span_run::{SpannedError, SpannedRefusal, SpannedRun, read_spanned, spelled_where_read};
use std::alloc::Global;
use std::cell::Cell;

/// Why a run was not read.
#[derive(Clone, Copy, Debug, PartialEq, Eq)]
pub enum Unread {
    /// The bytes spell no record of version 3 or 4: the first refusal.
    Refused(SpannedRefusal),
    /// A read failed.
    Device,
    /// Memory ran out.
    Memory,
}

/// More bytes than memory can hold.
pub(crate) const MOST: usize = usize::MAX - 1;

fn read_bytes(alloc: Global, bytes: &[u8], unread: &Cell<usize>) -> Result<SpannedRun, Unread>
    ensures reads { ReadsRun (Some bytes.now) result }
    ensures device { (n : ℕ) → FailsWithDevice is_device n n result }
{
    spelled_where_read();
    match read_spanned(alloc, bytes, unread) {
        Ok(run) => Ok(run),
        Err(SpannedError::Refused(refusal)) => Err(Unread::Refused(refusal)),
        Err(SpannedError::Memory) => Err(Unread::Memory),
    }
}

/// Tells a source how many of the pulled bytes were not read, where they are refused.
pub(crate) fn tell_unread<R: Source>(input: &mut R, is_refused: bool, unread: usize)
    ensures left { R.left input.new ≡ R.left input.old }
    ensures failed { R.failed input.new ≡ R.failed input.old }
{
    if is_refused {
        input.stop(unread);
    }
}

/// Takes in all bytes that a source has left, and reads the run that they spell. The run is held in
/// memory whole. The source hears how many of the bytes were not read, if they are refused.
pub fn read_run<R: Source>(alloc: Global, input: &mut R) -> Result<SpannedRun, Unread>
    ensures reads { ReadsRun (R.left input.old) result }
    ensures failures { FailsWithDevice is_device (R.failed input.old) (R.failed input.new) result }
{
    match pull_all(alloc, input, MOST) {
        Ok(bytes) => {
            let unread = Cell::new(0);
            let run = read_bytes(alloc, &bytes, &unread);
            tell_unread(input, run.is_err(), unread.get());
            run
        }
        Err(IntakeError::Device) => Err(Unread::Device),
        Err(IntakeError::TooMany | IntakeError::Memory) => Err(Unread::Memory),
    }
}
