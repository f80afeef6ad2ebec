//! All the bytes of a source.

ghost use Rattle.std.specs.Prelude.{◌≡◌, ◌+◌, ◌-◌, ◌^◌, ◌<◌, ◌≤◌, length, IfOk};
ghost use Rattle.pg_codec.specs.Intakes.{GivesAll, PullsSome, is_device};
ghost use Rattle.pg_codec.specs.Streams.{FailsWithDevice};

use crate::stream::Source;
use std::alloc::Global;
use thiserror::Error;

/// Why the bytes of a source were not taken in.
#[derive(Clone, Copy, Debug, Error)]
pub enum IntakeError {
    /// There are more than were asked for.
    #[error("there are more bytes than were asked for")]
    TooMany,
    /// The device failed.
    #[error("the device failed")]
    Device,
    /// Memory was refused.
    #[error("memory ran out")]
    Memory,
}

/// So many bytes are pulled at once.
const CHUNK: usize = 4096;

/// Pulls some bytes, at most so many, and adds them.
fn pull_some<R: Source>(
    source: &mut R,
    bytes: &mut Vec<u8>,
    most: usize,
) -> Result<usize, IntakeError>
    requires { 1 ≤ most }
    ensures bound { IfOk result (λ n. n ≤ most) }
    ensures pulled { PullsSome most (R.left source.old) (R.left source.new)
        bytes.old.items bytes.new.items result }
    ensures failures { FailsWithDevice is_device (R.failed source.old) (R.failed source.new)
        result }
{
    let mut chunk = [0; CHUNK];
    let room = most.min(CHUNK);
    let Ok(n) = source.pull(&mut chunk[..room]) else {
        return Err(IntakeError::Device);
    };
    match bytes.extend_from_slice(&chunk[..n]) {
        Ok(()) => Ok(n),
        Err(_) => Err(IntakeError::Memory),
    }
}

/// Takes in the bytes that a source has left, if there are at most so many. Memory is taken as they
/// come. Where there are more, one byte past the most is pulled, and no further one.
pub fn pull_all<R: Source>(
    alloc: Global,
    source: &mut R,
    most: usize,
) -> Result<Vec<u8>, IntakeError>
    requires { most < 2 ^ 64 - 1 }
    ensures bytes { GivesAll most (R.left source.old) (R.left source.new) result }
    ensures failures { FailsWithDevice is_device (R.failed source.old) (R.failed source.new)
        result }
{
    let mut bytes = Vec::new(alloc);
    while bytes.len() <= most {
        let room = most + 1 - bytes.len();
        match pull_some(source, &mut bytes, room) {
            Ok(0) => return Ok(bytes),
            Ok(_) => {}
            Err(error) => return Err(error),
        }
    }
    Err(IntakeError::TooMany)
}
