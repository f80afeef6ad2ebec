//! Why a record could not be read.

ghost use Rattle.std.specs.Prelude.{◌≡◌};
ghost use Rattle.pg_codec.specs.declared.error.ReadError.TheVariants.{Device, Memory, Refused};

use crate::stream;
use pg_event::Refusal;
use std::alloc::{AllocError, AllocFailed};
use thiserror::Error;

/// Why a reader of records answered no part of one. After any of these it answers `Failed` alone.
#[derive(Clone, Copy, PartialEq, Eq, Debug, Drop, Error)]
pub enum ReadError {
    /// The bytes spell no record: the first fault from left to right.
    #[error("the bytes spell no record: {0:?}")]
    Refused(Refusal),
    /// The source failed in this call.
    #[error("the device failed")]
    Device,
    /// An allocation failed in this call.
    #[error("memory ran out")]
    Memory,
    /// The reader refused before. Nothing was read.
    #[error("the reader refused before")]
    Failed,
}

impl From<Refusal> for ReadError {
    ghost from_gives = { λ refusal e. e ≡ Refused refusal };

    fn from(refusal: Refusal) -> ReadError {
        ReadError::Refused(refusal)
    }
}

impl From<stream::Failed> for ReadError {
    ghost from_gives = { λ _ e. e ≡ Device };

    fn from(_e: stream::Failed) -> ReadError {
        ReadError::Device
    }
}

impl From<AllocError> for ReadError {
    ghost from_gives = { λ _ e. e ≡ Memory };

    fn from(_e: AllocError) -> ReadError {
        ReadError::Memory
    }
}

impl<T: Drop> From<AllocFailed<T>> for ReadError {
    ghost from_gives = { λ _ e. e ≡ Memory };

    fn from(_e: AllocFailed<T>) -> ReadError {
        ReadError::Memory
    }
}
