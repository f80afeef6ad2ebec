//! Why a record with spans could not be read.

ghost use Rattle.std.specs.Prelude.{◌≡◌};
ghost use Rattle.pg_span_run.specs.declared.error.SpannedError.TheVariants.{Refused, Memory};
ghost use Rattle.pg_span_run.specs.declared.refusal.SpannedRefusal.TheVariants.{Plain};

use crate::refusal::SpannedRefusal;
use pg_event::Refusal;
use std::alloc::{AllocError, AllocFailed};
use thiserror::Error;

/// Why bytes were not read as a run.
#[derive(Clone, Copy, PartialEq, Eq, Debug, Drop, Error)]
pub enum SpannedError {
    /// The bytes spell no record of version 3 or 4: the first fault from left to right.
    #[error("the bytes spell no record with spans: {0:?}")]
    Refused(SpannedRefusal),
    /// An allocation failed.
    #[error("memory ran out")]
    Memory,
}

impl From<Refusal> for SpannedError {
    ghost from_gives = { λ refusal e. e ≡ Refused (Plain refusal) };

    fn from(refusal: Refusal) -> SpannedError {
        SpannedError::Refused(SpannedRefusal::Plain(refusal))
    }
}

impl From<AllocError> for SpannedError {
    ghost from_gives = { λ _ e. e ≡ Memory };

    fn from(_e: AllocError) -> SpannedError {
        SpannedError::Memory
    }
}

impl<T: Drop> From<AllocFailed<T>> for SpannedError {
    ghost from_gives = { λ _ e. e ≡ Memory };

    fn from(_e: AllocFailed<T>) -> SpannedError {
        SpannedError::Memory
    }
}
