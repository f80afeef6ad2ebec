//! Why bytes are no log, and why logs make no run.

ghost use Rattle.std.specs.Prelude.{◌≡◌};
ghost use Rattle.pg_span_run.specs.declared.log_error.LogError.TheVariants.{Memory};
ghost use Rattle.pg_span_run.specs.declared.log_error.MergeError.TheVariants as merging;

use pg_event::Refusal;
use std::alloc::{AllocError, AllocFailed};
use thiserror::Error;

/// Why bytes are no log: the first field, from left to right, that is cut or fails its check.
#[derive(Clone, Copy, PartialEq, Eq, Debug)]
pub enum LogRefusal {
    /// A field that a record has too. The magic is `PGCPULOG`, the number of a malformed event is
    /// that in the log, and the total that of the end mark.
    Field(Refusal),
    /// The event with this number in the log: its begin stamp is not above the end stamp before it,
    /// or is 0; or its end stamp is not above its begin stamp, or is 2 to the power of 64 less 1.
    Stamps { event: u64 },
    /// The event with this number in the log is of another processor.
    Processor { event: u64 },
}

/// Why no log was read.
#[derive(Clone, Copy, PartialEq, Eq, Debug, Drop, Error)]
pub enum LogError {
    /// The bytes are no log.
    #[error("the bytes are no log: {0:?}")]
    Refused(LogRefusal),
    /// An allocation failed.
    #[error("memory ran out")]
    Memory,
}

impl From<AllocError> for LogError {
    ghost from_gives = { λ _ e. e ≡ Memory };

    fn from(_e: AllocError) -> LogError {
        LogError::Memory
    }
}

impl<T: Drop> From<AllocFailed<T>> for LogError {
    ghost from_gives = { λ _ e. e ≡ Memory };

    fn from(_e: AllocFailed<T>) -> LogError {
        LogError::Memory
    }
}

/// A setting that all logs of a run share.
#[derive(Clone, Copy, PartialEq, Eq, Debug)]
pub enum Setting {
    Version,
    Maxphyaddr,
    Flags,
    /// How many processors there are.
    Processors,
}

/// Why logs make no run. Logs are named by their places in the list, from 0.
#[derive(Clone, Copy, PartialEq, Eq, Debug, Drop, Error)]
pub enum MergeError {
    /// There is no log.
    #[error("there is no log")]
    NoLogs,
    /// This log and the first one differ in this setting.
    #[error("log {log} differs from the first in {setting:?}")]
    Differs { log: usize, setting: Setting },
    /// Both logs are of one processor.
    #[error("logs {first} and {second} are of one processor")]
    Twice { first: usize, second: usize },
    /// No log is of this processor.
    #[error("processor {processor} has no log")]
    Missing { processor: u16 },
    /// The logs have more than 4,294,967,295 events.
    #[error("there are too many events")]
    TooMany,
    /// An allocation failed.
    #[error("memory ran out")]
    Memory,
}

impl From<AllocError> for MergeError {
    ghost from_gives = { λ _ e. e ≡ merging.Memory };

    fn from(_e: AllocError) -> MergeError {
        MergeError::Memory
    }
}

impl<T: Drop> From<AllocFailed<T>> for MergeError {
    ghost from_gives = { λ _ e. e ≡ merging.Memory };

    fn from(_e: AllocFailed<T>) -> MergeError {
        MergeError::Memory
    }
}
