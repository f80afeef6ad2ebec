//! The numbers of refusals.

ghost use Rattle.std.specs.Prelude.{◌≡◌};
ghost use Rattle.pg_span_run.specs.LogNumbers.{log_error_number, merge_error_number};

use crate::log_error::{LogError, LogRefusal, MergeError};
use pg_codec::ReadError;

impl LogError {
    /// The number by which the error is named to users: 1 to 10 as of a record, 12 memory, 16
    /// stamps, 17 the event of another processor.
    pub fn number(&self) -> u8
        ensures { result ≡ log_error_number self.now }
    {
        match *self {
            LogError::Refused(LogRefusal::Field(refusal)) => ReadError::Refused(refusal).number(),
            LogError::Refused(LogRefusal::Stamps { .. }) => 16,
            LogError::Refused(LogRefusal::Processor { .. }) => 17,
            LogError::Memory => 12,
        }
    }
}

impl MergeError {
    /// The number by which the error is named to users: 12 memory, 18 no log, 19 a setting, 20 two
    /// logs of a processor, 21 a processor without a log, 22 too many events.
    pub fn number(&self) -> u8
        ensures { result ≡ merge_error_number self.now }
    {
        match *self {
            MergeError::NoLogs => 18,
            MergeError::Differs { .. } => 19,
            MergeError::Twice { .. } => 20,
            MergeError::Missing { .. } => 21,
            MergeError::TooMany => 22,
            MergeError::Memory => 12,
        }
    }
}
