//! Exit statuses.

ghost use Rattle.std.specs.Prelude.{◌≡◌};
ghost use Rattle.pg_answers.specs.Status.{error_status, verdict_status, status_of};

use pg_report::{AuditError, Verdict};

/// Of a yes, and of what was done.
pub const YES: u8 = 0;

/// Of a no.
pub const NO: u8 = 1;

/// Of a refused input or an I/O error.
pub const REFUSED: u8 = 2;

/// Of running out of memory, or of a thread that could not be created.
pub const MEMORY: u8 = 3;

/// Of invalid arguments.
pub const USAGE: u8 = 64;

/// Of a file that can't be opened.
pub const UNOPENED: u8 = 66;

/// Of an error.
pub fn error_status(error: AuditError) -> u8
    ensures { result ≡ error_status error }
{
    match error {
        AuditError::Refused(_) | AuditError::Device => REFUSED,
        AuditError::Memory | AuditError::Thread => MEMORY,
        AuditError::Checkers => USAGE,
    }
}

/// Of a verdict.
pub fn verdict_status(verdict: Verdict) -> u8
    ensures { result ≡ verdict_status verdict }
{
    match verdict {
        Verdict::Yes => YES,
        Verdict::No { .. } => NO,
    }
}

/// Of a verdict, or of an error where there is none.
pub fn status_of(answer: Result<Verdict, AuditError>) -> u8
    ensures { result ≡ status_of answer }
{
    match answer {
        Ok(verdict) => verdict_status(verdict),
        Err(error) => error_status(error),
    }
}
