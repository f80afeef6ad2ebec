ghost use Rattle.std.specs.Prelude.{◌≡◌};
ghost use Rattle.pg_report.specs.Numbers.{rule_number, error_number, refusal_name, error_name};
ghost use Rattle.pg_report.specs.Merging.{merge_number};
ghost use Rattle.pg_report.specs.declared.error.AuditError.TheVariants.{Memory};

use pg_codec::ReadError;
use pg_event::{Malformed, Refusal};
use std::alloc::AllocError;
use thiserror::Error;

/// Why an audit came to no verdict.
#[derive(Clone, Copy, Debug, PartialEq, Eq, Error)]
pub enum AuditError {
    /// The bytes spell no record: the first refusal.
    #[error("the bytes spell no record")]
    Refused(Refusal),
    /// A read or a write failed.
    #[error("a device failed")]
    Device,
    /// Memory ran out.
    #[error("memory ran out")]
    Memory,
    /// A checker's thread was refused.
    #[error("a thread was refused")]
    Thread,
    /// The number of checkers is outside 1 to 64.
    #[error("the number of checkers is outside 1 to 64")]
    Checkers,
}

impl From<AllocError> for AuditError {
    ghost from_gives = { λ _ e. e ≡ Memory };

    fn from(_error: AllocError) -> AuditError {
        AuditError::Memory
    }
}

/// The number of the rule that a malformed event breaks, 1 to 6.
pub fn rule_number(rule: Malformed) -> u8
    ensures { result ≡ rule_number rule }
{
    match rule {
        Malformed::Processor => 1,
        Malformed::WordAddress => 2,
        Malformed::LinearAddress => 3,
        Malformed::Operand => 4,
        Malformed::Invpcid => 5,
        Malformed::Flags => 6,
    }
}

impl AuditError {
    /// Its number: 1 to 10 a refusal of the bytes, 11 a device, 12 memory, 14 a thread, 15 the
    /// number of checkers. 13 is a reader's that has refused before, which is not asked again.
    pub fn number(&self) -> u8
        ensures { result ≡ error_number self.now }
    {
        match *self {
            AuditError::Refused(refusal) => ReadError::Refused(refusal).number(),
            AuditError::Device => 11,
            AuditError::Memory => 12,
            AuditError::Thread => 14,
            AuditError::Checkers => 15,
        }
    }

    /// Its name, as a refusal line gives it after the number.
    pub fn name(&self) -> &'static str
        ensures { result.now ≡ error_name self.now }
    {
        match *self {
            AuditError::Refused(refusal) => refusal_name(refusal),
            AuditError::Device => "device",
            AuditError::Memory => "memory",
            AuditError::Thread => "thread",
            AuditError::Checkers => "checkers",
        }
    }
}

fn refusal_name(refusal: Refusal) -> &'static str
    ensures { result.now ≡ refusal_name refusal }
{
    match refusal {
        Refusal::Magic => "magic",
        Refusal::Version => "version",
        Refusal::HeaderField => "header field",
        Refusal::SegmentNumber => "segment number",
        Refusal::SegmentCount => "segment count",
        Refusal::Tag => "tag",
        Refusal::Malformed { .. } => "malformed",
        Refusal::Truncated => "truncated",
        Refusal::Total => "total",
        Refusal::Trailing => "bytes after the end",
    }
}

/// Why the verdicts of a round's segments come to no verdict.
#[derive(Clone, Copy, Debug, PartialEq, Eq, Error)]
pub enum MergeError {
    /// A segment of the round has two verdicts: the least such segment.
    #[error("a segment has two verdicts")]
    Double(u64),
    /// A verdict is of no segment of the round: the least such number. No segment has two.
    #[error("a verdict is of no segment of the round")]
    Stranger(u64),
    /// A segment of the round has no verdict: the least such segment. No segment has two, and no
    /// verdict is of another.
    #[error("a segment has no verdict")]
    Missing(u64),
    /// Memory ran out.
    #[error("memory ran out")]
    Memory,
}

impl From<AllocError> for MergeError {
    ghost use Rattle.pg_report.specs.declared.error.MergeError.TheVariants as merges;

    ghost from_gives = { λ _ e. e ≡ merges.Memory };

    fn from(_error: AllocError) -> MergeError {
        MergeError::Memory
    }
}

impl MergeError {
    /// Its number: 1 a double, 2 a stranger, 3 a missing segment, 4 memory.
    pub fn number(&self) -> u8
        ensures { result ≡ merge_number self.now }
    {
        match *self {
            MergeError::Double(_) => 1,
            MergeError::Stranger(_) => 2,
            MergeError::Missing(_) => 3,
            MergeError::Memory => 4,
        }
    }
}
