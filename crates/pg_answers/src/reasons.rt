//! What is wrong with a record, in words.

ghost use Rattle.std.specs.Prelude.{◌≡◌};
ghost use Rattle.pg_codec.specs.Writing.{Puts};
ghost use Rattle.pg_answers.specs.Reasons.{rule_words, bytes_words, error_words, event_of};
ghost use Rattle.pg_answers.specs.Reasons.{subject_text, words_line};

use crate::refusals::{put_name, put_number};
use pg_codec::{Failed, Sink, put_all};
use pg_event::{Malformed, Refusal};
use pg_report::AuditError;

fn rule_words(rule: Malformed) -> &'static str
    ensures { result.now ≡ rule_words rule }
{
    match rule {
        Malformed::Processor => "its processor is not below the number in the header",
        Malformed::WordAddress => {
            "the address of its word is not a multiple of 8, or not below 2^MAXPHYADDR"
        }
        Malformed::LinearAddress => "its linear address is not canonical",
        Malformed::Operand => "bits 62:MAXPHYADDR of its operand for CR3 are not 0",
        Malformed::Invpcid => {
            "its INVPCID has a type above 3, a PCID above 4095, or a value in an unused field"
        }
        Malformed::Flags => {
            "its flags name no operation, have a reserved bit, or set D for no write"
        }
    }
}

fn bytes_words(refusal: Refusal) -> &'static str
    ensures { result.now ≡ bytes_words refusal }
{
    match refusal {
        Refusal::Magic => "a record begins with the eight bytes PGRECORD",
        Refusal::Version => "this command does not read records of this version",
        Refusal::HeaderField => "a field of the header is out of its bounds",
        Refusal::SegmentNumber => "a segment does not have the next number",
        Refusal::SegmentCount => {
            "a segment's count of events is 0 or too large, or the segment before it is not full"
        }
        Refusal::Tag => "a tag, a PGE byte or a count of moments is none that the format has",
        Refusal::Malformed { rule, .. } => rule_words(rule),
        Refusal::Truncated => "the input ends within a field, or before the end mark",
        Refusal::Total => "the end mark does not have the number of events",
        Refusal::Trailing => "bytes follow the end mark",
    }
}

fn error_words(error: AuditError) -> &'static str
    ensures { result.now ≡ error_words error }
{
    match error {
        AuditError::Refused(refusal) => bytes_words(refusal),
        AuditError::Device => "a read or a write failed",
        AuditError::Memory => "memory ran out",
        AuditError::Thread => "a thread could not be created",
        AuditError::Checkers => "the number of checkers is not 1 to 64",
    }
}

/// The event that breaks a rule.
fn event_of(error: AuditError) -> Option<u64>
    ensures { result ≡ event_of error }
{
    match error {
        AuditError::Refused(Refusal::Malformed { event, .. }) => Some(event),
        AuditError::Refused(
            Refusal::Magic
            | Refusal::Version
            | Refusal::HeaderField
            | Refusal::SegmentNumber
            | Refusal::SegmentCount
            | Refusal::Tag
            | Refusal::Truncated
            | Refusal::Total
            | Refusal::Trailing,
        )
        | AuditError::Device
        | AuditError::Memory
        | AuditError::Thread
        | AuditError::Checkers => None,
    }
}

/// Of which event is told, if it is known.
fn put_subject<W: Sink>(errors: &mut W, event: Option<u64>) -> Result<(), Failed>
    ensures { Puts W.Sink (subject_text event) errors.old errors.new result }
{
    match event {
        None => put_all(errors, b"pcid-audit:"),
        Some(event) => {
            put_number(errors, b"pcid-audit: event ", event)?;
            put_all(errors, b":")
        }
    }
}

/// The line that says in words why there is no answer.
pub(crate) fn put_words<W: Sink>(errors: &mut W, error: AuditError) -> Result<(), Failed>
    ensures { Puts W.Sink (words_line error) errors.old errors.new result }
{
    put_subject(errors, event_of(error))?;
    put_name(errors, error_words(error))
}
