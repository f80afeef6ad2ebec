//! Refusal lines on standard error. Whether they could be written changes no status.

ghost use Rattle.std.specs.Prelude.{◌++◌, codes, decimal};
ghost use Rattle.pg_codec.specs.Writing.{Puts};
ghost use Rattle.pg_report.specs.Changes.{filled};
ghost use Rattle.pg_answers.specs.Refusals.{refusal_text, place_text, fixed_line, refusal_line};
ghost use Rattle.pg_answers.specs.Refusals.{memory_line, Tells, TellsError, spans_line};

use crate::reasons::put_words;
use itoa::Buffer;
use pg_codec::{Failed, Sink, put_all};
use pg_event::Refusal;
use pg_report::{AuditError, rule_number};

/// Writes a number after what stands before it.
pub fn put_number<W: Sink>(errors: &mut W, before: &[u8], number: u64) -> Result<(), Failed>
    ensures { Puts W.Sink (before.now ++ decimal number) errors.old errors.new result }
{
    let mut buffer = Buffer::new();
    put_all(errors, before)?;
    put_all(errors, buffer.format(number).as_bytes())
}

/// A refusal's name, which ends its line.
pub fn put_name<W: Sink>(errors: &mut W, name: &str) -> Result<(), Failed>
    ensures { Puts W.Sink (codes " " ++ (name.now ++ codes "\n")) errors.old errors.new result }
{
    put_all(errors, b" ")?;
    put_all(errors, name.as_bytes())?;
    put_all(errors, b"\n")
}

/// The number and the name of a refusal.
pub fn put_refusal<W: Sink>(errors: &mut W, number: u8, name: &str) -> Result<(), Failed>
    ensures { Puts W.Sink (refusal_text number name.now) errors.old errors.new result }
{
    put_number(errors, b"pcid-audit: refused ", number as u64)?;
    put_all(errors, b" ")?;
    put_all(errors, name.as_bytes())
}

/// Where a malformed event is, and which rule it breaks.
pub fn put_place<W: Sink>(errors: &mut W, error: AuditError) -> Result<(), Failed>
    ensures { Puts W.Sink (place_text error) errors.old errors.new result }
{
    match error {
        AuditError::Refused(Refusal::Malformed { event, rule }) => {
            put_number(errors, b" event ", event)?;
            put_number(errors, b" rule ", rule_number(rule) as u64)
        }
        AuditError::Refused(
            Refusal::Magic
            | Refusal::Version
            | Refusal::HeaderField
            | Refusal::SegmentNumber
            | Refusal::SegmentCount
            | Refusal::Tag
            | Refusal::Truncated
            | Refusal::Total
            | Refusal::Trailing,
        )
        | AuditError::Device
        | AuditError::Memory
        | AuditError::Thread
        | AuditError::Checkers => Ok(()),
    }
}

/// The line that says why there is no answer, by a number and its name.
fn put_fixed<W: Sink>(errors: &mut W, error: AuditError) -> Result<(), Failed>
    ensures { Puts W.Sink (fixed_line error) errors.old errors.new result }
{
    put_refusal(errors, error.number(), error.name())?;
    put_place(errors, error)?;
    put_all(errors, b"\n")
}

/// The two lines that say why there is no answer: the second one says it in words.
pub fn put_error<W: Sink>(errors: &mut W, error: AuditError) -> Result<(), Failed>
    ensures { Puts W.Sink (refusal_line error) errors.old errors.new result }
{
    put_fixed(errors, error)?;
    put_words(errors, error)
}

/// The line of a refusal with nothing after its name.
pub fn put_line<W: Sink>(errors: &mut W, number: u8, name: &str) -> Result<(), Failed>
    ensures { Puts W.Sink (refusal_text number name.now ++ codes "\n")
        errors.old errors.new result }
{
    put_refusal(errors, number, name)?;
    put_all(errors, b"\n")
}

/// Writes the lines that say why there is no answer.
pub fn tell<W: Sink>(errors: &mut W, error: AuditError)
    ensures { Tells (filled W.Sink errors.old errors.new) (refusal_line error) }
{
    let _ = put_error(errors, error);
}

/// Writes a text that says what is wrong.
pub fn tell_text<W: Sink>(errors: &mut W, text: &str)
    ensures { Tells (filled W.Sink errors.old errors.new) text.now }
{
    let _ = put_all(errors, text.as_bytes());
}

/// Says that a record has spans where its events have to stand in one order, and which command
/// judges it.
pub fn tell_spans<W: Sink>(errors: &mut W)
    ensures { Tells (filled W.Sink errors.old errors.new) spans_line }
{
    tell_text(
        errors,
        "pcid-audit: refused 2 version\npcid-audit: certify judges records with spans\n",
    )
}

/// Writes those lines where there is an error, and else nothing.
pub fn tell_error<W: Sink, T>(errors: &mut W, answer: &Result<T, AuditError>)
    ensures { TellsError (filled W.Sink errors.old errors.new) answer.now }
{
    if let Err(error) = answer {
        tell(errors, *error);
    }
}

/// Writes the line for running out of memory before any input was read.
pub fn tell_memory<W: Sink>(errors: &mut W)
    ensures { Tells (filled W.Sink errors.old errors.new) memory_line }
{
    let _ = put_line(errors, 1, "memory");
}
