//! What standard error gets where a guest script gives no answer.

ghost use Rattle.std.specs.Prelude.{◌++◌, codes, decimal};
ghost use Rattle.pg_codec.specs.Writing.{Puts};
ghost use Rattle.pg_report.specs.Changes.{filled};
ghost use Rattle.pg_tool.specs.Guests.{script_line, guest_line};
ghost use Rattle.pg_answers.specs.Refusals.{Tells};

use crate::guest_error::GuestError;
use pg_answers::{put_error, put_line, put_name, put_number};
use pg_codec::{Failed, Sink, put_all};
use pg_report::AuditError;

/// The refusal of an input that is too long, which is of no line.
const TOO_LONG: u8 = 11;

fn put_script_line<W: Sink>(errors: &mut W, line: u32, number: u8, name: &str) -> Result<(), Failed>
    ensures { Puts W.Sink (script_line line number name.now) errors.old errors.new result }
{
    put_number(errors, b"pcid-audit: script line ", line as u64)?;
    put_number(errors, b" refused ", number as u64)?;
    put_name(errors, name)
}

fn put_guest_error<W: Sink>(errors: &mut W, error: GuestError) -> Result<(), Failed>
    ensures { Puts W.Sink (guest_line error) errors.old errors.new result }
{
    match error {
        GuestError::TooLong => put_script_line(errors, 0, TOO_LONG, "too long"),
        GuestError::Script(error) => {
            put_script_line(
                errors,
                error.line,
                error.refusal.number(),
                error.refusal.name(),
            )
        }
        GuestError::Run(error) => put_line(errors, error.number(), error.name()),
        GuestError::Device => put_error(errors, AuditError::Device),
    }
}

/// Writes the line that says why a guest script gives no answer.
pub(crate) fn tell_guest<W: Sink>(errors: &mut W, error: GuestError)
    ensures { Tells (filled W.Sink errors.old errors.new) (guest_line error) }
{
    let _ = put_guest_error(errors, error);
}
