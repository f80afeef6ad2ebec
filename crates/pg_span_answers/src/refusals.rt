//! Lines that say why a record with spans has no answer.

ghost use Rattle.std.specs.Prelude.{◌≡◌};
ghost use Rattle.pg_codec.specs.Writing.{Puts};
ghost use Rattle.pg_report.specs.Changes.{filled};
ghost use Rattle.pg_answers.specs.Refusals.{Tells};
ghost use Rattle.pg_span_answers.specs.Refusals.{spans_line};

use pg_answers::{put_error, put_number};
use pg_codec::{Failed, Sink, put_all};
use pg_report::AuditError;
use pg_span_run::SpannedRefusal;

fn put_refusal<W: Sink>(errors: &mut W, refusal: SpannedRefusal) -> Result<(), Failed>
    ensures { Puts W.Sink (spans_line refusal) errors.old errors.new result }
{
    match refusal {
        SpannedRefusal::Plain(refusal) => put_error(errors, AuditError::Refused(refusal)),
        SpannedRefusal::Back { event } => {
            put_number(errors, b"pcid-audit: refused 7 malformed event ", event)?;
            put_all(errors, b" rule 7\n")
        }
    }
}

/// Writes the line of a refusal, as far as the device lets it.
pub(crate) fn tell_refusal<W: Sink>(errors: &mut W, refusal: SpannedRefusal)
    ensures { Tells (filled W.Sink errors.old errors.new) (spans_line refusal) }
{
    let _ = put_refusal(errors, refusal);
}
