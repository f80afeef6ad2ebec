//! Refusals as JSON, a line on standard error. No memory is taken, so that the want of it can be
//! told.

ghost use Rattle.pg_codec.specs.Writing.{Puts};
ghost use Rattle.pg_report.specs.Changes.{filled};
ghost use Rattle.pg_answers.specs.Refusals.{Tells};
ghost use Rattle.pg_show_json.specs.Tree.{json_line};
ghost use Rattle.pg_show_json_answers.specs.Refusals.{error_json, malformed_json, TellsJson};
ghost use Rattle.pg_show_json_answers.specs.Refusals.{spans_json};

use pg_answers::put_number;
use pg_codec::{Failed, Sink, put_all};
use pg_event::Refusal;
use pg_report::{AuditError, rule_number};

fn put_malformed<W: Sink>(errors: &mut W, event: u64, rule: u8) -> Result<(), Failed>
    ensures { Puts W.Sink (json_line (malformed_json event rule)) errors.old errors.new result }
{
    put_number(errors, b"{\"event\":", event)?;
    put_number(errors, b",\"format\":1,\"number\":7,\"rule\":", rule as u64)?;
    put_all(errors, b",\"text\":\"malformed\"}\n")
}

fn put_refusal_json<W: Sink>(errors: &mut W, refusal: Refusal) -> Result<(), Failed>
    ensures { Puts W.Sink (json_line (error_json (AuditError.Refused refusal)))
        errors.old errors.new result }
{
    match refusal {
        Refusal::Magic => put_all(errors, b"{\"format\":1,\"number\":1,\"text\":\"magic\"}\n"),
        Refusal::Version => put_all(
            errors,
            b"{\"format\":1,\"number\":2,\"text\":\"version\"}\n",
        ),
        Refusal::HeaderField => put_all(
            errors,
            b"{\"format\":1,\"number\":3,\"text\":\"header field\"}\n",
        ),
        Refusal::SegmentNumber => {
            put_all(
                errors,
                b"{\"format\":1,\"number\":4,\"text\":\"segment number\"}\n",
            )
        }
        Refusal::SegmentCount => {
            put_all(
                errors,
                b"{\"format\":1,\"number\":5,\"text\":\"segment count\"}\n",
            )
        }
        Refusal::Tag => put_all(errors, b"{\"format\":1,\"number\":6,\"text\":\"tag\"}\n"),
        Refusal::Malformed { event, rule } => put_malformed(errors, event, rule_number(rule)),
        Refusal::Truncated => put_all(
            errors,
            b"{\"format\":1,\"number\":8,\"text\":\"truncated\"}\n",
        ),
        Refusal::Total => put_all(errors, b"{\"format\":1,\"number\":9,\"text\":\"total\"}\n"),
        Refusal::Trailing => {
            put_all(
                errors,
                b"{\"format\":1,\"number\":10,\"text\":\"bytes after the end\"}\n",
            )
        }
    }
}

fn put_error_json<W: Sink>(errors: &mut W, error: AuditError) -> Result<(), Failed>
    ensures { Puts W.Sink (json_line (error_json error)) errors.old errors.new result }
{
    match error {
        AuditError::Refused(refusal) => put_refusal_json(errors, refusal),
        AuditError::Device => put_all(
            errors,
            b"{\"format\":1,\"number\":11,\"text\":\"device\"}\n",
        ),
        AuditError::Memory => put_all(
            errors,
            b"{\"format\":1,\"number\":12,\"text\":\"memory\"}\n",
        ),
        AuditError::Thread => put_all(
            errors,
            b"{\"format\":1,\"number\":14,\"text\":\"thread\"}\n",
        ),
        AuditError::Checkers => put_all(
            errors,
            b"{\"format\":1,\"number\":15,\"text\":\"checkers\"}\n",
        ),
    }
}

/// Writes the object that says why there is no answer.
pub fn tell_json<W: Sink>(errors: &mut W, error: AuditError)
    ensures { Tells (filled W.Sink errors.old errors.new) (json_line (error_json error)) }
{
    let _ = put_error_json(errors, error);
}

/// Says that a record has spans where its events have to stand in one order.
#[tactic(auto, unfolding(crate::proofs::OnLiterals::objects_on_literals))]
pub(crate) fn tell_spans_json<W: Sink>(errors: &mut W)
    ensures { Tells (filled W.Sink errors.old errors.new) (json_line spans_json) }
{
    let _ = put_all(
        errors,
        b"{\"format\":1,\"number\":2,\"text\":\"version: certify judges records with spans\"}\n",
    );
}

/// Writes the object of a malformed event: its number, and the number of the rule that it breaks.
pub(crate) fn tell_malformed_json<W: Sink>(errors: &mut W, event: u64, rule: u8)
    ensures { Tells (filled W.Sink errors.old errors.new) (json_line (malformed_json event rule)) }
{
    let _ = put_malformed(errors, event, rule);
}

/// Writes that object where there is an error, and else nothing.
pub fn tell_error_json<W: Sink, T>(errors: &mut W, answer: &Result<T, AuditError>)
    ensures { TellsJson (filled W.Sink errors.old errors.new) answer.now }
{
    if let Err(error) = answer {
        tell_json(errors, *error);
    }
}
