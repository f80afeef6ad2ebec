//! Why a record with spans has no answer, as an object on standard error.

ghost use Rattle.std.specs.Prelude.{◌≡◌};
ghost use Rattle.pg_report.specs.Changes.{filled};
ghost use Rattle.pg_answers.specs.Refusals.{Tells};
ghost use Rattle.pg_show_json.specs.Tree.{json_line};
ghost use Rattle.pg_show_json_answers.specs.SpannedRefusals.{spanned_json, TellsUnread};
ghost use Rattle.pg_show_json_answers.specs.SpannedRefusals.{WantsMemory, Refuses};
ghost use Rattle.pg_show_json_answers.specs.Refusals.{spans_json};

use crate::refusals::{tell_json, tell_malformed_json, tell_spans_json};
use pg_answers::{MEMORY, REFUSED};
use pg_codec::Sink;
use pg_report::AuditError;
use pg_span_answers::Unread;
use pg_span_run::SpannedRefusal;

fn tell_refusal<W: Sink>(errors: &mut W, refusal: SpannedRefusal)
    ensures { Tells (filled W.Sink errors.old errors.new) (json_line (spanned_json refusal)) }
{
    match refusal {
        SpannedRefusal::Plain(refusal) => tell_json(errors, AuditError::Refused(refusal)),
        SpannedRefusal::Back { event } => tell_malformed_json(errors, event, 7),
    }
}

/// Tells that memory ran out, and gives the status.
pub(crate) fn tell_memory<O: Sink, E: Sink>(output: &mut O, errors: &mut E) -> u8
    ensures { WantsMemory
        (filled O.Sink output.old output.new) (filled E.Sink errors.old errors.new) result }
{
    tell_json(errors, AuditError::Memory);
    MEMORY
}

/// Tells why there is no run, and gives the status.
pub(crate) fn tell_unread<O: Sink, E: Sink>(output: &mut O, errors: &mut E, why: Unread) -> u8
    ensures { TellsUnread why
        (filled O.Sink output.old output.new) (filled E.Sink errors.old errors.new) result }
{
    match why {
        Unread::Refused(refusal) => {
            tell_refusal(errors, refusal);
            REFUSED
        }
        Unread::Device => {
            tell_json(errors, AuditError::Device);
            REFUSED
        }
        Unread::Memory => tell_memory(output, errors),
    }
}

/// Tells that the events have to stand in one order, and gives the status.
pub(crate) fn tell_spans<O: Sink, E: Sink>(output: &mut O, errors: &mut E) -> u8
    ensures { Refuses spans_json
        (filled O.Sink output.old output.new) (filled E.Sink errors.old errors.new) result }
{
    tell_spans_json(errors);
    REFUSED
}
