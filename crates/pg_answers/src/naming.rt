//! Records with the moments that were found for them.

ghost use Rattle.std.specs.Prelude.{◌≡◌, ◌<◌, ◌^◌, length, IfOk};
ghost use Rattle.pg_check.specs.Kept.{AreWellFormed};
ghost use Rattle.pg_event.specs.Spelling.{record_bytes};
ghost use Rattle.pg_report.specs.Audits.{WritesText};
ghost use Rattle.pg_report.specs.Changes.{drawn, filled};
ghost use Rattle.pg_report.specs.Intake.{TellsDevice};
ghost use Rattle.pg_answers.specs.Naming.{IsNaming, NamesRecord, TellsNaming, with_events};
ghost use Rattle.pg_answers.specs.Streams.{streams};
ghost use Rattle.pg_answers.specs.Texts.{GivesTextOf, IsTextGiven};

use crate::denials::denial_in;
use crate::refusals::tell;
use crate::shown::Naming;
use crate::statuses::{NO, REFUSED, YES, error_status};
use crate::text::rejection_text;
use pg_certify::{Certified, certify, denied_events_have_no_run};
use pg_check::History;
use pg_codec::{Sink, Source, put_all, write_record};
use pg_event::Event;
use pg_report::{AuditError, read_record};
use std::alloc::Global;

/// Writes the record of other events under a history's header. A beginning of it is written where
/// the writer fails.
fn write_events<O: Sink>(
    output: &mut O,
    history: &History,
    events: &[Event],
) -> Result<Naming, AuditError>
    requires count { length events.now < 2 ^ 32 }
    requires well { AreWellFormed history.now.head events.now }
    ensures text { WritesText (filled O.Sink output.old output.new)
        (record_bytes (with_events history.now events.now)) result }
    ensures device { TellsDevice (filled O.Sink output.old output.new) result }
    ensures named { IfOk result (λ naming. naming ≡ Naming.Named) }
{
    match write_record(output, history.header(), events) {
        Ok(()) => Ok(Naming::Named),
        Err(_) => Err(AuditError::Device),
    }
}

/// Writes a record with moments that witness its events. Where there are none nothing is written.
fn write_found<O: Sink>(
    alloc: Global,
    history: &History,
    output: &mut O,
) -> Result<Naming, AuditError>
    ensures { GivesTextOf IsNaming 1 history.now (filled O.Sink output.old output.new) result }
{
    // What a no says of runs, of events that are well formed and not too many.
    denied_events_have_no_run();
    let _events = history.events();
    match certify(alloc, history)? {
        Certified::Yes(found) => write_events(output, history, &found),
        Certified::No(event) => {
            let rejection = denial_in(alloc, history, event)?;
            let text = rejection_text(alloc, &rejection)?;
            Ok(Naming::Denied(text))
        }
    }
}

/// Reads a record, and writes it with moments that witness its events.
fn write_named<R: Source, O: Sink>(
    alloc: Global,
    input: &mut R,
    output: &mut O,
) -> Result<Naming, AuditError>
    ensures { IsTextGiven IsNaming
        (drawn R.Source input.old input.new) (filled O.Sink output.old output.new) result }
{
    match read_record(alloc, input) {
        Ok(history) => write_found(alloc, &history, output),
        Err(error) => Err(error),
    }
}

/// Tells the report of a no, or why there is no answer, and gives the exit status.
fn tell_naming<E: Sink>(errors: &mut E, answer: &Result<Naming, AuditError>) -> u8
    ensures { TellsNaming (filled E.Sink errors.old errors.new) answer.now result }
{
    match answer {
        Ok(Naming::Named) => YES,
        Ok(Naming::Denied(text)) => match put_all(errors, text.as_bytes()) {
            Ok(()) => NO,
            Err(_) => REFUSED,
        },
        Err(error) => {
            tell(errors, *error);
            error_status(*error)
        }
    }
}

/// Writes the record on `input` with moments that witness its events, whatever moments it names,
/// so that it is accepted. Where there are none it writes nothing, and to `errors` the report of
/// the no and its cause, as `certify` does to its output. It gives the exit status: 0 a
/// record, 1 no, 2 refused, 3 memory.
pub fn name_moments<R: Source, O: Sink, E: Sink>(
    alloc: Global,
    input: &mut R,
    output: &mut O,
    errors: &mut E,
) -> u8
    ensures { NamesRecord (streams R.Source O.Sink E.Sink
        (input.old, output.old, errors.old) (input.new, output.new, errors.new)) result }
{
    let answer = write_named(alloc, input, output);
    tell_naming(errors, &answer)
}
