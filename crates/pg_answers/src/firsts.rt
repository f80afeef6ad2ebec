//! Whether some run of the machine has a record's events, answered at the first that is denied.

ghost use Rattle.std.specs.Prelude.{◌≡◌, [], ℕ, List, Option, Err, OnOk, IfOk, IfErr, IfSome};
ghost use Rattle.std.specs.Prelude.{is_some};
ghost use Rattle.pg_event.specs.Spelling.{Recorded};
ghost use Rattle.pg_codec.specs.declared.stage.Stage.TheVariants.{Start};
ghost use Rattle.pg_codec.specs.Streams.{FailsWithDevice};
ghost use Rattle.pg_certify.specs.Accounts.{IsAccount};
ghost use Rattle.pg_report.specs.Changes.{drawn, filled};
ghost use Rattle.pg_report.specs.Intake.{ReadsRecord, TellsDevice, is_device};
ghost use Rattle.pg_answers.specs.Streams.{streams};
ghost use Rattle.pg_answers.specs.Accounts.{IsAccounting};
ghost use Rattle.pg_answers.specs.Firsts.{IsAccountUpTo, ReadsUpTo, GivesFirstOf, IsFirstGiven};
ghost use Rattle.pg_answers.specs.AnswerTexts.{answer_text};
ghost use Rattle.pg_answers.specs.Answers.{denied_in};
ghost use Rattle.pg_answers.specs.Certificates.{IsCertificateText};
ghost use Rattle.pg_answers.specs.Firsts.{CertifiesFirst};
ghost use Rattle.pg_report.specs.Audits.{WritesText};

use crate::answer::{Answer, answer_status};
use crate::certificates::certificate_by;
use crate::refusals::tell_error;
use crate::text::answer_text;
use pg_certify::StreamingCertifier;
use pg_codec::{RecordReader, Sink, Source};
use pg_event::Version;
use pg_report::{AuditError, MOST_CHUNKS, audit_error, write_text};
use std::alloc::Global;

/// Whether an event that was read is denied.
fn has_denied(account: &StreamingCertifier) -> bool
    ensures { result ≡ is_some account.now.findings.denied }
{
    account.certifying().settle().is_some()
}

/// Reads what is left of a record behind its header up to the segment that has a denied event, or
/// all of it, and certifies it as it is read.
fn account_up_to<R: Source>(
    alloc: Global,
    reader: &mut RecordReader,
    source: &mut R,
    account: &mut StreamingCertifier,
) -> Result<(), AuditError>
    requires going { (start : Option (List ℕ)) × (f : ℕ) × IsAccounting R.Source start f
        (reader.old.unread, source.old) reader.old.stage account.old 0 }
    ensures front { (start : Option (List ℕ)) (f : ℕ) → IsAccounting R.Source start f
        (reader.old.unread, source.old) reader.old.stage account.old 0 →
        OnOk result (IsAccountUpTo start account.new) }
    ensures refused { (start : Option (List ℕ)) (f : ℕ) → IsAccounting R.Source start f
        (reader.old.unread, source.old) reader.old.stage account.old 0 →
        IfErr result (λ e. IfSome start (λ bytes. ReadsRecord Version.Two bytes (Err e))) }
    ensures device { (start : Option (List ℕ)) (f : ℕ) → IsAccounting R.Source start f
        (reader.old.unread, source.old) reader.old.stage account.old 0 →
        FailsWithDevice is_device f (R.failed source.new) result }
{
    let mut room = Vec::new(alloc);
    for _ in 0..MOST_CHUNKS {
        match reader.read_segment_in(room, source) {
            Ok(Some(events)) => {
                account.window(&events)?;
                if has_denied(account) {
                    return Ok(());
                }
                room = events;
            }
            Ok(None) => return Ok(()),
            Err(error) => return Err(audit_error(error)),
        }
    }
    unreachable!()
}

/// Reads the record that a source has left, up to that segment, by a new reader.
fn account_first_by<R: Source>(
    alloc: Global,
    reader: &mut RecordReader,
    source: &mut R,
) -> Result<StreamingCertifier, AuditError>
    requires { reader.old ≡ record { unread = []; stage = Start } }
    ensures reads { ReadsUpTo (R.left source.old) result }
    ensures device { TellsDevice (drawn R.Source source.old source.new) result }
{
    let header = match reader.read_header(alloc, source) {
        Ok(header) => header,
        Err(error) => return Err(audit_error(error)),
    };
    let mut account = StreamingCertifier::new(alloc, header)?;
    match account_up_to(alloc, reader, source, &mut account) {
        Ok(()) => Ok(account),
        Err(error) => Err(error),
    }
}

/// Reads the record that a source has left, up to that segment.
fn read_up_to<R: Source>(alloc: Global, source: &mut R) -> Result<StreamingCertifier, AuditError>
    ensures reads { ReadsUpTo (R.left source.old) result }
    ensures device { TellsDevice (drawn R.Source source.old source.new) result }
{
    let mut reader = RecordReader::new(alloc)?;
    account_first_by(alloc, &mut reader, source)
}

/// Writes an answer as text, and gives it.
pub(crate) fn write_answer<O: Sink>(
    alloc: Global,
    answer: Answer,
    output: &mut O,
) -> Result<Answer, AuditError>
    ensures text { WritesText (filled O.Sink output.old output.new) (answer_text answer) result }
    ensures device { TellsDevice (filled O.Sink output.old output.new) result }
    ensures same { IfOk result (λ x. x ≡ answer) }
{
    let text = answer_text(alloc, &answer)?;
    match write_text(output, text.as_str()) {
        Ok(()) => Ok(answer),
        Err(error) => Err(error),
    }
}

/// Writes whether what was read can be certified, by what is known of it.
fn write_up_to<O: Sink>(
    alloc: Global,
    account: &StreamingCertifier,
    output: &mut O,
) -> Result<Answer, AuditError>
    requires { (r : Recorded) × IsAccount account.now r.head r.events }
    ensures { (r : Recorded) → IsAccount account.now r.head r.events →
        GivesFirstOf IsCertificateText denied_in account.now.findings.denied r
        (filled O.Sink output.old output.new) result }
{
    let answer = certificate_by(alloc, account)?;
    write_answer(alloc, answer, output)
}

/// Certifies a record as it is read, up to that segment. Nothing is written before the answer is
/// known.
fn write_first<R: Source, O: Sink>(
    alloc: Global,
    input: &mut R,
    output: &mut O,
) -> Result<Answer, AuditError>
    ensures { IsFirstGiven IsCertificateText denied_in
        (drawn R.Source input.old input.new) (filled O.Sink output.old output.new) result }
{
    match read_up_to(alloc, input) {
        Ok(account) => write_up_to(alloc, &account, output),
        Err(error) => Err(error),
    }
}

/// Writes what `certify` writes, and reads no further than the segment with the first event that no
/// moments witness: its report counts the events that were read. So a recorder that still writes is
/// answered at once. It gives the exit status: 0 yes, of the whole record, 1 no, 2 refused, 3
/// memory.
pub fn certify_first<R: Source, O: Sink, E: Sink>(
    alloc: Global,
    input: &mut R,
    output: &mut O,
    errors: &mut E,
) -> u8
    ensures { CertifiesFirst (streams R.Source O.Sink E.Sink
        (input.old, output.old, errors.old) (input.new, output.new, errors.new)) result }
{
    let answer = write_first(alloc, input, output);
    tell_error(errors, &answer);
    answer_status(&answer)
}
