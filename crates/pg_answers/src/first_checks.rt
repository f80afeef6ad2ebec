//! A record's report, answered at the first event that is rejected.

ghost use Rattle.std.specs.Prelude.{◌≡◌, [], ℕ, List, Option, Err, OnOk, IfErr, IfSome, is_some};
ghost use Rattle.pg_codec.specs.Streams.{FailsWithDevice};
ghost use Rattle.pg_report.specs.Changes.{drawn, filled};
ghost use Rattle.pg_report.specs.Going.{IsJudging};
ghost use Rattle.pg_report.specs.Intake.{ReadsRecord, TellsDevice, is_device};
ghost use Rattle.pg_answers.specs.Streams.{streams};
ghost use Rattle.pg_answers.specs.Audited.{IsCheckText};
ghost use Rattle.pg_answers.specs.Firsts.{ChecksFirst, IsFirstGiven, IsJudgedUpTo, JudgesUpTo};
ghost use Rattle.pg_answers.specs.Firsts.{bad_in};

use crate::answer::{Answer, answer_status};
use crate::firsts::write_answer;
use crate::refusals::tell_error;
use pg_check::Judged;
use pg_codec::{RecordReader, Sink, Source};
use pg_event::Version;
use pg_report::{AuditError, MOST_CHUNKS, Report, audit_error, report_of_judged};
use std::alloc::Global;

/// Whether an event that was judged is bad.
fn has_bad(judged: &Judged) -> bool
    ensures { result ≡ is_some judged.now.first_bad }
{
    judged.first_bad().is_some()
}

/// Reads what is left of a record behind its header up to the segment with the first bad event, or
/// all of it, and judges it as it is read.
fn judge_up_to<R: Source>(
    alloc: Global,
    reader: &mut RecordReader,
    source: &mut R,
    judged: &mut Judged,
) -> Result<(), AuditError>
    requires going { (start : Option (List ℕ)) × (f : ℕ) × IsJudging R.Source start f
        (reader.old.unread, source.old) reader.old.stage judged.old [] 0 }
    ensures front { (start : Option (List ℕ)) (f : ℕ) → IsJudging R.Source start f
        (reader.old.unread, source.old) reader.old.stage judged.old [] 0 →
        OnOk result (IsJudgedUpTo start judged.new) }
    ensures refused { (start : Option (List ℕ)) (f : ℕ) → IsJudging R.Source start f
        (reader.old.unread, source.old) reader.old.stage judged.old [] 0 →
        IfErr result (λ e. IfSome start (λ bytes. ReadsRecord Version.Two bytes (Err e))) }
    ensures device { (start : Option (List ℕ)) (f : ℕ) → IsJudging R.Source start f
        (reader.old.unread, source.old) reader.old.stage judged.old [] 0 →
        FailsWithDevice is_device f (R.failed source.new) result }
{
    let mut room = Vec::new(alloc);
    for _ in 0..MOST_CHUNKS {
        match reader.read_segment_in(room, source) {
            Ok(Some(events)) => {
                judged.judge(&events)?;
                if has_bad(judged) {
                    return Ok(());
                }
                room = events;
            }
            Ok(None) => return Ok(()),
            Err(error) => return Err(audit_error(error)),
        }
    }
    unreachable!()
}

/// Reads the record that a source has left, up to that segment, and gives the report of what was
/// read.
fn judge_first<R: Source>(alloc: Global, source: &mut R) -> Result<Report, AuditError>
    ensures judges { JudgesUpTo (R.left source.old) result }
    ensures device { TellsDevice (drawn R.Source source.old source.new) result }
{
    let mut reader = RecordReader::new(alloc)?;
    let header = match reader.read_header(alloc, source) {
        Ok(header) => header,
        Err(error) => return Err(audit_error(error)),
    };
    let mut judged = Judged::new(alloc, header)?;
    match judge_up_to(alloc, &mut reader, source, &mut judged) {
        Ok(()) => Ok(report_of_judged(&judged)),
        Err(error) => Err(error),
    }
}

/// Judges a record as it is read, up to that segment. Nothing is written before the answer is
/// known.
fn write_first_check<R: Source, O: Sink>(
    alloc: Global,
    input: &mut R,
    output: &mut O,
) -> Result<Answer, AuditError>
    ensures { IsFirstGiven IsCheckText bad_in
        (drawn R.Source input.old input.new) (filled O.Sink output.old output.new) result }
{
    match judge_first(alloc, input) {
        Ok(report) => write_answer(alloc, Answer::Report(report), output),
        Err(error) => Err(error),
    }
}

/// Writes what `check` writes, and reads no further than the segment with the first bad event: its
/// report counts the events that were read. So a recorder that still writes is answered at once. It
/// gives the exit status: 0 yes, of the whole record, 1 no, 2 refused, 3 memory.
pub fn check_first<R: Source, O: Sink, E: Sink>(
    alloc: Global,
    input: &mut R,
    output: &mut O,
    errors: &mut E,
) -> u8
    ensures { ChecksFirst (streams R.Source O.Sink E.Sink
        (input.old, output.old, errors.old) (input.new, output.new, errors.new)) result }
{
    let answer = write_first_check(alloc, input, output);
    tell_error(errors, &answer);
    answer_status(&answer)
}
