//! Whole records, judged as they are read.

ghost use Rattle.std.specs.Prelude.{◌≢◌, ℕ, List, [], Option, Err};
ghost use Rattle.pg_report.specs.Changes.{drawn};
ghost use Rattle.pg_codec.specs.Streams.{FailsWithDevice};
ghost use Rattle.pg_report.specs.Going.{IsJudging};
ghost use Rattle.pg_report.specs.Intake.{TellsDevice, is_device};
ghost use Rattle.pg_report.specs.Judging.{IsReportOf, JudgesRecord};

use crate::error::AuditError;
use crate::intake::{MOST_CHUNKS, audit_error, read_header_up_to};
use crate::report::{Report, verdict_of};
use pg_check::Judged;
use pg_codec::{RecordReader, Source};
use pg_event::Version;
use std::alloc::Global;

/// The report of a run that was judged.
pub fn report_of_judged(judged: &Judged) -> Report
    ensures { IsReportOf judged.now result }
{
    Report {
        verdict: verdict_of(judged.first_bad()),
        events: judged.len(),
        segments: judged.segments(),
    }
}

/// Reads what is left of a record behind its header, and judges it as it is read: no more events
/// are kept than those of a segment.
fn judge_rest<R: Source>(
    alloc: Global,
    reader: &mut RecordReader,
    source: &mut R,
    judged: &mut Judged,
) -> Result<Report, AuditError>
    requires going { (start : Option (List ℕ)) × (f : ℕ) × IsJudging R.Source start f
        (reader.old.unread, source.old) reader.old.stage judged.old [] 0 }
    ensures judges { (start : Option (List ℕ)) (f : ℕ) → IsJudging R.Source start f
        (reader.old.unread, source.old) reader.old.stage judged.old [] 0 →
        JudgesRecord start result }
    ensures alone { result ≢ Err AuditError.Thread }
    ensures device { (start : Option (List ℕ)) (f : ℕ) → IsJudging R.Source start f
        (reader.old.unread, source.old) reader.old.stage judged.old [] 0 →
        FailsWithDevice is_device f (R.failed source.new) result }
{
    let mut room = Vec::new(alloc);
    for _ in 0..MOST_CHUNKS {
        match reader.read_segment_in(room, source) {
            Ok(Some(events)) => {
                judged.judge(&events)?;
                room = events;
            }
            Ok(None) => return Ok(report_of_judged(judged)),
            Err(error) => return Err(audit_error(error)),
        }
    }
    unreachable!()
}

/// Reads the record that a source has left, all of it, and judges it as it is read.
pub fn judge_record<R: Source>(alloc: Global, source: &mut R) -> Result<Report, AuditError>
    ensures judges { JudgesRecord (R.left source.old) result }
    ensures alone { result ≢ Err AuditError.Thread }
    ensures device { TellsDevice (drawn R.Source source.old source.new) result }
{
    let mut reader = RecordReader::new(alloc)?;
    let header = match read_header_up_to(alloc, &mut reader, source, Version::Two) {
        Ok(header) => header,
        Err(error) => return Err(audit_error(error)),
    };
    let mut judged = Judged::new(alloc, header)?;
    judge_rest(alloc, &mut reader, source, &mut judged)
}
