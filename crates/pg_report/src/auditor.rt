//! The audit of a record, from bytes to report.

ghost use Rattle.std.specs.Prelude.{◌≡◌, ◌≢◌, ◌↔◌, Err, IfErr};
ghost use Rattle.pg_pool.specs.Rounds.{AreCheckers};
ghost use Rattle.pg_report.specs.Changes.{drawn, filled};
ghost use Rattle.pg_report.specs.Text.{report_of, report_text};
ghost use Rattle.pg_report.specs.Intake.{TellsDevice};
ghost use Rattle.pg_report.specs.Audits.{WritesText, IsAudit};

use crate::crew::Crew;
use crate::error::AuditError;
use crate::judging_by::judge_record_by;
use crate::report::{Report, Verdict, verdict_of};
use crate::whole_record::judge_record;
use pg_check::{History, first_bad};
use pg_codec::{Sink, Source, put_all};
use pg_pool::{Gate, OpenGate};
use std::alloc::Global;
use std::sync::Wait;
use std::thread::Threads;

/// The report of a record.
pub fn report_of(history: &History) -> Report
    ensures { result ≡ report_of history.now }
{
    Report {
        verdict: verdict_of(first_bad(history)),
        events: history.len(),
        segments: history.segments(),
    }
}

/// Writes a text. A beginning of it is written where the writer fails.
pub fn write_text<W: Sink>(writer: &mut W, text: &str) -> Result<(), AuditError>
    ensures text { WritesText (filled W.Sink writer.old writer.new) text.now result }
    ensures only { IfErr result (λ e. e ≡ AuditError.Device) }
    ensures device { TellsDevice (filled W.Sink writer.old writer.new) result }
{
    match put_all(writer, text.as_bytes()) {
        Ok(()) => Ok(()),
        Err(_) => Err(AuditError::Device),
    }
}

/// Writes the text of a report. Nothing is written where memory is refused, and a beginning of the
/// text where the writer fails.
pub fn write_report<W: Sink>(
    alloc: Global,
    writer: &mut W,
    report: Report,
) -> Result<(), AuditError>
    ensures text { WritesText (filled W.Sink writer.old writer.new) (report_text report) result }
    ensures device { TellsDevice (filled W.Sink writer.old writer.new) result }
{
    let text = report.text(alloc)?;
    write_text(writer, text.as_str())
}

/// Reads the record that `reader` has left, all of it, judges it, and then writes its report to
/// `writer`. Nothing is written before the whole record is read and judged. Its events are judged
/// as they are read, and let go.
///
/// It takes no thread and waits for nobody.
pub fn audit_one<R: Source, W: Sink>(
    alloc: Global,
    reader: &mut R,
    writer: &mut W,
) -> Result<Verdict, AuditError>
    ensures audit { IsAudit
        (drawn R.Source reader.old reader.new) (filled W.Sink writer.old writer.new) result }
    ensures alone { (result ≢ Err AuditError.Thread) × (result ≢ Err AuditError.Checkers) }
{
    let report = match judge_record(alloc, reader) {
        Ok(report) => report,
        Err(error) => return Err(error),
    };
    match write_report(alloc, writer, report) {
        Ok(()) => Ok(report.verdict),
        Err(error) => Err(error),
    }
}

/// Reads the record that the reader has left, has it judged by so many checkers, and writes its
/// report, as `audit_one` does. Each checker has a thread of its own in each window of events: they
/// take its segments from one another, and each segment goes through the gate with the number of
/// the checker that judges it. Each segment is judged, also after a bad one.
///
/// Where the number of checkers is none of 1 to 64 nothing is read. Where a thread is refused the
/// audit stops by that. The calling thread reads the next window meanwhile. The threads of a window
/// have ended before the next is judged, and before an error is told, also one of the reader.
pub fn audit_watched<T: Threads + Wait + Sync, R: Source, W: Sink, G: Gate>(
    rt: &T,
    alloc: Global,
    reader: &mut R,
    writer: &mut W,
    checkers: u32,
    gate: &G,
) -> Result<Verdict, AuditError>
    ensures audit { IsAudit
        (drawn R.Source reader.old reader.new) (filled W.Sink writer.old writer.new) result }
    ensures checkers { (result ≡ Err AuditError.Checkers) ↔ (¬ AreCheckers checkers) }
    ensures unread { ¬ AreCheckers checkers →
        (reader.new ≡ reader.old) × (writer.new ≡ writer.old) }
{
    if checkers == 0 || checkers > 64 {
        return Err(AuditError::Checkers);
    }
    let crew = Crew {
        rt,
        alloc,
        checkers,
        gate,
    };
    let judged = match judge_record_by(&crew, reader) {
        Ok(report) => report,
        Err(error) => return Err(error),
    };
    match write_report(alloc, writer, judged) {
        Ok(()) => Ok(judged.verdict),
        Err(error) => Err(error),
    }
}

/// Reads the record that the reader has left, has it judged by so many checkers, and writes its
/// report: `audit_watched` with a gate that does nothing.
pub fn audit<T: Threads + Wait + Sync, R: Source, W: Sink>(
    rt: &T,
    alloc: Global,
    reader: &mut R,
    writer: &mut W,
    checkers: u32,
) -> Result<Verdict, AuditError>
    ensures audit { IsAudit
        (drawn R.Source reader.old reader.new) (filled W.Sink writer.old writer.new) result }
    ensures checkers { (result ≡ Err AuditError.Checkers) ↔ (¬ AreCheckers checkers) }
    ensures unread { ¬ AreCheckers checkers →
        (reader.new ≡ reader.old) × (writer.new ≡ writer.old) }
{
    audit_watched(rt, alloc, reader, writer, checkers, &OpenGate)
}
