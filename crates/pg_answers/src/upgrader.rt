//! The version 2 record of a version 1 record's events.

ghost use Rattle.std.specs.Prelude.{◌≡◌, IfOk};
ghost use Rattle.pg_report.specs.Changes.{drawn, filled};
ghost use Rattle.pg_report.specs.Intake.{TellsDevice};
ghost use Rattle.pg_report.specs.Audits.{WritesText};
ghost use Rattle.pg_event.specs.Spelling.{record_bytes};
ghost use Rattle.pg_report.specs.Text.{report_of};
ghost use Rattle.pg_answers.specs.Streams.{streams};
ghost use Rattle.pg_answers.specs.Upgrades.{upgraded, IsUpgrade, IsReportText, report_in};
ghost use Rattle.pg_answers.specs.Upgrades.{TellsReport, Upgrades};

use crate::refusals::tell;
use crate::shown::ReportText;
use crate::statuses::{REFUSED, error_status, verdict_status};
use pg_check::History;
use pg_codec::{Sink, Source, put_all, write_record};
use pg_event::{Header, Version};
use pg_report::{AuditError, read_old_record, report_of};
use std::alloc::{AllocError, Global};

/// The history of the same events in a record of version 2.
fn upgraded(alloc: Global, history: &History) -> Result<History, AllocError>
    ensures { IfOk result (λ new. new ≡ upgraded history.now) }
{
    let header = history.header();
    let mut new = History::new(
        alloc,
        Header {
            version: Version::Two,
            cfg: header.cfg,
            segment: header.segment,
            processors: header.processors.clone()?,
        },
    )?;
    new.extend(history.events())?;
    Ok(new)
}

/// Writes a whole record. A beginning of it is written where the writer fails.
fn write_history<O: Sink>(output: &mut O, history: &History) -> Result<(), AuditError>
    ensures text { WritesText (filled O.Sink output.old output.new)
        (record_bytes history.now) result }
    ensures device { TellsDevice (filled O.Sink output.old output.new) result }
{
    match write_record(output, history.header(), history.events()) {
        Ok(()) => Ok(()),
        Err(_) => Err(AuditError::Device),
    }
}

/// The report of a history with its text.
fn report_text_of(alloc: Global, history: &History) -> Result<ReportText, AllocError>
    ensures report { IfOk result (λ told. told.report ≡ report_of history.now) }
    ensures text { IfOk result IsReportText }
{
    let report = report_of(history);
    let text = report.text(alloc)?;
    Ok(ReportText { report, text })
}

/// Writes a whole record, and gives its report, which is ready before anything is written.
fn write_told<O: Sink>(
    alloc: Global,
    history: &History,
    output: &mut O,
) -> Result<ReportText, AuditError>
    ensures written { WritesText (filled O.Sink output.old output.new)
        (record_bytes history.now) result }
    ensures device { TellsDevice (filled O.Sink output.old output.new) result }
    ensures report { IfOk result (λ told. told.report ≡ report_of history.now) }
    ensures text { IfOk result IsReportText }
{
    let told = report_text_of(alloc, history)?;
    match write_history(output, history) {
        Ok(()) => Ok(told),
        Err(error) => Err(error),
    }
}

/// Writes the version 2 record of a history's events, and gives its report, which is ready before
/// anything is written.
fn write_upgraded<O: Sink>(
    alloc: Global,
    history: &History,
    output: &mut O,
) -> Result<ReportText, AuditError>
    ensures written { WritesText (filled O.Sink output.old output.new)
        (record_bytes (upgraded history.now)) result }
    ensures device { TellsDevice (filled O.Sink output.old output.new) result }
    ensures report { IfOk result (λ told. told.report ≡ report_of (upgraded history.now)) }
    ensures text { IfOk result IsReportText }
{
    let new = upgraded(alloc, history)?;
    write_told(alloc, &new, output)
}

/// Reads the version 1 record that `input` has left, and writes the version 2 record of the same
/// events. The report of that record is ready before anything is written.
fn write_upgrade<R: Source, O: Sink>(
    alloc: Global,
    input: &mut R,
    output: &mut O,
) -> Result<ReportText, AuditError>
    ensures upgrade { IsUpgrade (drawn R.Source input.old input.new)
        (filled O.Sink output.old output.new) (report_in result) }
    ensures text { IfOk result IsReportText }
{
    match read_old_record(alloc, input) {
        Ok(history) => write_upgraded(alloc, &history, output),
        Err(error) => Err(error),
    }
}

/// Tells the report of an upgraded record, or why there is none, and gives the exit status.
fn tell_upgrade<E: Sink>(errors: &mut E, answer: &Result<ReportText, AuditError>) -> u8
    requires { IfOk answer.now IsReportText }
    ensures { TellsReport (filled E.Sink errors.old errors.new) (report_in answer.now) result }
{
    match answer {
        Ok(told) => match put_all(errors, told.text.as_bytes()) {
            Ok(()) => verdict_status(told.report.verdict),
            Err(_) => REFUSED,
        },
        Err(error) => {
            tell(errors, *error);
            error_status(*error)
        }
    }
}

/// Writes the version 2 record of the same events as the version 1 record on `input`, and its
/// report to `errors`. It gives the exit status, which is that report's: 0 yes, 1 no; or 2 refused,
/// 3 memory.
pub fn upgrade<R: Source, O: Sink, E: Sink>(
    alloc: Global,
    input: &mut R,
    output: &mut O,
    errors: &mut E,
) -> u8
    ensures { Upgrades (streams R.Source O.Sink E.Sink
        (input.old, output.old, errors.old) (input.new, output.new, errors.new)) result }
{
    let answer = write_upgrade(alloc, input, output);
    tell_upgrade(errors, &answer)
}
