//! The report of a record in memory.

ghost use Rattle.std.specs.Prelude.{◌≡◌, IfOk, IfErr, IfSome};
ghost use Rattle.pg_event.specs.Spelling.{IsRecord};
ghost use Rattle.pg_report.specs.Text.{report_of};
ghost use Rattle.pg_runner.specs.Live.{IsBegun, IsWant};
ghost use Rattle.pg_runner.specs.Runs.{record_of};

use crate::error::RunError;
use crate::live_judging::run_error;
use pg_check::Judged;
use pg_event::{Event, Record};
use pg_pool::Gate;
use pg_report::{Crew, Report, Team, report_of_judged};
use std::alloc::Global;
use std::sync::Wait;
use std::thread::Threads;

/// The report of a record, whose events are judged one after another. Fails where memory is
/// refused.
pub fn report_of_record(alloc: Global, trace: &Record) -> Result<Report, RunError>
    requires { IsRecord (record_of trace.now) }
    ensures ok { IfOk result (λ report. report ≡ report_of (record_of trace.now)) }
    ensures err { IfErr result (λ e. e ≡ RunError.Memory) }
{
    let mut judged = Judged::new(alloc, trace.header.clone()?)?;
    judged.judge(&trace.events)?;
    Ok(report_of_judged(&judged))
}

/// The report of a record whose first events were judged, once the others are.
fn judge_rest<R: Threads + Wait + Sync, H: Gate>(
    crew: &Crew<'_, R, H>,
    team: Team,
    all: &[Event],
) -> Result<Report, RunError>
    requires begun { IsBegun team all.now }
    requires record { IsRecord (record { head = team.judged.head; events = all.now }) }
    ensures ok { IfOk result (λ report.
        report ≡ report_of (record { head = team.judged.head; events = all.now })) }
    ensures err { IfErr result IsWant }
{
    let first = team.judged().len() as usize;
    match crew.judge(team, &all[first..]) {
        Ok(after) => Ok(report_of_judged(after.judged())),
        Err(error) => Err(run_error(error)),
    }
}

fn anew(alloc: Global, trace: &Record) -> Result<Report, RunError>
    requires { IsRecord (record_of trace.now) }
    ensures ok { IfOk result (λ report. report ≡ report_of (record_of trace.now)) }
    ensures err { IfErr result IsWant }
{
    report_of_record(alloc, trace)
}

/// The report of a record whose first events were judged by this team, if there is one and it has
/// the record's settings; else the record is judged anew.
pub(crate) fn report_by<R: Threads + Wait + Sync, H: Gate>(
    crew: &Crew<'_, R, H>,
    team: Option<Team>,
    trace: &Record,
) -> Result<Report, RunError>
    requires begun { IfSome team (λ t. IsBegun t trace.now.events.items) }
    requires record { IsRecord (record_of trace.now) }
    ensures ok { IfOk result (λ report. report ≡ report_of (record_of trace.now)) }
    ensures err { IfErr result IsWant }
{
    let Some(team) = team else {
        return anew(crew.alloc, trace);
    };
    if !team.judged().header().is_same(&trace.header) {
        return anew(crew.alloc, trace);
    }
    judge_rest(crew, team, &trace.events)
}
