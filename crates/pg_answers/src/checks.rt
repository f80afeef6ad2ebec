//! A record's report, by one checker or by several.

ghost use Rattle.std.specs.Prelude.{◌≡◌, ◌≢◌, Err};
ghost use Rattle.pg_report.specs.Changes.{drawn};
ghost use Rattle.pg_report.specs.Intake.{TellsDevice};
ghost use Rattle.pg_report.specs.Judging.{JudgesRecord};
ghost use Rattle.pg_answers.specs.Answers.{IsAnswer};
ghost use Rattle.pg_answers.specs.Found.{IsFound};

use crate::answer::Answer;
use crate::question::Question;
use pg_arguments::Checkers;
use pg_codec::Source;
use pg_pool::OpenGate;
use pg_report::{AuditError, Crew, Report, judge_record, judge_record_by};
use std::alloc::AllocGlobal;
use std::sync::Wait;
use std::thread::Threads;

/// Reads the record that `input` has left, and has it judged as it is read by so many checkers: by
/// one on the calling thread.
fn judge_by<T: AllocGlobal + Threads + Wait + Sync, R: Source>(
    rt: &T,
    checkers: Checkers,
    input: &mut R,
) -> Result<Report, AuditError>
    ensures judges { JudgesRecord (R.left input.old) result }
    ensures alone { checkers ≡ 1 → result ≢ Err AuditError.Thread }
    ensures device { TellsDevice (drawn R.Source input.old input.new) result }
{
    let number = checkers.number();
    if number == 1 {
        return judge_record(rt.alloc(), input);
    }
    let crew = Crew {
        rt,
        alloc: rt.alloc(),
        checkers: number as u32,
        gate: &OpenGate,
    };
    judge_record_by(&crew, input)
}

/// The report of the record that `input` has left.
pub(crate) fn check<T: AllocGlobal + Threads + Wait + Sync, R: Source>(
    rt: &T,
    checkers: Checkers,
    input: &mut R,
) -> Result<Answer, AuditError>
    ensures { IsFound (IsAnswer Question.Check) checkers
        (drawn R.Source input.old input.new) result }
{
    match judge_by(rt, checkers, input) {
        Ok(report) => Ok(Answer::Report(report)),
        Err(error) => Err(error),
    }
}
