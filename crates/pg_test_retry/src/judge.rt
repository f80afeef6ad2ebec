//! A record's report, and its run.

ghost use Rattle.pg_event.specs.Spelling.{IsHead, IsRecord};
ghost use Rattle.pg_runner.specs.Runs.{record_of};

use crate::again::{extend, step};
use pg_check::History;
use pg_event::{Header, Record};
use pg_machine::{Machine, Step};
use pg_report::{Report, report_of};
use pg_run_of::{BuildError, run_of};
use std::alloc::{AllocError, Global};

/// What a record comes to.
#[derive(Drop)]
pub(crate) struct Judged {
    pub report: Report,
    /// The steps of its run that a machine took.
    pub steps: u64,
}

/// Has a machine take the steps of a run, and counts them.
fn take_steps(
    alloc: Global,
    header: &Header,
    steps: &[Step],
    refused: &mut u64,
) -> Result<u64, AllocError>
    requires { IsHead header.now }
{
    let mut machine = Machine::start(alloc, header)?;
    let mut taken = 0u64;
    for one in steps {
        if step(&mut machine, one, refused).is_err() {
            return Err(AllocError);
        }
        taken = taken.wrapping_add(1);
    }
    Ok(taken)
}

/// Has a machine take the steps of the run that a history has, if it has one, and counts them.
fn count_steps(alloc: Global, history: &History, refused: &mut u64) -> Result<u64, AllocError> {
    match run_of(alloc, history) {
        Ok(steps) => take_steps(alloc, history.header(), &steps, refused),
        Err(BuildError::Memory) => Err(AllocError),
        Err(BuildError::NotAccepted { .. }) => Ok(0),
    }
}

/// The history of a record.
fn history_of(alloc: Global, trace: &Record, refused: &mut u64) -> Result<History, AllocError>
    requires { IsRecord (record_of trace.now) }
{
    let mut history = History::new(alloc, trace.header.clone()?)?;
    extend(&mut history, &trace.events, refused)?;
    Ok(history)
}

/// What a history comes to.
fn judge_history(
    alloc: Global,
    history: &History,
    refused: &mut u64,
) -> Result<Judged, AllocError> {
    let report = report_of(history);
    let steps = count_steps(alloc, history, refused)?;
    Ok(Judged { report, steps })
}

/// Judges a record, and has a machine take the steps of its run.
pub(crate) fn judge(alloc: Global, trace: &Record, refused: &mut u64) -> Result<Judged, AllocError>
    requires { IsRecord (record_of trace.now) }
{
    let history = history_of(alloc, trace, refused)?;
    judge_history(alloc, &history, refused)
}
