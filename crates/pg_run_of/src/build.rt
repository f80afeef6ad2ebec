ghost use Rattle.std.specs.Prelude.{◌≡◌, ◌<◌, ◌^◌, None, length, IfOk, IfErr};
ghost use Rattle.pg_event.specs.Spelling.{IsHead};
ghost use Rattle.pg_check.specs.Kept.{AreWellFormed};
ghost use Rattle.pg_run_of.specs.Build.{BuildsRun, IsNotAccepted};
ghost use Rattle.pg_run_of.specs.declared.build.BuildError.TheVariants.{Memory};

use crate::plan::plan_run;
use pg_check::{History, first_bad};
use pg_event::{Reason, Record};
use pg_machine::Step;
use std::alloc::{AllocError, Global};
use thiserror::Error;

/// Why a record gives no run.
#[derive(Clone, Copy, Debug, PartialEq, Eq, Error)]
pub enum BuildError {
    /// Its first event that is not witnessed, with the least reason that fails.
    #[error("event {event} is not witnessed")]
    NotAccepted { event: u64, reason: Reason },
    /// Memory ran out.
    #[error("memory ran out")]
    Memory,
}

impl From<AllocError> for BuildError {
    ghost from_gives = { λ _ e. e ≡ Memory };

    fn from(_error: AllocError) -> BuildError {
        BuildError::Memory
    }
}

/// The run of a history, if each of its events is witnessed: at most five steps an event, none of
/// which forgets an entry. The fills at a moment stand just before the event of that number.
pub fn run_of(alloc: Global, history: &History) -> Result<Vec<Step>, BuildError>
    ensures run { IfOk result (λ steps. BuildsRun history.now.head history.now.events steps.items) }
    ensures refused { IfErr result (λ e. IsNotAccepted history.now.head history.now.events e) }
{
    match first_bad(history) {
        Some((event, reason)) => Err(BuildError::NotAccepted { event, reason }),
        None => Ok(plan_run(alloc, history)?),
    }
}

/// The run of a record, if it is accepted; see `run_of`.
pub fn build_run(alloc: Global, trace: &Record) -> Result<Vec<Step>, BuildError>
    requires head { IsHead trace.now.header }
    requires form { AreWellFormed trace.now.header trace.now.events.items }
    requires count { length trace.now.events.items < 2 ^ 32 }
    ensures run { IfOk result
        (λ steps. BuildsRun trace.now.header trace.now.events.items steps.items) }
    ensures refused { IfErr result (λ e. IsNotAccepted trace.now.header trace.now.events.items e) }
{
    let mut history = History::new(alloc, trace.header.clone()?)?;
    history.extend(&trace.events)?;
    run_of(alloc, &history)
}
