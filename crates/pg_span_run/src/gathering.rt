//! The events of all logs, as they ended.

ghost use Rattle.std.specs.Prelude.{◌≡◌, ◌<◌, ◌^◌, length, IfOk, MatchResult};
ghost use Rattle.std.specs.List.{AllAdjacentBelow};
ghost use Rattle.std.specs.List.Sorted.{IsPermutation};
ghost use Rattle.pg_span_run.specs.Runs.{events_of, Explains};
ghost use Rattle.pg_span_run.specs.Merged.{EndsFirst};
ghost use Rattle.pg_span_run.specs.Parts.{KeepsTies};

use crate::log::{Log, Stamped};
use crate::log_error::MergeError;
use pg_event::processor_of;
use std::alloc::{AllocError, Global};

/// The most events of a run.
const MOST_EVENTS: usize = u32::MAX as usize;

/// The events of all logs, log by log.
pub(crate) fn gathered(alloc: Global, logs: &[Log]) -> Result<Vec<Stamped>, MergeError>
    ensures events { MatchResult result
        (λ all. all.items ≡ events_of logs.now)
        (λ e. Explains logs.now e) }
    ensures count { IfOk result (λ all. length all.items < 2 ^ 32) }
{
    let mut all = Vec::new(alloc);
    for log in logs {
        let events = log.events();
        if events.len() > MOST_EVENTS - all.len() {
            return Err(MergeError::TooMany);
        }
        all.extend_from_slice(events)?;
    }
    Ok(all)
}

/// Puts events in the order in which they ended: by end stamps, and where those are the same by the
/// numbers of the processors.
pub(crate) fn order(all: &mut Vec<Stamped>) -> Result<(), AllocError>
    ensures same { IsPermutation all.old.items all.new.items }
    ensures rises { IfOk result
        (λ _. AllAdjacentBelow EndsFirst all.new.items (length all.new.items)) }
    ensures ties { KeepsTies all.old.items all.new.items }
{
    all.sort_by_key(|x| (x.end, processor_of(&x.event)))
}
