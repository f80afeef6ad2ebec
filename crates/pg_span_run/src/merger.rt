//! The run with spans of which logs are.

ghost use Rattle.std.specs.Prelude.{◌≡◌, ◌+◌, ◌-◌, ◌<◌, ◌≤◌, ◌^◌, length, None, nat_lt, count_by};
ghost use Rattle.std.specs.Prelude.{[], Err, IfOk, MatchResult};
ghost use Rattle.std.specs.List.{All, AllAdjacentBelow};
ghost use Rattle.pg_event.specs.Form.{broken_rule};
ghost use Rattle.pg_event.specs.Heads.{HoldsToAll};
ghost use Rattle.pg_event.specs.Spelling.{IsHead};
ghost use Rattle.pg_span_run.specs.Spanned.{IsSpanned};
ghost use Rattle.pg_span_run.specs.Spelling.{IsSpelled};
ghost use Rattle.pg_span_run.specs.declared.log_error.MergeError.TheVariants.{NoLogs};
ghost use Rattle.pg_span_run.specs.Logs.{IsLog};
ghost use Rattle.pg_span_run.specs.Runs.{AreOfOneRun, Explains};
ghost use Rattle.pg_span_run.specs.Merged.{EndsFirst, IsSpelledBy, IsMerged};

use crate::gathering::{gathered, order};
use crate::log::{Log, Stamped};
use crate::log_error::MergeError;
use crate::spanned::SpannedRun;
use crate::united::united;
use pg_event::Header;
use std::alloc::{AllocError, Global};

/// Whether an event had ended before a stamp, where its span is longer by so many ticks.
fn has_ended(x: &Stamped, error: u64, since: u64) -> bool
    ensures { result ≡ nat_lt (x.now.end + error) since }
{
    x.end.saturating_add(error) < since
}

/// How many of the events, which stand as they ended, had ended when one began that begins at this
/// stamp, where all spans are longer by so many ticks on both sides.
fn ended_before(all: &[Stamped], error: u64, begin: u64) -> usize
    requires { AllAdjacentBelow EndsFirst all.now (length all.now) }
    ensures { result ≡ count_by (λ y. nat_lt (y.end + error) (begin - error)) all.now }
{
    let since = begin.saturating_sub(error);
    all.partition_point(|x| has_ended(x, error, since))
}

/// The run of these events, which stand as they ended.
fn spanned(
    alloc: Global,
    header: Header,
    all: &[Stamped],
    error: u64,
) -> Result<SpannedRun, AllocError>
    requires head { IsHead header }
    requires count { length all.now < 2 ^ 32 }
    requires well { All (λ x. broken_rule header x.event ≡ None) all.now }
    requires spans { All (λ x. x.begin ≤ x.end) all.now }
    requires rises { AllAdjacentBelow EndsFirst all.now (length all.now) }
    ensures head { IfOk result (λ run. run.head ≡ header) }
    ensures run { IfOk result (λ run. IsSpelledBy all.now error run) }
    ensures kept { IfOk result (λ run. IsSpanned run) }
{
    let mut run = SpannedRun::new(alloc, header);
    for (i, x) in all.iter().enumerate() {
        let ended = ended_before(all, error, x.begin);
        let back = i - ended;
        run.push(&x.event, back as u32)?;
    }
    let _events = run.events();
    Ok(run)
}

/// The run with spans of which these are the logs, in any order: all their events as they ended,
/// each once and no others, and for each how many of those before it had not ended when it began.
/// Each span is longer than its stamps say by `error` ticks on both sides, for clocks that differ
/// by so much. Where end stamps are the same, the event of the processor with the least number
/// comes first. The run has a spelling in bytes.
///
/// Fails where the logs are not those of one run, where there are 2 to the power of 32 events or
/// more, and where memory is refused.
pub fn merge_logs(alloc: Global, logs: &[Log], error: u64) -> Result<SpannedRun, MergeError>
    ensures run { MatchResult result
        (λ run. AreOfOneRun logs.now run.head × IsMerged logs.now error run)
        (λ e. Explains logs.now e) }
    ensures spelled { IfOk result (λ run. IsSpelled run) }
    ensures rules { IfOk result (λ run. HoldsToAll run.head) }
    ensures logs { IfOk result (λ _. All IsLog logs.now) }
    ensures none { logs.now ≡ [] → result ≡ Err NoLogs }
{
    let header = match united(alloc, logs) {
        Err(error) => return Err(error),
        Ok(header) => header,
    };
    let mut all = match gathered(alloc, logs) {
        Err(error) => return Err(error),
        Ok(all) => all,
    };
    order(&mut all)?;
    match spanned(alloc, header, &all, error) {
        Err(_) => Err(MergeError::Memory),
        Ok(run) => Ok(run),
    }
}
