//! Whether logs are those of one run.

ghost use Rattle.std.specs.Prelude.{◌≡◌, ◌≢◌, ◌<◌, ◌≤◌, ℕ, Some, length, slice_get, MatchOption};
ghost use Rattle.std.specs.Prelude.{MatchResult, IfOk, slice_index_or, [], Err};
ghost use Rattle.std.specs.List.{All, AllPairs};
ghost use Rattle.pg_event.specs.Heads.{HoldsToAll};
ghost use Rattle.pg_event.specs.Spelling.{IsHead};
ghost use Rattle.pg_span_run.specs.declared.log_error.MergeError.TheVariants as errors;
ghost use Rattle.pg_span_run.specs.Logs.{Logged, IsLog};
ghost use Rattle.pg_span_run.specs.Runs.{AgreesOn, AreAlike, AreOfOneRun, Explains};
ghost use Rattle.pg_span_run.specs.Parts.{IsLike, IsFirstOf, AreStarts};

use crate::log::{Log, LogHeader};
use crate::log_error::{MergeError, Setting};
use pg_event::{Header, MOST_SEGMENT};
use std::alloc::Global;

/// A setting in which two logs differ.
fn difference(one: &LogHeader, other: &LogHeader) -> Option<Setting>
    ensures { MatchOption result
        (AreAlike one.now other.now)
        (λ setting. AgreesOn setting one.now other.now → ⊥) }
{
    if one.version != other.version {
        Some(Setting::Version)
    } else if one.cfg.m != other.cfg.m {
        Some(Setting::Maxphyaddr)
    } else if one.cfg.flags.0 != other.cfg.flags.0 {
        Some(Setting::Flags)
    } else if one.processors != other.processors {
        Some(Setting::Processors)
    } else {
        None
    }
}

/// The first log that differs from a header, and in what.
fn unlike(header: &LogHeader, logs: &[Log]) -> Option<(usize, Setting)>
    ensures { MatchOption result
        (All (IsLike header.now) logs.now)
        (λ x. (b : Logged) × (slice_get logs.now x.0 ≡ Some b)
        × (AgreesOn x.1 header.now b.head → ⊥)) }
{
    for (i, log) in logs.iter().enumerate() {
        if let Some(setting) = difference(header, log.header()) {
            return Some((i, setting));
        }
    }
    None
}

/// The place of the first log of a processor.
fn place_of(logs: &[Log], processor: u16) -> Option<usize>
    ensures { MatchOption result
        (All (λ log. log.head.own ≢ processor) logs.now)
        (λ place. IsFirstOf logs.now processor place) }
{
    for (i, log) in logs.iter().enumerate() {
        if log.header().own == processor {
            return Some(i);
        }
    }
    None
}

/// The place of the first log of a processor, if it is below one.
fn earlier(logs: &[Log], processor: u16, place: usize) -> Option<usize>
    requires { place ≤ length logs.now }
    ensures { MatchOption result
        ((k : ℕ) (d : Logged) → k < place → (slice_index_or logs.now k d).head.own ≢ processor)
        (λ first. (first < place) × IsFirstOf logs.now processor first) }
{
    match place_of(logs, processor) {
        None => None,
        Some(first) => { if first < place { Some(first) } else { None } }
    }
}

/// Two logs of one processor.
fn twice(logs: &[Log]) -> Option<(usize, usize)>
    ensures { MatchOption result
        (AllPairs (λ a b. a.head.own ≢ b.head.own) logs.now)
        (λ x. Explains logs.now (errors.Twice x.0 x.1)) }
{
    for (second, log) in logs.iter().enumerate() {
        if let Some(first) = earlier(logs, log.header().own, second) {
            return Some((first, second));
        }
    }
    None
}

/// For each processor of a run how it starts, by its log.
fn starts_of(alloc: Global, logs: &[Log], processors: u16) -> Result<Vec<(u64, bool)>, MergeError>
    requires { (a : Logged) × (slice_get logs.now 0 ≡ Some a) × (a.head.processors ≡ processors) }
    ensures { MatchResult result
        (λ starts. AreStarts logs.now processors starts.items)
        (λ e. Explains logs.now e) }
{
    let mut starts = Vec::with_capacity(alloc, processors as usize)?;
    for processor in 0..processors {
        match place_of(logs, processor) {
            None => return Err(MergeError::Missing { processor }),
            Some(place) => starts.push(logs[place].header().start)?,
        }
    }
    Ok(starts)
}

/// The header of the run of which the logs are.
pub(crate) fn united(alloc: Global, logs: &[Log]) -> Result<Header, MergeError>
    ensures run { MatchResult result
        (λ head. AreOfOneRun logs.now head)
        (λ e. Explains logs.now e) }
    ensures head { IfOk result (λ head. IsHead head) }
    ensures rules { IfOk result (λ head. HoldsToAll head) }
    ensures logs { IfOk result (λ _. All IsLog logs.now) }
    ensures none { logs.now ≡ [] → result ≡ Err errors.NoLogs }
{
    if logs.is_empty() {
        return Err(MergeError::NoLogs);
    }
    let first = *logs[0].header();
    if let Some((log, setting)) = unlike(&first, logs) {
        return Err(MergeError::Differs { log, setting });
    }
    if let Some((first, second)) = twice(logs) {
        return Err(MergeError::Twice { first, second });
    }
    match starts_of(alloc, logs, first.processors) {
        Err(error) => Err(error),
        Ok(processors) => Ok(Header {
            version: first.version,
            cfg: first.cfg,
            segment: MOST_SEGMENT,
            processors,
        }),
    }
}
