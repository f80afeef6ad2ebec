//! The verdict of a round, from those of its segments.

ghost use Rattle.std.specs.Prelude.{◌≡◌, ◌≢◌, ◌-◌, ◌≤◌, ◌<◌, ◌↔◌, ℕ, true, List, length, All};
ghost use Rattle.std.specs.Prelude.{IfOk, MatchOption, None};
ghost use Rattle.pg_check.specs.declared.stretch.SegmentVerdict.{SegmentVerdict};
ghost use Rattle.pg_pool.specs.Rounds.{IsIn};
ghost use Rattle.pg_report.specs.Merging.{AreCounts, IsDouble, IsLeast, IsLowest, IsMissing};
ghost use Rattle.pg_report.specs.Merging.{IsFirstBad, IsStranger, Merges, NoneIs};
ghost use Rattle.pg_report.specs.Merging.{IsLower};

use crate::error::MergeError;
use crate::report::{Verdict, verdict_of};
use pg_check::SegmentVerdict;
use pg_event::Reason;
use pg_pool::Round;
use std::alloc::{AllocError, Global};

fn is_in(round: Round, number: u64) -> bool
    ensures { (result ≡ true) ↔ IsIn round number }
{
    round.first as u64 <= number && number < round.last as u64
}

/// How often each segment of the round was judged.
fn counts_of(
    alloc: Global,
    verdicts: &[SegmentVerdict],
    round: Round,
) -> Result<Vec<u64>, AllocError>
    requires { round.first ≤ round.last }
    ensures { IfOk result (λ counts. AreCounts round verdicts.now counts.items) }
{
    let mut counts = Vec::from_elem(alloc, 0, (round.last - round.first) as usize)?;
    for verdict in verdicts {
        if is_in(round, verdict.number) {
            counts[(verdict.number - round.first as u64) as usize] += 1;
        }
    }
    Ok(counts)
}

/// The least segment of the round that has two verdicts.
fn least_double(counts: &[u64], round: Round) -> Option<u64>
    requires ordered { round.first ≤ round.last }
    requires room { length counts.now ≡ round.last - round.first }
    ensures { (verdicts : List SegmentVerdict) → AreCounts round verdicts counts.now →
        MatchOption result (NoneIs (IsDouble round verdicts)) (IsLeast (IsDouble round verdicts)) }
{
    for number in round.first..round.last {
        if counts[(number - round.first) as usize] > 1 {
            return Some(number as u64);
        }
    }
    None
}

/// The least segment of the round that has no verdict.
fn least_missing(counts: &[u64], round: Round) -> Option<u64>
    requires ordered { round.first ≤ round.last }
    requires room { length counts.now ≡ round.last - round.first }
    ensures { (verdicts : List SegmentVerdict) → AreCounts round verdicts counts.now →
        MatchOption result (NoneIs (IsMissing round verdicts))
        (IsLeast (IsMissing round verdicts)) }
{
    for number in round.first..round.last {
        if counts[(number - round.first) as usize] == 0 {
            return Some(number as u64);
        }
    }
    None
}

/// The one with the least number of the verdicts that are of no segment of the round.
fn least_stranger(verdicts: &[SegmentVerdict], round: Round) -> Option<SegmentVerdict>
    ensures { MatchOption result (All (λ v. IsIn round v.number) verdicts.now)
        (IsStranger round verdicts.now) }
{
    let mut least = None;
    for verdict in verdicts {
        if !is_in(round, verdict.number) {
            least = Some(lower_verdict(least, *verdict));
        }
    }
    least
}

/// The one with the lowest number of the verdicts that tell a bad event.
fn lowest_bad(verdicts: &[SegmentVerdict]) -> Option<SegmentVerdict>
    ensures { MatchOption result (All (λ v. v.first_bad ≡ None) verdicts.now)
        (IsLowest verdicts.now) }
{
    let mut lowest = None;
    for verdict in verdicts {
        if verdict.first_bad.is_some() {
            lowest = Some(lower_verdict(lowest, *verdict));
        }
    }
    lowest
}

/// The one with the lower number of two verdicts, of which the first may lack.
fn lower_verdict(verdict: Option<SegmentVerdict>, other: SegmentVerdict) -> SegmentVerdict
    ensures { IsLower verdict other result }
{
    match verdict {
        Some(verdict) if verdict.number <= other.number => verdict,
        _ => other,
    }
}

/// The first bad event of the lowest segment that has one.
fn first_bad_in(verdicts: &[SegmentVerdict]) -> Option<(u64, Reason)>
    ensures { MatchOption result (All (λ v. v.first_bad ≡ None) verdicts.now)
        (IsFirstBad verdicts.now) }
{
    match lowest_bad(verdicts) {
        Some(verdict) => verdict.first_bad,
        None => None,
    }
}

/// Puts the verdicts of a round's segments together, in whatever order they came: yes where no
/// segment has a bad event, and else the first bad event of the lowest segment that has one. It
/// fails by a segment that has two verdicts, else by a verdict of no segment of the round, else by
/// a segment that has none, each the least; or where memory is refused.
pub fn merge(
    alloc: Global,
    verdicts: &[SegmentVerdict],
    round: Round,
) -> Result<Verdict, MergeError>
    requires { round.first ≤ round.last }
    ensures { Merges round verdicts.now result }
{
    let counts = counts_of(alloc, verdicts, round)?;
    if let Some(number) = least_double(&counts, round) {
        return Err(MergeError::Double(number));
    }
    if let Some(stranger) = least_stranger(verdicts, round) {
        return Err(MergeError::Stranger(stranger.number));
    }
    if let Some(number) = least_missing(&counts, round) {
        return Err(MergeError::Missing(number));
    }
    Ok(verdict_of(first_bad_in(verdicts)))
}
