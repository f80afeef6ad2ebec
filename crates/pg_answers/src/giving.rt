//! What gives the outcomes of an access: the entries of each walk, since when its leaf is cached,
//! and the flags that must be set in them.

ghost use Rattle.std.specs.Prelude.{◌≡◌, ◌<◌, true, None, length, map, IfOk};
ghost use Rattle.std.specs.List.{AllByRecursion};
ghost use Rattle.pg_event.specs.Form.{broken_rule};
ghost use Rattle.pg_event.specs.Heads.{judges_accessed};
ghost use Rattle.pg_outcomes.specs.Placed.{is_access};
ghost use Rattle.pg_answers.specs.Giving.{end_of, cached_since, table_words, word_if};
ghost use Rattle.pg_answers.specs.Giving.{accessed_words, AreNeeded, IsGivenBy};
ghost use Rattle.pg_answers.specs.Giving.{allowed_of, AreTold};

use crate::allowed_text::first_allowed;
use crate::answer::{NeededFlags, OutcomeWalk};
use pg_entry::AccessKind;
use pg_event::{
    Event, Outcome, Version, Want, access_kind, is_done_write, is_wanted, uses_last, want_of,
};
use pg_explain::{WalkEntry, is_table, walk_by};
use pg_outcomes::Allowed;
use pg_search::Seen;
use std::alloc::{AllocError, Global};

/// The entry that ends a walk: the first that is no table.
fn end_of(walk: &[WalkEntry]) -> Option<WalkEntry>
    ensures { result ≡ end_of walk.now }
{
    for entry in walk {
        if !is_table(entry.kind) {
            return Some(*entry);
        }
    }
    None
}

/// The moment since which the leaf that ends a walk is cached, where one does.
fn cached_since(walk: &[WalkEntry]) -> Option<u32>
    ensures { result ≡ cached_since walk.now }
{
    match end_of(walk) {
        Some(end) => {
            if is_wanted(Want::Leaf, end.kind) {
                Some(end.step.moment)
            } else {
                None
            }
        }
        None => None,
    }
}

/// The words of the tables of a walk.
fn table_words(alloc: Global, walk: &[WalkEntry]) -> Result<Vec<u64>, AllocError>
    ensures { IfOk result (λ words. words.items ≡ table_words walk.now) }
{
    let mut words = Vec::new(alloc);
    for entry in walk {
        if !is_table(entry.kind) {
            return Ok(words);
        }
        words.push(entry.step.address)?;
    }
    Ok(words)
}

/// The word of an entry, if it needs a flag.
fn word_if(needs: bool, entry: Option<WalkEntry>) -> Option<u64>
    ensures { result ≡ word_if needs entry }
{
    match entry {
        Some(entry) => {
            if needs {
                Some(entry.step.address)
            } else {
                None
            }
        }
        None => None,
    }
}

/// The words whose accessed flag must be set.
fn accessed_words(
    alloc: Global,
    outcome: Outcome,
    walk: &[WalkEntry],
) -> Result<Vec<u64>, AllocError>
    ensures { IfOk result (λ words. words.items ≡ accessed_words outcome walk.now) }
{
    let mut words = table_words(alloc, walk)?;
    if let Some(word) = word_if(uses_last(want_of(outcome)), end_of(walk)) {
        words.push(word)?;
    }
    Ok(words)
}

/// The flags that must be set for an outcome, where records of this version are judged by them.
fn needed_flags(
    alloc: Global,
    version: Version,
    kind: AccessKind,
    outcome: Outcome,
    walk: &[WalkEntry],
) -> Result<Option<NeededFlags>, AllocError>
    ensures { IfOk result (AreNeeded (judges_accessed version) kind outcome walk.now) }
{
    match version {
        Version::One => Ok(None),
        Version::Two => {
            let accessed = accessed_words(alloc, outcome, walk)?;
            let dirty = word_if(is_done_write(kind, outcome), end_of(walk));
            Ok(Some(NeededFlags { accessed, dirty }))
        }
    }
}

/// An outcome, and what gives it for an access of processor `p`.
fn outcome_walk(
    alloc: Global,
    seen: &Seen<'_>,
    p: u16,
    kind: AccessKind,
    la: u64,
    allowed: Allowed,
) -> Result<OutcomeWalk, AllocError>
    requires { p < length seen.now.head.processors }
    ensures given { IfOk result (IsGivenBy seen.now p kind la) }
    ensures outcome { IfOk result (λ x. x.allowed ≡ allowed) }
{
    let walk = walk_by(alloc, seen, p, la, allowed.moments.as_slice())?;
    let since = cached_since(&walk);
    let flags = needed_flags(alloc, seen.header().version, kind, allowed.outcome, &walk)?;
    Ok(OutcomeWalk {
        allowed,
        walk,
        since,
        flags,
    })
}

/// Outcomes, and what gives each.
fn each(
    alloc: Global,
    seen: &Seen<'_>,
    p: u16,
    kind: AccessKind,
    la: u64,
    found: &[Allowed],
) -> Result<Vec<OutcomeWalk>, AllocError>
    requires { p < length seen.now.head.processors }
    ensures outcomes { IfOk result (λ told. map allowed_of told.items ≡ found.now) }
    ensures given { IfOk result (λ told.
        AllByRecursion (IsGivenBy seen.now p kind la) told.items) }
{
    let mut told = Vec::new(alloc);
    for allowed in found {
        let walk = outcome_walk(alloc, seen, p, kind, la, *allowed)?;
        told.push(walk)?;
    }
    Ok(told)
}

/// The first of the outcomes of an access, so many at most, each with what gives it: the walk by
/// its moments, since when the leaf of that is cached, and in version 2 the flags that it needs.
///
/// For each entry it takes a pass over the events below its moment. It fails only where memory is
/// refused.
pub fn told_outcomes(
    alloc: Global,
    seen: &Seen<'_>,
    event: &Event,
    found: &[Allowed],
    most: u32,
) -> Result<Vec<OutcomeWalk>, AllocError>
    requires well { broken_rule seen.now.head event.now ≡ None }
    requires access { is_access event.now ≡ true }
    ensures { IfOk result (λ told. AreTold seen.now event.now most found.now told.items) }
{
    let Event::Access { p, flags, la, .. } = *event else {
        return Ok(Vec::new(alloc));
    };
    let first = first_allowed(found, most as usize);
    each(alloc, seen, p, access_kind(flags), la, first)
}
