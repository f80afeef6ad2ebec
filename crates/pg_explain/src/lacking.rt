//! Which entry lacks a flag, where a walk at an event would give what its access got.

ghost use Rattle.std.specs.Prelude.{◌≡◌, ◌<◌, ◌≤◌, ◌∷◌, [], length, map, IfOk};
ghost use Rattle.pg_event.specs.Form.{processor_of};
ghost use Rattle.pg_chain.specs.Walked.{reading_of};
ghost use Rattle.pg_explain.specs.Findings.{readings_by};
ghost use Rattle.pg_explain.specs.Lacking.{gives, lacking_at, lacking_in, lacking_by};
ghost use Rattle.pg_explain.specs.Lacking.{lacking_now};

use crate::entry::read_steps;
use crate::finding::Finding;
use crate::flag_finding::{accessed_at, dirty_finding};
use crate::given::given_by;
use crate::walk_finding::is_table;
use pg_chain::{EntryRead, kind_at};
use pg_entry::Cfg;
use pg_event::{Claim, Event, Header, Outcome, Version, access_kind, uses_last, want_of};
use pg_search::Seen;
use std::alloc::{AllocError, Global};

/// Whether a walk gives an outcome.
fn gives(outcome: Outcome, given: Option<Outcome>) -> bool
    ensures { result ≡ gives outcome given }
{
    match (outcome, given) {
        (Outcome::Page(page), Some(Outcome::Page(other))) => page == other,
        (Outcome::Fault(code), Some(Outcome::Fault(other))) => code == other,
        (Outcome::Page(_), Some(Outcome::Fault(_)))
        | (Outcome::Fault(_), Some(Outcome::Page(_)))
        | (Outcome::Page(_) | Outcome::Fault(_), None) => false,
    }
}

/// What the entry of a step lacks, as a table or as the end of the walk.
fn lacking_at(cfg: Cfg, claim: &Claim, step: EntryRead) -> Option<Finding>
    requires { (36 ≤ cfg.m) × (cfg.m ≤ 52) }
    ensures { result ≡ lacking_at cfg claim.now (reading_of step) }
{
    if is_table(kind_at(cfg, step)) {
        return accessed_at(true, false, step);
    }
    match accessed_at(uses_last(want_of(claim.outcome)), true, step) {
        Some(found) => Some(found),
        None => dirty_finding(claim, step),
    }
}

/// What the first entry lacks that lacks something, down to the first that is no table.
fn lacking_in(cfg: Cfg, claim: &Claim, steps: &[EntryRead]) -> Option<Finding>
    requires { (36 ≤ cfg.m) × (cfg.m ≤ 52) }
    ensures { result ≡ lacking_in cfg claim.now (map reading_of steps.now) }
{
    for step in steps {
        if let Some(found) = lacking_at(cfg, claim, *step) {
            return Some(found);
        }
        if !is_table(kind_at(cfg, *step)) {
            return None;
        }
    }
    None
}

/// What an access lacks in a walk that would give what it got (Intel SDM, vol. 3, 4.8).
fn lacking_by(header: &Header, claim: &Claim, steps: &[EntryRead]) -> Option<Finding>
    requires { (36 ≤ header.now.cfg.m) × (header.now.cfg.m ≤ 52) }
    ensures { result ≡ lacking_by header.now claim.now (map reading_of steps.now) }
{
    match header.version {
        Version::One => None,
        Version::Two => {
            let given = given_by(header.cfg, claim.kind, claim.la, steps);
            if gives(claim.outcome, given) {
                lacking_in(header.cfg, claim, steps)
            } else {
                None
            }
        }
    }
}

/// What an access lacks in the walk at its event.
fn lacking_for(alloc: Global, seen: &Seen<'_>, claim: &Claim) -> Result<Option<Finding>, AllocError>
    requires { claim.now.p < length seen.now.head.processors }
    ensures { IfOk result (λ found. found ≡ lacking_by seen.now.head claim.now
        (readings_by seen.now.head seen.now.events claim.now.p claim.now.la (claim.now.number
        ∷ claim.now.number ∷ claim.now.number ∷ claim.now.number ∷ []))) }
{
    let steps = read_steps(alloc, seen, claim.p, claim.la, &[claim.number; 4])?;
    Ok(lacking_by(seen.header(), claim, &steps))
}

/// What the access of an event lacks in the walk at the event, where it is one.
pub(crate) fn lacking_now(
    alloc: Global,
    seen: &Seen<'_>,
    number: u32,
    event: &Event,
) -> Result<Option<Finding>, AllocError>
    requires { processor_of event.now < length seen.now.head.processors }
    ensures { IfOk result (λ found. found
        ≡ lacking_now seen.now.head seen.now.events number event.now) }
{
    match *event {
        Event::Access {
            p,
            flags,
            la,
            outcome,
            ..
        } => {
            let kind = access_kind(flags);
            let claim = Claim {
                number,
                p,
                kind,
                la,
                outcome,
            };
            lacking_for(alloc, seen, &claim)
        }
        Event::Write { .. }
        | Event::Assist { .. }
        | Event::MovCr3 { .. }
        | Event::Invlpg { .. }
        | Event::Invpcid { .. }
        | Event::MovCr4Pge { .. } => Ok(None),
    }
}
