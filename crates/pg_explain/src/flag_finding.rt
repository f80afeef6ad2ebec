//! What is found for the reasons by accessed and dirty flags, and those of an assist.

ghost use Rattle.std.specs.Prelude.{◌≡◌, ◌≤◌, map};
ghost use Rattle.pg_chain.specs.Walked.{reading_of};
ghost use Rattle.pg_explain.specs.Findings.{accessed_at, accessed_finding, dirty_finding};
ghost use Rattle.pg_explain.specs.Findings.{flag_finding, misfit_of, update_finding};

use crate::finding::{Finding, Misfit};
use crate::walk_finding::is_last;
use pg_chain::EntryRead;
use pg_entry::{AccessKind, Cfg, Entry, Kind, Rights, accessed, allowed, classify, dirty};
use pg_event::{Claim, Update, Version, is_done_write, uses_last, want_of};

/// An entry without A; the last one may be one that is only looked at.
pub(crate) fn accessed_at(uses: bool, is_last: bool, step: EntryRead) -> Option<Finding>
    ensures { result ≡ accessed_at uses is_last (reading_of step) }
{
    if is_last && !uses || accessed(Entry(step.value)) {
        return None;
    }
    Some(Finding::Accessed {
        level: step.level,
        address: step.address,
        value: step.value,
    })
}

/// The first entry that is used without A, where the last one is used or not.
pub(crate) fn accessed_finding(uses: bool, steps: &[EntryRead]) -> Option<Finding>
    ensures { result ≡ accessed_finding uses (map reading_of steps.now) }
{
    for (i, step) in steps.iter().enumerate() {
        if let Some(found) = accessed_at(uses, is_last(&steps[i + 1..]), *step) {
            return Some(found);
        }
    }
    None
}

pub(crate) fn dirty_finding(claim: &Claim, end: EntryRead) -> Option<Finding>
    ensures { result ≡ dirty_finding claim.now (reading_of end) }
{
    if is_done_write(claim.kind, claim.outcome) && !dirty(Entry(end.value)) {
        Some(Finding::Dirty {
            address: end.address,
            value: end.value,
        })
    } else {
        None
    }
}

/// What is found for the reasons by the flags of what an access reads (Intel SDM, vol. 3, 4.8).
pub(crate) fn flag_finding(
    version: Version,
    claim: &Claim,
    steps: &[EntryRead],
    end: EntryRead,
) -> Option<Finding>
    ensures { result
        ≡ flag_finding version claim.now (map reading_of steps.now) (reading_of end) }
{
    match version {
        Version::One => None,
        Version::Two => match accessed_finding(uses_last(want_of(claim.outcome)), steps) {
            Some(found) => Some(found),
            None => dirty_finding(claim, end),
        },
    }
}

/// Why the flag D may not be set in an entry of this kind.
fn misfit_of(cfg: Cfg, access: AccessKind, rights: Rights, kind: Kind) -> Option<Finding>
    ensures { result ≡ misfit_of cfg access rights kind }
{
    match kind {
        Kind::Leaf { .. } => {
            if allowed(cfg, rights, access) {
                None
            } else {
                Some(Finding::Assist(Misfit::Rights(rights)))
            }
        }
        Kind::Table { .. } | Kind::Absent | Kind::Reserved => {
            Some(Finding::Assist(Misfit::Kind(kind)))
        }
    }
}

/// What of an assist does not fit the entry that is read last.
pub(crate) fn update_finding(cfg: Cfg, update: &Update, end: EntryRead) -> Option<Finding>
    requires { (36 ≤ cfg.m) × (cfg.m ≤ 52) }
    ensures { result ≡ update_finding cfg update.now (reading_of end) }
{
    if end.moment != update.number {
        Some(Finding::Assist(Misfit::Moment(end.moment)))
    } else if update.word != end.address {
        Some(Finding::Assist(Misfit::Word(end.address)))
    } else if update.dirty {
        let kind = classify(cfg, end.level, Entry(end.value));
        misfit_of(cfg, update.kind, end.rights, kind)
    } else {
        None
    }
}
