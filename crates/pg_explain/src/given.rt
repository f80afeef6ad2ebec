//! What an access gets by what a walk reads.

ghost use Rattle.std.specs.Prelude.{◌≡◌, ◌+◌, ◌<◌, ◌≤◌, ◌%◌, ◌^◌, map};
ghost use Rattle.pg_entry.specs.Kinds.{IsPageShift};
ghost use Rattle.pg_chain.specs.Walked.{reading_of};
ghost use Rattle.pg_explain.specs.Given.{leaf_given, given_at, given_by};
ghost use Rattle.pg_entry.specs.Kinds.{kind_of};

use pg_chain::{EntryRead, kind_at};
use pg_entry::{AccessKind, Cause, Cfg, Kind, Rights, allowed, error_code, page_offset};
use pg_event::Outcome;

/// The byte's address in a page, or the code of a page fault, by the rights.
fn leaf_given(
    cfg: Cfg,
    access: AccessKind,
    la: u64,
    rights: Rights,
    frame: u64,
    shift: u8,
) -> Outcome
    requires frame { frame < 2 ^ 52 }
    requires shift { IsPageShift shift }
    ensures { result ≡ leaf_given cfg access rights (frame + la % 2 ^ shift) }
{
    if allowed(cfg, rights, access) {
        Outcome::Page(frame + page_offset(la, shift))
    } else {
        Outcome::Fault(error_code(cfg, access, Cause::Denied))
    }
}

/// What the entry of a step gives, unless it is a table.
fn given_at(cfg: Cfg, access: AccessKind, la: u64, step: EntryRead) -> Option<Outcome>
    requires { (36 ≤ cfg.m) × (cfg.m ≤ 52) }
    ensures { result
        ≡ given_at cfg access la step.rights (kind_of cfg step.level step.value) }
{
    match kind_at(cfg, step) {
        Kind::Leaf { frame, shift, .. } => {
            Some(leaf_given(cfg, access, la, step.rights, frame, shift))
        }
        Kind::Absent => Some(Outcome::Fault(error_code(cfg, access, Cause::Absent))),
        Kind::Reserved => Some(Outcome::Fault(error_code(cfg, access, Cause::Reserved))),
        Kind::Table { .. } => None,
    }
}

/// What the first entry of a walk gives that is no table.
pub(crate) fn given_by(
    cfg: Cfg,
    access: AccessKind,
    la: u64,
    steps: &[EntryRead],
) -> Option<Outcome>
    requires { (36 ≤ cfg.m) × (cfg.m ≤ 52) }
    ensures { result ≡ given_by cfg access la (map reading_of steps.now) }
{
    for step in steps {
        if let Some(outcome) = given_at(cfg, access, la, *step) {
            return Some(outcome);
        }
    }
    None
}
