//! What is found for the reasons from the translation on.

ghost use Rattle.std.specs.Prelude.{◌≡◌, ◌<◌, ◌≤◌, ◌%◌, ◌^◌, ◌&&◌, length};
ghost use Rattle.pg_entry.specs.declared.Kind.TheVariants as kinds;
ghost use Rattle.pg_entry.specs.Kinds.{kind_of, IsPageShift};
ghost use Rattle.pg_event.specs.Values.{mem_at, control_at};
ghost use Rattle.pg_chain.specs.Walked.{reading_of};
ghost use Rattle.pg_explain.specs.Findings.{leaf_finding, held_finding, fault_finding};
ghost use Rattle.pg_explain.specs.Findings.{prevention_of};
ghost use Rattle.pg_explain.specs.Findings.{translation_drop, foreign_finding, end_finding};

use crate::dropped::{CacheKey, first_drop};
use crate::finding::{Finding, Prevention, Tagged, Wish};
use crate::walk_finding::tagged;
use pg_chain::{EntryRead, kind_at};
use pg_check::History;
use pg_entry::{
    AccessKind, Cause, Cfg, Entry, Kind, Op, Rights, allowed, classify, error_code, page_offset,
};
use pg_event::{Claim, Outcome, Want, translation_key, want_of};
use pg_search::Seen;

/// The prevention without which rights would allow an access that they deny.
fn prevention_of(cfg: Cfg, rights: Rights, access: AccessKind) -> Option<Prevention>
    ensures { result ≡ prevention_of cfg rights access access.op }
{
    match access.op {
        Op::Read | Op::Write => {
            if allowed(cfg, rights, AccessKind { ac: true, ..access }) {
                Some(Prevention::Smap)
            } else {
                None
            }
        }
        Op::Fetch => {
            if access.user || rights.xd {
                None
            } else {
                Some(Prevention::Smep)
            }
        }
    }
}

/// What is found for the reasons by the rights, the answer and the code, where a leaf gives an
/// address.
fn leaf_finding(cfg: Cfg, claim: &Claim, rights: Rights, address: u64) -> Option<Finding>
    ensures { result ≡ leaf_finding cfg claim.now.kind rights address claim.now.outcome }
{
    let access = claim.kind;
    let is_allowed = allowed(cfg, rights, access);
    match claim.outcome {
        Outcome::Page(page) => {
            if !is_allowed {
                Some(Finding::Rights {
                    rights,
                    access,
                    is_allowed: false,
                    prevention: prevention_of(cfg, rights, access),
                })
            } else if page == address {
                None
            } else {
                Some(Finding::Answer { expected: address })
            }
        }
        Outcome::Fault(code) => {
            let expected = error_code(cfg, access, Cause::Denied);
            if is_allowed {
                Some(Finding::Rights {
                    rights,
                    access,
                    is_allowed: true,
                    prevention: None,
                })
            } else if code == expected {
                None
            } else {
                Some(Finding::Code { expected })
            }
        }
    }
}

/// What the word of a step holds at the event.
fn held_finding(cfg: Cfg, step: EntryRead, value: u64) -> Finding
    requires { (36 ≤ cfg.m) × (cfg.m ≤ 52) }
    ensures { result ≡ held_finding cfg (reading_of step) value }
{
    Finding::NotAtEvent {
        moment: step.moment,
        address: step.address,
        value,
        kind: classify(cfg, step.level, Entry(value)),
    }
}

/// What is found for the reasons of a fault, where the entry that is read last is absent or
/// reserved.
fn fault_finding(
    history: &History,
    claim: &Claim,
    cause: Cause,
    kind: Kind,
    step: EntryRead,
) -> Option<Finding>
    ensures { result ≡ fault_finding history.now.head history.now.events claim.now cause kind
        (reading_of step) claim.now.outcome }
{
    let cfg = history.header().cfg;
    match claim.outcome {
        Outcome::Page(_) => Some(Finding::Entry {
            level: step.level,
            wish: Wish::Last(Want::Leaf),
            found: kind,
        }),
        Outcome::Fault(code) => {
            let expected = error_code(cfg, claim.kind, cause);
            if step.moment != claim.number {
                let value = history.value_at(claim.number, step.address);
                Some(held_finding(cfg, step, value))
            } else if code == expected {
                None
            } else {
                Some(Finding::Code { expected })
            }
        }
    }
}

fn translation_drop(step: EntryRead, at: Option<u32>) -> Option<Finding>
    ensures { result ≡ translation_drop step.level at }
{
    match at {
        Some(at) => Some(Finding::TranslationDropped {
            level: step.level,
            at,
        }),
        None => None,
    }
}

/// The PCIDs at the reading and at the event, where the translation may not be used.
fn foreign_finding(read: Tagged, current: Tagged, global: bool) -> Option<Finding>
    ensures { result ≡ foreign_finding read current global }
{
    if current.pcid != read.pcid && !global {
        Some(Finding::ForeignPcid { read, current })
    } else {
        None
    }
}

/// Whether the translation is global that a leaf gives, by its bit 8.
fn is_global(history: &History, p: u16, moment: u32, global_bit: bool) -> bool
    requires { p < length history.now.head.processors }
    ensures { result
        ≡ (global_bit && (control_at history.now.head history.now.events p moment).pge) }
{
    Seen::of(history).is_global(p, global_bit, moment)
}

/// A leaf: the page that it maps, of 2 to the power of `shift` bytes, and its bit 8.
#[derive(Clone, Copy)]
struct Leaf {
    frame: u64,
    shift: u8,
    global_bit: bool,
}

/// What is found for the reasons by the translation that a leaf gives.
fn page_finding(
    history: &History,
    claim: &Claim,
    pcid: u16,
    step: EntryRead,
    leaf: Leaf,
) -> Option<Finding>
    requires processor { claim.now.p < length history.now.head.processors }
    requires frame { leaf.frame < 2 ^ 52 }
    requires shift { IsPageShift leaf.shift }
    ensures { result ≡ end_finding history.now.head history.now.events claim.now pcid
        (reading_of step) (kinds.Leaf leaf.frame leaf.shift leaf.global_bit) }
{
    let Claim { number, p, la, .. } = *claim;
    let moment = step.moment;
    let global = is_global(history, p, moment, leaf.global_bit);
    let key = CacheKey::Translation(translation_key(pcid, leaf.shift, global, la));
    let at = first_drop(history, p, key, moment, number);
    if let Some(found) = translation_drop(step, at) {
        return Some(found);
    }
    let read = Tagged { moment, pcid };
    if let Some(found) = foreign_finding(read, tagged(history, p, number), global) {
        return Some(found);
    }
    let address = leaf.frame + page_offset(la, leaf.shift);
    leaf_finding(history.header().cfg, claim, step.rights, address)
}

/// What is found for the reasons from the translation on, by what was read last under a PCID.
pub(crate) fn end_finding(
    history: &History,
    claim: &Claim,
    pcid: u16,
    step: EntryRead,
) -> Option<Finding>
    requires { claim.now.p < length history.now.head.processors }
    ensures { result ≡ end_finding history.now.head history.now.events claim.now pcid
        (reading_of step) (kind_of history.now.head.cfg step.level step.value) }
{
    let kind = kind_at(history.header().cfg, step);
    match kind {
        Kind::Leaf {
            frame,
            shift,
            global_bit,
        } => {
            let leaf = Leaf {
                frame,
                shift,
                global_bit,
            };
            page_finding(history, claim, pcid, step, leaf)
        }
        Kind::Absent => fault_finding(history, claim, Cause::Absent, kind, step),
        Kind::Reserved => fault_finding(history, claim, Cause::Reserved, kind, step),
        Kind::Table { .. } => Some(Finding::Entry {
            level: step.level,
            wish: Wish::Last(want_of(claim.outcome)),
            found: kind,
        }),
    }
}
