//! Which outcomes of an access an entry gives that is read last.

ghost use Rattle.std.specs.Prelude.{◌≡◌, ◌≤◌};
ghost use Rattle.std.specs.Option.{option_map};
ghost use Rattle.pg_event.specs.declared.event.Outcome.TheVariants.{Page, Fault};
ghost use Rattle.pg_entry.specs.Kinds.{kind_of};
ghost use Rattle.pg_reach.specs.Given.{page_by, cause_of, code_by};

use pg_entry::{AccessKind, Cause, Cfg, Entry, Kind, Level, classify, error_code, page_offset};
use pg_event::Outcome;

/// The physical address that an access to a linear one gets by an entry of a level, if the entry
/// refers to a page (Intel SDM, vol. 3, 4.5).
pub fn page_by(cfg: Cfg, level: Level, entry: Entry, la: u64) -> Option<u64>
    requires { (36 ≤ cfg.m) × (cfg.m ≤ 52) }
    ensures { result ≡ page_by cfg level entry.0 la }
{
    match classify(cfg, level, entry) {
        Kind::Leaf { frame, shift, .. } => Some(frame + page_offset(la, shift)),
        Kind::Absent | Kind::Reserved | Kind::Table { .. } => None,
    }
}

/// Why an access faults by an entry of a level that it reads last (Intel SDM, vol. 3, 4.7).
fn cause_by(cfg: Cfg, level: Level, entry: Entry) -> Option<Cause>
    requires { (36 ≤ cfg.m) × (cfg.m ≤ 52) }
    ensures { result ≡ cause_of (kind_of cfg level entry.0) }
{
    match classify(cfg, level, entry) {
        Kind::Leaf { .. } => Some(Cause::Denied),
        Kind::Absent => Some(Cause::Absent),
        Kind::Reserved => Some(Cause::Reserved),
        Kind::Table { .. } => None,
    }
}

/// The outcome of an access that such an entry allows.
pub(crate) fn page_given(cfg: Cfg, level: Level, entry: Entry, la: u64) -> Option<Outcome>
    requires { (36 ≤ cfg.m) × (cfg.m ≤ 52) }
    ensures { result ≡ option_map Page (page_by cfg level entry.0 la) }
{
    page_by(cfg, level, entry, la).map(Outcome::Page)
}

/// The outcome of an access that faults by such an entry.
pub(crate) fn fault_given(
    cfg: Cfg,
    access: AccessKind,
    level: Level,
    entry: Entry,
) -> Option<Outcome>
    requires { (36 ≤ cfg.m) × (cfg.m ≤ 52) }
    ensures { result
        ≡ option_map Fault (code_by cfg access (cause_of (kind_of cfg level entry.0))) }
{
    match cause_by(cfg, level, entry) {
        Some(cause) => Some(Outcome::Fault(error_code(cfg, access, cause))),
        None => None,
    }
}
