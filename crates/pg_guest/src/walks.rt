//! Where a walk reads next, and what an access comes to.

ghost use Rattle.std.specs.Prelude.{◌≡◌, ◌≤◌, ◌<◌, ◌%◌, ◌^◌, ◌+◌};
ghost use Rattle.pg_guest.specs.Turn.{from_root, from_table, outcome_of};

use pg_entry::{AccessKind, Cause, Cfg, Level, Rights, allowed, error_code, page_size};
use pg_event::{Control, Moments, Outcome, below, root_of};
use pg_world::Walk;

/// A walk that is to read level 4, in the root.
pub(crate) fn from_root(control: Control, kind: AccessKind, la: u64) -> Walk
    ensures { result ≡ from_root control kind la }
{
    let root = root_of(control);
    Walk {
        la,
        kind,
        level: Level::Four,
        table: root.table,
        rights: root.rights,
        moments: None,
    }
}

/// A walk that is to read the level below this one, in a table.
pub(crate) fn from_table(
    kind: AccessKind,
    la: u64,
    level: Level,
    table: u64,
    rights: Rights,
    moments: Moments,
) -> Walk
    ensures { result ≡ from_table kind la level table rights moments }
{
    Walk {
        la,
        kind,
        level: below(level),
        table,
        rights,
        moments: Some(moments),
    }
}

/// The physical address of a linear address in a page of 2 to the power of `shift` bytes.
pub(crate) fn address_in(frame: u64, shift: u8, la: u64) -> u64
    requires shift { shift ≤ 30 }
    requires frame { frame < 2 ^ 52 }
    ensures { result ≡ frame + la % 2 ^ shift }
{
    frame + la % page_size(shift)
}

/// What an access comes to where a page was found for it: it is done there, or its rights deny it
/// (Intel SDM, vol. 3, 4.6, 4.7).
pub(crate) fn outcome_of(cfg: Cfg, kind: AccessKind, rights: Rights, address: u64) -> Outcome
    ensures { result ≡ outcome_of cfg kind rights address }
{
    if allowed(cfg, rights, kind) {
        Outcome::Page(address)
    } else {
        Outcome::Fault(error_code(cfg, kind, Cause::Denied))
    }
}
