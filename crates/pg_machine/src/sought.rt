ghost use Rattle.std.specs.Prelude.{◌≡◌, ◌<◌, ◌≤◌, ◌^◌};
ghost use Rattle.pg_machine.specs.Stepping.{is_sought, is_sought_at, is_leading, leads_to_sought};

use crate::memory::Memory;
use crate::step::Structure;
use pg_entry::{AccessKind, Cfg, Entry, Level, Rights, classify, combine};
use pg_event::{Parent, Want, below, entry_address, is_wanted, may_dirty, structure_matches};

/// What an event needs of an entry that a walk may read now.
#[derive(Clone, Copy, Drop)]
pub(crate) enum Sought {
    /// It is what a fault wants: absent, or with a reserved bit set.
    Entry(Want),
    /// It is the one that an assist names for an access: present with no reserved bit and, where
    /// the assist is dirty, a page whose rights allow the access (Intel SDM, vol. 3, 4.8).
    Word {
        access: AccessKind,
        word: u64,
        with_dirty: bool,
    },
}

/// Whether an entry that a structure leads a walk of this PCID to is what is sought.
pub(crate) fn leads_to_sought(
    cfg: Cfg,
    memory: &Memory,
    la: u64,
    sought: Sought,
    pcid: u16,
    structure: &Structure,
) -> bool
    requires width { (36 ≤ cfg.m) × (cfg.m ≤ 52) }
    requires within { structure.now.table < 2 ^ 52 }
    ensures { result ≡ leads_to_sought cfg memory.now la sought pcid structure.now }
{
    let key = structure.key;
    let to = Parent {
        table: structure.table,
        rights: structure.rights,
    };
    is_leading(key.level)
        && key.pcid == pcid
        && structure_matches(key, la)
        && is_sought(cfg, memory, la, sought, below(key.level), to)
}

fn is_leading(level: Level) -> bool
    ensures { result ≡ is_leading level }
{
    match level {
        Level::Four | Level::Three | Level::Two => true,
        Level::One => false,
    }
}

/// Whether the entry that a level has for a linear address in a table is what is sought.
pub(crate) fn is_sought(
    cfg: Cfg,
    memory: &Memory,
    la: u64,
    sought: Sought,
    level: Level,
    from: Parent,
) -> bool
    requires width { (36 ≤ cfg.m) × (cfg.m ≤ 52) }
    requires within { from.table < 2 ^ 52 }
    ensures { result ≡ is_sought cfg memory.now la sought level from }
{
    let address = entry_address(from.table, level, la);
    let entry = memory.entry(address);
    is_sought_at(cfg, sought, address, level, from.rights, entry)
}

/// Whether a level's entry at this address, under these rights, is what is sought.
fn is_sought_at(
    cfg: Cfg,
    sought: Sought,
    address: u64,
    level: Level,
    rights: Rights,
    entry: Entry,
) -> bool
    requires { (36 ≤ cfg.m) × (cfg.m ≤ 52) }
    ensures { result ≡ is_sought_at cfg sought address level rights entry.0 }
{
    let kind = classify(cfg, level, entry);
    match sought {
        Sought::Entry(want) => is_wanted(want, kind),
        Sought::Word {
            access,
            word,
            with_dirty,
        } => {
            word == address
                && is_wanted(Want::Present, kind)
                && (!with_dirty || may_dirty(cfg, access, combine(rights, entry), kind))
        }
    }
}
