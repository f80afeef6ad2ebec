ghost use Rattle.std.specs.Prelude.{◌≡◌, ◌≤◌, ◌<◌, ◌^◌};
ghost use Rattle.pg_entry.specs.Kinds.{table_of};
ghost use Rattle.pg_entry.specs.Permission.{joined};
ghost use Rattle.pg_event.specs.Walk.{below, entry_address};
ghost use Rattle.pg_run_of.specs.Plan.{table_fill};

use pg_entry::{Entry, Level, combine, table_of};
use pg_event::{Parent, below, entry_address};
use pg_machine::Step;

/// A walk of processor `p` for a linear address, as far as it has come: the level that it reads
/// next, and the table that it reads it in.
#[derive(Clone, Copy)]
pub(crate) struct Visit {
    pub p: u16,
    pub la: u64,
    pub level: Level,
    pub from: Parent,
}

/// The physical address of the entry that a walk reads next.
pub(crate) fn next_address(visit: Visit) -> u64
    requires { visit.from.table < 2 ^ 52 }
    ensures { result ≡ entry_address visit.from.table visit.level visit.la }
{
    entry_address(visit.from.table, visit.level, visit.la)
}

/// The step that fills the table of a level.
pub(crate) fn table_fill(visit: Visit) -> Step
    ensures { result ≡ table_fill visit.p visit.la visit.level visit.from }
{
    let Visit { p, la, level, from } = visit;
    match level {
        Level::Four => Step::Fill4 { p, la },
        Level::Three => Step::Fill3 { p, la, from },
        Level::Two => Step::Fill2 { p, la, from },
        Level::One => Step::FillLeaf { p, la, level, from },
    }
}

/// The walk one level below, by the value that it has read.
pub(crate) fn descend(maxphyaddr: u8, visit: Visit, value: u64) -> Visit
    requires width { (12 ≤ maxphyaddr) × (maxphyaddr ≤ 52) }
    ensures address { (result.p ≡ visit.p) × (result.la ≡ visit.la) }
    ensures level { result.level ≡ below visit.level }
    ensures from { result.from
        ≡ record { table = table_of maxphyaddr value; rights = joined visit.from.rights value } }
    ensures within { result.from.table < 2 ^ 52 }
{
    let entry = Entry(value);
    Visit {
        level: below(visit.level),
        from: Parent {
            table: table_of(maxphyaddr, entry),
            rights: combine(visit.from.rights, entry),
        },
        ..visit
    }
}
