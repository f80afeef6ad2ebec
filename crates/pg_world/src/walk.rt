ghost use Rattle.std.specs.Prelude.{◌≡◌, ◌≤◌, ◌+◌, ◌*◌, ◌++◌, ◌∷◌, [], length};
ghost use Rattle.pg_event.specs.Form.{flags_of};
ghost use Rattle.pg_event.specs.Spelling.{bit};
ghost use Rattle.pg_world.specs.Walks.{levels_above, moments_of, is_table_address, is_walk};

use crate::receipt::Receipt;
use pg_entry::{AccessKind, Level, Rights};
use pg_event::{Header, Moments, flags_of, is_canonical};

/// A walk that is to read a level (Intel SDM, vol. 3, 4.5).
#[derive(Clone, Copy)]
pub struct Walk {
    /// The linear byte address.
    pub la: u64,
    /// The access that the walk serves.
    pub kind: AccessKind,
    /// The level that is read.
    pub level: Level,
    /// The physical byte address of the paging structure of that level.
    pub table: u64,
    /// The rights of the entries above.
    pub rights: Rights,
    /// The moments of the levels above, level 4 first; none at level 4.
    pub moments: Option<Moments>,
}

impl Walk {
    /// The moments of the levels above, and one more: at most four levels are read.
    pub fn moments_with(&self, moment: u32) -> Moments
        requires { length (moments_of self.now.moments) ≤ 3 }
        ensures { result ≡ moments_of self.now.moments ++ moment ∷ [] }
    {
        match self.moments {
            None => Moments::first(moment),
            Some(moments) => moments.with(moment).unwrap(),
        }
    }
}

/// What the read of a level came to.
#[derive(Clone, Copy)]
pub enum LevelRead {
    /// An entry that the walk may use, and the moment that it was read at: the number of events.
    Entry { value: u64, moment: u32 },
    /// An absent or reserved entry, and the page fault that was recorded (Intel SDM, vol. 3, 4.7).
    Fault(Receipt),
    /// An entry whose accessed or dirty flag had to be set first, and the assist that was recorded
    /// (4.8). The level is to be read again.
    Assisted(Receipt),
}

/// The flags that an assist for an access is recorded with.
pub(crate) fn assist_flags(kind: AccessKind, is_dirty: bool) -> u8
    ensures { result ≡ flags_of kind + 16 * bit is_dirty }
{
    flags_of(kind) + if is_dirty { 16 } else { 0 }
}

fn levels_above(level: Level) -> usize
    ensures { result ≡ levels_above level }
{
    match level {
        Level::Four => 0,
        Level::Three => 1,
        Level::Two => 2,
        Level::One => 3,
    }
}

fn moment_count(moments: &Option<Moments>) -> usize
    ensures { result ≡ length (moments_of moments.now) }
{
    match moments {
        None => 0,
        Some(moments) => moments.len(),
    }
}

/// Whether this is the address of a paging structure, where `m` is MAXPHYADDR.
fn is_table_address(maxphyaddr: u8, table: u64) -> bool
    requires { maxphyaddr ≤ 52 }
    ensures { result ≡ is_table_address maxphyaddr table }
{
    table % 4096 == 0 && table < 1 << maxphyaddr
}

/// Whether a walk of a processor may read.
pub(crate) fn is_walk(header: &Header, p: u16, walk: &Walk) -> bool
    requires { header.now.cfg.m ≤ 52 }
    ensures { result ≡ is_walk header.now p walk.now }
{
    (p as usize) < header.processors.len()
        && is_canonical(walk.la)
        && is_table_address(header.cfg.m, walk.table)
        && moment_count(&walk.moments) == levels_above(walk.level)
}
