//! Walks that a processor may have made. Nothing is claimed of them: the moments that come of one
//! are judged before they are taken.

ghost use Rattle.std.specs.Prelude.{◌<◌, ◌^◌, length};
ghost use Rattle.std.specs.List.{AllByRecursion};
ghost use Rattle.pg_event.specs.Spelling.{AreMoments};

use crate::recent_lookups::RecentLookups;
use pg_entry::{Cfg, Entry, Kind, Level, classify, has_bit, page_offset, table_of};
use pg_event::{Moments, entry_address};
use pg_search::Seen;

/// A walk from level 4 down to the first entry that refers to no table.
#[derive(Clone, Copy)]
pub(crate) struct Walk {
    /// When each entry is read.
    pub moments: Moments,
    /// The physical addresses of the entries that are read.
    pub words: [u64; 4],
    /// The entry that is read last.
    pub last: Entry,
    /// The first moment from which on all entries stand as they are read.
    pub since: u32,
}

const LEVELS: [Level; 4] = [Level::Four, Level::Three, Level::Two, Level::One];

/// The moment at a place of a list, or where the list has ended the one that comes next.
fn moment_at(front: &[u32], i: usize, next: u32) -> u32 {
    match front.get(i) {
        Some(moment) => *moment,
        None => next,
    }
}

/// The moments and one more, if there is room.
pub(crate) fn and_then(moments: Moments, moment: u32) -> Moments {
    match moments.with(moment) {
        Some(more) => more,
        None => moments,
    }
}

/// The last moment of a list.
pub(crate) fn last_of(moments: &Moments) -> u32 {
    let all = moments.as_slice();
    all[all.len() - 1]
}

/// The first moments of a list, at least one of them.
pub(crate) fn first_moments(moments: &Moments, count: usize) -> Moments {
    let all = moments.as_slice();
    let mut first = Moments::first(all[0]);
    for moment in &all[1..] {
        if first.len() < count {
            first = and_then(first, *moment);
        }
    }
    first
}

/// The first three moments of a list, none of them later than this one.
pub(crate) fn tables_up_to(moments: &Moments, moment: u32) -> Moments {
    let all = moments.as_slice();
    let mut tables = Moments::first(all[0].min(moment));
    for other in &all[1..] {
        if tables.len() < 3 {
            tables = and_then(tables, moment.min(*other));
        }
    }
    tables
}

/// The walk of a processor for an address that reads its first entries at these moments, and what
/// comes below at one moment.
pub(crate) fn walk_by(
    seen: &Seen<'_>,
    recent: &mut RecentLookups,
    p: u16,
    la: u64,
    front: &[u32],
    moment: u32,
) -> Walk
    requires { p < length seen.now.head.processors }
{
    let cfg = seen.header().cfg;
    let mut at = moment_at(front, 0, moment);
    let mut table = recent.root_at(seen, p, at);
    let mut moments = Moments::first(at);
    let mut words = [0; 4];
    let mut last = Entry(0);
    let mut since = 0;
    for i in 0..4 {
        at = moment_at(front, i, moment);
        if i > 0 {
            moments = and_then(moments, at);
        }
        words[i] = entry_address(table, LEVELS[i], la);
        let (value, from) = recent.word_at(seen, at, words[i]);
        last = Entry(value);
        since = since.max(from);
        if !matches!(classify(cfg, LEVELS[i], last), Kind::Table { .. }) {
            break;
        }
        table = table_of(cfg.m, last);
    }
    Walk {
        moments,
        words,
        last,
        since,
    }
}

/// Whether a walk of a processor makes a global translation, if it makes one.
pub(crate) fn is_global(seen: &Seen<'_>, p: u16, walk: &Walk) -> bool
    requires { p < length seen.now.head.processors }
{
    seen.is_global(p, has_bit(walk.last.0, 8), last_of(&walk.moments))
}

/// The physical address that a walk gives for a linear one, if it comes to a page.
pub(crate) fn address_by(seen: &Seen<'_>, walk: &Walk, la: u64) -> Option<u64> {
    let level = LEVELS[walk.moments.len() - 1];
    match classify(seen.header().cfg, level, walk.last) {
        Kind::Leaf { frame, shift, .. } => Some(frame | page_offset(la, shift)),
        Kind::Absent | Kind::Reserved | Kind::Table { .. } => None,
    }
}

/// The numbers of a list of moments are within their field.
fn numbers_fit(numbers: &[u32])
    ensures { AllByRecursion (λ w. w < 2 ^ 32) numbers.now }
{
    let _count = numbers.len();
}

/// A list of moments is one that an event may name. It does nothing: its contract is the fact.
pub(crate) fn moments_fit(moments: Moments)
    ensures { AreMoments moments }
{
    numbers_fit(moments.as_slice());
}
