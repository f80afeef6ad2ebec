//! When a processor drops what it has cached. A moment lies in one of the slots between the events
//! of its processor, and slots have the same drops in all orders.

ghost use Rattle.std.specs.Prelude.{◌≤◌};

use crate::lists::Lists;
use crate::numbers::{NEVER, after_last, first_from};
use pg_entry::{Level, Rules};
use pg_event::{Control, Event, Invalidation, bits_from, level_shift};
use std::alloc::{AllocError, Global};

/// What an event drops of the caches of its processor (Intel SDM, vol. 3, 4.10.4).
#[derive(Clone, Copy)]
enum Scope {
    All,
    /// All, or all but global translations.
    Most,
    /// Structure entries of a PCID.
    Structures(u16),
    /// Translations of a PCID that are not global.
    Space(u16),
    /// What lies in a range of addresses.
    Of(Range),
}

/// What is cached of the addresses that have the same entry at a level.
#[derive(Clone, Copy)]
pub(crate) enum Range {
    /// Structure entries of level 4 of a PCID.
    Top(u16),
    /// Translations of a PCID, and structure entries of this level. By all rules, what drops the
    /// translations alone drops all structure entries of the PCID; under fewer the search takes
    /// both for dropped where one is.
    Page(u16, Level),
    /// Global translations.
    GlobalPage(Level),
}

/// What an event drops for an address: of a PCID, and for each size of page.
#[derive(Clone, Copy)]
struct Dropped {
    pcid: u16,
    la: u64,
    /// Whether it drops structure entries of level 4 for this address alone.
    is_top: bool,
    /// Whether it drops translations that are not global.
    is_page: bool,
    /// Whether it drops global translations.
    is_global: bool,
}

/// For each processor and scope the events by which it is dropped, by their places among those of
/// the processor.
#[derive(Drop)]
pub(crate) struct Drops {
    lists: Vec<Lists>,
    /// Those of all ranges but the pages of a PCID, once they are asked for often.
    wide: Vec<Lists>,
}

const PAGES: [Level; 3] = [Level::One, Level::Two, Level::Three];

/// The number of a level, from 1.
pub(crate) fn rank_of(level: Level) -> u64
    ensures { result ≤ 4 }
{
    match level {
        Level::One => 1,
        Level::Two => 2,
        Level::Three => 3,
        Level::Four => 4,
    }
}

impl Range {
    /// The level of the entry that all its addresses have.
    fn level(self) -> Level {
        match self {
            Range::Top(_) => Level::Four,
            Range::Page(_, level) | Range::GlobalPage(level) => level,
        }
    }
}

/// What an address has in common with all others of a range.
fn prefix(range: Range, la: u64) -> u64 {
    bits_from(level_shift(range.level()), la)
}

fn key(scope: Scope, la: u64) -> u64 {
    let (kind, pcid) = match scope {
        Scope::All => (0, 0),
        Scope::Most => (1, 0),
        Scope::Structures(pcid) => (2, pcid),
        Scope::Space(pcid) => (3, pcid),
        Scope::Of(Range::Top(pcid)) => (4, pcid),
        Scope::Of(Range::Page(pcid, level)) => (7 + rank_of(level), pcid),
        Scope::Of(Range::GlobalPage(level)) => (10 + rank_of(level), 0),
    };
    let bits = match scope {
        Scope::Of(range) => prefix(range, la),
        _ => 0,
    };
    kind << 58 ^ (pcid as u64) << 36 ^ bits
}

/// What an event drops for an address alone. Without PGE there are no global translations.
fn dropped_by(event: &Event, rules: Rules, control: Control) -> Option<Dropped> {
    match event.invalidation(rules, control) {
        Invalidation::Address {
            pcid,
            la,
            structures,
            translations,
            globals,
        } => Some(Dropped {
            pcid,
            la,
            is_top: structures,
            is_page: translations,
            is_global: globals && control.pge,
        }),
        Invalidation::Page { pcid, la } => Some(Dropped {
            pcid,
            la,
            is_top: false,
            is_page: true,
            is_global: control.pge,
        }),
        Invalidation::Nothing | Invalidation::Pcid(_) | Invalidation::Everything { .. } => None,
    }
}

/// Whether an event may drop what lies in the range that an address has, whatever the control
/// registers.
pub(crate) fn may_drop(event: &Event, rules: Rules, range: Range, la: u64) -> bool {
    match dropped_by(event, rules, Control::default()) {
        Some(dropped) => prefix(range, dropped.la) == prefix(range, la),
        None => false,
    }
}

/// Whether an event drops what lies in the range that an address has.
pub(crate) fn drops_range(
    event: &Event,
    rules: Rules,
    control: Control,
    range: Range,
    la: u64,
) -> bool {
    let Some(dropped) = dropped_by(event, rules, control) else {
        return false;
    };
    let is_its = match range {
        Range::Top(pcid) => dropped.is_top && dropped.pcid == pcid,
        Range::Page(pcid, Level::One) => dropped.is_page && dropped.pcid == pcid,
        Range::Page(pcid, _) => dropped.pcid == pcid,
        Range::GlobalPage(_) => dropped.is_global,
    };
    is_its && prefix(range, dropped.la) == prefix(range, la)
}

/// So many lists of lists, of which none has a number yet.
fn no_lists(alloc: Global, count: usize) -> Result<Vec<Lists>, AllocError> {
    let mut lists = Vec::with_capacity(alloc, count)?;
    for _ in 0..count {
        lists.push(Lists::new(alloc))?;
    }
    Ok(lists)
}

fn settle_all(lists: &mut Vec<Lists>) -> Result<(), AllocError> {
    for lists in lists.iter_mut() {
        lists.settle()?;
    }
    Ok(())
}

impl Drops {
    /// Of so many processors.
    pub(crate) fn new(alloc: Global, processors: usize) -> Result<Drops, AllocError> {
        Ok(Drops {
            lists: no_lists(alloc, processors)?,
            wide: Vec::new(alloc),
        })
    }

    /// Makes the lists, once all is noted.
    pub(crate) fn settle(&mut self) -> Result<(), AllocError> {
        settle_all(&mut self.lists)
    }

    /// Whether there are lists of the other ranges.
    pub(crate) fn is_wide(&self) -> bool {
        !self.wide.is_empty()
    }

    /// Begins the lists of the other ranges.
    pub(crate) fn begin_wide(&mut self, alloc: Global) -> Result<(), AllocError> {
        self.wide = no_lists(alloc, self.lists.len())?;
        Ok(())
    }

    pub(crate) fn settle_wide(&mut self) -> Result<(), AllocError> {
        settle_all(&mut self.wide)
    }

    fn push(&mut self, p: u16, scope: Scope, la: u64, place: u32) -> Result<(), AllocError> {
        match self.lists.get_mut(p as usize) {
            Some(lists) => lists.push(key(scope, la), place),
            None => Ok(()),
        }
    }

    fn push_space(&mut self, p: u16, pcid: u16, place: u32) -> Result<(), AllocError> {
        self.push(p, Scope::Structures(pcid), 0, place)?;
        self.push(p, Scope::Space(pcid), 0, place)
    }

    fn push_page(&mut self, p: u16, pcid: u16, la: u64, place: u32) -> Result<(), AllocError> {
        self.push(p, Scope::Of(Range::Page(pcid, Level::One)), la, place)
    }

    /// Notes what an event drops, which stands at this place among those of its processor: of
    /// ranges the pages of a PCID.
    pub(crate) fn note(
        &mut self,
        p: u16,
        invalidation: Invalidation,
        place: u32,
    ) -> Result<(), AllocError> {
        match invalidation {
            Invalidation::Nothing => Ok(()),
            Invalidation::Address {
                pcid,
                la,
                translations,
                ..
            } => {
                if !translations {
                    return Ok(());
                }
                self.push_page(p, pcid, la, place)
            }
            Invalidation::Page { pcid, la } => {
                self.push_page(p, pcid, la, place)?;
                self.push(p, Scope::Structures(pcid), 0, place)
            }
            Invalidation::Pcid(pcid) => self.push_space(p, pcid, place),
            Invalidation::Everything { globals } => {
                if globals {
                    self.push(p, Scope::All, 0, place)?;
                }
                self.push(p, Scope::Most, 0, place)
            }
        }
    }

    fn push_wide(&mut self, p: u16, range: Range, la: u64, place: u32) -> Result<(), AllocError> {
        match self.wide.get_mut(p as usize) {
            Some(lists) => lists.push(key(Scope::Of(range), la), place),
            None => Ok(()),
        }
    }

    /// Notes what an event drops of the other ranges.
    pub(crate) fn note_wide(
        &mut self,
        p: u16,
        event: &Event,
        rules: Rules,
        control: Control,
        place: u32,
    ) -> Result<(), AllocError> {
        let Some(dropped) = dropped_by(event, rules, control) else {
            return Ok(());
        };
        let Dropped {
            pcid,
            la,
            is_top,
            is_global,
            ..
        } = dropped;
        if is_top {
            self.push_wide(p, Range::Top(pcid), la, place)?;
        }
        for level in PAGES {
            if level != Level::One {
                self.push_wide(p, Range::Page(pcid, level), la, place)?;
            }
            if is_global {
                self.push_wide(p, Range::GlobalPage(level), la, place)?;
            }
        }
        Ok(())
    }

    fn of(&self, p: u16, scope: Scope, la: u64) -> &[u32] {
        match self.lists.get(p as usize) {
            Some(lists) => lists.of(key(scope, la)),
            None => &[],
        }
    }

    /// When a page of a PCID is dropped.
    pub(crate) fn page(&self, p: u16, pcid: u16, la: u64) -> &[u32] {
        self.of(p, Scope::Of(Range::Page(pcid, Level::One)), la)
    }

    /// When one of the other ranges is dropped, once there are such lists.
    pub(crate) fn wide(&self, p: u16, range: Range, la: u64) -> &[u32] {
        match self.wide.get(p as usize) {
            Some(lists) => lists.of(key(Scope::Of(range), la)),
            None => &[],
        }
    }

    /// When structure entries of a PCID for an address are dropped.
    pub(crate) fn structures(&self, p: u16, pcid: u16, la: u64) -> StructureDrops<'_> {
        StructureDrops {
            most: self.of(p, Scope::Most, 0),
            space: self.of(p, Scope::Structures(pcid), 0),
            is_wide: self.is_wide(),
            four: self.wide(p, Range::Top(pcid), la),
            three: self.wide(p, Range::Page(pcid, Level::Three), la),
            two: self.wide(p, Range::Page(pcid, Level::Two), la),
        }
    }

    /// The last slot up to which a translation of a slot lasts, whatever its address; of global
    /// ones the PCID is of no account.
    pub(crate) fn all_to(&self, p: u16, pcid: u16, is_global: bool, slot: u32) -> u32 {
        if is_global {
            return first_from(self.of(p, Scope::All, 0), slot);
        }
        let most = first_from(self.of(p, Scope::Most, 0), slot);
        most.min(first_from(self.of(p, Scope::Space(pcid), 0), slot))
    }

    /// The first slot from which on a translation lasts, whatever its address.
    pub(crate) fn all_from(&self, p: u16, pcid: u16, is_global: bool, slot: u32) -> u32 {
        if is_global {
            return after_last(self.of(p, Scope::All, 0), slot);
        }
        let most = after_last(self.of(p, Scope::Most, 0), slot);
        most.max(after_last(self.of(p, Scope::Space(pcid), 0), slot))
    }
}

/// When a processor drops structure entries of a PCID for an address.
#[derive(Clone, Copy)]
pub(crate) struct StructureDrops<'d> {
    most: &'d [u32],
    space: &'d [u32],
    is_wide: bool,
    /// Of each level, where wide ranges are listed.
    four: &'d [u32],
    three: &'d [u32],
    two: &'d [u32],
}

impl<'d> StructureDrops<'d> {
    /// Whether all of them are listed here, and not only those of any address.
    pub(crate) fn is_wide(&self) -> bool {
        self.is_wide
    }

    /// Of entries of a level.
    fn prefix(&self, level: Level) -> &'d [u32] {
        match level {
            Level::Four => self.four,
            Level::Three => self.three,
            Level::Two => self.two,
            Level::One => &[],
        }
    }

    /// The first slot from which on an entry lasts up to a slot, by what is listed here.
    pub(crate) fn from(&self, level: Level, slot: u32) -> u32 {
        let most = after_last(self.most, slot);
        let space = after_last(self.space, slot);
        let prefix = after_last(self.prefix(level), slot);
        most.max(space).max(prefix)
    }

    /// The last slot up to which an entry of a slot lasts, by what is listed here for addresses.
    pub(crate) fn to(&self, level: Level, slot: u32) -> u32 {
        first_from(self.prefix(level), slot)
    }
}
