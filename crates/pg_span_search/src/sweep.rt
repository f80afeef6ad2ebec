//! All walks that may witness an event: in the order so far, by its moments, or in any order, by
//! the slots of its processor.

use crate::asked::Asked;
use crate::drops::{Range, StructureDrops};
use crate::facts::Facts;
use crate::looked::Looked;
use crate::made::Made;
use crate::numbers::NEVER;
use crate::ranges::Area;
use crate::stays::{Stay, last_in, next_in};
use crate::versions::{Version, made_versions, possible_versions};
use pg_entry::{Entry, Kind, Level, Rights, combine};
use pg_event::{level_shift, may_cache};
use std::alloc::{AllocError, Global};
use std::mem;

/// What is looked at: slots of a processor in any order, or moments of the order so far.
#[derive(Clone, Copy)]
pub(crate) struct View<'v> {
    pub facts: &'v Facts<'v>,
    pub made: &'v Made,
    /// Whether it is the order so far.
    pub is_made: bool,
}

impl<'v> View<'v> {
    pub(crate) fn slot(&self, p: u16, time: u32) -> u32 {
        if self.is_made {
            self.made.slot(self.facts, p, time)
        } else {
            time
        }
    }

    pub(crate) fn start(&self, p: u16, slot: u32) -> u32 {
        if self.is_made {
            self.made.start(self.facts, p, slot)
        } else {
            slot
        }
    }

    pub(crate) fn end(&self, p: u16, slot: u32) -> u32 {
        if self.is_made {
            self.made.end(self.facts, p, slot)
        } else {
            slot
        }
    }
}

/// A word as it was read.
#[derive(Clone, Copy)]
pub(crate) struct Reading {
    /// The number of the word, or `NEVER` where nothing writes it.
    pub word: u32,
    pub writer: u32,
    pub assist: u32,
    pub from: u32,
    pub to: u32,
}

const NO_READING: Reading = Reading {
    word: NEVER,
    writer: NEVER,
    assist: NEVER,
    from: 0,
    to: 0,
};

/// The table that a walk goes on in, and when it may.
#[derive(Clone, Copy)]
struct Spell {
    table: u64,
    rights: Rights,
    from: u32,
    to: u32,
    /// Events below it are surely before what was read.
    bound: u32,
    count: usize,
    readings: [Reading; 4],
}

/// A walk that may witness the event.
#[derive(Clone, Copy)]
pub(crate) struct Hit {
    pub count: usize,
    pub readings: [Reading; 4],
    pub value: u64,
    pub rights: Rights,
    pub level: Level,
    pub is_global: bool,
    pub pcid: u16,
}

/// Lists that one search of walks after another uses, so that each need not take memory anew.
#[derive(Drop)]
pub(crate) struct Scratch {
    over: Vec<Spell>,
    under: Vec<Spell>,
    versions: Vec<Version>,
}

impl Scratch {
    pub(crate) fn new(alloc: Global) -> Scratch {
        Scratch {
            over: Vec::new(alloc),
            under: Vec::new(alloc),
            versions: Vec::new(alloc),
        }
    }
}

/// How much is looked at.
#[derive(Clone, Copy)]
pub(crate) struct Limits {
    /// The most windows between drops, of each PCID.
    pub windows: u32,
    /// The most walks that are told.
    pub hits: usize,
    /// Whether walks are told apart by what they read, and not only by where they lead.
    pub is_each: bool,
}

/// So many tables are gone on in at a level.
const MOST_SPELLS: usize = 400;

const LEVELS: [Level; 4] = [Level::Four, Level::Three, Level::Two, Level::One];

/// A search of walks.
#[derive(Drop)]
pub(crate) struct Sweep<'v> {
    view: View<'v>,
    asked: &'v Asked,
    limits: Limits,
    pcid: u16,
    /// For each size of page the first slot from which on a translation lasts up to the event, and
    /// a global one, once they were looked up.
    lows: Option<[(u32, u32); 3]>,
    /// Whether the window is looked at that lasts up to the event.
    is_newest: bool,
    /// When structure entries of the PCID are dropped.
    drops: StructureDrops<'v>,
    /// The stays under the PCID in the window that is looked at, of which no part lies outside but
    /// of the first and the last.
    stays: &'v [Stay],
    /// The last slot of the window, and its end.
    last: u32,
    end: u32,
    over: Vec<Spell>,
    under: Vec<Spell>,
    versions: Vec<Version>,
    pub hits: Vec<Hit>,
    /// The words that were read.
    pub looked: Looked,
    /// Whether all was looked at.
    pub is_whole: bool,
    /// So many events were looked at one by one for what they drop.
    pub looks: u32,
}

/// Whether what was written to a word was surely overwritten before a source of what was read above
/// it.
fn is_dead_above(facts: &Facts<'_>, word: u32, writer: u32, source: u32) -> bool {
    source != NEVER && facts.is_dead_before(word, writer, source)
}

impl<'v> Sweep<'v> {
    pub(crate) fn new(
        alloc: Global,
        view: View<'v>,
        asked: &'v Asked,
        limits: Limits,
        looked: Looked,
    ) -> Sweep<'v> {
        Sweep {
            view,
            asked,
            limits,
            pcid: asked.control.pcid,
            lows: None,
            is_newest: true,
            drops: view
                .facts
                .drops
                .structures(asked.p, asked.control.pcid, asked.la),
            stays: &[],
            last: 0,
            end: 0,
            over: Vec::new(alloc),
            under: Vec::new(alloc),
            versions: Vec::new(alloc),
            hits: Vec::new(alloc),
            looked,
            is_whole: true,
            looks: 0,
        }
    }

    /// Changes its lists for those of a search before, and after it back.
    pub(crate) fn swap_lists(&mut self, scratch: &mut Scratch) {
        mem::swap(&mut self.over, &mut scratch.over);
        mem::swap(&mut self.under, &mut scratch.under);
        mem::swap(&mut self.versions, &mut scratch.versions);
    }

    fn is_done(&self) -> bool {
        self.hits.len() >= self.limits.hits
    }

    /// The first slot of the window that ends at a slot: structure entries of level 2 last from it.
    fn window_from(&mut self, slot: u32) -> u32 {
        let least = self.drops.from(Level::Two, slot);
        if self.drops.is_wide() {
            return least;
        }
        let range = Range::Page(self.pcid, Level::Two);
        let Asked { p, la, .. } = *self.asked;
        let facts = self.view.facts;
        facts.wide_from(Area { p, range, la }, least, slot, &mut self.looks)
    }

    /// All walks that end between the last drop and the event, or under any PCID where its page is
    /// global.
    pub(crate) fn run(&mut self) -> Result<(), AllocError> {
        let Asked { slot, control, .. } = *self.asked;
        let from = self.window_from(slot);
        self.window(from, slot)?;
        if !self.asked.is_page() {
            return Ok(());
        }
        self.is_newest = false;
        if self.is_done() || self.limits.windows < 2 {
            return Ok(());
        }
        if from > 0 {
            self.windows(from - 1)?;
        }
        if control.pge {
            self.others()?;
        }
        Ok(())
    }

    /// The windows under other PCIDs, in which global pages may have been found.
    fn others(&mut self) -> Result<(), AllocError> {
        let view = self.view;
        let Asked {
            p,
            slot,
            control,
            la,
            ..
        } = *self.asked;
        let mut lows = self.all_lows();
        for low in lows.iter_mut() {
            low.0 = NEVER;
        }
        self.lows = Some(lows);
        for pcid in view.facts.stays.pcids(p) {
            if *pcid != control.pcid && !self.is_done() {
                self.pcid = *pcid;
                self.drops = view.facts.drops.structures(p, *pcid, la);
                self.windows(slot)?;
            }
        }
        Ok(())
    }

    /// For each size of page the first slot from which on a translation lasts up to the event.
    fn all_lows(&mut self) -> [(u32, u32); 3] {
        if let Some(lows) = self.lows {
            return lows;
        }
        let Asked {
            p,
            slot,
            control,
            la,
            ..
        } = *self.asked;
        let facts = self.view.facts;
        let lows = facts.translations_from(p, control, la, slot, &mut self.looks);
        self.lows = Some(lows);
        lows
    }

    fn low(&mut self, level: Level, is_global: bool) -> u32 {
        let lows = self.all_lows();
        let i = match level {
            Level::One => 0,
            Level::Two => 1,
            Level::Three | Level::Four => 2,
        };
        if is_global { lows[i].1 } else { lows[i].0 }
    }

    /// The windows between drops under a PCID up to a slot, the latest first.
    fn windows(&mut self, slot: u32) -> Result<(), AllocError> {
        let pcid = self.pcid;
        let Asked { p, .. } = *self.asked;
        let view = self.view;
        let lows = self.all_lows();
        let least = lows
            .iter()
            .fold(NEVER, |least, low| least.min(low.0).min(low.1));
        let mut last = slot;
        for _ in 0..self.limits.windows {
            match view.facts.stays.last(p, pcid, last) {
                Some(end) if end >= least => {
                    let from = self.window_from(end);
                    self.window(from, end)?;
                    if self.is_done() || from == 0 {
                        return Ok(());
                    }
                    last = from - 1;
                }
                _ => return Ok(()),
            }
        }
        self.is_whole = false;
        Ok(())
    }

    /// The walks between two slots, between which no structure entries of level 2 are dropped.
    fn window(&mut self, first: u32, last: u32) -> Result<(), AllocError> {
        let view = self.view;
        let p = self.asked.p;
        self.last = last;
        self.end = view.end(p, last);
        self.over.clear();
        let stays = view.facts.stays.of(p, self.pcid);
        let skipped = stays.partition_point(|stay| stay.last < first);
        let stays = stays.get(skipped..).unwrap_or(&[]);
        let count = stays.iter().take_while(|stay| stay.first <= last).count();
        self.stays = stays.get(..count).unwrap_or(&[]);
        for stay in self.stays {
            self.over.push(Spell {
                table: stay.root,
                rights: Rights::ALL,
                from: view.start(p, stay.first.max(first)),
                to: view.end(p, stay.last.min(last)),
                bound: 0,
                count: 0,
                readings: [NO_READING; 4],
            })?;
        }
        for level in LEVELS {
            self.under.clear();
            for i in 0..self.over.len() {
                if let Some(spell) = self.over.get(i).copied() {
                    self.read(level, &spell)?;
                }
                if self.is_done() {
                    return Ok(());
                }
            }
            mem::swap(&mut self.over, &mut self.under);
        }
        Ok(())
    }

    /// Reads a level's entry, in all ways in which it may have been.
    fn read(&mut self, level: Level, spell: &Spell) -> Result<(), AllocError> {
        let view = self.view;
        let address = spell.table | ((self.asked.la >> level_shift(level)) % 512) << 3;
        if view.is_made && self.is_newest {
            self.looked.note(address);
        }
        self.versions.clear();
        let times = (spell.from, spell.to);
        let word = match view.facts.writes.id(address) {
            None => {
                let start = Version {
                    value: 0,
                    from: 0,
                    to: NEVER - 1,
                    writer: NEVER,
                    assist: NEVER,
                };
                self.versions.push(start)?;
                NEVER
            }
            Some(word) => {
                if view.is_made {
                    made_versions(view.made, word, times, &mut self.versions)?;
                } else {
                    possible_versions(view.facts, self.asked.p, word, times, &mut self.versions)?;
                }
                word
            }
        };
        for i in 0..self.versions.len() {
            if let Some(version) = self.versions.get(i).copied() {
                self.read_version(level, spell, address, word, &version)?;
            }
            if self.is_done() {
                return Ok(());
            }
        }
        Ok(())
    }

    /// A walk that reads an entry so.
    fn hit_of(&self, level: Level, spell: &Spell, word: u32, version: Version) -> Hit {
        let Version {
            value,
            from,
            to,
            writer,
            assist,
        } = version;
        let mut hit = Hit {
            count: spell.count.saturating_add(1),
            readings: spell.readings,
            value,
            rights: combine(spell.rights, Entry(value)),
            level,
            is_global: false,
            pcid: self.pcid,
        };
        if let Some(reading) = hit.readings.get_mut(spell.count) {
            *reading = Reading {
                word,
                writer,
                assist,
                from,
                to,
            };
        }
        hit
    }

    /// Whether what was written was surely overwritten before what was read above it was written.
    fn is_dead(&self, spell: &Spell, word: u32, writer: u32) -> bool {
        let View { facts, is_made, .. } = self.view;
        if is_made {
            return false;
        }
        if facts.is_dead_below(word, writer, spell.bound) {
            return true;
        }
        !facts.sure.is_none()
            && spell
                .readings
                .iter()
                .take(spell.count)
                .any(|above| is_dead_above(facts, word, writer, above.writer))
    }

    fn read_version(
        &mut self,
        level: Level,
        spell: &Spell,
        address: u64,
        word: u32,
        version: &Version,
    ) -> Result<(), AllocError> {
        let view = self.view;
        let from = version.from.max(spell.from);
        let to = version.to.min(spell.to);
        if from > to || self.is_dead(spell, word, version.writer) {
            return Ok(());
        }
        let hit = self.hit_of(
            level,
            spell,
            word,
            Version {
                from,
                to,
                ..*version
            },
        );
        let value = version.value;
        let kind = view.facts.kind(level, value);
        if self.asked.is_page() {
            self.take_page(spell.count, kind, hit)?;
        } else {
            self.take_now(spell.count, address, kind, hit)?;
        }
        match kind {
            Kind::Table { addr } if may_cache(view.facts.version, Entry(value)) => {
                self.go_down(level, spell, addr, &hit)
            }
            _ => Ok(()),
        }
    }

    /// Takes a walk to a page, if it is what the event asks for and lasts up to it.
    fn take_page(&mut self, i: usize, kind: Kind, mut hit: Hit) -> Result<(), AllocError> {
        let view = self.view;
        let asked = self.asked;
        if !asked.suits(view.facts, hit.value, kind, hit.rights) {
            return Ok(());
        }
        let Kind::Leaf { global_bit, .. } = kind else {
            return Ok(());
        };
        // A change of PGE drops all, so that it is as it is at the event.
        hit.is_global = global_bit && asked.control.pge;
        let low = self.low(hit.level, hit.is_global);
        let Some(reading) = hit.readings.get(i).copied() else {
            return Ok(());
        };
        let slot = view.slot(asked.p, reading.to);
        let Some(last) = last_in(self.stays, slot) else {
            return Ok(());
        };
        let to = if last == slot {
            reading.to
        } else {
            view.end(asked.p, last)
        };
        let from = view.start(asked.p, low).max(reading.from);
        if low == NEVER || from > to {
            return Ok(());
        }
        if let Some(place) = hit.readings.get_mut(i) {
            *place = Reading {
                from,
                to,
                ..reading
            };
        }
        self.hits.push(hit)?;
        Ok(())
    }

    /// Takes a walk to an entry that is read at the event itself.
    fn take_now(
        &mut self,
        i: usize,
        address: u64,
        kind: Kind,
        mut hit: Hit,
    ) -> Result<(), AllocError> {
        let view = self.view;
        let asked = self.asked;
        let now = view.end(asked.p, asked.slot);
        let Some(reading) = hit.readings.get(i).copied() else {
            return Ok(());
        };
        if reading.to < now || !asked.suits_now(view.facts, address, kind, hit.rights) {
            return Ok(());
        }
        let since = view.facts.since(asked.event);
        if !view.is_made
            && view
                .facts
                .is_dead_below(reading.word, reading.writer, since)
        {
            return Ok(());
        }
        if !view.is_made
            && !view.facts.sure.is_none()
            && view
                .facts
                .is_dead_before(reading.word, reading.writer, asked.event)
        {
            return Ok(());
        }
        if let Some(place) = hit.readings.get_mut(i) {
            place.from = now;
        }
        self.hits.push(hit)?;
        Ok(())
    }

    /// The first time from one on at which the processor has the PCID, and its slot.
    fn next_stay(&self, time: u32) -> Option<(u32, u32)> {
        let view = self.view;
        let p = self.asked.p;
        let slot = view.slot(p, time);
        match next_in(self.stays, slot) {
            stay if stay == NEVER => None,
            stay if stay == slot => Some((time, stay)),
            stay => Some((view.start(p, stay), stay)),
        }
    }

    /// Until when a structure entry of a slot lasts: those of level 2, and all that is dropped with
    /// them, up to the end of the window.
    fn lasts_to(&mut self, level: Level, slot: u32) -> u32 {
        let pcid = self.pcid;
        let range = match level {
            Level::Four => Range::Top(pcid),
            Level::Three => Range::Page(pcid, level),
            Level::Two | Level::One => return self.end,
        };
        let view = self.view;
        let Asked { p, la, .. } = *self.asked;
        let drop = if self.drops.is_wide() {
            self.drops.to(level, slot)
        } else {
            let area = Area { p, range, la };
            view.facts.wide_to(area, slot, self.last, &mut self.looks)
        };
        if drop >= self.last {
            self.end
        } else {
            view.end(p, drop).min(self.end)
        }
    }

    /// Goes on in a table, from each stay of the PCID on in which its entry was read.
    fn go_down(
        &mut self,
        level: Level,
        spell: &Spell,
        table: u64,
        hit: &Hit,
    ) -> Result<(), AllocError> {
        let Some(read) = hit.readings.get(spell.count).copied() else {
            return Ok(());
        };
        let mut time = read.from;
        for _ in 0..=read.to.saturating_sub(read.from) {
            let Some((from, slot)) = self.next_stay(time) else {
                break;
            };
            if from > read.to {
                break;
            }
            let to = self.lasts_to(level, slot);
            let bound = self.bound_of(spell.bound, &read);
            let mut hit = *hit;
            if let Some(reading) = hit.readings.get_mut(spell.count) {
                reading.from = from;
                reading.to = read.to.min(to);
            }
            self.push_under(Spell {
                table,
                rights: hit.rights,
                from,
                to,
                bound,
                count: hit.count,
                readings: hit.readings,
            })?;
            if to >= read.to {
                break;
            }
            time = to.saturating_add(1);
        }
        Ok(())
    }

    /// Events below it are surely before what was read so far.
    fn bound_of(&self, above: u32, read: &Reading) -> u32 {
        // (Another assist may have set the same flags.)
        if read.writer == NEVER || self.view.is_made {
            return above;
        }
        above.max(self.view.facts.since(read.writer))
    }

    /// Whether one is known that leads as far.
    fn is_known(&self, spell: &Spell) -> bool {
        self.under.iter().any(|known| {
            known.table == spell.table
                && known.rights == spell.rights
                && known.to == spell.to
                && known.from <= spell.from
                && known.bound <= spell.bound
        })
    }

    fn push_under(&mut self, spell: Spell) -> Result<(), AllocError> {
        if !self.limits.is_each && self.is_known(&spell) {
            return Ok(());
        }
        if self.under.len() >= MOST_SPELLS {
            self.is_whole = false;
            return Ok(());
        }
        self.under.push(spell)?;
        Ok(())
    }
}
