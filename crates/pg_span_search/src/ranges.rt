//! When what a processor has cached of a range of addresses is dropped. The drops of the pages of a
//! PCID are listed. Those of wide ranges, and of global pages, are several times as many, but
//! seldom asked for: so they are listed only once the events were looked at one by one so often
//! that it would take longer to go on with that.

use crate::drops::{Range, drops_range, may_drop};
use crate::facts::Facts;
use crate::numbers::{NEVER, after_last, first_from};
use pg_entry::Level;
use pg_event::Control;
use std::alloc::{AllocError, Global};

/// What a processor has cached of the range that an address lies in.
#[derive(Clone, Copy)]
pub(crate) struct Area {
    pub p: u16,
    pub range: Range,
    pub la: u64,
}

impl<'a> Facts<'a> {
    /// Lists the drops of all ranges, unless they are listed.
    pub(crate) fn widen(&mut self, alloc: Global) -> Result<(), AllocError> {
        if self.drops.is_wide() {
            return Ok(());
        }
        self.drops.begin_wide(alloc)?;
        for p in 0..self.processors() {
            self.note_all_wide(p)?;
        }
        self.drops.settle_wide()
    }

    /// Notes what all events of a processor drop of ranges that are not listed yet.
    fn note_all_wide(&mut self, p: u16) -> Result<(), AllocError> {
        let run = self.run;
        let rules = run.header().cfg.rules;
        let mut control = self.control(p, 0);
        for place in 0..self.count(p) {
            let Some(event) = run.event_at(self.own(p, place).unwrap_or(NEVER)) else {
                continue;
            };
            self.drops.note_wide(p, event, rules, control, place)?;
            if event.control_change().changes_some() {
                control = self.control(p, place.saturating_add(1));
            }
        }
        Ok(())
    }

    /// Whether the event at a place among those of its processor drops a range.
    fn drops_at(&self, of: Area, place: u32) -> bool {
        let Area { p, range, la } = of;
        let rules = self.run.header().cfg.rules;
        match self.run.event_at(self.own(p, place).unwrap_or(NEVER)) {
            Some(event) if may_drop(event, rules, range, la) => {
                drops_range(event, rules, self.control(p, place), range, la)
            }
            _ => false,
        }
    }

    /// The first slot, from the least on, from which on a range is not dropped up to a slot.
    /// Counts the events that are looked at.
    pub(crate) fn wide_from(&self, of: Area, least: u32, slot: u32, looks: &mut u32) -> u32 {
        if self.drops.is_wide() {
            return after_last(self.drops.wide(of.p, of.range, of.la), slot).max(least);
        }
        for place in (least..slot.min(self.count(of.p))).rev() {
            *looks = looks.saturating_add(1);
            if self.drops_at(of, place) {
                return place.saturating_add(1);
            }
        }
        least
    }

    /// The last slot, up to the greatest, up to which a range is not dropped from a slot on.
    /// Counts the events that are looked at.
    pub(crate) fn wide_to(&self, of: Area, slot: u32, most: u32, looks: &mut u32) -> u32 {
        if self.drops.is_wide() {
            return first_from(self.drops.wide(of.p, of.range, of.la), slot).min(most);
        }
        for place in slot..most.min(self.count(of.p)) {
            *looks = looks.saturating_add(1);
            if self.drops_at(of, place) {
                return place;
            }
        }
        most
    }

    /// The first slot from which on translations of a size of page last up to a slot, and may not
    /// before the least.
    fn page_from(&self, of: Area, least: u32, slot: u32, looks: &mut u32) -> u32 {
        match of.range {
            Range::Page(pcid, Level::One) => {
                after_last(self.drops.page(of.p, pcid, of.la), slot).max(least)
            }
            Range::Top(_) | Range::Page(..) | Range::GlobalPage(_) => self.wide_from(
                of, least, slot, looks,
            ),
        }
    }

    /// The last slot up to which a translation of a slot lasts; of global ones the PCID is of no
    /// account.
    pub(crate) fn translation_to(
        &self,
        p: u16,
        page: (u16, Level, bool),
        la: u64,
        slot: u32,
        looks: &mut u32,
    ) -> u32 {
        let (pcid, level, is_global) = page;
        let range = if is_global {
            Range::GlobalPage(level)
        } else {
            Range::Page(pcid, level)
        };
        let most = self.drops.all_to(p, pcid, is_global, slot);
        if level == Level::One && !is_global {
            return first_from(self.drops.page(p, pcid, la), slot).min(most);
        }
        self.wide_to(Area { p, range, la }, slot, most, looks)
    }

    /// The first slot from which on a translation lasts, for each size of page, of translations of
    /// the PCID and of global ones, where there are such.
    pub(crate) fn translations_from(
        &self,
        p: u16,
        control: Control,
        la: u64,
        slot: u32,
        looks: &mut u32,
    ) -> [(u32, u32); 3] {
        let Control { pcid, pge, .. } = control;
        let own = self.drops.all_from(p, pcid, false, slot);
        let all = self.drops.all_from(p, pcid, true, slot);
        let mut lows = [(own, NEVER); 3];
        for (i, level) in [Level::One, Level::Two, Level::Three].iter().enumerate() {
            if let Some(low) = lows.get_mut(i) {
                let range = Range::Page(pcid, *level);
                low.0 = self.page_from(Area { p, range, la }, own, slot, looks);
                if pge {
                    let range = Range::GlobalPage(*level);
                    low.1 = self.page_from(Area { p, range, la }, all, slot, looks);
                }
            }
        }
        lows
    }
}
