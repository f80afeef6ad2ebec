ghost use Rattle.std.specs.Prelude.{◌≡◌, ◌+◌, ◌*◌, ◌≤◌, List, length};
ghost use Rattle.pg_inval.specs.declared.log.LogEntry.{LogEntry};
ghost use Rattle.pg_inval.specs.Lists.{has_drop, has_among, has_between, IsFirstDrop};
ghost use Rattle.pg_inval.specs.Lists.{cut_log, IsRisingFrom, IsLeastBetween};
ghost use Rattle.pg_inval.specs.Lasts.{AreBounded};
ghost use Rattle.pg_inval.specs.Listed.{AreListed};

use crate::class::{Class, class_of};
use crate::key::DropKey;
use crate::lasts::Lasts;
use crate::lists::Lists;
use crate::log::LogEntry;
use crate::tally::Tally;
use pg_event::Window;
use pg_timeline::Probes;
use std::alloc::Global;

/// The lists of each class, as far as each was made.
#[derive(Drop)]
pub(crate) struct Listed {
    pages: Lists,
    large_pages: Lists,
    global_pages: Lists,
    regions: Lists,
    spaces: Lists,
}

impl Listed {
    /// Those of no entry.
    pub(crate) fn new(alloc: Global) -> Listed
        ensures { (log : List LogEntry) → AreListed log result }
    {
        Listed {
            pages: Lists::new(alloc),
            large_pages: Lists::new(alloc),
            global_pages: Lists::new(alloc),
            regions: Lists::new(alloc),
            spaces: Lists::new(alloc),
        }
    }

    /// How many of so many entries of the log each kind of list lacks.
    pub(crate) fn unlisted(&self, count: usize) -> Tally {
        Tally {
            pages: self.pages.unlisted(count),
            regions: self.regions.unlisted(count),
            wide: self.large_pages.unlisted(count),
        }
    }

    /// Goes through the rest of the log for each class but those of large and of global pages.
    /// Where memory is refused, a class stays behind.
    pub(crate) fn catch_up(&mut self, alloc: Global, log: &[LogEntry])
        requires listed { AreListed log.now self.old }
        requires rising { IsRisingFrom 0 log.now }
        ensures { AreListed log.now self.new }
    {
        self.catch_up_pages(alloc, log);
        self.catch_up_regions(alloc, log);
    }

    /// Goes through the rest of the log for large and for global pages.
    pub(crate) fn catch_up_wide(&mut self, alloc: Global, log: &[LogEntry])
        requires listed { AreListed log.now self.old }
        requires rising { IsRisingFrom 0 log.now }
        ensures { AreListed log.now self.new }
    {
        self.large_pages.catch_up(Class::LargePages, alloc, log);
        self.global_pages.catch_up(Class::GlobalPages, alloc, log);
    }

    /// Goes through the rest of the log for 4-KiB pages that are not global, and for spaces.
    pub(crate) fn catch_up_pages(&mut self, alloc: Global, log: &[LogEntry])
        requires listed { AreListed log.now self.old }
        requires rising { IsRisingFrom 0 log.now }
        ensures { AreListed log.now self.new }
    {
        self.pages.catch_up(Class::Pages, alloc, log);
        self.spaces.catch_up(Class::Spaces, alloc, log);
    }

    /// Goes through the rest of the log for paging-structure-cache entries, and for spaces.
    pub(crate) fn catch_up_regions(&mut self, alloc: Global, log: &[LogEntry])
        requires listed { AreListed log.now self.old }
        requires rising { IsRisingFrom 0 log.now }
        ensures { AreListed log.now self.new }
    {
        self.regions.catch_up(Class::Regions, alloc, log);
        self.spaces.catch_up(Class::Spaces, alloc, log);
    }

    /// Forgets the moments from one on, of which so many entries of the log are left.
    pub(crate) fn forget_from(&mut self, moment: u32, left: usize)
        ensures { (log : List LogEntry) → IsRisingFrom 0 log →
            left ≡ length (cut_log moment log) → AreListed log self.old →
            AreListed (cut_log moment log) self.new }
    {
        self.pages.forget_from(moment, left);
        self.large_pages.forget_from(moment, left);
        self.global_pages.forget_from(moment, left);
        self.regions.forget_from(moment, left);
        self.spaces.forget_from(moment, left);
    }

    /// The least moment of a key in a window. Where its last moment is before the window, neither
    /// its list nor the log is looked at.
    pub(crate) fn first_at(
        &self,
        lasts: &Lasts,
        log: &[LogEntry],
        key: DropKey,
        window: Window,
        probes: &mut Probes,
    ) -> Option<u32>
        requires bounded { AreBounded lasts.now log.now }
        requires listed { AreListed log.now self.now }
        requires rising { IsRisingFrom 0 log.now }
        ensures least { IsLeastBetween (has_drop log.now key) window.from window.to result }
        ensures probes { (probes.old ≤ probes.new) × (probes.new ≤ probes.old + 34) }
    {
        if lasts.is_over(key, window.from) {
            return None;
        }
        match class_of(key) {
            Class::Pages => self.pages.first_between(log, key, window, probes),
            Class::LargePages => self.large_pages.first_between(log, key, window, probes),
            Class::GlobalPages => self.global_pages.first_between(log, key, window, probes),
            Class::Regions => self.regions.first_between(log, key, window, probes),
            Class::Spaces => self.spaces.first_between(log, key, window, probes),
        }
    }

    /// The least moment of some keys in a window. A moment that was found ends the search of the
    /// keys after it: only an earlier one is of use.
    pub(crate) fn first_among(
        &self,
        lasts: &Lasts,
        log: &[LogEntry],
        keys: &[DropKey],
        window: Window,
        probes: &mut Probes,
    ) -> Option<u32>
        requires bounded { AreBounded lasts.now log.now }
        requires listed { AreListed log.now self.now }
        requires rising { IsRisingFrom 0 log.now }
        ensures least { IsLeastBetween (has_among log.now keys.now) window.from window.to result }
        ensures probes { (probes.old ≤ probes.new)
            × (probes.new ≤ probes.old + 34 * length keys.now) }
    {
        let mut found = None;
        for key in keys {
            let to = found.unwrap_or(window.to);
            let left = Window { to, ..window };
            found = self.first_at(lasts, log, *key, left, probes).or(found);
        }
        found
    }

    /// The least moment of some keys in a window. Where the window is empty, as between levels that
    /// were read at once, no list is searched.
    pub(crate) fn first_between(
        &self,
        lasts: &Lasts,
        log: &[LogEntry],
        keys: &[DropKey],
        window: Window,
        probes: &mut Probes,
    ) -> Option<u32>
        requires bounded { AreBounded lasts.now log.now }
        requires listed { AreListed log.now self.now }
        requires rising { IsRisingFrom 0 log.now }
        ensures first { IsFirstDrop (has_between log.now keys.now) window.from window.to result }
        ensures probes { (probes.old ≤ probes.new)
            × (probes.new ≤ probes.old + 34 * length keys.now) }
    {
        if window.from >= window.to {
            return None;
        }
        self.first_among(lasts, log, keys, window, probes)
    }
}
