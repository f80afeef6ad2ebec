ghost use Rattle.std.specs.Prelude.{◌≡◌, ◌+◌, ◌-◌, ◌*◌, ◌/◌, ◌%◌, ◌<◌, ◌≤◌, ◌^◌, ℕ, Option, List};
ghost use Rattle.std.specs.Prelude.{OnOk, OnErr, length, slice_index_or, Some, None};
ghost use Rattle.pg_entry.specs.declared.Level.TheVariants as levels;
ghost use Rattle.pg_event.specs.Invalidation.{level_shift};
ghost use Rattle.pg_shadow.specs.declared.slot.KeptEntry.TheVariants.{Neither};
ghost use Rattle.pg_shadow.specs.Pages.{place_of, page_at, no_page, IsBarePage};
ghost use Rattle.pg_shadow.specs.Spaces.{slot_in, path_in, Keeps, IsSame, IsForgotten};
ghost use Rattle.pg_shadow.specs.Spaces.{IsBared, nothing, IsAbove, HasPage};
ghost use Rattle.pg_shadow.specs.Slots.{no_slot};

use crate::page::{Page, Place};
use crate::slot::{KeptEntry, Path};
use pg_entry::Level;
use pg_event::bits_from;
use pg_timeline::Probes;
use std::alloc::{AllocError, Global};
use std::marker::Model;

/// What is kept under one PCID, or for all of them: a tree of pages, of which the first is that of
/// level 4.
#[derive(Drop)]
pub(crate) struct Space {
    alloc: Global,
    pages: Vec<Page>,
}

impl Model for Space {
    ghost use Rattle.std.specs.Prelude.{List};
    ghost use Rattle.pg_shadow.specs.Pages.{Sheet, IsTree};

    ghost Value = { List Sheet };

    ghost view = { λ a. a.pages.items };

    ghost invariant = { λ a. IsTree a.pages.items };
}

/// Gives up the tables of pages.
fn bare_pages(pages: &mut [Page])
    ensures { (j : ℕ) → IsBarePage
        (slice_index_or pages.old j no_page) (slice_index_or pages.new j no_page) }
{
    for j in 0..pages.len() {
        let page = &mut pages[j];
        page.bare();
    }
}

/// The index into a page of a number of its level.
fn index_of(number: u64) -> usize
    ensures value { result ≡ number % 512 }
    ensures within { result < 512 }
{
    (number % 512) as usize
}

impl Space {
    /// Nothing.
    pub(crate) fn new(alloc: Global) -> Space
        ensures { result ≡ nothing }
    {
        Space {
            alloc,
            pages: Vec::new(alloc),
        }
    }

    /// What stands in a page for a number of its level.
    fn read(&self, page: Option<usize>, number: u64, probes: &mut Probes) -> Place
        ensures value { result ≡ place_of self.now page (number % 512) }
        ensures probes { (probes.old ≤ probes.new) × (probes.new ≤ probes.old + 1) }
    {
        match page {
            Some(j) => match self.pages.get(j) {
                Some(page) => page.read(index_of(number), probes),
                None => Place::EMPTY,
            },
            None => Place::EMPTY,
        }
    }

    /// The slots that a walk for a linear address meets.
    pub(crate) fn path(&self, la: u64, probes: &mut Probes) -> Path
        ensures value { result ≡ path_in self.now la }
        ensures probes { (probes.old ≤ probes.new) × (probes.new ≤ probes.old + 4) }
    {
        let four = self.read(Some(0), bits_from(39, la), probes);
        let three = self.read(four.below, bits_from(30, la), probes);
        let two = self.read(three.below, bits_from(21, la), probes);
        let one = self.read(two.below, bits_from(12, la), probes);
        Path {
            four: four.slot,
            three: three.slot,
            two: two.slot,
            one: one.slot,
        }
    }

    /// The page of level 4, which may be the first.
    fn page_four(&mut self) -> Result<usize, AllocError>
        ensures { HasPage self.old self.new levels.Four 0 result }
    {
        if self.pages.is_empty() {
            self.pages.push(Page::new(self.alloc, Level::Four, 0)?)?;
        }
        Ok(0)
    }

    fn page_three(&mut self, prefix: u64) -> Result<usize, AllocError>
        requires { prefix < 2 ^ 9 }
        ensures { HasPage self.old self.new levels.Three prefix result }
    {
        let four = self.page_four()?;
        self.page_below(four, Level::Three, prefix)
    }

    fn page_two(&mut self, prefix: u64) -> Result<usize, AllocError>
        requires { prefix < 2 ^ 18 }
        ensures { HasPage self.old self.new levels.Two prefix result }
    {
        let three = self.page_three(prefix / 512)?;
        self.page_below(three, Level::Two, prefix)
    }

    fn page_one(&mut self, prefix: u64) -> Result<usize, AllocError>
        requires { prefix < 2 ^ 27 }
        ensures { HasPage self.old self.new levels.One prefix result }
    {
        let two = self.page_two(prefix / 512)?;
        self.page_below(two, Level::One, prefix)
    }

    /// The page of a level that is reached through a page of the level above, and may be new.
    fn page_below(&mut self, above: usize, level: Level, prefix: u64) -> Result<usize, AllocError>
        requires parent { IsAbove self.old level prefix above }
        requires low { prefix < 2 ^ 40 }
        ensures { HasPage self.old self.new level prefix result }
    {
        match self.read(Some(above), prefix, &mut Probes::new()).below {
            Some(j) => Ok(j),
            None => {
                let j = self.pages.len();
                self.pages.push(Page::new(self.alloc, level, prefix)?)?;
                let parent = &mut self.pages[above];
                parent.link(index_of(prefix), j);
                Ok(j)
            }
        }
    }

    /// The page that holds a number of a level, and may be new.
    fn page_for(&mut self, level: Level, number: u64) -> Result<usize, AllocError>
        requires { number < 2 ^ (48 - level_shift level) }
        ensures { HasPage self.old self.new level (number / 512) result }
    {
        match level {
            Level::Four => self.page_four(),
            Level::Three => self.page_three(number / 512),
            Level::Two => self.page_two(number / 512),
            Level::One => self.page_one(number / 512),
        }
    }

    /// The page that holds a number of a level, if it was made; at level 4 page 0 all the same.
    fn page_of(&self, level: Level, number: u64) -> Option<usize>
        requires { number < 2 ^ (48 - level_shift level) }
        ensures { result ≡ page_at self.now level (number / 512) }
    {
        match level {
            Level::Four => Some(0),
            Level::Three => self.below(Some(0), number / 512),
            Level::Two => {
                let three = self.below(Some(0), number / 512 / 512);
                self.below(three, number / 512)
            }
            Level::One => {
                let three = self.below(Some(0), number / 512 / 512 / 512);
                let two = self.below(three, number / 512 / 512);
                self.below(two, number / 512)
            }
        }
    }

    /// The page that is reached through a page for a number of its level.
    fn below(&self, page: Option<usize>, number: u64) -> Option<usize>
        ensures { result ≡ (place_of self.now page (number % 512)).below }
    {
        self.read(page, number, &mut Probes::new()).below
    }

    /// The page that holds a number of a level. Takes memory only where it was not made.
    fn page_to_keep(&mut self, level: Level, number: u64) -> Result<usize, AllocError>
        requires { number < 2 ^ (48 - level_shift level) }
        ensures page { HasPage self.old self.new level (number / 512) result }
        ensures refused { OnErr result (slot_in self.old level number ≡ no_slot) }
    {
        match self.page_of(level, number) {
            None => self.page_for(level, number),
            Some(j) => {
                if j < self.pages.len() {
                    Ok(j)
                } else {
                    self.page_for(level, number)
                }
            }
        }
    }

    /// Keeps an entry in a slot. Fails where memory is refused, and then nothing is kept; none is
    /// taken where the slot has an entry.
    pub(crate) fn keep(
        &mut self,
        level: Level,
        number: u64,
        kept: &KeptEntry,
    ) -> Result<(), AllocError>
        requires { number < 2 ^ (48 - level_shift level) }
        ensures ok { OnOk result (Keeps self.old self.new level number kept.now) }
        ensures refused { OnErr result (slot_in self.old level number ≡ no_slot) }
        ensures err { OnErr result (IsSame self.old self.new) }
    {
        let j = self.page_to_keep(level, number)?;
        let page = &mut self.pages[j];
        page.keep(index_of(number), kept);
        Ok(())
    }

    /// Empties a slot.
    fn empty(&mut self, level: Level, number: u64)
        requires { number < 2 ^ (48 - level_shift level) }
        ensures { Keeps self.old self.new level number Neither }
    {
        match self.page_of(level, number) {
            None => {}
            Some(j) => {
                if j < self.pages.len() {
                    let page = &mut self.pages[j];
                    page.keep(index_of(number), &KeptEntry::Neither);
                }
            }
        }
    }

    /// Gives up what stands on the path of a linear address.
    pub(crate) fn forget(&mut self, la: u64)
        ensures { IsForgotten la self.old self.new }
    {
        self.empty(Level::Four, bits_from(39, la));
        self.empty(Level::Three, bits_from(30, la));
        self.empty(Level::Two, bits_from(21, la));
        self.empty(Level::One, bits_from(12, la));
    }

    /// Gives up all tables.
    pub(crate) fn bare(&mut self)
        ensures { IsBared self.old self.new }
    {
        bare_pages(&mut self.pages);
    }

    /// Gives up everything, and its memory.
    pub(crate) fn clear(&mut self)
        ensures { self.new ≡ nothing }
    {
        self.pages = Vec::new(self.alloc);
    }
}
