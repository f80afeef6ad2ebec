ghost use Rattle.std.specs.Prelude.{◌≡◌, ◌+◌, ◌-◌, ◌*◌, ◌<◌, ◌≤◌, ◌^◌, ℕ, min, IfOk, length};
ghost use Rattle.std.specs.Prelude.{slice_set};
ghost use Rattle.std.specs.Prelude.{slice_index_or};
ghost use Rattle.pg_shadow.specs.Slots.{with_kept};
ghost use Rattle.pg_shadow.specs.Pages.{no_place, bare_place, empty_page, IsBarePage};

use crate::slot::{KeptEntry, Slot};
use pg_entry::Level;
use pg_timeline::Probes;
use std::alloc::{AllocError, Global};
use std::marker::Model;

/// How many slots a page has.
pub(crate) const SLOTS: usize = 512;

/// A slot, and the number of the page of the level below that is reached through it.
#[derive(Clone, Copy)]
pub(crate) struct Place {
    pub slot: Slot,
    pub below: Option<usize>,
}

impl Place {
    pub const EMPTY: Place = Place {
        slot: Slot::EMPTY,
        below: None,
    };
}

/// The slots of one level for the linear addresses that agree in the bits above it.
#[derive(Drop)]
pub(crate) struct Page {
    level: Level,
    /// The bits above the level.
    prefix: u64,
    places: Vec<Place>,
    /// Tables stand from this index on, and below the other, alone.
    first: usize,
    end: usize,
}

impl Model for Page {
    ghost use Rattle.pg_shadow.specs.Pages.{Sheet, IsPage};

    ghost Value = { Sheet };

    ghost view = { λ a. record {
      level = a.level;
      prefix = a.prefix;
      places = a.places.items;
    } };

    ghost invariant = { λ a. IsPage a.prefix a.first a.end a.places.items };
}

/// Gives up the tables of the places from an index on and below another.
fn bare_places(places: &mut [Place], from: usize, to: usize)
    requires { to ≤ length places.old }
    ensures inside { (i : ℕ) → from ≤ i → i < to → slice_index_or places.new i no_place
        ≡ bare_place (slice_index_or places.old i no_place) }
    ensures below { (i : ℕ) → i < from →
        slice_index_or places.new i no_place ≡ slice_index_or places.old i no_place }
    ensures above { (i : ℕ) → to ≤ i →
        slice_index_or places.new i no_place ≡ slice_index_or places.old i no_place }
{
    for i in from..to {
        let place = &mut places[i];
        place.slot.bare();
    }
}

impl Page {
    /// A page with nothing in it.
    pub(crate) fn new(alloc: Global, level: Level, prefix: u64) -> Result<Page, AllocError>
        requires { prefix < 2 ^ 40 }
        ensures { IfOk result (λ page. page ≡ empty_page level prefix) }
    {
        let mut places = Vec::new(alloc);
        places.resize(SLOTS, Place::EMPTY)?;
        Ok(Page {
            level,
            prefix,
            places,
            first: SLOTS,
            end: 0,
        })
    }

    /// What stands at an index.
    pub(crate) fn read(&self, index: usize, probes: &mut Probes) -> Place
        requires { index < 512 }
        ensures value { result ≡ slice_index_or self.now.places index no_place }
        ensures probes { probes.new ≡ min (probes.old + 1) (2 ^ 64 - 1) }
        ensures more { probes.old ≤ probes.new }
    {
        probes.tick();
        self.places[index]
    }

    /// Keeps an entry at an index.
    pub(crate) fn keep(&mut self, index: usize, kept: &KeptEntry)
        requires { index < 512 }
        ensures full { length self.old.places ≡ 512 }
        ensures kept { let place = slice_index_or self.old.places index no_place in
            self.new ≡ record self.old {
              places = slice_set self.old.places index
                  (record place { slot = with_kept kept.now place.slot });
            } }
    {
        if let KeptEntry::Table(_) = kept {
            self.first = self.first.min(index);
            self.end = self.end.max(index + 1);
        }
        let place = &mut self.places[index];
        place.slot.keep(kept);
    }

    /// Lets a page be reached through an index.
    pub(crate) fn link(&mut self, index: usize, below: usize)
        requires { index < 512 }
        ensures full { length self.old.places ≡ 512 }
        ensures linked { let place = slice_index_or self.old.places index no_place in
            self.new ≡ record self.old {
              places = slice_set self.old.places index
                  (record place { below = Some below });
            } }
    {
        let place = &mut self.places[index];
        place.below = Some(below);
    }

    /// Gives up all tables.
    pub(crate) fn bare(&mut self)
        ensures { IsBarePage self.old self.new }
    {
        bare_places(&mut self.places, self.first, self.end);
        self.first = SLOTS;
        self.end = 0;
    }
}
