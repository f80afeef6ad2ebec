//! Up to which moment keys may have been dropped.

ghost use Rattle.std.specs.Prelude.{◌≡◌, ◌<◌, ◌≤◌, ℕ, IsTrue, true};
ghost use Rattle.pg_inval.specs.declared.key.DropKey.{DropKey};
ghost use Rattle.pg_inval.specs.Classes.{is_wide};
ghost use Rattle.pg_inval.specs.Keys.{structures_for, locals_for, globals_for, given};
ghost use Rattle.pg_inval.specs.Keys.{dropped_keys};
ghost use Rattle.pg_inval.specs.Lasts.{MayBeAt, MayHave, AreRaised, bounded_from};

use crate::class::is_wide;
use crate::key::{DropKey, global_at, local_at, structure_at};
use pg_entry::Level;
use pg_event::{Invalidation, structure_key, translation_key};
use std::alloc::Global;
use std::marker::Model;

/// So many places there are: of the two that a key has, one lies in each half.
const PLACES: usize = 131_072;

/// For each place the last moment of the keys that have it, or a later one: keys share places, and
/// what is forgotten stays. So a key has no later moment, which is told without looking it up. A
/// key has two places, by two hashes: what shares one with it rarely shares the other, and the
/// lower of the two bounds it. Where memory is refused there is no place, and nothing is told.
///
/// The keys of large and of global pages are raised only once the run may have such pages: an event
/// that drops what is of an address has five of them, which would be raised for nothing in most
/// runs, and the fewer keys are raised the fewer share a place.
#[derive(Drop)]
pub(crate) struct Lasts {
    moments: Vec<u32>,
    /// Whether the places of large and global pages are raised.
    raises_wide: bool,
    /// From this moment on they bound their keys.
    wide_from: u64,
}

impl Model for Lasts {
    ghost use Rattle.pg_inval.specs.Lasts.{Bounds};

    ghost Value = { Bounds };

    ghost view = { λ a. record { moments = a.moments.items; wide_from = a.wide_from } };
}

impl Lasts {
    /// No key has a moment above 0.
    pub(crate) fn new(alloc: Global) -> Lasts {
        match Vec::from_elem(alloc, 0, PLACES) {
            Ok(moments) => Lasts {
                moments,
                raises_wide: false,
                wide_from: 0,
            },
            Err(_) => Lasts {
                moments: Vec::new(alloc),
                raises_wide: false,
                wide_from: 0,
            },
        }
    }

    /// Whether the places of large and global pages are raised.
    pub(crate) fn raises_wide(&self) -> bool {
        self.raises_wide
    }

    /// The places of large and global pages are raised from now on.
    pub(crate) fn raise_wide_too(&mut self)
        ensures { self.new ≡ self.old }
    {
        self.raises_wide = true;
    }

    /// Whether the places of a key bound its moments from one on.
    #[inline(always)]
    fn bounds(&self, key: DropKey, from: u32) -> bool
        ensures { IsTrue result → bounded_from self.now key ≤ from }
    {
        !is_wide(key) || self.wide_from <= from as u64
    }

    /// Whether a key has no moment from one on.
    #[inline(always)]
    pub(crate) fn is_over(&self, key: DropKey, from: u32) -> bool
        ensures { IsTrue result → (m : ℕ) → MayHave self.now key m → m < from }
    {
        self.bounds(key, from)
            && (self.is_below(key.place(), from) || self.is_below(key.other_place(), from))
    }

    /// Whether no key of a place has a moment from one on.
    #[inline(always)]
    fn is_below(&self, place: usize, from: u32) -> bool
        ensures { IsTrue result → (m : ℕ) → MayBeAt self.now.moments place m → m < from }
    {
        match self.moments.get(place) {
            Some(last) => *last < from,
            None => false,
        }
    }

    /// Whether neither of two keys has a moment from one on.
    #[inline(always)]
    pub(crate) fn are_over(&self, one: DropKey, other: DropKey, from: u32) -> bool
        ensures one { IsTrue result → (m : ℕ) → MayHave self.now one m → m < from }
        ensures other { IsTrue result → (m : ℕ) → MayHave self.now other m → m < from }
    {
        self.is_over(one, from) && self.is_over(other, from)
    }

    /// A key may have this moment too.
    #[inline(always)]
    fn raise(&mut self, key: DropKey, moment: u32)
        ensures kept { (k : DropKey) (m : ℕ) → MayHave self.old k m → MayHave self.new k m }
        ensures own { MayHave self.new key moment }
    {
        self.raise_at(key.place(), moment);
        self.raise_at(key.other_place(), moment);
    }

    /// A key of a place may have this moment too.
    #[inline(always)]
    fn raise_at(&mut self, place: usize, moment: u32)
        ensures kept { (i m : ℕ) →
            MayBeAt self.old.moments i m → MayBeAt self.new.moments i m }
        ensures own { MayBeAt self.new.moments place moment }
        ensures wide { self.new.wide_from ≡ self.old.wide_from }
    {
        if place < self.moments.len() {
            self.moments[place] = self.moments[place].max(moment);
        }
    }

    /// A key of a large or of a global page may have this moment too. Where its places are not
    /// raised, they bound such keys from the next moment on alone.
    #[inline(always)]
    fn raise_wide(&mut self, key: DropKey, moment: u32)
        requires { is_wide key ≡ true }
        ensures kept { (k : DropKey) (m : ℕ) → MayHave self.old k m → MayHave self.new k m }
        ensures own { MayHave self.new key moment }
    {
        if self.raises_wide {
            self.raise(key, moment);
        } else {
            self.pass_wide(moment);
        }
    }

    /// All keys of large and of global pages may have this moment too.
    #[inline(always)]
    fn pass_wide(&mut self, moment: u32)
        ensures kept { (k : DropKey) (m : ℕ) → MayHave self.old k m → MayHave self.new k m }
        ensures wide { (k : DropKey) → is_wide k ≡ true → MayHave self.new k moment }
    {
        self.wide_from = self.wide_from.max(moment as u64 + 1);
    }

    /// What an invalidation drops that would be used for an address may have this moment too: the
    /// structure entries of a PCID.
    fn raise_structures(&mut self, p: u16, pcid: u16, la: u64, moment: u32)
        ensures { AreRaised self.old self.new (structures_for p pcid la) moment }
    {
        self.raise(
            structure_at(p, structure_key(pcid, Level::Four, la)),
            moment,
        );
        self.raise(
            structure_at(p, structure_key(pcid, Level::Three, la)),
            moment,
        );
        self.raise(structure_at(p, structure_key(pcid, Level::Two, la)), moment);
    }

    /// Its translations of the page of the address, which are not global.
    fn raise_locals(&mut self, p: u16, pcid: u16, la: u64, moment: u32)
        ensures { AreRaised self.old self.new (locals_for p pcid la) moment }
    {
        self.raise(local_at(p, translation_key(pcid, 12, false, la)), moment);
        self.raise_wide(local_at(p, translation_key(pcid, 21, false, la)), moment);
        self.raise_wide(local_at(p, translation_key(pcid, 30, false, la)), moment);
    }

    /// The global translations of that page.
    fn raise_globals(&mut self, p: u16, la: u64, moment: u32)
        ensures { AreRaised self.old self.new (globals_for p la) moment }
    {
        self.raise_wide(global_at(p, translation_key(0, 12, true, la)), moment);
        self.raise_wide(global_at(p, translation_key(0, 21, true, la)), moment);
        self.raise_wide(global_at(p, translation_key(0, 30, true, la)), moment);
    }

    /// What `raise_structures` does, where they go.
    #[inline(always)]
    fn raise_structures_if(&mut self, go: bool, p: u16, pcid: u16, la: u64, moment: u32)
        ensures { AreRaised self.old self.new (given go (structures_for p pcid la)) moment }
    {
        if go {
            self.raise_structures(p, pcid, la, moment);
        }
    }

    /// What `raise_locals` does, where they go.
    #[inline(always)]
    fn raise_locals_if(&mut self, go: bool, p: u16, pcid: u16, la: u64, moment: u32)
        ensures { AreRaised self.old self.new (given go (locals_for p pcid la)) moment }
    {
        if go {
            self.raise_locals(p, pcid, la, moment);
        }
    }

    /// What `raise_globals` does, where they go.
    #[inline(always)]
    fn raise_globals_if(&mut self, go: bool, p: u16, la: u64, moment: u32)
        ensures { AreRaised self.old self.new (given go (globals_for p la)) moment }
    {
        if go {
            self.raise_globals(p, la, moment);
        }
    }

    /// Each key that an invalidation drops may have this moment too. No list of them is made, since
    /// each event that drops something comes here.
    pub(crate) fn raise_for(&mut self, p: u16, invalidation: Invalidation, moment: u32)
        ensures { AreRaised self.old self.new (dropped_keys p invalidation) moment }
    {
        match invalidation {
            Invalidation::Nothing => {}
            Invalidation::Address {
                pcid,
                la,
                structures,
                translations,
                globals,
            } => {
                self.raise_structures_if(structures, p, pcid, la, moment);
                self.raise_locals_if(translations, p, pcid, la, moment);
                self.raise_globals_if(globals, p, la, moment);
            }
            Invalidation::Page { pcid, la } => {
                self.raise(DropKey::StructuresOf { p, pcid }, moment);
                self.raise_locals(p, pcid, la, moment);
                self.raise_globals(p, la, moment);
            }
            Invalidation::Pcid(pcid) => {
                self.raise(DropKey::StructuresOf { p, pcid }, moment);
                self.raise(DropKey::LocalsOf { p, pcid }, moment);
            }
            Invalidation::Everything { globals } => {
                self.raise(DropKey::NotGlobal { p }, moment);
                if globals {
                    self.raise(DropKey::Globals { p }, moment);
                }
            }
        }
    }
}
