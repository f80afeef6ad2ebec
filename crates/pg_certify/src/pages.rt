//! Moments that were found for pages, by a key of each. Nothing is claimed of them.

use std::alloc::Global;
use std::collections::HashMap;

/// No event has this number, so that it is no moment.
pub(crate) const NO_MOMENT: u32 = u32::MAX;

/// What was found for a page of which nothing is kept.
pub(crate) const NOTHING: [u32; 4] = [NO_MOMENT; 4];

/// What was found for a page, at the place of its key.
#[derive(Clone, Copy)]
struct Slot {
    key: u64,
    found: [u32; 4],
    /// Whether the map does not have it yet.
    is_new: bool,
}

/// No page has this key.
const NO_KEY: u64 = u64::MAX;

const NO_SLOT: Slot = Slot {
    key: NO_KEY,
    found: NOTHING,
    is_new: false,
};

/// So many pages that follow each other have their slots side by side.
const GROUP: u64 = 8;

/// The binary logarithm of the number of groups that have slots, once pages are many.
const GROUP_BITS: u32 = 12;

/// So many slots there are then, of 32 bytes each.
const SLOTS: usize = 32_768;

/// So many there are before.
const FEW_SLOTS: usize = 4_096;

/// Pages are many once so many stand in the map, since others have their slots.
const MANY: usize = 1_024;

/// An odd number whose multiples by the numbers from 0 on, cut to 64 bits, lie evenly apart.
const SPREAD: u64 = 0x9e37_79b9_7f4a_7c15;

/// What was found last for each page. That of pages that were asked for recently stands in slots,
/// or that nothing was found, and goes to the map once another page takes the slot. A look-up in
/// the map costs as much as all else that is done for most events, and once pages are many it
/// misses the caches of a processor three times. Where memory is refused, some are not kept.
#[derive(Drop)]
pub(crate) struct Pages {
    alloc: Global,
    all: HashMap<u64, [u32; 4]>,
    slots: Vec<Slot>,
}

impl Pages {
    pub(crate) fn new(alloc: Global) -> Pages {
        Pages {
            alloc,
            all: HashMap::new(alloc),
            slots: Vec::new(alloc),
        }
    }

    /// The place of a page's slot: there are a power of two.
    #[inline(always)]
    fn place_of(&self, key: u64) -> usize {
        let group = (key / GROUP).wrapping_mul(SPREAD) >> (64 - GROUP_BITS);
        let place = group.wrapping_mul(GROUP).wrapping_add(key % GROUP) as usize;
        place & self.slots.len().wrapping_sub(1)
    }

    /// What is kept of a page, or `NOTHING`.
    #[inline(always)]
    pub(crate) fn get(&mut self, key: u64) -> [u32; 4] {
        let place = self.place_of(key);
        if let Some(slot) = self.slots.get(place) {
            if slot.key == key {
                return slot.found;
            }
        }
        self.look_up(key)
    }

    /// What is kept of a page that has no slot: it has one from now on.
    #[inline(never)]
    fn look_up(&mut self, key: u64) -> [u32; 4] {
        let found = match self.all.get(&key) {
            Some(found) => *found,
            None => NOTHING,
        };
        self.put(Slot {
            key,
            found,
            is_new: false,
        });
        found
    }

    /// Puts what a slot had into the map.
    fn save(&mut self, slot: Slot) {
        let _refused = self.all.insert(slot.key, slot.found).is_err();
    }

    /// Puts what was found for a page into its slot. What that has of another goes to the map.
    fn put(&mut self, slot: Slot) {
        let place = self.place_of(slot.key);
        let was = match self.slots.get_mut(place) {
            Some(at) => {
                let was = *at;
                *at = slot;
                was
            }
            None => slot,
        };
        if was.is_new && (was.key != slot.key || self.slots.is_empty()) {
            self.save(was);
        }
    }

    /// Puts what all slots have into the map.
    fn save_all(&mut self) {
        for place in 0..self.slots.len() {
            let slot = match self.slots.get(place) {
                Some(slot) => *slot,
                None => NO_SLOT,
            };
            if slot.is_new {
                self.save(slot);
            }
        }
    }

    /// Makes so many slots, with nothing in them.
    fn make_slots(&mut self, count: usize) {
        if let Ok(slots) = Vec::from_elem(self.alloc, NO_SLOT, count) {
            self.slots = slots;
        }
    }

    /// Sees that there are slots, and more of them once pages are many.
    fn grow(&mut self) {
        if self.slots.is_empty() {
            self.make_slots(FEW_SLOTS);
        } else if self.slots.len() < SLOTS && self.all.len() >= MANY {
            self.save_all();
            self.make_slots(SLOTS);
        }
    }

    /// Keeps what was found for a page.
    pub(crate) fn keep(&mut self, key: u64, found: [u32; 4]) {
        self.grow();
        self.put(Slot {
            key,
            found,
            is_new: true,
        });
    }

    /// Forgets what was found for a page.
    pub(crate) fn forget(&mut self, key: u64) {
        let _ = self.all.remove(&key);
        self.put(Slot {
            key,
            found: NOTHING,
            is_new: false,
        });
    }
}
