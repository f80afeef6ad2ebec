//! Numbers of keys.

use crate::numbers::{NEVER, at, number};
use std::alloc::{AllocError, Global};

/// A key, and two numbers that are kept with it.
#[derive(Clone, Copy)]
pub(crate) struct Item {
    pub key: u64,
    pub first: u32,
    pub last: u32,
}

/// A table of keys, each with its number, by which it is found at once: one after another as they
/// came. What is kept with a key lies beside it, so that one look at memory gives both.
#[derive(Drop)]
pub(crate) struct Keys {
    alloc: Global,
    /// By the keys' numbers.
    items: Vec<Item>,
    /// For each slot the number of a key, or `NEVER`. A key stands in the slot that its hash gives,
    /// or in the next that was free. At most half of them are taken.
    slots: Vec<u32>,
}

/// There are so many slots at least, once there is a key.
const LEAST_SLOTS: usize = 16;

impl Keys {
    pub(crate) fn new(alloc: Global) -> Keys {
        Keys {
            alloc,
            items: Vec::new(alloc),
            slots: Vec::new(alloc),
        }
    }

    /// How many keys there are.
    pub(crate) fn len(&self) -> usize {
        self.items.len()
    }

    /// What is kept with the key that has this number.
    #[inline(always)]
    pub(crate) fn get(&self, id: u32) -> Option<&Item> {
        self.items.get(id as usize)
    }

    pub(crate) fn get_mut(&mut self, id: u32) -> Option<&mut Item> {
        self.items.get_mut(id as usize)
    }

    /// What is kept with all keys, by their numbers.
    pub(crate) fn items_mut(&mut self) -> &mut [Item] {
        self.items.as_mut_slice()
    }

    /// The slot that a key's hash gives.
    fn first_slot(&self, key: u64) -> usize {
        let mixed = key.wrapping_mul(0x9e37_79b9_7f4a_7c15) >> 32;
        (mixed.wrapping_mul(self.slots.len() as u64) >> 32) as usize
    }

    /// Whether a slot is free, or this key's.
    fn may_have(&self, id: u32, key: u64) -> bool {
        match self.items.get(id as usize) {
            Some(item) => item.key == key,
            None => true,
        }
    }

    /// The slot in which a key stands, or else in which it would.
    fn slot(&self, key: u64) -> usize {
        let mut slot = self.first_slot(key);
        for _ in 0..self.slots.len() {
            if self.may_have(at(&self.slots, number(slot)), key) {
                break;
            }
            slot = slot.saturating_add(1);
            if slot >= self.slots.len() {
                slot = 0;
            }
        }
        slot
    }

    /// The number of a key.
    pub(crate) fn find(&self, key: u64) -> Option<u32> {
        match self.slots.get(self.slot(key)) {
            Some(id) if *id != NEVER => Some(*id),
            _ => None,
        }
    }

    fn take(&mut self, slot: usize, id: u32) {
        if let Some(place) = self.slots.get_mut(slot) {
            *place = id;
        }
    }

    /// Makes twice as many slots, where half of them are taken.
    fn make_room(&mut self) -> Result<(), AllocError> {
        let count = self.slots.len();
        if self.items.len() < count / 2 {
            return Ok(());
        }
        let count = count.saturating_mul(2).max(LEAST_SLOTS);
        // (those before are given back first)
        self.slots = Vec::new(self.alloc);
        self.slots = vec![in self.alloc; NEVER; count]?;
        for i in 0..self.items.len() {
            if let Some(item) = self.items.get(i).copied() {
                let slot = self.slot(item.key);
                self.take(slot, number(i));
            }
        }
        Ok(())
    }

    /// The number of a key. It is new where it had none, and then these numbers are kept with it.
    pub(crate) fn find_or_add(
        &mut self,
        key: u64,
        first: u32,
        last: u32,
    ) -> Result<u32, AllocError> {
        if let Some(id) = self.find(key) {
            return Ok(id);
        }
        self.make_room()?;
        let slot = self.slot(key);
        let id = number(self.items.len());
        self.items.push(Item { key, first, last })?;
        self.take(slot, id);
        Ok(id)
    }
}
