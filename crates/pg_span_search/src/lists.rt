//! Rising lists of numbers, by keys.

use crate::keys::Keys;
use crate::numbers::at;
use std::alloc::{AllocError, Global};

/// A list of numbers for each key. The numbers that are added wait in one list for all keys, until
/// each has its place: then all lists lie in one piece of memory, without room between them.
#[derive(Drop)]
pub(crate) struct Lists {
    alloc: Global,
    /// With each key how many numbers were added to its list, and once they have their place where
    /// the list begins and ends.
    keys: Keys,
    /// For each number that was added twice that of its list, and one more where it is the next of
    /// `waiting`, and not the same once more.
    added: Vec<u32>,
    waiting: Vec<u32>,
    items: Vec<u32>,
}

impl Lists {
    /// No list yet.
    pub(crate) fn new(alloc: Global) -> Lists {
        Lists {
            alloc,
            keys: Keys::new(alloc),
            added: Vec::new(alloc),
            waiting: Vec::new(alloc),
            items: Vec::new(alloc),
        }
    }

    /// How many keys there are.
    pub(crate) fn len(&self) -> usize {
        self.keys.len()
    }

    /// The number of a key's list.
    pub(crate) fn id(&self, key: u64) -> Option<u32> {
        self.keys.find(key)
    }

    /// The list with this number.
    pub(crate) fn list(&self, id: u32) -> &[u32] {
        match self.keys.get(id) {
            Some(item) => self
                .items
                .get(item.first as usize..item.last as usize)
                .unwrap_or(&[]),
            None => &[],
        }
    }

    pub(crate) fn of(&self, key: u64) -> &[u32] {
        match self.id(key) {
            Some(id) => self.list(id),
            None => &[],
        }
    }

    /// Adds a number to a key's list, which has it once `settle` is called.
    pub(crate) fn push(&mut self, key: u64, number: u32) -> Result<(), AllocError> {
        let id = self.keys.find_or_add(key, 0, 0)?;
        let is_next = match self.waiting.last() {
            Some(last) => *last != number,
            None => true,
        };
        if is_next {
            self.waiting.push(number)?;
        }
        self.added.push(id << 1 | is_next as u32)?;
        if let Some(item) = self.keys.get_mut(id) {
            item.last = item.last.saturating_add(1);
        }
        Ok(())
    }

    /// Gives each list its place, where it ends as well, until its numbers are there.
    fn place_lists(&mut self) {
        let mut start: u32 = 0;
        for item in self.keys.items_mut().iter_mut() {
            let count = item.last;
            item.first = start;
            item.last = start;
            start = start.saturating_add(count);
        }
    }

    /// Puts a number at the end of the list with this number.
    fn put(&mut self, id: u32, number: u32) {
        if let Some(list) = self.keys.get_mut(id) {
            if let Some(item) = self.items.get_mut(list.last as usize) {
                *item = number;
            }
            list.last = list.last.saturating_add(1);
        }
    }

    /// Gives each number its place, once all are added.
    pub(crate) fn settle(&mut self) -> Result<(), AllocError> {
        self.place_lists();
        self.items = vec![in self.alloc; 0u32; self.added.len()]?;
        let mut next: u32 = 0;
        let mut number = 0;
        for i in 0..crate::numbers::number(self.added.len()) {
            let added = at(&self.added, i);
            if added % 2 == 1 {
                number = at(&self.waiting, next);
                next = next.saturating_add(1);
            }
            self.put(added >> 1, number);
        }
        self.added = Vec::new(self.alloc);
        self.waiting = Vec::new(self.alloc);
        Ok(())
    }
}
