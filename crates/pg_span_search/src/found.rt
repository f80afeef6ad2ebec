//! Translations that were found to stand in the order so far.

use crate::keys::Keys;
use crate::numbers::{NEVER, number};
use pg_entry::{Level, Rights};
use pg_event::bits_from;
use std::alloc::{AllocError, Global};
use std::mem::swap;

/// So many are kept at least. Twice as many are at most: those before are forgotten.
const KEPT: usize = 131_072;

/// A translation of a page.
#[derive(Clone, Copy)]
pub(crate) struct Known {
    pub value: u64,
    pub rights: Rights,
    pub level: Level,
    pub is_global: bool,
    pub pcid: u16,
    /// It lasts up to this slot of its processor.
    pub until: u32,
}

/// A translation with where it belongs, in 32 bytes.
#[derive(Clone, Copy)]
struct Noted {
    value: u64,
    until: u32,
    /// The number of its address.
    id: u32,
    /// The one before it for the same address.
    before: u32,
    /// The moment when it was found.
    moment: u32,
    pcid: u16,
    rights: Rights,
    level: Level,
    is_global: bool,
}

#[derive(Drop)]
pub(crate) struct Found {
    /// With each address the place of the last that was found, or `NEVER`, and a slot after which
    /// none lasts: most are dropped before the address is used again.
    addresses: Keys,
    /// How many were forgotten.
    forgotten: u32,
    /// Those after, and then the latest.
    older: Vec<Noted>,
    noted: Vec<Noted>,
}

fn key(p: u16, la: u64) -> u64 {
    (p as u64) << 40 | bits_from(12, la)
}

impl Noted {
    fn known(&self) -> Known {
        Known {
            value: self.value,
            rights: self.rights,
            level: self.level,
            is_global: self.is_global,
            pcid: self.pcid,
            until: self.until,
        }
    }
}

impl Found {
    pub(crate) fn new(alloc: Global) -> Found {
        Found {
            addresses: Keys::new(alloc),
            forgotten: 0,
            older: Vec::new(alloc),
            noted: Vec::new(alloc),
        }
    }

    /// The place of the last for an address, or `NEVER` where none lasts up to this slot.
    pub(crate) fn last(&self, p: u16, la: u64, slot: u32) -> u32 {
        let id = self.addresses.find(key(p, la)).unwrap_or(NEVER);
        match self.addresses.get(id) {
            Some(address) if slot <= address.last => address.first,
            _ => NEVER,
        }
    }

    /// Notes the place of the last for the address with this number, and up to where it lasts. The
    /// place of the one before it.
    fn note_last(&mut self, id: u32, place: u32, until: u32) -> u32 {
        match self.addresses.get_mut(id) {
            Some(address) => {
                let before = address.first;
                address.first = place;
                address.last = address.last.max(until);
                before
            }
            None => NEVER,
        }
    }

    /// The place of the first that is not among the older ones.
    fn middle(&self) -> u32 {
        self.forgotten.saturating_add(number(self.older.len()))
    }

    fn noted_at(&self, place: u32) -> Option<&Noted> {
        let middle = self.middle();
        if middle <= place {
            return self.noted.get((place - middle) as usize);
        }
        if place < self.forgotten {
            return None;
        }
        self.older.get((place - self.forgotten) as usize)
    }

    /// What stands at a place, and the place of the one before it.
    pub(crate) fn get(&self, place: u32) -> Option<(Known, u32)> {
        match self.noted_at(place) {
            Some(noted) => Some((noted.known(), noted.before)),
            None => None,
        }
    }

    /// Forgets the older ones, where there are enough others.
    fn make_room(&mut self) {
        if self.noted.len() < KEPT {
            return;
        }
        self.forgotten = self.middle();
        self.older.clear();
        let Found { older, noted, .. } = self;
        swap(older, noted);
    }

    pub(crate) fn note(
        &mut self,
        p: u16,
        la: u64,
        known: Known,
        moment: u32,
    ) -> Result<(), AllocError> {
        self.make_room();
        let id = self.addresses.find_or_add(key(p, la), NEVER, 0)?;
        let place = self.middle().saturating_add(number(self.noted.len()));
        let before = self.note_last(id, place, known.until);
        self.noted.push(Noted {
            value: known.value,
            until: known.until,
            id,
            before,
            moment,
            pcid: known.pcid,
            rights: known.rights,
            level: known.level,
            is_global: known.is_global,
        })?;
        Ok(())
    }

    /// The latest that is not forgotten.
    fn latest(&self) -> Option<Noted> {
        match self.noted.last() {
            Some(noted) => Some(*noted),
            None => self.older.last().copied(),
        }
    }

    /// Takes the latest away.
    fn pop(&mut self) {
        if self.noted.pop().is_none() {
            self.older.pop();
        }
    }

    /// Forgets what was found after a moment.
    pub(crate) fn take_back_to(&mut self, moment: u32) {
        for _ in 0..self.noted.len().saturating_add(self.older.len()) {
            let Some(noted) = self.latest() else {
                break;
            };
            if noted.moment <= moment {
                break;
            }
            self.pop();
            self.note_last(noted.id, noted.before, 0);
        }
    }
}
