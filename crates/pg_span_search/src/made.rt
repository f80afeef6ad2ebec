//! The order that is being made, so far. A moment of it is the number of events before it.

use crate::facts::{Facts, word_of};
use crate::numbers::{NEAR_END, NEVER, at, number};
use pg_event::{Event, processor_of};
use std::alloc::{AllocError, Global};

/// A value of a word, and the place in the order of the event that wrote it.
#[derive(Clone, Copy)]
pub(crate) struct Value {
    pub place: u32,
    pub value: u64,
}

#[derive(Drop)]
pub(crate) struct Made {
    order: Vec<u32>,
    /// For each event its place in the order, or `NEVER`.
    places: Vec<u32>,
    /// For each processor how many of its events have a place: its first ones.
    counts: Vec<u32>,
    /// For each word its values.
    values: Vec<Vec<Value>>,
    /// For each word the last of them, or 0.
    latest: Vec<u64>,
    /// The least event that has no place.
    low: u32,
    pub undone: u64,
}

impl Made {
    pub(crate) fn new(alloc: Global, facts: &Facts<'_>) -> Result<Made, AllocError> {
        let count = facts.run.len();
        let processors = facts.processors() as usize;
        let mut made = Made {
            order: Vec::with_capacity(alloc, count)?,
            places: vec![in alloc; NEVER; count]?,
            counts: vec![in alloc; 0u32; processors]?,
            values: Vec::with_capacity(alloc, facts.writes.len())?,
            latest: vec![in alloc; 0u64; facts.writes.len()]?,
            low: 0,
            undone: 0,
        };
        // A list that grew by and by would leave holes in memory.
        for word in 0..number(facts.writes.len()) {
            let count = facts.writes.list(word).len();
            made.values.push(Vec::with_capacity(alloc, count)?)?;
        }
        Ok(made)
    }

    pub(crate) fn order(&self) -> &[u32] {
        self.order.as_slice()
    }

    pub(crate) fn into_order(self) -> Vec<u32> {
        let Made { order, .. } = self;
        order
    }

    /// The moment now.
    pub(crate) fn now(&self) -> u32 {
        number(self.order.len())
    }

    pub(crate) fn low(&self) -> u32 {
        self.low
    }

    /// The place of an event in the order, or `NEVER`.
    pub(crate) fn place(&self, event: u32) -> u32 {
        at(self.places.as_slice(), event)
    }

    pub(crate) fn values(&self, word: u32) -> &[Value] {
        match self.values.get(word as usize) {
            Some(values) => values.as_slice(),
            None => &[],
        }
    }

    /// What a word has now.
    pub(crate) fn value(&self, word: u32) -> u64 {
        match self.latest.get(word as usize) {
            Some(value) => *value,
            None => 0,
        }
    }

    /// Notes what a word has now, by its values.
    fn note_latest(&mut self, word: u32) {
        let value = match self.values(word).last() {
            Some(value) => value.value,
            None => 0,
        };
        if let Some(latest) = self.latest.get_mut(word as usize) {
            *latest = value;
        }
    }

    /// How many events of a processor have a place.
    pub(crate) fn count(&self, p: u16) -> u32 {
        match self.counts.get(p as usize) {
            Some(count) => *count,
            None => 0,
        }
    }

    /// The place in the order of the event at a place among those of a processor.
    fn own_place(&self, facts: &Facts<'_>, p: u16, place: u32) -> u32 {
        match facts.own(p, place) {
            Some(event) => self.place(event),
            None => NEVER,
        }
    }

    /// The slot of a processor that a moment lies in.
    pub(crate) fn slot(&self, facts: &Facts<'_>, p: u16, moment: u32) -> u32 {
        let own = facts.first_own(p, self.count(p));
        let near = own.len().saturating_sub(NEAR_END);
        let (before, part) = match own.get(near) {
            Some(first) if self.place(*first) < moment => (near, own.get(near..)),
            _ => (0, own.get(..near)),
        };
        let part = part.unwrap_or(&[]);
        let count = part.partition_point(|event| self.place(*event) < moment);
        number(before.saturating_add(count))
    }

    /// The first moment of a slot.
    pub(crate) fn start(&self, facts: &Facts<'_>, p: u16, slot: u32) -> u32 {
        if slot == 0 {
            return 0;
        }
        self.own_place(facts, p, slot - 1).saturating_add(1)
    }

    /// The last moment of a slot.
    pub(crate) fn end(&self, facts: &Facts<'_>, p: u16, slot: u32) -> u32 {
        self.own_place(facts, p, slot).min(self.now())
    }

    fn write(&mut self, word: u32, value: u64) -> Result<(), AllocError> {
        let place = self.now();
        if let Some(values) = self.values.get_mut(word as usize) {
            values.push(Value { place, value })?;
        }
        self.note_latest(word);
        Ok(())
    }

    /// Puts an event of a processor next.
    pub(crate) fn put(&mut self, facts: &Facts<'_>, event: u32) -> Result<(), AllocError> {
        let Some(it) = facts.run.event_at(event) else {
            return Ok(());
        };
        if let Some(word) = word_of(it).and_then(|word| facts.writes.id(word)) {
            let value = match it {
                Event::Write { value, .. } => *value,
                _ => self.value(word) | facts.marks(event).unwrap_or(0),
            };
            self.write(word, value)?;
        }
        let place = self.now();
        self.order.push(event)?;
        if let Some(at) = self.places.get_mut(event as usize) {
            *at = place;
        }
        if let Some(count) = self.counts.get_mut(processor_of(it) as usize) {
            *count = count.saturating_add(1);
        }
        for _ in 0..self.places.len() {
            if self.low >= number(self.places.len()) || self.place(self.low) == NEVER {
                break;
            }
            self.low = self.low.saturating_add(1);
        }
        Ok(())
    }

    /// Takes the last event back.
    fn take_back(&mut self, facts: &Facts<'_>) {
        let Some(event) = self.order.pop() else {
            return;
        };
        let Some(it) = facts.run.event_at(event) else {
            return;
        };
        if let Some(word) = word_of(it).and_then(|word| facts.writes.id(word)) {
            if let Some(values) = self.values.get_mut(word as usize) {
                values.pop();
            }
            self.note_latest(word);
        }
        if let Some(at) = self.places.get_mut(event as usize) {
            *at = NEVER;
        }
        if let Some(count) = self.counts.get_mut(processor_of(it) as usize) {
            *count = count.saturating_sub(1);
        }
        self.low = self.low.min(event);
        self.undone = self.undone.saturating_add(1);
    }

    /// Takes back all that came from a moment on.
    pub(crate) fn take_back_to(&mut self, facts: &Facts<'_>, moment: u32) {
        for _ in moment..self.now() {
            self.take_back(facts);
        }
    }
}
