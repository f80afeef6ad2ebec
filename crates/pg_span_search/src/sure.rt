//! What is surely in order around events that wait, beyond what the spans say: what all walks that
//! may witness an event ask for.

use std::alloc::{AllocError, Global};

/// Of some events, one after another, how many events of each processor are surely before them.
#[derive(Drop)]
pub(crate) struct Sure {
    first: u32,
    processors: usize,
    counts: Vec<u32>,
    /// What was raised: where it stands, and what it was before.
    raised: Vec<Raised>,
}

/// A count that was raised.
#[derive(Clone, Copy)]
struct Raised {
    index: usize,
    before: u32,
}

impl Sure {
    /// Of no events.
    pub(crate) fn none(alloc: Global) -> Sure {
        Sure {
            first: 0,
            processors: 0,
            counts: Vec::new(alloc),
            raised: Vec::new(alloc),
        }
    }

    /// Of events from one on, of which nothing is known yet.
    pub(crate) fn from(alloc: Global, first: u32, processors: usize, counts: Vec<u32>) -> Sure {
        Sure {
            first,
            processors,
            counts,
            raised: Vec::new(alloc),
        }
    }

    pub(crate) fn is_none(&self) -> bool {
        self.processors == 0
    }

    /// Whether an event lies after all of which something is told here.
    pub(crate) fn ends_before(&self, event: u32) -> bool {
        self.processors > 0 && event > self.first && self.index(event, 0) >= self.counts.len()
    }

    fn index(&self, event: u32, p: u16) -> usize {
        match event.checked_sub(self.first) {
            Some(row) => (row as usize)
                .saturating_mul(self.processors)
                .saturating_add(p as usize),
            None => usize::MAX,
        }
    }

    /// How many events of a processor are surely before an event, if that is told here.
    pub(crate) fn count(&self, event: u32, p: u16) -> Option<u32> {
        if self.processors == 0 {
            return None;
        }
        self.counts.get(self.index(event, p)).copied()
    }

    /// Whether this is news: that so many events of a processor are surely before an event.
    pub(crate) fn raise(&mut self, event: u32, p: u16, count: u32) -> Result<bool, AllocError> {
        let index = self.index(event, p);
        let Some(known) = self.counts.get_mut(index) else {
            return Ok(false);
        };
        let before = *known;
        if before >= count {
            return Ok(false);
        }
        *known = count;
        self.raised.push(Raised { index, before })?;
        Ok(true)
    }

    /// How much was raised so far.
    pub(crate) fn mark(&self) -> usize {
        self.raised.len()
    }

    /// Forgets what was raised since a mark.
    pub(crate) fn take_back_to(&mut self, mark: usize) {
        for _ in mark..self.raised.len() {
            if let Some(Raised { index, before }) = self.raised.pop() {
                if let Some(known) = self.counts.get_mut(index) {
                    *known = before;
                }
            }
        }
    }
}
