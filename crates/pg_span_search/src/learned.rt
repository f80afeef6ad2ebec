//! What was learned: that events come before others.

use crate::edges::Edge;
use crate::made::Made;
use crate::numbers::NEVER;
use std::alloc::{AllocError, Global};
use std::collections::HashMap;

/// An event that comes before another, so that a third is witnessed.
#[derive(Clone, Copy)]
struct Source {
    before: u32,
    owner: u32,
}

#[derive(Drop)]
pub(crate) struct Learned {
    alloc: Global,
    /// By the events that come later.
    sources: HashMap<u32, Vec<Source>>,
    /// By the events for which it was learned those that come later.
    owned: HashMap<u32, Vec<u32>>,
}

impl Learned {
    pub(crate) fn new(alloc: Global) -> Learned {
        Learned {
            alloc,
            sources: HashMap::new(alloc),
            owned: HashMap::new(alloc),
        }
    }

    /// Whether it was learned of an event that it comes after another.
    pub(crate) fn knows(&self, event: u32) -> bool {
        !self.sources.is_empty() && self.sources.contains_key(&event)
    }

    /// Whether an event is to wait for one that has no place.
    pub(crate) fn holds(&self, made: &Made, event: u32) -> bool {
        match self.sources.get(&event) {
            Some(sources) => sources
                .iter()
                .any(|source| made.place(source.before) == NEVER),
            None => false,
        }
    }

    /// The event for which it was learned that this one waits: one of so many, counted from 0.
    pub(crate) fn holder(&self, made: &Made, event: u32, choice: u32) -> Option<u32> {
        let sources = self.sources.get(&event)?;
        let mut count: u32 = 0;
        let mut first = None;
        for source in sources.iter() {
            if made.place(source.before) != NEVER {
                continue;
            }
            if first.is_none() {
                first = Some(source.owner);
            }
            if count == choice {
                return Some(source.owner);
            }
            count = count.saturating_add(1);
        }
        first
    }

    pub(crate) fn learn(&mut self, owner: u32, edge: Edge) -> Result<(), AllocError> {
        let source = Source {
            before: edge.before,
            owner,
        };
        match self.sources.get_mut(&edge.after) {
            Some(sources) => {
                sources.push(source)?;
            }
            None => {
                let mut sources = Vec::new(self.alloc);
                sources.push(source)?;
                self.sources.insert(edge.after, sources)?;
            }
        }
        match self.owned.get_mut(&owner) {
            Some(owned) => {
                owned.push(edge.after)?;
            }
            None => {
                let mut owned = Vec::new(self.alloc);
                owned.push(edge.after)?;
                self.owned.insert(owner, owned)?;
            }
        }
        Ok(())
    }

    /// Forgets what was learned for an event.
    pub(crate) fn forget(&mut self, owner: u32) {
        let Some(owned) = self.owned.remove(&owner) else {
            return;
        };
        for after in owned.iter() {
            let mut is_empty = false;
            if let Some(sources) = self.sources.get_mut(after) {
                sources.retain(|source| source.owner != owner);
                is_empty = sources.is_empty();
            }
            if is_empty {
                self.sources.remove(after);
            }
        }
    }
}
