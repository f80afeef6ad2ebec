//! What follows from the events around one that waits: where all walks that may witness an event
//! need one event to come before another, it does.

use crate::asked::{Asked, asked_of};
use crate::edges::Edge;
use crate::facts::Facts;
use crate::numbers::{NEVER, at, number};
use crate::search::Maker;
use crate::sure::Sure;
use crate::sweep::{Hit, Limits, Reading, View};
use std::alloc::{AllocError, Global};
use std::collections::HashMap;

/// So many events before the one that waits are looked at, and so many after it.
const BEFORE: u32 = 300;

const BEHIND: u32 = 100;

/// So many events before the first of them, and after the last, have a place among what is sure.
const MORE: u32 = 700;

/// So often all of them are looked at. What is sure is kept, and looked at again where the event
/// still waits.
const MOST_PASSES: u32 = 4;

/// Edges are supposed between events so near.
const NEAR: u32 = 60;

/// From so many edges those are chosen that are supposed.
const MOST_OPEN: usize = 400;

/// Events with more walks than these tell nothing.
const MOST_HITS: usize = 24;

const MOST_WINDOWS: u32 = 12;

/// What a walk needs in each order in which it witnesses an event.
#[derive(Drop)]
struct Needs<'n> {
    facts: &'n Facts<'n>,
    asked: &'n Asked,
    hit: &'n Hit,
    out: Vec<Edge>,
}

impl<'n> Needs<'n> {
    fn precedes(&self, j: u32, i: u32) -> bool {
        self.facts.must_precede(j, i)
    }

    fn push(&mut self, before: u32, after: u32) -> Result<(), AllocError> {
        if before != NEVER && after != NEVER && !self.precedes(before, after) {
            self.out.push(Edge { before, after })?;
        }
        Ok(())
    }

    /// The event after which an entry is read, and that before which it is read.
    fn range(&self, i: usize) -> (u32, u32) {
        let Asked { p, event, slot, .. } = *self.asked;
        let mut from = 0;
        for reading in self.hit.readings.iter().take(i.saturating_add(1)) {
            from = reading.from.max(from);
        }
        let mut to = slot;
        for reading in self.hit.readings.iter().take(self.hit.count).skip(i) {
            to = reading.to.min(to);
        }
        let is_now = i.saturating_add(1) == self.hit.count && !self.asked.is_page();
        let start = if is_now {
            event
        } else {
            self.facts.own(p, from.wrapping_sub(1)).unwrap_or(NEVER)
        };
        (start, self.facts.own(p, to).unwrap_or(event))
    }

    /// What another write of the word needs.
    fn part(&mut self, i: usize, writer: u32, start: u32, other: u32) -> Result<(), AllocError> {
        let is_later = self.facts.comes_after(other, writer);
        if start != NEVER {
            if other == start || self.precedes(other, start) {
                self.push(other, writer)?;
            } else if is_later {
                self.push(start, other)?;
            }
        }
        let hit = self.hit;
        for above in hit.readings.iter().take(i) {
            let upper = above.writer;
            if upper == NEVER || upper == other {
                continue;
            }
            if self.precedes(other, upper) {
                self.push(other, writer)?;
            } else if is_later {
                self.push(upper, other)?;
            }
        }
        Ok(())
    }

    fn push_reading(&mut self, i: usize, reading: &Reading) -> Result<(), AllocError> {
        let facts = self.facts;
        let Reading { word, writer, .. } = *reading;
        let event = self.asked.event;
        let (start, end) = self.range(i);
        if writer != end {
            self.push(writer, end)?;
        }
        let writes = facts.writes.list(word);
        for k in facts.first_behind(writes, writer)..number(writes.len()) {
            let other = at(writes, k);
            if other > event.saturating_add(facts.reach) {
                break;
            }
            let is_own = other == writer || other == event;
            let is_before = writer != NEVER && self.precedes(other, writer);
            if !is_own && !is_before && facts.marks(other).is_none() {
                self.part(i, writer, start, other)?;
            }
        }
        Ok(())
    }
}

fn needs_of(
    alloc: Global,
    facts: &Facts<'_>,
    asked: &Asked,
    hit: &Hit,
) -> Result<Vec<Edge>, AllocError> {
    let mut needs = Needs {
        facts,
        asked,
        hit,
        out: Vec::new(alloc),
    };
    for i in 0..hit.count {
        if let Some(reading) = hit.readings.get(i).copied() {
            if reading.word != NEVER {
                needs.push_reading(i, &reading)?;
            }
        }
    }
    let Needs { out, .. } = needs;
    Ok(out)
}

/// Whether what is needed cannot be.
fn are_in_vain(facts: &Facts<'_>, needs: &[Edge]) -> bool {
    needs.iter().any(|edge| edge.before == edge.after
        || facts.must_precede(edge.after, edge.before))
}

/// Whether an edge follows from others.
fn follows(facts: &Facts<'_>, edge: Edge, needs: &[Edge]) -> bool {
    let Edge { before, after } = edge;
    needs.iter().any(|other| {
        let is_before = before == other.before || facts.must_precede(before, other.before);
        let is_after = after == other.after || facts.must_precede(other.after, after);
        is_before && is_after
    })
}

/// How often walks need an edge.
fn noted(counts: &HashMap<u64, u32>, edge: Edge) -> u32 {
    let key = (edge.before as u64) << 32 | edge.after as u64;
    match counts.get(&key) {
        Some(count) => *count,
        None => 0,
    }
}

impl<'a> Maker<'a> {
    /// What all walks that may witness an event need: none where there is no such walk; nothing
    /// where not all of them are known. What some need is added to `open`.
    fn needs_of_all(
        &mut self,
        asked: &Asked,
        open: &mut Vec<Edge>,
    ) -> Result<Option<Vec<Edge>>, AllocError> {
        let limits = Limits {
            windows: MOST_WINDOWS,
            hits: MOST_HITS,
            is_each: true,
        };
        let (hits, is_whole) = self.possible_hits(asked, limits)?;
        if !is_whole || hits.len() >= MOST_HITS {
            return Ok(Some(Vec::new(self.alloc)));
        }
        let mut common: Option<Vec<Edge>> = None;
        for hit in hits.iter() {
            let needs = needs_of(self.alloc, &self.facts, asked, hit)?;
            if are_in_vain(&self.facts, needs.as_slice()) {
                continue;
            }
            if open.len() < MOST_OPEN {
                open.extend_from_slice(needs.as_slice())?;
            }
            common = match common {
                None => Some(needs),
                Some(mut edges) => {
                    edges.retain(|edge| follows(&self.facts, *edge, needs.as_slice()));
                    Some(edges)
                }
            };
        }
        Ok(common)
    }

    /// Learns what all walks that may witness an event need. Says no where none may.
    fn deduce_of(&mut self, event: u32, open: &mut Vec<Edge>) -> Result<bool, AllocError> {
        let Some(asked) = asked_of(&self.facts, event) else {
            return Ok(true);
        };
        let Some(needs) = self.needs_of_all(&asked, open)? else {
            return Ok(false);
        };
        for edge in needs.iter() {
            if !self.facts.note_order(edge.before, edge.after)? {
                return Ok(false);
            }
        }
        Ok(true)
    }

    /// Learns what follows of events from one to another. Says no where no order may be.
    fn deduce_all(&mut self, range: (u32, u32), open: &mut Vec<Edge>) -> Result<bool, AllocError> {
        let (first, last) = range;
        for _ in 0..MOST_PASSES {
            let mark = self.facts.sure.mark();
            open.clear();
            for number in first..last.saturating_add(1) {
                if !self.deduce_of(number, open)? {
                    return Ok(false);
                }
            }
            if self.facts.sure.mark() == mark {
                break;
            }
        }
        Ok(true)
    }

    /// The edge that most walks need, of those that are open; one of the first by chance.
    fn most_needed(&mut self, open: &[Edge]) -> Result<Option<Edge>, AllocError> {
        let mut counts: HashMap<u64, u32> = HashMap::new(self.alloc);
        let mut best: Option<(u32, Edge)> = None;
        for edge in open {
            let Edge { before, after } = *edge;
            let is_known = self.facts.must_precede(before, after)
                || self.facts.must_precede(after, before);
            if is_known || before == after {
                continue;
            }
            let count = noted(&counts, *edge).saturating_add(1);
            counts.insert((before as u64) << 32 | after as u64, count)?;
            let score = count
                .saturating_mul(4)
                .saturating_add(self.chance.below(16));
            best = match best {
                Some((most, edge)) if most >= score => Some((most, edge)),
                _ => Some((score, *edge)),
            };
        }
        Ok(best.map(|(_, edge)| edge))
    }

    /// Takes an edge for sure, or the other way round where nothing may be then. Says no where
    /// neither may be.
    fn suppose(
        &mut self,
        edge: Edge,
        range: (u32, u32),
        open: &mut Vec<Edge>,
    ) -> Result<bool, AllocError> {
        let mark = self.facts.sure.mark();
        let Edge { before, after } = edge;
        if self.facts.note_order(before, after)? && self.deduce_all(range, open)? {
            return Ok(true);
        }
        self.facts.sure.take_back_to(mark);
        Ok(self.facts.note_order(after, before)? && self.deduce_all(range, open)?)
    }

    /// Supposes so many edges around an event, of which none contradicts another as far as is seen.
    fn suppose_all(&mut self, event: u32, most: u32) -> Result<(), AllocError> {
        let end = number(self.facts.run.len()).saturating_sub(1);
        let range = (
            event.saturating_sub(NEAR),
            event.saturating_add(NEAR).min(end),
        );
        let mut open = Vec::new(self.alloc);
        if !self.deduce_all(range, &mut open)? {
            return Ok(());
        }
        for _ in 0..most {
            let Some(edge) = self.most_needed(open.as_slice())? else {
                break;
            };
            let mark = self.facts.sure.mark();
            if !self.suppose(edge, range, &mut open)? {
                self.facts.sure.take_back_to(mark);
                break;
            }
        }
        Ok(())
    }

    /// Makes room for what is sure of these events.
    fn widen_sure(&mut self, first: u32, last: u32) -> Result<(), AllocError> {
        if self.facts.sure.count(first, 0).is_some() && self.facts.sure.count(last, 0).is_some() {
            return Ok(());
        }
        let from = first.saturating_sub(MORE);
        let end = last.saturating_add(MORE).min(number(self.facts.run.len()));
        let processors = self.facts.processors();
        self.facts.sure = Sure::none(self.alloc);
        let mut counts = Vec::new(self.alloc);
        for event in from..end {
            for p in 0..processors {
                let count = if self.facts.processor(event) == Some(p) {
                    self.facts.place(event)
                } else {
                    self.facts.first_slot(p, event)
                };
                counts.push(count)?;
            }
        }
        self.facts.sure = Sure::from(self.alloc, from, processors as usize, counts);
        self.surely = 0;
        Ok(())
    }

    /// Whether more is supposed than what is sure.
    pub(crate) fn has_supposed(&self) -> bool {
        self.facts.sure.mark() > self.surely
    }

    /// Learns what surely is in order around an event that waits, supposes so much more, and takes
    /// back what may not be so. Says no where no order may be.
    pub(crate) fn deduce(&mut self, event: u32, supposed: u32) -> Result<bool, AllocError> {
        let first = event.saturating_sub(BEFORE);
        let last = event
            .saturating_add(BEHIND)
            .min(number(self.facts.run.len()).saturating_sub(1));
        self.widen_sure(first, last)?;
        let surely = self.surely;
        self.facts.sure.take_back_to(surely);
        let mut open = Vec::new(self.alloc);
        if !self.deduce_all((first, last), &mut open)? {
            return Ok(false);
        }
        self.surely = self.facts.sure.mark();
        self.suppose_all(event, supposed)?;
        let mut moment = self.made.now();
        for number in first..last.saturating_add(1) {
            moment = moment.min(self.made.place(number));
        }
        self.take_back_to(moment)?;
        Ok(true)
    }
}
