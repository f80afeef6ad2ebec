//! What must come before what for a walk to witness an event, beyond what the spans say.

use crate::asked::Asked;
use crate::numbers::{Chance, NEVER, at, number};
use crate::sweep::{Hit, Reading, View};
use std::alloc::{AllocError, Global};

/// That one event comes before another.
#[derive(Clone, Copy, PartialEq, Eq)]
pub(crate) struct Edge {
    pub before: u32,
    pub after: u32,
}

/// Which of two orders is taken where either will do.
#[derive(Clone, Copy, PartialEq, Eq)]
pub(crate) enum Taste {
    /// As it is in the order so far.
    AsMade,
    /// The other way round.
    Turned,
    Random,
}

/// The edges of a walk.
#[derive(Drop)]
pub(crate) struct Edges<'v> {
    view: View<'v>,
    asked: &'v Asked,
    hit: Hit,
    taste: Taste,
    is_turned: bool,
    /// The slot in which each entry is read.
    slots: [u32; 4],
    out: Vec<Edge>,
}

/// So many assists are chosen from.
const MOST_ASSISTS: usize = 64;

impl<'v> Edges<'v> {
    fn precedes(&self, j: u32, i: u32) -> bool {
        self.view.facts.must_precede(j, i)
    }

    fn push(&mut self, before: u32, after: u32) -> Result<(), AllocError> {
        if before != NEVER && after != NEVER && before != after && !self.precedes(before, after) {
            self.out.push(Edge { before, after })?;
        }
        Ok(())
    }

    fn writes(&self, word: u32) -> &'v [u32] {
        let view = self.view;
        view.facts.writes.list(word)
    }

    /// Whether another assist may stand for that of a reading.
    fn may_replace(&self, reading: &Reading, other: u32) -> bool {
        let facts = self.view.facts;
        other != self.asked.event
            && facts.marks(other) == facts.marks(reading.assist)
            && (reading.writer == NEVER || !self.precedes(other, reading.writer))
            && facts.first_slot(self.asked.p, other) <= reading.to
            && !self.precedes(self.asked.event, other)
    }

    /// An assist that gives a reading the same flags: that which comes next in the order so far, or
    /// any.
    fn other_assist(&self, reading: &Reading, chance: &mut Chance) -> u32 {
        let facts = self.view.facts;
        let made = self.view.made;
        let writes = self.writes(reading.word);
        let most = self.asked.event.saturating_add(facts.reach);
        let first = facts.first_behind(writes, reading.writer) as usize;
        let wrote = made.place(reading.writer);
        let mut near = NEVER;
        let mut any = reading.assist;
        // To skip events one after another would take as long as going over them.
        for other in writes[first.min(writes.len())..].iter().take(MOST_ASSISTS) {
            if *other > most {
                break;
            }
            if !self.may_replace(reading, *other) {
                continue;
            }
            if chance.below(3) == 0 {
                any = *other;
            }
            let place = made.place(*other);
            let is_behind = place != NEVER && wrote != NEVER && place > wrote;
            if is_behind && place < made.place(near) {
                near = *other;
            }
        }
        if near != NEVER && chance.below(100) < 60 {
            near
        } else {
            any
        }
    }

    /// Another assist may have given a reading its flags.
    fn replace_assist(&mut self, i: usize, chance: &mut Chance) {
        let Some(reading) = self.hit.readings.get(i).copied() else {
            return;
        };
        if reading.assist == NEVER {
            return;
        }
        let assist = self.other_assist(&reading, chance);
        let first = self.view.facts.first_slot(self.asked.p, assist);
        let from = reading.from.max(first).min(reading.to);
        if let Some(place) = self.hit.readings.get_mut(i) {
            *place = Reading {
                assist,
                from,
                ..reading
            };
        }
    }

    /// The slot in which an entry is read, near to where its value stands in the order so far.
    fn choose_slot(&self, reading: &Reading, below: u32, chance: &mut Chance) -> u32 {
        let made = self.view.made;
        let high = reading.to.min(below);
        let low = reading.from.min(high);
        let source = if reading.assist != NEVER {
            reading.assist
        } else {
            reading.writer
        };
        let place = made.place(source);
        if self.taste == Taste::Random && chance.below(2) == 0 {
            return low.saturating_add(chance.below(high.saturating_sub(low).saturating_add(1)));
        }
        if reading.word == NEVER || source != NEVER && place == NEVER {
            return high;
        }
        let begin = if source == NEVER {
            0
        } else {
            place.saturating_add(1)
        };
        let values = made.values(reading.word);
        let last = match values.get(values.partition_point(|value| value.place < begin)) {
            Some(next) => made.slot(self.view.facts, self.asked.p, next.place),
            None => NEVER,
        };
        let slot = if self.is_turned {
            low
        } else {
            high.min(last).max(low)
        };
        let first = made.slot(self.view.facts, self.asked.p, begin);
        if first > slot { first.min(high) } else { slot }
    }

    fn choose_slots(&mut self, chance: &mut Chance) {
        let mut below = self.asked.slot;
        for i in (0..4).rev() {
            if i >= self.hit.count {
                continue;
            }
            if let Some(reading) = self.hit.readings.get(i).copied() {
                below = self.choose_slot(&reading, below, chance);
                if let Some(slot) = self.slots.get_mut(i) {
                    *slot = below;
                }
            }
        }
    }

    /// Whether an assist between would change nothing that was read.
    fn is_idle(&self, reading: &Reading, other: u32) -> bool {
        match self.view.facts.marks(other) {
            None => false,
            Some(marks) => {
                let value = self.view.facts.written(reading.writer).unwrap_or(0);
                reading.assist != NEVER || value | marks == value
            }
        }
    }

    /// Another write of the word comes before what was read, or after the begin of its slot.
    fn part(
        &mut self,
        reading: &Reading,
        start: u32,
        other: u32,
        chance: &mut Chance,
    ) -> Result<(), AllocError> {
        let Reading { writer, assist, .. } = *reading;
        let made = self.view.made;
        if writer != NEVER && self.precedes(other, writer) {
            return Ok(());
        }
        if other == start || self.precedes(other, start) {
            return self.push(other, writer);
        }
        if assist == NEVER && self.precedes(start, other) {
            return Ok(());
        }
        let mut is_later = self.view.facts.comes_after(other, writer);
        if !is_later {
            let (place, wrote) = (made.place(other), made.place(writer));
            if self.taste == Taste::Random {
                self.is_turned = chance.below(2) == 0;
            }
            let are_turned = self.is_turned && place != NEVER && wrote != NEVER;
            is_later = (place < wrote) == are_turned;
        }
        if !is_later {
            return self.push(other, writer);
        }
        self.push(start, other)?;
        self.push(assist, other)
    }

    /// An entry that was read above in the same slot was written before the one below it was
    /// overwritten.
    fn part_upper(
        &mut self,
        reading: &Reading,
        upper: u32,
        other: u32,
        chance: &mut Chance,
    ) -> Result<(), AllocError> {
        let Reading { writer, assist, .. } = *reading;
        let made = self.view.made;
        let is_known = writer != NEVER && self.precedes(other, writer)
            || self.precedes(upper, other);
        if other == writer || other == assist || other == upper || is_known {
            return Ok(());
        }
        if self.view.facts.marks(other).is_some() {
            return Ok(());
        }
        let is_before = made.place(other) < made.place(writer);
        if writer != NEVER && is_before && !self.is_turned {
            return Ok(());
        }
        let is_open = writer != NEVER && !self.precedes(writer, other);
        let is_forced = self.precedes(other, upper);
        if is_open && (is_forced || self.is_turned && is_before == (chance.below(2) == 0)) {
            self.push(other, writer)
        } else {
            self.push(upper, other)
        }
    }

    fn slot(&self, i: usize) -> u32 {
        match self.slots.get(i) {
            Some(slot) => *slot,
            None => 0,
        }
    }

    /// Other writes of the word that was read: they come before what was read, or after the begin
    /// of its slot.
    fn push_others(
        &mut self,
        reading: &Reading,
        start: u32,
        first: u32,
        chance: &mut Chance,
    ) -> Result<(), AllocError> {
        let writes = self.writes(reading.word);
        let last = match reading.assist {
            assist if assist == NEVER => start,
            assist => start.max(assist),
        };
        let last = last.saturating_add(self.view.facts.reach);
        for k in first..number(writes.len()) {
            let other = at(writes, k);
            if other > last {
                break;
            }
            let is_own = other == reading.writer || other == reading.assist;
            if !is_own && other != self.asked.event && !self.is_idle(reading, other) {
                self.part(reading, start, other, chance)?;
            }
        }
        Ok(())
    }

    /// The edges of one reading.
    fn push_reading(
        &mut self,
        i: usize,
        reading: &Reading,
        chance: &mut Chance,
    ) -> Result<(), AllocError> {
        let facts = self.view.facts;
        let Asked { p, event, .. } = *self.asked;
        let slot = self.slot(i);
        let end = facts.own(p, slot).unwrap_or(event);
        let is_now = i.saturating_add(1) == self.hit.count && !self.asked.is_page();
        let start = if is_now {
            event
        } else {
            facts.own(p, slot.wrapping_sub(1)).unwrap_or(NEVER)
        };
        self.push(reading.writer, end)?;
        self.push(reading.assist, end)?;
        if reading.assist != NEVER {
            self.push(reading.writer, reading.assist)?;
        }
        let first = facts.first_behind(self.writes(reading.word), reading.writer);
        if start != NEVER {
            self.push_others(reading, start, first, chance)?;
        }
        for j in 0..i {
            if self.slot(j) == slot {
                self.push_upper(j, reading, (first, end), chance)?;
            }
        }
        Ok(())
    }

    fn push_upper(
        &mut self,
        j: usize,
        reading: &Reading,
        range: (u32, u32),
        chance: &mut Chance,
    ) -> Result<(), AllocError> {
        let (first, end) = range;
        let Some(above) = self.hit.readings.get(j).copied() else {
            return Ok(());
        };
        let upper = if above.assist != NEVER {
            above.assist
        } else {
            above.writer
        };
        if upper == NEVER {
            return Ok(());
        }
        let writes = self.writes(reading.word);
        for k in first..number(writes.len()) {
            let other = at(writes, k);
            if other > end.saturating_add(self.view.facts.reach) {
                break;
            }
            self.part_upper(reading, upper, other, chance)?;
        }
        Ok(())
    }
}

/// What must come before what for a walk to witness an event.
pub(crate) fn edges_of(
    alloc: Global,
    view: View<'_>,
    asked: &Asked,
    hit: &Hit,
    taste: Taste,
    chance: &mut Chance,
) -> Result<Vec<Edge>, AllocError> {
    let mut edges = Edges {
        view,
        asked,
        hit: *hit,
        taste,
        is_turned: taste == Taste::Turned,
        slots: [0; 4],
        out: Vec::new(alloc),
    };
    for i in 0..hit.count {
        edges.replace_assist(i, chance);
    }
    edges.choose_slots(chance);
    for i in 0..hit.count {
        if let Some(reading) = edges.hit.readings.get(i).copied() {
            if reading.word != NEVER {
                edges.push_reading(i, &reading, chance)?;
            }
        }
    }
    let Edges { out, .. } = edges;
    Ok(out)
}
