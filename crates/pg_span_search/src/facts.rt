//! What is the same in all orders of a run, by the slots of its processors: slot k of a processor
//! lies between its events k - 1 and k.

use crate::drops::Drops;
use crate::lists::Lists;
use crate::numbers::{NEVER, at, count_below, number};
use crate::stays::Stays;
use crate::sure::Sure;
use pg_entry::{Cfg, Entry, Kind, Level, classify};
use pg_event::{Control, Event, Version, controlled, loaded, processor_of};
use pg_span_run::{SpannedRun, ended_before, event_of};
use std::alloc::{AllocError, Global};

#[derive(Drop)]
pub(crate) struct Facts<'a> {
    pub run: &'a SpannedRun,
    pub cfg: Cfg,
    pub version: Version,
    /// For each event how many had surely ended before it began: the greatest of its own and of
    /// those of its processor before it.
    sinces: Vec<u32>,
    /// For each event its place among those of its processor.
    places: Vec<u32>,
    /// For each processor its events.
    own: Vec<Vec<u32>>,
    /// How many of them there are before each event whose number is a multiple of `step`, one
    /// processor after another.
    own_before: Vec<u32>,
    step: u32,
    pub drops: Drops,
    pub stays: Stays,
    /// For each word the events that write it.
    pub writes: Lists,
    /// No event overlaps one that ended so many before it.
    pub reach: u32,
    /// What is known beyond the spans.
    pub sure: Sure,
}

/// A step is so many events for each processor.
const STEP: u32 = 8;

/// The word that an event writes, if it writes one.
pub(crate) fn word_of(event: &Event) -> Option<u64> {
    match *event {
        Event::Write { addr, .. } => Some(addr),
        Event::Assist { word, .. } => Some(word),
        Event::Access { .. }
        | Event::MovCr3 { .. }
        | Event::Invlpg { .. }
        | Event::Invpcid { .. }
        | Event::MovCr4Pge { .. } => None,
    }
}

/// How many events each processor has.
fn counts_of(alloc: Global, run: &SpannedRun) -> Result<Vec<u32>, AllocError> {
    let mut counts = vec![in alloc; 0u32; run.header().processors.len()]?;
    for event in run.events() {
        if let Some(count) = counts.get_mut(processor_of(event) as usize) {
            *count = count.saturating_add(1);
        }
    }
    Ok(counts)
}

impl<'a> Facts<'a> {
    pub(crate) fn of(alloc: Global, run: &'a SpannedRun) -> Result<Facts<'a>, AllocError> {
        let header = run.header();
        let processors = header.processors.len();
        let counts = counts_of(alloc, run)?;
        let mut facts = Facts {
            run,
            cfg: header.cfg,
            version: header.version,
            sinces: Vec::with_capacity(alloc, run.len())?,
            places: Vec::with_capacity(alloc, run.len())?,
            own: Vec::with_capacity(alloc, processors)?,
            own_before: Vec::new(alloc),
            step: number(processors).saturating_mul(STEP),
            drops: Drops::new(alloc, processors)?,
            stays: Stays::new(alloc),
            writes: Lists::new(alloc),
            reach: 0,
            sure: Sure::none(alloc),
        };
        for (p, (cr3, pge)) in header.processors.iter().enumerate() {
            let count = at(counts.as_slice(), number(p));
            facts.own.push(Vec::with_capacity(alloc, count as usize)?)?;
            facts.stays.push(loaded(header.cfg.m, *cr3, *pge))?;
        }
        for number in 0..run.len() as u32 {
            facts.push(event_of(run, number), number, ended_before(run, number))?;
        }
        facts.stays.list_all()?;
        facts.drops.settle()?;
        facts.writes.settle()?;
        Ok(facts)
    }

    /// Takes the next event, which began once so many had ended.
    fn push(&mut self, event: &Event, number: u32, ended: u32) -> Result<(), AllocError> {
        if number.checked_rem(self.step) == Some(0) {
            for own in self.own.iter() {
                self.own_before.push(crate::numbers::number(own.len()))?;
            }
        }
        let p = processor_of(event);
        let place = self.count(p);
        let since = match self.own(p, place.wrapping_sub(1)) {
            Some(before) => self.since(before).max(ended),
            None => ended,
        };
        self.sinces.push(since)?;
        self.places.push(place)?;
        self.reach = self.reach.max(number.saturating_sub(since));
        if let Some(own) = self.own.get_mut(p as usize) {
            own.push(number)?;
        }
        if let Some(word) = word_of(event) {
            self.writes.push(word, number)?;
        }
        self.note_control(event, p, place)
    }

    fn note_control(&mut self, event: &Event, p: u16, place: u32) -> Result<(), AllocError> {
        let control = self.stays.control(p, place);
        let Cfg {
            m: maxphyaddr,
            rules,
            ..
        } = self.run.header().cfg;
        self.drops
            .note(p, event.invalidation(rules, control), place)?;
        if event.control_change().changes_some() {
            let next = controlled(maxphyaddr, p, control, event);
            self.stays.change(p, place.saturating_add(1), next)?;
        }
        Ok(())
    }

    /// How many events a processor has.
    pub(crate) fn count(&self, p: u16) -> u32 {
        match self.own.get(p as usize) {
            Some(own) => number(own.len()),
            None => 0,
        }
    }

    pub(crate) fn processors(&self) -> u16 {
        u16::try_from(self.own.len()).unwrap_or(u16::MAX)
    }

    /// The event at a place among those of a processor.
    pub(crate) fn own(&self, p: u16, place: u32) -> Option<u32> {
        self.own.get(p as usize)?.get(place as usize).copied()
    }

    /// The first events of a processor, so many of them.
    pub(crate) fn first_own(&self, p: u16, count: u32) -> &[u32] {
        match self.own.get(p as usize) {
            Some(own) => own.get(..count as usize).unwrap_or(&[]),
            None => &[],
        }
    }

    pub(crate) fn since(&self, event: u32) -> u32 {
        at(&self.sinces, event)
    }

    pub(crate) fn place(&self, event: u32) -> u32 {
        at(&self.places, event)
    }

    pub(crate) fn processor(&self, event: u32) -> Option<u16> {
        match self.run.event_at(event) {
            Some(event) => Some(processor_of(event)),
            None => None,
        }
    }

    /// Whether one event must come before another.
    pub(crate) fn must_precede(&self, j: u32, i: u32) -> bool {
        if j < self.since(i) {
            return true;
        }
        if self.sure.is_none() {
            return j < i && self.processor(j) == self.processor(i);
        }
        self.is_surely_before(j, i)
    }

    /// Whether one event must come before another by what is known beyond the spans.
    fn is_surely_before(&self, j: u32, i: u32) -> bool {
        let Some(p) = self.processor(j) else {
            return false;
        };
        match self.sure.count(i, p) {
            Some(count) => self.place(j) < count,
            None => j < i && self.processor(i) == Some(p),
        }
    }

    /// The place among the events of a processor of the first that is this event or must come after
    /// it.
    pub(crate) fn after(&self, p: u16, event: u32) -> u32 {
        if self.processor(event) == Some(p) {
            return self.place(event);
        }
        let Some(own) = self.own.get(p as usize) else {
            return 0;
        };
        // All that ended before the event began come before it, and all that ended too far after
        // it to overlap it come after it.
        let first = self.own_below(p, self.since(event)) as usize;
        let bound = event.saturating_add(self.reach).saturating_add(1);
        let near = own
            .get(first..self.own_below(p, bound) as usize)
            .unwrap_or(&[]);
        number(first.saturating_add(near.partition_point(|i| !self.must_precede(event, *i))))
    }

    /// How many events of a processor there are before some steps, and how many in all where there
    /// are not so many steps.
    fn own_before(&self, p: u16, steps: u32) -> usize {
        let row = (steps as usize).saturating_mul(self.own.len());
        match self.own_before.get(row.saturating_add(p as usize)) {
            Some(count) => *count as usize,
            None => self.count(p) as usize,
        }
    }

    /// How many events of a processor are below a bound.
    fn own_below(&self, p: u16, bound: u32) -> u32 {
        let steps = bound.checked_div(self.step).unwrap_or(0);
        let first = self.own_before(p, steps);
        let last = self.own_before(p, steps.saturating_add(1));
        let Some(own) = self.own.get(p as usize) else {
            return 0;
        };
        let near = own.get(first..last).unwrap_or(&[]);
        number(first.saturating_add(near.partition_point(|event| *event < bound)))
    }

    /// The first slot of a processor that may come after an event.
    pub(crate) fn first_slot(&self, p: u16, event: u32) -> u32 {
        if self.processor(event) == Some(p) {
            return self.place(event).saturating_add(1);
        }
        if let Some(count) = self.sure.count(event, p) {
            return count;
        }
        self.own_below(p, self.since(event))
    }

    /// The flags that an assist sets; of other events none.
    pub(crate) fn marks(&self, event: u32) -> Option<u64> {
        match self.run.event_at(event) {
            Some(Event::Assist { flags, .. }) => Some(if *flags >= 16 { 0x60 } else { 0x20 }),
            _ => None,
        }
    }

    /// What a write writes; 0 for no event, as memory was at the start.
    pub(crate) fn written(&self, event: u32) -> Option<u64> {
        match self.run.event_at(event) {
            Some(Event::Write { value, .. }) => Some(*value),
            Some(_) => None,
            None => Some(0),
        }
    }

    /// What an entry is at a level.
    pub(crate) fn kind(&self, level: Level, value: u64) -> Kind {
        let cfg = self.run.header().cfg;
        classify(cfg, level, Entry(value))
    }

    /// Whether an event surely comes after a write, or after the start where that is none.
    pub(crate) fn comes_after(&self, other: u32, writer: u32) -> bool {
        writer == NEVER || self.must_precede(writer, other)
    }

    /// Whether an event that changes the same word surely overwrites what a write wrote.
    pub(crate) fn overwrites(&self, other: u32, writer: u32) -> bool {
        self.comes_after(other, writer) && self.marks(other).is_none()
    }

    /// The place among the events that write a word of the first that had not ended when one of
    /// them began.
    pub(crate) fn first_behind(&self, writes: &[u32], writer: u32) -> u32 {
        if writer == NEVER {
            return 0;
        }
        count_below(writes, self.since(writer))
    }

    /// Whether what one event wrote to a word was surely overwritten by one below a bound.
    pub(crate) fn is_dead_below(&self, word: u32, writer: u32, bound: u32) -> bool {
        let writes = self.writes.list(word);
        let first = match writer {
            NEVER => 0,
            _ => count_below(writes, writer.saturating_add(1)),
        };
        for k in first..number(writes.len()) {
            let other = at(writes, k);
            if other >= bound {
                return false;
            }
            if self.overwrites(other, writer) {
                return true;
            }
        }
        false
    }

    /// Whether what one event wrote to a word was surely overwritten before another event.
    pub(crate) fn is_dead_before(&self, word: u32, writer: u32, event: u32) -> bool {
        let writes = self.writes.list(word);
        for k in self.first_behind(writes, writer)..number(writes.len()) {
            let other = at(writes, k);
            if other > event.saturating_add(self.reach) {
                return false;
            }
            if self.overwrites(other, writer) && self.must_precede(other, event) {
                return true;
            }
        }
        false
    }

    pub(crate) fn control(&self, p: u16, slot: u32) -> Control {
        self.stays.control(p, slot)
    }

    /// How many events of a processor are surely before what comes after an event.
    fn count_with(&self, event: u32, p: u16) -> u32 {
        if self.processor(event) == Some(p) {
            self.place(event).saturating_add(1)
        } else {
            self.first_slot(p, event)
        }
    }

    /// Raises what is known of an event to what is known of one before it.
    fn raise(&mut self, event: u32, before: u32) -> Result<bool, AllocError> {
        let mut is_news = false;
        for p in 0..self.processors() {
            if self.processor(event) == Some(p) {
                continue;
            }
            let count = self.count_with(before, p);
            if self.sure.raise(event, p, count)? {
                is_news = true;
            }
        }
        Ok(is_news)
    }

    /// Raises, as `raise` does, what is known of an event of a processor and of those after it, as
    /// far as it is news.
    fn raise_all(&mut self, p: u16, first: u32, before: u32) -> Result<(), AllocError> {
        for place in first..self.count(p) {
            let Some(event) = self.own(p, place) else {
                break;
            };
            if !self.raise(event, before)? {
                break;
            }
        }
        Ok(())
    }

    /// Notes that one event surely comes before another. Says no where it can't.
    pub(crate) fn note_order(&mut self, before: u32, after: u32) -> Result<bool, AllocError> {
        if before == after || self.must_precede(after, before) {
            return Ok(false);
        }
        if self.must_precede(before, after) {
            return Ok(true);
        }
        for p in 0..self.processors() {
            let first = self.after(p, after);
            self.raise_all(p, first, before)?;
        }
        Ok(true)
    }
}
