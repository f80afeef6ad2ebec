//! A search for an order in which each event is witnessed. Nothing is claimed of it: the order is
//! checked once it is whole, and the events are certified in it.

use crate::asked::{Asked, asked_under};
use crate::facts::{Facts, word_of};
use crate::found::Found;
use crate::learned::Learned;
use crate::looked::Looked;
use crate::made::Made;
use crate::numbers::{Chance, NEVER};
use crate::repair::Tries;
use crate::sweep::Scratch;
use crate::witness::Witness;
use pg_event::{Control, Event, Outcome};
use pg_span_run::SpannedRun;
use std::alloc::{AllocError, Global};

/// What a search comes to.
#[derive(Drop)]
pub enum Sought {
    /// An order, which is still to be checked.
    Order(Vec<u32>),
    /// No event was found that could come next. The events that waited; if no walk in any order was
    /// seen that may witness one of them, it comes first.
    Stuck(Vec<u32>),
}

/// An event that was asked whether it can come next.
#[derive(Clone, Copy)]
struct Wait {
    /// Its number, or `NEVER` where none was asked.
    event: u32,
    /// Whether it can, as it was asked last.
    can_come: bool,
    /// Whether it is worth asking again: a word that was looked at was written since.
    is_stale: bool,
    looked: Looked,
    /// Whether all windows were looked at.
    is_whole: bool,
}

impl Wait {
    fn none() -> Wait {
        Wait {
            event: NEVER,
            can_come: false,
            is_stale: false,
            looked: Looked::new(),
            is_whole: false,
        }
    }

    /// Whether it waits in vain and looked at a word.
    fn may_wake(&self, word: u64) -> bool {
        self.event != NEVER && !self.can_come && self.looked.may_have(word)
    }
}

/// The next event of a processor, and what of it stays the same while it is the next.
#[derive(Clone, Copy)]
struct Front {
    /// Its number, or `NEVER` where there is none.
    event: u32,
    /// So many events come before it, whatever the order.
    since: u32,
    rank: u64,
    /// Whether it was learned that it comes after others.
    is_learned: bool,
    /// The control registers of the processor before it.
    control: Control,
}

/// So many windows between drops are looked at before another event is tried.
const FEW_WINDOWS: u32 = 4;

pub(crate) const ALL_WINDOWS: u32 = NEVER;

/// An order that is being made.
#[derive(Drop)]
pub(crate) struct Maker<'a> {
    pub alloc: Global,
    pub facts: Facts<'a>,
    pub made: Made,
    found: Found,
    scratch: Scratch,
    /// The words that were looked at for the event that was asked last.
    looked: Looked,
    pub learned: Learned,
    pub tries: Tries,
    pub chance: Chance,
    /// For each processor what it waits with.
    waits: Vec<Wait>,
    /// For each processor its next event.
    fronts: Vec<Front>,
    /// How much of what was raised in `facts.sure` is sure, and not supposed.
    pub surely: usize,
    /// How many events were looked at one by one for what they drop.
    pub looks: u32,
}

/// The rank of writes, after all others.
const WRITES: u64 = 5;

/// The place of an event among those that can come next: answers change nothing; faults and
/// invalidations only take from what a processor knows; a write takes a value from all others.
fn rank_of(event: &Event) -> u64 {
    match event {
        Event::Access {
            outcome: Outcome::Page(_),
            ..
        } => 0,
        Event::Access {
            outcome: Outcome::Fault(_),
            ..
        } => 1,
        Event::Invlpg { .. } | Event::Invpcid { .. } => 2,
        Event::MovCr3 { .. } | Event::MovCr4Pge { .. } => 3,
        Event::Assist { .. } => 4,
        Event::Write { .. } => WRITES,
    }
}

/// An event that can come next.
#[derive(Clone, Copy)]
struct Choice {
    rank: u64,
    event: u32,
}

/// The choice with the lower rank; of two that are alike, the event that ended first.
fn better(best: Option<Choice>, other: Choice) -> Choice {
    match best {
        Some(best) if best.rank < other.rank => best,
        Some(best) if best.rank == other.rank && best.event < other.event => best,
        _ => other,
    }
}

impl<'a> Maker<'a> {
    fn new(alloc: Global, run: &'a SpannedRun) -> Result<Maker<'a>, AllocError> {
        let facts = Facts::of(alloc, run)?;
        let made = Made::new(alloc, &facts)?;
        let processors = facts.processors() as usize;
        let none = Front {
            event: NEVER,
            since: 0,
            rank: 0,
            is_learned: false,
            control: Control::default(),
        };
        let mut maker = Maker {
            alloc,
            facts,
            made,
            found: Found::new(alloc),
            scratch: Scratch::new(alloc),
            looked: Looked::new(),
            learned: Learned::new(alloc),
            tries: Tries::new(alloc),
            chance: Chance::new(1),
            waits: vec![in alloc; Wait::none(); processors]?,
            fronts: vec![in alloc; none; processors]?,
            surely: 0,
            looks: 0,
        };
        maker.find_fronts();
        Ok(maker)
    }

    /// Finds the next event of a processor, whose control registers are these.
    fn find_front(&mut self, p: u16, control: Control) {
        let event = self.facts.own(p, self.made.count(p)).unwrap_or(NEVER);
        let found = Front {
            event,
            since: self.facts.since(event),
            rank: self.facts.run.event_at(event).map_or(WRITES, rank_of),
            is_learned: self.learned.knows(event),
            control,
        };
        if let Some(front) = self.fronts.get_mut(p as usize) {
            *front = found;
        }
    }

    /// Finds the next events of all processors.
    fn find_fronts(&mut self) {
        for p in 0..self.facts.processors() {
            let control = self.facts.control(p, self.made.count(p));
            self.find_front(p, control);
        }
    }

    /// The control registers of a processor before its next event.
    fn front_control(&self, p: u16) -> Control {
        match self.fronts.get(p as usize) {
            Some(front) => front.control,
            None => Control::default(),
        }
    }

    /// The next event of a processor, where all that had ended before it began have a place.
    pub(crate) fn front(&self, p: u16) -> Option<u32> {
        let event = self.facts.own(p, self.made.count(p))?;
        if self.facts.since(event) <= self.made.low() && !self.is_early(event) {
            Some(event)
        } else {
            None
        }
    }

    /// Whether an event is known to come after one that has no place yet.
    fn is_early(&self, event: u32) -> bool {
        if self.facts.sure.is_none() {
            return false;
        }
        (0..self.facts.processors()).any(|q| match self.facts.sure.count(event, q) {
            Some(count) => self.made.count(q) < count,
            None => false,
        })
    }

    /// Lists the drops of wide ranges, once so many events were looked at for them one by one as
    /// there are in all.
    pub(crate) fn widen_if_due(&mut self) -> Result<(), AllocError> {
        if self.looks as usize > self.facts.run.len() {
            self.facts.widen(self.alloc)?;
        }
        Ok(())
    }

    /// Whether an event is witnessed if it comes next, by all windows.
    pub(crate) fn is_witnessed(&mut self, asked: &Asked) -> Result<bool, AllocError> {
        self.widen_if_due()?;
        self.looked.clear();
        let mut witness = Witness {
            alloc: self.alloc,
            facts: &self.facts,
            made: &self.made,
            found: &mut self.found,
            scratch: &mut self.scratch,
            looked: &mut self.looked,
            is_whole: true,
            looks: 0,
        };
        let is_witnessed = witness.is_witnessed(asked, ALL_WINDOWS)?;
        self.looks = self.looks.saturating_add(witness.looks);
        Ok(is_witnessed)
    }

    /// Whether an event waits that was not looked for in all windows.
    pub(crate) fn may_be_far(&self, p: u16, event: u32) -> bool {
        match self.waits.get(p as usize) {
            Some(wait) if wait.event == event => !wait.is_whole,
            _ => true,
        }
    }

    /// Whether the next event of a processor can come next.
    fn may_come(&mut self, p: u16, event: u32) -> Result<bool, AllocError> {
        match self.waits.get(p as usize) {
            Some(wait) if wait.event == event && !wait.is_stale => Ok(wait.can_come),
            _ => self.ask(p, event),
        }
    }

    /// Asks anew whether the next event of a processor can come next.
    fn ask(&mut self, p: u16, event: u32) -> Result<bool, AllocError> {
        let is_again = match self.waits.get(p as usize) {
            Some(wait) => wait.event == event && !wait.can_come,
            None => false,
        };
        let control = self.front_control(p);
        let Some(asked) = asked_under(&self.facts, event, control) else {
            return Ok(true);
        };
        self.looked.clear();
        let mut witness = Witness {
            alloc: self.alloc,
            facts: &self.facts,
            made: &self.made,
            found: &mut self.found,
            scratch: &mut self.scratch,
            looked: &mut self.looked,
            is_whole: true,
            looks: 0,
        };
        // If it waits in vain, what stood before the last drop is as it was.
        let can_come = witness.is_witnessed(&asked, if is_again { 1 } else { FEW_WINDOWS })?;
        let is_whole = witness.is_whole;
        self.looks = self.looks.saturating_add(witness.looks);
        if let Some(wait) = self.waits.get_mut(p as usize) {
            *wait = Wait {
                event,
                can_come,
                is_stale: false,
                looked: self.looked,
                is_whole: if is_again { wait.is_whole } else { is_whole },
            };
        }
        Ok(can_come)
    }

    /// The next event of a processor, if it can come next but for what it asks.
    fn free(&self, p: u16) -> Option<(u32, u64)> {
        let Front {
            event,
            since,
            rank,
            is_learned,
            ..
        } = *self.fronts.get(p as usize)?;
        if event == NEVER || since > self.made.low() || self.is_early(event) {
            return None;
        }
        if is_learned && self.learned.holds(&self.made, event) {
            return None;
        }
        Some((event, rank))
    }

    /// The event that is best put next, of those that can come next.
    fn choose(&mut self) -> Result<Option<u32>, AllocError> {
        let mut best: Option<Choice> = None;
        for p in 0..self.facts.processors() {
            let Some((event, rank)) = self.free(p) else {
                continue;
            };
            if rank == WRITES || !self.may_come(p, event)? {
                continue;
            }
            best = Some(better(best, Choice { rank, event }));
            if rank == 0 {
                break;
            }
        }
        match best {
            Some(choice) => Ok(Some(choice.event)),
            None => Ok(self.choose_write()),
        }
    }

    /// The write that is best put next: one that an event waits for, before others.
    fn choose_write(&self) -> Option<u32> {
        let mut best: Option<Choice> = None;
        for p in 0..self.facts.processors() {
            let Some((event, rank)) = self.free(p) else {
                continue;
            };
            if rank == WRITES {
                let rank = if self.is_awaited(event) { 0 } else { 1 };
                best = Some(better(best, Choice { rank, event }));
            }
        }
        best.map(|choice| choice.event)
    }

    /// The word that an event writes, if it writes one.
    fn word(&self, event: u32) -> Option<u64> {
        match self.facts.run.event_at(event) {
            Some(it) => word_of(it),
            None => None,
        }
    }

    /// Whether an event waits for a write.
    fn is_awaited(&self, event: u32) -> bool {
        match self.word(event) {
            Some(word) => self.waits.iter().any(|wait| wait.may_wake(word)),
            None => false,
        }
    }

    /// Puts an event next.
    pub(crate) fn put(&mut self, event: u32) -> Result<(), AllocError> {
        if let Some(word) = self.word(event) {
            for wait in self.waits.iter_mut() {
                if wait.looked.may_have(word) {
                    wait.is_stale = true;
                }
            }
        }
        self.made.put(&self.facts, event)?;
        if let Some(p) = self.facts.processor(event) {
            if let Some(wait) = self.waits.get_mut(p as usize) {
                wait.event = NEVER;
            }
            let control = if self.changes_control(event) {
                self.facts.control(p, self.made.count(p))
            } else {
                self.front_control(p)
            };
            self.find_front(p, control);
        }
        Ok(())
    }

    /// Whether an event may change the control registers of its processor.
    fn changes_control(&self, event: u32) -> bool {
        match self.facts.run.event_at(event) {
            Some(it) => it.control_change().changes_some(),
            None => false,
        }
    }

    /// Takes back all that came from a moment on.
    pub(crate) fn take_back_to(&mut self, moment: u32) -> Result<(), AllocError> {
        self.made.take_back_to(&self.facts, moment);
        self.found.take_back_to(moment);
        for wait in self.waits.iter_mut() {
            wait.event = NEVER;
        }
        Ok(())
    }

    /// Whether all events have a place.
    fn is_whole(&self) -> bool {
        self.made.now() as usize >= self.facts.run.len()
    }

    /// The next step: an event is put next, or others are taken back. Where none of these helps,
    /// the events that wait.
    fn step(&mut self) -> Result<Option<Vec<u32>>, AllocError> {
        self.widen_if_due()?;
        match self.choose()? {
            Some(event) => {
                self.put(event)?;
                Ok(None)
            }
            None => {
                let waiting = self.repair()?;
                // (others are the next, or other things are learned of them)
                self.find_fronts();
                Ok(waiting)
            }
        }
    }
}

/// An order of the events of a run in which each is witnessed, as far as this search sees. It gives
/// up once an event was the first that waits so often, or so many events were taken back.
///
/// It fails only where memory is refused.
pub fn find_order(alloc: Global, run: &SpannedRun) -> Result<Sought, AllocError> {
    let mut maker = Maker::new(alloc, run)?;
    for _ in 0..u64::MAX {
        if maker.is_whole() {
            break;
        }
        if let Some(waiting) = maker.step()? {
            return Ok(Sought::Stuck(waiting));
        }
    }
    let Maker { made, .. } = maker;
    Ok(Sought::Order(made.into_order()))
}
