//! What is done where no event can come next: another order of those before, so that one of those
//! that wait is witnessed.

use crate::asked::{Asked, asked_of};
use crate::edges::{Edge, Taste, edges_of};
use crate::learned::Learned;
use crate::looked::Looked;
use crate::numbers::NEVER;
use crate::search::{ALL_WINDOWS, Maker};
use crate::sure::Sure;
use crate::sweep::{Hit, Limits, Sweep, View};
use std::alloc::{AllocError, Global};
use std::collections::HashMap;

/// How often an event may be found to be the first that waits, before it is looked for what is
/// surely in order around it; twice as often after each three times that it was.
const MOST_TRIES: u32 = 30;

/// How often that is looked for around an event.
const MOST_ROUNDS: u32 = 12;

/// Events that are so many apart are looked at one by one.
const APART: u32 = 400;

/// After so many of them all that was learned is forgotten, and up to so many events are taken
/// back.
const RESTART: u32 = 40;

const FAR_BACK: u32 = 400;

/// How many events may be taken back in all, for each of the run and for so many more.
const MOST_UNDONE: u64 = 64;

const MORE: u64 = 4000;

/// What was tried.
#[derive(Drop)]
pub(crate) struct Tries {
    /// How often edges were learned, by a number made of them.
    tried: HashMap<u64, u32>,
    /// How often an event was the first that waits.
    stuck: HashMap<u32, u32>,
    /// How often it was looked for what is surely in order around an event.
    rounds: u32,
    around: u32,
}

/// Edges to be learned for an event that waits.
#[derive(Drop)]
struct Plan {
    cost: u64,
    event: u32,
    /// From this moment on events are taken back.
    moment: u32,
    edges: Vec<Edge>,
    key: u64,
}

impl Tries {
    pub(crate) fn new(alloc: Global) -> Tries {
        Tries {
            tried: HashMap::new(alloc),
            stuck: HashMap::new(alloc),
            rounds: 0,
            around: 0,
        }
    }

    fn tried(&self, key: u64) -> u32 {
        match self.tried.get(&key) {
            Some(count) => *count,
            None => 0,
        }
    }

    fn stuck(&self, event: u32) -> u32 {
        match self.stuck.get(&event) {
            Some(count) => *count,
            None => 0,
        }
    }
}

/// A number made of edges.
fn key_of(event: u32, edges: &[Edge]) -> u64 {
    let mut key = event as u64;
    for edge in edges {
        let both = (edge.before as u64) << 32 | edge.after as u64;
        key = (key ^ both)
            .wrapping_mul(0x9e37_79b9_7f4a_7c15)
            .rotate_left(21);
    }
    key
}

impl<'a> Maker<'a> {
    /// The walks that may witness an event in some order, and whether all were looked at.
    pub(crate) fn possible_hits(
        &mut self,
        asked: &Asked,
        limits: Limits,
    ) -> Result<(Vec<Hit>, bool), AllocError> {
        self.widen_if_due()?;
        let view = View {
            facts: &self.facts,
            made: &self.made,
            is_made: false,
        };
        let mut sweep = Sweep::new(self.alloc, view, asked, limits, Looked::new());
        sweep.run()?;
        let Sweep {
            hits,
            is_whole,
            looks,
            ..
        } = sweep;
        self.looks = self.looks.saturating_add(looks);
        Ok((hits, is_whole))
    }

    /// Some walks that may witness an event; where there is none, whether that is sure.
    fn some_hits(&mut self, asked: &Asked, is_hard: bool) -> Result<(Vec<Hit>, bool), AllocError> {
        let (windows, hits) = if is_hard { (64, 512) } else { (6, 64) };
        let found = self.possible_hits(
            asked,
            Limits {
                windows,
                hits,
                is_each: true,
            },
        )?;
        if !found.0.is_empty() {
            return Ok(found);
        }
        self.possible_hits(
            asked,
            Limits {
                windows: ALL_WINDOWS,
                hits: 64,
                is_each: false,
            },
        )
    }

    /// The moment to which these edges take the order back, or none where they can't be.
    fn moment_of(&self, edges: &[Edge]) -> Option<u32> {
        let mut moment = self.made.now();
        for edge in edges {
            if self.facts.must_precede(edge.after, edge.before) {
                return None;
            }
            let (before, after) = (self.made.place(edge.before), self.made.place(edge.after));
            if after != NEVER && before > after {
                moment = moment.min(after);
            }
        }
        Some(moment)
    }

    /// The better of two plans: the other is that of a walk.
    fn better_plan(
        &mut self,
        best: Option<Plan>,
        asked: &Asked,
        hit: &Hit,
        taste: Taste,
    ) -> Result<Option<Plan>, AllocError> {
        let view = View {
            facts: &self.facts,
            made: &self.made,
            is_made: false,
        };
        let edges = edges_of(self.alloc, view, asked, hit, taste, &mut self.chance)?;
        let Some(moment) = self.moment_of(edges.as_slice()) else {
            return Ok(best);
        };
        let event = asked.event;
        let key = key_of(event, edges.as_slice());
        let used = self.tries.tried(key).min(1 << 16);
        let undone = self.made.now().saturating_sub(moment) as u64;
        let again = (used as u64)
            .saturating_mul(used as u64)
            .saturating_mul(256);
        let any = self.chance.below(8 + 8 * used) as u64;
        let mut cost = undone
            .saturating_mul(16)
            .saturating_add(again)
            .saturating_add(any);
        if undone == 0 {
            // Nothing is taken back: no help, unless what it waits for can come.
            cost = cost.saturating_add(4096);
        }
        match best {
            Some(best) if best.cost <= cost => Ok(Some(best)),
            _ => Ok(Some(Plan {
                cost,
                event,
                moment,
                edges,
                key,
            })),
        }
    }

    /// Takes a plan: its edges are learned.
    fn take(&mut self, plan: &Plan, tries: u32) -> Result<(), AllocError> {
        let tried = self.tries.tried(plan.key).saturating_add(1);
        self.tries.tried.insert(plan.key, tried)?;
        self.learned.forget(plan.event);
        for edge in plan.edges.iter() {
            self.learned.learn(plan.event, *edge)?;
        }
        let mut moment = plan.moment;
        if moment == self.made.now() {
            // Some are taken back by chance, so that others come first.
            let most = 4 << tries.min(6);
            moment = moment.saturating_sub(self.chance.below(most));
        }
        self.take_back_to(moment)
    }

    /// Forgets all that was learned, and begins again further back.
    fn restart(&mut self) -> Result<(), AllocError> {
        self.learned = Learned::new(self.alloc);
        let now = self.made.now();
        let back = self.chance.below(FAR_BACK);
        self.take_back_to(now.saturating_sub(back))
    }

    /// How often it was looked for what is surely in order around an event.
    fn rounds(&self, event: u32) -> u32 {
        let Tries { around, .. } = self.tries;
        if around.max(event).saturating_sub(around.min(event)) < APART {
            self.tries.rounds
        } else {
            0
        }
    }

    /// Begins again further back with what is surely in order, and with nothing learned or tried.
    /// Says no where no order may be.
    fn begin_again(&mut self, event: u32) -> Result<bool, AllocError> {
        self.tries = Tries {
            rounds: self.rounds(event).saturating_add(1),
            around: event,
            ..Tries::new(self.alloc)
        };
        self.learned = Learned::new(self.alloc);
        let supposed = match self.tries.rounds {
            0..=2 => 0,
            rounds => rounds.min(8) << 2,
        };
        self.deduce(event, supposed)
    }

    /// Notes that this event was the first that waits, and tells how often it was.
    fn note_stuck(&mut self, event: u32) -> Result<u32, AllocError> {
        let tries = self.tries.stuck(event).saturating_add(1);
        self.tries.stuck.insert(event, tries)?;
        Ok(tries)
    }

    /// The events that wait, this one first.
    fn waiting(&self, first: u32) -> Result<Vec<u32>, AllocError> {
        let mut waiting = Vec::new(self.alloc);
        if first != NEVER {
            waiting.push(first)?;
        }
        for p in 0..self.facts.processors() {
            if let Some(event) = self.front(p) {
                if event != first && asked_of(&self.facts, event).is_some() {
                    waiting.push(event)?;
                }
            }
        }
        Ok(waiting)
    }

    /// Whether the search gives up, and does not begin again around this event.
    fn is_spent(&self, event: u32) -> bool {
        let most = (self.facts.run.len() as u64)
            .saturating_add(MORE)
            .saturating_mul(MOST_UNDONE);
        self.rounds(event) >= MOST_ROUNDS || self.made.undone > most
    }

    /// Forgets what is sure once all that it tells of has a place.
    fn forget_what_is_past(&mut self) {
        if self.facts.sure.ends_before(self.made.low()) {
            self.facts.sure = Sure::none(self.alloc);
            self.surely = 0;
        }
    }

    /// Puts an event next that waits, where it is witnessed by what a short look did not see.
    fn look_far(&mut self) -> Result<bool, AllocError> {
        for p in 0..self.facts.processors() {
            let Some(event) = self.front(p) else {
                continue;
            };
            if self.learned.holds(&self.made, event) || !self.may_be_far(p, event) {
                continue;
            }
            let Some(asked) = asked_of(&self.facts, event) else {
                continue;
            };
            if self.is_witnessed(&asked)? {
                self.put(event)?;
                return Ok(true);
            }
        }
        Ok(false)
    }

    /// Another order of what stands, so that one of the events that wait is witnessed. Where none
    /// is found, the events that wait.
    pub(crate) fn repair(&mut self) -> Result<Option<Vec<u32>>, AllocError> {
        self.forget_what_is_past();
        if self.look_far()? {
            return Ok(None);
        }
        let mut held = Vec::new(self.alloc);
        let mut best: Option<Plan> = None;
        let is_hard = self.tries.stuck(self.made.low()) % 16 > 11;
        let mut first = NEVER;
        for p in 0..self.facts.processors() {
            let Some(event) = self.front(p) else {
                continue;
            };
            first = first.min(event);
            if self.learned.holds(&self.made, event) {
                held.push(event)?;
                continue;
            }
            let Some(asked) = asked_of(&self.facts, event) else {
                continue;
            };
            let (hits, is_whole) = self.some_hits(&asked, is_hard)?;
            if asked.is_hopeless || hits.is_empty() && is_whole {
                return self.give_up(event);
            }
            for hit in hits.iter() {
                for taste in [Taste::AsMade, Taste::Turned, Taste::Random] {
                    best = self.better_plan(best, &asked, hit, taste)?;
                }
            }
        }
        let tries = self.note_stuck(first)?;
        if tries > MOST_TRIES << (self.tries.rounds / 3).min(8) {
            return self.go_on_or_give_up(first);
        }
        self.go_on(best, held.as_slice(), tries)?;
        Ok(None)
    }

    /// Begins again around an event, or gives up.
    fn go_on_or_give_up(&mut self, event: u32) -> Result<Option<Vec<u32>>, AllocError> {
        if self.is_spent(event) || !self.begin_again(event)? {
            return Ok(Some(self.waiting(event)?));
        }
        Ok(None)
    }

    /// Begins again or gives up, where nothing may witness an event: begins again only where that
    /// was supposed.
    fn give_up(&mut self, event: u32) -> Result<Option<Vec<u32>>, AllocError> {
        if self.has_supposed() {
            return self.go_on_or_give_up(event);
        }
        Ok(Some(self.waiting(event)?))
    }

    /// Takes the best plan, or forgets what holds another event up.
    fn go_on(&mut self, best: Option<Plan>, held: &[u32], tries: u32) -> Result<(), AllocError> {
        let is_idle = match &best {
            Some(plan) => plan.moment == self.made.now(),
            None => true,
        };
        let count = crate::numbers::number(held.len());
        let choice = self.chance.below(count);
        if let (true, Some(event)) = (is_idle, held.get(choice as usize)) {
            let any = self.chance.below(4);
            if let Some(owner) = self.learned.holder(&self.made, *event, any) {
                self.learned.forget(owner);
                return Ok(());
            }
        }
        match &best {
            Some(plan) if tries % RESTART > 0 => self.take(plan, tries)?,
            Some(_) | None => self.restart()?,
        }
        Ok(())
    }
}
