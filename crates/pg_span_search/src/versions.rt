//! The values that a word may have.

use crate::facts::Facts;
use crate::made::Made;
use crate::numbers::{NEAR_END, NEVER, at, count_below, number};
use pg_event::Version as Format;
use std::alloc::AllocError;

/// A value of a word, from one slot or moment to another.
#[derive(Clone, Copy)]
pub(crate) struct Version {
    pub value: u64,
    pub from: u32,
    pub to: u32,
    /// The write that it is of, or none.
    pub writer: u32,
    /// The assist that gave it its flags, where one did.
    pub assist: u32,
}

/// So many versions of a word are looked at.
const MOST: usize = 1024;

/// The flags that an assist sets which sets the dirty flag too.
const DIRTY: u64 = 0x60;

/// The one of two versions that begins earlier; the first where both begin at once.
fn earlier(best: Option<Version>, other: Version) -> Option<Version> {
    match best {
        Some(best) if best.from <= other.from => Some(best),
        _ => Some(other),
    }
}

/// The values that a word may have in some order in slots of a processor.
#[derive(Clone, Copy)]
struct Search<'s> {
    facts: &'s Facts<'s>,
    p: u16,
    word: u32,
    first: u32,
    last: u32,
}

impl<'s> Search<'s> {
    /// How many of the writes of the word need be looked at from the front, and from which one on:
    /// those before it are surely overwritten before the first slot.
    fn range(&self) -> (u32, u32) {
        let writes = self.facts.writes.list(self.word);
        let bound = match self.facts.own(self.p, self.first.wrapping_sub(1)) {
            Some(event) => self.facts.since(event),
            None => 0,
        };
        let mut dead = 0;
        let mut from = count_below(writes, bound);
        for k in (0..from).rev() {
            let write = at(writes, k);
            if write < dead {
                break;
            }
            if self.facts.marks(write).is_none() {
                dead = dead.max(self.facts.since(write));
            }
            from = k;
        }
        let end = match self.facts.own(self.p, self.last) {
            Some(event) => count_below(
                writes,
                event.saturating_add(self.facts.reach).saturating_add(1),
            ),
            None => number(writes.len()),
        };
        let is_start_dead = dead > 0 || from > 0;
        let first = if is_start_dead {
            from.saturating_add(1)
        } else {
            0
        };
        (first, end.saturating_add(1))
    }

    /// Whether another write surely ends before a slot what may stand up to it.
    fn may_end(&self, other: u32, slot: u32) -> bool {
        match self.facts.own(self.p, slot.wrapping_sub(1)) {
            Some(event) => event == other || self.facts.must_precede(other, event),
            None => true,
        }
    }

    /// The last event that may come before the end of a slot, where events come so far after their
    /// number.
    fn last_event(&self, slot: u32, reach: u32) -> u32 {
        match self.facts.own(self.p, slot) {
            Some(event) => event.saturating_add(reach),
            None => NEVER,
        }
    }

    /// The last slot in which what was written may still stand.
    fn last_slot(&self, writer: u32, next: u32) -> u32 {
        let writes = self.facts.writes.list(self.word);
        let mut to = NEVER - 1;
        let (next, reach) = if self.facts.sure.is_none() || writer == NEVER {
            (next, 0)
        } else {
            (self.facts.first_behind(writes, writer), self.facts.reach)
        };
        let mut last = self.last_event(to, reach);
        for k in next..number(writes.len()) {
            let other = at(writes, k);
            if other > last {
                break;
            }
            if self.facts.overwrites(other, writer) && self.may_end(other, to) {
                to = to.min(self.facts.after(self.p, other));
                last = self.last_event(to, reach);
            }
        }
        to
    }

    /// What a write wrote, or what was there at the start.
    fn plain(&self, writer: u32, next: u32) -> Option<Version> {
        let value = self.facts.written(writer)?;
        let from = if writer == NEVER {
            0
        } else {
            self.facts.first_slot(self.p, writer)
        };
        let to = self.last_slot(writer, next);
        if from > self.last || to < self.first {
            return None;
        }
        Some(Version {
            value,
            from,
            to,
            writer,
            assist: NEVER,
        })
    }

    /// What a write wrote, with the flags of an assist that may come after it: with the accessed
    /// flag alone, and with the dirty flag too.
    fn marked(&self, plain: &Version) -> [Option<Version>; 2] {
        let mut accessed = None;
        let mut dirty = None;
        if plain.value | DIRTY == plain.value {
            return [None, None];
        }
        let writes = self.facts.writes.list(self.word);
        let first = self.facts.first_behind(writes, plain.writer);
        let last = self.last_event(self.last.min(plain.to), self.facts.reach);
        for k in first..number(writes.len()) {
            let other = at(writes, k);
            if other > last {
                break;
            }
            let Some(marks) = self.facts.marks(other) else {
                continue;
            };
            match self.marked_by(plain, other, marks) {
                Some(version) if marks == DIRTY => dirty = earlier(dirty, version),
                Some(version) => accessed = earlier(accessed, version),
                None => {}
            }
        }
        [accessed, dirty]
    }

    /// What a write wrote, with the flags that an assist sets, where it may come after the write.
    fn marked_by(&self, plain: &Version, assist: u32, marks: u64) -> Option<Version> {
        if plain.value | marks == plain.value {
            return None;
        }
        if plain.writer != NEVER && self.facts.must_precede(assist, plain.writer) {
            return None;
        }
        let from = self.facts.first_slot(self.p, assist).max(plain.from);
        if from > plain.to || from > self.last {
            return None;
        }
        Some(Version {
            value: plain.value | marks,
            from,
            assist,
            ..*plain
        })
    }

    fn push_all(&self, out: &mut Vec<Version>) -> Result<(), AllocError> {
        let writes = self.facts.writes.list(self.word);
        let (first, end) = self.range();
        for k in (first..end).rev() {
            let writer = if k == 0 { NEVER } else { at(writes, k - 1) };
            if k > 0 && writer == NEVER {
                continue;
            }
            let Some(plain) = self.plain(writer, k) else {
                continue;
            };
            if out.len() >= MOST {
                break;
            }
            out.push(plain)?;
            if self.facts.version == Format::One || writer == NEVER {
                continue;
            }
            for version in self.marked(&plain) {
                if let Some(version) = version {
                    out.push(version)?;
                }
            }
        }
        Ok(())
    }
}

/// The values that a word may have in some order between two slots of a processor, the latest
/// first.
pub(crate) fn possible_versions(
    facts: &Facts<'_>,
    p: u16,
    word: u32,
    slots: (u32, u32),
    out: &mut Vec<Version>,
) -> Result<(), AllocError> {
    let (first, last) = slots;
    Search {
        facts,
        p,
        word,
        first,
        last,
    }
    .push_all(out)
}

/// The values that a word has between two moments of the order so far, the latest first.
pub(crate) fn made_versions(
    made: &Made,
    word: u32,
    moments: (u32, u32),
    out: &mut Vec<Version>,
) -> Result<(), AllocError> {
    let values = made.values(word);
    let (first, last) = moments;
    let near = values.len().saturating_sub(NEAR_END);
    let count = match values.get(near) {
        Some(value) if value.place < last => number(near).saturating_add(number(
            values[near..].partition_point(|value| value.place < last),
        )),
        _ => number(values[..near].partition_point(|value| value.place < last)),
    };
    let mut to = match values.get(count as usize) {
        Some(next) => next.place,
        None => NEVER - 1,
    };
    for k in (0..count.saturating_add(1)).rev() {
        let (value, from, writer) = match values.get((k as usize).wrapping_sub(1)) {
            Some(value) => (
                value.value,
                value.place.saturating_add(1),
                at(made.order(), value.place),
            ),
            None => (0, 0, NEVER),
        };
        if to < first || out.len() >= MOST {
            break;
        }
        out.push(Version {
            value,
            from,
            to,
            writer,
            assist: NEVER,
        })?;
        to = from.wrapping_sub(1);
    }
    Ok(())
}
