//! Whether an event is witnessed at the end of the order so far.

use crate::asked::Asked;
use crate::facts::Facts;
use crate::found::{Found, Known};
use crate::looked::Looked;
use crate::made::Made;
use crate::sweep::{Hit, Limits, Scratch, Sweep, View};
use pg_entry::{Entry, Kind, Level, Rights, combine};
use pg_event::{level_shift, may_cache};
use std::alloc::{AllocError, Global};

/// So many translations that were found for an address are tried.
const MOST_KNOWN: usize = 4;

const LEVELS: [Level; 4] = [Level::Four, Level::Three, Level::Two, Level::One];

/// What is asked of the order so far.
#[derive(Drop)]
pub(crate) struct Witness<'w> {
    pub alloc: Global,
    pub facts: &'w Facts<'w>,
    pub made: &'w Made,
    pub found: &'w mut Found,
    pub scratch: &'w mut Scratch,
    /// The words that were looked at.
    pub looked: &'w mut Looked,
    /// Whether all windows were looked at.
    pub is_whole: bool,
    /// So many events were looked at one by one for what they drop.
    pub looks: u32,
}

/// What the walk of now comes to.
enum Now {
    Witnessed,
    Page(Known),
    Nothing,
}

impl<'w> Witness<'w> {
    fn is_known(&self, asked: &Asked) -> bool {
        let mut next = self.found.last(asked.p, asked.la, asked.slot);
        for _ in 0..MOST_KNOWN {
            let Some((known, before)) = self.found.get(next) else {
                return false;
            };
            let Known {
                value,
                rights,
                level,
                is_global,
                pcid,
                until,
            } = known;
            let kind = self.facts.kind(level, value);
            if (is_global || pcid == asked.control.pcid)
                && asked.slot <= until
                && asked.suits(self.facts, value, kind, rights)
            {
                return true;
            }
            next = before;
        }
        false
    }

    /// The walk of now.
    fn walk(&mut self, asked: &Asked) -> Now {
        let mut table = asked.control.root;
        let mut rights = Rights::ALL;
        for level in LEVELS {
            let address = table | ((asked.la >> level_shift(level)) % 512) << 3;
            self.looked.note(address);
            let value = match self.facts.writes.id(address) {
                Some(word) => self.made.value(word),
                None => 0,
            };
            let kind = self.facts.kind(level, value);
            rights = combine(rights, Entry(value));
            if asked.is_page() {
                if asked.suits(self.facts, value, kind, rights) {
                    return Now::Page(self.known_of(asked, value, rights, level, kind));
                }
            } else if asked.suits_now(self.facts, address, kind, rights) {
                return Now::Witnessed;
            }
            match kind {
                Kind::Table { addr } if may_cache(self.facts.version, Entry(value)) => {
                    table = addr;
                }
                _ => break,
            }
        }
        Now::Nothing
    }

    /// Whether the event may come next.
    pub(crate) fn is_witnessed(&mut self, asked: &Asked, windows: u32) -> Result<bool, AllocError> {
        if asked.is_hopeless {
            return Ok(false);
        }
        if asked.is_page() && self.is_known(asked) {
            return Ok(true);
        }
        match self.walk(asked) {
            Now::Witnessed => return Ok(true),
            Now::Page(known) => {
                self.found.note(asked.p, asked.la, known, self.made.now())?;
                return Ok(true);
            }
            Now::Nothing => {}
        }
        self.sweep(asked, windows)
    }

    /// The first walk in the order so far that witnesses the event.
    fn first_hit(&mut self, asked: &Asked, windows: u32) -> Result<Option<Hit>, AllocError> {
        let view = View {
            facts: self.facts,
            made: self.made,
            is_made: true,
        };
        let limits = Limits {
            windows,
            hits: 1,
            is_each: false,
        };
        let mut sweep = Sweep::new(self.alloc, view, asked, limits, *self.looked);
        sweep.swap_lists(self.scratch);
        sweep.run()?;
        sweep.swap_lists(self.scratch);
        *self.looked = sweep.looked;
        self.is_whole = sweep.is_whole;
        self.looks = self.looks.saturating_add(sweep.looks);
        Ok(sweep.hits.first().copied())
    }

    fn sweep(&mut self, asked: &Asked, windows: u32) -> Result<bool, AllocError> {
        let Some(hit) = self.first_hit(asked, windows)? else {
            return Ok(false);
        };
        if asked.is_page() {
            let known = self.known_by(asked, &hit);
            self.found.note(asked.p, asked.la, known, self.made.now())?;
        }
        Ok(true)
    }

    /// The last slot up to which a translation of a slot lasts.
    fn until(&mut self, asked: &Asked, page: (u16, Level, bool), slot: u32) -> u32 {
        let facts = self.facts;
        let Asked { p, la, .. } = *asked;
        facts.translation_to(p, page, la, slot, &mut self.looks)
    }

    /// A translation that the walk of now finds.
    fn known_of(
        &mut self,
        asked: &Asked,
        value: u64,
        rights: Rights,
        level: Level,
        kind: Kind,
    ) -> Known {
        let is_global = matches!(
            kind,
            Kind::Leaf {
                global_bit: true,
                ..
            }
        ) && asked.control.pge;
        let pcid = asked.control.pcid;
        Known {
            value,
            rights,
            level,
            is_global,
            pcid,
            until: self.until(asked, (pcid, level, is_global), asked.slot),
        }
    }

    /// A translation that a walk found.
    fn known_by(&mut self, asked: &Asked, hit: &Hit) -> Known {
        let last = match hit.readings.get(hit.count.wrapping_sub(1)) {
            Some(reading) => reading.to,
            None => 0,
        };
        let Hit {
            value,
            rights,
            level,
            is_global,
            pcid,
            ..
        } = *hit;
        let slot = self.made.slot(self.facts, asked.p, last);
        Known {
            value,
            rights,
            level,
            is_global,
            pcid,
            until: self.until(asked, (pcid, level, is_global), slot),
        }
    }
}
