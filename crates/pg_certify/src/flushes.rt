//! Since when what processors have may have been read. Nothing is claimed of it.

use std::alloc::Global;
use std::collections::HashMap;

/// The moments after the last events at which a processor dropped what it had, and 0 where none
/// did.
#[derive(Clone, Copy)]
struct Dropped {
    /// All but global pages.
    all: u32,
    /// Global pages.
    globals: u32,
    /// The PCID that was asked last.
    pcid: u16,
    /// What it had for that.
    own: u32,
}

const NEVER: Dropped = Dropped {
    all: 0,
    globals: 0,
    pcid: 0,
    own: 0,
};

/// When what processors had was dropped. Where memory is refused, some is not kept.
#[derive(Drop)]
pub(crate) struct Flushes {
    /// What was dropped of one PCID alone.
    by_pcid: HashMap<u64, u32>,
    by_processor: Vec<Dropped>,
}

/// A key that tells a PCID of a processor.
fn space_of(p: u16, pcid: u16) -> u64 {
    (p as u64) << 16 | pcid as u64
}

impl Flushes {
    pub(crate) fn new(alloc: Global) -> Flushes {
        Flushes {
            by_pcid: HashMap::new(alloc),
            by_processor: Vec::new(alloc),
        }
    }

    #[inline(never)]
    fn look_up(&mut self, p: u16, pcid: u16) -> u32 {
        let own = match self.by_pcid.get(&space_of(p, pcid)) {
            Some(moment) => *moment,
            None => 0,
        };
        match self.by_processor.get_mut(p as usize) {
            Some(dropped) => {
                dropped.pcid = pcid;
                dropped.own = own.max(dropped.all);
                dropped.own
            }
            None => own,
        }
    }

    /// The first moment since which what a processor has for a PCID may have been read. Mostly it
    /// is asked of the same PCID as before.
    #[inline(always)]
    pub(crate) fn since(&mut self, p: u16, pcid: u16) -> u32 {
        match self.by_processor.get(p as usize) {
            None => 0,
            Some(dropped) => if dropped.pcid == pcid {
                dropped.own
            } else {
                self.look_up(p, pcid)
            },
        }
    }

    /// The first moment since which what a processor has for its global pages may have been read.
    #[inline(always)]
    pub(crate) fn globals_since(&self, p: u16) -> u32 {
        match self.by_processor.get(p as usize) {
            None => 0,
            Some(dropped) => dropped.globals,
        }
    }

    fn make_room(&mut self, p: u16) {
        let count = p as usize + 1;
        if self.by_processor.len() < count {
            let _refused = self.by_processor.resize(count, NEVER).is_err();
        }
    }

    /// Takes note that what a processor had for a PCID was dropped before a moment.
    pub(crate) fn note(&mut self, moment: u32, p: u16, pcid: u16) {
        let _refused = self.by_pcid.insert(space_of(p, pcid), moment).is_err();
        self.make_room(p);
        if let Some(dropped) = self.by_processor.get_mut(p as usize) {
            if dropped.pcid == pcid {
                dropped.own = moment;
            }
        }
    }

    /// Takes note that what a processor had for any PCID was dropped, but for global pages.
    pub(crate) fn note_all(&mut self, moment: u32, p: u16) {
        self.make_room(p);
        if let Some(dropped) = self.by_processor.get_mut(p as usize) {
            dropped.all = moment;
            dropped.own = moment;
        }
    }

    /// Takes note that all that a processor had was dropped.
    pub(crate) fn note_with_globals(&mut self, moment: u32, p: u16) {
        self.note_all(moment, p);
        if let Some(dropped) = self.by_processor.get_mut(p as usize) {
            dropped.globals = moment;
        }
    }
}
