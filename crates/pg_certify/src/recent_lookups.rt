//! Recent look-ups in a run, each kept while its answer stays. Nothing is claimed of it but where
//! tables can lie: moments are guessed by it, and judged before they are taken.

ghost use Rattle.std.specs.Prelude.{◌<◌, ◌^◌, length};

use pg_event::Event;
use pg_search::Seen;
use std::alloc::Global;

/// The table of level 4 and the PCID of a processor, and the first and the last of moments at which
/// it has them.
#[derive(Clone, Copy)]
struct Stay {
    root: u64,
    pcid: u16,
    from: u32,
    to: u32,
    ghost within: { root < 2 ^ 52 },
}

/// No processor has it at any moment.
const NO_STAY: Stay = Stay {
    root: 0,
    pcid: 0,
    from: 1,
    to: 0,
};

/// A word of memory, and the first and the last of moments at which it is the same.
#[derive(Clone, Copy)]
struct Word {
    address: u64,
    value: u64,
    from: u32,
    to: u32,
}

/// No word has this address.
const NO_WORD: Word = Word {
    address: u64::MAX,
    value: 0,
    from: 0,
    to: 0,
};

/// The binary logarithm of the number of words that are kept.
const WORD_BITS: u32 = 9;

/// So many words are kept, of 24 bytes each.
const WORDS: usize = 512;

/// An odd number whose multiples by the numbers from 0 on, cut to 64 bits, lie evenly apart.
const SPREAD: u64 = 0x9e37_79b9_7f4a_7c15;

/// What was asked last of each processor, and words of tables that were read last, always of the
/// same `Seen`. Where memory is refused, some are not kept.
#[derive(Drop)]
pub(crate) struct RecentLookups {
    alloc: Global,
    stays: Vec<Stay>,
    words: Vec<Word>,
}

/// The place of a word.
fn place_of(address: u64) -> usize {
    ((address / 8).wrapping_mul(SPREAD) >> (64 - WORD_BITS)) as usize
}

impl RecentLookups {
    pub(crate) fn new(alloc: Global) -> RecentLookups {
        RecentLookups {
            alloc,
            stays: Vec::new(alloc),
            words: Vec::new(alloc),
        }
    }

    fn keep(&mut self, p: u16, stay: Stay) {
        let count = p as usize + 1;
        if self.stays.len() < count {
            let _refused = self.stays.resize(count, NO_STAY).is_err();
        }
        if let Some(place) = self.stays.get_mut(p as usize) {
            *place = stay;
        }
    }

    #[inline(never)]
    fn look_up(&mut self, seen: &Seen<'_>, p: u16, moment: u32) -> Stay
        requires { p < length seen.now.head.processors }
    {
        let span = seen.control_span(p, moment);
        let stay = Stay {
            root: span.value.root,
            pcid: span.value.pcid,
            from: span.from,
            to: span.to,
        };
        self.keep(p, stay);
        stay
    }

    /// The PCID of a processor at a moment.
    #[inline(always)]
    pub(crate) fn pcid_at(&mut self, seen: &Seen<'_>, p: u16, moment: u32) -> u16
        requires { p < length seen.now.head.processors }
    {
        if let Some(stay) = self.stays.get(p as usize) {
            if stay.from <= moment && moment <= stay.to {
                return stay.pcid;
            }
        }
        self.look_up(seen, p, moment).pcid
    }

    /// The physical address of its table of level 4.
    pub(crate) fn root_at(&mut self, seen: &Seen<'_>, p: u16, moment: u32) -> u64
        requires { p < length seen.now.head.processors }
        ensures { result < 2 ^ 52 }
    {
        if let Some(stay) = self.stays.get(p as usize) {
            if stay.from <= moment && moment <= stay.to {
                return stay.root;
            }
        }
        self.look_up(seen, p, moment).root
    }

    /// Forgets what an event changes, which comes next.
    #[inline(always)]
    pub(crate) fn forget(&mut self, event: &Event) {
        match event {
            Event::Write { addr, .. } => self.forget_word(*addr),
            Event::Assist { word, .. } => self.forget_word(*word),
            Event::MovCr3 { p, .. } | Event::MovCr4Pge { p, .. } => self.forget_stay(*p),
            Event::Access { .. } | Event::Invlpg { .. } | Event::Invpcid { .. } => {}
        }
    }

    fn forget_word(&mut self, address: u64) {
        if let Some(word) = self.words.get_mut(place_of(address)) {
            if word.address == address {
                *word = NO_WORD;
            }
        }
    }

    fn forget_stay(&mut self, p: u16) {
        if let Some(stay) = self.stays.get_mut(p as usize) {
            *stay = NO_STAY;
        }
    }

    #[inline(never)]
    fn look_up_word(&mut self, seen: &Seen<'_>, moment: u32, address: u64) -> (u64, u32) {
        let span = seen.value_span(moment, address);
        if self.words.is_empty() {
            if let Ok(words) = Vec::from_elem(self.alloc, NO_WORD, WORDS) {
                self.words = words;
            }
        }
        if let Some(place) = self.words.get_mut(place_of(address)) {
            *place = Word {
                address,
                value: span.value,
                from: span.from,
                to: span.to,
            };
        }
        (span.value, span.from)
    }

    /// The word at a physical address at a moment, and the first moment from which on it is that.
    #[inline(always)]
    pub(crate) fn word_at(&mut self, seen: &Seen<'_>, moment: u32, address: u64) -> (u64, u32) {
        if let Some(word) = self.words.get(place_of(address)) {
            if word.address == address && word.from <= moment && moment <= word.to {
                return (word.value, word.from);
            }
        }
        self.look_up_word(seen, moment, address)
    }
}
