//! Where walks are kept, and how many places there are.

ghost use Rattle.std.specs.Prelude.{◌≡◌, ℕ, [], Some};
ghost use Rattle.pg_entry.specs.Kinds.{IsPageShift};
ghost use Rattle.pg_chain.specs.declared.past.Past.{Past};
ghost use Rattle.pg_check.specs.Remembered.{HasWalk, HaveWalks, page_bits, page_start};

use crate::memo::{Slot, is_to};
use crate::place::Place;
use crate::stems::Stem;
use pg_chain::{Past, place_among};
use pg_inval::Tally;
use std::alloc::Global;

/// Slots that outlive the memo that filled them, and upper parts of walks.
#[derive(Drop)]
pub struct WalkCache {
    pub slots: Vec<Place>,
    /// How many walks were made for them.
    pub made: usize,
    pub stems: Vec<Option<Stem>>,
    /// How many entries of the log look-ups passed over since lists of their kind were made.
    pub passed: Tally,
    /// What was read ahead, as one number. Nothing asks for it; but a reading that nothing uses is
    /// left out by the compiler.
    pub seen: u64,
}

impl WalkCache {
    /// No slot.
    pub fn new(alloc: Global) -> WalkCache
        ensures slots { result.slots.items ≡ [] }
        ensures stems { result.stems.items ≡ [] }
    {
        WalkCache {
            slots: Vec::new(alloc),
            made: 0,
            stems: Vec::new(alloc),
            passed: Tally::NONE,
            seen: 0,
        }
    }

    /// So many slots with no walk. Where memory is refused there are none.
    pub(crate) fn with_slots(alloc: Global, count: usize) -> WalkCache
        ensures { (past : Past) (limit : ℕ) → HaveWalks past limit result.slots.items }
    {
        WalkCache {
            slots: empty_slots(alloc, count),
            made: 0,
            stems: Vec::new(alloc),
            passed: Tally::NONE,
            seen: 0,
        }
    }

    /// Makes room for the walks that may have come before the event with this number.
    pub(crate) fn make_room(&mut self, past: &Past, number: u32)
        ensures walks { (past : Past) (limit : ℕ) → HaveWalks past limit self.old.slots.items →
            HaveWalks past limit self.new.slots.items }
        ensures stems { self.new.stems ≡ self.old.stems }
    {
        if self.slots.len() >= MOST_FIRST_SLOTS {
            return;
        }
        let count = first_slots(past, walks_before(number));
        if self.slots.len() < count {
            self.slots = empty_slots(past.alloc, count);
        }
    }

    /// Makes room at the first of two places: what it has goes to the other.
    fn make_way(&mut self, first: usize)
        ensures walks { (past : Past) (limit : ℕ) → HaveWalks past limit self.old.slots.items →
            HaveWalks past limit self.new.slots.items }
        ensures stems { self.new.stems ≡ self.old.stems }
    {
        let second = first | 1;
        if first < self.slots.len() && second < self.slots.len() {
            let before = self.slots[first];
            self.slots[second] = before;
        }
    }

    /// Whether a place has a walk to a page under this PCID, by whatever moments.
    fn is_taken_for(&self, place: usize, p: u16, page: u64, pcid: u16) -> bool {
        match self.slots.get(place) {
            Some(kept) => match kept.slot() {
                Some(slot) => is_to(slot, p, page) && slot.pcid == pcid,
                None => false,
            },
            None => false,
        }
    }

    /// Which of two places a new walk takes: that of an earlier walk to the page, which it follows,
    /// else the first.
    pub(crate) fn room_for(&mut self, first: usize, p: u16, page: u64, pcid: u16) -> usize
        ensures walks { (past : Past) (limit : ℕ) → HaveWalks past limit self.old.slots.items →
            HaveWalks past limit self.new.slots.items }
        ensures stems { self.new.stems ≡ self.old.stems }
    {
        if self.is_taken_for(first, p, page, pcid) {
            first
        } else if self.is_taken_for(first | 1, p, page, pcid) {
            first | 1
        } else {
            self.make_way(first);
            first
        }
    }

    /// Keeps a walk at a place, where there is one.
    pub(crate) fn put(&mut self, place: usize, slot: Slot)
        requires { IsPageShift slot.shift }
        ensures walks { (past : Past) (limit : ℕ) → HasWalk past limit (Some slot) →
            HaveWalks past limit self.old.slots.items → HaveWalks past limit self.new.slots.items }
        ensures stems { self.new.stems ≡ self.old.stems }
    {
        if place < self.slots.len() {
            self.slots[place] = Place::of(slot);
        }
    }

    /// Counts a walk that was made, and tells whether there may be more slots from now on: as many
    /// walks were made as there are slots.
    #[inline(always)]
    pub(crate) fn count_walk(&mut self) -> bool
        ensures slots { self.new.slots ≡ self.old.slots }
        ensures stems { self.new.stems ≡ self.old.stems }
    {
        self.made = self.made.saturating_add(1);
        self.made > self.slots.len()
    }

    /// Makes room for more walks, up to so many, unless memory is refused. Where there is none or
    /// no more, it is asked for again after as many walks more as there are slots.
    #[inline(never)]
    pub(crate) fn grow(&mut self, alloc: Global, most: usize)
        ensures walks { (past : Past) (limit : ℕ) → HaveWalks past limit self.old.slots.items →
            HaveWalks past limit self.new.slots.items }
        ensures stems { self.new.stems ≡ self.old.stems }
    {
        let count = self.slots.len();
        if count >= most {
            self.made = 0;
            return;
        }
        let mut more = empty_slots(alloc, next_count(count, most));
        if more.len() > count {
            put_all(self.slots.as_slice(), &mut more);
            self.slots = more;
        } else {
            self.made = 0;
        }
    }
}

/// Slots that outlive a window are so many at first for each recorded processor.
const SLOTS_FOR_EACH: usize = 1_024;

/// They are so many at least at first, however few processors there are.
const FIRST_SLOTS: usize = 4_096;

/// They are so many at most at first, however many processors there are.
const MOST_FIRST_SLOTS: usize = 32_768;

/// There may be so many in the end for each recorded processor.
const MOST_FOR_EACH: usize = 4_096;

/// There may be so many in the end, however few processors there are.
const MOST_KEPT_SLOTS: usize = 65_536;

/// There are never more, however many processors there are.
const MOST_OF_ALL: usize = 131_072;

/// Where there are more slots, there are so many times as many.
const TIMES: usize = 4;

/// The first address of the page that a leaf maps where so many levels are read. Walks by the same
/// moments to addresses of one page are alike. Each size stands as a constant, since each access
/// asks this and a division by another number costs much.
pub(crate) fn page_of(la: u64, levels: usize) -> u64
    ensures { result ≡ page_start (page_bits levels) la }
{
    match levels {
        4 => la - la % (1 << 12),
        3 => la - la % (1 << 21),
        _ => la - la % (1 << 30),
    }
}

/// The first of the two places, of so many, of the walks of a processor to a page by so many levels
/// while this PCID is current. Neither moments nor the walk's own PCID take part, so that a walk
/// that was dropped gives its place to the one that follows it. The pages of the upper half have
/// the same place under each PCID, since global ones lie there. Pages that follow each other are
/// spread evenly.
pub(crate) fn place_of(count: usize, p: u16, page: u64, levels: usize, current: u16) -> usize {
    let space = if page >> 63 == 0 { current as u64 } else { 0 };
    spread(count, p, page, levels, space) & !1
}

/// One of so many places. Pages that follow each other are spread evenly.
pub(crate) fn spread(count: usize, p: u16, page: u64, levels: usize, space: u64) -> usize {
    let key = (p as u64) << 40 | (levels as u64) << 36 | page % (1 << 48) / 4096;
    place_among(count, key ^ space << 50)
}

/// So many slots are worth their room at first where so many walks may come.
pub(crate) fn first_slots(past: &Past, walks: usize) -> usize {
    let all = past.controls.processors().saturating_mul(SLOTS_FOR_EACH);
    walks.min(all.max(FIRST_SLOTS).min(MOST_FIRST_SLOTS))
}

/// So many walks may have come before the event with this number, as a number that rarely grows:
/// whenever it does, slots begin anew.
fn walks_before(number: u32) -> usize {
    match number {
        0..256 => 256,
        256..4096 => 4_096,
        _ => usize::MAX,
    }
}

/// So many slots at most outlive a window.
pub(crate) fn most_slots(past: &Past) -> usize {
    let all = past.controls.processors().saturating_mul(MOST_FOR_EACH);
    all.max(MOST_KEPT_SLOTS).min(MOST_OF_ALL)
}

/// So many slots. Where memory is refused there are none.
fn empty_slots(alloc: Global, count: usize) -> Vec<Place>
    ensures { (past : Past) (limit : ℕ) → HaveWalks past limit result.items }
{
    match Vec::from_elem(alloc, Place::empty(), count) {
        Ok(slots) => slots,
        Err(_) => Vec::new(alloc),
    }
}

/// Keeps what a place has at its own among others, where there is one.
fn put(slots: &mut Vec<Place>, kept: Place)
    ensures { (past : Past) (limit : ℕ) → HasWalk past limit kept →
        HaveWalks past limit slots.old.items → HaveWalks past limit slots.new.items }
{
    let Some(slot) = kept.slot() else {
        return;
    };
    let levels = slot.moments.len();
    let place = place_of(slots.len(), slot.p, slot.page, levels, slot.pcid);
    if place < slots.len() {
        slots[place] = kept;
    }
}

/// Keeps what slots have among others too.
fn put_all(from: &[Place], to: &mut Vec<Place>)
    ensures { (past : Past) (limit : ℕ) → HaveWalks past limit from.now →
        HaveWalks past limit to.old.items → HaveWalks past limit to.new.items }
{
    for kept in from {
        put(to, *kept);
    }
}

/// How many slots follow so many, where there may be so many at most.
fn next_count(count: usize, most: usize) -> usize {
    count.saturating_mul(TIMES).min(most)
}
