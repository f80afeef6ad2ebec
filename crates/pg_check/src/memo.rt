//! Walks that were made, kept so that they need not be made again.

ghost use Rattle.std.specs.Prelude.{◌≡◌, ◌+◌, ◌<◌, ◌^◌, ℕ, List, Ok, Some, None};
ghost use Rattle.std.specs.Prelude.{IfOk, IfSome, IsTrue};
ghost use Rattle.pg_event.specs.declared.event.Event.{Event};
ghost use Rattle.pg_event.specs.declared.event.Want.TheVariants.{Leaf};
ghost use Rattle.pg_event.specs.Heads.{Head};
ghost use Rattle.pg_event.specs.Values.{control_at};
ghost use Rattle.pg_chain.specs.declared.past.Past.{Past};
ghost use Rattle.pg_chain.specs.Standing.{IsPast, processor_count};
ghost use Rattle.pg_chain.specs.Walked.{chain_of};
ghost use Rattle.pg_entry.specs.Kinds.{IsPageShift};
ghost use Rattle.pg_check.specs.Lasting.{IsAsked, IsLasting, IsWalk};
ghost use Rattle.pg_check.specs.Remembered.{HasWalk, HaveWalks, IsWithin, frame_in, walk_in};

use crate::lasting::{Asking, Lasting, asked_up_to, is_asked, lasting_walk};
use crate::place::Place;
use crate::places::{WalkCache, first_slots, most_slots, page_of, place_of};
use crate::walk::is_in_order;
use pg_chain::{Chain, EntryRead, Past, Reader, chain_by, kind_at};
use pg_entry::{Kind, Level, Rights, page_offset};
use pg_event::{Claim, Control, Moments, Reason, Want};
use pg_inval::Tally;
use std::marker::Model;

/// A walk that was made: which one, and what it came to. The page is told by its first address: no
/// walk depends on the offset in it. The walk's parts stand side by side, so that a slot is short.
///
/// A large block begins 16 bytes behind the start of a line of the cache, so the first 48 bytes of
/// each slot lie in one line: what a look reads first stands there.
#[derive(Clone, Copy)]
pub struct Slot {
    pub page: u64,
    pub p: u16,
    pub pcid: u16,
    /// Up to this event, not with it, it was looked up when the translation had to go.
    pub asked: u32,
    pub value: u64,
    pub moments: Moments,
    /// The binary logarithm of the size of the page that the leaf maps.
    pub shift: u8,
    /// Whether the translation had to go at the last event below `asked`, and at none before: so
    /// one number says both.
    pub dropped: bool,
    pub global: bool,
    pub tables: bool,
    pub rights: Rights,
    pub level: Level,
    pub moment: u32,
    pub address: u64,
}

/// What the walk of a slot came to.
#[inline(always)]
pub(crate) fn walk_in(slot: &Slot) -> Lasting
    ensures { result ≡ walk_in slot.now }
{
    Lasting {
        chain: Chain {
            pcid: slot.pcid,
            tables: slot.tables,
            end: EntryRead {
                level: slot.level,
                address: slot.address,
                value: slot.value,
                moment: slot.moment,
                rights: slot.rights,
            },
        },
        global: slot.global,
        asked: slot.asked,
        dropped: if slot.dropped {
            Some(slot.asked.saturating_sub(1))
        } else {
            None
        },
    }
}

/// The first physical address of the page that the leaf of a slot maps. The bits of a leaf from the
/// width of physical addresses up to 52 are 0, so that no hit asks for that width.
#[inline(always)]
pub(crate) fn frame_in(slot: &Slot) -> u64
    requires { IsPageShift slot.now.shift }
    ensures frame { result ≡ frame_in slot.now }
    ensures within { result < 2 ^ 52 }
{
    let address = slot.value % (1 << 52);
    address - page_offset(address, slot.shift)
}

/// Up to which event it is said when the translation of a walk had to go: where that is known, up
/// to the event after it, which is enough.
fn asked_in(walk: Lasting) -> u32
    ensures none { walk.dropped ≡ None → result ≡ walk.asked }
    ensures some { (first : ℕ) → walk.dropped ≡ Some first → first < walk.asked →
        result ≡ first + 1 }
{
    match walk.dropped {
        Some(first) => first.saturating_add(1),
        None => walk.asked,
    }
}

/// The slot of a walk that ends with a leaf, which maps a page of 2 to the power of `shift` bytes.
pub(crate) fn slot_of(p: u16, page: u64, moments: &Moments, walk: Lasting, shift: u8) -> Slot
    ensures names { (result.p ≡ p) × (result.page ≡ page) × (result.moments ≡ moments.now) }
    ensures leaf { result.shift ≡ shift }
    ensures chain { (walk_in result).chain ≡ walk.chain }
    ensures standing { walk.dropped ≡ None → walk_in result ≡ walk }
    ensures lasting { (head : Head) (events : List Event) → IsLasting head events p page walk →
        IsLasting head events p page (walk_in result) }
{
    let end = walk.chain.end;
    Slot {
        page,
        p,
        pcid: walk.chain.pcid,
        asked: asked_in(walk),
        value: end.value,
        moments: *moments,
        shift,
        dropped: walk.dropped.is_some(),
        global: walk.global,
        tables: walk.chain.tables,
        rights: end.rights,
        level: end.level,
        moment: end.moment,
        address: end.address,
    }
}

/// Whether what a slot says rests on the first so many events alone, so that later ones leave it.
pub(crate) fn is_within(slot: &Slot, limit: u32) -> bool
    requires { IsPageShift slot.now.shift }
    ensures { IsTrue result → IsWithin limit slot.now }
{
    slot.moment <= limit && slot.asked <= limit && is_in_order(slot.moments.as_slice(), limit)
}

/// Walks that were made by a past. Where levels are read long before they are used, most accesses
/// have a walk that another had before. A slot that is needed for another walk is taken.
#[derive(Drop)]
pub struct Memo<'a> {
    reader: Reader<'a>,
    kept: WalkCache,
    /// What the slots say rests on the first so many events.
    limit: u32,
    /// So many slots there are at most.
    most: usize,
}

impl<'a> Model for Memo<'a> {
    ghost use Rattle.pg_chain.specs.declared.past.Past.{Past};

    ghost Value = { Past };

    ghost use Rattle.pg_check.specs.Remembered.{HaveWalks};

    ghost view = { λ memo. memo.reader };

    ghost invariant = { λ memo. HaveWalks memo.reader memo.limit memo.kept.slots.items };
}

/// So many walks are kept at most by a memo for a round: more would not stay in a cache of the
/// processor that judges.
const MOST_SLOTS: usize = 16_384;

/// Whether a walk is worth a slot: one to a leaf. One that ends otherwise is used at its own event
/// alone.
fn may_be_kept(want: Want) -> bool
    ensures { IsTrue result → want ≡ Leaf }
{
    match want {
        Want::Leaf => true,
        Want::Absent | Want::Reserved | Want::Present => false,
    }
}

/// Whether a slot has a walk of a processor to a page.
#[inline(always)]
pub(crate) fn is_to(slot: &Slot, p: u16, page: u64) -> bool
    ensures { IsTrue result → (slot.now.p ≡ p) × (slot.now.page ≡ page) }
{
    slot.p == p && slot.page == page
}

/// Whether a slot has the walk of a processor to a page by these moments.
#[inline(always)]
fn is_of(slot: &Slot, p: u16, page: u64, moments: &Moments) -> bool
    ensures { IsTrue result → (slot.now.p ≡ p) × (slot.now.page ≡ page)
        × (slot.now.moments ≡ moments.now) }
{
    is_to(slot, p, page) && slot.moments == *moments
}

/// What a place of some slots has of a walk to a page. Each access asks it, so that a call would
/// cost much.
#[inline(always)]
pub(crate) fn slot_at(
    slots: &[Place],
    place: usize,
    p: u16,
    page: u64,
    moments: &Moments,
) -> Option<Slot>
    ensures names { IfSome result
        (λ s. (s.p ≡ p) × (s.page ≡ page) × (s.moments ≡ moments.now)) }
    ensures walk { (past : Past) (limit : ℕ) → HaveWalks past limit slots.now →
        IfSome result (λ s. HasWalk past limit (Some s)) }
{
    let slot = slots.get(place)?.slot()?;
    if is_of(slot, p, page, moments) {
        Some(*slot)
    } else {
        None
    }
}

/// A walk that a memo has, and at which of its places.
#[derive(Clone, Copy)]
struct Found {
    place: usize,
    walk: Lasting,
}

impl<'a> Memo<'a> {
    /// No walk. There is room for so many, up to a limit; where memory is refused, each walk is
    /// made anew.
    pub(crate) fn new(past: &'a Past, walks: usize) -> Memo<'a>
        ensures { result ≡ past.now }
    {
        let most = walks.min(MOST_SLOTS);
        Memo {
            reader: Reader::new(past, walks),
            kept: WalkCache::with_slots(past.alloc, first_slots(past, most)),
            limit: u32::MAX,
            most,
        }
    }

    /// The walks that slots have, at the event that comes next, whose number this is: nothing that
    /// is looked up is kept beside them, since it would not outlast the event.
    pub(crate) fn at_tip(past: &'a Past, kept: WalkCache, number: u32) -> Memo<'a>
        requires { HaveWalks past.now number kept.slots.items }
        ensures { result ≡ past.now }
    {
        let mut own = kept;
        own.make_room(past, number);
        let most = most_slots(past);
        Memo {
            reader: Reader::new(past, 0),
            kept: own,
            limit: number,
            most,
        }
    }

    /// How many entries of the log its look-ups passed over.
    pub(crate) fn passed(&self) -> Tally {
        self.reader.passed()
    }

    /// The slots, where they rest on the first so many events.
    pub(crate) fn into_slots(self, limit: u32) -> WalkCache
        ensures { HaveWalks self.entry limit result.slots.items }
    {
        let alloc = self.past().alloc;
        let Memo {
            reader: _,
            kept,
            limit: own,
            most: _,
        } = self;
        if own <= limit {
            kept
        } else {
            WalkCache::new(alloc)
        }
    }

    /// What the run did.
    pub(crate) fn past(&self) -> &Past
        ensures { result.now ≡ self.now }
    {
        self.reader.past()
    }

    /// Counts a walk that was made.
    fn count_walk(&mut self)
        ensures { self.new ≡ self.old }
    {
        if self.kept.count_walk() {
            let alloc = self.past().alloc;
            self.kept.grow(alloc, self.most);
        }
    }

    /// How many moments its look-ups in the past have read: none for a walk that it kept.
    pub fn probes(&self) -> u64 {
        self.reader.probes()
    }

    /// The control registers of a processor just before the event with this number.
    pub(crate) fn control_at(&mut self, p: u16, moment: u32) -> Control
        requires { p < processor_count self.old }
        ensures past { self.new ≡ self.old }
        ensures run { (head : Head) (events : List Event) → IsPast self.old head events →
            result ≡ control_at head events p moment }
    {
        self.reader.control_at(p, moment)
    }

    /// The walk of an access by its moments, which is not kept, or the least of the reasons
    /// `Entry`, `Context` and `StructureDropped`.
    pub(crate) fn walk_once(
        &mut self,
        p: u16,
        la: u64,
        moments: &Moments,
        want: Want,
    ) -> Result<Chain, Reason>
        requires { p < processor_count self.old }
        ensures past { self.new ≡ self.old }
        ensures chain { (head : Head) (events : List Event) → IsPast self.old head events →
            result ≡ chain_of head events p la moments.now want }
    {
        chain_by(&mut self.reader, p, la, moments, want)
    }

    /// What a place has of a walk to a page.
    #[inline(always)]
    fn kept_at(&self, place: usize, p: u16, page: u64, moments: &Moments) -> Option<Lasting>
        ensures { (head : Head) (events : List Event) → IsPast self.now head events →
            IfSome result (λ l. IsWalk head events p page Leaf moments.now (Ok l)) }
    {
        match slot_at(self.kept.slots.as_slice(), place, p, page, moments) {
            Some(slot) => Some(walk_in(&slot)),
            None => None,
        }
    }

    /// What was kept of a walk to a page at the first of its two places or at the other, and where.
    fn kept(&self, first: usize, p: u16, page: u64, moments: &Moments) -> Option<Found>
        ensures { (head : Head) (events : List Event) → IsPast self.now head events →
            IfSome result (λ found. IsWalk head events p page Leaf moments.now (Ok found.walk)) }
    {
        let other = first | 1;
        match self.kept_at(first, p, page, moments) {
            Some(walk) => Some(Found { place: first, walk }),
            None => match self.kept_at(other, p, page, moments) {
                Some(walk) => Some(Found { place: other, walk }),
                None => None,
            },
        }
    }

    /// Keeps a walk that was not kept, at one of its two places.
    fn remember(&mut self, first: usize, p: u16, page: u64, moments: &Moments, walk: Lasting)
        requires { (head : Head) (events : List Event) → IsPast self.old head events →
            IsWalk head events p page Leaf moments.now (Ok walk) }
        ensures { self.new ≡ self.old }
    {
        let place = self.kept.room_for(first, p, page, walk.chain.pcid);
        self.keep(place, p, page, moments, walk);
    }

    /// Keeps what a walk to a page came to at a place, where there is one, unless it rests on later
    /// events than the others.
    fn keep(&mut self, place: usize, p: u16, page: u64, moments: &Moments, walk: Lasting)
        requires { (head : Head) (events : List Event) → IsPast self.old head events →
            IsWalk head events p page Leaf moments.now (Ok walk) }
        ensures { self.new ≡ self.old }
    {
        let Kind::Leaf { shift, .. } = kind_at(self.reader.cfg(), walk.chain.end) else {
            return;
        };
        let slot = slot_of(p, page, moments, walk, shift);
        if is_within(&slot, self.limit) {
            self.kept.put(place, slot);
        }
    }

    /// A walk that a place has. The first event after those up to which that was asked, asks when
    /// its translation had to go.
    fn asked_walk(
        &mut self,
        number: u32,
        p: u16,
        page: u64,
        moments: &Moments,
        found: Found,
    ) -> Lasting
        requires { (head : Head) (events : List Event) → IsPast self.old head events →
            IsWalk head events p page Leaf moments.now (Ok found.walk) }
        ensures past { self.new ≡ self.old }
        ensures asked { IsAsked number result }
        ensures walk { (head : Head) (events : List Event) → IsPast self.old head events →
            IsWalk head events p page Leaf moments.now (Ok result) }
    {
        let Found { place, walk } = found;
        if is_asked(&walk, number) {
            return walk;
        }
        let known = asked_up_to(&mut self.reader, p, page, walk, number.max(self.limit));
        self.keep(place, p, page, moments, known);
        known
    }

    /// A walk that was not kept, and is from now on, at one of its two places.
    fn walk_anew(
        &mut self,
        number: u32,
        first: usize,
        p: u16,
        page: u64,
        moments: &Moments,
    ) -> Result<Lasting, Reason>
        requires { p < processor_count self.old }
        ensures past { self.new ≡ self.old }
        ensures asked { IfOk result (IsAsked number) }
        ensures walk { (head : Head) (events : List Event) → IsPast self.old head events →
            IsWalk head events p page Leaf moments.now result }
    {
        let asking = Asking {
            number,
            to: self.limit,
        };
        match lasting_walk(&mut self.reader, asking, p, page, moments, Want::Leaf) {
            Ok(walk) => {
                self.remember(first, p, page, moments, walk);
                self.count_walk();
                Ok(walk)
            }
            Err(reason) => Err(reason),
        }
    }

    /// The walk of an access to a page by its moments, at an event with this number.
    fn page_walk(
        &mut self,
        number: u32,
        first: usize,
        p: u16,
        page: u64,
        moments: &Moments,
    ) -> Result<Lasting, Reason>
        requires { p < processor_count self.old }
        ensures past { self.new ≡ self.old }
        ensures asked { IfOk result (IsAsked number) }
        ensures walk { (head : Head) (events : List Event) → IsPast self.old head events →
            IsWalk head events p page Leaf moments.now result }
    {
        match self.kept(first, p, page, moments) {
            Some(found) => Ok(self.asked_walk(number, p, page, moments, found)),
            None => self.walk_anew(number, first, p, page, moments),
        }
    }

    /// The walk of an access by its moments, and how long its translation lasts as far as its event
    /// asks, or the least of the reasons `Entry`, `Context` and `StructureDropped`. `current` is
    /// the PCID at the event: walks are placed by it.
    pub(crate) fn walk(
        &mut self,
        claim: &Claim,
        current: u16,
        moments: &Moments,
        want: Want,
    ) -> Result<Lasting, Reason>
        requires { claim.now.p < processor_count self.old }
        ensures past { self.new ≡ self.old }
        ensures asked { IfOk result (IsAsked claim.now.number) }
        ensures walk { (head : Head) (events : List Event) → IsPast self.old head events →
            IsWalk head events claim.now.p claim.now.la want moments.now result }
    {
        let Claim { number, p, la, .. } = *claim;
        if may_be_kept(want) {
            let levels = moments.len();
            let page = page_of(la, levels);
            let first = place_of(self.kept.slots.len(), p, page, levels, current);
            self.page_walk(number, first, p, page, moments)
        } else {
            let asking = Asking { number, to: number };
            lasting_walk(&mut self.reader, asking, p, la, moments, want)
        }
    }
}
