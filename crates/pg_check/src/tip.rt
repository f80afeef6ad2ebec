//! The event that comes next, judged by what stands now: by a walk that was kept, where nothing
//! dropped its translation since, as a processor uses its TLB.

ghost use Rattle.std.specs.Prelude.{◌≡◌, ◌<◌, ◌≤◌, ◌^◌, ℕ, List, length, Ok, Some, None, IfSome};
ghost use Rattle.std.specs.Prelude.{IsTrue, true, false};
ghost use Rattle.pg_entry.specs.declared.Kind.TheVariants as kinds;
ghost use Rattle.pg_entry.specs.Kinds.{IsPageShift, kind_of};
ghost use Rattle.pg_event.specs.declared.event.Event.{Event};
ghost use Rattle.pg_event.specs.declared.event.Want.TheVariants.{Leaf};
ghost use Rattle.pg_event.specs.Form.{processor_of};
ghost use Rattle.pg_event.specs.Heads.{Head};
ghost use Rattle.pg_event.specs.Wants.{want_of};
ghost use Rattle.pg_event.specs.Invalidation.{translation_key};
ghost use Rattle.pg_event.specs.Values.{control_at};
ghost use Rattle.pg_event.specs.Witness.{failing_access, failing_event, is_in_order};
ghost use Rattle.pg_event.specs.Witness.{translation_survives};
ghost use Rattle.pg_chain.specs.declared.past.Past.{Past};
ghost use Rattle.pg_chain.specs.Standing.{InEachRun, IsNext, processor_count};
ghost use Rattle.pg_chain.specs.Walked.{chain_of};
ghost use Rattle.pg_check.specs.Judgements.{IsRight};
ghost use Rattle.pg_check.specs.Lasting.{IsLasting, IsWalk};
ghost use Rattle.pg_check.specs.Remembered.{HasWalk, HaveWalks, IsLeaf, IsWithin, lasting_to};
ghost use Rattle.pg_check.specs.Remembered.{page_bits, page_start};
ghost use Rattle.pg_check.specs.Stems.{HaveStems};

use crate::access::failing_leaf_chain;
use crate::by_past::failing;
use crate::judgement::Judgement;
use crate::lasting::Lasting;
use crate::memo::{Memo, Slot, frame_in, slot_at, slot_of, walk_in};
use crate::places::{WalkCache, most_slots, page_of, place_of};
use crate::stems::{Region, Stem, split_last, stem_for};
use pg_chain::{Chain, EntryRead, Past, chain_further, kind_at};
use pg_entry::{Cfg, Kind};
use pg_event::{
    Claim, Event, Moments, Reason, Request, Want, processor_of, translation_key, want_of,
};
use pg_inval::Tally;
use std::mem;

/// Whether nothing dropped the translation of a slot since that was asked, as is told without a
/// look into lists.
#[inline(always)]
fn outlasts(past: &Past, slot: &Slot) -> bool
    requires { IsPageShift slot.now.shift }
    ensures found { IsTrue result → slot.now.dropped ≡ false }
    ensures run { IsTrue result → let s = slot.now in
        let key = translation_key s.pcid s.shift s.global s.page in
        (to : ℕ) → InEachRun past.now (λ head events.
        translation_survives head events s.p key s.asked to ≡ true) }
{
    let key = translation_key(slot.pcid, slot.shift, slot.global, slot.page);
    !slot.dropped && past.translation_outlasts(slot.p, key, slot.asked)
}

/// The slot of an access to a page that the first of two places has, or else the other.
#[inline(always)]
fn kept_slot(kept: &WalkCache, first: usize, p: u16, page: u64, moments: &Moments) -> Option<Slot>
    ensures names { IfSome result
        (λ s. (s.p ≡ p) × (s.page ≡ page) × (s.moments ≡ moments.now)) }
    ensures walk { (past : Past) (limit : ℕ) → HaveWalks past limit kept.now.slots.items →
        IfSome result (λ s. HasWalk past limit (Some s)) }
{
    let slots = kept.slots.as_slice();
    match slot_at(slots, first, p, page, moments) {
        Some(slot) => Some(slot),
        None => slot_at(slots, first | 1, p, page, moments),
    }
}

/// The slot with the walk of the access that comes next, where it stands. `current` is the PCID:
/// walks are placed by it.
#[inline(always)]
fn standing_slot(
    past: &Past,
    kept: &WalkCache,
    current: u16,
    claim: &Claim,
    moments: &Moments,
) -> Option<Slot>
    requires { HaveWalks past.now claim.now.number kept.now.slots.items }
    ensures some { 1 ≤ length moments.now }
    ensures within { IfSome result (λ s. IsWithin claim.now.number s
        × (s.moments ≡ moments.now)) }
    ensures leaf { InEachRun past.now (λ head events. IfSome result (IsLeaf head)) }
    ensures walk { InEachRun past.now (λ head events. IfSome result
        (λ s. IsWalk head events claim.now.p claim.now.la Leaf moments.now
        (Ok (lasting_to claim.now.number s)))) }
{
    let levels = moments.len();
    let page = page_of(claim.la, levels);
    let first = place_of(kept.slots.len(), claim.p, page, levels, current);
    match kept_slot(kept, first, claim.p, page, moments) {
        Some(slot) => if outlasts(past, &slot) {
            Some(slot)
        } else {
            None
        },
        None => None,
    }
}

/// The walk of a slot, of which it is known that nothing drops its translation before the event
/// with this number.
#[inline(always)]
fn lasting_to(number: u32, slot: &Slot) -> Lasting
    ensures { result ≡ lasting_to number slot.now }
{
    let walk = walk_in(slot);
    Lasting {
        chain: walk.chain,
        global: walk.global,
        asked: number,
        dropped: None,
    }
}

/// Judges the access that comes next by a walk that was kept, if one stands. Only an access that
/// asks for a leaf has a walk that is kept.
#[inline(always)]
fn judge_by_kept_walk(past: &Past, kept: &WalkCache, claim: &Claim, moments: &Moments) -> Judgement
    requires next { IsNext past.now claim.now.number }
    requires processor { claim.now.p < processor_count past.now }
    requires walks { HaveWalks past.now claim.now.number kept.now.slots.items }
    requires leaf { want_of claim.now.outcome ≡ Leaf }
    ensures { InEachRun past.now (λ head events.
        IsRight result (failing_access head events claim.now moments.now)) }
{
    let current = past.latest_control(claim.p).pcid;
    match standing_slot(past, kept, current, claim, moments) {
        Some(slot) => {
            let walk = lasting_to(claim.number, &slot);
            let frame = frame_in(&slot);
            Judgement::Decided(failing_leaf_chain(past, current, claim, walk, frame, slot.shift))
        }
        None => Judgement::Unknown,
    }
}

/// Whether an access asks for a leaf.
#[inline(always)]
fn is_leaf(want: Want) -> bool
    ensures { IsTrue result → want ≡ Leaf }
{
    match want {
        Want::Leaf => true,
        Want::Absent | Want::Reserved | Want::Present => false,
    }
}

/// The least reason that fails for the event that comes next, by what the past says; a walk that is
/// made for it is kept.
#[inline(never)]
fn failing_by_memo(past: &Past, kept: &mut WalkCache, number: u32, event: &Event) -> Option<Reason>
    requires processor { processor_of event.now < processor_count past.now }
    requires walks { HaveWalks past.now number kept.old.slots.items }
    ensures walks { HaveWalks past.now number kept.new.slots.items }
    ensures stems { kept.new.stems ≡ kept.old.stems }
    ensures failing { InEachRun past.now (λ head events.
        result ≡ failing_event head events number event.now) }
{
    let own = WalkCache {
        slots: mem::replace(&mut kept.slots, Vec::new(past.alloc)),
        made: kept.made,
        stems: Vec::new(past.alloc),
        passed: Tally::NONE,
        seen: 0,
    };
    let mut memo = Memo::at_tip(past, own, number);
    let found = failing(&mut memo, number, event);
    kept.passed = kept.passed.plus(memo.passed());
    let WalkCache { slots, made, .. } = memo.into_slots(number);
    kept.slots = slots;
    kept.made = made;
    found
}

/// The page that a leaf maps.
#[derive(Clone, Copy)]
struct LeafPage {
    /// Its first physical address.
    frame: u64,
    /// The binary logarithm of its size.
    shift: u8,
    global_bit: bool,
}

/// The page that an entry maps, if it is a leaf. `cfg` is that of the run.
#[inline(always)]
fn leaf_at(cfg: Cfg, step: EntryRead) -> Option<LeafPage>
    requires { (36 ≤ cfg.m) × (cfg.m ≤ 52) }
    ensures kind { IfSome result (λ leaf. kind_of cfg step.level step.value
        ≡ kinds.Leaf leaf.frame leaf.shift leaf.global_bit) }
    ensures frame { IfSome result (λ leaf. leaf.frame < 2 ^ 52) }
    ensures shift { IfSome result (λ leaf. IsPageShift leaf.shift) }
{
    match kind_at(cfg, step) {
        Kind::Leaf {
            frame,
            shift,
            global_bit,
        } => Some(LeafPage {
            frame,
            shift,
            global_bit,
        }),
        Kind::Table { .. } | Kind::Absent | Kind::Reserved => None,
    }
}

/// What a walk to a leaf gives that is read last at the event that comes next.
#[inline(always)]
fn lasting_now(past: &Past, number: u32, p: u16, la: u64, chain: Chain, leaf: LeafPage) -> Lasting
    requires next { IsNext past.now number }
    requires processor { p < processor_count past.now }
    requires moment { chain.end.moment ≡ number }
    requires leaf { InEachRun past.now (λ head events.
        kind_of head.cfg chain.end.level chain.end.value
        ≡ kinds.Leaf leaf.frame leaf.shift leaf.global_bit) }
    ensures chain { result.chain ≡ chain }
    ensures asked { (result.asked ≡ number) × (result.dropped ≡ None) }
    ensures lasting { InEachRun past.now (λ head events. IsLasting head events p la result) }
{
    Lasting {
        chain,
        global: leaf.global_bit && past.latest_control(p).pge,
        asked: number,
        dropped: None,
    }
}

/// The walk of an access to a page that is read last at the event that comes next, by the walk of
/// its other moments. `at_once` is whether it is tried as one that is read at the event as a whole.
/// None says nothing.
#[inline(always)]
fn chain_at_event(
    past: &Past,
    stems: &mut Vec<Option<Stem>>,
    current: u16,
    claim: &Claim,
    moments: &Moments,
    at_once: bool,
) -> Option<Chain>
    requires next { IsNext past.now claim.now.number }
    requires processor { claim.now.p < processor_count past.now }
    requires stems { HaveStems past.now claim.now.number stems.old.items }
    ensures stems { HaveStems past.now claim.now.number stems.new.items }
    ensures moment { IfSome result (λ chain. chain.end.moment ≡ claim.now.number) }
    ensures ordered { IfSome result
        (λ chain. is_in_order moments.now claim.now.number ≡ true) }
    ensures walk { let page = page_start (page_bits (length moments.now)) claim.now.la in
        InEachRun past.now (λ head events. IfSome result (λ chain.
        chain_of head events claim.now.p page moments.now Leaf ≡ Ok chain)) }
{
    let Claim { number, p, la, .. } = *claim;
    let (upper, last) = split_last(moments)?;
    if last != number {
        return None;
    }
    let page = page_of(la, moments.len());
    let first = page_of(page, upper.len());
    let region = Region { p, current, first };
    let stem = stem_for(past, stems, number, region, &upper, at_once)?;
    let chain = chain_further(past, p, page, stem, number, Want::Leaf)?;
    if chain.end.moment == number {
        Some(chain)
    } else {
        None
    }
}

/// Judges the access that comes next by its walk, which is read last at the event, and keeps the
/// walk, if it ends at a leaf. `current` is the PCID.
#[inline(always)]
fn judge_by_chain(
    past: &Past,
    kept: &mut WalkCache,
    current: u16,
    claim: &Claim,
    moments: &Moments,
    chain: Chain,
) -> Judgement
    requires next { IsNext past.now claim.now.number }
    requires processor { claim.now.p < processor_count past.now }
    requires current { InEachRun past.now (λ head events.
        (control_at head events claim.now.p claim.now.number).pcid ≡ current) }
    requires walks { HaveWalks past.now claim.now.number kept.old.slots.items }
    requires leaf { want_of claim.now.outcome ≡ Leaf }
    requires moment { chain.end.moment ≡ claim.now.number }
    requires ordered { is_in_order moments.now claim.now.number ≡ true }
    requires walk { let page = page_start (page_bits (length moments.now)) claim.now.la in
        InEachRun past.now (λ head events.
        chain_of head events claim.now.p page moments.now Leaf ≡ Ok chain) }
    ensures walks { HaveWalks past.now claim.now.number kept.new.slots.items }
    ensures stems { kept.new.stems ≡ kept.old.stems }
    ensures right { InEachRun past.now (λ head events.
        IsRight result (failing_access head events claim.now moments.now)) }
{
    let Claim { number, p, la, .. } = *claim;
    let Some(leaf) = leaf_at(past.cfg(), chain.end) else {
        return Judgement::Unknown;
    };
    let page = page_of(la, moments.len());
    let walk = lasting_now(past, number, p, page, chain, leaf);
    let slot = slot_of(p, page, moments, walk, leaf.shift);
    keep_walk(past, kept, current, number, slot);
    let LeafPage { frame, shift, .. } = leaf;
    Judgement::Decided(failing_leaf_chain(past, current, claim, walk, frame, shift))
}

/// Judges the access that comes next by a walk that is made from its upper part, and kept.
/// `at_once` is whether the walk is tried as one that is read at the event as a whole.
#[inline(always)]
fn judge_by_stem(
    past: &Past,
    kept: &mut WalkCache,
    claim: &Claim,
    moments: &Moments,
    at_once: bool,
) -> Judgement
    requires next { IsNext past.now claim.now.number }
    requires processor { claim.now.p < processor_count past.now }
    requires walks { HaveWalks past.now claim.now.number kept.old.slots.items }
    requires stems { HaveStems past.now claim.now.number kept.old.stems.items }
    requires leaf { want_of claim.now.outcome ≡ Leaf }
    ensures walks { HaveWalks past.now claim.now.number kept.new.slots.items }
    ensures stems { HaveStems past.now claim.now.number kept.new.stems.items }
    ensures right { InEachRun past.now (λ head events.
        IsRight result (failing_access head events claim.now moments.now)) }
{
    let current = past.latest_control(claim.p).pcid;
    match chain_at_event(past, &mut kept.stems, current, claim, moments, at_once) {
        Some(chain) => judge_by_chain(past, kept, current, claim, moments, chain),
        None => Judgement::Unknown,
    }
}

/// Judges the access that comes next by a walk whose entries are all read at the event. This is a
/// function of its own, so that the code for all others, which are more, stays small.
#[inline(never)]
fn judge_by_stem_at_once(
    past: &Past,
    kept: &mut WalkCache,
    claim: &Claim,
    moments: &Moments,
) -> Judgement
    requires next { IsNext past.now claim.now.number }
    requires processor { claim.now.p < processor_count past.now }
    requires walks { HaveWalks past.now claim.now.number kept.old.slots.items }
    requires stems { HaveStems past.now claim.now.number kept.old.stems.items }
    requires leaf { want_of claim.now.outcome ≡ Leaf }
    ensures walks { HaveWalks past.now claim.now.number kept.new.slots.items }
    ensures stems { HaveStems past.now claim.now.number kept.new.stems.items }
    ensures right { InEachRun past.now (λ head events.
        IsRight result (failing_access head events claim.now moments.now)) }
{
    judge_by_stem(past, kept, claim, moments, true)
}

/// Whether a walk is one of four levels that begins at the event with this number, so that it is
/// read at it as a whole.
#[inline(always)]
fn is_at_once(moments: &Moments, number: u32) -> bool {
    let all = moments.as_slice();
    all.len() == 4 && all[0] == number
}

/// Judges the access that comes next by a walk that is made and kept, whatever its moments.
#[inline(always)]
fn judge_by_new_walk(
    past: &Past,
    kept: &mut WalkCache,
    claim: &Claim,
    moments: &Moments,
) -> Judgement
    requires next { IsNext past.now claim.now.number }
    requires processor { claim.now.p < processor_count past.now }
    requires walks { HaveWalks past.now claim.now.number kept.old.slots.items }
    requires stems { HaveStems past.now claim.now.number kept.old.stems.items }
    requires leaf { want_of claim.now.outcome ≡ Leaf }
    ensures walks { HaveWalks past.now claim.now.number kept.new.slots.items }
    ensures stems { HaveStems past.now claim.now.number kept.new.stems.items }
    ensures right { InEachRun past.now (λ head events.
        IsRight result (failing_access head events claim.now moments.now)) }
{
    if is_at_once(moments, claim.number) {
        judge_by_stem_at_once(past, kept, claim, moments)
    } else {
        judge_by_stem(past, kept, claim, moments, false)
    }
}

/// Keeps a walk that was made at the event that comes next.
#[inline(always)]
fn keep_walk(past: &Past, kept: &mut WalkCache, current: u16, number: u32, slot: Slot)
    requires walks { HaveWalks past.now number kept.old.slots.items }
    requires slot { HasWalk past.now number (Some slot) }
    ensures walks { HaveWalks past.now number kept.new.slots.items }
    ensures stems { kept.new.stems ≡ kept.old.stems }
{
    kept.make_room(past, number);
    let levels = slot.moments.len();
    let first = place_of(kept.slots.len(), slot.p, slot.page, levels, current);
    let place = kept.room_for(first, slot.p, slot.page, slot.pcid);
    kept.put(place, slot);
    if kept.count_walk() {
        kept.grow(past.alloc, most_slots(past));
    }
}

/// To put an entry of the log into lists costs at least so many times what it costs to pass over
/// it.
const PASSED_FOR_ONE: u64 = 12;

/// Whether look-ups passed over so many entries of the log that the lists which lack so many are
/// worth making: as many as cost about what those lists would.
fn is_worth_lists(passed: u64, unlisted: u64) -> bool {
    passed > unlisted.saturating_mul(PASSED_FOR_ONE)
}

/// Makes those lists of what was dropped that are worth it.
fn make_lists(past: &mut Past, kept: &mut WalkCache)
    ensures past { past.new ≡ past.old }
    ensures slots { kept.new.slots ≡ kept.old.slots }
    ensures stems { kept.new.stems ≡ kept.old.stems }
{
    let unlisted = past.unlisted();
    if is_worth_lists(kept.passed.pages, unlisted.pages) {
        past.catch_up_pages();
        kept.passed.pages = 0;
    }
    if is_worth_lists(kept.passed.regions, unlisted.regions) {
        past.catch_up_regions();
        kept.passed.regions = 0;
    }
    if is_worth_lists(kept.passed.wide, unlisted.wide) {
        past.catch_up_wide();
        kept.passed.wide = 0;
    }
}

/// The least reason that fails for the event that comes next, by what the past says. Lists of what
/// was dropped are made once look-ups passed over much of the log.
#[inline(never)]
fn failing_by_past(
    past: &mut Past,
    kept: &mut WalkCache,
    number: u32,
    event: &Event,
) -> Option<Reason>
    requires processor { processor_of event.now < processor_count past.old }
    requires walks { HaveWalks past.old number kept.old.slots.items }
    requires stems { HaveStems past.old number kept.old.stems.items }
    ensures past { past.new ≡ past.old }
    ensures walks { HaveWalks past.old number kept.new.slots.items }
    ensures stems { HaveStems past.old number kept.new.stems.items }
    ensures failing { InEachRun past.old (λ head events.
        result ≡ failing_event head events number event.now) }
{
    let found = failing_by_memo(past, kept, number, event);
    make_lists(past, kept);
    found
}

/// The least reason that fails for the event that comes next, an access to a page of which no kept
/// walk stands: by a walk that is made from the upper part of others, or else by what the past
/// says.
#[inline(never)]
fn failing_without_kept_walk(
    past: &mut Past,
    kept: &mut WalkCache,
    claim: &Claim,
    moments: &Moments,
    event: &Event,
) -> Option<Reason>
    requires next { IsNext past.old claim.now.number }
    requires claimant { claim.now.p < processor_count past.old }
    requires processor { processor_of event.now < processor_count past.old }
    requires walks { HaveWalks past.old claim.now.number kept.old.slots.items }
    requires stems { HaveStems past.old claim.now.number kept.old.stems.items }
    requires leaf { want_of claim.now.outcome ≡ Leaf }
    requires event { (head : Head) (events : List Event) →
        failing_access head events claim.now moments.now
        ≡ failing_event head events claim.now.number event.now }
    ensures past { past.new ≡ past.old }
    ensures walks { HaveWalks past.old claim.now.number kept.new.slots.items }
    ensures stems { HaveStems past.old claim.now.number kept.new.stems.items }
    ensures failing { InEachRun past.old (λ head events.
        result ≡ failing_event head events claim.now.number event.now) }
{
    match judge_by_new_walk(past, kept, claim, moments) {
        Judgement::Decided(found) => found,
        Judgement::Unknown => failing_by_past(past, kept, claim.number, event),
    }
}

/// Judges the event that comes next, with this number, by a walk that was kept, if one stands.
#[inline(always)]
pub fn judge_next_quickly(past: &Past, kept: &WalkCache, number: u32, event: &Event) -> Judgement
    requires next { IsNext past.now number }
    requires processor { processor_of event.now < processor_count past.now }
    requires walks { HaveWalks past.now number kept.now.slots.items }
    ensures { InEachRun past.now (λ head events.
        IsRight result (failing_event head events number event.now)) }
{
    let p = processor_of(event);
    match event.request() {
        Request::Nothing | Request::Update { .. } => Judgement::Unknown,
        Request::Access {
            kind,
            la,
            outcome,
            moments,
        } => {
            if !is_leaf(want_of(outcome)) {
                return Judgement::Unknown;
            }
            let claim = Claim {
                number,
                p,
                kind,
                la,
                outcome,
            };
            match judge_by_kept_walk(past, kept, &claim, &moments) {
                Judgement::Decided(found) => Judgement::Decided(found),
                Judgement::Unknown => Judgement::Unknown,
            }
        }
    }
}

/// The least reason that fails for the event that comes next, with this number, where `kept` are
/// walks of the events before it. What is kept then is right still.
#[inline(always)]
pub fn failing_next(
    past: &mut Past,
    kept: &mut WalkCache,
    number: u32,
    event: &Event,
) -> Option<Reason>
    requires next { IsNext past.old number }
    requires processor { processor_of event.now < processor_count past.old }
    requires walks { HaveWalks past.old number kept.old.slots.items }
    requires stems { HaveStems past.old number kept.old.stems.items }
    ensures past { past.new ≡ past.old }
    ensures walks { HaveWalks past.old number kept.new.slots.items }
    ensures stems { HaveStems past.old number kept.new.stems.items }
    ensures failing { InEachRun past.old (λ head events.
        result ≡ failing_event head events number event.now) }
{
    let p = processor_of(event);
    match event.request() {
        Request::Nothing => None,
        Request::Update { .. } => failing_by_past(past, kept, number, event),
        Request::Access {
            kind,
            la,
            outcome,
            moments,
        } => {
            if !is_leaf(want_of(outcome)) {
                return failing_by_past(past, kept, number, event);
            }
            let claim = Claim {
                number,
                p,
                kind,
                la,
                outcome,
            };
            match judge_by_kept_walk(past, kept, &claim, &moments) {
                Judgement::Decided(found) => found,
                Judgement::Unknown => {
                    failing_without_kept_walk(past, kept, &claim, &moments, event)
                }
            }
        }
    }
}
