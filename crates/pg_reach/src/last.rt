//! When an event would last have been witnessed, had it come earlier.

ghost use Rattle.std.specs.Prelude.{◌≡◌, ◌<◌, ◌≤◌, ◌+◌, ◌^◌, ◌⊎◌, ◌&&◌, ℕ, length, min, max};
ghost use Rattle.std.specs.Prelude.{true, false, None, Some};
ghost use Rattle.std.specs.Prelude.{IsTrue, IfOk, IfSome, IfNone, slice_get};
ghost use Rattle.std.specs.List.{All};
ghost use Rattle.pg_event.specs.Form.{broken_rule};
ghost use Rattle.pg_event.specs.Values.{control_at};
ghost use Rattle.pg_chain.specs.Standing.{IsPast};
ghost use Rattle.pg_entry.specs.Kinds.{kind_of};
ghost use Rattle.pg_event.specs.Witness.{failing_event};
ghost use Rattle.pg_search.specs.Law.{names_moments, AreWitness, with_moments};
ghost use Rattle.pg_search.specs.Last.{NoneWitness, NoneOwn, IsLastOf, IsLast, HasNoLast};
ghost use Rattle.pg_search.specs.ReachableTables.{first_or};
ghost use Rattle.pg_reach.specs.Stays.{IsUnder};
ghost use Rattle.pg_reach.specs.Reaching.{IsReach};
ghost use Rattle.pg_reach.specs.Asking.{Asks, under, IsAtNext};
ghost use Rattle.pg_reach.specs.WitnessedUpTo.{IsLastUse, IsPassedBy, ArePassed, HasWitness};
ghost use Rattle.pg_reach.specs.WitnessedUpTo.{AreUpTo, IsUpTo, IsReadIn, HasWitnessUnder};
ghost use Rattle.pg_reach.specs.WitnessedUpTo.{IsFoundAfter};

use crate::finder::{WALKS, freshest_moments_at, walk_of};
use crate::parts::{part_of, parts_of};
use crate::reach::{Reach, up_to};
use crate::stays::{latest_of, pcids_of, spans_of};
use crate::view::{Piece, View};
use crate::walker::{Walker, want_by};
use pg_check::{History, Memo, failing};
use pg_entry::{Entry, Kind, Level, classify};
use pg_event::{Event, Moments, is_wanted, uses_last};
use pg_search::{Last, Seen, with_moments};
use std::alloc::{AllocError, Global};

/// The later of two numbers.
fn later(last: Option<u32>, number: u32) -> Option<u32>
    ensures old { (j : ℕ) → IsUpTo last j → IsUpTo result j }
    ensures new { IsUpTo result number }
    ensures either { IfSome result (λ n. (n ≡ number) ⊎ (last ≡ Some n)) }
{
    match last {
        Some(other) => Some(other.max(number)),
        None => Some(number),
    }
}

/// Whether a number is no later than the one that was found.
fn is_up_to(last: Option<u32>, number: u32) -> bool
    ensures { IsTrue result → IsUpTo last number }
{
    match last {
        Some(other) => number <= other,
        None => false,
    }
}

/// Whether moments witness an event as one with a number.
pub(crate) fn is_witness(
    seen: &Seen<'_>,
    memo: &mut Memo<'_>,
    event: &Event,
    number: u32,
    moments: Moments,
) -> bool
    requires past { IsPast memo.old seen.now.head seen.now.events }
    requires well { broken_rule seen.now.head event.now ≡ None }
    ensures memo { memo.new ≡ memo.old }
    ensures some { result ≡ true →
        AreWitness seen.now.head seen.now.events number event.now moments }
    ensures none { result ≡ false → failing_event seen.now.head seen.now.events number
        (with_moments moments event.now) ≡ None → ⊥ }
{
    match failing(memo, number, &with_moments(event, moments)) {
        None => true,
        Some(_) => false,
    }
}

impl View<'_> {
    /// Whether a translation is global that was read at a moment in an entry whose bit 8 is this.
    fn is_global(&self, bit: bool, read: u32) -> bool
        requires { self.now.walker.p < length self.now.run.head.processors }
        ensures { result ≡ (bit
            && (control_at self.now.run.head self.now.run.events self.now.walker.p read).pge) }
    {
        self.seen.is_global(self.walker.p, bit, read)
    }

    /// The last number, up to the walker's, at which the event may use an entry of a level that was
    /// read at a moment: that moment, or where a page is wanted, the last to which its translation
    /// survives and at which it may be used (Intel SDM, vol. 3, 4.10.2.4).
    fn last_use(&self, level: Level, entry: Entry, read: u32) -> u32
        requires processor { self.now.walker.p < length self.now.run.head.processors }
        requires low { self.now.low ≤ read }
        requires order { read ≤ self.now.walker.number }
        requires small { self.now.walker.number < 2 ^ 32 }
        requires under { IsUnder self.now.run self.now.walker read }
        ensures order { read ≤ result }
        ensures within { result ≤ self.now.walker.number }
        ensures last { IsLastUse self.now.run self.now.walker self.now.event
            (kind_of self.now.run.head.cfg level entry.0) read result }
    {
        let kind = classify(self.seen.header().cfg, level, entry);
        let Kind::Leaf {
            shift,
            global_bit,
            ..
        } = kind
        else {
            return read;
        };
        if !uses_last(want_by(self.event)) {
            return read;
        }
        let global = self.is_global(global_bit, read);
        let end = self
            .seen
            .translation_end(self.walker.lookup(), shift, global, read)
            .min(self.walker.number);
        if global {
            return end;
        }
        match latest_of(&self.stays, read, end) {
            Some(number) => number,
            None => read,
        }
    }

    /// The last number, up to the walker's, at which the event is witnessed that reads a piece of
    /// the table of a reach last, or the later one that was found before.
    fn last_by(
        &self,
        memo: &mut Memo<'_>,
        level: Level,
        x: &Reach,
        piece: &Piece,
        found: Option<u32>,
    ) -> Option<u32>
        requires past { IsPast memo.old self.now.run.head self.now.run.events }
        requires well { broken_rule self.now.run.head self.now.event ≡ None }
        requires asks { Asks self.now.walker self.now.event }
        requires low { self.now.low ≡ 0 }
        requires small { self.now.walker.number < 2 ^ 32 }
        requires reach { IsReach self.now.run self.now.walker level x.now }
        requires read { IfSome piece.now.read
            (IsReadIn self.now.run self.now.walker level x.now piece.now) }
        ensures memo { memo.new ≡ memo.old }
        ensures some { IsFoundAfter self.now.run self.now.walker self.now.event found result }
        ensures later { (j : ℕ) → IsUpTo found j → IsUpTo result j }
        ensures passed { IsPassedBy self.now.run self.now.walker self.now.event level x.now
            piece.now result }
    {
        let Some(read) = piece.read else {
            return found;
        };
        let kind = classify(self.seen.header().cfg, level, Entry(piece.entry));
        if !is_wanted(want_by(self.event), kind) {
            return found;
        }
        let number = self.last_use(level, Entry(piece.entry), read);
        if is_up_to(found, number) {
            return found;
        }
        let moments = up_to(read, &x.latest);
        if is_witness(self.seen, memo, self.event, number, moments) {
            later(found, number)
        } else {
            found
        }
    }

    /// What `last_by` gives, of all pieces of the table of a reach.
    fn last_in(
        &self,
        memo: &mut Memo<'_>,
        level: Level,
        x: &Reach,
        found: Option<u32>,
    ) -> Option<u32>
        requires past { IsPast memo.old self.now.run.head self.now.run.events }
        requires well { broken_rule self.now.run.head self.now.event ≡ None }
        requires asks { Asks self.now.walker self.now.event }
        requires low { self.now.low ≡ 0 }
        requires small { self.now.walker.number < 2 ^ 32 }
        requires reach { IsReach self.now.run self.now.walker level x.now }
        ensures memo { memo.new ≡ memo.old }
        ensures some { IsFoundAfter self.now.run self.now.walker self.now.event found result }
        ensures later { (j : ℕ) → IsUpTo found j → IsUpTo result j }
        ensures passed { ArePassed self.now.run self.now.walker self.now.event level
            (max x.now.from 0) (min x.now.to self.now.walker.number + 1) x.now result }
    {
        let end = x.to.min(self.walker.number);
        let mut last = found;
        let mut at = x.from;
        while at <= end {
            let piece = self.piece_at(level, x.table, at, end);
            last = self.last_by(memo, level, x, &piece, last);
            match piece.to.checked_add(1) {
                Some(next) => at = next,
                None => return last,
            }
        }
        last
    }

    /// What `last_in` gives, of some reaches.
    fn last_among(
        &self,
        memo: &mut Memo<'_>,
        level: Level,
        reaches: &[Reach],
        found: Option<u32>,
    ) -> Option<u32>
        requires past { IsPast memo.old self.now.run.head self.now.run.events }
        requires well { broken_rule self.now.run.head self.now.event ≡ None }
        requires asks { Asks self.now.walker self.now.event }
        requires low { self.now.low ≡ 0 }
        requires small { self.now.walker.number < 2 ^ 32 }
        requires each { All (IsReach self.now.run self.now.walker level) reaches.now }
        ensures memo { memo.new ≡ memo.old }
        ensures some { IsFoundAfter self.now.run self.now.walker self.now.event found result }
        ensures later { (j : ℕ) → IsUpTo found j → IsUpTo result j }
        ensures passed { All (λ x. ArePassed self.now.run self.now.walker self.now.event level
            (max x.from 0) (min x.to self.now.walker.number + 1) x result) reaches.now }
    {
        let mut last = found;
        for x in reaches {
            last = self.last_in(memo, level, x, last);
        }
        last
    }

    /// The last number, up to the walker's, at which moments under its PCID witness the event, or
    /// the later one that was found before.
    fn last_under(
        &self,
        alloc: Global,
        memo: &mut Memo<'_>,
        found: Option<u32>,
    ) -> Result<Option<u32>, AllocError>
        requires past { IsPast memo.old self.now.run.head self.now.run.events }
        requires well { broken_rule self.now.run.head self.now.event ≡ None }
        requires asks { Asks self.now.walker self.now.event }
        requires low { self.now.low ≡ 0 }
        requires within { self.now.walker.number ≤ length self.now.run.events }
        requires small { self.now.walker.number < 2 ^ 32 }
        ensures memo { memo.new ≡ memo.old }
        ensures some { IfOk result
            (IsFoundAfter self.now.run self.now.walker self.now.event found) }
        ensures later { IfOk result (λ r. (j : ℕ) → IsUpTo found j → IsUpTo r j) }
        ensures all { IfOk result (AreUpTo self.now.run self.now.walker self.now.event) }
    {
        let fours = self.roots(alloc)?;
        let threes = self.tables_below(alloc, Level::Four, 0, fours.as_slice())?;
        let twos = self.tables_below(alloc, Level::Three, 0, threes.as_slice())?;
        let ones = self.tables_below(alloc, Level::Two, 0, twos.as_slice())?;
        let one = self.last_among(memo, Level::One, ones.as_slice(), found);
        let two = self.last_among(memo, Level::Two, twos.as_slice(), one);
        let three = self.last_among(memo, Level::Three, threes.as_slice(), two);
        let four = self.last_among(memo, Level::Four, fours.as_slice(), three);
        Ok(four)
    }
}

/// The last number up to the walker's at which some moments would witness an event, or `None` where
/// none would at any.
fn last_number(
    alloc: Global,
    seen: &Seen<'_>,
    event: &Event,
    walker: Walker,
) -> Result<Option<u32>, AllocError>
    requires well { broken_rule seen.now.head event.now ≡ None }
    requires asks { Asks walker event.now }
    requires within { walker.number ≤ length seen.now.events }
    requires small { walker.number < 2 ^ 32 }
    ensures some { IfOk result (λ r. IfSome r (HasWitness seen.now event.now walker.number)) }
    ensures all { IfOk result (λ r. (w : ℕ) → w ≤ walker.number → AreUpTo seen.now
        (under walker (control_at seen.now.head seen.now.events walker.p w).pcid) event.now r) }
{
    let mut memo = seen.memo(WALKS);
    let mut last = None;
    let spans = spans_of(alloc, seen, walker.p, 0, walker.number)?;
    let parts = parts_of(alloc, &spans)?;
    for pcid in &pcids_of(alloc, &spans)? {
        let other = Walker {
            pcid: *pcid,
            ..walker
        };
        let view = View::new(alloc, seen, event, other, 0, part_of(&parts, *pcid))?;
        let later = view.last_under(alloc, &mut memo, last)?;
        last = later;
    }
    Ok(last)
}

/// The last number up to the walker's at which moments under its PCID would witness an event, or
/// `None` where none would at any.
fn last_number_under(
    alloc: Global,
    seen: &Seen<'_>,
    event: &Event,
    walker: Walker,
) -> Result<Option<u32>, AllocError>
    requires well { broken_rule seen.now.head event.now ≡ None }
    requires asks { Asks walker event.now }
    requires within { walker.number ≤ length seen.now.events }
    requires small { walker.number < 2 ^ 32 }
    ensures some { IfOk result (λ r. IfSome r (HasWitnessUnder seen.now walker event.now)) }
    ensures all { IfOk result (AreUpTo seen.now walker event.now) }
{
    let mut memo = seen.memo(WALKS);
    let spans = spans_of(alloc, seen, walker.p, 0, walker.number)?;
    let view = View::new(alloc, seen, event, walker, 0, &spans)?;
    view.last_under(alloc, &mut memo, None)
}

/// The PCID that processor `p` has at the first of some moments.
fn pcid_by(seen: &Seen<'_>, p: u16, moments: &Moments) -> u16
    requires { p < length seen.now.head.processors }
    ensures { result ≡ (control_at seen.now.head seen.now.events p (first_or 0 moments.now)).pcid }
{
    seen.control_at(p, moments.as_slice()[0]).pcid
}

/// The last number up to the walker's at which moments under its PCID would witness an event, with
/// the freshest that do there.
fn own_last(
    alloc: Global,
    seen: &Seen<'_>,
    event: &Event,
    walker: Walker,
) -> Result<Option<Last>, AllocError>
    requires well { broken_rule seen.now.head event.now ≡ None }
    requires asks { Asks walker event.now }
    requires within { walker.number ≤ length seen.now.events }
    requires small { walker.number < 2 ^ 32 }
    requires own { IsAtNext seen.now walker }
    ensures some { IfOk result (λ last. IfSome last
        (IsLastOf seen.now.head seen.now.events (walker.number + 1) event.now)) }
    ensures none { IfOk result (λ last. IfNone last
        (NoneOwn seen.now.head seen.now.events (walker.number + 1) event.now 0
        (walker.number + 1))) }
{
    let Some(number) = last_number_under(alloc, seen, event, walker)? else {
        return Ok(None);
    };
    match freshest_moments_at(alloc, seen, number, event)? {
        Some(moments) => Ok(Some(Last {
            number,
            moments,
            other: None,
        })),
        None => Ok(None),
    }
}

/// The last number up to the walker's at which some moments would witness an event that none would
/// under the walker's PCID, with the freshest that do there, and their PCID.
fn other_last(
    alloc: Global,
    seen: &Seen<'_>,
    event: &Event,
    walker: Walker,
) -> Result<Option<Last>, AllocError>
    requires well { broken_rule seen.now.head event.now ≡ None }
    requires asks { Asks walker event.now }
    requires within { walker.number ≤ length seen.now.events }
    requires small { walker.number < 2 ^ 32 }
    requires none { NoneOwn seen.now.head seen.now.events (walker.number + 1) event.now 0
        (walker.number + 1) }
    ensures some { IfOk result (λ last. IfSome last
        (IsLastOf seen.now.head seen.now.events (walker.number + 1) event.now)) }
    ensures none { IfOk result (λ last. IfNone last
        (NoneWitness seen.now.head seen.now.events event.now 0 (walker.number + 1))) }
{
    let Some(number) = last_number(alloc, seen, event, walker)? else {
        return Ok(None);
    };
    match freshest_moments_at(alloc, seen, number, event)? {
        Some(moments) => Ok(Some(Last {
            number,
            moments,
            other: Some(pcid_by(seen, walker.p, &moments)),
        })),
        None => Ok(None),
    }
}

/// The latest number below this one at which moments under the PCID that the processor has here
/// would witness an access or an assist, which need not be one of the events that are seen, with
/// the freshest moments that do there. Where there is no such number, the latest at which moments
/// under another PCID would, and which one; `None` where none would.
///
/// It asks the past, as `any_moments` does, from its beginning on, and each PCID that the processor
/// ever had only where its own gives nothing. It fails only where memory is refused.
pub fn last_moments_at(
    alloc: Global,
    seen: &Seen<'_>,
    number: u32,
    event: &Event,
) -> Result<Option<Last>, AllocError>
    requires within { number ≤ length seen.now.events }
    requires well { broken_rule seen.now.head event.now ≡ None }
    requires names { names_moments event.now ≡ true }
    ensures some { IfOk result (λ last. IfSome last
        (IsLastOf seen.now.head seen.now.events number event.now)) }
    ensures none { IfOk result (λ last. IfNone last
        (NoneWitness seen.now.head seen.now.events event.now 0 number)) }
{
    let Some((p, la)) = walk_of(event) else {
        return Ok(None);
    };
    let Some(most) = number.checked_sub(1) else {
        return Ok(None);
    };
    let walker = Walker {
        p,
        la,
        pcid: seen.control_at(p, number).pcid,
        number: most,
        freshest: false,
    };
    match own_last(alloc, seen, event, walker)? {
        Some(last) => Ok(Some(last)),
        None => other_last(alloc, seen, event, walker),
    }
}

/// The latest number below that of an access or an assist of a history which the event could have
/// had: moments under its own PCID would witness it there, and none would at any number between; or
/// where no such moments would at any number, moments under another PCID. `None` where there is no
/// such number.
///
/// It asks as `last_moments_at` does. It fails only where memory is refused.
pub fn last_moments(alloc: Global, history: &History, i: u64) -> Result<Option<Last>, AllocError>
    requires within { i < length history.now.events }
    requires names { IfSome (slice_get history.now.events i) (λ e. names_moments e ≡ true) }
    ensures some { IfOk result
        (λ last. IfSome last (IsLast history.now.head history.now.events i)) }
    ensures none { IfOk result (λ last. IfNone last
        (HasNoLast history.now.head history.now.events i)) }
{
    let event = &history.events()[i as usize];
    let seen = Seen::of(history);
    last_moments_at(alloc, &seen, i as u32, event)
}
