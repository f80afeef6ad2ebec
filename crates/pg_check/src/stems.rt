//! Upper parts of walks, kept so that the pages of a region share them.

ghost use Rattle.std.specs.Prelude.{◌≡◌, ◌<◌, ◌≤◌, ◌++◌, ◌∷◌, ℕ, [], length, IfSome, IsTrue};
ghost use Rattle.pg_chain.specs.declared.past.Past.{Past};
ghost use Rattle.pg_chain.specs.Standing.{IsNext, processor_count};
ghost use Rattle.pg_check.specs.Remembered.{page_bits, page_start};
ghost use Rattle.pg_check.specs.Stems.{HaveStems, IsStem};

use crate::places::{page_of, spread};
use crate::walk::is_in_order;
use pg_chain::{Chain, Past, chain, chain_further, upper_at_once};
use pg_event::{Moments, Want};
use std::alloc::Global;

/// The walk of an access by all its moments but the last. Walks by the same moments to addresses of
/// one region are alike: that is the page which the last of these moments would map.
#[derive(Clone, Copy)]
pub struct Stem {
    /// The first address of the region.
    pub region: u64,
    pub moments: Moments,
    pub p: u16,
    pub chain: Chain,
}

/// There is room for so many upper parts for each recorded processor.
const STEMS_FOR_EACH: usize = 256;

/// There is room for so many at least, however few processors there are.
const FEWEST_STEMS: usize = 1_024;

/// There is room for so many at most.
const MOST_STEMS: usize = 8_192;

/// So many are worth their room before the event with this number, as a number that rarely grows.
fn stems_before(past: &Past, number: u32) -> usize {
    let all = past.controls.processors().saturating_mul(STEMS_FOR_EACH);
    match number {
        0..1024 => 64,
        _ => all.max(FEWEST_STEMS).min(MOST_STEMS),
    }
}

/// Makes room for the upper parts that may have come before the event with this number. Where
/// memory is refused there is none.
fn make_room(past: &Past, stems: &mut Vec<Option<Stem>>, number: u32)
    ensures { (past : Past) (limit : ℕ) → HaveStems past limit stems.old.items →
        HaveStems past limit stems.new.items }
{
    let count = stems_before(past, number);
    if stems.len() < count {
        *stems = empty_stems(past.alloc, count);
    }
}

/// So many places with no upper part. Where memory is refused there are none.
fn empty_stems(alloc: Global, count: usize) -> Vec<Option<Stem>>
    ensures { (past : Past) (limit : ℕ) → HaveStems past limit result.items }
{
    match Vec::from_elem(alloc, None, count) {
        Ok(stems) => stems,
        Err(_) => Vec::new(alloc),
    }
}

/// All moments but the last, and the last, if there are two or more.
#[inline(always)]
pub(crate) fn split_last(moments: &Moments) -> Option<(Moments, u32)>
    ensures whole { IfSome result (λ parts. moments.now ≡ parts.0 ++ parts.1 ∷ []) }
    ensures few { length moments.now ≤ 4 }
{
    let all = moments.as_slice();
    match all.len() {
        4 => Some((Moments::first(all[0]).with(all[1])?.with(all[2])?, all[3])),
        3 => Some((Moments::first(all[0]).with(all[1])?, all[2])),
        2 => Some((Moments::first(all[0]), all[1])),
        _ => None,
    }
}

/// Whether an upper part is of a processor's walks to a region.
#[inline(always)]
fn is_to(stem: &Stem, p: u16, region: u64) -> bool
    ensures { IsTrue result → (stem.now.p ≡ p) × (stem.now.region ≡ region) }
{
    stem.p == p && stem.region == region
}

/// Whether an upper part is of a processor's walks to a region by these moments.
#[inline(always)]
fn is_of(stem: &Stem, p: u16, region: u64, moments: &Moments) -> bool
    ensures { IsTrue result → (stem.now.p ≡ p) × (stem.now.region ≡ region)
        × (stem.now.moments ≡ moments.now) }
{
    is_to(stem, p, region) && stem.moments == *moments
}

/// The upper part that a place has of a processor's walks to a region by these moments.
#[inline(always)]
fn stem_at(
    stems: &[Option<Stem>],
    place: usize,
    p: u16,
    region: u64,
    moments: &Moments,
) -> Option<Chain>
    ensures { (past : Past) (limit : ℕ) → HaveStems past limit stems.now →
        IfSome result (IsStem past limit p region moments.now) }
{
    match stems.get(place)? {
        Some(stem) => if is_of(stem, p, region, moments) {
            Some(stem.chain)
        } else {
            None
        },
        None => None,
    }
}

/// The upper part of a processor's walks to a region by these moments, as far as the past says that
/// there is one.
#[inline(never)]
fn stem_anew(past: &Past, number: u32, p: u16, region: u64, moments: &Moments) -> Option<Chain>
    requires { p < processor_count past.now }
    ensures { IfSome result (IsStem past.now number p region moments.now) }
{
    if !is_in_order(moments.as_slice(), number) {
        return None;
    }
    match chain(past, p, region, moments, Want::Present) {
        Ok(chain) => Some(chain),
        Err(_) => None,
    }
}

/// Whether moments that rise are one moment: between them no structure entry can be dropped.
#[inline(always)]
fn are_one(moments: &Moments) -> bool {
    let all = moments.as_slice();
    all[0] == all[all.len() - 1]
}

/// Keeps an upper part at a place, where there is one.
fn put(stems: &mut Vec<Option<Stem>>, place: usize, stem: Stem)
    ensures { (past : Past) (limit : ℕ) →
        IsStem past limit stem.p stem.region stem.moments stem.chain →
        HaveStems past limit stems.old.items → HaveStems past limit stems.new.items }
{
    if place < stems.len() {
        stems[place] = Some(stem);
    }
}

/// Of which walks an upper part is: those of a processor to a region.
#[derive(Clone, Copy)]
pub(crate) struct Region {
    pub p: u16,
    /// The PCID at the event that asks: upper parts are placed by it.
    pub current: u16,
    /// The first address of the region.
    pub first: u64,
}

/// The upper part that is kept of the walks to a region by these moments.
#[inline(always)]
fn kept_stem(stems: &[Option<Stem>], region: Region, moments: &Moments) -> Option<Chain>
    ensures { (past : Past) (limit : ℕ) → HaveStems past limit stems.now →
        IfSome result (IsStem past limit region.p region.first moments.now) }
{
    let Region { p, current, first } = region;
    let place = spread(stems.len(), p, first, moments.len(), current as u64);
    stem_at(stems, place, p, first, moments)
}

/// Keeps an upper part that was made at the event with this number.
#[inline(always)]
fn keep_stem(past: &Past, stems: &mut Vec<Option<Stem>>, number: u32, current: u16, stem: Stem)
    requires stem { IsStem past.now number stem.p stem.region stem.moments stem.chain }
    requires stems { HaveStems past.now number stems.old.items }
    ensures { HaveStems past.now number stems.new.items }
{
    make_room(past, stems, number);
    let levels = stem.moments.len();
    let place = spread(stems.len(), stem.p, stem.region, levels, current as u64);
    put(stems, place, stem);
}

/// The upper part that is read last at the event that comes next, by that of its other moments.
/// None says nothing.
#[inline(always)]
fn further_stem(
    past: &Past,
    number: u32,
    region: Region,
    moments: &Moments,
    upper: &Moments,
    stem: Chain,
) -> Option<Chain>
    requires next { IsNext past.now number }
    requires processor { region.p < processor_count past.now }
    requires stem { IsStem past.now number region.p
        (page_start (page_bits (length upper.now)) region.first) upper.now stem }
    requires whole { moments.now ≡ upper.now ++ number ∷ [] }
    requires few { length moments.now ≤ 4 }
    ensures { IfSome result (IsStem past.now number region.p region.first moments.now) }
{
    let Region { p, first, .. } = region;
    chain_further(past, p, first, stem, number, Want::Present)
}

/// The upper part of a processor's walks to a region by one or two moments, at the event that comes
/// next: one that is kept, or one that is made and kept. None says nothing.
#[inline(never)]
fn shorter_stem(
    past: &Past,
    stems: &mut Vec<Option<Stem>>,
    number: u32,
    region: Region,
    moments: &Moments,
) -> Option<Chain>
    requires next { IsNext past.now number }
    requires processor { region.p < processor_count past.now }
    requires stems { HaveStems past.now number stems.old.items }
    ensures stems { HaveStems past.now number stems.new.items }
    ensures stem { IfSome result (IsStem past.now number region.p region.first moments.now) }
{
    if let Some(chain) = kept_stem(stems.as_slice(), region, moments) {
        return Some(chain);
    }
    let Region { p, first, .. } = region;
    let chain = if are_one(moments) {
        stem_anew(past, number, p, first, moments)?
    } else {
        let (upper, last) = split_last(moments)?;
        if last != number {
            return None;
        }
        let wider = page_of(first, upper.len());
        let stem = stem_anew(past, number, p, wider, &upper)?;
        further_stem(past, number, region, moments, &upper, stem)?
    };
    let stem = Stem {
        region: first,
        moments: *moments,
        p,
        chain,
    };
    keep_stem(past, stems, number, region.current, stem);
    Some(chain)
}

/// Whether moments are three, each of them this one.
#[inline(always)]
fn are_three(moments: &Moments, moment: u32) -> bool
    ensures { IsTrue result → moments.now ≡ moment ∷ moment ∷ moment ∷ [] }
{
    let all = moments.as_slice();
    all.len() == 3 && all[0] == moment && all[1] == moment && all[2] == moment
}

/// The upper part of a processor's walks to a region by three moments, all of them that of the
/// event that comes next: it is made and kept. None says nothing.
#[inline(always)]
fn stem_at_once(
    past: &Past,
    stems: &mut Vec<Option<Stem>>,
    number: u32,
    region: Region,
    moments: &Moments,
) -> Option<Chain>
    requires next { IsNext past.now number }
    requires processor { region.p < processor_count past.now }
    requires stems { HaveStems past.now number stems.old.items }
    ensures stems { HaveStems past.now number stems.new.items }
    ensures stem { IfSome result (IsStem past.now number region.p region.first moments.now) }
{
    if !are_three(moments, number) {
        return None;
    }
    let Region { p, first, .. } = region;
    let chain = upper_at_once(past, p, first, number)?;
    let stem = Stem {
        region: first,
        moments: *moments,
        p,
        chain,
    };
    keep_stem(past, stems, number, region.current, stem);
    Some(chain)
}

/// The upper part of a processor's walks to a region by these moments, at the event that comes
/// next. `at_once` is whether to make it as one by three moments that are all the event's own, and
/// stands as a constant where this is called. None says nothing.
#[inline(always)]
pub(crate) fn stem_for(
    past: &Past,
    stems: &mut Vec<Option<Stem>>,
    number: u32,
    region: Region,
    moments: &Moments,
    at_once: bool,
) -> Option<Chain>
    requires next { IsNext past.now number }
    requires processor { region.p < processor_count past.now }
    requires stems { HaveStems past.now number stems.old.items }
    ensures stems { HaveStems past.now number stems.new.items }
    ensures stem { IfSome result (IsStem past.now number region.p region.first moments.now) }
{
    if at_once {
        stem_at_once(past, stems, number, region, moments)
    } else {
        stem_of(past, stems, number, region, moments)
    }
}

/// The upper part of a processor's walks to a region by these moments, at the event that comes
/// next: one that is kept, or one that is made and kept. One that was read at one moment is made by
/// itself. One that is read last at this event is made from a shorter one, which regions that lie
/// in a wider one share. So no list is asked. None says nothing.
fn stem_of(
    past: &Past,
    stems: &mut Vec<Option<Stem>>,
    number: u32,
    region: Region,
    moments: &Moments,
) -> Option<Chain>
    requires next { IsNext past.now number }
    requires processor { region.p < processor_count past.now }
    requires stems { HaveStems past.now number stems.old.items }
    ensures stems { HaveStems past.now number stems.new.items }
    ensures stem { IfSome result (IsStem past.now number region.p region.first moments.now) }
{
    if let Some(chain) = kept_stem(stems.as_slice(), region, moments) {
        return Some(chain);
    }
    let Region { p, first, .. } = region;
    let chain = if are_one(moments) {
        stem_anew(past, number, p, first, moments)?
    } else {
        let (upper, last) = split_last(moments)?;
        if last != number {
            return None;
        }
        let wider = Region {
            first: page_of(first, upper.len()),
            ..region
        };
        let stem = shorter_stem(past, stems, number, wider, &upper)?;
        further_stem(past, number, region, moments, &upper, stem)?
    };
    let stem = Stem {
        region: first,
        moments: *moments,
        p,
        chain,
    };
    keep_stem(past, stems, number, region.current, stem);
    Some(chain)
}
