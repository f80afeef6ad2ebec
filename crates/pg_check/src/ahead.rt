//! What the next events will ask for, read before they are judged.

ghost use Rattle.std.specs.Prelude.{◌≡◌};

use crate::place::Place;
use crate::places::{WalkCache, page_of, place_of};
use pg_chain::Past;
use pg_event::{Event, MemoryChange, Moments, Request, processor_of};

/// It is read for so many events at once.
pub(crate) const AHEAD: usize = 32;

/// It is read where there are more slots than this: fewer stay in caches near enough.
const NEAR_SLOTS: usize = 65_536;

/// The PCID of a processor after all events that were noted, if there is such a processor.
#[inline(always)]
fn current_pcid(past: &Past, p: u16) -> u16 {
    if (p as usize) < past.controls.processors() {
        past.latest_control(p).pcid
    } else {
        0
    }
}

/// The first of the two places of the walk of an access, by the PCID that its processor has now.
#[inline(always)]
fn place_ahead(past: &Past, count: usize, p: u16, la: u64, moments: &Moments) -> usize {
    let levels = moments.len();
    place_of(count, p, page_of(la, levels), levels, current_pcid(past, p))
}

/// Reads both ends of the slot at a place.
#[inline(always)]
fn read_slot(slots: &[Place], place: usize) -> u64 {
    match slots.get(place) {
        Some(place) => place.ends(),
        None => 0,
    }
}

/// Reads the slots that some events will ask for, and the words that they will write.
#[inline(always)]
fn read_for(past: &Past, slots: &[Place], events: &[Event]) -> u64 {
    let mut seen = 0;
    for event in events {
        match event.request() {
            Request::Access { la, moments, .. } => {
                let p = processor_of(event);
                seen ^= read_slot(slots, place_ahead(past, slots.len(), p, la, &moments));
            }
            Request::Update { .. } => {}
            Request::Nothing => match event.memory_change() {
                MemoryChange::Value { addr, .. } => seen ^= past.value_at(u32::MAX, addr),
                MemoryChange::Flags { .. } | MemoryChange::Nothing => {}
            },
        }
    }
    seen
}

/// Reads what the next events will ask for. Where slots are many, most are in no cache near the
/// processor that judges: one event would wait for its slot, and many wait together.
#[inline(never)]
pub(crate) fn look_ahead(past: &Past, kept: &mut WalkCache, events: &[Event])
    ensures slots { kept.new.slots ≡ kept.old.slots }
    ensures stems { kept.new.stems ≡ kept.old.stems }
{
    if kept.slots.len() > NEAR_SLOTS {
        kept.seen ^= read_for(past, kept.slots.as_slice(), events);
    }
}
