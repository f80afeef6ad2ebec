//! Whether an order of the events is one that they may have had.

ghost use Rattle.std.specs.Prelude.{◌≡◌, ◌+◌, ◌<◌, ◌≤◌, ◌^◌, ◌↔◌, ℕ, length, slice_index};
ghost use Rattle.std.specs.Prelude.{IfOk, IsTrue};
ghost use Rattle.std.specs.List.{AllByRecursion};
ghost use Rattle.pg_event.specs.Form.{processor_of};
ghost use Rattle.pg_span_run.specs.Orders.{IsOrder};
ghost use Rattle.pg_span_run.specs.Places.{ArePlaces, KeepsSpans, KeepsPrograms};

use crate::spanned::SpannedRun;
use pg_event::{Event, processor_of};
use std::alloc::{AllocError, Global};

/// Where each of the numbers below so many stands in a list of so many numbers: a number that
/// stands nowhere has their count.
fn places_of(alloc: Global, numbers: &[u32]) -> Result<Vec<u32>, AllocError>
    requires { length numbers.now < 2 ^ 32 }
    ensures { IfOk result (λ places. ArePlaces numbers.now places.items) }
{
    let count = numbers.len();
    let mut places = vec![in alloc; count as u32; count]?;
    for (place, number) in numbers.iter().enumerate() {
        if (*number as usize) < count {
            places[*number as usize] = place as u32;
        }
    }
    Ok(places)
}

/// Whether each event stands after all that had ended before it began.
fn keeps_spans(alloc: Global, backs: &[u32], places: &[u32]) -> Result<bool, AllocError>
    requires same { length places.now ≡ length backs.now }
    requires within { (i : ℕ) → i < length places.now → slice_index places.now i + 1 < 2 ^ 32 }
    ensures { IfOk result (λ kept. IsTrue kept ↔ KeepsSpans backs.now places.now) }
{
    // Of each number the least bound of the places of those below it.
    let mut bounds = Vec::with_capacity(alloc, backs.len())?;
    let mut bound = 0;
    for (i, back) in backs.iter().enumerate() {
        bounds.push(bound)?;
        if places[i] < bounds[i.saturating_sub(*back as usize)] {
            return Ok(false);
        }
        bound = bound.max(places[i] + 1);
    }
    Ok(true)
}

/// Whether each event stands after the earlier ones of its processor.
fn keeps_programs(
    alloc: Global,
    events: &[Event],
    processors: usize,
    places: &[u32],
) -> Result<bool, AllocError>
    requires same { length places.now ≡ length events.now }
    requires within { (i : ℕ) → i < length places.now → slice_index places.now i + 1 < 2 ^ 32 }
    requires known { AllByRecursion (λ e. processor_of e < processors) events.now }
    ensures { IfOk result (λ kept. IsTrue kept ↔ KeepsPrograms events.now places.now) }
{
    // Of each processor the least bound of the places of its events so far.
    let mut bounds = vec![in alloc; 0u32; processors]?;
    for (i, event) in events.iter().enumerate() {
        let p = processor_of(event) as usize;
        if places[i] < bounds[p] {
            return Ok(false);
        }
        bounds[p] = places[i] + 1;
    }
    Ok(true)
}

/// Whether each number has a place.
fn are_all_placed(places: &[u32]) -> bool
    ensures { IsTrue result ↔ ((i : ℕ) → i < length places.now →
        slice_index places.now i < length places.now) }
{
    places.iter().all(|place| (*place as usize) < places.len())
}

/// Whether the numbers are an order of the run's events: each of them once, and none before one
/// that had ended before it began, or that is an earlier one of its processor.
///
/// It fails only where memory is refused, and takes 8 bytes for each event, and time linear in
/// their count.
pub fn is_order(alloc: Global, run: &SpannedRun, order: &[u32]) -> Result<bool, AllocError>
    ensures { IfOk result (λ is. IsTrue is ↔ IsOrder run.now order.now) }
{
    if order.len() != run.len() {
        return Ok(false);
    }
    let places = places_of(alloc, order)?;
    if !are_all_placed(&places) {
        return Ok(false);
    }
    if !keeps_spans(alloc, run.backs(), &places)? {
        return Ok(false);
    }
    keeps_programs(alloc, run.events(), run.processors(), &places)
}
