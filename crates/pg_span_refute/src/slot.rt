//! Times of a processor between two of its events.

ghost use Rattle.std.specs.Prelude.{◌<◌, ◌↔◌, length, IsTrue};
ghost use Rattle.pg_span_refute.specs.Memory.{IsPast, IsToCome, IsSupposedPast, IsSupposedLater};

use crate::edge::Edge;
use crate::own::is_own;
use pg_span_run::{SpannedRun, must_precede};

/// A time of a processor just before one of its events and after the one before.
#[derive(Clone, Copy)]
pub(crate) struct Slot<'a> {
    pub p: u16,
    /// The number of its next event.
    pub next: u32,
    /// So many events, the first as they ended, have come in every order.
    pub ended: u32,
    /// What is supposed of the orders.
    pub edges: &'a [Edge],
}

/// Whether an event is supposed to come before an event of the processor that has come.
fn is_supposed_past(run: &SpannedRun, slot: Slot<'_>, j: u32) -> bool
    ensures { IsTrue result ↔ IsSupposedPast run.now slot.entry j }
{
    for edge in slot.edges {
        if edge.first == j && edge.second < slot.next && is_own(run.events(), slot.p, edge.second) {
            return true;
        }
    }
    false
}

/// Whether an event is supposed to come after an event of the processor that has not come.
fn is_supposed_later(run: &SpannedRun, slot: Slot<'_>, j: u32) -> bool
    ensures { IsTrue result ↔ IsSupposedLater run.now slot.entry j }
{
    for edge in slot.edges {
        if edge.second == j && slot.next <= edge.first && is_own(run.events(), slot.p, edge.first) {
            return true;
        }
    }
    false
}

/// Whether an event has come before a slot in every order.
pub(crate) fn is_past(run: &SpannedRun, slot: Slot<'_>, j: u32) -> bool
    ensures { IsTrue result ↔ IsPast run.now slot.entry j }
{
    j < slot.ended
        || (j < slot.next && is_own(run.events(), slot.p, j))
        || is_supposed_past(run, slot, j)
}

/// Whether an event comes after a slot in every order.
pub(crate) fn is_to_come(run: &SpannedRun, slot: Slot<'_>, j: u32) -> bool
    requires { j < length run.now.events }
    ensures { IsTrue result ↔ IsToCome run.now slot.entry j }
{
    j == slot.next || must_precede(run, slot.next, j) || is_supposed_later(run, slot, j)
}
