//! When events came, as far as it is known, and which of two comes first in every order.

ghost use Rattle.std.specs.Prelude.{◌≡◌, ◌<◌, ◌≤◌, ◌↔◌, length, slice_get, IsTrue, Some};
ghost use Rattle.pg_span_run.specs.Orders.{MustPrecede, ended_before};
ghost use Rattle.pg_span_run.specs.Spans.{precedes, span_of};

use crate::spanned::SpannedRun;
use pg_event::{Event, processor_of};

/// What is known of when an event came.
#[derive(Clone, Copy)]
pub struct Span {
    pub number: u32,
    pub p: u16,
    /// So many events, the first as they ended, came before it in every order.
    pub began: u32,
}

/// Whether an event comes before another in every order.
pub fn precedes(first: Span, second: Span) -> bool
    ensures { result ≡ precedes first second }
{
    first.number < second.began || (first.number < second.number && first.p == second.p)
}

/// How many events, the first as they ended, had ended when an event began.
pub fn ended_before(run: &SpannedRun, number: u32) -> u32
    requires { number < length run.now.events }
    ensures count { result ≡ ended_before run.now number }
    ensures low { result ≤ number }
{
    let backs = run.backs();
    number - backs[number as usize]
}

/// The event with this number.
pub fn event_of(run: &SpannedRun, number: u32) -> &Event
    requires { number < length run.now.events }
    ensures { slice_get run.now.events number ≡ Some result.now }
{
    &run.events()[number as usize]
}

/// When the event with this number came.
pub fn span_of(run: &SpannedRun, number: u32, event: &Event) -> Span
    requires { number < length run.now.events }
    ensures { result ≡ span_of run.now number event.now }
{
    Span {
        number,
        p: processor_of(event),
        began: ended_before(run, number),
    }
}

/// Whether event j comes before event i in every order.
pub fn must_precede(run: &SpannedRun, j: u32, i: u32) -> bool
    requires { i < length run.now.events }
    ensures { IsTrue result ↔ MustPrecede run.now j i }
{
    if j >= i {
        return false;
    }
    let first = span_of(run, j, event_of(run, j));
    let second = span_of(run, i, event_of(run, i));
    precedes(first, second)
}
