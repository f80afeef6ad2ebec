//! The events of a run in one of their orders, certified.

ghost use Rattle.std.specs.Prelude.{◌≡◌, ◌≤◌, ◌++◌, length, take};
ghost use Rattle.std.specs.Prelude.{IfOk, IfSome, IfNone, OnOk};
ghost use Rattle.pg_certify.specs.Certified.{IsCertified, CanBeCertified, IsDenied};
ghost use Rattle.pg_certify.specs.Windows.{IsCertifying};
ghost use Rattle.pg_span_run.specs.Spanned.{IsSpanned};
ghost use Rattle.pg_span_run.specs.Orders.{ordered};
ghost use Rattle.pg_span_verdict.specs.Runs.{IsToldOf, HasRunIfCertified};
ghost use Rattle.pg_span_verdict.specs.Trying.{AreNumbers};
ghost use Rattle.pg_span_verdict.specs.Verdicts.{IsOrderedRun};

use crate::laws::ordered_events_run;
use pg_certify::{Certified, Certifying, certified_events_run, certify, denied_events_have_no_run};
use pg_check::History;
use pg_event::Event;
use pg_span_run::{SpannedRun, is_order};
use std::alloc::{AllocError, Global};

/// What is told of the events of a run in an order.
#[derive(Clone, Copy, Debug, PartialEq, Eq)]
pub enum InOrder {
    /// Some moments make them an accepted record.
    Certified,
    /// No moments witness the event at this place of the order, and it is the least such place.
    Denied(u64),
    /// The numbers are no order of the events.
    NoOrder,
}

/// So many events are certified at a time, so that no copy of a whole run is made.
const WINDOW: usize = 1_024;

/// The events of a run whose numbers stand between two places of a list.
fn events_between(
    alloc: Global,
    run: &SpannedRun,
    numbers: &[u32],
    from: usize,
    to: usize,
) -> Result<Vec<Event>, AllocError>
    requires numbers { AreNumbers run.now numbers.now }
    requires within { (from ≤ to) × (to ≤ length numbers.now) }
    ensures more { IfOk result (λ events. ordered run.now.events (take to numbers.now)
        ≡ ordered run.now.events (take from numbers.now) ++ events.items) }
    ensures spanned { IfOk result (λ events. IsSpanned run.now) }
{
    let events = run.events();
    let mut chosen = Vec::with_capacity(alloc, to - from)?;
    for place in from..to {
        let number = numbers[place];
        chosen.push(events[number as usize])?;
    }
    Ok(chosen)
}

/// Certifies the events whose numbers stand between two places of a list, after those before them.
fn certify_between(
    alloc: Global,
    certifying: &mut Certifying,
    run: &SpannedRun,
    numbers: &[u32],
    from: usize,
    to: usize,
) -> Result<(), AllocError>
    requires numbers { AreNumbers run.now numbers.now }
    requires within { (from ≤ to) × (to ≤ length numbers.now) }
    requires before { IsCertifying certifying.old run.now.head
        (ordered run.now.events (take from numbers.now)) }
    ensures { OnOk result (IsCertifying certifying.new run.now.head
        (ordered run.now.events (take to numbers.now))) }
{
    let window = events_between(alloc, run, numbers, from, to)?;
    certifying.window(&window)
}

/// The least of the events of a run with these numbers, one after another, that no moments witness,
/// or `None` where some moments make them an accepted record.
pub(crate) fn first_denied_in(
    alloc: Global,
    run: &SpannedRun,
    numbers: &[u32],
) -> Result<Option<u64>, AllocError>
    requires { AreNumbers run.now numbers.now }
    ensures denied { IfOk result (λ found. IfSome found
        (IsDenied run.now.head (ordered run.now.events numbers.now))) }
    ensures certified { IfOk result (λ found. IfNone found
        (CanBeCertified run.now.head (ordered run.now.events numbers.now))) }
{
    let mut certifying = Certifying::new(alloc, run.header().clone()?)?;
    let mut from = 0;
    while from < numbers.len() {
        let to = from + WINDOW.min(numbers.len() - from);
        certify_between(alloc, &mut certifying, run, numbers, from, to)?;
        if let Some(place) = certifying.settle() {
            return Ok(Some(place));
        }
        from = to;
    }
    Ok(certifying.settle())
}

/// Whether some moments witness all events of a run in an order, or the least place whose event
/// none witness there. Where some do, some run of the machine has the events in this order (Intel
/// SDM, vol. 3, 4.10).
///
/// It fails only where memory is refused.
pub fn certify_in_order(
    alloc: Global,
    run: &SpannedRun,
    order: &[u32],
) -> Result<InOrder, AllocError>
    ensures told { IfOk result (IsToldOf run.now order.now) }
    ensures run { IfOk result (HasRunIfCertified run.now order.now) }
{
    ordered_events_run();
    let _events = run.events();
    if !is_order(alloc, run, order)? {
        return Ok(InOrder::NoOrder);
    }
    match first_denied_in(alloc, run, order)? {
        Some(place) => Ok(InOrder::Denied(place)),
        None => Ok(InOrder::Certified),
    }
}

/// The events of a run in an order, which is one of its orders.
fn history_of(alloc: Global, run: &SpannedRun, order: &[u32]) -> Result<History, AllocError>
    requires { AreNumbers run.now order.now }
    ensures events { IfOk result (λ history. history ≡ record {
      head = run.now.head;
      events = ordered run.now.events order.now;
    }) }
    ensures spanned { IfOk result (λ history. IsSpanned run.now) }
{
    let header = run.header().clone()?;
    let mut history = History::new(alloc, header)?;
    let events = run.events();
    for number in order {
        history.extend(&[events[*number as usize]])?;
    }
    Ok(history)
}

/// The events of a run in an order in which some run of the machine has them.
///
/// It fails only where memory is refused.
pub fn history_in_order(
    alloc: Global,
    run: &SpannedRun,
    order: &[u32],
) -> Result<History, AllocError>
    requires { IsOrderedRun run.now order.now }
    ensures { IfOk result (λ history. history ≡ record {
      head = run.now.head;
      events = ordered run.now.events order.now;
    }) }
{
    history_of(alloc, run, order)
}

/// The events of a run in an order in which `certify_in_order` says that some moments witness them,
/// each with such moments.
///
/// It fails only where memory is refused.
pub fn moments_in_order(
    alloc: Global,
    run: &SpannedRun,
    order: &[u32],
) -> Result<Vec<Event>, AllocError>
    requires { IsOrderedRun run.now order.now }
    ensures { IfOk result (λ found.
        IsCertified run.now.head (ordered run.now.events order.now) found.items) }
{
    denied_events_have_no_run();
    certified_events_run();
    let history = history_of(alloc, run, order)?;
    match certify(alloc, &history)? {
        Certified::Yes(found) => Ok(found),
        Certified::No(_) => unreachable!(),
    }
}
