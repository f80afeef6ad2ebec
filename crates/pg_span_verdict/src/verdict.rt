//! Whether the events of a run have an order with a run of the machine.

ghost use Rattle.std.specs.Prelude.{◌≡◌, ◌<◌, ◌≤◌, length, IfOk, IfSome, IfNone};
ghost use Rattle.std.specs.List.{range_with_len};
ghost use Rattle.pg_certify.specs.Certified.{HasRunButMoments};
ghost use Rattle.pg_span_run.specs.OrderLaws.{ends, EachPrecedesNext};
ghost use Rattle.pg_span_run.specs.Orders.{ordered};
ghost use Rattle.pg_span_verdict.specs.Verdicts.{IsVerdict, NeedsSearch, TellsNotGiven};

use crate::in_order::{InOrder, certify_in_order};
use crate::trying::{Tried, try_orders};
use pg_certify::denied_events_have_no_run;
use pg_span_refute::{Edge, Refuted, first_not_given, refute, refute_near};
use pg_span_run::{SpannedRun, ends_are_an_order, has_one_order, no_other_order};
use pg_span_search::{Sought, find_order};
use std::alloc::{AllocError, Global};

/// Whether the events of a run have an order in which some run of the machine has them.
#[derive(Drop)]
pub enum Verdict {
    /// They have: the order, by the events' numbers.
    Yes(Vec<u32>),
    /// They have none, since in no order a run of the machine comes to this event, by its number.
    /// What was deduced for it: the first of two events comes first in each order in which a run
    /// comes to the second.
    Never(u64, Vec<Edge>),
    /// They have none: all their orders were tried. The event, by its number, is the first that the
    /// search for an order could not place.
    NoneOfAll(u64),
    /// No order was found. It is not known whether there is one. The event, by its number, is the
    /// first that the search could not place, or that no moments witness in the order that it came
    /// to.
    Undecided(u64),
}

/// All orders are tried of a run of so many events.
const MOST_TRIED: usize = 64;

/// The order in which the events ended is tried first of a run of so many events.
const MOST_IN_ENDS: usize = 65_536;

/// The numbers below one, in their order.
fn numbers_below(alloc: Global, count: u32) -> Result<Vec<u32>, AllocError>
    ensures { IfOk result (λ numbers. numbers.items ≡ range_with_len 0 count) }
{
    let mut numbers = Vec::with_capacity(alloc, count as usize)?;
    for number in 0..count {
        numbers.push(number)?;
    }
    Ok(numbers)
}

/// The verdict where the events have one order alone.
fn verdict_in_only_order(alloc: Global, run: &SpannedRun) -> Result<Verdict, AllocError>
    requires { EachPrecedesNext run.now }
    ensures { IfOk result (IsVerdict run.now) }
{
    ends_are_an_order();
    no_other_order();
    denied_events_have_no_run();
    let _events = run.events();
    let order = numbers_below(alloc, run.len() as u32)?;
    match certify_in_order(alloc, run, &order)? {
        InOrder::Certified => Ok(Verdict::Yes(order)),
        InOrder::Denied(place) => Ok(Verdict::Never(place, Vec::new(alloc))),
        InOrder::NoOrder => unreachable!(),
    }
}

/// A yes in the order in which the events ended, where moments witness them in it.
fn yes_in_ends(alloc: Global, run: &SpannedRun) -> Result<Option<Verdict>, AllocError>
    ensures yes { IfOk result (λ found. IfSome found (IsVerdict run.now)) }
    ensures none { IfOk result (λ found. IfNone found
        (HasRunButMoments run.now.head (ordered run.now.events (ends run.now)) → ⊥)) }
{
    ends_are_an_order();
    denied_events_have_no_run();
    let _events = run.events();
    let order = numbers_below(alloc, run.len() as u32)?;
    match certify_in_order(alloc, run, &order)? {
        InOrder::Certified => Ok(Some(Verdict::Yes(order))),
        InOrder::Denied(_) => Ok(None),
        InOrder::NoOrder => unreachable!(),
    }
}

/// The number that stands at a place of a list, or 0 where none of an event does.
fn number_at(run: &SpannedRun, numbers: &[u32], place: u64) -> u32
    requires { EachPrecedesNext run.now → ⊥ }
    ensures { result < length run.now.events }
{
    match numbers.get(place as usize) {
        Some(number) => {
            if (*number as usize) < run.len() {
                *number
            } else {
                0
            }
        }
        None => 0,
    }
}

/// The verdict by what is sure of the orders near an event, which is told where that is not enough.
fn verdict_near(alloc: Global, run: &SpannedRun, number: u32) -> Result<Verdict, AllocError>
    requires search { NeedsSearch run.now }
    requires within { number < length run.now.events }
    requires many { 8 < length run.now.events }
    ensures { IfOk result (IsVerdict run.now) }
{
    match refute_near(alloc, run, number)? {
        Some(Refuted { number, edges }) => Ok(Verdict::Never(number as u64, edges)),
        None => Ok(Verdict::Undecided(number as u64)),
    }
}

/// The verdict by all orders of few events, whose no tells this event. Where they are too many to
/// be tried, the verdict by what is sure of the orders near it.
fn verdict_of_all(alloc: Global, run: &SpannedRun, number: u32) -> Result<Verdict, AllocError>
    requires search { NeedsSearch run.now }
    requires within { number < length run.now.events }
    requires few { length run.now.events ≤ 64 }
    ensures { IfOk result (IsVerdict run.now) }
{
    match try_orders(alloc, run)? {
        Tried::Whole(order) => Ok(Verdict::Yes(order)),
        Tried::NoOrder => Ok(Verdict::NoneOfAll(number as u64)),
        Tried::Spent => verdict_near(alloc, run, number),
    }
}

/// The verdict of a run whose search gave up with these events waiting: a no, where in no order a
/// run comes to one of them, where all orders of few events were tried, or where in no order a run
/// comes to an access near the first.
fn verdict_of_waiting(
    alloc: Global,
    run: &SpannedRun,
    waiting: &[u32],
) -> Result<Verdict, AllocError>
    requires { NeedsSearch run.now }
    ensures { IfOk result (IsVerdict run.now) }
{
    for number in waiting {
        if refute(alloc, run, *number)? {
            return Ok(Verdict::Never(*number as u64, Vec::new(alloc)));
        }
    }
    let first = number_at(run, waiting, 0);
    if run.len() > MOST_TRIED {
        verdict_near(alloc, run, first)
    } else {
        verdict_of_all(alloc, run, first)
    }
}

/// The verdict in an order that a search came to.
fn verdict_in(alloc: Global, run: &SpannedRun, order: Vec<u32>) -> Result<Verdict, AllocError>
    requires { NeedsSearch run.now }
    ensures { IfOk result (IsVerdict run.now) }
{
    match certify_in_order(alloc, run, &order)? {
        InOrder::Certified => Ok(Verdict::Yes(order)),
        InOrder::Denied(place) => {
            let number = number_at(run, &order, place);
            verdict_of_waiting(alloc, run, &[number])
        }
        InOrder::NoOrder => verdict_of_waiting(alloc, run, &[]),
    }
}

/// The verdict of a run of few events: of the order in which they ended, or of a search.
fn verdict_of_few(alloc: Global, run: &SpannedRun) -> Result<Verdict, AllocError>
    requires { EachPrecedesNext run.now → ⊥ }
    ensures { IfOk result (IsVerdict run.now) }
{
    if let Some(verdict) = yes_in_ends(alloc, run)? {
        return Ok(verdict);
    }
    match find_order(alloc, run)? {
        Sought::Order(order) => verdict_in(alloc, run, order),
        Sought::Stuck(waiting) => verdict_of_waiting(alloc, run, &waiting),
    }
}

/// The verdict of a run whose search came to no order with a run: of the order in which the events
/// ended, or by the events that waited.
fn verdict_in_ends(alloc: Global, run: &SpannedRun, waiting: &[u32]) -> Result<Verdict, AllocError>
    requires { EachPrecedesNext run.now → ⊥ }
    ensures { IfOk result (IsVerdict run.now) }
{
    match yes_in_ends(alloc, run)? {
        Some(verdict) => Ok(verdict),
        None => verdict_of_waiting(alloc, run, waiting),
    }
}

/// The verdict of a run of many events: of a search, or of the order in which they ended. That one
/// is tried last, since of many events it seldom has a run, and its first event without one may
/// stand near its end.
fn verdict_of_many(alloc: Global, run: &SpannedRun) -> Result<Verdict, AllocError>
    requires { EachPrecedesNext run.now → ⊥ }
    ensures { IfOk result (IsVerdict run.now) }
{
    let order = match find_order(alloc, run)? {
        Sought::Order(order) => order,
        Sought::Stuck(waiting) => return verdict_in_ends(alloc, run, &waiting),
    };
    match certify_in_order(alloc, run, &order)? {
        InOrder::Certified => Ok(Verdict::Yes(order)),
        InOrder::Denied(place) => {
            let number = number_at(run, &order, place);
            verdict_in_ends(alloc, run, &[number])
        }
        InOrder::NoOrder => verdict_in_ends(alloc, run, &[]),
    }
}

/// The verdict of a run whose events have several orders.
fn verdict_of_several(alloc: Global, run: &SpannedRun) -> Result<Verdict, AllocError>
    requires { EachPrecedesNext run.now → ⊥ }
    ensures { IfOk result (IsVerdict run.now) }
{
    if run.len() > MOST_IN_ENDS {
        verdict_of_many(alloc, run)
    } else {
        verdict_of_few(alloc, run)
    }
}

/// Looks for an order of the events of a run in which some run of the machine has them. A yes has
/// the order, in which `moments_in_order` names the moments. Where the events have one order alone
/// the answer is a yes or a no, and so it is where there are at most eight events. Else it is a no
/// of the least event that no memory gives, as `first_not_given` of `pg_span_refute` tells. Where
/// there is none, the order in which the events ended is tried, and a search: of at most 65,536
/// events that order first, and of more the search first. It is a no where in no order a run comes
/// to an event that waits when the search gives up, as far as `refute` of `pg_span_refute` tells;
/// where a run of at most 64 events has no order with a run, as far as a trial of all goes; or
/// where no run comes to an access near the first event that waits, as far as `refute_near` tells.
///
/// It fails only where memory is refused.
pub fn find_ordered_run(alloc: Global, run: &SpannedRun) -> Result<Verdict, AllocError>
    ensures verdict { IfOk result (IsVerdict run.now) }
    ensures given { IfOk result (TellsNotGiven run.now) }
{
    if has_one_order(run) {
        return verdict_in_only_order(alloc, run);
    }
    if let Some(number) = first_not_given(run) {
        return Ok(Verdict::Never(number as u64, Vec::new(alloc)));
    }
    verdict_of_several(alloc, run)
}
