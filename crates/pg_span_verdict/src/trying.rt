//! All orders of a run with few events, tried one after another. What begins an order and has an
//! event that no moments witness begins none with a run, whatever comes after it.

ghost use Rattle.std.specs.Prelude.{◌≡◌, ℕ, ◌<◌, ◌≤◌, ◌^◌, ◌↔◌, [], ◌∷◌, ◌++◌, length, IfOk, OnOk};
ghost use Rattle.std.specs.Prelude.{IsTrue, IsFalse, slice_index};
ghost use Rattle.pg_span_run.specs.OrderLaws.{EachPrecedesNext};
ghost use Rattle.pg_span_verdict.specs.Runs.{HasOrderedRun};
ghost use Rattle.pg_span_verdict.specs.Trying.{AreNumbers, Lacks, LacksEarlier, NoneBegins};
ghost use Rattle.pg_span_verdict.specs.Trying.{NoneBelow, IsTrying, GoesOn, IsTried};
ghost use Rattle.pg_span_verdict.specs.Verdicts.{IsOrderedRun};

use crate::in_order::{InOrder, certify_in_order, first_denied_in};
use pg_certify::denied_events_have_no_run;
use pg_search::names_moments;
use pg_span_run::{SpannedRun, must_precede};
use std::alloc::{AllocError, Global};

/// What trying all orders came to.
#[derive(Drop)]
pub(crate) enum Tried {
    /// An order in which some moments witness each event.
    Whole(Vec<u32>),
    /// No order has a run.
    NoOrder,
    /// So many steps were made that it gave up.
    Spent,
}

/// Where the search stands: each order that begins with a part of `front` and goes on with a lesser
/// number was tried, and each that begins with `front` and goes on with a number below `next`.
#[derive(Drop)]
pub(crate) struct Trying {
    pub front: Vec<u32>,
    pub next: u32,
}

/// Whether a number stands nowhere in a list.
fn lacks(numbers: &[u32], number: u32) -> bool
    ensures { IsTrue result ↔ Lacks numbers.now number }
{
    numbers.iter().all(|other| *other != number)
}

/// Whether a list lacks an event that must precede another.
fn lacks_earlier(run: &SpannedRun, numbers: &[u32], number: u32) -> bool
    requires { number < length run.now.events }
    ensures { IsTrue result → LacksEarlier run.now numbers.now number }
{
    for earlier in 0..number {
        if must_precede(run, earlier, number) && lacks(numbers, earlier) {
            return true;
        }
    }
    false
}

/// Whether no moments witness one of these events after those before it.
fn are_denied(alloc: Global, run: &SpannedRun, numbers: &[u32]) -> Result<bool, AllocError>
    requires { AreNumbers run.now numbers.now }
    ensures { IfOk result (λ denied. IsTrue denied → NoneBegins run.now numbers.now) }
{
    denied_events_have_no_run();
    let _events = run.events();
    match first_denied_in(alloc, run, numbers)? {
        Some(_) => Ok(true),
        None => Ok(false),
    }
}

/// Whether no moments witness the last of these events, which is told once more.
fn is_last_denied(
    alloc: Global,
    run: &SpannedRun,
    numbers: &[u32],
    last: u32,
) -> Result<bool, AllocError>
    requires numbers { AreNumbers run.now numbers.now }
    requires last { last < length run.now.events }
    ensures { IfOk result (λ denied. IsTrue denied → NoneBegins run.now numbers.now) }
{
    let events = run.events();
    // An event that names no moments is never denied.
    Ok(names_moments(&events[last as usize]) && are_denied(alloc, run, numbers)?)
}

/// Whether these numbers, as many as there are events, are an order with a run.
fn is_ordered_run(alloc: Global, run: &SpannedRun, numbers: &[u32]) -> Result<bool, AllocError>
    requires { length numbers.now ≡ length run.now.events }
    ensures yes { IfOk result (λ has_run. IsTrue has_run → IsOrderedRun run.now numbers.now) }
    ensures no { IfOk result (λ has_run. IsFalse has_run → NoneBegins run.now numbers.now) }
{
    denied_events_have_no_run();
    let _events = run.events();
    match certify_in_order(alloc, run, numbers)? {
        InOrder::Certified => Ok(true),
        InOrder::Denied(_) => Ok(false),
        InOrder::NoOrder => Ok(false),
    }
}

/// Whether no order with a run begins with these numbers, of which the last is told once more. What
/// is as long as an order is looked at whole.
fn leads_nowhere(
    alloc: Global,
    run: &SpannedRun,
    numbers: &[u32],
    last: u32,
) -> Result<bool, AllocError>
    requires numbers { AreNumbers run.now numbers.now }
    requires last { last < length run.now.events }
    ensures none { IfOk result (λ nowhere. IsTrue nowhere → NoneBegins run.now numbers.now) }
    ensures whole { IfOk result (λ nowhere. IsFalse nowhere →
        length numbers.now ≡ length run.now.events → IsOrderedRun run.now numbers.now) }
{
    if numbers.len() == run.len() {
        return Ok(!is_ordered_run(alloc, run, numbers)?);
    }
    is_last_denied(alloc, run, numbers, last)
}

impl Trying {
    /// Whether the next number may go on what the order begins with, by what must precede it.
    fn may_follow(&self, run: &SpannedRun) -> bool
        requires { self.now.next < length run.now.events }
        ensures none { IsFalse result →
            NoneBegins run.now (self.now.front.items ++ self.now.next ∷ []) }
        ensures lacks { IsTrue result → Lacks self.now.front.items self.now.next }
    {
        lacks(&self.front, self.next) && !lacks_earlier(run, &self.front, self.next)
    }

    /// Goes on with the next number, or past it where no order with a run does.
    fn go_on(&mut self, alloc: Global, run: &SpannedRun) -> Result<(), AllocError>
        requires trying { IsTrying run.now self.old }
        requires count { length run.now.events < 2 ^ 32 }
        requires short { length self.old.front.items < length run.now.events }
        requires next { self.old.next < length run.now.events }
        ensures trying { OnOk result (IsTrying run.now self.new) }
        ensures fewer { OnOk result (GoesOn run.now self.old self.new) }
    {
        if self.may_follow(run) {
            let last = self.next;
            self.front.push(last)?;
            if leads_nowhere(alloc, run, &self.front, last)? {
                self.front.pop();
                self.next += 1;
            } else {
                self.next = 0;
            }
        } else {
            self.next += 1;
        }
        Ok(())
    }

    /// Goes back by one number and past it. Says no where there is none.
    fn go_back(&mut self, run: &SpannedRun) -> bool
        requires trying { IsTrying run.now self.old }
        requires count { length run.now.events < 2 ^ 32 }
        requires short { length self.old.front.items < length run.now.events }
        requires all { length run.now.events ≤ self.old.next }
        ensures back { IsTrue result → IsTrying run.now self.new }
        ensures fewer { IsTrue result → GoesOn run.now self.old self.new }
        ensures none { IsFalse result → HasOrderedRun run.now → ⊥ }
    {
        match self.front.pop() {
            Some(last) => {
                self.next = last + 1;
                true
            }
            None => false,
        }
    }
}

/// So many steps are made, divided by one more than there are events. All orders of eight events
/// take 623,529 at most.
const MOST_LOOKS: u64 = 10_000_000;

/// Tries all orders of a run, until one is found or too much was looked at.
pub(crate) fn try_orders(alloc: Global, run: &SpannedRun) -> Result<Tried, AllocError>
    requires { EachPrecedesNext run.now → ⊥ }
    ensures { IfOk result (IsTried run.now) }
{
    let count = run.len();
    let mut trying = Trying {
        front: Vec::new(alloc),
        next: 0,
    };
    for _ in 0..MOST_LOOKS / (count as u64 + 1) {
        if trying.front.len() >= count {
            let Trying { front, .. } = trying;
            return Ok(Tried::Whole(front));
        }
        if (trying.next as usize) < count {
            trying.go_on(alloc, run)?;
        } else if !trying.go_back(run) {
            return Ok(Tried::NoOrder);
        }
    }
    Ok(Tried::Spent)
}
