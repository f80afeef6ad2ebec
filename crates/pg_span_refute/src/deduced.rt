//! What is sure of the orders around an event: on which side of an access or an assist of the
//! processor a write stands, where no run comes to it on the other side.

ghost use Rattle.std.specs.Prelude.{◌≡◌, ℕ, ◌<◌, ◌≤◌, [], length, IfOk, OnOk, IfSome};
ghost use Rattle.std.specs.Prelude.{IsTrue};
ghost use Rattle.pg_span_refute.specs.Memory.{IsOwn, IsWrite};
ghost use Rattle.pg_span_refute.specs.Orders.{NamesSomeWalk};
ghost use Rattle.pg_span_refute.specs.Supposed.{AreSure, IsUpTo, IsRace, AreDeduced, IsRefuted};
ghost use Rattle.pg_span_refute.specs.Supposed.{AddsEdgesOf, FollowInTurn};
ghost use Rattle.pg_span_refute.specs.Words.{AreWordsOf};

use crate::edge::Edge;
use crate::own::is_own;
use crate::refuter::refute_so;
use crate::words::Words;
use pg_event::Event;
use pg_span_run::{SpannedRun, ended_before, must_precede};
use std::alloc::{AllocError, Global};

/// So much is looked at in all.
const MOST_LOOKS: u64 = 100_000_000;

/// So many events on each side of one are looked at.
const MOST_NEAR: usize = 64;

/// Where those refute none, all events of a run of so many are looked at.
const MOST_SMALL: usize = 4096;

/// An event to which in no order a run of the machine comes, by its number.
#[derive(Drop)]
pub struct Refuted {
    pub number: u32,
    /// What was deduced of the orders before: the first of two events comes first in each order in
    /// which a run comes to the second.
    pub edges: Vec<Edge>,
}

/// Adds that an event comes before an access or an assist, where no run comes to that the other way
/// round.
fn deduce(
    run: &SpannedRun,
    words: &mut Words,
    edges: &mut Vec<Edge>,
    edge: Edge,
) -> Result<(), AllocError>
    requires race { IsRace run.now edge }
    requires words { AreWordsOf run.now.events words.old.words.items }
    ensures words { OnOk result (AreWordsOf run.now.events words.new.words.items) }
    ensures sure { OnOk result ((i : ℕ) → IsUpTo run.now edge.second i →
        AreSure run.now edges.old.items i → AreSure run.now edges.new.items i) }
    ensures deduced { OnOk result (AreSure run.now edges.old.items edge.second →
        AreDeduced run.now edges.old.items → AreDeduced run.now edges.new.items) }
    ensures follow { OnOk result (FollowInTurn run.now [] edges.old.items →
        FollowInTurn run.now [] edges.new.items) }
    ensures more { OnOk result (AddsEdgesOf edge.second edges.old.items edges.new.items) }
{
    edges.push(Edge {
        first: edge.second,
        second: edge.first,
    })?;
    let is_sure = refute_so(run, words, edges, edge.second)?;
    edges.pop();
    if is_sure {
        edges.push(edge)?;
    }
    Ok(())
}

fn is_write(run: &SpannedRun, number: u32) -> bool
    requires { number < length run.now.events }
    ensures { IsTrue result → IsWrite run.now.events number }
{
    matches!(run.events()[number as usize], Event::Write { .. })
}

/// Whether an event is an access or an assist.
fn names_walk(run: &SpannedRun, number: u32) -> bool
    requires { number < length run.now.events }
    ensures { IsTrue result → NamesSomeWalk run.now.events number }
{
    matches!(
        run.events()[number as usize],
        Event::Access { .. } | Event::Assist { .. }
    )
}

/// Whether an event is a write that may come on both sides of an access or an assist.
fn may_come_on_both_sides(run: &SpannedRun, asked: u32, write: u32) -> bool
    requires asked { asked < length run.now.events }
    requires walk { NamesSomeWalk run.now.events asked }
    requires write { write < length run.now.events }
    ensures { IsTrue result → IsRace run.now (record { first = write; second = asked }) }
{
    is_write(run, write) && !must_precede(run, write, asked) && !must_precede(run, asked, write)
}

/// Adds what is sure of the writes around an access or an assist.
fn deduce_around(
    run: &SpannedRun,
    words: &mut Words,
    edges: &mut Vec<Edge>,
    asked: u32,
) -> Result<(), AllocError>
    requires asked { asked < length run.now.events }
    requires walk { NamesSomeWalk run.now.events asked }
    requires words { AreWordsOf run.now.events words.old.words.items }
    ensures words { OnOk result (AreWordsOf run.now.events words.new.words.items) }
    ensures sure { OnOk result ((i : ℕ) → IsUpTo run.now asked i →
        AreSure run.now edges.old.items i → AreSure run.now edges.new.items i) }
    ensures deduced { OnOk result (AreSure run.now edges.old.items asked →
        AreDeduced run.now edges.old.items → AreDeduced run.now edges.new.items) }
    ensures follow { OnOk result (FollowInTurn run.now [] edges.old.items →
        FollowInTurn run.now [] edges.new.items) }
    ensures more { OnOk result (AddsEdgesOf asked edges.old.items edges.new.items) }
{
    let end = (asked as usize + MOST_NEAR).min(run.len()) as u32;
    for write in ended_before(run, asked)..end {
        if may_come_on_both_sides(run, asked, write) {
            let edge = Edge {
                first: write,
                second: asked,
            };
            deduce(run, words, edges, edge)?;
        }
    }
    Ok(())
}

/// Whether an event is an access or an assist of a processor.
fn is_own_walk(run: &SpannedRun, p: u16, number: u32) -> bool
    requires { number < length run.now.events }
    ensures own { IsTrue result → IsOwn run.now.events p number }
    ensures walk { IsTrue result → NamesSomeWalk run.now.events number }
{
    names_walk(run, number) && is_own(run.events(), p, number)
}

/// The first access or assist of a processor among these events to which no run comes, as far as is
/// seen.
fn refute_own(
    run: &SpannedRun,
    words: &mut Words,
    p: u16,
    from: u32,
    to: u32,
) -> Result<Option<Refuted>, AllocError>
    requires within { to ≤ length run.now.events }
    requires words { AreWordsOf run.now.events words.old.words.items }
    ensures words { OnOk result (AreWordsOf run.now.events words.new.words.items) }
    ensures refuted { IfOk result (λ found. IfSome found (IsRefuted run.now)) }
{
    let mut edges = Vec::new(words.alloc);
    for number in from..to {
        if is_own_walk(run, p, number) {
            if refute_so(run, words, &edges, number)? {
                return Ok(Some(Refuted { number, edges }));
            }
            deduce_around(run, words, &mut edges, number)?;
        }
    }
    Ok(None)
}

/// The same of each processor, among so many events on each side of one.
fn refute_within(
    alloc: Global,
    run: &SpannedRun,
    number: u32,
    most: usize,
) -> Result<Option<Refuted>, AllocError>
    requires { most ≤ 4096 }
    ensures { IfOk result (λ found. IfSome found (IsRefuted run.now)) }
{
    let to = (number as usize + most).min(run.len()) as u32;
    let from = number.saturating_sub(most as u32);
    let mut words = Words::new(alloc, MOST_LOOKS);
    for p in 0..run.header().processors.len() {
        if let Some(refuted) = refute_own(run, &mut words, p as u16, from, to)? {
            return Ok(Some(refuted));
        }
    }
    Ok(None)
}

/// An event near another, by its number, to which in no order a run of the machine comes, so that
/// no order has a run. It asks what `refute` does of the accesses and assists near it, but where a
/// write may come on both sides of one, and no run comes to that on one side, it goes on with the
/// other. Those within 64 events are asked first, and then, in a run of at most 4,096 events, all.
/// `None` says nothing.
///
/// It fails only where memory is refused. Each of them and each such write takes as long as
/// `refute` does, up to a limit of all.
pub fn refute_near(
    alloc: Global,
    run: &SpannedRun,
    number: u32,
) -> Result<Option<Refuted>, AllocError>
    ensures { IfOk result (λ found. IfSome found (IsRefuted run.now)) }
{
    if let Some(refuted) = refute_within(alloc, run, number, MOST_NEAR)? {
        return Ok(Some(refuted));
    }
    if run.len() > MOST_SMALL {
        return Ok(None);
    }
    refute_within(alloc, run, number, MOST_SMALL)
}
