//! How the numbers of a round are dealt.
ghost use Rattle.std.specs.Prelude.{◌≡◌, ◌-◌, ◌+◌, ◌<◌, ◌≤◌, true, [], ◌++◌, IfOk, OnOk, map};
ghost use Rattle.std.specs.Prelude.{vec_len};
ghost use Rattle.std.specs.List.{range_with_len};
ghost use Rattle.crossbeam_deque.specs.Handles.{worker_view, worker_flavor};
ghost use Rattle.pg_pool.specs.Rounds.{AreCheckers, round, dealt, others};
ghost use Rattle.pg_pool.specs.Seats.{Deques, lone_seat, AreAtStart, way_to};
ghost use Rattle.pg_pool.specs.DequeRule.{deque_view};
ghost use Rattle.pg_pool.specs.Ways.{reached};

use crate::other_deque::OtherDeque;
use crate::round::Round;
use crate::rule::Deque;
use crate::seat::Seat;
use crate::steps::{new_deque, push};
use std::alloc::{AllocError, Global};

/// The deque of one of so many checkers, with its own numbers of those that are dealt so many at a
/// time.
fn deal(
    alloc: Global,
    round: Round,
    size: u32,
    checkers: u32,
    number: u32,
) -> Result<Deque, AllocError>
    requires ordered { round.first ≤ round.last }
    requires size { 0 < size }
    requires some { 0 < checkers }
    ensures fifo { IfOk result (λ deque. worker_flavor deque ≡ 0) }
    ensures dealt { IfOk result (λ deque.
        worker_view deque ≡ deque_view true (dealt round size checkers number) []) }
{
    // Room for all comes at once, so that a push is refused only where memory is.
    let blocks = (round.last - round.first).div_ceil(size).div_ceil(checkers);
    let mut deque = new_deque(alloc, blocks.saturating_mul(size) as usize)?;
    for n in round.first..round.last {
        if (n - round.first) / size % checkers == number {
            push(&mut deque, n)?;
        }
    }
    Ok(deque)
}

/// The seats with their own deques alone.
fn lone_seats(
    alloc: Global,
    round: Round,
    size: u32,
    checkers: u32,
) -> Result<Vec<Seat>, AllocError>
    requires ordered { round.first ≤ round.last }
    requires size { 0 < size }
    requires some { 0 < checkers }
    ensures { IfOk result (λ seats. (deques : Deques)
        × (seats.items ≡ map (lone_seat deques round size checkers)
        (range_with_len 0 checkers))) }
{
    let mut seats = Vec::new(alloc);
    for number in 0..checkers {
        let deque = deal(alloc, round, size, checkers, number)?;
        seats.push(Seat::new(alloc, number, round, deque)?)?;
    }
    Ok(seats)
}

/// Adds the ways to the deques of some seats, in order.
fn reach(
    seats: &mut Vec<Seat>,
    other_deques: &mut Vec<OtherDeque>,
    from: usize,
    to: usize,
) -> Result<(), AllocError>
    requires { (from ≤ to) × (to ≤ vec_len seats.old) }
    ensures same { seats.new.items ≡ seats.old.items }
    ensures ways { OnOk result (reached other_deques.new.items ≡ reached other_deques.old.items
        ++ map (way_to seats.old.items) (range_with_len from (to - from))) }
{
    for owner in from..to {
        let seat = &mut seats[owner];
        let other_deque = seat.lend()?;
        other_deques.push(other_deque)?;
    }
    Ok(())
}

/// The ways from the seat at a place to the deques of all others, in the order in which it is to
/// visit them.
fn ways(alloc: Global, seats: &mut Vec<Seat>, place: usize) -> Result<Vec<OtherDeque>, AllocError>
    requires { place < vec_len seats.old }
    ensures same { seats.new.items ≡ seats.old.items }
    ensures ways { IfOk result (λ other_deques. reached other_deques.items
        ≡ map (way_to seats.old.items) (others (vec_len seats.old) place)) }
{
    let mut other_deques = Vec::new(alloc);
    let count = seats.len();
    reach(seats, &mut other_deques, place + 1, count)?;
    reach(seats, &mut other_deques, 0, place)?;
    Ok(other_deques)
}

/// Deals the numbers of a round to so many checkers, so many at a time: each block of that many to
/// the checker of its place modulo their number. Gives their seats, each with ways to the deques of
/// all others. Fails where memory is refused.
pub(crate) fn open_blocks(
    alloc: Global,
    round: Round,
    size: u32,
    checkers: u32,
) -> Result<Vec<Seat>, AllocError>
    requires ordered { round.first ≤ round.last }
    requires size { 0 < size }
    requires checkers { AreCheckers checkers }
    ensures { IfOk result (λ seats. AreAtStart round size checkers seats.items) }
{
    let mut seats = lone_seats(alloc, round, size, checkers)?;
    for place in 0..seats.len() {
        let other_deques = ways(alloc, &mut seats, place)?;
        let seat = &mut seats[place];
        seat.join(other_deques);
    }
    Ok(seats)
}

/// Deals the numbers from `first` on and below `last` to so many checkers, each number to the
/// checker of its place modulo their number, and gives their seats, each with ways to the deques of
/// all others. Fails where memory is refused.
pub fn open_round(
    alloc: Global,
    first: u32,
    last: u32,
    checkers: u32,
) -> Result<Vec<Seat>, AllocError>
    requires ordered { first ≤ last }
    requires checkers { AreCheckers checkers }
    ensures { IfOk result (λ seats. AreAtStart (round first last) 1 checkers seats.items) }
{
    open_blocks(alloc, Round { first, last }, 1, checkers)
}
