//! A checker's seat.
ghost use Rattle.std.specs.Prelude.{◌≡◌, ◌-◌, ◌+◌, ◌<◌, ◌≤◌, ◌==◌, ◌||◌, ℕ, true, false, [], ◌∷◌};
ghost use Rattle.std.specs.Prelude.{◌++◌, All, MatchOption, IfOk, IfSome, IfNone, slice_index_or};
ghost use Rattle.crossbeam_deque.specs.Handles.{worker_view, worker_flavor};
ghost use Rattle.pg_pool.specs.Rounds.{IsIn};
ghost use Rattle.pg_pool.specs.Seats.{IsDeal, TookFrom, has_taken, part_at, way_to_part};
ghost use Rattle.pg_pool.specs.Ways.{own_part, reached, reached_part};

use crate::other_deque::OtherDeque;
use crate::round::Round;
use crate::rule::Deque;
use crate::steps::{cut, pop};
use std::alloc::{AllocError, Global};
use std::marker::Model;

/// A checker's seat in a round: its deque, and its ways to those of the others.
#[derive(Drop)]
pub struct Seat {
    number: u32,
    round: Round,
    marks: Vec<bool>,
    deque: Deque,
    other_deques: Vec<OtherDeque>,
}

impl Model for Seat {
    ghost use Rattle.pg_pool.specs.Seats.{Checker};

    ghost Value = { Checker };

    ghost use Rattle.std.specs.Prelude.{◌≡◌, ◌∷◌};
    ghost use Rattle.crossbeam_deque.specs.Handles.{worker_flavor};
    ghost use Rattle.pg_pool.specs.Seats.{IsSeat};
    ghost use Rattle.pg_pool.specs.Ways.{own_part, reached};

    ghost view = { λ s. record {
      number = s.number;
      round = s.round;
      parts = own_part s.deque ∷ reached s.other_deques.items;
    } };

    ghost invariant = { λ s. (worker_flavor s.deque ≡ 0)
        × IsSeat s.round s.marks.items (own_part s.deque ∷ reached s.other_deques.items) };
}

/// A number from the first deque that gives one, of those of other checkers.
fn steal_any(other_deques: &mut Vec<OtherDeque>) -> Option<u32>
    ensures { MatchOption result (reached other_deques.new.items ≡ reached other_deques.old.items)
        (λ n. TookFrom (reached other_deques.old.items) n (reached other_deques.new.items)) }
{
    for k in 0..other_deques.len() {
        let other_deque = &mut other_deques[k];
        if let Some(number) = other_deque.steal() {
            return Some(number);
        }
    }
    None
}

/// A number from the own deque, or else from another.
fn find(deque: &mut Deque, other_deques: &mut Vec<OtherDeque>) -> Option<u32>
    requires { worker_flavor deque.old ≡ 0 }
    ensures fifo { worker_flavor deque.new ≡ 0 }
    ensures found { let old = own_part deque.old ∷ reached other_deques.old.items in
        let new = own_part deque.new ∷ reached other_deques.new.items in
        MatchOption result (new ≡ old) (λ n. TookFrom old n new) }
{
    match pop(deque) {
        Some(number) => Some(number),
        None => steal_any(other_deques),
    }
}

impl Seat {
    /// The number of the checker whose seat it is.
    pub fn number(&self) -> u32
        ensures { result ≡ self.now.number }
    {
        self.number
    }

    /// The round that it takes part in.
    pub fn round(&self) -> Round
        ensures round { result ≡ self.now.round }
        ensures ordered { self.now.round.first ≤ self.now.round.last }
    {
        self.round
    }

    /// Takes a number of its own deque, or else of another checker's: of each checker in turn from
    /// the next higher number upwards, then from 0, in at most 64 tries each. The seat marks the
    /// number as taken. It takes no memory and waits for nobody.
    pub fn take(&mut self) -> Option<u32>
        ensures none { IfNone result (self.new ≡ self.old) }
        ensures seat { (self.new.number ≡ self.old.number) × (self.new.round ≡ self.old.round) }
        ensures took { IfSome result (λ n. TookFrom self.old.parts n self.new.parts) }
        ensures within { IfSome result (λ n. IsIn self.old.round n) }
        ensures fresh { IfSome result (λ n. has_taken self.old n ≡ false) }
        ensures marked { IfSome result (λ n. (m : ℕ) →
            has_taken self.new m ≡ (has_taken self.old m || m == n)) }
    {
        let number = find(&mut self.deque, &mut self.other_deques)?;
        let place = (number - self.round.first) as usize;
        self.marks[place] = true;
        Some(number)
    }

    /// Whether the seat took a number of its round.
    pub fn has_taken(&self, number: u32) -> bool
        requires { IsIn self.now.round number }
        ensures { result ≡ has_taken self.now number }
    {
        self.marks[(number - self.round.first) as usize]
    }
}

impl Seat {
    /// A seat with its own deque alone, which has taken nothing.
    pub(crate) fn new(
        alloc: Global,
        number: u32,
        round: Round,
        deque: Deque,
    ) -> Result<Seat, AllocError>
        requires ordered { round.first ≤ round.last }
        requires fifo { worker_flavor deque ≡ 0 }
        requires none { (worker_view deque).taken ≡ [] }
        requires deal { IsDeal round (own_part deque ∷ []) }
        ensures { IfOk result (λ seat. seat ≡ record {
          number = number;
          round = round;
          parts = own_part deque ∷ [];
        }) }
    {
        let marks = Vec::from_elem(alloc, false, (round.last - round.first) as usize)?;
        Ok(Seat {
            number,
            round,
            marks,
            deque,
            other_deques: Vec::new(alloc),
        })
    }

    /// A way to this seat's deque, for another seat.
    pub(crate) fn lend(&mut self) -> Result<OtherDeque, AllocError>
        ensures same { self.new ≡ self.old }
        ensures way { IfOk result (λ other_deque.
            reached_part other_deque ≡ way_to_part (part_at self.old.parts 0)) }
    {
        let reach = self.deque.stealer()?;
        let token = cut(&mut self.deque);
        Ok(OtherDeque { reach, token })
    }

    /// Takes the ways to the deques of the other seats.
    pub(crate) fn join(&mut self, other_deques: Vec<OtherDeque>)
        requires alone { self.old.parts ≡ part_at self.old.parts 0 ∷ [] }
        requires none { All (λ d. d.taken ≡ []) (reached other_deques.items) }
        requires deal { IsDeal self.old.round (self.old.parts ++ reached other_deques.items) }
        ensures { self.new
            ≡ record self.old { parts = self.old.parts ++ reached other_deques.items } }
    {
        self.other_deques = other_deques;
    }
}
