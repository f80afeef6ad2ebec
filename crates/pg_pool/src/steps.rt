//! The steps on a deque: a push, a pop, a steal, and the coming of another seat.
ghost use Rattle.std.specs.Prelude.{◌≡◌, true, false, [], ◌∷◌, MatchOption, IfOk, OnOk};
ghost use Rattle.crossbeam_deque.specs.Handles.{view, IsPassOf, worker_deque, stealer_deque};
ghost use Rattle.crossbeam_deque.specs.Handles.{worker_view, worker_flavor};
ghost use Rattle.pg_pool.specs.DequeRule.{deque_view, Pushed, Took};

use crate::rule::{Cut, Deque, Push, Reach, Take, Token};
use crossbeam_deque::Steal;
use std::alloc::{AllocError, Global};

/// How often a seat tries to steal from a deque at which others were faster.
const TRIES: u32 = 64;

/// An empty deque, whose owner takes at the front as the others do.
pub(crate) fn new_deque(alloc: Global, capacity: usize) -> Result<Deque, AllocError>
    ensures fifo { IfOk result (λ deque. worker_flavor deque ≡ 0) }
    ensures empty { IfOk result (λ deque. worker_view deque ≡ deque_view true [] []) }
{
    Deque::fifo_as(alloc, capacity)
}

/// The owner pushes a number, while no other seat reaches its deque.
pub(crate) fn push(deque: &mut Deque, number: u32) -> Result<(), AllocError>
    requires { (worker_view deque.old).alone ≡ true }
    ensures fifo { worker_flavor deque.new ≡ worker_flavor deque.old }
    ensures pushed { OnOk result
        (Pushed (worker_view deque.old) (number ∷ []) (worker_view deque.new)) }
{
    match deque.push_as::<Push>(number) {
        Ok(()) => Ok(()),
        Err(_) => Err(AllocError),
    }
}

/// The owner takes the number at the front.
pub(crate) fn pop(deque: &mut Deque) -> Option<u32>
    requires { worker_flavor deque.old ≡ 0 }
    ensures same { (worker_flavor deque.new ≡ worker_flavor deque.old)
        × (worker_deque deque.new ≡ worker_deque deque.old) }
    ensures took { MatchOption result (worker_view deque.new ≡ worker_view deque.old)
        (λ n. Took (worker_view deque.old) (n ∷ []) (worker_view deque.new)) }
{
    deque.pop_as::<Take>()
}

/// A token for another seat at this deque.
pub(crate) fn cut(deque: &mut Deque) -> Token
    ensures same { (worker_flavor deque.new ≡ worker_flavor deque.old)
        × (worker_deque deque.new ≡ worker_deque deque.old) }
    ensures owner { let old = worker_view deque.old in
        worker_view deque.new ≡ deque_view false old.pushed old.taken }
    ensures token { IsPassOf (worker_deque deque.old) result
        × (view result ≡ deque_view false (worker_view deque.old).pushed []) }
{
    deque.another::<Cut>()
}

/// Takes the number at the front of another seat's deque, in so many tries.
pub(crate) fn steal(reach: &Reach, token: &mut Token) -> Option<u32>
    requires { IsPassOf (stealer_deque reach.now) token.old }
    ensures same { IsPassOf (stealer_deque reach.now) token.new }
    ensures took { MatchOption result (view token.new ≡ view token.old)
        (λ n. Took (view token.old) (n ∷ []) (view token.new)) }
{
    for _ in 0..TRIES {
        match reach.steal_as::<Take>(token) {
            Steal::Success(number) => return Some(number),
            Steal::Empty => return None,
            Steal::Retry => {}
        }
    }
    None
}
