//! The rule of a deque of numbers, and what its steps tell.
use crate::deque_view::DequeView;
use crossbeam_deque::protocol::{Outcome, Protocol, Split};
use crossbeam_deque::{Pass, Stealer, Worker};
use std::alloc::Global;

/// What is left together with what all seats took is what was pushed.
pub(crate) struct DequeRule;

impl Protocol<u32, DequeView> for DequeRule {
    ghost use Rattle.std.specs.Prelude.{true, false, []};
    ghost use Rattle.pg_pool.specs.DequeRule.{deque_view, IsKept};

    ghost holds = { IsKept };

    ghost first = { deque_view true [] [] };

    ghost guest = { deque_view false [] [] };
}

/// The numbers join those that were pushed.
pub(crate) struct Push;

impl Outcome<u32, DequeView> for Push {
    ghost use Rattle.pg_pool.specs.DequeRule.{Pushed};

    ghost then = { Pushed };
}

/// The numbers join those that the seat took.
pub(crate) struct Take;

impl Outcome<u32, DequeView> for Take {
    ghost use Rattle.pg_pool.specs.DequeRule.{Took};

    ghost then = { Took };
}

/// Another seat comes to the deque, which has taken nothing.
pub(crate) struct Cut;

impl Split<DequeView> for Cut {
    ghost use Rattle.std.specs.Prelude.{false, []};
    ghost use Rattle.pg_pool.specs.DequeRule.{deque_view};

    ghost left = { λ h. deque_view false h.pushed h.taken };

    ghost right = { λ h. deque_view false h.pushed [] };
}

pub type Deque = Worker<u32, Global, DequeView, DequeRule>;

pub type Reach = Stealer<u32, Global, DequeView, DequeRule>;

pub type Token = Pass<u32, DequeView>;
