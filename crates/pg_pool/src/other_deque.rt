//! A way to another checker's deque.
ghost use Rattle.std.specs.Prelude.{◌≡◌, [], ◌∷◌, MatchOption};
ghost use Rattle.crossbeam_deque.specs.Handles.{view, IsPassOf, stealer_deque};
ghost use Rattle.pg_pool.specs.DequeRule.{Took};

use crate::rule::{Reach, Token};
use crate::steps::steal;

/// A deque of another checker, with this seat's token there.
#[derive(Drop)]
pub(crate) struct OtherDeque {
    pub reach: Reach,
    pub token: Token,
    ghost fits: { IsPassOf (stealer_deque reach) token },
}

impl OtherDeque {
    /// Takes the number at the front, if the tries that it has are enough.
    pub(crate) fn steal(&mut self) -> Option<u32>
        ensures same { stealer_deque self.new.reach ≡ stealer_deque self.old.reach }
        ensures took { MatchOption result (view self.new.token ≡ view self.old.token)
            (λ n. Took (view self.old.token) (n ∷ []) (view self.new.token)) }
    {
        steal(&self.reach, &mut self.token)
    }
}
