//! Work that goes on beside a round.

/// A piece of work that the calling thread does while the checkers of a round judge.
pub trait Beside: Drop {
    type Output;

    // It can be done.
    ghost can_run: { Self → Type 0 };

    // What doing it gives.
    ghost gives: { Self → Self.Output → Type 0 };

    /// Does the work. It is called once, whatever becomes of the round.
    fn run(self) -> Self::Output
        requires { can_run self }
        ensures { gives self result };
}

/// No work.
#[derive(Drop)]
pub struct NoWork;

impl Beside for NoWork {
    type Output = ();

    ghost can_run = { λ _. Unit {0} };

    ghost gives = { λ _ _. Unit {0} };

    fn run(self) {
        let NoWork = self;
    }
}
