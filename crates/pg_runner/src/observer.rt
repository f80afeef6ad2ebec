//! Who is told how far a run has come.

ghost use Rattle.pg_runner.specs.Seats.{IsPair, IsNotBelow, counts};
ghost use Rattle.pg_runner.specs.declared.counts.Counts.{Counts as Told};

use crate::counts::Counts;

/// Who is told how far a run has come while it goes on, by what a reader has read. It changes
/// nothing of the run.
pub trait Observer {
    /// No more than what it was told last.
    ghost told: { Self → Told };

    /// Called with counts that were read, neither of which is below what was told before.
    fn see(&mut self, counts: Counts)
        requires pair { IsPair counts }
        requires later { IsNotBelow (told self.old) counts }
        ensures { IsNotBelow (told self.new) counts };
}

/// The observer that does nothing.
#[derive(Clone, Copy)]
pub struct Nobody;

impl Observer for Nobody {
    ghost told = { λ _. counts 0 0 };

    fn see(&mut self, _counts: Counts) {}
}
