//! An observer that tells how far a run has come.

ghost use Rattle.std.specs.Prelude.{◌≡◌};
ghost use Rattle.pg_runner.specs.Seats.{IsNotBelow, counts};

use crate::line::{is_due, put_line};
use pg_codec::Sink;
use pg_runner::{Counts, Observer};

/// Tells a sink how many events and sealed segments a run has, once for all millions of events that
/// were passed since it was told before. Whether the sink takes the line changes nothing.
#[derive(Drop)]
pub struct Teller<E> {
    /// What it was told last.
    pub last: Counts,
    /// Where the lines go.
    pub errors: E,
}

impl<E: Sink> Teller<E> {
    /// It was told that nothing stands.
    pub fn new(errors: E) -> Teller<E>
        ensures { result.last ≡ counts 0 0 }
    {
        let last = Counts {
            events: 0,
            segments: 0,
        };
        Teller { last, errors }
    }
}

impl<E: Sink> Observer for Teller<E> {
    ghost told = { λ t. t.last };

    fn see(&mut self, counts: Counts)
        ensures told { IsNotBelow self.new.last counts }
        ensures last { self.new.last ≡ counts }
    {
        let before = self.last.events as u64;
        let events = counts.events as u64;
        self.last = counts;
        if is_due(before, events) {
            let segments = counts.segments as u64;
            let _ = put_line(&mut self.errors, events, segments);
        }
    }
}
