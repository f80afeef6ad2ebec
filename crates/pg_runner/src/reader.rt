ghost use Rattle.std.specs.Prelude.{◌≡◌};
ghost use Rattle.pg_runner.specs.Seats.{is_at, greater};

use crate::progress::Progress;
use crate::rule::Learn;
use crate::seen::Seen;
use atomic_table::Seat;
use std::marker::Model;

/// A seat that reads.
#[derive(Drop)]
pub struct ReadSeat {
    pub(crate) seat: Seat<(), Seen>,
}

impl Model for ReadSeat {
    ghost use Rattle.pg_runner.specs.Seats.{Seated, counts};
    ghost use Rattle.pg_runner.specs.Rising.{IsReader};

    ghost Value = { Seated };

    ghost view = { λ s. record {
      word = s.seat.table_id;
      last = counts s.seat.me.0.events s.seat.me.0.segments;
    } };

    ghost invariant = { λ s. IsReader s.seat.me };
}

impl ReadSeat {
    /// Takes in what another reader has read, and ends that one: what is read from now on is not
    /// below it either.
    pub fn learn(&mut self, progress: &Progress, other: ReadSeat)
        requires of { self.old.word ≡ progress.now }
        requires other { other.word ≡ progress.now }
        ensures { self.new ≡ is_at progress.now (greater self.old.last other.last) }
    {
        let ReadSeat { seat } = other;
        let shared = &progress.table.shared;
        shared.join_seat::<Learn>(&mut self.seat, seat);
    }
}
