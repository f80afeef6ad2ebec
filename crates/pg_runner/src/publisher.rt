ghost use Rattle.std.specs.Prelude.{◌≡◌};
ghost use Rattle.pg_runner.specs.Seats.{IsPair, IsNotBelow, is_at, counts, greater};

use crate::counts::{Counts, UNIT};
use crate::progress::Progress;
use crate::reader::ReadSeat;
use crate::rule::{Come, Confirm, Retire, Store};
use crate::seen::Seen;
use atomic_table::Seat;
use std::marker::Model;

/// The one seat that stores.
#[derive(Drop)]
pub struct Publisher {
    pub(crate) seat: Seat<(), Seen>,
    pub(crate) last: Counts,
}

impl Model for Publisher {
    ghost use Rattle.pg_runner.specs.Seats.{Seated};
    ghost use Rattle.pg_runner.specs.Rising.{IsPublisher};

    ghost Value = { Seated };

    ghost view = { λ s. record { word = s.seat.table_id; last = s.last } };

    ghost invariant = { λ s. IsPublisher s.seat.me s.last };
}

impl Publisher {
    /// Stores, number by number, the greater of the last stored and these. The segments may not be
    /// more than the events.
    pub fn store(&mut self, progress: &Progress, counts: Counts)
        requires of { self.old.word ≡ progress.now }
        requires pair { IsPair counts }
        ensures { self.new ≡ is_at progress.now (greater self.old.last counts) }
    {
        let last = Counts {
            events: self.last.events.max(counts.events),
            segments: self.last.segments.max(counts.segments),
        };
        let word = last.events as u64 * UNIT + last.segments as u64;
        progress
            .table
            .shared
            .store::<Store>(&mut self.seat, 0, word);
        self.last = last;
    }

    /// Ends a reader, which has read no more than was stored.
    pub fn retire(&mut self, progress: &Progress, reader: ReadSeat)
        requires of { self.old.word ≡ progress.now }
        requires reader { reader.word ≡ progress.now }
        ensures same { self.new ≡ self.old }
        ensures below { IsNotBelow reader.last self.old.last }
    {
        let ReadSeat { seat } = reader;
        let shared = &progress.table.shared;
        shared.join_seat::<Retire>(&mut self.seat, seat);
        shared.load::<Confirm>(&mut self.seat, 0);
    }

    /// A further reader, which has read nothing.
    pub(crate) fn reader(&mut self, progress: &Progress) -> ReadSeat
        requires { self.old.word ≡ progress.now }
        ensures same { self.new ≡ self.old }
        ensures reader { result ≡ is_at progress.now (counts 0 0) }
    {
        let shared = &progress.table.shared;
        let seat = shared.split_seat::<Come>(&mut self.seat);
        ReadSeat { seat }
    }
}
