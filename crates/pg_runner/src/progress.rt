ghost use Rattle.std.specs.Prelude.{◌≡◌, ◌≤◌, All, IfOk, vec_len};
ghost use Rattle.pg_runner.specs.Seats.{IsPair, IsNotBelow, is_at, counts};

use crate::counts::{Counts, NONE, UNIT};
use crate::publisher::Publisher;
use crate::reader::ReadSeat;
use crate::rule::{Load, Rises};
use crate::seen::Seen;
use atomic_table::Table;
use std::alloc::{AllocError, Global};
use std::marker::Model;

/// Two counts in one word. One publisher stores them, and readers read them without a lock.
#[derive(Drop)]
pub struct Progress {
    pub(crate) table: Table<(), Seen, (), Rises, Global>,
}

impl Model for Progress {
    ghost use Rattle.std.specs.Prelude.{◌≡◌};
    ghost use Rattle.pg_runner.specs.Seats.{WordId};

    ghost Value = { WordId };

    ghost view = { λ p. p.table.shared.table_id };

    ghost invariant = { λ p. p.table.shared.table_id.words ≡ 1 };
}

impl Progress {
    /// A progress at which nothing stands, its publisher, and so many readers. Fails where memory
    /// is refused.
    pub fn open(
        alloc: Global,
        readers: usize,
    ) -> Result<(Progress, Publisher, Vec<ReadSeat>), AllocError>
        ensures publisher { IfOk result (λ r. r.1 ≡ is_at r.0 (counts 0 0)) }
        ensures readers { IfOk result (λ r. All (λ s. s ≡ is_at r.0 (counts 0 0)) r.2.items) }
        ensures count { IfOk result (λ r. vec_len r.2 ≡ readers) }
    {
        let mut seats = Vec::with_capacity(alloc, readers)?;
        let (table, seat) = Table::of_words(alloc, &[0], &())?;
        let progress = Progress { table };
        let mut publisher = Publisher { seat, last: NONE };
        for _ in 0..readers {
            seats.push_reserved(publisher.reader(&progress));
        }
        Ok((progress, publisher, seats))
    }

    /// The counts as they were stored at some time: neither is below what this seat has read. It
    /// waits for nobody.
    pub fn read(&self, seat: &mut ReadSeat) -> Counts
        requires { seat.old.word ≡ self.now }
        ensures seat { seat.new ≡ is_at self.now result }
        ensures later { IsNotBelow seat.old.last result }
        ensures pair { IsPair result }
    {
        let word = self.table.shared.load::<Load>(&mut seat.seat, 0);
        Counts {
            events: (word / UNIT) as u32,
            segments: (word % UNIT) as u32,
        }
    }
}
