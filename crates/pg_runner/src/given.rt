//! What was given out of a record in the making: a history that only grows, of which whoever takes
//! part knows a beginning. It stands in proofs alone, but for its length.

ghost use Rattle.std.specs.Prelude.{◌≡◌, ◌++◌, ◌∷◌, [], IsTrue};
ghost use Rattle.pg_runner.specs.Given.{batch, head_of};

use crate::batch::Batch;
use logbook::{Gain, Offer, Plain, Play, Rule, Seen, Start, Word};
use pg_event::Event;
use std::marker::{Brand, Model, PhantomData};

/// No history becomes longer.
const MOST: u64 = 1 << 62;

/// The word of a history is its length.
pub struct Counted;

impl Rule<Batch, u64> for Counted {
    ghost use Rattle.std.specs.Prelude.{[]};
    ghost use base.Fml.{ftrue};
    ghost use Rattle.pg_runner.specs.Given.{IsCounted};

    ghost holds = { λ cells log. IsCounted cells log };

    ghost first = { [] };

    ghost hinted = { λ n log. Unit {0} };

    ghost shows = { λ log. [] };

    ghost keeps = { λ names log. ftrue };

    ghost moves = { λ ask before after answer. Unit {0} };
}

/// Nothing is traded.
pub struct Nothing;

impl Gain<Batch, u64> for Nothing {
    ghost use base.Fml.{ftrue};

    ghost after = { λ names about answer. ftrue };
}

/// A step that adds a batch.
pub struct Adding;

impl Play<Batch, u64> for Adding {
    ghost use Rattle.pg_runner.specs.Given.{Adds};

    ghost then = { Adds };
}

/// What it adds.
impl Plain<Vec<Event>, Batch, u64> for Adding {
    ghost use Rattle.std.specs.Prelude.{None};
    ghost use Rattle.pg_runner.specs.Given.{batch};

    ghost ask = { λ events. batch events.items };

    ghost state = { λ events. None };
}

/// Which history it is. Each run picks one.
pub trait Naming {
    ghost use Rattle.logbook.specs.Pages.{Book};

    ghost book: { Book };
}

impl Naming for Brand {
    ghost book = { record { number = 0; log_name = 0; cells_name = 0 } };
}

/// An empty history that has no name yet.
pub struct Opened {
    word: Word<Batch, u64, Counted>,
    seen: Seen<Batch, u64, Counted>,
    pub ghost empty: { seen.log ≡ [] },
    pub ghost word_is: { word ≡ head_of seen.book },
}

impl Opened {
    pub(crate) fn new() -> Opened {
        let (seen, mut first, _second) = Seen::open(Start::alone(), 0, 0);
        Opened {
            word: Word::tracked(0, &mut first),
            seen,
        }
    }

    /// Its length under a name, and what is known of it.
    pub(crate) fn named<J: Naming>(self) -> (Count<J>, Given<J>)
        requires { self.seen.book ≡ J.book }
        ensures { result.1 ≡ [] }
    {
        let Opened { word, seen } = self;
        (
            Count {
                word,
                of: PhantomData,
            },
            Given {
                batches: 0,
                seen,
                of: PhantomData,
            },
        )
    }
}

/// The length of a history.
#[derive(Drop)]
pub struct Count<J: Naming> {
    word: Word<Batch, u64, Counted>,
    of: PhantomData<J>,
    ghost word_is: { word ≡ head_of J.book },
}

/// A beginning of a history that is known. Contracts see it as its batches.
#[derive(Drop)]
pub struct Given<J: Naming> {
    batches: u64,
    seen: Seen<Batch, u64, Counted>,
    of: PhantomData<J>,
}

impl<J: Naming> Model for Given<J> {
    ghost use Rattle.std.specs.Prelude.{◌≡◌, List, length};
    ghost use Rattle.pg_runner.specs.declared.batch.Batch.{Batch};

    ghost Value = { List Batch };

    ghost view = { λ g. g.seen.log };

    ghost invariant = { λ g. (g.batches ≡ length g.seen.log) × (g.seen.book ≡ J.book) };
}

impl<J: Naming> Given<J> {
    /// A copy.
    pub(crate) fn again(&self) -> Given<J>
        ensures { result ≡ self.now }
    {
        Given {
            batches: self.batches,
            seen: self.seen.again(),
            of: PhantomData,
        }
    }

    /// Whether the same is known: of two beginnings of one history, whether they are as long.
    pub(crate) fn agrees(&self, other: &Given<J>) -> bool
        ensures { IsTrue result → self.now ≡ other.now }
    {
        let mut both = self.seen.again();
        both.learn(&other.seen);
        self.batches == other.batches
    }

    /// Adds a batch to all that is known, and says whether it did: not where the history is longer.
    pub(crate) fn add(&mut self, count: &Count<J>, events: &Vec<Event>) -> bool
        ensures { IsTrue result → self.new ≡ self.old ++ batch events.now.items ∷ [] }
    {
        let batches = self.batches;
        if batches >= MOST {
            return false;
        }
        let mut offer: Offer<Batch, u64, Counted, Nothing> = self
            .seen
            .plain::<Nothing, Vec<Event>, Adding>(events);
        let mut pen = self.seen.no_pen();
        let found = count
            .word
            .compare_exchange::<Adding, Nothing>(
                batches,
                batches + 1,
                &mut self.seen,
                &mut offer,
                &mut pen,
            );
        self.batches = if found == batches { batches + 1 } else { found };
        found == batches
    }
}
