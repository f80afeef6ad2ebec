//! The rule of the word, and its kinds of step.
use crate::seen::Seen;
use atomic_table::{Join, Play, Split, TableRule};

/// The word is the pair that the publisher stored last, and no reader has read more.
pub struct Rises;

impl TableRule<(), Seen, ()> for Rises {
    ghost use Rattle.std.specs.Prelude.{true};
    ghost use Rattle.pg_runner.specs.Rising.{Rises, seen};

    ghost holds = { λ _ s. Rises s };

    ghost first = { λ _. seen true 0 0 };
}

/// The publisher stores a pair.
pub struct Store;

impl Play<(), Seen> for Store {
    ghost use Rattle.pg_runner.specs.Rising.{Stored};

    ghost then = { Stored };
}

/// A reader reads the pair.
pub struct Load;

impl Play<(), Seen> for Load {
    ghost use Rattle.pg_runner.specs.Rising.{Loaded};

    ghost then = { Loaded };
}

/// The rule says that the seat agrees.
pub struct Confirm;

impl Play<(), Seen> for Confirm {
    ghost use Rattle.pg_runner.specs.Rising.{Confirmed};

    ghost then = { Confirmed };
}

/// A reader comes that has read nothing.
pub struct Come;

impl Split<Seen> for Come {
    ghost use Rattle.std.specs.Prelude.{false};
    ghost use Rattle.pg_runner.specs.Rising.{seen};

    ghost left = { λ v. v };

    ghost right = { λ _. seen false 0 0 };
}

/// A reader takes in what another has read, which is spent.
pub struct Learn;

impl Join<Seen> for Learn {
    ghost use Rattle.std.specs.Prelude.{false, max};
    ghost use Rattle.pg_runner.specs.Rising.{seen};

    ghost both = { λ v w. seen v.stores (max v.events w.events) (max v.segments w.segments) };

    ghost spent = { seen false 0 0 };
}

/// A reader is spent into the publisher, which agrees where the reader had read no more.
pub struct Retire;

impl Join<Seen> for Retire {
    ghost use Rattle.std.specs.Prelude.{false};
    ghost use Rattle.pg_runner.specs.Rising.{seen, is_below};

    ghost both = { λ v w. record v { agrees = is_below w v } };

    ghost spent = { seen false 0 0 };
}
