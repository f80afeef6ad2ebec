//! How many checkers judge a record.

ghost use Rattle.std.specs.Prelude.{◌≡◌, ◌↔◌, IsSome, IfSome};
ghost use Rattle.pg_arguments.specs.Counts.{AreFrom1To64};

use std::marker::Model;

/// So many checkers, 1 to 64. The calling thread is the only one; several have a thread each.
#[derive(Clone, Copy, Debug, PartialEq, Eq)]
pub struct Checkers {
    number: u16,
}

impl Model for Checkers {
    ghost use Rattle.std.specs.Prelude.{ℕ};
    ghost use Rattle.pg_arguments.specs.Counts.{AreFrom1To64};

    ghost Value = { ℕ };

    ghost view = { λ c. c.number };

    ghost invariant = { λ c. AreFrom1To64 c.number };

    ghost inverse = { λ n. record { number = n } };
}

impl Checkers {
    /// So many, where there may be so many.
    pub fn new(number: u32) -> Option<Checkers>
        ensures valid { IsSome result ↔ AreFrom1To64 number }
        ensures value { IfSome result (λ checkers. checkers ≡ number) }
    {
        if number < 1 || number > 64 {
            return None;
        }
        Some(Checkers {
            number: number as u16,
        })
    }

    pub fn number(self) -> u16
        ensures value { result ≡ self }
        ensures range { AreFrom1To64 result }
    {
        self.number
    }
}

/// One.
impl Default for Checkers {
    ghost is_default = { λ checkers. checkers ≡ 1 };

    fn default() -> Checkers {
        Checkers { number: 1 }
    }
}
