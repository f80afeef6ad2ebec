ghost use Rattle.std.specs.Prelude.{◌≡◌};
ghost use Rattle.pg_pool.specs.Errors.{error_number};
ghost use Rattle.pg_pool.specs.declared.error.PoolError.TheVariants.{Memory};

use std::alloc::AllocError;
use thiserror::Error;

/// Why a round came to no verdicts.
#[derive(Clone, Copy, Debug, Error)]
pub enum PoolError {
    /// Memory ran out.
    #[error("memory ran out")]
    Memory,
    /// A thread was refused.
    #[error("a thread was refused")]
    Thread,
    /// The number of checkers is outside 1 to 64.
    #[error("the number of checkers is outside 1 to 64")]
    Checkers,
}

impl From<AllocError> for PoolError {
    ghost from_gives = { λ _ e. e ≡ Memory };

    fn from(_error: AllocError) -> PoolError {
        PoolError::Memory
    }
}

impl PoolError {
    /// Its number: 1 memory, 2 a refused thread, 3 the number of checkers.
    pub fn number(&self) -> u8
        ensures { result ≡ error_number self.now }
    {
        match *self {
            PoolError::Memory => 1,
            PoolError::Thread => 2,
            PoolError::Checkers => 3,
        }
    }
}
