ghost use Rattle.std.specs.Prelude.{◌≡◌};
ghost use Rattle.pg_runner.specs.Errors.{error_number, error_name};
ghost use Rattle.pg_runner.specs.declared.error.RunError.TheVariants.{Memory};

use std::alloc::AllocError;
use thiserror::Error;

/// Why a run of a script came to nothing.
#[derive(Clone, Copy, Debug, Error)]
pub enum RunError {
    /// Memory ran out.
    #[error("memory ran out")]
    Memory,
    /// A thread was refused.
    #[error("a thread was refused")]
    Thread,
    /// The number of checkers is outside 1 to 64.
    #[error("the number of checkers is outside 1 to 64")]
    Checkers,
}

impl From<AllocError> for RunError {
    ghost from_gives = { λ _ e. e ≡ Memory };

    fn from(_error: AllocError) -> RunError {
        RunError::Memory
    }
}

impl RunError {
    /// Its number: 1 to 3, in the order of the variants.
    pub fn number(&self) -> u8
        ensures { result ≡ error_number self.now }
    {
        match *self {
            RunError::Memory => 1,
            RunError::Thread => 2,
            RunError::Checkers => 3,
        }
    }

    /// Its name, as a refusal line gives it after the number.
    pub fn name(&self) -> &'static str
        ensures { result.now ≡ error_name self.now }
    {
        match *self {
            RunError::Memory => "memory",
            RunError::Thread => "thread refused",
            RunError::Checkers => "checkers",
        }
    }
}
