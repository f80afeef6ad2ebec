ghost use Rattle.std.specs.Prelude.{◌≡◌};
ghost use Rattle.pg_world.specs.declared.error.WorldError.TheVariants.{Memory};

use std::alloc::AllocError;
use thiserror::Error;

/// Why a call is refused: the least of these that applies. A refused call changes nothing. The same
/// call can succeed later where memory ran out, and nowhere else.
#[derive(Clone, Copy, PartialEq, Eq, Debug, Error)]
pub enum WorldError {
    /// The event breaks a rule of records, or is of another processor or kind than the call's. Of a
    /// read: there is no such processor, the address is not canonical, the table is no address of a
    /// paging structure, or the moments are not one for each level above.
    #[error("the event or the read is malformed")]
    Malformed,
    /// An event would be added, and 4,294,967,295 stand.
    #[error("the record has as many events as it can hold")]
    Full,
    /// The record is finished.
    #[error("the record is finished")]
    Finished,
    /// An event would be added, and memory for it was refused.
    #[error("memory ran out")]
    Memory,
}

impl From<AllocError> for WorldError {
    ghost from_gives = { λ _ e. e ≡ Memory };

    fn from(_error: AllocError) -> WorldError {
        WorldError::Memory
    }
}
