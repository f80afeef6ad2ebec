ghost use Rattle.std.specs.Prelude.{◌≡◌};
ghost use Rattle.pg_event.specs.Witness.{claim_of, update_of};

use crate::event::Outcome;
use crate::header::says_dirty;
use crate::walk::access_kind;
use pg_entry::AccessKind;

/// What the event of an access claims, but for its moments.
#[derive(Clone, Copy)]
pub struct Claim {
    /// The number of the event.
    pub number: u32,
    pub p: u16,
    pub kind: AccessKind,
    /// A linear byte address.
    pub la: u64,
    pub outcome: Outcome,
}

/// What the event of an assist claims, but for its moments.
#[derive(Clone, Copy)]
pub struct Update {
    /// The number of the event.
    pub number: u32,
    pub p: u16,
    /// The access that it serves.
    pub kind: AccessKind,
    /// A linear byte address.
    pub la: u64,
    /// The physical byte address of the entry that it changes.
    pub word: u64,
    /// Whether it sets D beside A.
    pub dirty: bool,
}

/// What an access claims, as the event with this number.
pub fn claim_of(number: u32, p: u16, flags: u8, la: u64, outcome: Outcome) -> Claim
    ensures { result ≡ claim_of number p flags la outcome }
{
    Claim {
        number,
        p,
        kind: access_kind(flags),
        la,
        outcome,
    }
}

/// What an assist says that it did, as the event with this number.
pub fn update_of(number: u32, p: u16, flags: u8, la: u64, word: u64) -> Update
    ensures { result ≡ update_of number p flags la word }
{
    Update {
        number,
        p,
        kind: access_kind(flags),
        la,
        word,
        dirty: says_dirty(flags),
    }
}
