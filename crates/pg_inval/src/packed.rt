//! Invalidations as the log has them.

ghost use Rattle.std.specs.Prelude.{◌≡◌};
ghost use Rattle.pg_inval.specs.Packed.{invalidation_of};

use pg_event::Invalidation;

/// An invalidation in 16 bytes: its fields stand in an order that leaves less room between them.
#[derive(Clone, Copy)]
pub(crate) enum Packed {
    Nothing,
    Address {
        structures: bool,
        translations: bool,
        globals: bool,
        pcid: u16,
        la: u64,
    },
    Page {
        pcid: u16,
        la: u64,
    },
    Pcid {
        pcid: u16,
    },
    Everything {
        globals: bool,
    },
}

/// An invalidation, as the log has it.
#[inline(always)]
pub(crate) fn pack(invalidation: Invalidation) -> Packed
    ensures { invalidation_of result ≡ invalidation }
{
    match invalidation {
        Invalidation::Nothing => Packed::Nothing,
        Invalidation::Address {
            pcid,
            la,
            structures,
            translations,
            globals,
        } => Packed::Address {
            structures,
            translations,
            globals,
            pcid,
            la,
        },
        Invalidation::Page { pcid, la } => Packed::Page { pcid, la },
        Invalidation::Pcid(pcid) => Packed::Pcid { pcid },
        Invalidation::Everything { globals } => Packed::Everything { globals },
    }
}

/// The invalidation that the log has.
#[inline(always)]
pub(crate) fn invalidation_of(packed: Packed) -> Invalidation
    ensures { result ≡ invalidation_of packed }
{
    match packed {
        Packed::Nothing => Invalidation::Nothing,
        Packed::Address {
            structures,
            translations,
            globals,
            pcid,
            la,
        } => Invalidation::Address {
            pcid,
            la,
            structures,
            translations,
            globals,
        },
        Packed::Page { pcid, la } => Invalidation::Page { pcid, la },
        Packed::Pcid { pcid } => Invalidation::Pcid(pcid),
        Packed::Everything { globals } => Invalidation::Everything { globals },
    }
}
