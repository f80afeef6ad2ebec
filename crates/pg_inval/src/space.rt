//! Spaces: entries that some events drop all at once.

ghost use Rattle.std.specs.Prelude.{◌≡◌};
ghost use Rattle.pg_inval.specs.Spaces.{own_key, space_keys, structure_space, translation_space};

use crate::key::{DropKey, global_at, local_at};
use arrayvec::ArrayVec;
use pg_event::{StructureKey, TranslationKey};

/// The cached entries of a processor `p` that some events drop all at once.
#[derive(Clone, Copy)]
pub enum Space {
    /// The paging-structure-cache entries of a PCID.
    Structures { p: u16, pcid: u16 },
    /// The translations of a PCID that are not global.
    Locals { p: u16, pcid: u16 },
    /// The translations that are global.
    Globals { p: u16 },
}

/// The space of a paging-structure-cache entry.
#[inline(always)]
pub fn structure_space(p: u16, key: StructureKey) -> Space
    ensures { result ≡ structure_space p key }
{
    Space::Structures { p, pcid: key.pcid }
}

/// The space of a translation.
#[inline(always)]
pub fn translation_space(p: u16, key: TranslationKey) -> Space
    ensures { result ≡ translation_space p key }
{
    if key.global {
        Space::Globals { p }
    } else {
        Space::Locals { p, pcid: key.pcid }
    }
}

/// The events that drop all of a space.
pub(crate) fn space_keys(space: Space) -> ArrayVec<DropKey, 2>
    ensures { result.items ≡ space_keys space }
{
    let mut keys = ArrayVec::new();
    match space {
        Space::Structures { p, pcid } => {
            keys.push(DropKey::NotGlobal { p });
            keys.push(DropKey::StructuresOf { p, pcid });
        }
        Space::Locals { p, pcid } => {
            keys.push(DropKey::NotGlobal { p });
            keys.push(DropKey::LocalsOf { p, pcid });
        }
        Space::Globals { p } => {
            keys.push(DropKey::Globals { p });
        }
    }
    keys
}

/// The key of one translation.
#[inline(always)]
pub(crate) fn own_key(p: u16, key: TranslationKey) -> DropKey
    ensures { result ≡ own_key p key }
{
    if key.global {
        global_at(p, key)
    } else {
        local_at(p, key)
    }
}
