ghost use Rattle.std.specs.Prelude.{◌≡◌};
ghost use Rattle.pg_inval.specs.Keys.{structure_at, local_at, global_at, structure_keys};
ghost use Rattle.pg_inval.specs.Keys.{translation_keys, processor_in};
ghost use Rattle.pg_inval.specs.Lasts.{place_of, other_place_of};
ghost use Rattle.pg_inval.specs.Hashed.{numbered, owner_of, number_of, hashed, hashed-alike};

use arrayvec::ArrayVec;
use pg_event::{StructureKey, TranslationKey, level_shift};
use std::hash::{Hash, Hasher};

/// What an event drops on a processor: all cached entries of a kind, those of a PCID, or those that
/// would be used for an address. An entry is dropped by the events of a few of these keys, and an
/// event has a few of them, so that neither has to be searched for among all others.
#[derive(Clone, Copy, PartialEq, Eq)]
pub(crate) enum DropKey {
    /// All entries that are not global: each paging-structure-cache entry is one.
    NotGlobal {
        p: u16,
    },
    /// All translations that are global.
    Globals {
        p: u16,
    },
    /// The paging-structure-cache entries of a PCID.
    StructuresOf {
        p: u16,
        pcid: u16,
    },
    /// That of a PCID for a region of 2 to the power of `shift` bytes.
    Structure {
        shift: u8,
        p: u16,
        pcid: u16,
        prefix: u64,
    },
    /// The translations of a PCID that are not global.
    LocalsOf {
        p: u16,
        pcid: u16,
    },
    /// That of a PCID for a page of 2 to the power of `shift` bytes, where it is not global.
    Local {
        shift: u8,
        p: u16,
        pcid: u16,
        number: u64,
    },
    /// Those for a page that are global.
    Global {
        shift: u8,
        p: u16,
        number: u64,
    },
}

/// A number of a kind of key, a PCID and a processor: each has its own where PCIDs are below 4,096.
#[inline(always)]
fn numbered(kind: u16, pcid: u16, p: u16) -> u64
    ensures { result ≡ numbered kind pcid p }
{
    (kind as u64 * 4_096 + pcid as u64) * 65_536 + p as u64
}

impl DropKey {
    /// A number of its kind, its PCID and its processor.
    #[inline(always)]
    fn owner(&self) -> u64
        ensures { result ≡ owner_of self.now }
    {
        match *self {
            DropKey::NotGlobal { p } => numbered(0, 0, p),
            DropKey::Globals { p } => numbered(1, 0, p),
            DropKey::StructuresOf { p, pcid } => numbered(2, pcid, p),
            DropKey::Structure { p, pcid, .. } => numbered(3, pcid, p),
            DropKey::LocalsOf { p, pcid } => numbered(4, pcid, p),
            DropKey::Local { p, pcid, .. } => numbered(5, pcid, p),
            DropKey::Global { p, .. } => numbered(6, 0, p),
        }
    }

    /// The number of its region or page.
    #[inline(always)]
    fn number(&self) -> u64
        ensures { result ≡ number_of self.now }
    {
        match *self {
            DropKey::NotGlobal { .. }
            | DropKey::Globals { .. }
            | DropKey::StructuresOf { .. }
            | DropKey::LocalsOf { .. } => 0,
            DropKey::Structure { prefix, .. } => prefix,
            DropKey::Local { number, .. } | DropKey::Global { number, .. } => number,
        }
    }

    /// A place of its last moment. Keys that follow each other are spread evenly.
    #[inline(always)]
    pub(crate) fn place(&self) -> usize
        ensures { result ≡ place_of self.now }
    {
        let number = self.number().wrapping_mul(0x9e37_79b9_7f4a_7c15);
        let owner = self.owner().wrapping_mul(0xc2b2_ae3d_27d4_eb4f);
        (number.wrapping_add(owner) / 0x1_0000_0000_0000) as usize
    }

    /// Another place of it, among as many others: keys that share one place rarely share both.
    #[inline(always)]
    pub(crate) fn other_place(&self) -> usize
        ensures { result ≡ other_place_of self.now }
    {
        let number = self.number().wrapping_mul(0xff51_afd7_ed55_8ccd);
        let owner = self.owner().wrapping_mul(0xd6e8_feb8_6659_fd93);
        65_536 + (number.wrapping_add(owner) / 0x1_0000_0000_0000) as usize
    }

    /// Its processor.
    #[inline(always)]
    pub(crate) fn processor(&self) -> u16
        ensures { result ≡ processor_in self.now }
    {
        match *self {
            DropKey::NotGlobal { p }
            | DropKey::Globals { p }
            | DropKey::StructuresOf { p, .. }
            | DropKey::Structure { p, .. }
            | DropKey::LocalsOf { p, .. }
            | DropKey::Local { p, .. }
            | DropKey::Global { p, .. } => p,
        }
    }
}

/// By one number for all of its fields: a derived hash takes one step for each. Keys of one number
/// that differ in their shift alone have the same.
impl Hash for DropKey {
    ghost hash_input = { hashed };

    ghost respects_eq = { hashed-alike };

    fn hash<H: Hasher>(&self, state: &mut H) {
        state.write_u128((self.number() as u128) * 0x1_0000_0000_0000_0000 + self.owner() as u128);
    }
}

impl Default for DropKey {
    /// What fills the unused places of an array of keys.
    fn default() -> DropKey {
        DropKey::NotGlobal { p: 0 }
    }
}

/// The events that drop a paging-structure-cache entry of a processor.
pub(crate) fn structure_keys(p: u16, key: StructureKey) -> [DropKey; 3]
    ensures { result ≡ structure_keys p key }
{
    [
        DropKey::NotGlobal { p },
        DropKey::StructuresOf { p, pcid: key.pcid },
        structure_at(p, key),
    ]
}

/// The events that drop a translation of a processor.
pub(crate) fn translation_keys(p: u16, key: TranslationKey) -> ArrayVec<DropKey, 3>
    ensures { result.items ≡ translation_keys p key }
{
    let mut keys = ArrayVec::new();
    if key.global {
        keys.push(DropKey::Globals { p });
        keys.push(global_at(p, key));
    } else {
        keys.push(DropKey::NotGlobal { p });
        keys.push(DropKey::LocalsOf { p, pcid: key.pcid });
        keys.push(local_at(p, key));
    }
    keys
}

/// The key of one paging-structure-cache entry.
pub(crate) fn structure_at(p: u16, key: StructureKey) -> DropKey
    ensures { result ≡ structure_at p key }
{
    DropKey::Structure {
        shift: level_shift(key.level),
        p,
        pcid: key.pcid,
        prefix: key.prefix,
    }
}

/// The key of one translation that is not global.
pub(crate) fn local_at(p: u16, key: TranslationKey) -> DropKey
    ensures { result ≡ local_at p key }
{
    DropKey::Local {
        shift: key.shift,
        p,
        pcid: key.pcid,
        number: key.number,
    }
}

/// The key of one global translation.
pub(crate) fn global_at(p: u16, key: TranslationKey) -> DropKey
    ensures { result ≡ global_at p key }
{
    DropKey::Global {
        shift: key.shift,
        p,
        number: key.number,
    }
}
