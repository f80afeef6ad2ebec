use pg_entry::{Level, Rights};
use pg_event::{Event, Parent, StructureKey, TranslationKey};

/// An entry of a paging-structure cache (Intel SDM, vol. 3, 4.10.3).
#[derive(Clone, Copy, PartialEq, Eq, Debug)]
pub struct Structure {
    /// PCID, level and bits of the linear address.
    pub key: StructureKey,
    /// The physical address of the table that the kept paging entry refers to.
    pub table: u64,
    /// The combined rights of the entries down to it.
    pub rights: Rights,
}

/// An entry of the TLB (Intel SDM, vol. 3, 4.10.2).
#[derive(Clone, Copy, PartialEq, Eq, Debug)]
pub struct Translation {
    /// PCID, page size, page number, and whether it is global.
    pub key: TranslationKey,
    /// The physical address of the page.
    pub frame: u64,
    /// The combined rights of the entries used.
    pub rights: Rights,
    /// Whether the page's entry had D, bit 6, when it was read (4.8).
    pub dirty: bool,
}

/// What a cache holds.
#[derive(Clone, Copy, PartialEq, Eq)]
pub enum Member {
    /// Of a paging-structure cache.
    Structure(Structure),
    /// Of the TLB.
    Translation(Translation),
}

/// A step of a run.
#[derive(Clone, Copy, PartialEq, Eq)]
pub enum Step {
    /// Fills the PML4 cache for a linear address, from the processor's root.
    Fill4 {
        p: u16,
        la: u64,
    },
    /// Fills the PDPTE cache, from a PML4 cache entry with this table and these rights.
    Fill3 {
        p: u16,
        la: u64,
        from: Parent,
    },
    /// Fills the PDE cache, from a PDPTE cache entry.
    Fill2 {
        p: u16,
        la: u64,
        from: Parent,
    },
    /// Fills the TLB from the page that a level gives, under a structure entry of the level above.
    FillLeaf {
        p: u16,
        la: u64,
        level: Level,
        from: Parent,
    },
    /// The processor forgets one entry.
    Drop {
        p: u16,
        member: Member,
    },
    /// An event of the run.
    Do(Event),
}
