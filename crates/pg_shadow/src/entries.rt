use pg_entry::{Level, Rights};
use pg_event::Moments;

/// What a paging-structure-cache entry keeps (Intel SDM, vol. 3, 4.10.3).
#[derive(Clone, Copy)]
pub struct KeptTable {
    /// The physical address of the table that the paging entry refers to.
    pub table: u64,
    /// The rights of the walk down to it.
    pub rights: Rights,
    /// When each level was read, level 4 first.
    pub moments: Moments,
}

/// What a translation keeps (Intel SDM, vol. 3, 4.10.2).
#[derive(Clone, Copy)]
pub struct KeptLeaf {
    /// The physical address of the page.
    pub frame: u64,
    /// The rights of the walk down to it.
    pub rights: Rights,
    /// D of the leaf as it was read (4.8).
    pub dirty: bool,
    /// When each level was read, level 4 first.
    pub moments: Moments,
}

/// What a look-up finds for a linear address.
#[derive(Clone, Copy, PartialEq, Eq)]
pub enum Found {
    /// A translation.
    Hit {
        /// The physical address of the page.
        frame: u64,
        /// The binary logarithm of the size of the page: 12, 21 or 30.
        shift: u8,
        rights: Rights,
        /// Whether it may be used under any PCID.
        global: bool,
        moments: Moments,
    },
    /// No translation, and this table as the deepest that a walk may go on from.
    Partial {
        /// The level of the paging entry that refers to the table: 4, 3 or 2.
        level: Level,
        /// The physical address of the table.
        table: u64,
        rights: Rights,
        moments: Moments,
    },
    /// Nothing: a walk begins at the root.
    Miss,
}
