use pg_entry::Level;
use pg_event::Parent;

/// A table that a walk under a PCID may go on in: the root at level 4, or what a
/// paging-structure-cache entry refers to (Intel SDM, vol. 3, 4.10.3).
#[derive(Clone, Copy, PartialEq, Eq)]
pub(crate) struct Table {
    /// The level at which a walk reads in it.
    pub level: Level,
    pub pcid: u16,
    pub from: Parent,
}
