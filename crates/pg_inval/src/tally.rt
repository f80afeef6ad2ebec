//! Numbers of entries of the log, for each kind of list.

/// How many entries of the log something has, for each kind of list that look-ups ask. No clause
/// speaks of them: they tell when lists are worth making.
#[derive(Clone, Copy)]
pub struct Tally {
    /// For translations of 4-KiB pages that are not global.
    pub pages: u64,
    /// For paging-structure-cache entries.
    pub regions: u64,
    /// For translations of large and of global pages.
    pub wide: u64,
}

impl Tally {
    /// None.
    pub const NONE: Tally = Tally {
        pages: 0,
        regions: 0,
        wide: 0,
    };

    /// The sum of two; the greatest number stays.
    pub fn plus(self, other: Tally) -> Tally {
        Tally {
            pages: self.pages.saturating_add(other.pages),
            regions: self.regions.saturating_add(other.regions),
            wide: self.wide.saturating_add(other.wide),
        }
    }
}
