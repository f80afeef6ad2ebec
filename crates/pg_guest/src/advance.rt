use pg_entry::Level;
use pg_world::Receipt;

/// Why a turn was stopped.
#[derive(Clone, Copy, PartialEq, Eq)]
pub enum Stop {
    /// Memory was refused.
    Memory,
    /// An event would be added, and 4,294,967,295 stand.
    Full,
    /// The record is finished.
    Finished,
}

/// What a turn of a processor came to.
#[derive(Clone, Copy, PartialEq, Eq)]
pub enum Advance {
    /// This level was read, and what its entry refers to or maps was kept.
    Read(Level),
    /// An entry's accessed or dirty flag was set, and the assist recorded. The level is to be read
    /// again (Intel SDM, vol. 3, 4.8).
    Assisted(Receipt),
    /// The instruction was carried out, and its event recorded.
    Done(Receipt),
    /// There is no further instruction.
    Ended,
    /// Nothing was recorded. The walk under way is given up, and the next turn begins the
    /// instruction again.
    Stopped(Stop),
}
