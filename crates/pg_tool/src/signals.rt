//! What the program and the source of its input tell one another, besides the bytes.

use std::cell::Cell;

/// What the program and the source of its input tell one another. No contract knows what these
/// hold.
#[derive(Drop)]
pub struct Signals {
    /// Whether the source tells how far it has come: the program sets it.
    pub tells: Cell<bool>,
    /// Whether the source looks for moments: the program sets it.
    pub judging: Cell<bool>,
    /// Whether the record names no moments, as far as it was pulled: the source sets it, if it
    /// looks for them.
    pub unnamed: Cell<bool>,
    /// The byte at which the reading stopped, if it gave no answer: the source sets it.
    pub byte: Cell<Option<u64>>,
    /// Whether standard error has only the lines for programs: who opens a file may set it.
    pub is_brief: Cell<bool>,
}

impl Signals {
    /// Nothing was told.
    pub fn new(is_brief: bool) -> Signals {
        Signals {
            tells: Cell::new(false),
            judging: Cell::new(false),
            unnamed: Cell::new(false),
            byte: Cell::new(None),
            is_brief: Cell::new(is_brief),
        }
    }
}
