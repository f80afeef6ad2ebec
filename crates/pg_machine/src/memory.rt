ghost use Rattle.std.specs.Prelude.{◌≡◌, [], ◌∷◌, ◌++◌, OnOk, OnErr};
ghost use Rattle.pg_machine.specs.Listed.{value_at};

use pg_entry::Entry;
use std::alloc::{AllocError, Global};
use std::collections::HashMap;
use std::marker::Model;

/// The words that a run has written. All others are 0.
#[derive(Debug, Drop)]
pub(crate) struct Memory {
    /// Each write, oldest first.
    writes: Vec<(u64, u64)>,
    /// What each of these words has now.
    words: HashMap<u64, u64>,
}

impl Model for Memory {
    ghost use Rattle.std.specs.Prelude.{◌≡◌, ℕ, List, nat_eq, unwrap_or};
    ghost use Rattle.std.specs.Map.{lookup};
    ghost use Rattle.pg_machine.specs.Listed.{value_at};

    ghost Value = { List (ℕ × ℕ) };

    ghost view = { λ m. m.writes.items };

    ghost invariant = { λ m. (a : ℕ) →
        unwrap_or (lookup (nat_eq a) m.words.entries) 0 ≡ value_at m.writes.items a };
}

impl Memory {
    pub(crate) fn new(alloc: Global) -> Memory
        ensures { result ≡ [] }
    {
        Memory {
            writes: Vec::new(alloc),
            words: HashMap::new(alloc),
        }
    }

    pub(crate) fn read(&self, address: u64) -> u64
        ensures { result ≡ value_at self.now address }
    {
        self.words.get(&address).copied().unwrap_or(0)
    }

    /// The paging entry at an address.
    pub(crate) fn entry(&self, address: u64) -> Entry
        ensures { result.0 ≡ value_at self.now address }
    {
        Entry(self.read(address))
    }

    pub(crate) fn write(&mut self, address: u64, value: u64) -> Result<(), AllocError>
        ensures ok { OnOk result (self.new ≡ self.old ++ (address, value) ∷ []) }
        ensures err { OnErr result (self.new ≡ self.old) }
    {
        self.writes.reserve(1)?;
        self.words.insert(address, value)?;
        self.writes.push((address, value))?;
        Ok(())
    }
}
