ghost use Rattle.std.specs.Prelude.{◌≡◌, ℕ, ◌==◌, if◌then◌else◌, OnOk, OnErr};
ghost use Rattle.pg_event.specs.Values.{written};
ghost use Rattle.pg_world.specs.Memory.{word_in};

use pg_entry::{Entry, marked};
use pg_event::{Event, MemoryChange};
use std::alloc::{AllocError, Global};
use std::collections::HashMap;
use std::marker::Model;

/// Table memory: the present word at each physical byte address, 0 where none was put.
#[derive(Debug, Drop)]
pub(crate) struct Memory {
    words: HashMap<u64, u64>,
}

impl Model for Memory {
    ghost use Rattle.std.specs.Prelude.{ℕ, List};

    ghost Value = { List (ℕ × ℕ) };

    ghost view = { λ a. a.words.entries };
}

impl Memory {
    /// Memory at the start of a run: all zero.
    pub(crate) fn new(alloc: Global) -> Memory
        ensures { (a : ℕ) → word_in result a ≡ 0 }
    {
        Memory {
            words: HashMap::new(alloc),
        }
    }

    /// The word at an address.
    pub(crate) fn word(&self, addr: u64) -> u64
        ensures { result ≡ word_in self.now addr }
    {
        self.words.get(&addr).copied().unwrap_or(0)
    }

    /// Carries out what an event does to memory. Fails where memory for a new word is refused, and
    /// then nothing is done.
    pub(crate) fn take(&mut self, event: &Event) -> Result<(), AllocError>
        ensures ok { OnOk result
            ((a : ℕ) → word_in self.new a ≡ written a (word_in self.old a) event.now) }
        ensures err { OnErr result (self.new ≡ self.old) }
    {
        match event.memory_change() {
            MemoryChange::Nothing => Ok(()),
            MemoryChange::Value { addr, value } => self.put(addr, value),
            MemoryChange::Flags { addr, dirty } => {
                let entry = marked(Entry(self.word(addr)), dirty);
                self.put(addr, entry.0)
            }
        }
    }

    fn put(&mut self, addr: u64, value: u64) -> Result<(), AllocError>
        ensures ok { OnOk result ((a : ℕ) → word_in self.new a
            ≡ (if addr == a then value else word_in self.old a)) }
        ensures err { OnErr result (self.new ≡ self.old) }
    {
        self.words.insert(addr, value)?;
        Ok(())
    }
}
