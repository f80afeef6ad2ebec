ghost use Rattle.std.specs.Prelude.{◌≡◌, ℕ};
ghost use Rattle.pg_event.specs.Values.{written};
ghost use Rattle.pg_event.specs.Meaning.{change_of, changed, request_of};

use crate::event::{Event, Outcome};
use crate::header::says_dirty;
use crate::moments::Moments;
use crate::walk::access_kind;
use pg_entry::AccessKind;

/// What an event does to table memory.
#[derive(Clone, Copy, PartialEq, Eq, Debug)]
pub enum MemoryChange {
    /// Nothing.
    Nothing,
    /// The word at a physical byte address gets a value.
    Value { addr: u64, value: u64 },
    /// The word at a physical byte address gets A, and where the change is dirty D too, and keeps
    /// its other bits (Intel SDM, vol. 3, 4.8).
    Flags { addr: u64, dirty: bool },
}

/// What an event asks of a walk on its processor, by moments, for a linear byte address.
#[derive(Clone, Copy)]
pub enum Request {
    /// Nothing.
    Nothing,
    /// An access that comes to an outcome.
    Access {
        kind: AccessKind,
        la: u64,
        outcome: Outcome,
        moments: Moments,
    },
    /// An update of accessed and dirty flags that serves an access: the walk ends at the entry at a
    /// physical byte address, and D is set beside A where it is dirty.
    Update {
        kind: AccessKind,
        la: u64,
        word: u64,
        dirty: bool,
        moments: Moments,
    },
}

impl Event {
    /// What the event does to table memory.
    #[inline(always)]
    pub fn memory_change(&self) -> MemoryChange
        ensures value { result ≡ change_of self.now }
        ensures written { (addr value : ℕ) →
            changed addr value result ≡ written addr value self.now }
    {
        match *self {
            Event::Write { addr, value, .. } => MemoryChange::Value { addr, value },
            Event::Assist { flags, word, .. } => MemoryChange::Flags {
                addr: word,
                dirty: says_dirty(flags),
            },
            Event::Access { .. }
            | Event::MovCr3 { .. }
            | Event::Invlpg { .. }
            | Event::Invpcid { .. }
            | Event::MovCr4Pge { .. } => MemoryChange::Nothing,
        }
    }

    /// What the event asks of a walk.
    #[inline(always)]
    pub fn request(&self) -> Request
        ensures { result ≡ request_of self.now }
    {
        match *self {
            Event::Access {
                flags,
                la,
                outcome,
                moments,
                ..
            } => Request::Access {
                kind: access_kind(flags),
                la,
                outcome,
                moments,
            },
            Event::Assist {
                flags,
                la,
                word,
                moments,
                ..
            } => Request::Update {
                kind: access_kind(flags),
                la,
                word,
                dirty: says_dirty(flags),
                moments,
            },
            Event::Write { .. }
            | Event::MovCr3 { .. }
            | Event::Invlpg { .. }
            | Event::Invpcid { .. }
            | Event::MovCr4Pge { .. } => Request::Nothing,
        }
    }
}
