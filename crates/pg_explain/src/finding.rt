ghost use Rattle.std.specs.Prelude.{◌≡◌};
ghost use Rattle.pg_explain.specs.Findings.{reason_of, dropper};

use pg_entry::{AccessKind, Kind, Level, Rights};
use pg_event::{Reason, Want};

/// A moment of a processor, with the PCID that it has there.
#[derive(Clone, Copy)]
pub struct Tagged {
    pub moment: u32,
    pub pcid: u16,
}

/// What a moment must not be above.
#[derive(Clone, Copy)]
pub enum Limit {
    /// The moment of the next level.
    Moment(u32),
    /// The number of the event, for the last moment.
    Event(u32),
}

/// What an entry of a walk must be.
#[derive(Clone, Copy)]
pub enum Wish {
    /// A table, above the last.
    Table,
    /// What the event wants of the entry that it reads last.
    Last(Want),
}

/// What of an assist does not fit the entry that is read last.
#[derive(Clone, Copy)]
pub enum Misfit {
    /// It is read at this moment, and not at the assist itself.
    Moment(u32),
    /// It is at this physical address, and not at the one that the assist names.
    Word(u64),
    /// D is to be set, and it maps no page.
    Kind(Kind),
    /// D is to be set, and these rights of the walk do not allow the access.
    Rights(Rights),
}

/// What keeps supervisor mode from pages of user mode, as CR4 sets it (Intel SDM, vol. 3, 4.6).
#[derive(Clone, Copy)]
pub enum Prevention {
    /// SMAP: no data is read or written, unless EFLAGS.AC is set.
    Smap,
    /// SMEP: nothing is fetched.
    Smep,
}

/// What the test found that fails for an event's least reason.
#[derive(Clone, Copy)]
pub enum Finding {
    /// The first moment that is above the next one, or above the event.
    Order {
        /// The level that is read at this moment.
        level: Level,
        moment: u32,
        limit: Limit,
    },
    /// The first entry that is not what it must be.
    Entry {
        level: Level,
        wish: Wish,
        found: Kind,
    },
    /// The first moment, and the first one with another PCID.
    Context {
        first: Tagged,
        other: Tagged,
    },
    /// The first event by which the paging-structure-cache entry of this level had to go, before
    /// the next level was read.
    StructureDropped {
        level: Level,
        at: u32,
    },
    /// The first event by which the translation had to go that the leaf of this level gave.
    TranslationDropped {
        level: Level,
        at: u32,
    },
    /// The translation was made under one PCID, and is used under another.
    ForeignPcid {
        read: Tagged,
        current: Tagged,
    },
    /// An entry that faults was read before the event.
    NotAtEvent {
        moment: u32,
        /// The physical address of the entry.
        address: u64,
        /// What it holds at the event.
        value: u64,
        /// What it is there.
        kind: Kind,
    },
    /// The rights of the walk, whether they allow the access or not, say otherwise.
    Rights {
        rights: Rights,
        access: AccessKind,
        is_allowed: bool,
        /// What alone denies the access, if one of these does.
        prevention: Option<Prevention>,
    },
    /// The answer would have to be this physical address.
    Answer {
        expected: u64,
    },
    /// The error code would have to be this.
    Code {
        expected: u16,
    },
    /// The first entry that is used with A = 0.
    Accessed {
        level: Level,
        address: u64,
        value: u64,
    },
    /// The leaf of a write that was done, with D = 0.
    Dirty {
        address: u64,
        value: u64,
    },
    /// What of the assist does not fit.
    Assist(Misfit),
}

impl Finding {
    /// The reason that it is of.
    pub fn reason(self) -> Reason
        ensures { result ≡ reason_of self }
    {
        match self {
            Finding::Order { .. } => Reason::Order,
            Finding::Entry { .. } => Reason::Entry,
            Finding::Context { .. } => Reason::Context,
            Finding::StructureDropped { .. } => Reason::StructureDropped,
            Finding::TranslationDropped { .. } => Reason::TranslationDropped,
            Finding::ForeignPcid { .. } => Reason::ForeignPcid,
            Finding::NotAtEvent { .. } => Reason::NotAtEvent,
            Finding::Rights { .. } => Reason::Rights,
            Finding::Answer { .. } => Reason::Answer,
            Finding::Code { .. } => Reason::Code,
            Finding::Accessed { .. } => Reason::Accessed,
            Finding::Dirty { .. } => Reason::Dirty,
            Finding::Assist(_) => Reason::Assist,
        }
    }

    /// The event by which a cached entry had to go, by its number, where one had to.
    pub fn dropper(self) -> Option<u32>
        ensures { result ≡ dropper self }
    {
        match self {
            Finding::StructureDropped { at, .. } | Finding::TranslationDropped { at, .. } => {
                Some(at)
            }
            Finding::Order { .. }
            | Finding::Entry { .. }
            | Finding::Context { .. }
            | Finding::ForeignPcid { .. }
            | Finding::NotAtEvent { .. }
            | Finding::Rights { .. }
            | Finding::Answer { .. }
            | Finding::Code { .. }
            | Finding::Accessed { .. }
            | Finding::Dirty { .. }
            | Finding::Assist(_) => None,
        }
    }
}
