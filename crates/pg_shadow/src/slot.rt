ghost use Rattle.std.specs.Prelude.{◌≡◌};
ghost use Rattle.pg_shadow.specs.Slots.{bare, with_kept};

use crate::entries::{KeptLeaf, KeptTable};

/// What stands at a level for one number: a paging-structure-cache entry and a translation by a
/// large page may stand there both.
#[derive(Clone, Copy)]
pub(crate) struct Slot {
    pub structure: Option<KeptTable>,
    pub translation: Option<KeptLeaf>,
}

/// The entry that a slot is to keep, or none.
#[derive(Clone, Copy)]
pub(crate) enum KeptEntry {
    Table(KeptTable),
    Leaf(KeptLeaf),
    /// Nothing: the slot is emptied.
    Neither,
}

/// The slots that a walk for one linear address meets.
#[derive(Clone, Copy)]
pub(crate) struct Path {
    pub four: Slot,
    pub three: Slot,
    pub two: Slot,
    pub one: Slot,
}

impl Path {
    pub const EMPTY: Path = Path {
        four: Slot::EMPTY,
        three: Slot::EMPTY,
        two: Slot::EMPTY,
        one: Slot::EMPTY,
    };
}

impl Slot {
    pub const EMPTY: Slot = Slot {
        structure: None,
        translation: None,
    };

    /// Keeps an entry, in place of what there was of its sort; or empties the slot.
    pub(crate) fn keep(&mut self, kept: &KeptEntry)
        ensures { self.new ≡ with_kept kept.now self.old }
    {
        match *kept {
            KeptEntry::Table(table) => self.structure = Some(table),
            KeptEntry::Leaf(leaf) => self.translation = Some(leaf),
            KeptEntry::Neither => *self = Slot::EMPTY,
        }
    }

    /// Gives up the table.
    pub(crate) fn bare(&mut self)
        ensures { self.new ≡ bare self.old }
    {
        self.structure = None;
    }
}
