ghost use Rattle.std.specs.Prelude.{◌≡◌, ◌<◌, ◌≤◌, ◌^◌};

use crate::step::{Structure, Translation};
use std::marker::Model;

/// An entry of a paging-structure cache: its table is at a physical address.
#[derive(Debug, Drop)]
pub(crate) struct CachedStructure(Structure);

impl Model for CachedStructure {
    ghost use Rattle.std.specs.Prelude.{◌<◌, ◌^◌};
    ghost use Rattle.pg_machine.specs.declared.step.Structure.{Structure};

    ghost Value = { Structure };

    ghost view = { λ c. c.0 };

    ghost invariant = { λ c. c.0.table < 2 ^ 52 };
}

impl CachedStructure {
    pub(crate) fn new(structure: Structure) -> CachedStructure
        requires { structure.table < 2 ^ 52 }
        ensures { result ≡ structure }
    {
        CachedStructure(structure)
    }

    pub(crate) fn get(&self) -> Structure
        ensures value { result ≡ self.now }
        ensures within { result.table < 2 ^ 52 }
    {
        self.0
    }
}

/// An entry of the TLB: its page is at a physical address, and of at most 1 GByte.
#[derive(Debug, Drop)]
pub(crate) struct CachedTranslation(Translation);

impl Model for CachedTranslation {
    ghost use Rattle.std.specs.Prelude.{◌<◌, ◌≤◌, ◌^◌};
    ghost use Rattle.pg_machine.specs.declared.step.Translation.{Translation};

    ghost Value = { Translation };

    ghost view = { λ c. c.0 };

    ghost invariant = { λ c. (c.0.key.shift ≤ 30) × (c.0.frame < 2 ^ 52) };
}

impl CachedTranslation {
    pub(crate) fn new(translation: Translation) -> CachedTranslation
        requires size { translation.key.shift ≤ 30 }
        requires within { translation.frame < 2 ^ 52 }
        ensures { result ≡ translation }
    {
        CachedTranslation(translation)
    }

    pub(crate) fn get(&self) -> Translation
        ensures value { result ≡ self.now }
        ensures size { result.key.shift ≤ 30 }
        ensures within { result.frame < 2 ^ 52 }
    {
        self.0
    }
}
