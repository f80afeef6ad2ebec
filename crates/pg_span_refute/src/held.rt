//! What a processor may have cached, within the bounds of addresses.

ghost use Rattle.std.specs.Prelude.{◌≡◌, ◌<◌, ◌≤◌, ◌^◌};

use crate::table::Table;
use pg_machine::Translation;
use std::marker::Model;

/// A table at a physical address.
#[derive(Drop)]
pub(crate) struct HeldTable(Table);

impl Model for HeldTable {
    ghost use Rattle.std.specs.Prelude.{◌<◌, ◌^◌};
    ghost use Rattle.pg_span_refute.specs.declared.table.Table.{Table};

    ghost Value = { Table };

    ghost view = { λ h. h.0 };

    ghost invariant = { λ h. h.0.from.table < 2 ^ 52 };
}

impl HeldTable {
    pub(crate) fn new(table: Table) -> HeldTable
        requires { table.from.table < 2 ^ 52 }
        ensures { result ≡ table }
    {
        HeldTable(table)
    }

    pub(crate) fn get(&self) -> Table
        ensures value { result ≡ self.now }
        ensures within { result.from.table < 2 ^ 52 }
    {
        self.0
    }
}

/// A translation whose page is at a physical address, and of at most 1 GByte.
#[derive(Drop)]
pub(crate) struct HeldTranslation(Translation);

impl Model for HeldTranslation {
    ghost use Rattle.std.specs.Prelude.{◌<◌, ◌≤◌, ◌^◌};
    ghost use Rattle.pg_machine.specs.declared.step.Translation.{Translation};

    ghost Value = { Translation };

    ghost view = { λ h. h.0 };

    ghost invariant = { λ h. (h.0.key.shift ≤ 30) × (h.0.frame < 2 ^ 52) };
}

impl HeldTranslation {
    pub(crate) fn new(translation: Translation) -> HeldTranslation
        requires size { translation.key.shift ≤ 30 }
        requires within { translation.frame < 2 ^ 52 }
        ensures { result ≡ translation }
    {
        HeldTranslation(translation)
    }

    pub(crate) fn get(&self) -> Translation
        ensures value { result ≡ self.now }
        ensures size { result.key.shift ≤ 30 }
        ensures within { result.frame < 2 ^ 52 }
    {
        self.0
    }
}
