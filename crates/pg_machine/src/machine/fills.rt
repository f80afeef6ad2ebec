//! What processors keep of the entries that they read.

ghost use Rattle.std.specs.Prelude.{◌≡◌, ◌<◌, ◌≤◌, ◌^◌, length, IfOk, IfErr, OnOk, OnErr};
ghost use Rattle.std.specs.Prelude.{MatchResult, IfSome, IfNone, is_some, None, Some};
ghost use Rattle.std.specs.Prelude.{true, false};
ghost use Rattle.pg_entry.specs.Kinds.{kind_of};
ghost use Rattle.pg_entry.specs.Permission.{joined};
ghost use Rattle.pg_event.specs.Wants.{is_table, is_leaf};
ghost use Rattle.pg_machine.specs.Listed.{processor_at};
ghost use Rattle.pg_machine.specs.Machine.{translation_at};
ghost use Rattle.pg_machine.specs.Stepping.{entry_of, filled, unusable, stuck_table, stuck_leaf};
ghost use Rattle.pg_machine.specs.Stepping.{next_table, next_leaf, with_processor};
ghost use Rattle.pg_machine.specs.Stepping.{with_structure_first, with_translation_first};
ghost use Rattle.pg_machine.specs.Stepping.{IsStuckBy};

use super::Machine;
use crate::step::{Structure, Translation};
use crate::stuck::Stuck;
use pg_entry::{Cfg, Entry, Kind, Level, Rights, classify, combine, dirty, table_of};
use pg_event::{
    Control, Parent, entry_address, is_canonical, may_cache, structure_key, translation_key,
};
use std::alloc::AllocError;

impl Machine {
    /// The entry that a fill reads, where the walk may read it and may keep what it says.
    fn usable(&self, p: u16, la: u64, level: Level, from: Parent) -> Result<Entry, Stuck>
        ensures usable { MatchResult result (λ _. unusable self.now p la level from ≡ None)
            (λ e. unusable self.now p la level from ≡ Some e) }
        ensures entry { IfOk result (λ entry. entry.0 ≡ entry_of self.now la level from) }
        ensures processor { OnOk result (p < length self.now.processors) }
    {
        if p as usize >= self.processors.len() || !is_canonical(la) {
            return Err(Stuck::Processor);
        }
        if !self.processor(p).may_read(la, level, from) {
            return Err(Stuck::Source);
        }
        let entry = self.memory.entry(entry_address(from.table, level, la));
        if !may_cache(self.header.version, entry) {
            return Err(Stuck::Kind);
        }
        Ok(entry)
    }

    pub(super) fn fill_table(
        &mut self,
        p: u16,
        la: u64,
        level: Level,
        from: Parent,
    ) -> Result<(), Stuck>
        ensures ok { OnOk result ((stuck_table self.old p la level from ≡ None)
            × (self.new ≡ next_table self.old p la level from)) }
        ensures err { IfErr result (λ e. IsStuckBy true (stuck_table self.old p la level from) e
            × (self.new ≡ self.old)) }
    {
        let entry = match self.usable(p, la, level, from) {
            Ok(entry) => entry,
            Err(stuck) => return Err(stuck),
        };
        let pcid = self.processor(p).control().pcid;
        let Some(structure) = structure_of(self.cfg(), pcid, la, level, from.rights, entry) else {
            return Err(Stuck::Kind);
        };
        self.add_structure(p, structure).map_err(|_| Stuck::Memory)
    }

    pub(super) fn fill_leaf(
        &mut self,
        p: u16,
        la: u64,
        level: Level,
        from: Parent,
    ) -> Result<(), Stuck>
        ensures ok { OnOk result ((stuck_leaf self.old p la level from ≡ None)
            × (self.new ≡ next_leaf self.old p la level from)) }
        ensures err { IfErr result (λ e. IsStuckBy true (stuck_leaf self.old p la level from) e
            × (self.new ≡ self.old)) }
    {
        let entry = match self.usable(p, la, level, from) {
            Ok(entry) => entry,
            Err(stuck) => return Err(stuck),
        };
        let control = self.processor(p).control();
        let Some(translation) = translation_of(self.cfg(), control, la, level, from.rights, entry)
        else {
            return Err(Stuck::Kind);
        };
        self.add_translation(p, translation)
            .map_err(|_| Stuck::Memory)
    }

    #[tactic(auto, using(crate::proofs::Processors::processor_at_read))]
    fn add_structure(&mut self, p: u16, structure: Structure) -> Result<(), AllocError>
        requires there { p < length self.old.processors }
        requires within { structure.table < 2 ^ 52 }
        ensures ok { OnOk result (self.new ≡ with_processor self.old p
            (with_structure_first (processor_at self.old.processors p) structure)) }
        ensures err { OnErr result (self.new ≡ self.old) }
    {
        self.processors[p as usize].add_structure(structure)
    }

    #[tactic(auto, using(crate::proofs::Processors::processor_at_read))]
    fn add_translation(&mut self, p: u16, translation: Translation) -> Result<(), AllocError>
        requires there { p < length self.old.processors }
        requires size { translation.key.shift ≤ 30 }
        requires within { translation.frame < 2 ^ 52 }
        ensures ok { OnOk result (self.new ≡ with_processor self.old p
            (with_translation_first (processor_at self.old.processors p) (Some translation))) }
        ensures err { OnErr result (self.new ≡ self.old) }
    {
        self.processors[p as usize].add_translation(translation)
    }
}

/// The paging-structure-cache entry that an entry gives, where it refers to a table.
fn structure_of(
    cfg: Cfg,
    pcid: u16,
    la: u64,
    level: Level,
    rights: Rights,
    entry: Entry,
) -> Option<Structure>
    requires width { (36 ≤ cfg.m) × (cfg.m ≤ 52) }
    ensures none { IfNone result (is_table (kind_of cfg level entry.0) ≡ false) }
    ensures some { IfSome result (λ x. (is_table (kind_of cfg level entry.0) ≡ true)
        × (x ≡ filled cfg.m pcid la level rights entry.0)) }
    ensures within { IfSome result (λ x. x.table < 2 ^ 52) }
{
    match classify(cfg, level, entry) {
        Kind::Table { .. } => Some(Structure {
            key: structure_key(pcid, level, la),
            table: table_of(cfg.m, entry),
            rights: combine(rights, entry),
        }),
        Kind::Leaf { .. } | Kind::Absent | Kind::Reserved => None,
    }
}

/// The translation that an entry gives, where it refers to a page.
fn translation_of(
    cfg: Cfg,
    control: Control,
    la: u64,
    level: Level,
    rights: Rights,
    entry: Entry,
) -> Option<Translation>
    requires width { (36 ≤ cfg.m) × (cfg.m ≤ 52) }
    ensures value { result
        ≡ translation_at control la (joined rights entry.0) entry.0 (kind_of cfg level entry.0) }
    ensures wanted { is_some result ≡ is_leaf (kind_of cfg level entry.0) }
    ensures within { IfSome result (λ x. (x.key.shift ≤ 30) × (x.frame < 2 ^ 52)) }
{
    match classify(cfg, level, entry) {
        Kind::Leaf {
            frame,
            shift,
            global_bit,
        } => Some(Translation {
            key: translation_key(control.pcid, shift, global_bit && control.pge, la),
            frame,
            rights: combine(rights, entry),
            dirty: dirty(entry),
        }),
        Kind::Table { .. } | Kind::Absent | Kind::Reserved => None,
    }
}
