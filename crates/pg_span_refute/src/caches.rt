//! What a processor may have cached for an address, at a time between two of its events.

ghost use Rattle.std.specs.Prelude.{◌≡◌, ℕ, ◌<◌, ◌≤◌, ◌^◌, [], IfOk, OnOk, IsTrue};
ghost use Rattle.pg_event.specs.Form.{processor_of};
ghost use Rattle.pg_event.specs.Values.{controlled};
ghost use Rattle.pg_machine.specs.Machine.{IsIn};
ghost use Rattle.pg_span_refute.specs.Caches.{Extends, Grows, IsTaken, IsFilled, IsLeft, known_of};
ghost use Rattle.pg_span_refute.specs.Caches.{may_stay, word_in};
ghost use Rattle.pg_span_refute.specs.Memory.{MayHold};
ghost use Rattle.pg_span_refute.specs.Words.{AreWordsOf};

use crate::held::{HeldTable, HeldTranslation};
use crate::slot::Slot;
use crate::table::Table;
use crate::words::Words;
use pg_entry::{Cfg, Entry, Kind, Level, Rules, classify, combine, dirty, table_of};
use pg_event::{
    Control, Event, Parent, Version, below, controlled, entry_address, may_cache,
    must_drop_structure, must_drop_translation, processor_of, root_of, structure_key,
    translation_key,
};
use pg_machine::Translation;
use pg_span_run::SpannedRun;
use std::alloc::{AllocError, Global};

/// So many tables are kept.
const MOST_TABLES: usize = 256;

/// What a processor may have.
#[derive(Drop)]
pub(crate) struct Caches {
    pub control: Control,
    pub tables: Vec<HeldTable>,
    pub translations: Vec<HeldTranslation>,
}

fn same_table(a: &Table, b: &Table) -> bool
    ensures { IsTrue result → a.now ≡ b.now }
{
    a == b
}

fn same_translation(a: &Translation, b: &Translation) -> bool
    ensures { IsTrue result → a.now ≡ b.now }
{
    a == b
}

fn has_table(tables: &[HeldTable], table: &Table) -> bool
    ensures { IsTrue result → IsIn table.now tables.now }
{
    for held in tables {
        if same_table(&held.get(), table) {
            return true;
        }
    }
    false
}

fn has_translation(translations: &[HeldTranslation], translation: &Translation) -> bool
    ensures { IsTrue result → IsIn translation.now translations.now }
{
    for held in translations {
        if same_translation(&held.get(), translation) {
            return true;
        }
    }
    false
}

/// Whether an event of the processor need not drop a table. The processor is held to `rules`, and
/// its control registers before the event are `control` (Intel SDM, vol. 3, 4.10.4.1).
fn may_stay(rules: Rules, control: Control, event: &Event, la: u64, table: Table) -> bool
    ensures { result ≡ may_stay rules control event.now la table }
{
    let pcid = table.pcid;
    match table.level {
        Level::Four => false,
        Level::Three => {
            !must_drop_structure(rules, control, event, structure_key(pcid, Level::Four, la))
        }
        Level::Two => {
            !must_drop_structure(rules, control, event, structure_key(pcid, Level::Three, la))
        }
        Level::One => {
            !must_drop_structure(rules, control, event, structure_key(pcid, Level::Two, la))
        }
    }
}

impl Caches {
    /// Nothing is cached at the start.
    pub(crate) fn new(alloc: Global, control: Control) -> Caches
        ensures { known_of result
            ≡ record { control = control; tables = []; translations = [] } }
    {
        Caches {
            control,
            tables: Vec::new(alloc),
            translations: Vec::new(alloc),
        }
    }

    fn add_table(&mut self, table: Table) -> Result<(), AllocError>
        requires { table.from.table < 2 ^ 52 }
        ensures more { OnOk result (Extends (known_of self.old) (known_of self.new)) }
        ensures there { OnOk result (IsIn table self.new.tables.items) }
    {
        if has_table(&self.tables, &table) {
            return Ok(());
        }
        self.tables.push(HeldTable::new(table))?;
        Ok(())
    }

    fn add_translation(&mut self, translation: Translation) -> Result<(), AllocError>
        requires size { translation.key.shift ≤ 30 }
        requires within { translation.frame < 2 ^ 52 }
        ensures more { OnOk result (Extends (known_of self.old) (known_of self.new)) }
        ensures there { OnOk result (IsIn translation self.new.translations.items) }
    {
        if has_translation(&self.translations, &translation) {
            return Ok(());
        }
        self.translations.push(HeldTranslation::new(translation))?;
        Ok(())
    }

    /// What an entry gives that is read in a table, where it may be cached.
    fn take(
        &mut self,
        version: Version,
        cfg: Cfg,
        la: u64,
        table: Table,
        entry: Entry,
    ) -> Result<(), AllocError>
        requires width { (36 ≤ cfg.m) × (cfg.m ≤ 52) }
        ensures more { OnOk result (Extends (known_of self.old) (known_of self.new)) }
        ensures taken { OnOk result (IsTaken version cfg la (known_of self.new) table entry.0) }
    {
        if !may_cache(version, entry) {
            return Ok(());
        }
        match classify(cfg, table.level, entry) {
            Kind::Table { .. } => self.add_table(Table {
                level: below(table.level),
                pcid: table.pcid,
                from: Parent {
                    table: table_of(cfg.m, entry),
                    rights: combine(table.from.rights, entry),
                },
            }),
            Kind::Leaf {
                frame,
                shift,
                global_bit,
            } => {
                let control = self.control;
                self.add_translation(Translation {
                    key: translation_key(control.pcid, shift, global_bit && control.pge, la),
                    frame,
                    rights: combine(table.from.rights, entry),
                    dirty: dirty(entry),
                })
            }
            Kind::Absent | Kind::Reserved => Ok(()),
        }
    }

    /// What each of the entries gives.
    fn take_all(
        &mut self,
        version: Version,
        cfg: Cfg,
        la: u64,
        table: Table,
        entries: &[u64],
    ) -> Result<(), AllocError>
        requires width { (36 ≤ cfg.m) × (cfg.m ≤ 52) }
        ensures more { OnOk result (Extends (known_of self.old) (known_of self.new)) }
        ensures taken { OnOk result ((entry : ℕ) → IsIn entry entries.now →
            IsTaken version cfg la (known_of self.new) table entry) }
    {
        for entry in entries {
            self.take(version, cfg, la, table, Entry(*entry))?;
        }
        Ok(())
    }

    /// What each entry gives that a table may have in a slot. Says no where too much was looked at.
    fn take_from(
        &mut self,
        run: &SpannedRun,
        words: &mut Words,
        slot: Slot<'_>,
        la: u64,
        table: Table,
    ) -> Result<bool, AllocError>
        requires within { table.from.table < 2 ^ 52 }
        requires words { AreWordsOf run.now.events words.old.words.items }
        ensures words { OnOk result (AreWordsOf run.now.events words.new.words.items) }
        ensures more { OnOk result (Extends (known_of self.old) (known_of self.new)) }
        ensures taken { IfOk result (λ whole. IsTrue whole → (entry : ℕ) →
            MayHold run.now slot.entry (word_in la table) entry →
            IsTaken run.now.head.version run.now.head.cfg la (known_of self.new) table entry) }
    {
        let address = entry_address(table.from.table, table.level, la);
        if !words.look(run, slot, address)? {
            return Ok(false);
        }
        let header = run.header();
        self.take_all(
            header.version,
            header.cfg,
            la,
            table,
            words.values.as_slice(),
        )?;
        Ok(true)
    }

    /// All that walks may cache in a slot. Says no where too much was looked at.
    pub(crate) fn fill(
        &mut self,
        run: &SpannedRun,
        words: &mut Words,
        slot: Slot<'_>,
        la: u64,
    ) -> Result<bool, AllocError>
        requires root { self.old.control.root < 2 ^ 52 }
        requires words { AreWordsOf run.now.events words.old.words.items }
        ensures words { OnOk result (AreWordsOf run.now.events words.new.words.items) }
        ensures grows { IfOk result (λ whole. IsTrue whole →
            Grows (known_of self.old) (known_of self.new)) }
        ensures filled { IfOk result (λ whole. IsTrue whole →
            IsFilled run.now slot.entry la (known_of self.new)) }
    {
        let pcid = self.control.pcid;
        self.add_table(Table {
            level: Level::Four,
            pcid,
            from: root_of(self.control),
        })?;
        for place in 0..MOST_TABLES {
            if place >= self.tables.len() {
                return Ok(true);
            }
            let table = self.tables[place].get();
            if table.pcid == pcid && !self.take_from(run, words, slot, la, table)? {
                return Ok(false);
            }
        }
        Ok(false)
    }

    /// What an event of the processor leaves.
    pub(crate) fn pass(&mut self, cfg: Cfg, la: u64, event: &Event)
        requires width { (36 ≤ cfg.m) × (cfg.m ≤ 52) }
        ensures left { IsLeft cfg.rules la event.now (known_of self.old) (known_of self.new) }
        ensures control { self.new.control
            ≡ controlled cfg.m (processor_of event.now) self.old.control event.now }
    {
        let control = self.control;
        self.tables
            .retain(|held| may_stay(cfg.rules, control, event, la, held.get()));
        self.translations.retain(|held| !must_drop_translation(
            cfg.rules,
            control,
            event,
            held.get().key,
        ));
        self.control = controlled(cfg.m, processor_of(event), control, event);
    }
}
