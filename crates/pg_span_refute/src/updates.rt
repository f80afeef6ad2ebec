//! Whether an assist may update an entry of a table that is known.

ghost use Rattle.std.specs.Prelude.{◌≡◌, ℕ, ◌<◌, ◌≤◌, ◌^◌, true, IfOk, OnOk, IsTrue};
ghost use Rattle.pg_machine.specs.Machine.{IsIn};
ghost use Rattle.pg_span_refute.specs.Caches.{HasNoUpdate, known_of, may_update_entry, word_in};
ghost use Rattle.pg_span_refute.specs.Memory.{MayHold};
ghost use Rattle.pg_span_refute.specs.Words.{AreWordsOf};

use crate::caches::Caches;
use crate::slot::Slot;
use crate::table::Table;
use crate::words::Words;
use pg_entry::{AccessKind, Cfg, Entry, classify, combine};
use pg_event::{Header, Want, entry_address, is_wanted, may_dirty};
use pg_span_run::SpannedRun;
use std::alloc::AllocError;

/// The assist that an event is: it serves an access, and updates a word.
#[derive(Clone, Copy)]
pub(crate) struct Update {
    pub kind: AccessKind,
    pub word: u64,
    /// Whether it sets D beside A.
    pub dirty: bool,
}

/// Whether an assist may update an entry that a walk reads in a table (Intel SDM, vol. 3, 4.8).
fn may_update_entry(cfg: Cfg, update: Update, table: Table, entry: Entry) -> bool
    requires width { (36 ≤ cfg.m) × (cfg.m ≤ 52) }
    ensures { result ≡ may_update_entry cfg update.kind update.dirty table entry.0 }
{
    let kind = classify(cfg, table.level, entry);
    let rights = combine(table.from.rights, entry);
    is_wanted(Want::Present, kind) && (!update.dirty || may_dirty(cfg, update.kind, rights, kind))
}

/// Whether an assist may update none of these entries, which may stand in a table.
fn none_updates(header: &Header, table: Table, entries: &[u64], update: Update) -> bool
    requires width { (36 ≤ header.now.cfg.m) × (header.now.cfg.m ≤ 52) }
    ensures { IsTrue result → (entry : ℕ) → IsIn entry entries.now →
        may_update_entry header.now.cfg update.kind update.dirty table entry ≡ true → ⊥ }
{
    for entry in entries {
        if may_update_entry(header.cfg, update, table, Entry(*entry)) {
            return false;
        }
    }
    true
}

/// Whether an assist may update no entry that a table may have in a slot.
fn table_updates_not(
    run: &SpannedRun,
    words: &mut Words,
    slot: Slot<'_>,
    la: u64,
    table: Table,
    update: Update,
) -> Result<bool, AllocError>
    requires within { table.from.table < 2 ^ 52 }
    requires words { AreWordsOf run.now.events words.old.words.items }
    ensures words { OnOk result (AreWordsOf run.now.events words.new.words.items) }
    ensures none { IfOk result (λ none. IsTrue none → (entry : ℕ) → update.word ≡ word_in la table →
        MayHold run.now slot.entry (word_in la table) entry →
        may_update_entry run.now.head.cfg update.kind update.dirty table entry ≡ true → ⊥) }
{
    let address = entry_address(table.from.table, table.level, la);
    if address != update.word {
        return Ok(true);
    }
    if !words.look(run, slot, address)? {
        return Ok(false);
    }
    Ok(none_updates(run.header(), table, words.values.as_slice(), update))
}

/// Whether no table that is known has a word that an assist may update.
pub(crate) fn has_no_update(
    run: &SpannedRun,
    words: &mut Words,
    caches: &Caches,
    slot: Slot<'_>,
    la: u64,
    update: Update,
) -> Result<bool, AllocError>
    requires words { AreWordsOf run.now.events words.old.words.items }
    ensures words { OnOk result (AreWordsOf run.now.events words.new.words.items) }
    ensures none { IfOk result (λ none. IsTrue none → HasNoUpdate run.now slot.entry la
        (known_of caches.now) update.kind update.word update.dirty) }
{
    for held in &caches.tables {
        let table = held.get();
        if table.pcid == caches.control.pcid
            && !table_updates_not(run, words, slot, la, table, update)?
        {
            return Ok(false);
        }
    }
    Ok(true)
}
