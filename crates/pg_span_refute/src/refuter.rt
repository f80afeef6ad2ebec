//! Whether no order of the events of a run can witness one of them.

ghost use Rattle.std.specs.Prelude.{◌≡◌, ℕ, ◌<◌, ◌≤◌, ◌^◌, ◌↔◌, [], length, IfOk, OnOk, IsTrue};
ghost use Rattle.std.specs.Prelude.{slice_get, Some};
ghost use Rattle.pg_entry.specs.Kinds.{kind_of};
ghost use Rattle.pg_event.specs.Form.{processor_of};
ghost use Rattle.pg_event.specs.Wants.{want_of};
ghost use Rattle.pg_machine.specs.Machine.{IsIn};
ghost use Rattle.pg_span_refute.specs.Caches.{CannotCome, HasNoFault, HasNoAnswer};
ghost use Rattle.pg_span_refute.specs.Caches.{known_of, kind_for, IsNotGiven, word_in};
ghost use Rattle.pg_span_refute.specs.Memory.{MayHold};
ghost use Rattle.pg_span_refute.specs.Orders.{NeverComes, NamesWalk};
ghost use Rattle.pg_span_refute.specs.Supposed.{NeverComesSo};
ghost use Rattle.pg_span_refute.specs.Witness.{HasNoWitness};
ghost use Rattle.pg_span_refute.specs.Words.{AreWordsOf};

use crate::caches::Caches;
use crate::edge::Edge;
use crate::laws::without_a_witness;
use crate::slot::Slot;
use crate::table::Table;
use crate::updates::{Update, has_no_update};
use crate::words::Words;
use pg_entry::{AccessKind, Cause, Entry, Kind, classify};
use pg_event::{
    Event, Header, Outcome, Want, access_kind, entry_address, processor_of, says_dirty, want_of,
};
use pg_machine::gives;
use pg_span_run::{SpannedRun, ended_before, started};
use std::alloc::{AllocError, Global};

/// So much is looked at for one event.
const MOST_LOOKS: u64 = 100_000_000;

/// The walk that an event of a processor names.
#[derive(Clone, Copy)]
struct Walk {
    number: u32,
    p: u16,
    la: u64,
}

/// The access that an event is.
#[derive(Clone, Copy)]
struct Asked {
    kind: AccessKind,
    la: u64,
    outcome: Outcome,
}

/// Whether no translation gives an access its outcome.
fn has_no_answer(header: &Header, caches: &Caches, asked: Asked) -> bool
    ensures { IsTrue result → HasNoAnswer header.now asked.la (known_of caches.now)
        asked.kind asked.outcome }
{
    for held in &caches.translations {
        if gives(
            header,
            caches.control,
            asked.la,
            asked.kind,
            asked.outcome,
            &held.get(),
        ) {
            return false;
        }
    }
    true
}

/// Whether an entry of this kind makes an access fault by this cause.
fn is_cause(kind: Kind, cause: Cause) -> bool
    ensures { IsTrue result ↔ kind ≡ kind_for cause }
{
    match kind {
        Kind::Absent => matches!(cause, Cause::Absent | Cause::Denied),
        Kind::Reserved => matches!(cause, Cause::Reserved),
        Kind::Table { .. } | Kind::Leaf { .. } => false,
    }
}

/// Whether none of these entries, which may stand in a table, makes an access fault by this cause.
fn none_faults(header: &Header, table: Table, entries: &[u64], cause: Cause) -> bool
    requires width { (36 ≤ header.now.cfg.m) × (header.now.cfg.m ≤ 52) }
    ensures { IsTrue result → (entry : ℕ) → IsIn entry entries.now →
        kind_of header.now.cfg table.level entry ≡ kind_for cause → ⊥ }
{
    for entry in entries {
        if is_cause(classify(header.cfg, table.level, Entry(*entry)), cause) {
            return false;
        }
    }
    true
}

/// Whether no entry that a table may have in a slot makes an access fault by this cause.
fn table_faults_not(
    run: &SpannedRun,
    words: &mut Words,
    slot: Slot<'_>,
    la: u64,
    table: Table,
    cause: Cause,
) -> Result<bool, AllocError>
    requires within { table.from.table < 2 ^ 52 }
    requires words { AreWordsOf run.now.events words.old.words.items }
    ensures words { OnOk result (AreWordsOf run.now.events words.new.words.items) }
    ensures none { IfOk result (λ none. IsTrue none → (entry : ℕ) →
        MayHold run.now slot.entry (word_in la table) entry →
        kind_of run.now.head.cfg table.level entry ≡ kind_for cause → ⊥) }
{
    let address = entry_address(table.from.table, table.level, la);
    if !words.look(run, slot, address)? {
        return Ok(false);
    }
    Ok(none_faults(run.header(), table, words.values.as_slice(), cause))
}

/// Whether no table that is known makes an access fault by this cause.
fn has_no_fault(
    run: &SpannedRun,
    words: &mut Words,
    caches: &Caches,
    slot: Slot<'_>,
    asked: Asked,
    cause: Cause,
) -> Result<bool, AllocError>
    requires words { AreWordsOf run.now.events words.old.words.items }
    ensures words { OnOk result (AreWordsOf run.now.events words.new.words.items) }
    ensures none { IfOk result (λ none. IsTrue none → HasNoFault run.now slot.entry asked.la
        (known_of caches.now) asked.kind asked.outcome (kind_for cause) cause) }
{
    for held in &caches.tables {
        let table = held.get();
        if table.pcid == caches.control.pcid
            && !table_faults_not(run, words, slot, asked.la, table, cause)?
        {
            return Ok(false);
        }
    }
    Ok(true)
}

/// Whether nothing that is known gives an access its outcome.
fn cannot_come(
    run: &SpannedRun,
    words: &mut Words,
    caches: &Caches,
    slot: Slot<'_>,
    asked: Asked,
) -> Result<bool, AllocError>
    requires words { AreWordsOf run.now.events words.old.words.items }
    ensures words { OnOk result (AreWordsOf run.now.events words.new.words.items) }
    ensures cannot { IfOk result (λ cannot. IsTrue cannot → CannotCome run.now slot.entry asked.la
        (known_of caches.now) asked.kind asked.outcome (want_of asked.outcome)) }
{
    match want_of(asked.outcome) {
        Want::Leaf => Ok(has_no_answer(run.header(), caches, asked)),
        Want::Absent => has_no_fault(run, words, caches, slot, asked, Cause::Absent),
        Want::Reserved => has_no_fault(run, words, caches, slot, asked, Cause::Reserved),
        Want::Present => Ok(false),
    }
}

/// Whether nothing that is known gives an event, which names a walk for this linear address.
fn is_not_given(
    run: &SpannedRun,
    words: &mut Words,
    caches: &Caches,
    slot: Slot<'_>,
    la: u64,
    asked: &Event,
) -> Result<bool, AllocError>
    requires words { AreWordsOf run.now.events words.old.words.items }
    ensures words { OnOk result (AreWordsOf run.now.events words.new.words.items) }
    ensures cannot { IfOk result (λ cannot. IsTrue cannot →
        IsNotGiven run.now slot.entry la (known_of caches.now) asked.now) }
{
    match *asked {
        Event::Access { flags, outcome, .. } => {
            let kind = access_kind(flags);
            cannot_come(run, words, caches, slot, Asked { kind, la, outcome })
        }
        Event::Assist { flags, word, .. } => {
            let update = Update {
                kind: access_kind(flags),
                word,
                dirty: says_dirty(flags),
            };
            has_no_update(run, words, caches, slot, la, update)
        }
        Event::Write { .. }
        | Event::MovCr3 { .. }
        | Event::Invlpg { .. }
        | Event::Invpcid { .. }
        | Event::MovCr4Pge { .. } => Ok(false),
    }
}

/// Whether no order of a run that is as supposed can witness an event, which names a walk.
fn refute_walk(
    run: &SpannedRun,
    words: &mut Words,
    edges: &[Edge],
    walk: Walk,
    asked: &Event,
) -> Result<bool, AllocError>
    requires there { slice_get run.now.events walk.number ≡ Some asked.now }
    requires own { processor_of asked.now ≡ walk.p }
    requires names { NamesWalk walk.la asked.now }
    requires count { walk.number < length run.now.events }
    requires words { AreWordsOf run.now.events words.old.words.items }
    ensures words { OnOk result (AreWordsOf run.now.events words.new.words.items) }
    ensures none { IfOk result (λ refuted. IsTrue refuted →
        HasNoWitness run.now edges.now walk.number) }
{
    let Walk { number, p, la } = walk;
    if !words.may_look(number as u64) {
        return Ok(false);
    }
    let header = run.header();
    let events = run.events();
    let mut caches = Caches::new(words.alloc, started(run, p));
    let mut ended = 0;
    for next in 0..number {
        let event = &events[next as usize];
        if processor_of(event) == p {
            let slot = Slot {
                p,
                next,
                ended,
                edges,
            };
            if !caches.fill(run, words, slot, la)? {
                return Ok(false);
            }
            caches.pass(header.cfg, la, event);
            ended = ended.max(ended_before(run, next));
        }
    }
    let slot = Slot {
        p,
        next: number,
        ended,
        edges,
    };
    if !caches.fill(run, words, slot, la)? {
        return Ok(false);
    }
    let at_event = Slot {
        p,
        next: number,
        ended: ended.max(ended_before(run, number)),
        edges,
    };
    is_not_given(run, words, &caches, at_event, la, asked)
}

/// Whether in no order of its events that is as supposed a run of the machine comes to this event,
/// by its number. A no says nothing.
pub(crate) fn refute_so(
    run: &SpannedRun,
    words: &mut Words,
    edges: &[Edge],
    number: u32,
) -> Result<bool, AllocError>
    requires words { AreWordsOf run.now.events words.old.words.items }
    ensures words { OnOk result (AreWordsOf run.now.events words.new.words.items) }
    ensures within { IfOk result (λ refuted. IsTrue refuted → number < length run.now.events) }
    ensures none { IfOk result (λ refuted. IsTrue refuted →
        HasNoWitness run.now edges.now number) }
    ensures never { IfOk result (λ refuted. IsTrue refuted →
        NeverComesSo run.now edges.now number) }
{
    if number as usize >= run.len() {
        return Ok(false);
    }
    without_a_witness();
    let asked = &run.events()[number as usize];
    let p = processor_of(asked);
    match *asked {
        Event::Access { la, .. } | Event::Assist { la, .. } => {
            refute_walk(run, words, edges, Walk { number, p, la }, asked)
        }
        Event::Write { .. }
        | Event::MovCr3 { .. }
        | Event::Invlpg { .. }
        | Event::Invpcid { .. }
        | Event::MovCr4Pge { .. } => Ok(false),
    }
}

/// Whether in no order of its events a run of the machine comes to this event, by its number, so
/// that no order has a run. It asks accesses and assists. A no says nothing: it is the answer for
/// an event that names no walk too, and where too much would have to be looked at.
///
/// It fails only where memory is refused. It takes time by the events of the processor before the
/// event, and by the writes to the words that walks for its address read.
pub fn refute(alloc: Global, run: &SpannedRun, number: u32) -> Result<bool, AllocError>
    ensures within { IfOk result (λ refuted. IsTrue refuted → number < length run.now.events) }
    ensures none { IfOk result (λ refuted. IsTrue refuted → HasNoWitness run.now [] number) }
    ensures never { IfOk result (λ refuted. IsTrue refuted → NeverComes run.now number) }
{
    let mut words = Words::new(alloc, MOST_LOOKS);
    refute_so(run, &mut words, &[], number)
}
