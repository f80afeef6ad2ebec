//! The entries that the moments of an event name.

ghost use Rattle.std.specs.Prelude.{◌≡◌, ◌<◌, ◌≤◌, ◌^◌, length, map, IfOk};
ghost use Rattle.std.specs.List.{AllByRecursion};
ghost use Rattle.pg_entry.specs.Kinds.{kind_of};
ghost use Rattle.pg_event.specs.Values.{mem_at};
ghost use Rattle.pg_chain.specs.Walked.{reading_of, entry_read, parent_of};
ghost use Rattle.pg_explain.specs.Findings.{readings_by, last_of};
ghost use Rattle.pg_search.specs.Writers.{IsWriter};
ghost use Rattle.pg_explain.specs.Walk.{IsTold, IsWalk, reading_at};
ghost use Rattle.pg_explain.specs.Writers.{AreKnown};

use crate::writer_index::WriterIndex;
use pg_chain::{EntryRead, kind_at};
use pg_entry::{Entry, Kind, Level, combine, table_of};
use pg_event::{Parent, below, entry_address, root_of};
use pg_search::Seen;
use std::alloc::{AllocError, Global};

/// An entry that the moments of an event name, as the walk reads it.
#[derive(Clone, Copy)]
pub struct WalkEntry {
    pub step: EntryRead,
    /// The PCID of the processor at the moment.
    pub pcid: u16,
    /// What the entry is.
    pub kind: Kind,
    /// The last event below the moment that wrote the word. Where there is none, it is 0 still.
    pub writer: Option<u32>,
}

/// Reads the entry of a table for a linear address.
fn read(seen: &Seen<'_>, la: u64, level: Level, parent: Parent, moment: u32) -> EntryRead
    requires { parent.table < 2 ^ 52 }
    ensures { reading_of result ≡ entry_read (mem_at seen.now.events) la level parent moment }
{
    let address = entry_address(parent.table, level, la);
    let value = seen.value_at(moment, address);
    EntryRead {
        level,
        address,
        value,
        moment,
        rights: combine(parent.rights, Entry(value)),
    }
}

/// The table that a walk goes on in after an entry.
fn parent_after(seen: &Seen<'_>, step: EntryRead) -> Parent
    ensures parent { result ≡ parent_of seen.now.head.cfg.m (reading_of step) }
    ensures within { result.table < 2 ^ 52 }
{
    Parent {
        table: table_of(seen.header().cfg.m, Entry(step.value)),
        rights: step.rights,
    }
}

/// What the moments of an event of processor `p` read for a linear address, from level 4 down.
/// What stands below an entry that is no table is read as if it were one.
pub(crate) fn read_steps(
    alloc: Global,
    seen: &Seen<'_>,
    p: u16,
    la: u64,
    moments: &[u32],
) -> Result<Vec<EntryRead>, AllocError>
    requires processor { p < length seen.now.head.processors }
    requires some { 1 ≤ length moments.now }
    ensures read { IfOk result (λ steps. map reading_of steps.items
        ≡ readings_by seen.now.head seen.now.events p la moments.now) }
    ensures count { IfOk result (λ steps. length steps.items ≡ length moments.now) }
{
    let mut steps = Vec::new(alloc);
    let mut level = Level::Four;
    let mut parent = root_of(seen.control_at(p, moments[0]));
    for moment in moments {
        let step = read(seen, la, level, parent, *moment);
        steps.push(step)?;
        level = below(level);
        parent = parent_after(seen, step);
    }
    Ok(steps)
}

/// Who wrote the word of an entry that is read.
fn writer_of(seen: &Seen<'_>, writers: &Option<WriterIndex<'_>>, step: EntryRead) -> Option<u32>
    requires { AreKnown seen.now.events writers.now }
    ensures { IsWriter seen.now.events step.address step.moment result }
{
    match writers {
        Some(writers) => writers.writer(step.address, step.moment),
        None => seen.writer(step.address, step.moment),
    }
}

/// What is told of an entry that processor `p` reads.
fn told(seen: &Seen<'_>, writers: &Option<WriterIndex<'_>>, p: u16, step: EntryRead) -> WalkEntry
    requires processor { p < length seen.now.head.processors }
    requires writers { AreKnown seen.now.events writers.now }
    ensures told { IsTold seen.now.head seen.now.events p result }
    ensures step { result.step ≡ step }
{
    WalkEntry {
        step,
        pcid: seen.control_at(p, step.moment).pcid,
        kind: kind_at(seen.header().cfg, step),
        writer: writer_of(seen, writers, step),
    }
}

/// What is told of the entries that processor `p` reads.
pub(crate) fn tell(
    alloc: Global,
    seen: &Seen<'_>,
    writers: &Option<WriterIndex<'_>>,
    p: u16,
    steps: &[EntryRead],
) -> Result<Vec<WalkEntry>, AllocError>
    requires processor { p < length seen.now.head.processors }
    requires writers { AreKnown seen.now.events writers.now }
    ensures read { IfOk result (λ walk. map reading_at walk.items ≡ map reading_of steps.now) }
    ensures told { IfOk result (λ walk.
        AllByRecursion (IsTold seen.now.head seen.now.events p) walk.items) }
{
    let mut walk = Vec::new(alloc);
    for step in steps {
        walk.push(told(seen, writers, p, *step))?;
    }
    Ok(walk)
}

/// The entries that moments of processor `p` name for a linear address, from level 4 down, each
/// with the event that wrote it. What stands below an entry that is no table is read as if it were
/// one.
///
/// For each entry it takes a pass over the events below its moment (`Seen::writer` of `pg_search`).
/// It fails only where memory is refused.
pub fn walk_by(
    alloc: Global,
    seen: &Seen<'_>,
    p: u16,
    la: u64,
    moments: &[u32],
) -> Result<Vec<WalkEntry>, AllocError>
    requires processor { p < length seen.now.head.processors }
    requires some { 1 ≤ length moments.now }
    ensures { IfOk result (λ walk.
        IsWalk seen.now.head seen.now.events p la moments.now walk.items) }
{
    let steps = read_steps(alloc, seen, p, la, moments)?;
    tell(alloc, seen, &None, p, &steps)
}

/// What is read last.
pub(crate) fn last_step(steps: &[EntryRead]) -> EntryRead
    requires { 1 ≤ length steps.now }
    ensures { reading_of result ≡ last_of (map reading_of steps.now) }
{
    steps[steps.len() - 1]
}
