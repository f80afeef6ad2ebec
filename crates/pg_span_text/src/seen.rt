//! Which entries a walk may read, and which it can't.

ghost use Rattle.std.specs.Prelude.{◌≡◌, ◌++◌, ◌≤◌, IfOk, OnOk};
ghost use Rattle.pg_span_text.specs.Seen.{bound_of, gone_by, seen_of_write, seen_from};
ghost use Rattle.pg_span_text.specs.Seen.{unwritten, seen_word, seen_in, seen_at};
ghost use Rattle.pg_span_text.specs.Seen.{put_below, put_table, tables_below};
ghost use Rattle.pg_span_text.specs.Seen.{seen_next, seen_of};

use crate::drops::put_once;
use crate::words::{Written, is_any_before, overwriter, writes_of};
use pg_entry::{Cfg, Entry, Kind, Level, classify};
use pg_event::entry_address;
use pg_span_run::{Span, SpannedRun};
use std::alloc::{AllocError, Global};

/// That a value is overwritten in every order.
#[derive(Clone, Copy)]
pub struct Gone {
    /// By which event.
    pub by: u32,
    /// Which comes before this one.
    pub before: u32,
}

/// What a word holds at some time.
#[derive(Clone, Copy)]
pub struct Seen {
    /// The level of the walk that reads the word.
    pub level: Level,
    /// The physical address of the word.
    pub address: u64,
    pub value: u64,
    /// The event that wrote the value. Where there is none, the word is 0 still.
    pub writer: Option<u32>,
    /// Why the walk can't read the value. Where there is nothing, it may.
    pub gone: Option<Gone>,
}

/// A walk that is asked about.
#[derive(Clone, Copy)]
pub(crate) struct Walk {
    /// The linear address.
    pub la: u64,
    /// The event that names the walk.
    pub event: Span,
    /// The event after which the walk is, if there is one.
    pub drop: Option<Span>,
}

/// The event after which a walk must read an entry for what it gives to be used at the asked
/// event: that event itself where the entry is absent or has a reserved bit, since nothing keeps
/// such an entry.
fn bound_of(cfg: Cfg, walk: Walk, level: Level, value: u64) -> Option<Span>
    requires { (36 ≤ cfg.m) × (cfg.m ≤ 52) }
    ensures { result ≡ bound_of cfg walk level value }
{
    match classify(cfg, level, Entry(value)) {
        Kind::Absent | Kind::Reserved => Some(walk.event),
        Kind::Table { .. } | Kind::Leaf { .. } => walk.drop,
    }
}

/// Which of the later writes overwrites a write before an event, in every order.
fn gone_by(bound: Option<Span>, span: Span, later: &[Written]) -> Option<Gone>
    ensures { result ≡ gone_by bound span later.now }
{
    let bound = bound?;
    if span.number >= bound.number {
        return None;
    }
    let by = overwriter(later, span, bound)?;
    Some(Gone {
        by,
        before: bound.number,
    })
}

/// What a write leaves in its word, where these are the later ones.
fn seen_of_write(
    cfg: Cfg,
    walk: Walk,
    level: Level,
    address: u64,
    written: Written,
    later: &[Written],
) -> Seen
    requires { (36 ≤ cfg.m) × (cfg.m ≤ 52) }
    ensures { result ≡ seen_of_write cfg walk level address written later.now }
{
    let bound = bound_of(cfg, walk, level, written.value);
    Seen {
        level,
        address,
        value: written.value,
        writer: Some(written.span.number),
        gone: gone_by(bound, written.span, later),
    }
}

/// Appends what these writes leave in their word.
fn push_written(
    seen: &mut Vec<Seen>,
    cfg: Cfg,
    walk: Walk,
    level: Level,
    address: u64,
    writes: &[Written],
) -> Result<(), AllocError>
    requires { (36 ≤ cfg.m) × (cfg.m ≤ 52) }
    ensures { OnOk result (seen.new.items
        ≡ seen.old.items ++ seen_from cfg walk level address writes.now) }
{
    for (place, written) in writes.iter().enumerate() {
        let later = &writes[place + 1..];
        seen.push(seen_of_write(cfg, walk, level, address, *written, later))?;
    }
    Ok(())
}

/// Appends that a word is unwritten, if it may be at the asked event.
fn push_unwritten(
    seen: &mut Vec<Seen>,
    walk: Walk,
    level: Level,
    address: u64,
    writes: &[Written],
) -> Result<(), AllocError>
    ensures { OnOk result (seen.new.items
        ≡ seen.old.items ++ unwritten walk level address writes.now) }
{
    if !is_any_before(writes, walk.event) {
        seen.push(Seen {
            level,
            address,
            value: 0,
            writer: None,
            gone: None,
        })?;
    }
    Ok(())
}

/// Appends what a word holds at times.
fn push_word(
    alloc: Global,
    seen: &mut Vec<Seen>,
    run: &SpannedRun,
    walk: Walk,
    level: Level,
    address: u64,
) -> Result<(), AllocError>
    ensures { OnOk result (seen.new.items
        ≡ seen.old.items ++ seen_word run.now walk level address) }
{
    let writes = writes_of(alloc, run, walk.event, address)?;
    push_unwritten(seen, walk, level, address, &writes)?;
    push_written(seen, run.header().cfg, walk, level, address, &writes)
}

/// Appends what the word of a walk in a table holds at times.
fn push_table(
    alloc: Global,
    seen: &mut Vec<Seen>,
    run: &SpannedRun,
    walk: Walk,
    level: Level,
    table: u64,
) -> Result<(), AllocError>
    ensures { OnOk result (seen.new.items
        ≡ seen.old.items ++ seen_in run.now walk level table) }
{
    if table < 1 << 52 {
        push_word(
            alloc,
            seen,
            run,
            walk,
            level,
            entry_address(table, level, walk.la),
        )?;
    }
    Ok(())
}

/// What the words of a walk in these tables hold at times.
pub(crate) fn seen_at(
    alloc: Global,
    run: &SpannedRun,
    walk: Walk,
    level: Level,
    tables: &[u64],
) -> Result<Vec<Seen>, AllocError>
    ensures { IfOk result (λ seen. seen.items ≡ seen_at run.now walk level tables.now) }
{
    let mut seen = Vec::new(alloc);
    for table in tables {
        push_table(alloc, &mut seen, run, walk, level, *table)?;
    }
    Ok(seen)
}

/// Puts the table that an entry refers to after others.
fn put_table(tables: &mut Vec<u64>, kind: Kind) -> Result<(), AllocError>
    ensures { OnOk result (tables.new.items ≡ put_table tables.old.items kind) }
{
    match kind {
        Kind::Table { addr } => put_once(tables, addr),
        Kind::Absent | Kind::Reserved | Kind::Leaf { .. } => Ok(()),
    }
}

/// Puts the table that an entry refers to after others, if a walk may read the entry.
fn put_below(tables: &mut Vec<u64>, cfg: Cfg, seen: Seen) -> Result<(), AllocError>
    requires { (36 ≤ cfg.m) × (cfg.m ≤ 52) }
    ensures { OnOk result (tables.new.items ≡ put_below cfg tables.old.items seen) }
{
    match seen.gone {
        Some(_) => Ok(()),
        None => put_table(tables, classify(cfg, seen.level, Entry(seen.value))),
    }
}

/// The tables that a walk may come to by these entries.
fn tables_below(alloc: Global, cfg: Cfg, seen: &[Seen]) -> Result<Vec<u64>, AllocError>
    requires { (36 ≤ cfg.m) × (cfg.m ≤ 52) }
    ensures { IfOk result (λ tables. tables.items ≡ tables_below cfg seen.now) }
{
    let mut tables = Vec::new(alloc);
    for one in seen {
        put_below(&mut tables, cfg, *one)?;
    }
    Ok(tables)
}

/// What the words of a walk hold at the next level.
fn seen_next(
    alloc: Global,
    run: &SpannedRun,
    walk: Walk,
    level: Level,
    above: &[Seen],
) -> Result<Vec<Seen>, AllocError>
    ensures { IfOk result (λ seen. seen.items ≡ seen_next run.now walk level above.now) }
{
    let tables = tables_below(alloc, run.header().cfg, above)?;
    seen_at(alloc, run, walk, level, &tables)
}

/// What the words that a walk may read hold at times, from these roots, level by level. It takes a
/// pass over the events for each of its tables.
pub(crate) fn seen_of(
    alloc: Global,
    run: &SpannedRun,
    walk: Walk,
    roots: &[u64],
) -> Result<Vec<Seen>, AllocError>
    ensures { IfOk result (λ seen. seen.items ≡ seen_of run.now walk roots.now) }
{
    let mut all = seen_at(alloc, run, walk, Level::Four, roots)?;
    let three = seen_next(alloc, run, walk, Level::Three, &all)?;
    let two = seen_next(alloc, run, walk, Level::Two, &three)?;
    let one = seen_next(alloc, run, walk, Level::One, &two)?;
    all.extend_from_slice(&three)?;
    all.extend_from_slice(&two)?;
    all.extend_from_slice(&one)?;
    Ok(all)
}
