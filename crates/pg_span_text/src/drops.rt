//! After which of its events a processor must read the entries of a page anew.

ghost use Rattle.std.specs.Prelude.{◌≡◌, ◌+◌, ◌<◌, ◌≤◌, IfOk, OnOk, length};
ghost use Rattle.std.specs.Option.{ForSome};
ghost use Rattle.pg_event.specs.Values.{control_at};
ghost use Rattle.pg_span_text.specs.Drops.{drops_page, keeps_global, drops_by, last_drop};
ghost use Rattle.pg_span_text.specs.Drops.{put_once, put_root, roots};

use pg_entry::{Level, Rules};
use pg_event::{
    Control, Event, controlled, must_drop_structure, must_drop_translation, processor_of,
    structure_key, translation_key,
};
use pg_span_run::{SpannedRun, event_of, started};
use std::alloc::{AllocError, Global};

/// So many tables of a level are read. It is one more than the lines that are written, so that
/// these don't all fit where some table is not read.
pub(crate) const MOST_TABLES: usize = 65;

/// The control registers of a processor just before an event.
pub(crate) fn control_before(run: &SpannedRun, p: u16, number: u32) -> Control
    requires { number ≤ length run.now.events }
    ensures { result ≡ control_at run.now.head run.now.events p number }
{
    let header = run.header();
    let mut control = started(run, p);
    for i in 0..number {
        control = controlled(header.cfg.m, p, control, event_of(run, i));
    }
    control
}

/// Whether an event, with these control registers before it, must drop each translation of a
/// linear address under a PCID that is not global, and each paging-structure-cache entry of it.
fn drops_page(rules: Rules, control: Control, pcid: u16, la: u64, event: &Event) -> bool
    ensures { result ≡ drops_page rules control pcid la event.now }
{
    must_drop_translation(rules, control, event, translation_key(pcid, 12, false, la))
        && must_drop_structure(rules, control, event, structure_key(pcid, Level::Two, la))
}

/// Whether global translations of a linear address may stay.
pub(crate) fn keeps_global(
    rules: Rules,
    control: Control,
    pcid: u16,
    la: u64,
    event: &Event,
) -> bool
    ensures { result ≡ keeps_global rules control pcid la event.now }
{
    let key = translation_key(pcid, 12, true, la);
    control.pge && !must_drop_translation(rules, control, event, key)
}

/// Whether an event of processor `p` must drop each translation of the address that is not global.
fn drops_by(rules: Rules, control: Control, p: u16, pcid: u16, la: u64, event: &Event) -> bool
    ensures { result ≡ drops_by rules control p pcid la event.now }
{
    processor_of(event) == p && drops_page(rules, control, pcid, la, event)
}

/// The last event of a processor before one with this number that must drop each translation of a
/// linear address under a PCID that is not global. It takes one pass over the events before.
pub(crate) fn last_drop(run: &SpannedRun, p: u16, pcid: u16, la: u64, number: u32) -> Option<u32>
    requires { number ≤ length run.now.events }
    ensures last { result ≡ last_drop run.now p pcid la number }
    ensures within { ForSome result (λ d. d < number) }
{
    let header = run.header();
    let mut control = started(run, p);
    let mut last = None;
    for i in 0..number {
        let event = event_of(run, i);
        if drops_by(header.cfg.rules, control, p, pcid, la, event) {
            last = Some(i);
        }
        control = controlled(header.cfg.m, p, control, event);
    }
    last
}

/// Puts a table after others, unless it is there, or they are too many already.
pub(crate) fn put_once(tables: &mut Vec<u64>, table: u64) -> Result<(), AllocError>
    ensures { OnOk result (tables.new.items ≡ put_once tables.old.items table) }
{
    if tables.len() < MOST_TABLES && !tables.contains(&table) {
        tables.push(table)?;
    }
    Ok(())
}

/// Puts the table that CR3 has, if it is under this PCID.
fn put_root(tables: &mut Vec<u64>, pcid: u16, control: Control) -> Result<(), AllocError>
    ensures { OnOk result (tables.new.items ≡ put_root pcid tables.old.items control) }
{
    if control.pcid == pcid {
        put_once(tables, control.root)?;
    }
    Ok(())
}

/// The tables that CR3 of a processor had under a PCID from just before one event till just before
/// another. It takes one pass over the events before.
pub(crate) fn roots(
    alloc: Global,
    run: &SpannedRun,
    p: u16,
    pcid: u16,
    from: u32,
    number: u32,
) -> Result<Vec<u64>, AllocError>
    requires order { from ≤ number }
    requires within { number < length run.now.events }
    ensures { IfOk result (λ tables. tables.items ≡ roots run.now p pcid from number) }
{
    let header = run.header();
    let mut control = control_before(run, p, from);
    let mut tables = Vec::new(alloc);
    put_root(&mut tables, pcid, control)?;
    for i in from..number {
        control = controlled(header.cfg.m, p, control, event_of(run, i));
        put_root(&mut tables, pcid, control)?;
    }
    Ok(tables)
}
