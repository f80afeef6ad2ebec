//! Why in every order of a run's events one of them does not come to pass, as JSON.

ghost use Rattle.std.specs.Prelude.{◌≡◌, ◌<◌, ◌≤◌, map, IfOk, OnOk, length, slice_get};
ghost use Rattle.std.specs.Option.{ForSome};
ghost use Rattle.serde_json.specs.View.{view, members_view};
ghost use Rattle.pg_span_text.specs.Parts.{walked_address, parts_in};
ghost use Rattle.pg_show_json.specs.Tree.{data_of, members_of, Fields as ToldFields};
ghost use Rattle.pg_show_json_answers.specs.Causes.{event_at, after_json, is_not_global};
ghost use Rattle.pg_show_json_answers.specs.Causes.{with_page, entry_json, may_json};
ghost use Rattle.pg_show_json_answers.specs.Causes.{may_read, with_gone, cannot_json};
ghost use Rattle.pg_show_json_answers.specs.Causes.{cannot_read, is_as_written, parts_fields};
ghost use Rattle.pg_show_json_answers.specs.Causes.{walk_fields, event_cause, cause_json};

use crate::spanned_lines::event_json;
use pg_entry::{Cfg, Entry, Kind, classify};
use pg_event::{Event, Version};
use pg_explain::level_number;
use pg_show_json::{Fields, list_of, number_json, put_count, put_flag, put_held, put_hex};
use pg_span_refute::may_be_given;
use pg_span_run::{SpannedRun, event_of};
use pg_span_text::{Gone, ReadAfter, Seen, WalkCause, walk_cause, walked_address};
use serde_json::{Map, Value, put};
use std::alloc::{AllocError, Global};

/// The event with this number.
fn event_at(alloc: Global, run: &SpannedRun, number: u32) -> Result<Value, AllocError>
    requires { number < length run.now.events }
    ensures { IfOk result (λ v. view v
        ≡ data_of (event_at run.now number (slice_get run.now.events number))) }
{
    event_json(alloc, run, number, event_of(run, number))
}

/// The event behind which a walk reads, or null where there is none.
fn after_json(
    alloc: Global,
    run: &SpannedRun,
    after: Option<ReadAfter>,
) -> Result<Value, AllocError>
    requires { ForSome after (λ x. x.number < length run.now.events) }
    ensures { IfOk result (λ v. view v ≡ data_of (after_json run.now after)) }
{
    match after {
        None => Ok(Value::Null),
        Some(after) => event_at(alloc, run, after.number),
    }
}

/// Whether global translations may stay there.
fn is_not_global(after: Option<ReadAfter>) -> bool
    ensures { result ≡ is_not_global after }
{
    match after {
        None => false,
        Some(after) => after.keeps_global,
    }
}

/// Puts the page that a leaf maps.
fn put_page(fields: &mut Fields, alloc: Global, kind: Kind) -> Result<(), AllocError>
    ensures { (others : ToldFields) → members_view fields.old.entries ≡ members_of others →
        OnOk result (members_view fields.new.entries ≡ members_of (with_page kind others)) }
{
    match kind {
        Kind::Leaf { frame, .. } => put_hex(fields, alloc, "page", frame),
        Kind::Absent | Kind::Reserved | Kind::Table { .. } => Ok(()),
    }
}

/// An entry of this kind that may be read.
fn entry_json(alloc: Global, seen: Seen, kind: Kind) -> Result<Value, AllocError>
    ensures { IfOk result (λ v. view v ≡ data_of (entry_json seen kind)) }
{
    let mut fields = Map::new(alloc);
    put(&mut fields, alloc, "written_by", number_json(seen.writer))?;
    put_page(&mut fields, alloc, kind)?;
    put_held(&mut fields, alloc, seen.address, seen.value, kind)?;
    put_count(&mut fields, alloc, "level", level_number(seen.level) as u64)?;
    Ok(Value::Object(fields))
}

fn may_json(alloc: Global, cfg: Cfg, seen: Seen) -> Result<Value, AllocError>
    requires { (36 ≤ cfg.m) × (cfg.m ≤ 52) }
    ensures { IfOk result (λ v. view v ≡ data_of (may_json cfg seen)) }
{
    entry_json(alloc, seen, classify(cfg, seen.level, Entry(seen.value)))
}

fn each_may(alloc: Global, cfg: Cfg, seen: &[Seen]) -> Result<Vec<Value>, AllocError>
    requires { (36 ≤ cfg.m) × (cfg.m ≤ 52) }
    ensures { IfOk result (λ vs.
        map view vs.items ≡ map (λ x. data_of (may_json cfg x)) seen.now) }
{
    let mut values = Vec::new(alloc);
    for one in seen {
        let value = may_json(alloc, cfg, *one)?;
        values.push(value)?;
    }
    Ok(values)
}

/// The entries that a walk may read.
fn may_read(alloc: Global, cfg: Cfg, seen: &[Seen]) -> Result<Value, AllocError>
    requires { (36 ≤ cfg.m) × (cfg.m ≤ 52) }
    ensures { IfOk result (λ v. view v ≡ data_of (may_read cfg seen.now)) }
{
    let values = each_may(alloc, cfg, seen)?;
    Ok(list_of(values))
}

/// Puts which event overwrites a value, and which one that comes before.
fn put_gone(fields: &mut Fields, alloc: Global, gone: Option<Gone>) -> Result<(), AllocError>
    ensures { (others : ToldFields) → members_view fields.old.entries ≡ members_of others →
        OnOk result (members_view fields.new.entries ≡ members_of (with_gone gone others)) }
{
    match gone {
        None => Ok(()),
        Some(gone) => {
            put_count(fields, alloc, "before", gone.before as u64)?;
            put_count(fields, alloc, "overwritten_by", gone.by as u64)
        }
    }
}

fn cannot_json(alloc: Global, seen: Seen) -> Result<Value, AllocError>
    ensures { IfOk result (λ v. view v ≡ data_of (cannot_json seen)) }
{
    let mut fields = Map::new(alloc);
    put(&mut fields, alloc, "written_by", number_json(seen.writer))?;
    put_gone(&mut fields, alloc, seen.gone)?;
    put_hex(&mut fields, alloc, "value", seen.value)?;
    put_hex(&mut fields, alloc, "word", seen.address)?;
    Ok(Value::Object(fields))
}

fn each_cannot(alloc: Global, seen: &[Seen]) -> Result<Vec<Value>, AllocError>
    ensures { IfOk result (λ vs. map view vs.items ≡ map (λ x. data_of (cannot_json x)) seen.now) }
{
    let mut values = Vec::new(alloc);
    for one in seen {
        let value = cannot_json(alloc, *one)?;
        values.push(value)?;
    }
    Ok(values)
}

/// The entries that a walk can't read.
fn cannot_read(alloc: Global, seen: &[Seen]) -> Result<Value, AllocError>
    ensures { IfOk result (λ v. view v ≡ data_of (cannot_read seen.now)) }
{
    let values = each_cannot(alloc, seen)?;
    Ok(list_of(values))
}

/// Whether assists may have set flags in values that are told as written.
fn is_as_written(version: Version) -> bool
    ensures { result ≡ is_as_written version }
{
    match version {
        Version::One => false,
        Version::Two => true,
    }
}

/// What a cause says of a walk.
fn parts_fields(alloc: Global, run: &SpannedRun, cause: &WalkCause) -> Result<Fields, AllocError>
    requires { ForSome cause.now.after (λ x. x.number < length run.now.events) }
    ensures { IfOk result (λ m. members_view m.entries
        ≡ members_of (parts_fields run.now (parts_in cause.now))) }
{
    let header = run.header();
    let mut fields = Map::new(alloc);
    put_flag(
        &mut fields,
        alloc,
        "as_written",
        is_as_written(header.version),
    )?;
    let cannot = cannot_read(alloc, &cause.cannot_read)?;
    put(&mut fields, alloc, "cannot_read", cannot)?;
    let may = may_read(alloc, header.cfg, &cause.may_read)?;
    put(&mut fields, alloc, "may_read", may)?;
    put_flag(
        &mut fields,
        alloc,
        "if_not_global",
        is_not_global(cause.after),
    )?;
    let after = after_json(alloc, run, cause.after)?;
    put(&mut fields, alloc, "read_after", after)?;
    Ok(fields)
}

/// What is said of the walk of an event, if it names one.
fn walk_fields(
    alloc: Global,
    run: &SpannedRun,
    number: u32,
    event: &Event,
) -> Result<Fields, AllocError>
    requires { number < length run.now.events }
    ensures { IfOk result (λ m. members_view m.entries
        ≡ members_of (walk_fields run.now number event.now (walked_address event.now))) }
{
    match walked_address(event) {
        None => Ok(Map::new(alloc)),
        Some(la) => {
            let cause = walk_cause(alloc, run, number, event, la)?;
            let mut fields = parts_fields(alloc, run, &cause)?;
            let is_given = may_be_given(run.header().cfg, event);
            put_flag(&mut fields, alloc, "no_memory_gives", !is_given)?;
            Ok(fields)
        }
    }
}

fn event_cause(
    alloc: Global,
    run: &SpannedRun,
    number: u32,
    event: &Event,
) -> Result<Value, AllocError>
    requires { number < length run.now.events }
    ensures { IfOk result (λ v. view v ≡ data_of (event_cause run.now number event.now)) }
{
    let mut fields = walk_fields(alloc, run, number, event)?;
    let told = event_json(alloc, run, number, event)?;
    put(&mut fields, alloc, "event", told)?;
    Ok(Value::Object(fields))
}

/// Why in every order the event with this number does not come to pass, where no order of the run's
/// events has a run. Null for a number that no event has.
pub(crate) fn cause_json(alloc: Global, run: &SpannedRun, number: u64) -> Result<Value, AllocError>
    ensures { IfOk result (λ v. view v ≡ data_of (cause_json run.now number)) }
{
    if number < run.len() as u64 {
        let number = number as u32;
        event_cause(alloc, run, number, event_of(run, number))
    } else {
        Ok(Value::Null)
    }
}
