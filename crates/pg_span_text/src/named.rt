//! The events that a cause names.

ghost use Rattle.std.specs.Prelude.{◌≡◌, ◌<◌, IfOk, OnOk, length};
ghost use Rattle.pg_span_run.specs.Spans.{span_of};
ghost use Rattle.pg_span_text.specs.Named.{put_name, put_some, put_after, put_gone, put_names};
ghost use Rattle.pg_span_text.specs.Named.{put_all, named_by, named_walk, named};

use crate::parts::{ReadAfter, walk_cause, walked_address};
use crate::seen::{Gone, Seen};
use pg_event::Event;
use pg_span_run::{SpannedRun, event_of};
use std::alloc::{AllocError, Global};

/// So many events are named.
const MOST_NAMES: usize = 40;

/// Puts the number of an event after others, unless it is there, or they are too many already.
fn put_name(names: &mut Vec<u32>, number: u32) -> Result<(), AllocError>
    ensures { OnOk result (names.new.items ≡ put_name names.old.items number) }
{
    if names.len() < MOST_NAMES && !names.contains(&number) {
        names.push(number)?;
    }
    Ok(())
}

/// Puts the number of an event after others, as `put_name` does, if there is one.
fn put_some(names: &mut Vec<u32>, number: Option<u32>) -> Result<(), AllocError>
    ensures { OnOk result (names.new.items ≡ put_some names.old.items number) }
{
    match number {
        None => Ok(()),
        Some(number) => put_name(names, number),
    }
}

/// Puts the event after which a walk reads after others.
fn put_after(names: &mut Vec<u32>, after: Option<ReadAfter>) -> Result<(), AllocError>
    ensures { OnOk result (names.new.items ≡ put_after names.old.items after) }
{
    match after {
        None => Ok(()),
        Some(after) => put_name(names, after.number),
    }
}

/// Puts the event that overwrites a value after others.
fn put_gone(names: &mut Vec<u32>, gone: Option<Gone>) -> Result<(), AllocError>
    ensures { OnOk result (names.new.items ≡ put_gone names.old.items gone) }
{
    match gone {
        None => Ok(()),
        Some(gone) => put_name(names, gone.by),
    }
}

/// Puts the events that an entry names after others.
fn put_names(names: &mut Vec<u32>, seen: Seen) -> Result<(), AllocError>
    ensures { OnOk result (names.new.items ≡ put_names names.old.items seen) }
{
    put_some(names, seen.writer)?;
    put_gone(names, seen.gone)
}

/// Puts the events that entries name after others.
fn put_all(names: &mut Vec<u32>, seen: &[Seen]) -> Result<(), AllocError>
    ensures { OnOk result (names.new.items ≡ put_all names.old.items seen.now) }
{
    for one in seen {
        put_names(names, *one)?;
    }
    Ok(())
}

/// The events that a walk names: the asked one, the one after which it is, and those of entries,
/// first of those that may be read.
fn named_by(
    alloc: Global,
    number: u32,
    after: Option<ReadAfter>,
    may: &[Seen],
    cannot: &[Seen],
) -> Result<Vec<u32>, AllocError>
    ensures { IfOk result (λ names. names.items ≡ named_by number after may.now cannot.now) }
{
    let mut names = Vec::new(alloc);
    put_name(&mut names, number)?;
    put_after(&mut names, after)?;
    put_all(&mut names, may)?;
    put_all(&mut names, cannot)?;
    Ok(names)
}

/// The events that the walk of an event names.
fn named_walk(
    alloc: Global,
    run: &SpannedRun,
    number: u32,
    event: &Event,
    la: u64,
) -> Result<Vec<u32>, AllocError>
    requires { number < length run.now.events }
    ensures { IfOk result (λ names. names.items
        ≡ named_walk run.now (span_of run.now number event.now) (Some la)) }
{
    let cause = walk_cause(alloc, run, number, event, la)?;
    named_by(
        alloc,
        number,
        cause.after,
        &cause.may_read,
        &cause.cannot_read,
    )
}

/// The events that the cause of an event names, 40 of them at most.
pub(crate) fn named(alloc: Global, run: &SpannedRun, number: u32) -> Result<Vec<u32>, AllocError>
    requires { number < length run.now.events }
    ensures { IfOk result (λ names. names.items ≡ named run.now number) }
{
    let event = event_of(run, number);
    match walked_address(event) {
        None => named_by(alloc, number, None, &[], &[]),
        Some(la) => named_walk(alloc, run, number, event, la),
    }
}
