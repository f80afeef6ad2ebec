//! The events of a run that their moments do not prove.

ghost use Rattle.std.specs.Prelude.{◌≡◌, ◌+◌, ◌<◌, ◌≤◌, ◌^◌, ◌++◌, List, length, drop};
ghost use Rattle.std.specs.Prelude.{IfOk, OnOk};
ghost use Rattle.std.specs.List.{AllByRecursion};
ghost use Rattle.pg_event.specs.declared.event.Event.{Event};
ghost use Rattle.pg_event.specs.Form.{processor_of};
ghost use Rattle.pg_event.specs.Heads.{Head};
ghost use Rattle.pg_chain.specs.Standing.{IsPast, processor_count};
ghost use Rattle.pg_explain.specs.Bads.{address_of, bad_of, bads, bads_from, BadsAreExact};

use pg_check::{History, Memo, failing, first_bad};
use pg_event::{Event, Reason, Request, processor_of};
use std::alloc::{AllocError, Global};

/// So many walks a memo keeps at most, so that pages share them.
const WALKS: usize = 16_384;

/// An event that its moments do not prove.
#[derive(Clone, Copy)]
pub struct Bad {
    /// Its number.
    pub number: u32,
    /// The least reason that fails.
    pub reason: Reason,
    /// Its processor.
    pub p: u16,
    /// The first linear address of the page of 4 KB that it accesses.
    pub page: u64,
}

/// The linear address that an access or an assist is for.
fn address_of(event: &Event) -> u64
    ensures { result ≡ address_of event.now }
{
    match event.request() {
        Request::Access { la, .. } | Request::Update { la, .. } => la,
        Request::Nothing => 0,
    }
}

fn bad_of(number: u32, event: &Event, reason: Reason) -> Bad
    ensures { result ≡ bad_of number event.now reason }
{
    let address = address_of(event);
    Bad {
        number,
        reason,
        p: processor_of(event),
        page: address - address % 4096,
    }
}

/// Appends the bad ones of events that follow each other, of which the first has this number. They
/// are judged by the past of a memo, whose walks they share.
fn push_bads(
    found: &mut Vec<Bad>,
    memo: &mut Memo<'_>,
    first: u64,
    events: &[Event],
) -> Result<(), AllocError>
    requires processors { AllByRecursion
        (λ e. processor_of e < processor_count memo.old) events.now }
    requires count { first + length events.now ≤ 2 ^ 32 }
    ensures { (head : Head) (all : List Event) → IsPast memo.old head all →
        OnOk result (found.new.items ≡ found.old.items ++ bads_from head all first events.now) }
{
    for (i, event) in events.iter().enumerate() {
        let number = (first + i as u64) as u32;
        if let Some(reason) = failing(memo, number, event) {
            found.push(bad_of(number, event, reason))?;
        }
    }
    Ok(())
}

/// The bad ones of the events from this number on.
fn bads_from(alloc: Global, history: &History, first: u64) -> Result<Vec<Bad>, AllocError>
    requires { first ≤ length history.now.events }
    ensures { IfOk result (λ found. found.items
        ≡ bads_from history.now.head history.now.events first (drop first history.now.events)) }
{
    let events = history.events();
    let mut memo = history.stretch().memo(WALKS);
    let mut found = Vec::new(alloc);
    push_bads(&mut found, &mut memo, first, &events[first as usize..])?;
    Ok(found)
}

/// The events that their moments do not prove, in their order. Each is judged by the events before
/// it, whatever they were answered. Fails only when out of memory.
pub fn bads(alloc: Global, history: &History) -> Result<Vec<Bad>, AllocError>
    ensures { IfOk result (λ found. found.items
        ≡ bads history.now.head history.now.events) }
{
    match first_bad(history) {
        None => Ok(Vec::new(alloc)),
        Some((first, _)) => bads_from(alloc, history, first),
    }
}

/// The bad events are just those for which a reason fails.
pub fn bads_are_exact()
    ensures { BadsAreExact }
{}
