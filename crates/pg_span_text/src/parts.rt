//! What the cause of an event says of its walk.

ghost use Rattle.std.specs.Prelude.{◌≡◌, ◌<◌, IfOk, length};
ghost use Rattle.std.specs.Option.{ForSome};
ghost use Rattle.pg_span_run.specs.Spans.{span_of};
ghost use Rattle.pg_span_text.specs.Parts.{walked_address, read_after, span_of_some};
ghost use Rattle.pg_span_text.specs.Parts.{seen_behind, open_ones, gone_ones};
ghost use Rattle.pg_span_text.specs.Parts.{parts_in, parts_behind, parts_of};

use crate::drops::{control_before, keeps_global, last_drop, roots};
use crate::seen::{Seen, Walk, seen_of};
use pg_event::Event;
use pg_span_run::{Span, SpannedRun, event_of, span_of};
use std::alloc::{AllocError, Global};

/// The event of a processor after which a walk of it reads its entries in every order.
#[derive(Clone, Copy)]
pub struct ReadAfter {
    /// Its number.
    pub number: u32,
    /// Whether global translations of the page may stay there.
    pub keeps_global: bool,
}

/// What the cause of an event says of its walk.
#[derive(Drop)]
pub struct WalkCause {
    /// The last event of the processor before that must drop each translation of the page under
    /// the PCID of the walk that is not global, if there is one.
    pub after: Option<ReadAfter>,
    /// The entries that the walk may read since, from level 4 down.
    pub may_read: Vec<Seen>,
    /// Those of the same words that it can't, from the last level up, and of a word the last
    /// written first.
    pub cannot_read: Vec<Seen>,
}

/// The linear address whose walk an event names.
pub fn walked_address(event: &Event) -> Option<u64>
    ensures { result ≡ walked_address event.now }
{
    match *event {
        Event::Access { la, .. } | Event::Assist { la, .. } => Some(la),
        Event::Write { .. }
        | Event::MovCr3 { .. }
        | Event::Invlpg { .. }
        | Event::Invpcid { .. }
        | Event::MovCr4Pge { .. } => None,
    }
}

/// After which event a walk reads, by the number of the one that drops what it had.
fn read_after(run: &SpannedRun, p: u16, pcid: u16, la: u64, drop: Option<u32>) -> Option<ReadAfter>
    requires { ForSome drop (λ d. d < length run.now.events) }
    ensures after { result ≡ read_after run.now p pcid la drop }
    ensures within { ForSome result (λ after. after.number < length run.now.events) }
{
    let number = drop?;
    let rules = run.header().cfg.rules;
    let control = control_before(run, p, number);
    Some(ReadAfter {
        number,
        keeps_global: keeps_global(rules, control, pcid, la, event_of(run, number)),
    })
}

/// The span of an event by its number.
fn span_of_some(run: &SpannedRun, number: Option<u32>) -> Option<Span>
    requires { ForSome number (λ d. d < length run.now.events) }
    ensures { result ≡ span_of_some run.now number }
{
    match number {
        None => None,
        Some(number) => Some(span_of(run, number, event_of(run, number))),
    }
}

/// What the words hold that the walk of the asked event may read after an event.
fn seen_behind(
    alloc: Global,
    run: &SpannedRun,
    event: Span,
    la: u64,
    pcid: u16,
    drop: Option<u32>,
) -> Result<Vec<Seen>, AllocError>
    requires within { event.number < length run.now.events }
    requires drop { ForSome drop (λ d. d < event.number) }
    ensures { IfOk result (λ seen. seen.items ≡ seen_behind run.now event la pcid drop) }
{
    let start = match drop {
        None => 0,
        Some(drop) => drop + 1,
    };
    let roots = roots(alloc, run, event.p, pcid, start, event.number)?;
    let walk = Walk {
        la,
        event,
        drop: span_of_some(run, drop),
    };
    seen_of(alloc, run, walk, &roots)
}

/// Those that may be read.
fn open_ones(alloc: Global, seen: &[Seen]) -> Result<Vec<Seen>, AllocError>
    ensures { IfOk result (λ chosen. chosen.items ≡ open_ones seen.now) }
{
    seen.iter()
        .filter(|one| one.gone.is_none())
        .copied()
        .collect(alloc)
}

/// Those that can't.
fn gone_ones(alloc: Global, seen: &[Seen]) -> Result<Vec<Seen>, AllocError>
    ensures { IfOk result (λ chosen. chosen.items ≡ gone_ones seen.now) }
{
    seen.iter()
        .filter(|one| !one.gone.is_none())
        .copied()
        .collect(alloc)
}

/// What is said of the walk of the asked event after an event.
fn cause_behind(
    alloc: Global,
    run: &SpannedRun,
    event: Span,
    la: u64,
    pcid: u16,
    drop: Option<u32>,
) -> Result<WalkCause, AllocError>
    requires within { event.number < length run.now.events }
    requires drop { ForSome drop (λ d. d < event.number) }
    ensures parts { IfOk result (λ c. parts_in c ≡ parts_behind run.now event la pcid drop) }
    ensures within { IfOk result (λ c.
        ForSome c.after (λ after. after.number < length run.now.events)) }
{
    let seen = seen_behind(alloc, run, event, la, pcid, drop)?;
    let may_read = open_ones(alloc, &seen)?;
    let mut cannot_read = gone_ones(alloc, &seen)?;
    cannot_read.reverse();
    Ok(WalkCause {
        after: read_after(run, event.p, pcid, la, drop),
        may_read,
        cannot_read,
    })
}

/// What is said of the walk of the asked event after the last event that must drop what its
/// processor had.
fn cause_of_span(
    alloc: Global,
    run: &SpannedRun,
    event: Span,
    la: u64,
) -> Result<WalkCause, AllocError>
    requires { event.number < length run.now.events }
    ensures parts { IfOk result (λ c. parts_in c ≡ parts_of run.now event la) }
    ensures within { IfOk result (λ c.
        ForSome c.after (λ after. after.number < length run.now.events)) }
{
    let pcid = control_before(run, event.p, event.number).pcid;
    let drop = last_drop(run, event.p, pcid, la, event.number);
    cause_behind(alloc, run, event, la, pcid, drop)
}

/// What the cause of the event with this number says of its walk of a linear address: the parts of
/// which the lines of `cause_text` are written. It takes a few passes over the events, and one for
/// each table that the walk may come to: 65 for each level at most. Fails only when out of memory.
pub fn walk_cause(
    alloc: Global,
    run: &SpannedRun,
    number: u32,
    event: &Event,
    la: u64,
) -> Result<WalkCause, AllocError>
    requires { number < length run.now.events }
    ensures parts { IfOk result (λ c.
        parts_in c ≡ parts_of run.now (span_of run.now number event.now) la) }
    ensures within { IfOk result (λ c.
        ForSome c.after (λ after. after.number < length run.now.events)) }
{
    cause_of_span(alloc, run, span_of(run, number, event), la)
}
