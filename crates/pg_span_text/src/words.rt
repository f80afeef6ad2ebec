//! The writes to a word, and which of them are overwritten.

ghost use Rattle.std.specs.Prelude.{◌≡◌, ◌++◌, ◌<◌, IfOk, OnOk, length};
ghost use Rattle.pg_span_text.specs.Words.{write_of, writes_of, overwrites, overwriter};
ghost use Rattle.pg_span_text.specs.Words.{is_any_before};

use pg_event::Event;
use pg_span_run::{Span, SpannedRun, precedes, span_of};
use std::alloc::{AllocError, Global};

/// A write to a word.
#[derive(Clone, Copy)]
pub(crate) struct Written {
    pub span: Span,
    pub value: u64,
}

/// Appends the write of an event to a word, if it is one that need not come after the asked event.
fn put_write(
    writes: &mut Vec<Written>,
    run: &SpannedRun,
    asked: Span,
    address: u64,
    number: u32,
    event: &Event,
) -> Result<(), AllocError>
    requires { number < length run.now.events }
    ensures { OnOk result (writes.new.items
        ≡ writes.old.items ++ write_of run.now asked address number event.now) }
{
    let span = span_of(run, number, event);
    match *event {
        Event::Write { addr, value, .. } => {
            if addr == address && !precedes(asked, span) {
                writes.push(Written { span, value })?;
            }
            Ok(())
        }
        Event::Access { .. }
        | Event::Assist { .. }
        | Event::MovCr3 { .. }
        | Event::Invlpg { .. }
        | Event::Invpcid { .. }
        | Event::MovCr4Pge { .. } => Ok(()),
    }
}

/// The writes to a word that need not come after the asked event, as they ended. It takes one pass
/// over the events.
pub(crate) fn writes_of(
    alloc: Global,
    run: &SpannedRun,
    asked: Span,
    address: u64,
) -> Result<Vec<Written>, AllocError>
    ensures { IfOk result (λ writes. writes.items ≡ writes_of run.now asked address) }
{
    let events = run.events();
    let mut writes = Vec::new(alloc);
    for (i, event) in events.iter().enumerate() {
        put_write(&mut writes, run, asked, address, i as u32, event)?;
    }
    Ok(writes)
}

/// Whether a write comes after another and before an event in every order.
fn overwrites(first: Span, span: Span, bound: Span) -> bool
    ensures { result ≡ overwrites first span bound }
{
    precedes(first, span) && precedes(span, bound)
}

/// The number of the first of these writes that comes after a write and before an event in every
/// order.
pub(crate) fn overwriter(writes: &[Written], first: Span, bound: Span) -> Option<u32>
    ensures { result ≡ overwriter writes.now first bound }
{
    for written in writes {
        if overwrites(first, written.span, bound) {
            return Some(written.span.number);
        }
    }
    None
}

/// Whether one of these writes comes before an event in every order.
pub(crate) fn is_any_before(writes: &[Written], bound: Span) -> bool
    ensures { result ≡ is_any_before writes.now bound }
{
    writes.iter().any(|written| precedes(written.span, bound))
}
