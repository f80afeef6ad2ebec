//! When a processor has a PCID.

ghost use Rattle.std.specs.Prelude.{◌≡◌, ◌<◌, ◌≤◌, ◌^◌, ℕ, length, IfOk};
ghost use Rattle.pg_reach.specs.Stays.{AreSpans, AreOwn, ArePcids, IsLatest, AreInOrder};
ghost use Rattle.pg_reach.specs.Stays.{IsCountTo};

use pg_event::Control;
use pg_search::Seen;
use pg_timeline::Span;
use std::alloc::{AllocError, Global};

/// The control registers of a processor at the moments from one up to another.
pub(crate) fn spans_of(
    alloc: Global,
    seen: &Seen<'_>,
    p: u16,
    low: u32,
    number: u32,
) -> Result<Vec<Span<Control>>, AllocError>
    requires { p < length seen.now.head.processors }
    ensures { IfOk result (λ spans. AreSpans seen.now p low number spans.items) }
{
    let mut spans = Vec::new(alloc);
    let mut at = low;
    while at <= number {
        let span = seen.control_span(p, at);
        let to = span.to.min(number);
        spans.push(Span {
            from: at,
            to,
            value: span.value,
        })?;
        match to.checked_add(1) {
            Some(next) => at = next,
            None => return Ok(spans),
        }
    }
    Ok(spans)
}

/// The spans at which the processor has the PCID.
pub(crate) fn stays_of(
    alloc: Global,
    spans: &[Span<Control>],
    pcid: u16,
) -> Result<Vec<Span<Control>>, AllocError>
    requires { AreInOrder spans.now }
    ensures { IfOk result (λ stays. AreOwn pcid spans.now stays.items) }
{
    let mut stays = Vec::new(alloc);
    for span in spans {
        if span.value.pcid == pcid {
            stays.push(*span)?;
        }
    }
    Ok(stays)
}

/// The PCIDs that the processor has in some spans.
pub(crate) fn pcids_of(alloc: Global, spans: &[Span<Control>]) -> Result<Vec<u16>, AllocError>
    ensures { IfOk result (λ pcids. ArePcids spans.now pcids.items) }
{
    let mut pcids = Vec::new(alloc);
    for span in spans {
        if !pcids.contains(&span.value.pcid) {
            pcids.push(span.value.pcid)?;
        }
    }
    Ok(pcids)
}

/// How many of some spans begin no later than a moment, by halving.
fn count_to(spans: &[Span<Control>], moment: u32) -> usize
    requires { AreInOrder spans.now }
    ensures { IsCountTo spans.now moment result }
{
    let (mut low, mut high) = (0, spans.len());
    while low < high {
        let middle = low + (high - low) / 2;
        if spans[middle].from <= moment {
            low = middle + 1;
        } else {
            high = middle;
        }
    }
    low
}

/// The latest moment of some spans, from one moment up to another.
pub(crate) fn latest_of(spans: &[Span<Control>], at: u32, to: u32) -> Option<u32>
    requires order { AreInOrder spans.now }
    requires moments { at ≤ to }
    ensures { IsLatest spans.now at to result }
{
    let count = count_to(spans, to);
    if count == 0 {
        return None;
    }
    let moment = spans[count - 1].to.min(to);
    if at <= moment { Some(moment) } else { None }
}
