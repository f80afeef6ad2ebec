//! When how far something has come is told, and in which words.

ghost use Rattle.std.specs.Prelude.{◌<◌, ◌≤◌, ◌/◌, ◌↔◌, IsTrue, IfSome};

use crate::counter::Counter;
use itoa::Buffer;
use pg_codec::{Failed, Sink, put_all};

/// A run is told of at each so many events.
const EVENTS: u64 = 1_000_000;

/// Whether a run is told of where there were so many events, and are so many now.
pub(crate) fn is_due(before: u64, events: u64) -> bool
    ensures { IsTrue result ↔ before / 1000000 < events / 1000000 }
{
    before / EVENTS < events / EVENTS
}

/// How many percent so many bytes are of so many, if that is known.
fn percent(bytes: u64, size: Option<u64>) -> Option<u64>
    ensures { IfSome result (λ p. p ≤ 100) }
{
    match size {
        Some(size) if size > 0 => Some((bytes.saturating_mul(100) / size).min(100)),
        _ => None,
    }
}

/// Writes so many events, and so many of something else.
fn put_counts<E: Sink>(
    errors: &mut E,
    events: u64,
    others: u64,
    unit: &[u8],
) -> Result<(), Failed> {
    let mut buffer = Buffer::new();
    put_all(errors, b"pcid-audit: ")?;
    put_all(errors, buffer.format(events).as_bytes())?;
    put_all(errors, b" events, ")?;
    put_all(errors, buffer.format(others).as_bytes())?;
    put_all(errors, b" ")?;
    put_all(errors, unit)
}

/// Writes the line of a run of so many events and segments.
pub(crate) fn put_line<E: Sink>(errors: &mut E, events: u64, segments: u64) -> Result<(), Failed> {
    put_counts(errors, events, segments, b"segments")?;
    put_all(errors, b"\n")
}

/// Writes the line of a record of which so much was read, of so many bytes if that is known.
pub(crate) fn put_read<E: Sink>(
    errors: &mut E,
    counter: &Counter,
    size: Option<u64>,
) -> Result<(), Failed> {
    put_counts(errors, counter.events(), counter.bytes(), b"bytes")?;
    if let Some(percent) = percent(counter.bytes(), size) {
        let mut buffer = Buffer::new();
        put_all(errors, b", ")?;
        put_all(errors, buffer.format(percent).as_bytes())?;
        put_all(errors, b" %")?;
    }
    put_all(errors, b"\n")
}
