//! The log that bytes are.

ghost use Rattle.std.specs.Prelude.{◌≡◌, ◌≤◌, IfOk, OnOk, length, [], ◌∷◌, ◌++◌, Err};
ghost use Rattle.pg_event.specs.declared.refusal.Refusal.{Refusal};
ghost use Rattle.pg_span_run.specs.declared.log_error.LogRefusal.TheVariants.{Field};
ghost use Rattle.pg_span_run.specs.declared.log_error.LogError.TheVariants.{Refused};
ghost use Rattle.pg_span_run.specs.LogAnswers.{Gives, Answers};
ghost use Rattle.pg_span_run.specs.Logs.{alone};
ghost use Rattle.pg_span_run.specs.LogReading.{log_header_at, stamped_at, end_at, next_at};
ghost use Rattle.pg_span_run.specs.LogReading.{events_at, log_reading};

use crate::log::{Log, LogHeader, Stamped};
use crate::log_error::{LogError, LogRefusal};
use crate::log_header::header_of;
use pg_codec::{Naming, event_of, u64_of};
use pg_event::{Header, MOST_SEGMENT, Refusal, processor_of};
use std::alloc::{AllocError, Global};
use std::cell::Cell;

/// What stands in the place of a begin stamp after the last event.
const END_MARK: u64 = u64::MAX;

/// The header of a record of the run, as far as the log tells it: all processors start as its own.
fn alone(alloc: Global, header: &LogHeader) -> Result<Header, AllocError>
    ensures { IfOk result (λ h. h ≡ alone header.now) }
{
    Ok(Header {
        version: header.version,
        cfg: header.cfg,
        segment: MOST_SEGMENT,
        processors: vec![in alloc; header.start; header.processors as usize]?,
    })
}

/// Event number `i`, after its begin stamp.
#[tactic(auto, unfolding(crate::specs::LogReading::stamped_at))]
fn stamped_of<'a>(
    header: &Header,
    own: u16,
    i: u64,
    begin: u64,
    bytes: &'a [u8],
) -> Result<(Stamped, &'a [u8]), LogRefusal>
    requires { header.now.cfg.m ≤ 52 }
    ensures { Gives (λ x. (x.0, x.1.now)) result
        (stamped_at header.now own i begin bytes.now) }
{
    let (end, rest) = match u64_of(bytes) {
        Err(refusal) => return Err(LogRefusal::Field(refusal)),
        Ok(part) => part,
    };
    if end <= begin || end == END_MARK {
        return Err(LogRefusal::Stamps { event: i });
    }
    match event_of(Naming::Bare, header, i, rest) {
        Err(refusal) => Err(LogRefusal::Field(refusal)),
        Ok((event, rest)) => {
            if processor_of(&event) != own {
                return Err(LogRefusal::Processor { event: i });
            }
            Ok((Stamped { begin, end, event }, rest))
        }
    }
}

/// The end mark, after its first field, of a log with so many events.
#[tactic(auto, unfolding(crate::specs::LogReading::end_at))]
fn end_of(total: u64, bytes: &[u8]) -> Result<(Option<Stamped>, &[u8]), LogRefusal>
    ensures { Gives (λ x. (x.0, x.1.now)) result (end_at total bytes.now) }
{
    match u64_of(bytes) {
        Err(refusal) => Err(LogRefusal::Field(refusal)),
        Ok((found, rest)) => {
            if found != total {
                return Err(LogRefusal::Field(Refusal::Total));
            }
            Ok((None, rest))
        }
    }
}

/// Event number `i`, which begins above a stamp, or none at the end mark.
#[tactic(auto, unfolding(crate::specs::LogReading::next_at))]
fn next_of<'a>(
    header: &Header,
    own: u16,
    i: u64,
    last: u64,
    bytes: &'a [u8],
) -> Result<(Option<Stamped>, &'a [u8]), LogRefusal>
    requires { header.now.cfg.m ≤ 52 }
    ensures { Gives (λ x. (x.0, x.1.now)) result
        (next_at header.now own i last bytes.now) }
{
    let (begin, rest) = match u64_of(bytes) {
        Err(refusal) => return Err(LogRefusal::Field(refusal)),
        Ok(part) => part,
    };
    if begin == END_MARK {
        return end_of(i, rest);
    }
    if begin <= last {
        return Err(LogRefusal::Stamps { event: i });
    }
    match stamped_of(header, own, i, begin, rest) {
        Err(refusal) => Err(refusal),
        Ok((event, rest)) => Ok((Some(event), rest)),
    }
}

/// Adds an event.
fn push(events: &mut Vec<Stamped>, event: &Stamped) -> Result<(), AllocError>
    ensures { OnOk result (events.new.items ≡ events.old.items ++ event.now ∷ []) }
{
    events.extend_from_slice(&[*event])
}

/// The events up to the end mark. Each has more than one byte, so that there are fewer than bytes.
/// `unread` is told how many bytes are left where each begins.
fn events_of<'a>(
    alloc: Global,
    header: &Header,
    own: u16,
    bytes: &'a [u8],
    unread: &Cell<usize>,
) -> Result<(Vec<Stamped>, &'a [u8]), LogError>
    requires { header.now.cfg.m ≤ 52 }
    ensures { Answers (λ x. (x.0.items, x.1.now)) result
        (events_at (length bytes.now) header.now own 0 0 bytes.now) }
{
    let mut events = Vec::new(alloc);
    let mut last = 0;
    let mut rest = bytes;
    for i in 0..bytes.len() {
        unread.set(rest.len());
        match next_of(header, own, i as u64, last, rest) {
            Err(refusal) => return Err(LogError::Refused(refusal)),
            Ok((next, after)) => match next {
                None => return Ok((events, after)),
                Some(event) => {
                    push(&mut events, &event)?;
                    last = event.end;
                    rest = after;
                }
            },
        }
    }
    Err(LogError::Refused(LogRefusal::Field(Refusal::Truncated)))
}

/// Reads the bytes of a whole log. Fails with the first refusal from left to right where they are
/// no log, which no log without its end mark is, or where memory is refused.
///
/// Where the bytes are refused, `unread` is told how many of them are left where the part begins
/// that is refused: the header, an event, the end mark, or what follows it. No clause says
/// this.
#[tactic(auto, unfolding(crate::specs::LogReading::log_reading))]
pub fn read_log(alloc: Global, bytes: &[u8], unread: &Cell<usize>) -> Result<Log, LogError>
    ensures log { Answers (λ log. log) result (log_reading bytes.now) }
    ensures early { (e : Refusal) → log_header_at bytes.now ≡ Err e →
        result ≡ Err (Refused (Field e)) }
{
    unread.set(bytes.len());
    let (header, rest) = match header_of(bytes) {
        Err(refusal) => return Err(LogError::Refused(LogRefusal::Field(refusal))),
        Ok(front) => front,
    };
    let run = alone(alloc, &header)?;
    let (events, rest) = events_of(alloc, &run, header.own, rest, unread)?;
    unread.set(rest.len());
    if rest.len() > 0 {
        return Err(LogError::Refused(LogRefusal::Field(Refusal::Trailing)));
    }
    Ok(Log::new(header, events))
}
