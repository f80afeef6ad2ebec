//! Records with spans, from all of their bytes.

ghost use Rattle.std.specs.Prelude.{◌≡◌, ◌==◌, ◌+◌, ◌^◌, ◌<◌, length, true, IfOk};
ghost use Rattle.pg_codec.specs.Reads.{Gives};
ghost use Rattle.pg_span_run.specs.Answers.{Answers};
ghost use Rattle.pg_span_run.specs.Reading.{plain, next_event_at, next_events_at};
ghost use Rattle.pg_span_run.specs.Reading.{next_segment_at, total_at, tag_at, next_segments_at};
ghost use Rattle.pg_span_run.specs.Reading.{spanned_reading};

use crate::error::SpannedError;
use crate::header::header_of;
use crate::refusal::SpannedRefusal;
use crate::spanned::SpannedRun;
use crate::timed::timed_of;
use pg_codec::{byte_of, u32_of};
use pg_event::{Refusal, well_formed};
use std::alloc::Global;
use std::cell::Cell;

/// Reads the event after those of the run. The least rule that it breaks is told. `unread` is told
/// how many bytes are left where the event begins.
#[tactic(auto, unfolding(crate::specs::Reading::next_event_at))]
fn read_event<'a>(
    run: &mut SpannedRun,
    bytes: &'a [u8],
    unread: &Cell<usize>,
) -> Result<&'a [u8], SpannedError>
    requires { length run.old.events + 1 < 2 ^ 32 }
    ensures answers { Answers (λ rest. (run.new, rest.now)) result
        (next_event_at run.old bytes.now) }
    ensures head { run.new.head ≡ run.old.head }
    ensures one { IfOk result (λ _. length run.new.events ≡ length run.old.events + 1) }
{
    unread.set(bytes.len());
    let (event, back, rest) = match timed_of(run.header().version, bytes) {
        Err(refusal) => return Err(SpannedError::from(refusal)),
        Ok(((event, back), rest)) => (event, back, rest),
    };
    let number = run.len() as u64;
    if let Err(rule) = well_formed(run.header(), &event) {
        return Err(SpannedError::from(Refusal::Malformed {
            event: number,
            rule,
        }));
    }
    if back as u64 > number {
        return Err(SpannedError::Refused(SpannedRefusal::Back { event: number }));
    }
    run.push(&event, back)?;
    Ok(rest)
}

/// Reads so many events.
#[tactic(auto, unfolding(crate::specs::Reading::next_events_at))]
fn read_events<'a>(
    run: &mut SpannedRun,
    count: u32,
    bytes: &'a [u8],
    unread: &Cell<usize>,
) -> Result<&'a [u8], SpannedError>
    requires { length run.old.events + count < 2 ^ 32 }
    ensures answers { Answers (λ rest. (run.new, rest.now)) result
        (next_events_at count run.old bytes.now) }
    ensures head { run.new.head ≡ run.old.head }
{
    let mut rest = bytes;
    for _ in 0..count {
        rest = read_event(run, rest, unread)?;
    }
    Ok(rest)
}

/// Reads a segment after its tag, with the number that it must have.
#[tactic(auto, unfolding(crate::specs::Reading::next_segment_at))]
fn read_segment<'a>(
    run: &mut SpannedRun,
    number: usize,
    bytes: &'a [u8],
    unread: &Cell<usize>,
) -> Result<&'a [u8], SpannedError>
    ensures answers { Answers (λ rest. (run.new, rest.now)) result
        (next_segment_at run.old number bytes.now) }
    ensures head { run.new.head ≡ run.old.head }
{
    let (found, rest) = u32_of(bytes)?;
    if found as usize != number {
        return Err(SpannedError::from(Refusal::SegmentNumber));
    }
    let (count, rest) = u32_of(rest)?;
    if count < 1 || count > run.header().segment || count > u32::MAX - run.len() as u32 {
        return Err(SpannedError::from(Refusal::SegmentCount));
    }
    read_events(run, count, rest, unread)
}

/// Reads the end mark after its tag.
#[tactic(auto, unfolding(crate::specs::Reading::total_at))]
fn read_total<'a>(run: &SpannedRun, bytes: &'a [u8]) -> Result<&'a [u8], SpannedError>
    ensures { Answers (λ rest. (run.now, rest.now)) result (total_at run.now bytes.now) }
{
    let (total, rest) = u32_of(bytes)?;
    if total as usize != run.len() {
        return Err(SpannedError::from(Refusal::Total));
    }
    Ok(rest)
}

/// The tag of a segment or of the end mark.
fn tag_of(bytes: &[u8]) -> Result<(u8, &[u8]), Refusal>
    ensures { Gives (λ x. (x.0, x.1.now)) result (tag_at bytes.now) }
{
    let (tag, rest) = byte_of(bytes)?;
    if tag != 1 && tag != 2 {
        return Err(Refusal::Tag);
    }
    Ok((tag, rest))
}

/// Whether the segment was full that the run has after so many events.
fn is_full(run: &SpannedRun, before: usize) -> bool
    requires { before < 2 ^ 32 }
    ensures { result ≡ (length run.now.events == before + run.now.head.segment) }
{
    run.len() == before + run.header().segment as usize
}

/// Reads the segments up to the end mark. Each has a byte at least. `unread` is told how many bytes
/// are left where each begins, and each event.
#[tactic(auto, unfolding(crate::specs::Reading::next_segments_at))]
fn read_segments<'a>(
    run: &mut SpannedRun,
    bytes: &'a [u8],
    unread: &Cell<usize>,
) -> Result<&'a [u8], SpannedError>
    ensures { Answers (λ rest. (run.new, rest.now)) result
        (next_segments_at (length bytes.now) run.old 0 true bytes.now) }
{
    let mut rest = bytes;
    let mut full = true;
    for number in 0..bytes.len() {
        unread.set(rest.len());
        let (tag, behind) = tag_of(rest)?;
        if tag == 2 {
            return read_total(run, behind);
        }
        if !full {
            return Err(SpannedError::Refused(SpannedRefusal::Plain(Refusal::SegmentCount)));
        }
        let before = run.len();
        rest = read_segment(run, number, behind, unread)?;
        full = is_full(run, before);
    }
    Err(SpannedError::Refused(SpannedRefusal::Plain(Refusal::Truncated)))
}

/// The run that all of the bytes spell as a record of version 3 or 4, or their first refusal.
/// Memory is taken as events are read, and not as a field promises. The events of version 3 are
/// those of version 1 and the events of version 4 are those of version 2, and so says the run's
/// header. An access or an assist has one moment in the run, 0, which stands for none.
///
/// Where the bytes are refused, `unread` is told how many of them are left where the part begins
/// that is refused: the header, a segment, an event, the end mark, or what follows it. No
/// clause says this.
#[tactic(auto, unfolding(crate::specs::Reading::spanned_reading))]
pub fn read_spanned(
    alloc: Global,
    bytes: &[u8],
    unread: &Cell<usize>,
) -> Result<SpannedRun, SpannedError>
    ensures { Answers (λ run. run) result (spanned_reading bytes.now) }
{
    unread.set(bytes.len());
    let (header, rest) = header_of(alloc, bytes)?;
    let mut run = SpannedRun::new(alloc, header);
    let rest = read_segments(&mut run, rest, unread)?;
    unread.set(rest.len());
    if !rest.is_empty() {
        return Err(SpannedError::from(Refusal::Trailing));
    }
    Ok(run)
}
