//! Headers at the front of a slice.

ghost use Rattle.std.specs.Prelude.{◌≡◌, ◌≤◌, ◌<◌, ◌^◌, length, IfOk};
ghost use Rattle.std.specs.List.{AllByRecursion};
ghost use Rattle.pg_event.specs.Spelling.{IsHead};
ghost use Rattle.pg_event.specs.Reading.{starts_at};
ghost use Rattle.pg_codec.specs.Reads.{Gives};
ghost use Rattle.pg_span_run.specs.Answers.{Answers};
ghost use Rattle.pg_span_run.specs.Reading.{plain, spans_version_at, spans_front_at};
ghost use Rattle.pg_span_run.specs.Reading.{header_behind, spans_header_at};
ghost use Rattle.pg_span_run.specs.Versions.{says_spans};

use crate::error::SpannedError;
use pg_codec::{magic_of, settings_after, start_of, u16_of};
use pg_event::{Header, Refusal, Version};
use std::alloc::Global;

#[tactic(auto, unfolding(crate::specs::Reading::spans_version_at))]
fn version_of(bytes: &[u8]) -> Result<(Version, &[u8]), Refusal>
    ensures { Gives (λ x. (x.0, x.1.now)) result (spans_version_at bytes.now) }
{
    let (number, rest) = u16_of(bytes)?;
    match number {
        3 => Ok((Version::One, rest)),
        4 => Ok((Version::Two, rest)),
        _ => Err(Refusal::Version),
    }
}

/// The magic and the version.
#[tactic(auto, unfolding(crate::specs::Reading::spans_front_at))]
fn front_of(bytes: &[u8]) -> Result<(Version, &[u8]), Refusal>
    ensures { Gives (λ x. (x.0, x.1.now)) result (spans_front_at bytes.now) }
{
    let (_, rest) = magic_of(bytes)?;
    version_of(rest)
}

/// Whether the bytes are those of a record of version 3 or 4, as far as its version field.
pub(crate) fn says_spans(bytes: &[u8]) -> bool
    ensures { result ≡ says_spans bytes.now }
{
    front_of(bytes).is_ok()
}

fn starts_of<'a>(
    alloc: Global,
    maxphyaddr: u8,
    count: u16,
    bytes: &'a [u8],
) -> Result<(Vec<(u64, bool)>, &'a [u8]), SpannedError>
    requires { maxphyaddr ≤ 52 }
    ensures value { Answers (λ x. (x.0.items, x.1.now)) result
        (plain (starts_at maxphyaddr count bytes.now)) }
    ensures starts { IfOk result (λ x. AllByRecursion (λ s. s.0 < 2 ^ maxphyaddr) x.0.items) }
    ensures count { IfOk result (λ x. length x.0.items ≡ count) }
{
    let mut starts = Vec::with_capacity(alloc, count as usize)?;
    let mut rest = bytes;
    for _ in 0..count {
        let (start, behind) = start_of(maxphyaddr, rest)?;
        starts.push(start)?;
        rest = behind;
    }
    Ok((starts, rest))
}

/// A header after its version.
#[tactic(auto, unfolding(crate::specs::Reading::header_behind))]
fn header_after<'a>(
    alloc: Global,
    version: Version,
    bytes: &'a [u8],
) -> Result<(Header, &'a [u8]), SpannedError>
    ensures value { Answers (λ x. (x.0, x.1.now)) result
        (plain (header_behind version bytes.now)) }
    ensures head { IfOk result (λ x. IsHead x.0) }
{
    let (settings, rest) = settings_after(version, bytes)?;
    let (processors, rest) = starts_of(alloc, settings.cfg.m, settings.count, rest)?;
    Ok((
        Header {
            version: settings.version,
            cfg: settings.cfg,
            segment: settings.segment,
            processors,
        },
        rest,
    ))
}

#[tactic(auto, unfolding(crate::specs::Reading::spans_header_at))]
pub(crate) fn header_of<'a>(
    alloc: Global,
    bytes: &'a [u8],
) -> Result<(Header, &'a [u8]), SpannedError>
    ensures value { Answers (λ x. (x.0, x.1.now)) result (plain (spans_header_at bytes.now)) }
    ensures head { IfOk result (λ x. IsHead x.0) }
{
    let (version, rest) = front_of(bytes)?;
    header_after(alloc, version, rest)
}
