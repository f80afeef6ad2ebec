//! The header of a log at the front of a slice.

ghost use Rattle.std.specs.Prelude.{◌≡◌, IfOk};
ghost use Rattle.pg_codec.specs.Reads.{Gives};
ghost use Rattle.pg_span_run.specs.Logs.{AreLogSettings};
ghost use Rattle.pg_span_run.specs.LogReading.{log_magic_at, log_header_at};

use crate::log::LogHeader;
use pg_codec::{cfg_of, start_of, u16_of, version_of};
use pg_event::{Refusal, most_processors};

#[tactic(auto, unfolding(crate::specs::LogReading::log_magic_at))]
fn magic_of(bytes: &[u8]) -> Result<(&[u8], &[u8]), Refusal>
    ensures { Gives (λ x. (x.0.now, x.1.now)) result (log_magic_at bytes.now) }
{
    if bytes.len() < 8 {
        return Err(Refusal::Truncated);
    }
    let (front, rest) = bytes.split_at(8);
    if front != b"PGCPULOG".as_slice() {
        return Err(Refusal::Magic);
    }
    Ok((front, rest))
}

#[tactic(auto, unfolding(crate::specs::LogReading::log_header_at))]
pub(crate) fn header_of(bytes: &[u8]) -> Result<(LogHeader, &[u8]), Refusal>
    ensures value { Gives (λ x. (x.0, x.1.now)) result (log_header_at bytes.now) }
    ensures bounds { IfOk result (λ x. AreLogSettings x.0) }
{
    let (_, rest) = magic_of(bytes)?;
    let (version, rest) = version_of(rest)?;
    let (cfg, rest) = cfg_of(rest)?;
    let (processors, rest) = u16_of(rest)?;
    if processors < 1 || processors as usize > most_processors(version) {
        return Err(Refusal::HeaderField);
    }
    let (own, rest) = u16_of(rest)?;
    if own >= processors {
        return Err(Refusal::HeaderField);
    }
    let (start, rest) = start_of(cfg.m, rest)?;
    let header = LogHeader {
        version,
        cfg,
        processors,
        own,
        start,
    };
    Ok((header, rest))
}
