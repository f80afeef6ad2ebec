//! The parts of a header at the front of a slice.

ghost use Rattle.std.specs.Prelude.{◌≡◌, ◌≤◌, ◌<◌, ◌^◌, length, IfOk};
ghost use Rattle.pg_event.specs.Reading.{magic_at, version_at, start_at};
ghost use Rattle.pg_codec.specs.Reads.{Gives};
ghost use Rattle.pg_codec.specs.Parts.{cfg_at, IsCfg, settings_behind, settings_at, AreSettings};
ghost use Rattle.pg_codec.specs.Parts.{version_said, is_two};

use crate::fields::{byte_of, processor_number, u16_of, u32_of, u64_of};
use crate::settings::Settings;
use pg_entry::{Cfg, CfgFlags, Rules};
use pg_event::{
    LEAST_MAXPHYADDR, MOST_MAXPHYADDR, MOST_SEGMENT, Refusal, Version, most_processors,
};

/// The magic of a record.
#[tactic(auto, unfolding(pg_event::specs::Reading::magic_at))]
pub fn magic_of(bytes: &[u8]) -> Result<(&[u8], &[u8]), Refusal>
    ensures { Gives (λ x. (x.0.now, x.1.now)) result (magic_at bytes.now) }
{
    if bytes.len() < 8 {
        return Err(Refusal::Truncated);
    }
    let (front, rest) = bytes.split_at(8);
    if front != b"PGRECORD".as_slice() {
        return Err(Refusal::Magic);
    }
    Ok((front, rest))
}

/// The version, by its number in a record without spans and in a log.
#[tactic(auto, unfolding(pg_event::specs::Reading::version_at))]
pub fn version_of(bytes: &[u8]) -> Result<(Version, &[u8]), Refusal>
    ensures { Gives (λ x. (x.0, x.1.now)) result (version_at bytes.now) }
{
    let (number, rest) = u16_of(bytes)?;
    match number {
        1 => Ok((Version::One, rest)),
        2 => Ok((Version::Two, rest)),
        _ => Err(Refusal::Version),
    }
}

/// Whether the bytes are those of a version 2 record, as far as its version field.
pub(crate) fn says_two(bytes: &[u8]) -> bool
    ensures { result ≡ is_two (version_said bytes.now) }
{
    match magic_of(bytes) {
        Ok((_, rest)) => matches!(version_of(rest), Ok((Version::Two, _))),
        Err(_) => false,
    }
}

/// The settings of the processors: MAXPHYADDR, and then the flags.
#[tactic(auto, unfolding(crate::specs::Parts::cfg_at))]
pub fn cfg_of(bytes: &[u8]) -> Result<(Cfg, &[u8]), Refusal>
    ensures value { Gives (λ x. (x.0, x.1.now)) result (cfg_at bytes.now) }
    ensures bounds { IfOk result (λ x. IsCfg x.0) }
{
    let (maxphyaddr, rest) = byte_of(bytes)?;
    if maxphyaddr < LEAST_MAXPHYADDR || maxphyaddr > MOST_MAXPHYADDR {
        return Err(Refusal::HeaderField);
    }
    let (flags, rest) = byte_of(rest)?;
    if flags >= 16 {
        return Err(Refusal::HeaderField);
    }
    let flags = CfgFlags(flags);
    let cfg = Cfg {
        flags,
        m: maxphyaddr,
        rules: Rules::ALL,
    };
    Ok((cfg, rest))
}

/// A header after its version, up to its processors.
#[tactic(auto, unfolding(crate::specs::Parts::settings_behind))]
pub fn settings_after(version: Version, bytes: &[u8]) -> Result<(Settings, &[u8]), Refusal>
    ensures value { Gives (λ x. (x.0, x.1.now)) result (settings_behind version bytes.now) }
    ensures bounds { IfOk result (λ x. AreSettings x.0) }
{
    let (cfg, rest) = cfg_of(bytes)?;
    let (count, rest) = processor_number(version, rest)?;
    if count < 1 || count as usize > most_processors(version) {
        return Err(Refusal::HeaderField);
    }
    let (segment, rest) = u32_of(rest)?;
    if segment < 1 || segment > MOST_SEGMENT {
        return Err(Refusal::HeaderField);
    }
    let settings = Settings {
        version,
        cfg,
        count,
        segment,
    };
    Ok((settings, rest))
}

/// A header up to its processors.
#[tactic(auto, unfolding(crate::specs::Parts::settings_at))]
pub(crate) fn settings_of(bytes: &[u8]) -> Result<(Settings, &[u8]), Refusal>
    ensures value { Gives (λ x. (x.0, x.1.now)) result (settings_at bytes.now) }
    ensures bounds { IfOk result (λ x. AreSettings x.0) }
{
    let (_, rest) = magic_of(bytes)?;
    let (version, rest) = version_of(rest)?;
    settings_after(version, rest)
}

/// The CR3 of a processor at the start, which has to be below 2 to the power of MAXPHYADDR, and
/// whether it has global pages.
#[tactic(auto, unfolding(pg_event::specs::Reading::start_at))]
pub fn start_of(maxphyaddr: u8, bytes: &[u8]) -> Result<((u64, bool), &[u8]), Refusal>
    requires { maxphyaddr ≤ 52 }
    ensures value { Gives (λ x. (x.0, x.1.now)) result (start_at maxphyaddr bytes.now) }
    ensures cr3 { IfOk result (λ x. x.0.0 < 2 ^ maxphyaddr) }
{
    let (cr3, rest) = u64_of(bytes)?;
    if cr3 >= 1 << maxphyaddr {
        return Err(Refusal::HeaderField);
    }
    let (pge, rest) = byte_of(rest)?;
    if pge >= 2 {
        return Err(Refusal::HeaderField);
    }
    Ok(((cr3, pge == 1), rest))
}
