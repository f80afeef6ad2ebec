//! Events with their spans at the front of a slice.

ghost use Rattle.pg_codec.specs.Reads.{Gives};
ghost use Rattle.pg_span_run.specs.Reading.{timed_at};

use pg_codec::{Naming, byte_of, fields_of, last_tag, processor_number, u32_of};
use pg_event::{Event, Refusal, Version};

/// An event, and how many of those before it had not yet ended when it began. It is not yet judged.
#[tactic(auto, unfolding(crate::specs::Reading::timed_at))]
pub(crate) fn timed_of(version: Version, bytes: &[u8]) -> Result<((Event, u32), &[u8]), Refusal>
    ensures { Gives (λ x. (x.0, x.1.now)) result (timed_at version bytes.now) }
{
    let (tag, rest) = byte_of(bytes)?;
    if tag < 0x10 || tag > last_tag(version) {
        return Err(Refusal::Tag);
    }
    let (p, rest) = processor_number(version, rest)?;
    let (back, rest) = u32_of(rest)?;
    match fields_of(Naming::Bare, tag, p, rest) {
        Err(refusal) => Err(refusal),
        Ok((event, rest)) => Ok(((event, back), rest)),
    }
}
