//! Events at the front of a slice.

ghost use Rattle.std.specs.Prelude.{◌≡◌, ◌≤◌, ◌<◌, None, IfOk, IfNone, vec_len, vec_capacity};
ghost use Rattle.pg_event.specs.Form.{broken_rule};
ghost use Rattle.pg_event.specs.Reading.{write_at, mov_cr3_at, invlpg_at, invpcid_at};
ghost use Rattle.pg_event.specs.Reading.{mov_cr4_pge_at, fields_at, last_tag, event_at};
ghost use Rattle.pg_codec.specs.Reads.{Gives, Adds, judged, seen};
ghost use Rattle.pg_codec.specs.Bare.{moments_in, access_in, assist_in, fields_in, event_in};

use crate::fields::{byte_of, moments_of, outcome_of, processor_number, u16_of, u64_of};
use crate::naming::Naming;
use pg_event::{Event, Header, Moments, Refusal, Version, well_formed};

#[inline(always)]
#[tactic(auto, unfolding(pg_event::specs::Reading::write_at))]
fn write_of(p: u16, bytes: &[u8]) -> Result<(Event, &[u8]), Refusal>
    ensures { Gives (λ x. (x.0, x.1.now)) result (write_at p bytes.now) }
{
    let (addr, rest) = u64_of(bytes)?;
    let (value, rest) = u64_of(rest)?;
    Ok((Event::Write { p, addr, value }, rest))
}

/// The moments after the other fields, where they are named.
#[inline(always)]
fn moments_after(naming: Naming, bytes: &[u8]) -> Result<(Moments, &[u8]), Refusal>
    ensures { Gives (λ x. (x.0, x.1.now)) result (moments_in naming bytes.now) }
{
    match naming {
        Naming::Named => moments_of(bytes),
        Naming::Bare => Ok((Moments::first(0), bytes)),
    }
}

#[inline(always)]
#[tactic(auto, unfolding(crate::specs::Bare::access_in))]
fn access_of(naming: Naming, p: u16, bytes: &[u8]) -> Result<(Event, &[u8]), Refusal>
    ensures { Gives (λ x. (x.0, x.1.now)) result (access_in naming p bytes.now) }
{
    let (flags, rest) = byte_of(bytes)?;
    let (la, rest) = u64_of(rest)?;
    let (outcome, rest) = outcome_of(rest)?;
    match moments_after(naming, rest) {
        Err(refusal) => Err(refusal),
        Ok((moments, rest)) => Ok((
            Event::Access {
                p,
                flags,
                la,
                outcome,
                moments,
            },
            rest,
        )),
    }
}

#[inline(always)]
#[tactic(auto, unfolding(pg_event::specs::Reading::mov_cr3_at))]
fn mov_cr3_of(p: u16, bytes: &[u8]) -> Result<(Event, &[u8]), Refusal>
    ensures { Gives (λ x. (x.0, x.1.now)) result (mov_cr3_at p bytes.now) }
{
    let (operand, rest) = u64_of(bytes)?;
    Ok((Event::MovCr3 { p, operand }, rest))
}

#[inline(always)]
#[tactic(auto, unfolding(pg_event::specs::Reading::invlpg_at))]
fn invlpg_of(p: u16, bytes: &[u8]) -> Result<(Event, &[u8]), Refusal>
    ensures { Gives (λ x. (x.0, x.1.now)) result (invlpg_at p bytes.now) }
{
    let (la, rest) = u64_of(bytes)?;
    Ok((Event::Invlpg { p, la }, rest))
}

#[inline(always)]
#[tactic(auto, unfolding(pg_event::specs::Reading::invpcid_at))]
fn invpcid_of(p: u16, bytes: &[u8]) -> Result<(Event, &[u8]), Refusal>
    ensures { Gives (λ x. (x.0, x.1.now)) result (invpcid_at p bytes.now) }
{
    let (kind, rest) = byte_of(bytes)?;
    let (pcid, rest) = u16_of(rest)?;
    let (la, rest) = u64_of(rest)?;
    Ok((Event::Invpcid { p, kind, pcid, la }, rest))
}

#[inline(always)]
#[tactic(auto, unfolding(pg_event::specs::Reading::mov_cr4_pge_at))]
fn mov_cr4_pge_of(p: u16, bytes: &[u8]) -> Result<(Event, &[u8]), Refusal>
    ensures { Gives (λ x. (x.0, x.1.now)) result (mov_cr4_pge_at p bytes.now) }
{
    let (on, rest) = byte_of(bytes)?;
    if on >= 2 {
        return Err(Refusal::Tag);
    }
    Ok((Event::MovCr4Pge { p, on: on == 1 }, rest))
}

#[inline(always)]
#[tactic(auto, unfolding(crate::specs::Bare::assist_in))]
fn assist_of(naming: Naming, p: u16, bytes: &[u8]) -> Result<(Event, &[u8]), Refusal>
    ensures { Gives (λ x. (x.0, x.1.now)) result (assist_in naming p bytes.now) }
{
    let (flags, rest) = byte_of(bytes)?;
    let (la, rest) = u64_of(rest)?;
    let (word, rest) = u64_of(rest)?;
    match moments_after(naming, rest) {
        Err(refusal) => Err(refusal),
        Ok((moments, rest)) => Ok((
            Event::Assist {
                p,
                flags,
                la,
                word,
                moments,
            },
            rest,
        )),
    }
}

/// The event at the front of the bytes, which begin after its tag and processor, and the bytes
/// behind it; or the refusal of its first field that is cut or fails its check.
#[tactic(auto, unfolding(crate::specs::Bare::fields_in, pg_event::specs::Reading::fields_at))]
pub fn fields_of(naming: Naming, tag: u8, p: u16, bytes: &[u8]) -> Result<(Event, &[u8]), Refusal>
    requires low { 0x10 ≤ tag }
    requires high { tag ≤ 0x16 }
    ensures { Gives (λ x. (x.0, x.1.now)) result (fields_in naming tag p bytes.now) }
{
    match tag {
        0x10 => write_of(p, bytes),
        0x11 => access_of(naming, p, bytes),
        0x12 => mov_cr3_of(p, bytes),
        0x13 => invlpg_of(p, bytes),
        0x14 => invpcid_of(p, bytes),
        0x15 => mov_cr4_pge_of(p, bytes),
        _ => assist_of(naming, p, bytes),
    }
}

/// The greatest tag of an event: only version 2 has assists.
pub fn last_tag(version: Version) -> u8
    ensures value { result ≡ last_tag version }
    ensures bound { result ≤ 0x16 }
{
    match version {
        Version::One => 0x15,
        Version::Two => 0x16,
    }
}

/// Event number `i` at the front of the bytes, which has to be well formed, and the bytes behind
/// it; or its first refusal.
#[tactic(auto, unfolding(crate::specs::Bare::event_in))]
pub fn event_of<'a>(
    naming: Naming,
    header: &Header,
    i: u64,
    bytes: &'a [u8],
) -> Result<(Event, &'a [u8]), Refusal>
    requires { header.now.cfg.m ≤ 52 }
    ensures value { Gives (λ x. (x.0, x.1.now)) result (event_in naming header.now i bytes.now) }
    ensures well { IfOk result (λ x. broken_rule header.now x.0 ≡ None) }
{
    let (tag, rest) = byte_of(bytes)?;
    if tag < 0x10 || tag > last_tag(header.version) {
        return Err(Refusal::Tag);
    }
    let (p, rest) = processor_number(header.version, rest)?;
    match fields_of(naming, tag, p, rest) {
        Err(refusal) => Err(refusal),
        Ok((event, rest)) => match well_formed(header, &event) {
            Ok(()) => Ok((event, rest)),
            Err(rule) => Err(Refusal::Malformed { event: i, rule }),
        },
    }
}

/// Adds an event that was read and is well formed, and answers how many bytes it leaves.
#[inline(always)]
fn add(
    header: &Header,
    part: &Result<(Event, &[u8]), Refusal>,
    events: &mut Vec<Event>,
) -> Option<usize>
    requires address { header.now.cfg.m ≤ 52 }
    requires room { vec_len events.old < vec_capacity events.old }
    ensures added { Adds events.old.items events.new.items result
        (λ i. judged header.now i (seen (λ x. (x.0, x.1.now)) part.now)) }
    ensures kept { IfNone result (events.new ≡ events.old) }
{
    let Ok((event, rest)) = *part else {
        return None;
    };
    if well_formed(header, &event).is_err() {
        return None;
    }
    events.push_reserved(event);
    Some(rest.len())
}

/// Adds an event of any tag.
#[inline(never)]
fn add_any(header: &Header, tag: u8, p: u16, bytes: &[u8], events: &mut Vec<Event>) -> Option<usize>
    requires low { 0x10 ≤ tag }
    requires high { tag ≤ 0x16 }
    requires address { header.now.cfg.m ≤ 52 }
    requires room { vec_len events.old < vec_capacity events.old }
    ensures added { Adds events.old.items events.new.items result
        (λ i. judged header.now i (fields_at tag p bytes.now)) }
    ensures kept { IfNone result (events.new ≡ events.old) }
{
    add(header, &fields_of(Naming::Named, tag, p, bytes), events)
}

/// Adds an event by its fields after its tag and processor. The tags of which records have many
/// have an arm each: in one for all, fields would go through memory and the tag be asked again.
#[inline(always)]
fn add_fields(
    header: &Header,
    tag: u8,
    p: u16,
    bytes: &[u8],
    events: &mut Vec<Event>,
) -> Option<usize>
    requires low { 0x10 ≤ tag }
    requires high { tag ≤ 0x16 }
    requires address { header.now.cfg.m ≤ 52 }
    requires room { vec_len events.old < vec_capacity events.old }
    ensures added { Adds events.old.items events.new.items result
        (λ i. judged header.now i (fields_at tag p bytes.now)) }
    ensures kept { IfNone result (events.new ≡ events.old) }
{
    match tag {
        0x10 => add(header, &write_of(p, bytes), events),
        0x11 => add(header, &access_of(Naming::Named, p, bytes), events),
        0x16 => add(header, &assist_of(Naming::Named, p, bytes), events),
        _ => add_any(header, tag, p, bytes, events),
    }
}

/// Adds the event at the front, and answers how many bytes it leaves; or adds none, and does not
/// say why. A result that holds an event or a refusal would go through memory at each step.
#[inline(always)]
#[tactic(auto, unfolding(pg_event::specs::Reading::event_at))]
pub(crate) fn add_event(header: &Header, bytes: &[u8], events: &mut Vec<Event>) -> Option<usize>
    requires address { header.now.cfg.m ≤ 52 }
    requires room { vec_len events.old < vec_capacity events.old }
    ensures added { Adds events.old.items events.new.items result
        (λ i. event_at header.now i bytes.now) }
    ensures kept { IfNone result (events.new ≡ events.old) }
{
    let Ok((tag, rest)) = byte_of(bytes) else {
        return None;
    };
    if tag < 0x10 || tag > last_tag(header.version) {
        return None;
    }
    let Ok((p, rest)) = processor_number(header.version, rest) else {
        return None;
    };
    add_fields(header, tag, p, rest, events)
}
