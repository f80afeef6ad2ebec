//! Fields at the front of a slice. Each reader answers the value and the bytes after it, or refuses
//! bytes that are too few.

ghost use Rattle.std.specs.Prelude.{◌≡◌, ◌+◌, ◌*◌, ◌≤◌, length, Ok};
ghost use Rattle.std.specs.Int.{w16, w32, w64, from_le_bytes};
ghost use Rattle.pg_event.specs.Reading.{byte_at, number_at, processor_at, outcome_at, moments_at};
ghost use Rattle.pg_event.specs.Reading.{numbers_at};
ghost use Rattle.pg_codec.specs.Reads.{Gives};
ghost use Rattle.pg_codec.specs.Parts.{with_front};

use pg_event::{Moments, Outcome, Refusal, Version};

/// A byte.
#[inline(always)]
pub fn byte_of(bytes: &[u8]) -> Result<(u8, &[u8]), Refusal>
    ensures { Gives (λ x. (x.0, x.1.now)) result (byte_at bytes.now) }
{
    match bytes {
        [] => Err(Refusal::Truncated),
        [byte, rest @ ..] => Ok((*byte, rest)),
    }
}

// What reads an event is inlined into one loop, but what puts a number together has no hint: LLVM
// makes one load of its bytes while it stands alone. Beside a test of some of its bits it can't.

fn u16_in(bytes: &[u8]) -> u16
    requires { length bytes.now ≡ 2 }
    ensures { result ≡ from_le_bytes w16 bytes.now }
{
    u16::from_le_bytes([bytes[0], bytes[1]])
}

fn u32_in(bytes: &[u8]) -> u32
    requires { length bytes.now ≡ 4 }
    ensures { result ≡ from_le_bytes w32 bytes.now }
{
    u32::from_le_bytes([bytes[0], bytes[1], bytes[2], bytes[3]])
}

fn u64_in(bytes: &[u8]) -> u64
    requires { length bytes.now ≡ 8 }
    ensures { result ≡ from_le_bytes w64 bytes.now }
{
    u64::from_le_bytes([
        bytes[0], bytes[1], bytes[2], bytes[3], bytes[4], bytes[5], bytes[6], bytes[7],
    ])
}

/// A number of two bytes.
#[inline(always)]
pub fn u16_of(bytes: &[u8]) -> Result<(u16, &[u8]), Refusal>
    ensures { Gives (λ x. (x.0, x.1.now)) result (number_at w16 bytes.now) }
{
    if bytes.len() < 2 {
        return Err(Refusal::Truncated);
    }
    let (front, rest) = bytes.split_at(2);
    Ok((u16_in(front), rest))
}

#[inline(always)]
fn u32_front(bytes: &[u8]) -> (u32, &[u8])
    requires { 4 ≤ length bytes.now }
    ensures value { number_at w32 bytes.now ≡ Ok (result.0, result.1.now) }
    ensures rest { length result.1.now + 4 ≡ length bytes.now }
{
    let (front, rest) = bytes.split_at(4);
    (u32_in(front), rest)
}

/// A number of four bytes.
#[inline(always)]
pub fn u32_of(bytes: &[u8]) -> Result<(u32, &[u8]), Refusal>
    ensures { Gives (λ x. (x.0, x.1.now)) result (number_at w32 bytes.now) }
{
    if bytes.len() < 4 {
        return Err(Refusal::Truncated);
    }
    Ok(u32_front(bytes))
}

/// A number of eight bytes.
#[inline(always)]
pub fn u64_of(bytes: &[u8]) -> Result<(u64, &[u8]), Refusal>
    ensures { Gives (λ x. (x.0, x.1.now)) result (number_at w64 bytes.now) }
{
    if bytes.len() < 8 {
        return Err(Refusal::Truncated);
    }
    let (front, rest) = bytes.split_at(8);
    Ok((u64_in(front), rest))
}

/// The number of a processor, or how many there are: a byte in version 1, two in version 2.
#[inline(always)]
#[tactic(auto, unfolding(pg_event::specs::Reading::processor_at))]
pub fn processor_number(version: Version, bytes: &[u8]) -> Result<(u16, &[u8]), Refusal>
    ensures { Gives (λ x. (x.0, x.1.now)) result (processor_at version bytes.now) }
{
    match version {
        Version::One => {
            let (byte, rest) = byte_of(bytes)?;
            Ok((byte as u16, rest))
        }
        Version::Two => u16_of(bytes),
    }
}

/// A page or a code, by the tag.
#[inline(always)]
#[tactic(auto, unfolding(pg_event::specs::Reading::outcome_at))]
pub(crate) fn outcome_of(bytes: &[u8]) -> Result<(Outcome, &[u8]), Refusal>
    ensures { Gives (λ x. (x.0, x.1.now)) result (outcome_at bytes.now) }
{
    let (tag, rest) = byte_of(bytes)?;
    if tag >= 2 {
        return Err(Refusal::Tag);
    }
    if tag == 0 {
        let (page, rest) = u64_of(rest)?;
        return Ok((Outcome::Page(page), rest));
    }
    let (code, rest) = u16_of(rest)?;
    Ok((Outcome::Fault(code), rest))
}

/// One moment more, after those that were read. A call, or a loop, would have the list of moments
/// written to memory and read again for each of them.
#[inline(always)]
fn one_more(front: Moments, bytes: &[u8]) -> (Moments, &[u8])
    requires room { length front + 1 ≤ 4 }
    requires enough { 4 ≤ length bytes.now }
    ensures { with_front front (numbers_at 1 bytes.now) ≡ Ok (result.0, result.1.now) }
{
    let (moment, rest) = u32_front(bytes);
    (front.with(moment).unwrap(), rest)
}

#[inline(always)]
fn two_more(front: Moments, bytes: &[u8]) -> (Moments, &[u8])
    requires room { length front + 2 ≤ 4 }
    requires enough { 8 ≤ length bytes.now }
    ensures { with_front front (numbers_at 2 bytes.now) ≡ Ok (result.0, result.1.now) }
{
    let (moment, rest) = u32_front(bytes);
    one_more(front.with(moment).unwrap(), rest)
}

#[inline(always)]
fn three_more(front: Moments, bytes: &[u8]) -> (Moments, &[u8])
    requires room { length front + 3 ≤ 4 }
    requires enough { 12 ≤ length bytes.now }
    ensures { with_front front (numbers_at 3 bytes.now) ≡ Ok (result.0, result.1.now) }
{
    let (moment, rest) = u32_front(bytes);
    two_more(front.with(moment).unwrap(), rest)
}

/// So many moments, after the first.
#[inline(always)]
fn more_moments(front: Moments, count: u8, bytes: &[u8]) -> (Moments, &[u8])
    requires room { length front + count ≤ 4 }
    requires few { count ≤ 3 }
    requires enough { 4 * count ≤ length bytes.now }
    ensures { with_front front (numbers_at count bytes.now) ≡ Ok (result.0, result.1.now) }
{
    match count {
        0 => (front, bytes),
        1 => one_more(front, bytes),
        2 => two_more(front, bytes),
        _ => three_more(front, bytes),
    }
}

/// So many moments, whose bytes are there: one test of the length stands before all of them.
#[inline(always)]
fn numbers_of(count: u8, bytes: &[u8]) -> (Moments, &[u8])
    requires some { 1 ≤ count }
    requires few { count ≤ 4 }
    requires enough { 4 * count ≤ length bytes.now }
    ensures { numbers_at count bytes.now ≡ Ok (result.0, result.1.now) }
{
    let (first, rest) = u32_front(bytes);
    more_moments(Moments::first(first), count - 1, rest)
}

#[inline(always)]
#[tactic(auto, unfolding(pg_event::specs::Reading::moments_at), using(crate::proofs::Many::cut))]
pub(crate) fn moments_of(bytes: &[u8]) -> Result<(Moments, &[u8]), Refusal>
    ensures { Gives (λ x. (x.0, x.1.now)) result (moments_at bytes.now) }
{
    let (count, rest) = byte_of(bytes)?;
    if count < 1 || count > 4 {
        return Err(Refusal::Tag);
    }
    if rest.len() < 4 * count as usize {
        return Err(Refusal::Truncated);
    }
    Ok(numbers_of(count, rest))
}
