//! Places that are found by a key, as in a cache without tags.

/// An odd number whose multiples by the numbers from 0 on, cut to 64 bits, lie evenly apart.
const SPREAD: u64 = 0x9e37_79b9_7f4a_7c15;

/// The place of a key among so many. Keys that follow each other are spread evenly. Where there is
/// no place it is 0.
#[inline(always)]
pub fn place_among(count: usize, key: u64) -> usize {
    let number = key.wrapping_mul(SPREAD) >> 32;
    // The number divided by 2 to the power of 32 is a fraction below 1: the place is this fraction
    // of the count.
    (number.wrapping_mul(count as u64) >> 32) as usize
}
