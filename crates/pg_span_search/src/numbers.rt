//! Numbers of events, slots and moments, and rising lists of them.

/// No event, and after all slots and moments.
pub(crate) const NEVER: u32 = u32::MAX;

/// How many there are, as a number.
pub(crate) fn number(count: usize) -> u32 {
    u32::try_from(count).unwrap_or(NEVER)
}

/// What stands at a place of a list.
pub(crate) fn at(list: &[u32], place: u32) -> u32 {
    match list.get(place as usize) {
        Some(found) => *found,
        None => NEVER,
    }
}

/// How many of a rising list are below a bound.
pub(crate) fn count_below(list: &[u32], bound: u32) -> u32 {
    number(list.partition_point(|item| *item < bound))
}

/// So many at the end of a list are looked at first.
pub(crate) const NEAR_END: usize = 64;

/// One more than the greatest of a rising list that is below a bound, or 0.
pub(crate) fn after_last(list: &[u32], bound: u32) -> u32 {
    match list.get((count_below(list, bound) as usize).wrapping_sub(1)) {
        Some(found) => found.saturating_add(1),
        None => 0,
    }
}

/// The least of a rising list that is at least this.
pub(crate) fn first_from(list: &[u32], least: u32) -> u32 {
    at(list, count_below(list, least))
}

/// Numbers that look random.
#[derive(Clone, Copy)]
pub(crate) struct Chance(u64);

impl Chance {
    pub(crate) fn new(seed: u64) -> Chance {
        Chance(seed)
    }

    /// A number below a bound, or 0.
    pub(crate) fn below(&mut self, bound: u32) -> u32 {
        self.0 = self.0.wrapping_add(0x9e37_79b9_7f4a_7c15);
        let mixed = (self.0 ^ self.0 >> 30).wrapping_mul(0xbf58_476d_1ce4_e5b9);
        let mixed = (mixed ^ mixed >> 27).wrapping_mul(0x94d0_49bb_1331_11eb);
        match (mixed >> 33).checked_rem(bound as u64) {
            Some(rest) => u32::try_from(rest).unwrap_or(0),
            None => 0,
        }
    }
}
