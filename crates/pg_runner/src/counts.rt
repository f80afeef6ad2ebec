/// How many events stand, and how many segments are sealed.
#[derive(Clone, Copy, PartialEq, Eq)]
pub struct Counts {
    pub events: u32,
    pub segments: u32,
}

/// Nothing stands.
pub(crate) const NONE: Counts = Counts {
    events: 0,
    segments: 0,
};

/// A word holds the events as so many, and the segments below.
pub(crate) const UNIT: u64 = 4_294_967_296;
