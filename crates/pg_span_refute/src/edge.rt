/// One event comes before another, by their numbers.
#[derive(Clone, Copy, Debug, PartialEq, Eq)]
pub struct Edge {
    pub first: u32,
    pub second: u32,
}
