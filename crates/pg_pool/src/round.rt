/// The numbers of a round: from `first` on, below `last`.
#[derive(Clone, Copy, PartialEq, Eq)]
pub struct Round {
    pub first: u32,
    pub last: u32,
}
