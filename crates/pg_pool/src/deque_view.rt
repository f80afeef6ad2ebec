use std::collections::LinkedList;

/// What one seat knows of one deque. No value of it is made: it stands in proofs alone.
pub(crate) struct DequeView {
    /// Whether no other seat can reach the deque.
    pub alone: bool,
    /// The numbers that were pushed.
    pub pushed: LinkedList<u32>,
    /// The numbers that this seat took.
    pub taken: LinkedList<u32>,
}
