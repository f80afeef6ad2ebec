/// What a seat knows: whether it stores, and the counts that it last stored or read. No value of it
/// is made: it stands in proofs alone.
pub struct Seen {
    /// Whether it is the publisher's.
    pub stores: bool,
    pub events: u32,
    pub segments: u32,
    /// Whether a reader that was ended in it had read no more than it had stored.
    pub agrees: bool,
}
