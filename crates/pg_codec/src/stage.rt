use pg_event::Header;

/// What a reader of segments knows.
#[derive(Drop)]
pub(crate) struct Progress {
    pub(crate) header: Header,
    /// The number of the next segment.
    pub(crate) number: u32,
    /// How many events there were.
    pub(crate) before: u32,
    /// Whether the last segment was full, or none was read.
    pub(crate) full: bool,
}

/// Where a reader stands.
#[derive(Drop)]
pub(crate) enum Stage {
    /// Before the header.
    Start,
    /// Before a segment or the end mark.
    Segments(Progress),
    /// After the end of the input.
    Ended,
    /// After a refusal.
    Refused,
}
