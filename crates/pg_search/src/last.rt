use pg_event::Moments;

/// When an event would last have been witnessed.
#[derive(Clone, Copy)]
pub struct Last {
    /// The number that the event would have had.
    pub number: u32,
    /// The freshest moments that witness it there.
    pub moments: Moments,
    /// The PCID under which these read, where moments under the event's own would have witnessed it
    /// at no earlier number.
    pub other: Option<u16>,
}
