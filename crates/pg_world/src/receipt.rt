use pg_event::Event;

/// What a call that records an event answers.
#[derive(Clone, Copy, PartialEq, Eq)]
pub struct Receipt {
    /// The number of the event.
    pub moment: u32,
    /// The event as it was recorded.
    pub event: Event,
}
