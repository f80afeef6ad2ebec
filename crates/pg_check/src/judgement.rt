//! What is told of an event.

use pg_event::Reason;

/// What is told of an event by those who look up no more than some of what could tell of it.
#[derive(Clone, Copy)]
pub enum Judgement {
    /// What they look up does not tell it.
    Unknown,
    /// The least reason that fails for the event, or `None` where its moments witness it.
    Decided(Option<Reason>),
}
