use pg_event::Event;
use std::collections::LinkedList;

/// Events that were given out at once. No value of it is made: it stands in proofs alone.
pub struct Batch {
    pub events: LinkedList<Event>,
}
