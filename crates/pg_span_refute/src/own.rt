//! Which events are of a processor.

ghost use Rattle.std.specs.Prelude.{◌↔◌, IsTrue};
ghost use Rattle.pg_span_refute.specs.Memory.{IsOwn};

use pg_event::{Event, processor_of};

/// Whether an event is of a processor.
pub(crate) fn is_own(events: &[Event], p: u16, j: u32) -> bool
    ensures { IsTrue result ↔ IsOwn events.now p j }
{
    if (j as usize) < events.len() {
        processor_of(&events[j as usize]) == p
    } else {
        false
    }
}
