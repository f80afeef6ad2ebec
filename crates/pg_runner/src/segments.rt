//! Sealed segments of a board.

ghost use Rattle.std.specs.Prelude.{◌≡◌, false, IfOk};
ghost use Rattle.pg_runner.specs.Live.{AreNext};

use crate::board::Board;
use pg_event::Event;
use std::alloc::{AllocError, Global};

/// The events of the next sealed segments that were not given out, one after another: at most so
/// many segments.
pub(crate) fn next_segments(
    alloc: Global,
    board: &mut Board<'_>,
    most: u32,
) -> Result<Vec<Event>, AllocError>
    requires { board.old.world.finished ≡ false }
    ensures { IfOk result (λ events. AreNext board.old board.new events.items) }
{
    let mut events = Vec::new(alloc);
    for _ in 0..most {
        match board.take_sealed(alloc)? {
            Some(segment) => events.extend_from_slice(&segment)?,
            None => break,
        }
    }
    Ok(events)
}
