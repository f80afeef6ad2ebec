//! Outcomes in the place of an access's own.

ghost use Rattle.std.specs.Prelude.{◌≡◌};
ghost use Rattle.pg_reach.specs.Placed.{is_access, with_outcome};

use pg_event::{Event, Outcome};

/// Whether an event is an access, which has an outcome.
pub fn is_access(event: &Event) -> bool
    ensures { result ≡ is_access event.now }
{
    match event {
        Event::Access { .. } => true,
        Event::Write { .. }
        | Event::Assist { .. }
        | Event::MovCr3 { .. }
        | Event::Invlpg { .. }
        | Event::Invpcid { .. }
        | Event::MovCr4Pge { .. } => false,
    }
}

/// The access with this outcome in the place of its own. Another event is left as it is.
pub fn with_outcome(event: &Event, chosen: Outcome) -> Event
    ensures { result ≡ with_outcome chosen event.now }
{
    match *event {
        Event::Access {
            p,
            flags,
            la,
            moments,
            ..
        } => Event::Access {
            p,
            flags,
            la,
            outcome: chosen,
            moments,
        },
        Event::Write { .. }
        | Event::Assist { .. }
        | Event::MovCr3 { .. }
        | Event::Invlpg { .. }
        | Event::Invpcid { .. }
        | Event::MovCr4Pge { .. } => *event,
    }
}
