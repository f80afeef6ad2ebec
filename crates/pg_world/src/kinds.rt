ghost use Rattle.std.specs.Prelude.{◌≡◌};
ghost use Rattle.pg_world.specs.Recording.{is_access, is_control};

use pg_event::Event;

/// Whether an event is an access to memory.
pub(crate) fn is_access(event: &Event) -> bool
    ensures { result ≡ is_access event.now }
{
    match *event {
        Event::Access { .. } => true,
        Event::Write { .. }
        | Event::Assist { .. }
        | Event::MovCr3 { .. }
        | Event::Invlpg { .. }
        | Event::Invpcid { .. }
        | Event::MovCr4Pge { .. } => false,
    }
}

/// Whether an event is an instruction that changes control registers or invalidates.
pub(crate) fn is_control(event: &Event) -> bool
    ensures { result ≡ is_control event.now }
{
    match *event {
        Event::MovCr3 { .. }
        | Event::Invlpg { .. }
        | Event::Invpcid { .. }
        | Event::MovCr4Pge { .. } => true,
        Event::Write { .. } | Event::Access { .. } | Event::Assist { .. } => false,
    }
}
