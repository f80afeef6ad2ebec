//! Whether a record names no moments.

ghost use Rattle.std.specs.Prelude.{◌≡◌};
ghost use Rattle.std.specs.List.{list_all, list_any};
ghost use Rattle.pg_search.specs.Law.{names_moments};
ghost use Rattle.pg_answers.specs.Unnamed.{is_unnamed, may_be_unnamed};

use pg_certify::is_placeholder;
use pg_event::{Event, Request};
use pg_search::names_moments;

/// Whether an event names no moments, or the placeholder.
fn may_be_unnamed(event: &Event) -> bool
    ensures { result ≡ may_be_unnamed event.now }
{
    match event.request() {
        Request::Access { moments, .. } => is_placeholder(&moments),
        Request::Update { moments, .. } => is_placeholder(&moments),
        Request::Nothing => true,
    }
}

fn any_names_moments(events: &[Event]) -> bool
    ensures { result ≡ list_any names_moments events.now }
{
    for event in events {
        if names_moments(event) {
            return true;
        }
    }
    false
}

fn all_may_be_unnamed(events: &[Event]) -> bool
    ensures { result ≡ list_all may_be_unnamed events.now }
{
    for event in events {
        if !may_be_unnamed(event) {
            return false;
        }
    }
    true
}

/// Whether some event is an access or an assist, and each of them has the placeholder that a
/// recorder writes which keeps no moments.
#[tactic(auto, unfolding(crate::specs::Unnamed::is_unnamed))]
pub fn is_unnamed(events: &[Event]) -> bool
    ensures { result ≡ is_unnamed events.now }
{
    any_names_moments(events) && all_may_be_unnamed(events)
}
