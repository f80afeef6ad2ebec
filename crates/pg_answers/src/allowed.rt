//! The allowed outcomes of an access.

ghost use Rattle.std.specs.Prelude.{◌≡◌, ◌≤◌, None, length, IfOk};
ghost use Rattle.pg_event.specs.Form.{broken_rule};
ghost use Rattle.pg_answers.specs.Outcomes.{AreAllowed};

use pg_event::Event;
use pg_outcomes::{Allowed, is_access, outcomes_at};
use pg_search::Seen;
use std::alloc::{AllocError, Global};

/// Every outcome that an event may have as the one with this number, where it is an access.
pub(crate) fn allowed_at(
    alloc: Global,
    seen: &Seen<'_>,
    number: u32,
    event: &Event,
) -> Result<Option<Vec<Allowed>>, AllocError>
    requires within { number ≤ length seen.now.events }
    requires well { broken_rule seen.now.head event.now ≡ None }
    ensures { IfOk result (AreAllowed seen.now number event.now) }
{
    if is_access(event) {
        Ok(Some(outcomes_at(alloc, seen, number, event)?))
    } else {
        Ok(None)
    }
}
