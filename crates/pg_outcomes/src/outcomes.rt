//! Every outcome that an access may have.

ghost use Rattle.std.specs.Prelude.{◌≡◌, ◌≤◌, true, None, length, IfOk};
ghost use Rattle.pg_event.specs.Form.{broken_rule};
ghost use Rattle.pg_reach.specs.Placed.{is_access};
ghost use Rattle.pg_outcomes.specs.Allowing.{AreOutcomes};

use crate::allowed::Allowed;
use crate::candidates::candidates;
use pg_event::Event;
use pg_reach::freshest_by_outcome;
use pg_search::Seen;
use std::alloc::{AllocError, Global};

/// Every outcome that an access may have as the event with this number, which need not be one of
/// the run's: exactly those that some moments witness after the events before it. The outcome that
/// the access has itself is not looked at. Pages come first, by rising address, then faults, by
/// rising error code.
///
/// It searches the moments of all outcomes at once. It fails only where memory is refused. Of a run
/// of which changes are kept alone, the outcomes are those among all events
/// (`outcomes_among_kept`).
pub fn outcomes_at(
    alloc: Global,
    seen: &Seen<'_>,
    number: u32,
    event: &Event,
) -> Result<Vec<Allowed>, AllocError>
    requires within { number ≤ length seen.now.events }
    requires well { broken_rule seen.now.head event.now ≡ None }
    requires access { is_access event.now ≡ true }
    ensures { IfOk result (λ found. AreOutcomes seen.now number event.now found.items) }
{
    let by_outcome = freshest_by_outcome(alloc, seen, number, event)?;
    let candidates = candidates(alloc, seen, number, event)?;
    let mut allowed = Vec::new(alloc);
    for outcome in &candidates {
        if let Some(moments) = by_outcome.get(*outcome) {
            allowed.push(Allowed {
                outcome: *outcome,
                moments,
            })?;
        }
    }
    Ok(allowed)
}
