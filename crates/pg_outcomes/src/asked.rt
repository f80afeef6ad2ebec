//! What may come of an event of a history, after the events before it.

ghost use Rattle.std.specs.Prelude.{◌≡◌, ◌<◌, length, take, None, IfOk, IfSome, IfNone};
ghost use Rattle.pg_event.specs.Form.{broken_rule};
ghost use Rattle.pg_certify.specs.Certified.{HasRunButMoments};
ghost use Rattle.pg_outcomes.specs.Asked.{IsRejectedBefore, IsFoundOf, IsFoundFor};

use crate::allowed::Allowed;
use crate::outcomes::outcomes_at;
use pg_certify::{certified_exactly_where_a_run_exists, denied_events_have_no_run, first_denied};
use pg_check::History;
use pg_event::{Event, Moments};
use pg_reach::freshest_moments_at;
use pg_search::Seen;
use std::alloc::{AllocError, Global};

/// What may come of an event.
#[derive(Drop)]
pub enum Found {
    /// No run of the machine has the events before it: the least of them that no moments witness.
    Rejected(u64),
    /// It is an access: every outcome that it may have.
    Outcomes(Vec<Allowed>),
    /// It is an assist: the freshest moments by which it may come, or `None` where it may not.
    Assist(Option<Moments>),
    /// It is another event, which reads no entry.
    NoAccess,
}

/// The least event before this number that no moments witness. Where there is none, some run of the
/// machine has the events before it.
fn rejected_before(alloc: Global, history: &History, number: u32) -> Result<Option<u64>, AllocError>
    requires { number < length history.now.events }
    ensures some { IfOk result (λ found. IfSome found (IsRejectedBefore history.now number)) }
    ensures none { IfOk result (λ found. IfNone found
        (HasRunButMoments history.now.head (take number history.now.events))) }
{
    certified_exactly_where_a_run_exists();
    denied_events_have_no_run();
    let _events = history.events();
    match first_denied(alloc, history)? {
        None => Ok(None),
        Some(denied) => if denied < number as u64 {
            Ok(Some(denied))
        } else {
            Ok(None)
        },
    }
}

/// What may come of an event as the one with this number, where some run has those before it.
fn found_for(
    alloc: Global,
    history: &History,
    number: u32,
    event: &Event,
) -> Result<Found, AllocError>
    requires within { number < length history.now.events }
    requires well { broken_rule history.now.head event.now ≡ None }
    requires run { HasRunButMoments history.now.head (take number history.now.events) }
    ensures { IfOk result (IsFoundFor history.now number event.now) }
{
    match event {
        Event::Access { .. } => {
            let seen = Seen::of(history);
            Ok(Found::Outcomes(outcomes_at(alloc, &seen, number, event)?))
        }
        Event::Assist { .. } => {
            let seen = Seen::of(history);
            Ok(Found::Assist(freshest_moments_at(alloc, &seen, number, event)?))
        }
        Event::Write { .. }
        | Event::MovCr3 { .. }
        | Event::Invlpg { .. }
        | Event::Invpcid { .. }
        | Event::MovCr4Pge { .. } => Ok(Found::NoAccess),
    }
}

/// What may come of the event with this number of a history, whatever outcome the event itself has:
/// of an access every outcome, and of an assist whether it may come. If no run of the machine has
/// the events before it, it gives the least of them that no moments witness.
///
/// It certifies the history as `pg_certify::first_denied` does, and asks as `outcomes_at` does. It
/// fails only where memory is refused.
pub fn outcomes_of(alloc: Global, history: &History, number: u32) -> Result<Found, AllocError>
    requires { number < length history.now.events }
    ensures { IfOk result (IsFoundOf history.now number) }
{
    match rejected_before(alloc, history, number)? {
        Some(denied) => Ok(Found::Rejected(denied)),
        None => found_for(alloc, history, number, &history.events()[number as usize]),
    }
}
