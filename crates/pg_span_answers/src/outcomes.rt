//! The outcomes of an event of a record with no one order, in an order that has a run.

ghost use Rattle.std.specs.Prelude.{◌≡◌, ◌<◌, ◌^◌, ◌++◌, IfOk, length, string_bytes};
ghost use Rattle.pg_span_verdict.specs.Verdicts.{IsOrderedRun};
ghost use Rattle.pg_span_run.specs.Spanned.{IsSpanned};
ghost use Rattle.pg_span_answers.specs.Outcomes.{IsPlaceOf, IsAtPlace, IsOfEvent, AreInOrder};
ghost use Rattle.pg_span_answers.specs.Outcomes.{place_line, ordered_outcomes_text};

use pg_answers::{
    AccessOutcomes, AssistOutcome, EventOutcomes, asked_event, event_outcomes_text, told_outcomes,
};
use pg_check::History;
use pg_event::Event;
use pg_outcomes::outcomes_at;
use pg_reach::freshest_moments_at;
use pg_search::Seen;
use pg_span_run::SpannedRun;
use pg_span_verdict::history_in_order;
use std::alloc::{AllocError, Global};

/// The outcomes of an event after the events before it in an order.
#[derive(Drop)]
pub struct OrderedOutcomes {
    /// Its place in the order. Moments are places in it, too.
    pub place: Option<u32>,
    /// The outcomes, with the number that the event has in the record.
    pub outcomes: EventOutcomes,
}

/// The place of a number in an order.
fn place_of(order: &[u32], number: u32) -> Option<u32>
    requires { length order.now < 2 ^ 32 }
    ensures { IsPlaceOf order.now number result }
{
    for place in 0..order.len() as u32 {
        if order[place as usize] == number {
            return Some(place);
        }
    }
    None
}

/// The outcomes of the event at a place of a history, which has this number in the record.
fn outcomes_at_place(
    alloc: Global,
    history: &History,
    number: u32,
    place: u32,
    most: u32,
) -> Result<EventOutcomes, AllocError>
    requires { place < length history.now.events }
    ensures { IfOk result (IsAtPlace history.now number place most) }
{
    let event = history.events()[place as usize];
    let seen = Seen::of(history);
    match event {
        Event::Access { .. } => {
            let found = outcomes_at(alloc, &seen, place, &event)?;
            let told = told_outcomes(alloc, &seen, &event, &found, most)?;
            Ok(EventOutcomes::Access(AccessOutcomes {
                number,
                event,
                found,
                most,
                told,
            }))
        }
        Event::Assist { .. } => Ok(EventOutcomes::Assist(AssistOutcome {
            number,
            event,
            moments: freshest_moments_at(alloc, &seen, place, &event)?,
        })),
        Event::Write { .. }
        | Event::MovCr3 { .. }
        | Event::Invlpg { .. }
        | Event::Invpcid { .. }
        | Event::MovCr4Pge { .. } => Ok(EventOutcomes::NoAccess(Some(number))),
    }
}

/// The outcomes of the event with this number, by the events in an order.
fn outcomes_of_event(
    alloc: Global,
    history: &History,
    order: &[u32],
    number: u32,
    most: u32,
) -> Result<OrderedOutcomes, AllocError>
    requires { length order.now ≡ length history.now.events }
    ensures { IfOk result (IsOfEvent history.now order.now most number) }
{
    let _events = history.events();
    let place = place_of(order, number);
    let outcomes = match place {
        Some(place) => outcomes_at_place(alloc, history, number, place, most)?,
        None => EventOutcomes::NoAccess(Some(number)),
    };
    Ok(OrderedOutcomes { place, outcomes })
}

/// The outcomes that the event with a number may have after those before it in an order that has a
/// run, or the last access where no number is given. Moments are places in this order.
///
/// It fails only where memory is refused.
pub fn outcomes_in_order(
    alloc: Global,
    run: &SpannedRun,
    order: &[u32],
    asked: Option<u32>,
    most: u32,
) -> Result<OrderedOutcomes, AllocError>
    requires { IsOrderedRun run.now order.now }
    ensures { IfOk result (AreInOrder run.now order.now asked most) }
{
    match asked_event(run.events(), asked) {
        Some(number) => {
            let history = history_in_order(alloc, run, order)?;
            outcomes_of_event(alloc, &history, order, number, most)
        }
        None => Ok(OrderedOutcomes {
            place: None,
            outcomes: EventOutcomes::NoAccess(asked),
        }),
    }
}

/// The line of a place.
fn place_line(alloc: Global, place: Option<u32>) -> Result<String, AllocError>
    ensures { IfOk result (λ t. string_bytes t ≡ place_line place) }
{
    match place {
        Some(place) => format!(in alloc; "place: {place}\n"),
        None => Ok(String::new(alloc)),
    }
}

/// The place, and the outcomes.
pub(crate) fn ordered_outcomes_text(
    alloc: Global,
    told: &OrderedOutcomes,
) -> Result<String, AllocError>
    ensures { IfOk result (λ t. string_bytes t ≡ ordered_outcomes_text told.now) }
{
    let mut text = place_line(alloc, told.place)?;
    let outcomes = event_outcomes_text(alloc, &told.outcomes)?;
    text.push_str(outcomes.as_str())?;
    Ok(text)
}
