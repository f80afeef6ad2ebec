//! What may come of an event of a record.

ghost use Rattle.std.specs.Prelude.{◌<◌, ◌^◌, length, IfOk};
ghost use Rattle.pg_answers.specs.Answers.{IsOutcomesAnswer, IsOutcomesAnswerAt};
ghost use Rattle.pg_answers.specs.Outcomes.{IsAskedEvent, IsLastAccess};

use crate::answer::{AccessOutcomes, Answer, AssistOutcome, EventOutcomes};
use crate::denials::denial_in;
use crate::giving::told_outcomes;
use pg_certify::denied_events_have_no_run;
use pg_check::History;
use pg_event::Event;
use pg_outcomes::{Found, is_access, outcomes_of};
use pg_search::Seen;
use std::alloc::{AllocError, Global};

/// The number of the last access, if there is one.
fn last_access(events: &[Event]) -> Option<u32>
    requires { length events.now < 2 ^ 32 }
    ensures { IsLastAccess events.now (length events.now) result }
{
    let mut last = None;
    for i in 0..events.len() as u32 {
        if is_access(&events[i as usize]) {
            last = Some(i);
        }
    }
    last
}

/// The number of the event that is asked about, if there is such an event: the last access, where
/// no number is given.
pub fn asked_event(events: &[Event], asked: Option<u32>) -> Option<u32>
    requires { length events.now < 2 ^ 32 }
    ensures { IsAskedEvent events.now asked result }
{
    match asked {
        Some(number) if (number as usize) < events.len() => Some(number),
        Some(_) => None,
        None => last_access(events),
    }
}

/// What may come of the event with this number.
fn outcomes_answer(
    alloc: Global,
    history: &History,
    number: u32,
    most: u32,
) -> Result<Answer, AllocError>
    requires { number < length history.now.events }
    ensures { IfOk result (IsOutcomesAnswerAt history.now number most) }
{
    // What a no says of runs.
    denied_events_have_no_run();
    let event = history.events()[number as usize];
    match outcomes_of(alloc, history, number)? {
        Found::Rejected(denied) => Ok(Answer::Rejection(denial_in(alloc, history, denied)?)),
        Found::Outcomes(found) => {
            let told = told_outcomes(alloc, &Seen::of(history), &event, &found, most)?;
            Ok(Answer::Outcomes(EventOutcomes::Access(AccessOutcomes {
                number,
                event,
                found,
                most,
                told,
            })))
        }
        Found::Assist(moments) => Ok(Answer::Outcomes(EventOutcomes::Assist(AssistOutcome {
            number,
            event,
            moments,
        }))),
        Found::NoAccess => Ok(Answer::Outcomes(EventOutcomes::NoAccess(Some(number)))),
    }
}

/// What may come of the event that is asked about. If no run has the events before it, the cause of
/// their rejection.
pub(crate) fn outcomes_asked(
    alloc: Global,
    history: &History,
    asked: Option<u32>,
    most: u32,
) -> Result<Answer, AllocError>
    ensures { IfOk result (IsOutcomesAnswer asked most history.now) }
{
    match asked_event(history.events(), asked) {
        Some(number) => outcomes_answer(alloc, history, number, most),
        None => Ok(Answer::Outcomes(EventOutcomes::NoAccess(asked))),
    }
}
