//! What may come of an event, as text.

ghost use Rattle.std.specs.Prelude.{◌≡◌, ◌++◌, IfOk, OnOk, string_bytes};
ghost use Rattle.pg_explain.specs.Line.{numbers_text};
ghost use Rattle.pg_answers.specs.OutcomeTexts.{asked_line, result_text, allowed_line};
ghost use Rattle.pg_answers.specs.OutcomeTexts.{told_texts, more_line, counted_line};
ghost use Rattle.pg_answers.specs.OutcomeTexts.{outcomes_text, may_line, assist_text};
ghost use Rattle.pg_answers.specs.OutcomeTexts.{no_access_text, event_outcomes_text};

use crate::answer::{AccessOutcomes, AssistOutcome, EventOutcomes, OutcomeWalk};
use crate::giving_text::push_told;
use pg_event::{Event, Moments, Outcome};
use pg_explain::push_claim_line;
use pg_outcomes::Allowed;
use std::alloc::{AllocError, Global};

/// Appends the line of the event.
fn push_asked(text: &mut String, number: u32, event: &Event) -> Result<(), AllocError>
    ensures { OnOk result
        (string_bytes text.new ≡ string_bytes text.old ++ asked_line number event.now) }
{
    text.push_str("event: ")?;
    push_claim_line(text, number, event)?;
    text.push_str("\n")
}

/// Appends an outcome.
pub(crate) fn push_result(text: &mut String, outcome: Outcome) -> Result<(), AllocError>
    ensures { OnOk result
        (string_bytes text.new ≡ string_bytes text.old ++ result_text outcome) }
{
    match outcome {
        Outcome::Page(page) => write!(text, "0x{page:x}"),
        Outcome::Fault(code) => write!(text, "fault 0x{code:x}"),
    }
}

/// Appends numbers, each after a space.
fn push_numbers(text: &mut String, numbers: &[u32]) -> Result<(), AllocError>
    ensures { OnOk result
        (string_bytes text.new ≡ string_bytes text.old ++ numbers_text numbers.now) }
{
    for number in numbers {
        write!(text, " {number}")?;
    }
    Ok(())
}

/// Appends the line of an outcome.
pub(crate) fn push_allowed(text: &mut String, allowed: &Allowed) -> Result<(), AllocError>
    ensures { OnOk result
        (string_bytes text.new ≡ string_bytes text.old ++ allowed_line allowed.now) }
{
    push_result(text, allowed.outcome)?;
    text.push_str(" by")?;
    push_numbers(text, allowed.moments.as_slice())?;
    text.push_str("\n")
}

fn push_each(text: &mut String, told: &[OutcomeWalk]) -> Result<(), AllocError>
    ensures { OnOk result
        (string_bytes text.new ≡ string_bytes text.old ++ told_texts told.now) }
{
    for outcome in told {
        push_told(text, outcome)?;
    }
    Ok(())
}

/// Appends how many outcomes are not told, where some are not.
fn push_more(text: &mut String, count: usize, most: u32) -> Result<(), AllocError>
    ensures { OnOk result
        (string_bytes text.new ≡ string_bytes text.old ++ more_line count most) }
{
    if (most as usize) < count {
        let more = count - most as usize;
        write!(text, "more: {more}\n")?;
    }
    Ok(())
}

fn push_outcomes(text: &mut String, outcomes: &AccessOutcomes) -> Result<(), AllocError>
    ensures { OnOk result
        (string_bytes text.new ≡ string_bytes text.old ++ outcomes_text outcomes.now) }
{
    let count = outcomes.found.len();
    push_asked(text, outcomes.number, &outcomes.event)?;
    push_each(text, &outcomes.told)?;
    push_more(text, count, outcomes.most)?;
    write!(text, "outcomes: {count}\n")
}

/// Appends whether an assist may come.
fn push_may(text: &mut String, moments: Option<Moments>) -> Result<(), AllocError>
    ensures { OnOk result
        (string_bytes text.new ≡ string_bytes text.old ++ may_line moments) }
{
    match moments {
        Some(moments) => {
            text.push_str("may come by")?;
            push_numbers(text, moments.as_slice())?;
            text.push_str("\n")
        }
        None => text.push_str("may not come\n"),
    }
}

fn push_assist(text: &mut String, assist: &AssistOutcome) -> Result<(), AllocError>
    ensures { OnOk result
        (string_bytes text.new ≡ string_bytes text.old ++ assist_text assist.now) }
{
    push_asked(text, assist.number, &assist.event)?;
    push_may(text, assist.moments)
}

fn push_no_access(text: &mut String, number: Option<u32>) -> Result<(), AllocError>
    ensures { OnOk result
        (string_bytes text.new ≡ string_bytes text.old ++ no_access_text number) }
{
    match number {
        Some(number) => write!(text, "no access: event {number}\n"),
        None => text.push_str("no access\n"),
    }
}

/// What may come of an event. Fails only when out of memory.
pub fn event_outcomes_text(alloc: Global, outcomes: &EventOutcomes) -> Result<String, AllocError>
    ensures { IfOk result (λ t. string_bytes t ≡ event_outcomes_text outcomes.now) }
{
    let mut text = String::new(alloc);
    match outcomes {
        EventOutcomes::Access(outcomes) => push_outcomes(&mut text, outcomes)?,
        EventOutcomes::Assist(assist) => push_assist(&mut text, assist)?,
        EventOutcomes::NoAccess(number) => push_no_access(&mut text, *number)?,
    }
    Ok(text)
}
