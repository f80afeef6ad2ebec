//! The allowed outcomes of an access, behind the cause of its rejection.

ghost use Rattle.std.specs.Prelude.{◌≡◌, ◌++◌, IfOk, OnOk, string_bytes, take};
ghost use Rattle.pg_answers.specs.AllowedTexts.{some_lines, rest_line, allowed_lines_of};
ghost use Rattle.pg_answers.specs.AllowedTexts.{noted_text, rest_note, allowed_note};

use crate::outcomes_text::{push_allowed, push_result};
use pg_outcomes::Allowed;
use std::alloc::{AllocError, Global};

/// How many outcomes are told at most behind a rejection.
pub const MOST_ALLOWED: usize = 16;

/// How many of them a picture has room for.
const MOST_NOTED: usize = 6;

/// The first of some outcomes, so many at most.
pub fn first_allowed(found: &[Allowed], most: usize) -> &[Allowed]
    ensures { result.now ≡ take most found.now }
{
    if most < found.len() {
        &found[..most]
    } else {
        found
    }
}

fn push_some(text: &mut String, found: &[Allowed]) -> Result<(), AllocError>
    ensures { OnOk result
        (string_bytes text.new ≡ string_bytes text.old ++ some_lines found.now) }
{
    for allowed in found {
        text.push_str("allowed: ")?;
        push_allowed(text, allowed)?;
    }
    Ok(())
}

/// Appends how many more there are, or that there are none.
fn push_rest(text: &mut String, count: usize) -> Result<(), AllocError>
    ensures { OnOk result (string_bytes text.new ≡ string_bytes text.old ++ rest_line count) }
{
    if count == 0 {
        text.push_str("allowed: none\n")
    } else if count > MOST_ALLOWED {
        let more = count - MOST_ALLOWED;
        write!(text, "allowed: {more} more\n")
    } else {
        Ok(())
    }
}

/// Appends a line for each allowed outcome, where the event is an access: sixteen at most, and then
/// how many more.
pub(crate) fn push_allowed_lines(
    text: &mut String,
    allowed: &Option<Vec<Allowed>>,
) -> Result<(), AllocError>
    ensures { OnOk result
        (string_bytes text.new ≡ string_bytes text.old ++ allowed_lines_of allowed.now) }
{
    match allowed {
        None => Ok(()),
        Some(found) => {
            push_some(text, first_allowed(found, MOST_ALLOWED))?;
            push_rest(text, found.len())
        }
    }
}

fn push_noted(text: &mut String, found: &[Allowed]) -> Result<(), AllocError>
    ensures { OnOk result
        (string_bytes text.new ≡ string_bytes text.old ++ noted_text found.now) }
{
    for allowed in found {
        text.push_str(" ")?;
        push_result(text, allowed.outcome)?;
        text.push_str(";")?;
    }
    Ok(())
}

fn push_rest_noted(text: &mut String, count: usize) -> Result<(), AllocError>
    ensures { OnOk result (string_bytes text.new ≡ string_bytes text.old ++ rest_note count) }
{
    if count == 0 {
        text.push_str(" none")
    } else if count > MOST_NOTED {
        let more = count - MOST_NOTED;
        write!(text, " {more} more")
    } else {
        Ok(())
    }
}

/// The allowed outcomes in one line, without moments: six at most, and then how many more. It is
/// empty of an event that is no access.
pub fn allowed_note(alloc: Global, allowed: &Option<Vec<Allowed>>) -> Result<String, AllocError>
    ensures { IfOk result (λ t. string_bytes t ≡ allowed_note allowed.now) }
{
    let mut text = String::new(alloc);
    if let Some(found) = allowed {
        text.push_str("allowed:")?;
        push_noted(&mut text, first_allowed(found, MOST_NOTED))?;
        push_rest_noted(&mut text, found.len())?;
    }
    Ok(text)
}
