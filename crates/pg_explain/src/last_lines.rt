//! The text of when an event would last have been witnessed.

ghost use Rattle.std.specs.Prelude.{◌≡◌, ◌++◌, OnOk, string_bytes};
ghost use Rattle.pg_explain.specs.Lasts.{by_text, under_text, last_moments_text, last_seen_by};
ghost use Rattle.pg_explain.specs.Lasts.{taker, taken_in, dropped_in, taken_text};

use crate::line::{event_at, push_line_at, push_numbers};
use pg_event::{Event, Moments};
use pg_search::Last;
use std::alloc::AllocError;

/// The events that took the last moments of an event away.
#[derive(Clone, Copy)]
pub struct Takers {
    /// The event after which it was never witnessed, where it ever was.
    pub taken: Option<Event>,
    /// The event that had to drop its translation, where one had to.
    pub dropped: Option<Event>,
}

/// Appends moments after a word.
fn push_by(text: &mut String, moments: &Moments) -> Result<(), AllocError>
    ensures { OnOk result
        (string_bytes text.new ≡ string_bytes text.old ++ by_text moments.now) }
{
    text.push_str(" by")?;
    push_numbers(text, moments.as_slice())
}

/// Appends the PCID of moments, where it is another than the event's.
fn push_under(text: &mut String, other: Option<u16>) -> Result<(), AllocError>
    ensures { OnOk result
        (string_bytes text.new ≡ string_bytes text.old ++ under_text other) }
{
    match other {
        None => Ok(()),
        Some(pcid) => {
            write!(text, " under pcid 0x{pcid:x}")?;
            Ok(())
        }
    }
}

/// Appends the last number at which an event would have been witnessed, its moments there, and
/// their PCID where it is another than the event's. Fails only when out of memory, and may then
/// leave a part of it.
pub fn push_last_moments(text: &mut String, last: &Last) -> Result<(), AllocError>
    ensures { OnOk result
        (string_bytes text.new ≡ string_bytes text.old ++ last_moments_text last.now) }
{
    let number = last.number;
    write!(text, "last: moment {number}")?;
    push_by(text, &last.moments)?;
    push_under(text, last.other)
}

/// The number of the event after which another was no longer witnessed, where it ever was and no
/// other moments would do.
pub fn taker(other: Option<Moments>, last: Option<Last>) -> Option<u32>
    ensures { result ≡ taker other last }
{
    match (other, last) {
        (None, Some(last)) => Some(last.number),
        (None, None) | (Some(_), _) => None,
    }
}

/// The event after which another was no longer witnessed, where it ever was and these are the
/// events of the run.
pub fn taken_in(events: &[Event], last: Option<Last>) -> Option<Event>
    ensures { result ≡ taken_in events.now last }
{
    match last {
        None => None,
        Some(last) => event_at(events, last.number),
    }
}

/// The event with a number of these, where there is one.
pub(crate) fn dropped_in(events: &[Event], number: Option<u32>) -> Option<Event>
    ensures { result ≡ dropped_in events.now number }
{
    match number {
        None => None,
        Some(number) => event_at(events, number),
    }
}

/// Appends when an event would last have been witnessed, and the event that took that away.
pub(crate) fn push_last_seen(
    text: &mut String,
    taken: Option<Event>,
    last: &Last,
) -> Result<(), AllocError>
    ensures { OnOk result
        (string_bytes text.new ≡ string_bytes text.old ++ last_seen_by taken last.now) }
{
    push_last_moments(text, last)?;
    text.push_str("; taken by ")?;
    push_line_at(text, last.number, taken)?;
    text.push_str("\n")
}

/// Appends when an event would last have been witnessed, and what took that away, where these are
/// the events of its run.
pub(crate) fn push_taken(
    text: &mut String,
    events: &[Event],
    last: Option<Last>,
) -> Result<(), AllocError>
    ensures { OnOk result
        (string_bytes text.new ≡ string_bytes text.old ++ taken_text events.now last) }
{
    match last {
        None => text.push_str("last: never\n"),
        Some(last) => push_last_seen(text, event_at(events, last.number), &last),
    }
}
