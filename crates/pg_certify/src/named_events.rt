//! Events that are kept whole beside what is kept of all.

ghost use Rattle.std.specs.Prelude.{◌≡◌, ◌+◌, ◌≤◌, ◌^◌, ◌++◌, length, OnOk};
ghost use Rattle.pg_certify.specs.Accounts.{is_placeholder, is_named, named_from, whole_of};
ghost use Rattle.pg_certify.specs.Accounts.{with_named};

use pg_event::{Event, Moments, Outcome, Request};
use std::alloc::AllocError;

/// An event with its number.
#[derive(Clone, Copy)]
pub struct Numbered {
    pub number: u32,
    pub event: Event,
}

/// Whether moments are the placeholder of a recorder that keeps none: one moment, 0.
pub fn is_placeholder(moments: &Moments) -> bool
    ensures { result ≡ is_placeholder moments.now }
{
    match (moments.get(1), moments.get(0)) {
        (Some(_), _) => false,
        (None, None) => false,
        (None, Some(first)) => first == 0,
    }
}

/// Whether an event changes something and names moments other than one placeholder 0.
fn is_named(event: &Event) -> bool
    ensures { result ≡ is_named event.now }
{
    match event.request() {
        Request::Access {
            outcome,
            moments,
            ..
        } => match outcome {
            Outcome::Page(_) => false,
            Outcome::Fault(_) => !is_placeholder(&moments),
        },
        Request::Update { moments, .. } => !is_placeholder(&moments),
        Request::Nothing => false,
    }
}

fn push_named(named: &mut Vec<Numbered>, number: u32, event: &Event) -> Result<(), AllocError>
    ensures { OnOk result (named.new.items ≡ with_named named.old.items number event.now) }
{
    if is_named(event) {
        named.push(Numbered {
            number,
            event: *event,
        })?;
    }
    Ok(())
}

/// Keeps those of the events whole that change something and name moments, since a line that tells
/// of one shows them. The first event has this number. After an error some may be kept.
pub(crate) fn note_named(
    named: &mut Vec<Numbered>,
    first: u32,
    events: &[Event],
) -> Result<(), AllocError>
    requires { first + length events.now ≤ 2 ^ 32 }
    ensures { OnOk result
        (named.new.items ≡ named.old.items ++ named_from first events.now) }
{
    for (i, event) in events.iter().enumerate() {
        push_named(named, first + i as u32, event)?;
    }
    Ok(())
}

/// The event with this number: the one that is kept whole, or else what is kept of it.
pub(crate) fn whole_of(all: &[Numbered], number: u32, kept: Event) -> Event
    ensures { result ≡ whole_of all.now number kept }
{
    for named in all {
        if named.number == number {
            return named.event;
        }
    }
    kept
}
