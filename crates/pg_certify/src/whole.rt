//! Events of a history, one by one.

ghost use Rattle.std.specs.Prelude.{◌≡◌, ◌<◌, ◌≤◌, ◌^◌, Some, None, length, slice_get};
ghost use Rattle.std.specs.Prelude.{IfOk, IfSome, IfNone};
ghost use Rattle.pg_event.specs.Form.{broken_rule};
ghost use Rattle.pg_certify.specs.Certified.{IsDenied, Certifies, CanBeCertified};
ghost use Rattle.pg_certify.specs.Segments.{IsBetween, IsLeastDenied};

use crate::certifier::{Certified, Certifier};
use crate::judging::Whole;
use crate::mapped::Events;
use pg_check::History;
use pg_event::Event;
use pg_search::Seen;
use std::alloc::{AllocError, Global};

/// The event with this number.
fn event_at(history: &History, i: u64) -> &Event
    requires { i < length history.now.events }
    ensures there { slice_get history.now.events i ≡ Some result.now }
    ensures well { broken_rule history.now.head result.now ≡ None }
{
    &history.events()[i as usize]
}

/// One that is to find moments for events of a history, with room for so many walks.
pub(crate) fn certifier_of<'a>(
    alloc: Global,
    history: &'a History,
    walks: usize,
) -> Certifier<Whole<'a>>
    ensures { result ≡ history.entry.now }
{
    let events = Events::Whole(history.events());
    Certifier::new(alloc, Whole::new(Seen::of(history), events, walks))
}

/// Of the events from one number on and below another, the least that no moments witness, or `None`
/// where some moments witness each.
pub(crate) fn first_denied_between(
    certifier: &mut Certifier<Whole<'_>>,
    history: &History,
    from: u64,
    to: u64,
) -> Result<Option<u64>, AllocError>
    requires run { certifier.old ≡ history.now }
    requires within { to ≤ length history.now.events }
    requires count { to < 2 ^ 32 }
    ensures same { certifier.new ≡ certifier.old }
    ensures denied { IfOk result
        (IsLeastDenied (IsBetween from to) history.now.head history.now.events) }
{
    for i in from..to {
        let asked = event_at(history, i);
        match certifier.find(i as u32, asked)? {
            Some(_) => certifier.see(i as u32, asked),
            None => return Ok(Some(i)),
        }
    }
    Ok(None)
}

/// The least event that no moments witness, or `None` where some moments make the run's events an
/// accepted record.
///
/// It fails only where memory is refused.
pub fn first_denied(alloc: Global, history: &History) -> Result<Option<u64>, AllocError>
    ensures denied { IfOk result
        (λ r. IfSome r (IsDenied history.now.head history.now.events)) }
    ensures certified { IfOk result
        (λ r. IfNone r (CanBeCertified history.now.head history.now.events)) }
{
    let count = history.len();
    let mut certifier = certifier_of(alloc, history, count as usize);
    first_denied_between(&mut certifier, history, 0, count)
}

/// Moments for all events of a run, or the least event that no moments witness: `first_denied`
/// tells the same and keeps nothing.
///
/// It fails only where memory is refused.
pub fn certify(alloc: Global, history: &History) -> Result<Certified, AllocError>
    ensures { IfOk result (Certifies history.now.head history.now.events) }
{
    let mut certifier = certifier_of(alloc, history, history.len() as usize);
    let mut found = Vec::new(alloc);
    for i in 0..history.len() {
        let asked = event_at(history, i);
        match certifier.find(i as u32, asked)? {
            Some(event) => {
                found.push(event)?;
            }
            None => return Ok(Certified::No(i)),
        }
        certifier.see(i as u32, asked);
    }
    Ok(Certified::Yes(found))
}
