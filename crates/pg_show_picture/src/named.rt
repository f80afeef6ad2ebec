//! Which events and entries of an explanation are drawn.

ghost use Rattle.std.specs.Prelude.{◌≡◌, ◌<◌, ◌≤◌, ◌^◌, length, IfOk};
ghost use Rattle.pg_show_picture.specs.Named.{drawn, is_at, drop_at, dropper_of};
ghost use Rattle.pg_show_picture.specs.Named.{is_dropper, is_taker, is_writer, is_named, named};

use pg_entry::Level;
use pg_event::Event;
use pg_explain::{Explanation, Finding, WalkEntry, down_to_end, level_number, taker};
use std::alloc::{AllocError, Global};

/// How many levels a walk has.
const LEVELS: usize = 4;

/// The entries of a walk that are drawn.
pub(crate) fn drawn(walk: &[WalkEntry]) -> &[WalkEntry]
    ensures entries { result.now ≡ drawn walk.now }
    ensures count { length result.now ≤ 4 }
{
    down_to_end(&walk[..LEVELS.min(walk.len())])
}

fn is_at(number: u32, at: Option<u32>) -> bool
    ensures { result ≡ is_at number at }
{
    match at {
        None => false,
        Some(at) => at == number,
    }
}

fn drop_at(here: Level, level: Level, at: u32) -> Option<u32>
    ensures { result ≡ drop_at here level at }
{
    if level_number(here) == level_number(level) {
        Some(at)
    } else {
        None
    }
}

/// The event by which the entry of this level had to go.
pub(crate) fn dropper_of(here: Level, finding: Finding) -> Option<u32>
    ensures { result ≡ dropper_of here finding }
{
    match finding {
        Finding::StructureDropped { level, at } | Finding::TranslationDropped { level, at } => {
            drop_at(here, level, at)
        }
        Finding::Order { .. }
        | Finding::Entry { .. }
        | Finding::Context { .. }
        | Finding::ForeignPcid { .. }
        | Finding::NotAtEvent { .. }
        | Finding::Rights { .. }
        | Finding::Answer { .. }
        | Finding::Code { .. }
        | Finding::Accessed { .. }
        | Finding::Dirty { .. }
        | Finding::Assist(_) => None,
    }
}

/// Whether an entry had to go by this event.
pub(crate) fn is_dropper(explanation: &Explanation, number: u32) -> bool
    ensures { result ≡ is_dropper explanation.now number }
{
    is_at(number, explanation.finding.dropper())
}

/// Whether no moments prove the bad event after this one.
pub(crate) fn is_taker(explanation: &Explanation, number: u32) -> bool
    ensures { result ≡ is_taker explanation.now number }
{
    is_at(number, taker(explanation.other, explanation.last))
}

/// Whether an event wrote one of these entries.
fn is_writer(walk: &[WalkEntry], number: u32) -> bool
    ensures { result ≡ is_writer walk.now number }
{
    for entry in walk {
        if is_at(number, entry.writer) {
            return true;
        }
    }
    false
}

fn is_named(explanation: &Explanation, walk: &[WalkEntry], number: u32) -> bool
    ensures { result ≡ is_named explanation.now walk.now number }
{
    number == explanation.number
        || is_dropper(explanation, number)
        || is_taker(explanation, number)
        || is_writer(walk, number)
}

/// The numbers of the events that an explanation names, ascending, where these are the entries that
/// are drawn. It takes one pass over all events.
pub(crate) fn named(
    alloc: Global,
    explanation: &Explanation,
    walk: &[WalkEntry],
    events: &[Event],
) -> Result<Vec<u32>, AllocError>
    requires { length events.now < 2 ^ 32 }
    ensures numbers { IfOk result (λ found. found.items
        ≡ named explanation.now walk.now events.now) }
    ensures count { IfOk result (λ found. length found.items < 2 ^ 32) }
{
    let mut found = Vec::new(alloc);
    for (i, _event) in events.iter().enumerate() {
        if is_named(explanation, walk, i as u32) {
            found.push(i as u32)?;
        }
    }
    Ok(found)
}
