//! Words that events write.

ghost use Rattle.std.specs.Prelude.{◌≡◌, ◌++◌, ◌<◌, ◌^◌, length, IfOk, OnOk};
ghost use Rattle.pg_search.specs.Writers.{word_of, listed_of, HaveWritten};

use pg_event::{Event, MemoryChange};
use std::alloc::{AllocError, Global};

/// A word that an event wrote, or of which it set flags.
#[derive(Clone, Copy)]
pub struct Written {
    /// The moment just behind the event, from which on the word has the value that it left.
    pub since: u32,
    /// The physical address of the word.
    pub word: u64,
}

/// The physical address of the word that an event writes, or of which it sets flags, if there is
/// one.
pub(crate) fn word_of(event: &Event) -> Option<u64>
    ensures { result ≡ word_of event.now }
{
    match event.memory_change() {
        MemoryChange::Value { addr, .. } | MemoryChange::Flags { addr, .. } => Some(addr),
        MemoryChange::Nothing => None,
    }
}

/// Lists the word that an event with a number writes, if it writes one and is below a moment.
pub(crate) fn list_written(
    found: &mut Vec<Written>,
    moment: u32,
    number: u32,
    word: Option<u64>,
) -> Result<(), AllocError>
    ensures { OnOk result
        (found.new.items ≡ found.old.items ++ listed_of moment number word) }
{
    if let Some(word) = word {
        if number < moment {
            let since = number + 1;
            found.push(Written { since, word })?;
        }
    }
    Ok(())
}

/// The words that those of these events write which are below a moment.
pub(crate) fn written_among(
    alloc: Global,
    events: &[Event],
    moment: u32,
) -> Result<Vec<Written>, AllocError>
    requires { length events.now < 2 ^ 32 }
    ensures { IfOk result (λ found. HaveWritten events.now moment found.items) }
{
    let mut found = Vec::new(alloc);
    for i in 0..moment.min(events.len() as u32) {
        list_written(&mut found, moment, i, word_of(&events[i as usize]))?;
    }
    Ok(found)
}
