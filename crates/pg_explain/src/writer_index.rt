//! Who wrote each word, for those who ask it of many.

ghost use Rattle.std.specs.Prelude.{◌≡◌, ◌<◌, ◌≤◌, ◌^◌, length, IfOk, OnOk};
ghost use Rattle.pg_moment.specs.Versions.{next_moment};
ghost use Rattle.pg_search.specs.Writers.{IsWriter};
ghost use Rattle.pg_explain.specs.Writers.{AreWriters, IsNotedWriter};

use pg_check::History;
use pg_event::{Event, MemoryChange};
use pg_moment::Versions;
use std::alloc::{AllocError, Global};
use std::marker::Model;

/// The events of a run, with what tells at once which of them wrote a word.
#[derive(Drop)]
pub struct WriterIndex<'a> {
    events: &'a [Event],
    /// In the place of each word's values the numbers behind the events that wrote it.
    behind: Versions,
}

impl<'a> Model for WriterIndex<'a> {
    ghost use Rattle.std.specs.Prelude.{List};
    ghost use Rattle.pg_event.specs.declared.event.Event.{Event};
    ghost use Rattle.pg_explain.specs.Writers.{AreWriters};

    ghost Value = { List Event };

    ghost view = { λ w. w.events.now };

    ghost invariant = { λ w. AreWriters w.events.now w.behind };
}

/// Notes the event with this number, which is the next, where it writes a word.
fn note_writer(behind: &mut Versions, number: u32, event: &Event) -> Result<(), AllocError>
    requires { next_moment behind.old ≤ number }
    ensures { OnOk result (IsNotedWriter behind.old behind.new number event.now) }
{
    match event.memory_change() {
        MemoryChange::Value { addr, .. } | MemoryChange::Flags { addr, .. } => {
            behind.note(number, addr, number as u64 + 1)
        }
        MemoryChange::Nothing => Ok(()),
    }
}

/// The numbers behind the events that wrote each word.
fn behind_writers(alloc: Global, events: &[Event]) -> Result<Versions, AllocError>
    requires { length events.now < 2 ^ 32 }
    ensures { IfOk result (AreWriters events.now) }
{
    let mut behind = Versions::new(alloc);
    for i in 0..events.len() as u32 {
        note_writer(&mut behind, i, &events[i as usize])?;
    }
    Ok(behind)
}

impl<'a> WriterIndex<'a> {
    /// Looks once through the events of a run. Fails only when out of memory.
    pub fn of(alloc: Global, history: &'a History) -> Result<WriterIndex<'a>, AllocError>
        ensures { IfOk result (λ writers. writers ≡ history.now.events) }
    {
        let events = history.events();
        let behind = behind_writers(alloc, events)?;
        Ok(WriterIndex { events, behind })
    }

    /// The last event below a moment that writes the word at a physical address.
    pub(crate) fn writer(&self, address: u64, moment: u32) -> Option<u32>
        ensures { IsWriter self.now address moment result }
    {
        match self.behind.at(moment, address) {
            0 => None,
            behind => Some((behind - 1) as u32),
        }
    }
}
