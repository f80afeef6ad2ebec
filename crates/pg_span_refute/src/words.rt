//! What words may hold in a slot.

ghost use Rattle.std.specs.Prelude.{◌≡◌, ◌⊎◌, ◌↔◌, ℕ, ◌<◌, ◌^◌, [], length, IfOk, OnOk, IsTrue};
ghost use Rattle.std.specs.Prelude.{IfSome, IfNone, IsFalse, Bool};
ghost use Rattle.pg_machine.specs.Machine.{IsIn};
ghost use Rattle.pg_span_refute.specs.Memory.{MayHold, IsToCome, SetsFlagsOf};
ghost use Rattle.pg_span_refute.specs.Words.{AreWritesTo, IsWordOf, AreWordsOf, IsOverwritten};
ghost use Rattle.pg_span_refute.specs.Words.{IsWritten, WritesValue, AreBelow, IsPlaceOf, AreAllIn};
ghost use Rattle.pg_span_refute.specs.Words.{IsMarkedIn, AreAssistsOf, AreAssistsBelow, IsNotSet};
ghost use Rattle.pg_span_refute.specs.Words.{IsFlaggedIn, IsHeldIn};

use crate::slot::{Slot, is_past, is_to_come};
use pg_entry::{Entry, marked};
use pg_event::{Event, MemoryChange, says_dirty};
use pg_span_run::{SpannedRun, ended_before, must_precede};
use std::alloc::{AllocError, Global};

/// What a word costs beside its writes.
const LOOKS: u64 = 32;

/// So many writes are looked at for one that must follow the first of them. In version 3, which has
/// 64 processors at most, at most 63 of other processors end after it and need not follow it,
/// where no two events of one processor overlap.
const MOST_LATER: usize = 65;

/// A write to a word: the number of its event.
#[derive(Clone, Copy)]
pub(crate) struct Written {
    pub number: u32,
    pub value: u64,
}

/// An assist of a word: the number of its event, and whether it sets D beside A.
#[derive(Clone, Copy)]
pub(crate) struct Assisted {
    pub number: u32,
    pub dirty: bool,
}

/// All writes to a word and all assists of it, as they ended.
#[derive(Drop)]
pub(crate) struct Word {
    pub address: u64,
    pub writes: Vec<Written>,
    pub assists: Vec<Assisted>,
}

/// The words that were looked at, and what the last of them may hold.
#[derive(Drop)]
pub(crate) struct Words {
    pub alloc: Global,
    pub words: Vec<Word>,
    pub values: Vec<u64>,
    /// So much more may be looked at.
    left: u64,
}

/// The value that an event writes to a word.
fn value_written(event: &Event, address: u64) -> Option<u64>
    ensures some { IfSome result (λ value. WritesValue address value event.now) }
    ensures none { IfNone result ((value : ℕ) → WritesValue address value event.now → ⊥) }
{
    match event.memory_change() {
        MemoryChange::Value { addr, value } => { if addr == address { Some(value) } else { None } }
        MemoryChange::Flags { .. } | MemoryChange::Nothing => None,
    }
}

/// The writes to a word.
fn writes_to(alloc: Global, events: &[Event], address: u64) -> Result<Vec<Written>, AllocError>
    requires { length events.now < 2 ^ 32 }
    ensures { IfOk result (λ writes. AreWritesTo events.now address writes.items) }
{
    let mut writes = Vec::new(alloc);
    for (number, event) in events.iter().enumerate() {
        if let Some(value) = value_written(event, address) {
            writes.push(Written {
                number: number as u32,
                value,
            })?;
        }
    }
    Ok(writes)
}

/// The flags that an event sets in a word: whether D beside A.
fn flags_set(event: &Event, address: u64) -> Option<bool>
    ensures some { IfSome result (λ dirty. SetsFlagsOf address dirty event.now) }
    ensures none { IfNone result ((dirty : Bool) → SetsFlagsOf address dirty event.now → ⊥) }
{
    match *event {
        Event::Assist { flags, word, .. } => {
            if word == address {
                Some(says_dirty(flags))
            } else {
                None
            }
        }
        Event::Write { .. }
        | Event::Access { .. }
        | Event::MovCr3 { .. }
        | Event::Invlpg { .. }
        | Event::Invpcid { .. }
        | Event::MovCr4Pge { .. } => None,
    }
}

/// The assists of a word.
fn assists_of(alloc: Global, events: &[Event], address: u64) -> Result<Vec<Assisted>, AllocError>
    requires { length events.now < 2 ^ 32 }
    ensures { IfOk result (λ assists. AreAssistsOf events.now address assists.items) }
{
    let mut assists = Vec::new(alloc);
    for (number, event) in events.iter().enumerate() {
        if let Some(dirty) = flags_set(event, address) {
            assists.push(Assisted {
                number: number as u32,
                dirty,
            })?;
        }
    }
    Ok(assists)
}

/// Whether one of the first of these writes must follow event j and has come.
fn is_overwritten(run: &SpannedRun, slot: Slot<'_>, writes: &[Written], j: u32) -> bool
    requires { AreBelow (length run.now.events) writes.now }
    ensures { IsTrue result → IsOverwritten run.now slot.entry writes.now j }
{
    let next = &writes[..writes.len().min(MOST_LATER)];
    for written in next {
        if is_past(run, slot, written.number) && must_precede(run, j, written.number) {
            return true;
        }
    }
    false
}

/// Whether one of these writes has come.
fn is_written(run: &SpannedRun, slot: Slot<'_>, writes: &[Written]) -> bool
    ensures { IsTrue result ↔ IsWritten run.now slot.entry writes.now }
{
    for written in writes {
        if is_past(run, slot, written.number) {
            return true;
        }
    }
    false
}

/// Whether a write may be the last to its word in a slot. Not where it is below a bound, or comes
/// later, or another must follow it and has come.
fn may_be_last(
    run: &SpannedRun,
    slot: Slot<'_>,
    bound: u32,
    writes: &[Written],
    written: Written,
) -> bool
    requires within { written.number < length run.now.events }
    requires writes { AreBelow (length run.now.events) writes.now }
    ensures { IsFalse result → (written.number < bound)
        ⊎ (IsToCome run.now slot.entry written.number
        ⊎ IsOverwritten run.now slot.entry writes.now written.number) }
{
    if written.number < bound || is_to_come(run, slot, written.number) {
        return false;
    }
    !is_overwritten(run, slot, writes, written.number)
}

/// A number below which each event was overwritten by one of these writes that has come.
fn overwritten_below(run: &SpannedRun, slot: Slot<'_>, writes: &[Written]) -> u32
    requires { AreBelow (length run.now.events) writes.now }
    ensures { (j : ℕ) → j < result → IsOverwritten run.now slot.entry writes.now j }
{
    let mut bound: u32 = 0;
    for written in writes {
        if written.number < slot.ended {
            bound = bound.max(ended_before(run, written.number));
        }
    }
    bound
}

/// Adds a value, and what it is once assists set its flags.
fn push_marked(value: u64, values: &mut Vec<u64>) -> Result<(), AllocError>
    ensures more { OnOk result (AreAllIn values.old.items values.new.items) }
    ensures marked { OnOk result (IsMarkedIn value values.new.items) }
{
    values.push(value)?;
    values.push(marked(Entry(value), false).0)?;
    values.push(marked(Entry(value), true).0)?;
    Ok(())
}

/// Whether an assist that sets such flags may have come between a write and a slot.
fn may_be_set(
    run: &SpannedRun,
    slot: Slot<'_>,
    assists: &[Assisted],
    write: u32,
    dirty: bool,
) -> bool
    requires within { write < length run.now.events }
    requires assists { AreAssistsBelow (length run.now.events) assists.now }
    ensures { IsFalse result → IsNotSet run.now slot.entry assists.now write dirty }
{
    for assist in assists {
        if assist.dirty == dirty
            && !is_to_come(run, slot, assist.number)
            && !must_precede(run, assist.number, write)
        {
            return true;
        }
    }
    false
}

/// Adds the value of a write with such flags, where an assist that sets them may have come since.
fn push_flagged(
    run: &SpannedRun,
    slot: Slot<'_>,
    assists: &[Assisted],
    written: Written,
    dirty: bool,
    values: &mut Vec<u64>,
) -> Result<(), AllocError>
    requires within { written.number < length run.now.events }
    requires assists { AreAssistsBelow (length run.now.events) assists.now }
    ensures more { OnOk result (AreAllIn values.old.items values.new.items) }
    ensures flagged { OnOk result
        (IsFlaggedIn run.now slot.entry assists.now written values.new.items dirty) }
{
    if may_be_set(run, slot, assists, written.number, dirty) {
        values.push(marked(Entry(written.value), dirty).0)?;
    }
    Ok(())
}

/// Adds the value of a write, and what it is once assists that may have come since set its flags.
fn push_held(
    run: &SpannedRun,
    slot: Slot<'_>,
    assists: &[Assisted],
    written: Written,
    values: &mut Vec<u64>,
) -> Result<(), AllocError>
    requires within { written.number < length run.now.events }
    requires assists { AreAssistsBelow (length run.now.events) assists.now }
    ensures more { OnOk result (AreAllIn values.old.items values.new.items) }
    ensures held { OnOk result
        (IsHeldIn run.now slot.entry assists.now written values.new.items) }
{
    values.push(written.value)?;
    push_flagged(run, slot, assists, written, false, values)?;
    push_flagged(run, slot, assists, written, true, values)?;
    Ok(())
}

/// The values that a word may hold in a slot, put into a list.
fn put_values(
    run: &SpannedRun,
    slot: Slot<'_>,
    word: &Word,
    values: &mut Vec<u64>,
) -> Result<(), AllocError>
    requires { IsWordOf run.now.events word.now }
    ensures { OnOk result ((value : ℕ) → MayHold run.now slot.entry word.now.address value →
        IsIn value values.new.items) }
{
    let writes = word.writes.as_slice();
    let assists = word.assists.as_slice();
    let bound = overwritten_below(run, slot, writes);
    for (place, written) in writes.iter().enumerate() {
        // Those that follow come later in the list.
        if may_be_last(run, slot, bound, &writes[place..], *written) {
            push_held(run, slot, assists, *written, values)?;
        }
    }
    if !is_written(run, slot, writes) {
        push_marked(0, values)?;
    }
    Ok(())
}

/// The place of a word, if it is there.
fn find_place(words: &[Word], address: u64) -> Option<usize>
    ensures { IfSome result (λ place. IsPlaceOf words.now place address) }
{
    for (place, word) in words.iter().enumerate() {
        if word.address == address {
            return Some(place);
        }
    }
    None
}

impl Words {
    /// None was looked at. So much may be: an event or a write that is passed over counts as one.
    pub(crate) fn new(alloc: Global, most: u64) -> Words
        ensures { result.words.items ≡ [] }
    {
        Words {
            alloc,
            words: Vec::new(alloc),
            values: Vec::new(alloc),
            left: most,
        }
    }

    /// Counts what is looked at. Says no where it would be too much.
    pub(crate) fn may_look(&mut self, looks: u64) -> bool
        ensures { self.new.words.items ≡ self.old.words.items }
    {
        if self.left < looks {
            return false;
        }
        self.left -= looks;
        true
    }

    /// The place of a word among those that were looked at, with its writes if it is new.
    fn place_of(&mut self, events: &[Event], address: u64) -> Result<usize, AllocError>
        requires count { length events.now < 2 ^ 32 }
        requires words { AreWordsOf events.now self.old.words.items }
        ensures { IfOk result (λ place. AreWordsOf events.now self.new.words.items
            × IsPlaceOf self.new.words.items place address) }
    {
        if let Some(place) = find_place(&self.words, address) {
            return Ok(place);
        }
        let place = self.words.len();
        let writes = writes_to(self.alloc, events, address)?;
        let assists = assists_of(self.alloc, events, address)?;
        self.words.push(Word {
            address,
            writes,
            assists,
        })?;
        Ok(place)
    }

    /// Puts the values that a word may hold in a slot into `values`. Says no where too much was
    /// looked at, and then they are not all there.
    pub(crate) fn look(
        &mut self,
        run: &SpannedRun,
        slot: Slot<'_>,
        address: u64,
    ) -> Result<bool, AllocError>
        requires { AreWordsOf run.now.events self.old.words.items }
        ensures words { OnOk result (AreWordsOf run.now.events self.new.words.items) }
        ensures values { IfOk result (λ whole. IsTrue whole → (value : ℕ) →
            MayHold run.now slot.entry address value → IsIn value self.new.values.items) }
    {
        let place = self.place_of(run.events(), address)?;
        self.values.clear();
        let word = &self.words[place];
        let count = (word.writes.len() as u64).saturating_add(word.assists.len() as u64);
        let looks = count.saturating_add(LOOKS);
        if self.left < looks {
            return Ok(false);
        }
        self.left -= looks;
        put_values(run, slot, word, &mut self.values)?;
        Ok(true)
    }
}
