ghost use Rattle.std.specs.Prelude.{◌≡◌, ◌<◌, ◌≤◌, ◌^◌, false, true, [], length, None, IsNone};
ghost use Rattle.std.specs.Prelude.{IfOk, IfErr, OnOk, OnErr, IfSome, IsTrue, ◌↔◌, is_some};
ghost use Rattle.std.specs.Prelude.{if◌then◌else◌};
ghost use Rattle.pg_event.specs.declared.event.Event.TheVariants.{Write};
ghost use Rattle.pg_event.specs.Heads.{judges_accessed};
ghost use Rattle.pg_event.specs.Spelling.{IsHead};
ghost use Rattle.pg_world.specs.Recording.{sealed_count, segment_of, receipt_of, with_event};
ghost use Rattle.pg_world.specs.Recording.{with_taken, event_refusal, commit_refusal};
ghost use Rattle.pg_world.specs.Recording.{control_refusal, IsRefusedBy};
ghost use Rattle.pg_world.specs.Kept.{IsKept, IsSegment};
ghost use Rattle.pg_world.specs.Walks.{moments_of, is_walk, word_now, lacks_dirty, fault_of};
ghost use Rattle.pg_world.specs.Walks.{assist_of, used_entry, found_in, adds_event, after_found};
ghost use Rattle.pg_world.specs.Walks.{read_refusal};

use crate::error::WorldError;
use crate::kinds::{is_access, is_control};
use crate::memory::Memory;
use crate::receipt::Receipt;
use crate::walk::{LevelRead, Walk, assist_flags, is_walk};
use crate::widths::event_fits;
use pg_entry::{Cause, Entry, Kind, Op, accessed, classify, combine, dirty, error_code};
use pg_event::{
    Event, Header, Outcome, Record, Version, entry_address, flags_of, may_dirty, processor_of,
    well_formed,
};
use std::alloc::{AllocError, Global};
use std::marker::Model;

/// As many events as a record may have.
const MOST_EVENTS: usize = 4_294_967_295;

/// Table memory and the record of a run so far. Processors read and write it one call at a time,
/// and each call records one event at most. Its events are cut into segments of the size that the
/// header says: a full one is sealed, and the last one once the record is finished.
#[derive(Drop)]
pub struct World {
    header: Header,
    events: Vec<Event>,
    memory: Memory,
    taken: u64,
    finished: bool,
}

impl Model for World {
    ghost use Rattle.pg_world.specs.Recording.{Recording};

    ghost Value = { Recording };

    ghost use Rattle.pg_world.specs.Kept.{IsWorld};

    ghost view = { λ w. record {
      head = w.header;
      events = w.events.items;
      taken = w.taken;
      finished = w.finished;
    } };

    ghost invariant = { λ w. IsWorld (record {
      head = w.header;
      events = w.events.items;
      taken = w.taken;
      finished = w.finished;
    }) w.memory };
}

impl World {
    /// A run before its first event: memory is all zero.
    pub fn new(alloc: Global, header: Header) -> World
        requires { IsHead header }
        ensures { result
            ≡ record { head = header; events = []; taken = 0; finished = false } }
    {
        World {
            header,
            events: Vec::new(alloc),
            memory: Memory::new(alloc),
            taken: 0,
            finished: false,
        }
    }

    /// Records that a processor writes a value to the word of table memory at a physical byte
    /// address.
    pub fn write(&mut self, p: u16, addr: u64, value: u64) -> Result<Receipt, WorldError>
        ensures receipt { IfOk result
            (λ receipt. receipt ≡ receipt_of self.old.events (Write p addr value)) }
        ensures recorded { OnOk result (self.new ≡ with_event self.old (Write p addr value)) }
        ensures ok { OnOk result (event_refusal self.old (Write p addr value) ≡ None) }

        ensures refused { IfErr result
            (IsRefusedBy true (event_refusal self.old (Write p addr value))) }
        ensures err { OnErr result (self.new ≡ self.old) }
    {
        self.record(&Event::Write { p, addr, value })
    }

    /// Adds an event. All growths come first, so that one that is refused changes nothing.
    fn record(&mut self, event: &Event) -> Result<Receipt, WorldError>
        ensures receipt { IfOk result (λ receipt. receipt ≡ receipt_of self.old.events event.now) }
        ensures recorded { OnOk result (self.new ≡ with_event self.old event.now) }
        ensures ok { OnOk result (event_refusal self.old event.now ≡ None) }

        ensures refused { IfErr result (IsRefusedBy true (event_refusal self.old event.now)) }
        ensures err { OnErr result (self.new ≡ self.old) }
    {
        if well_formed(&self.header, event).is_err() {
            return Err(WorldError::Malformed);
        }
        if self.events.len() >= MOST_EVENTS {
            return Err(WorldError::Full);
        }
        if self.finished {
            return Err(WorldError::Finished);
        }
        event_fits(event);
        let moment = self.events.len() as u32;
        self.events.reserve(1)?;
        self.memory.take(event)?;
        self.events.push(*event).unwrap();
        Ok(Receipt {
            moment,
            event: *event,
        })
    }

    /// Records an access of a processor, with its outcome and its moments.
    pub fn commit(&mut self, p: u16, access: &Event) -> Result<Receipt, WorldError>
        ensures receipt { IfOk result (λ receipt. receipt ≡ receipt_of self.old.events access.now) }
        ensures recorded { OnOk result (self.new ≡ with_event self.old access.now) }
        ensures ok { OnOk result (commit_refusal self.old p access.now ≡ None) }

        ensures refused { IfErr result
            (IsRefusedBy true (commit_refusal self.old p access.now)) }
        ensures err { OnErr result (self.new ≡ self.old) }
    {
        if !is_access(access) || processor_of(access) != p {
            return Err(WorldError::Malformed);
        }
        self.record(access)
    }

    /// Records an instruction of a processor that changes its control registers or invalidates.
    pub fn control(&mut self, p: u16, event: &Event) -> Result<Receipt, WorldError>
        ensures receipt { IfOk result (λ receipt. receipt ≡ receipt_of self.old.events event.now) }
        ensures recorded { OnOk result (self.new ≡ with_event self.old event.now) }
        ensures ok { OnOk result (control_refusal self.old p event.now ≡ None) }

        ensures refused { IfErr result
            (IsRefusedBy true (control_refusal self.old p event.now)) }
        ensures err { OnErr result (self.new ≡ self.old) }
    {
        if !is_control(event) || processor_of(event) != p {
            return Err(WorldError::Malformed);
        }
        self.record(event)
    }

    /// Reads a level for a walk of a processor. An absent or reserved entry gives a page fault, and
    /// in version 2 an entry with A = 0, or a leaf with D = 0 for a write that the rights of the
    /// walk allow, an assist; either is recorded in the same step. Where neither is, no memory is
    /// taken.
    pub fn read_or_fault(&mut self, p: u16, walk: &Walk) -> Result<LevelRead, WorldError>
        ensures found { IfOk result (λ found. found ≡ found_in self.old p walk.now) }
        ensures recorded { OnOk result
            (self.new ≡ after_found self.old (found_in self.old p walk.now)) }
        ensures ok { OnOk result (read_refusal self.old p walk.now ≡ None) }

        ensures refused { IfErr result (IsRefusedBy (adds_event (found_in self.old p walk.now))
            (read_refusal self.old p walk.now)) }
        ensures err { OnErr result (self.new ≡ self.old) }
    {
        if !is_walk(&self.header, p, walk) {
            return Err(WorldError::Malformed);
        }
        let found = self.found(p, walk);
        match &found {
            LevelRead::Entry { .. } => {
                if self.finished {
                    return Err(WorldError::Finished);
                }
            }
            LevelRead::Fault(receipt) | LevelRead::Assisted(receipt) => {
                match self.record(&receipt.event) {
                    Ok(_) => {}
                    Err(error) => return Err(error),
                }
            }
        }
        Ok(found)
    }

    /// What a read comes to.
    fn found(&self, p: u16, walk: &Walk) -> LevelRead
        requires table { walk.now.table < 2 ^ 52 }
        requires moments { length (moments_of walk.now.moments) ≤ 3 }
        ensures { result ≡ found_in self.now p walk.now }
    {
        let value = self.word(entry_address(walk.table, walk.level, walk.la));
        let kind = classify(self.header.cfg, walk.level, Entry(value));
        match kind {
            Kind::Absent => LevelRead::Fault(self.fault(p, walk, Cause::Absent)),
            Kind::Reserved => LevelRead::Fault(self.fault(p, walk, Cause::Reserved)),
            Kind::Table { .. } | Kind::Leaf { .. } => self.used_entry(p, walk, value, kind),
        }
    }

    /// What the read of an entry comes to that is present and has no reserved bit set.
    fn used_entry(&self, p: u16, walk: &Walk, value: u64, kind: Kind) -> LevelRead
        requires table { walk.now.table < 2 ^ 52 }
        requires moments { length (moments_of walk.now.moments) ≤ 3 }
        ensures { result ≡ used_entry self.now.head self.now.events p walk.now value kind }
    {
        let is_dirty = self.lacks_dirty(walk, value, kind);
        if self.judges_accessed() && (!accessed(Entry(value)) || is_dirty) {
            LevelRead::Assisted(self.assist(p, walk, is_dirty))
        } else {
            LevelRead::Entry {
                value,
                moment: self.events.len() as u32,
            }
        }
    }

    /// Whether accessed and dirty flags are judged.
    fn judges_accessed(&self) -> bool
        ensures { result ≡ judges_accessed self.now.head.version }
    {
        match self.header.version {
            Version::One => false,
            Version::Two => true,
        }
    }

    /// Whether a page is to be written whose leaf has D = 0, by a write that the rights of the
    /// whole walk allow.
    fn lacks_dirty(&self, walk: &Walk, value: u64, kind: Kind) -> bool
        ensures { result ≡ lacks_dirty self.now.head.cfg walk.now value kind }
    {
        let entry = Entry(value);
        matches!(walk.kind.op, Op::Write)
            && !dirty(entry)
            && may_dirty(
                self.header.cfg,
                walk.kind,
                combine(walk.rights, entry),
                kind,
            )
    }

    /// The fault of a walk that ends at an absent or reserved entry, as the next event.
    fn fault(&self, p: u16, walk: &Walk, cause: Cause) -> Receipt
        requires { length (moments_of walk.now.moments) ≤ 3 }
        ensures { let es = self.now.events in
            result ≡ receipt_of es (fault_of self.now.head.cfg es p walk.now cause) }
    {
        let moment = self.events.len() as u32;
        Receipt {
            moment,
            event: Event::Access {
                p,
                flags: flags_of(walk.kind),
                la: walk.la,
                outcome: Outcome::Fault(error_code(self.header.cfg, walk.kind, cause)),
                moments: walk.moments_with(moment),
            },
        }
    }

    /// The assist for an entry, as the next event.
    fn assist(&self, p: u16, walk: &Walk, is_dirty: bool) -> Receipt
        requires table { walk.now.table < 2 ^ 52 }
        requires moments { length (moments_of walk.now.moments) ≤ 3 }
        ensures { let es = self.now.events in
            result ≡ receipt_of es (assist_of es p walk.now is_dirty) }
    {
        let moment = self.events.len() as u32;
        Receipt {
            moment,
            event: Event::Assist {
                p,
                flags: assist_flags(walk.kind, is_dirty),
                la: walk.la,
                word: entry_address(walk.table, walk.level, walk.la),
                moments: walk.moments_with(moment),
            },
        }
    }

    /// The word at a physical byte address now.
    fn word(&self, addr: u64) -> u64
        ensures { result ≡ word_now self.now.events addr }
    {
        self.memory.word(addr)
    }

    /// A copy of the next sealed segment that was not yet given out, if there is one; else no
    /// memory is taken. Fails where memory is refused, and then the same segment is the next.
    pub fn take_sealed(&mut self, alloc: Global) -> Result<Option<Vec<Event>>, AllocError>
        ensures none { IfOk result
            (λ taken. IsNone taken ↔ (self.old.taken ≡ sealed_count self.old)) }
        ensures segment { IfOk result (λ taken. IfSome taken
            (λ segment. segment.items ≡ segment_of self.old self.old.taken)) }
        ensures formed { IfOk result (λ taken. IfSome taken
            (λ segment. IsSegment self.old segment.items)) }
        ensures taken { IfOk result (λ taken. self.new
            ≡ (if is_some taken then with_taken self.old else self.old)) }

        ensures refused { OnErr result (self.old.taken < sealed_count self.old) }
        ensures err { OnErr result (self.new ≡ self.old) }
    {
        if self.taken >= self.sealed() {
            return Ok(None);
        }
        let size = self.header.segment as usize;
        let from = self.taken as usize * size;
        let to = self.events.len().min(from + size);
        let segment = Vec::from_slice(alloc, &self.events[from..to])?;
        self.taken += 1;
        Ok(Some(segment))
    }

    /// Finishes the record: what is left is sealed as the last segment, and nothing more can be
    /// recorded or read. On a finished record it changes nothing.
    pub fn finish(&mut self)
        ensures { self.new ≡ record self.old { finished = true } }
    {
        self.finished = true;
    }

    /// How many events stand.
    pub fn len(&self) -> u64
        ensures length { result ≡ length self.now.events }
        ensures kept { IsKept self.now }
    {
        self.events.len() as u64
    }

    /// How many segments are sealed, given out or not.
    pub fn sealed(&self) -> u64
        ensures count { result ≡ sealed_count self.now }
        ensures within { result ≤ length self.now.events }
    {
        let size = self.header.segment as u64;
        let count = self.len();
        if self.finished {
            count.div_ceil(size)
        } else {
            count / size
        }
    }

    /// The settings of the run.
    pub fn header(&self) -> &Header
        ensures header { result.now ≡ self.now.head }
        ensures kept { IsKept self.now }
    {
        &self.header
    }

    /// The record of all events so far, finished or not.
    pub fn into_record(self) -> Record
        ensures header { result.header ≡ self.head }
        ensures events { result.events.items ≡ self.events }
        ensures kept { IsKept self }
    {
        Record {
            header: self.header,
            events: self.events,
        }
    }
}
