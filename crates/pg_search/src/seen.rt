//! What a search sees of a run.

ghost use Rattle.std.specs.Prelude.{◌≡◌, ◌&&◌, ◌<◌, ◌≤◌, ◌^◌, false, length, IfOk};
ghost use Rattle.pg_entry.specs.Kinds.{IsPageShift};
ghost use Rattle.pg_event.specs.Spelling.{IsHead};
ghost use Rattle.pg_event.specs.Values.{mem_at, control_at};
ghost use Rattle.pg_event.specs.Invalidation.{structure_key, translation_key};
ghost use Rattle.pg_event.specs.Witness.{structure_survives, translation_survives};
ghost use Rattle.pg_timeline.specs.Timelines.{IsSpan};
ghost use Rattle.pg_inval.specs.Drops.{IsTableLevel};
ghost use Rattle.pg_chain.specs.Standing.{IsPast};
ghost use Rattle.pg_search.specs.Lasts.{IsEnd};
ghost use Rattle.pg_search.specs.Writers.{IsWriter, HaveWritten};

use crate::brief::writes;
use crate::kept_run::KeptRun;
use crate::lookup::Lookup;
use crate::written::{Written, written_among};
use pg_chain::Past;
use pg_check::{History, Memo, Stretch};
use pg_entry::Level;
use pg_event::{Control, Event, Header, Window, structure_key, translation_key};
use pg_timeline::{Probes, Span};
use std::alloc::{AllocError, Global};
use std::marker::Model;

/// The events of a run, as somebody has kept them.
#[derive(Clone, Copy)]
pub(crate) enum Events<'a> {
    Whole(&'a [Event]),
    Kept(&'a KeptRun),
}

/// The settings of a run, its events, perhaps without their moments, and what is looked up of them.
#[derive(Drop)]
pub struct Seen<'a> {
    header: &'a Header,
    past: &'a Past,
    events: Events<'a>,
}

impl<'a> Model for Seen<'a> {
    ghost use Rattle.pg_event.specs.Spelling.{Recorded};
    ghost use Rattle.pg_search.specs.Events.{events_in};
    ghost use Rattle.pg_search.specs.Seen.{IsSeen};

    ghost Value = { Recorded };

    ghost view = { λ s. record { head = s.header.now; events = events_in s.events } };

    ghost invariant = { λ s. IsSeen s.header.now (events_in s.events) s.past.now };
}

/// The last of these events below a moment that writes the word at a physical address.
fn writer_among(events: &[Event], address: u64, moment: u32) -> Option<u32>
    requires { length events.now < 2 ^ 32 }
    ensures { IsWriter events.now address moment result }
{
    let mut last = None;
    for i in 0..moment.min(events.len() as u32) {
        if writes(address, &events[i as usize]) {
            last = Some(i);
        }
    }
    last
}

impl<'a> Seen<'a> {
    /// A run of which its events are kept without their moments.
    pub fn among(kept: &'a KeptRun) -> Seen<'a>
        ensures { result ≡ kept.now }
    {
        Seen {
            header: kept.header(),
            past: kept.past(),
            events: Events::Kept(kept),
        }
    }

    /// A run that is kept whole.
    pub fn of(history: &'a History) -> Seen<'a>
        ensures { result ≡ history.now }
    {
        Seen {
            header: history.header(),
            past: history.stretch().past,
            events: Events::Whole(history.events()),
        }
    }

    /// This run once more, as another value.
    pub fn again(&self) -> Seen<'a>
        ensures { result ≡ self.now }
    {
        Seen {
            header: self.header,
            past: self.past,
            events: self.events,
        }
    }

    /// The settings of the run.
    pub fn header(&self) -> &'a Header
        ensures header { result.now ≡ self.now.head }
        ensures head { IsHead self.now.head }
    {
        self.header
    }

    /// The value at a physical address just before the event with this number.
    pub fn value_at(&self, moment: u32, addr: u64) -> u64
        ensures { result ≡ mem_at self.now.events moment addr }
    {
        self.past.value_at(moment, addr)
    }

    /// The last event below a moment that writes the word at a physical address. It takes one pass
    /// over the events that are kept.
    pub fn writer(&self, address: u64, moment: u32) -> Option<u32>
        ensures { IsWriter self.now.events address moment result }
    {
        match self.events {
            Events::Whole(events) => writer_among(events, address, moment),
            Events::Kept(kept) => kept.writer(address, moment),
        }
    }

    /// The words that events below a moment write: each event that writes a word is listed with it.
    /// It takes one pass over the events that are kept.
    pub fn written(&self, alloc: Global, moment: u32) -> Result<Vec<Written>, AllocError>
        ensures { IfOk result (λ found. HaveWritten self.now.events moment found.items) }
    {
        match self.events {
            Events::Whole(events) => written_among(alloc, events, moment),
            Events::Kept(kept) => kept.written(alloc, moment),
        }
    }

    /// The value at a physical address just before the event with this number, and the moments
    /// around it at which the value is the same.
    pub fn value_span(&self, moment: u32, addr: u64) -> Span<u64>
        ensures { IsSpan (λ w. mem_at self.now.events w addr) moment result }
    {
        self.past.value_span(moment, addr, &mut Probes::new())
    }

    /// The control registers of a processor just before the event with this number.
    pub fn control_at(&self, p: u16, moment: u32) -> Control
        requires { p < length self.now.head.processors }
        ensures control { result ≡ control_at self.now.head self.now.events p moment }
        ensures root { result.root < 2 ^ 52 }
    {
        self.past.control_at(p, moment)
    }

    /// Whether a translation is global that a processor read at a moment in an entry whose bit 8 is
    /// this: CR4.PGE has to be 1 then (Intel SDM, vol. 3, 4.10.2.4).
    pub fn is_global(&self, p: u16, bit: bool, moment: u32) -> bool
        requires { p < length self.now.head.processors }
        ensures { result ≡ (bit && (control_at self.now.head self.now.events p moment).pge) }
    {
        bit && self.control_at(p, moment).pge
    }

    /// What `control_at` gives, and the moments around this one at which the registers are the
    /// same.
    pub fn control_span(&self, p: u16, moment: u32) -> Span<Control>
        requires { p < length self.now.head.processors }
        ensures span { IsSpan (λ w. control_at self.now.head self.now.events p w) moment result }
        ensures root { result.value.root < 2 ^ 52 }
    {
        self.past.control_span(p, moment, &mut Probes::new())
    }

    /// Whether the paging-structure-cache entry that a level gives for a lookup survives on its
    /// processor from one moment up to, not with, another.
    pub fn structure_survives(&self, lookup: Lookup, level: Level, from: u32, to: u32) -> bool
        requires { IsTableLevel level }
        ensures { let key = structure_key lookup.pcid level lookup.la in
            result ≡ structure_survives self.now.head self.now.events lookup.p key from to }
    {
        let key = structure_key(lookup.pcid, level, lookup.la);
        self.past
            .structure_survives(lookup.p, key, Window { from, to })
    }

    /// The last moment, from this one on, up to which that entry survives; the greatest of all
    /// where no event drops it.
    pub fn structure_end(&self, lookup: Lookup, level: Level, from: u32) -> u32
        requires { IsTableLevel level }
        ensures { let key = structure_key lookup.pcid level lookup.la in
            IsEnd (λ w. structure_survives self.now.head self.now.events lookup.p key from w)
            from result }
    {
        let key = structure_key(lookup.pcid, level, lookup.la);
        let mut probes = Probes::new();
        let past = self.past;
        match past.first_drop_of_structure(lookup.p, key, from, &mut probes) {
            Some(first) => first,
            None => u32::MAX,
        }
    }

    /// Whether a translation by a page of 2 to the power of `shift` bytes that serves a lookup
    /// survives on its processor from one moment up to, not with, another.
    pub fn translation_survives(
        &self,
        lookup: Lookup,
        shift: u8,
        global: bool,
        from: u32,
        to: u32,
    ) -> bool
        requires shift { IsPageShift shift }
        requires order { from ≤ to }
        ensures { let key = translation_key lookup.pcid shift global lookup.la in
            result ≡ translation_survives self.now.head self.now.events lookup.p key from to }
    {
        let key = translation_key(lookup.pcid, shift, global, lookup.la);
        let mut probes = Probes::new();
        let past = self.past;
        match past.first_drop_of_translation(lookup.p, key, from, &mut probes) {
            Some(first) => first >= to,
            None => true,
        }
    }

    /// The last moment, from this one on, up to which such a translation survives; the greatest of
    /// all where no event drops it.
    pub fn translation_end(&self, lookup: Lookup, shift: u8, global: bool, from: u32) -> u32
        requires { IsPageShift shift }
        ensures { let key = translation_key lookup.pcid shift global lookup.la in
            IsEnd (λ w. translation_survives self.now.head self.now.events lookup.p key from w)
            from result }
    {
        let key = translation_key(lookup.pcid, shift, global, lookup.la);
        let mut probes = Probes::new();
        let past = self.past;
        match past.first_drop_of_translation(lookup.p, key, from, &mut probes) {
            Some(first) => first,
            None => u32::MAX,
        }
    }

    /// The past of the run, for who judges by it: no event of it is at hand there.
    fn stretch(&self) -> Stretch<'a>
        ensures { IsPast result.past.now self.now.head self.now.events }
    {
        let header = self.header;
        Stretch {
            past: self.past,
            segment: header.segment,
            first: 0,
            events: &[],
        }
    }

    /// A memo for judging by this run, with room for so many walks, up to a limit.
    pub fn memo(&self, walks: usize) -> Memo<'a>
        ensures { IsPast result self.now.head self.now.events }
    {
        self.stretch().memo(walks)
    }
}
