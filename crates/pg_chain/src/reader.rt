//! A past whose answers are kept, as long as they stand.

ghost use Rattle.std.specs.Prelude.{◌≡◌, ◌-◌, ◌<◌, ◌≤◌, ◌^◌, ℕ, Bool, IfSome, IsTrue, not};
ghost use Rattle.pg_event.specs.Values.{mem_at, control_at};
ghost use Rattle.pg_event.specs.Witness.{structure_survives, translation_survives};
ghost use Rattle.pg_entry.specs.Kinds.{IsPageShift};
ghost use Rattle.pg_inval.specs.Drops.{IsTableLevel};
ghost use Rattle.pg_inval.specs.Lists.{IsFirstDrop, IsLeastBetween};
ghost use Rattle.pg_chain.specs.Standing.{InEachRun, processor_count};
ghost use Rattle.pg_chain.specs.Known.{IsWord, IsControlSpan, IsDropOfSpace};
ghost use Rattle.pg_inval.specs.Spaces.{IsSpaceDrop, structure_space, translation_space};

use crate::past::Past;
use crate::places::place_among;
use pg_entry::Cfg;
use pg_event::{Control, StructureKey, TranslationKey, Window};
use pg_inval::{Space, Tally, structure_space, translation_space};
use pg_timeline::{Probes, Span};
use std::marker::Model;

/// A word of memory, with its value at some moments.
#[derive(Clone, Copy)]
pub struct Word {
    /// Its physical byte address.
    pub address: u64,
    pub span: Span<u64>,
}

/// A processor, with its control registers at some moments.
#[derive(Clone, Copy)]
pub struct ControlSpan {
    pub p: u16,
    pub span: Span<Control>,
}

/// The first event from a moment on at which a processor had to drop all entries of a space, if
/// there is one.
#[derive(Clone, Copy)]
pub struct SpaceDrop {
    pub space: Space,
    pub from: u32,
    pub first: Option<u32>,
}

/// A past, with words, control registers and drops of spaces that were looked up in it. Walks read
/// the same tables again and again, mostly at moments between which nothing was written there. Most
/// entries of a PCID have to be dropped at one event, and a reader is asked about many of them.
#[derive(Drop)]
pub struct Reader<'a> {
    past: &'a Past,
    words: Vec<Option<Word>>,
    control_spans: Vec<Option<ControlSpan>>,
    space_drops: Vec<Option<SpaceDrop>>,
    probes: Probes,
    /// How many entries of the log look-ups passed over.
    passed: Tally,
}

impl<'a> Model for Reader<'a> {
    ghost use Rattle.pg_chain.specs.declared.past.Past.{Past};
    ghost use Rattle.pg_chain.specs.Known.{AreKnown};

    ghost Value = { Past };

    ghost view = { λ r. r.past.now };

    ghost invariant = { λ r. AreKnown r.past.now r.words.items r.control_spans.items
        r.space_drops.items };
}

/// So many words are kept at most.
const MOST_WORDS: usize = 2_048;

/// The drops of so many spaces are kept at most.
const MOST_SPACE_DROPS: usize = 1_024;

/// The value of a span at a moment that lies in it.
fn value_in<V: Copy>(span: &Span<V>, moment: u32) -> Option<V>
    ensures { IfSome result (λ v. (span.now.from ≤ moment) × (moment ≤ span.now.to)
        × (v ≡ span.now.value)) }
{
    if span.from <= moment && moment <= span.to {
        Some(span.value)
    } else {
        None
    }
}

/// A number of a space: each has its own where PCIDs are below 4,096.
fn number_of(space: Space) -> u64 {
    match space {
        Space::Structures { p, pcid } => (p as u64) << 16 | (pcid as u64) << 2,
        Space::Locals { p, pcid } => (p as u64) << 16 | (pcid as u64) << 2 | 1,
        Space::Globals { p } => (p as u64) << 16 | 2,
    }
}

/// Whether two spaces are the same.
#[inline(always)]
fn is_same(one: Space, other: Space) -> bool
    ensures { IsTrue result → one ≡ other }
{
    match (one, other) {
        (Space::Structures { p, pcid }, Space::Structures { p: q, pcid: id }) => {
            p == q && pcid == id
        }
        (Space::Locals { p, pcid }, Space::Locals { p: q, pcid: id }) => p == q && pcid == id,
        (Space::Globals { p }, Space::Globals { p: q }) => p == q,
        _ => false,
    }
}

/// Whether a drop of a space is also the first from another moment on: it was asked for from no
/// later one, and the drop, if there is one, is not before that moment.
#[inline(always)]
fn holds_from(known: &SpaceDrop, from: u32) -> bool
    ensures { IsTrue result → (test : ℕ → Bool) (to : ℕ) →
        IsLeastBetween test known.now.from to known.now.first →
        IsLeastBetween test from to known.now.first }
{
    known.from <= from
        && match known.first {
            Some(first) => from <= first,
            None => true,
        }
}

/// The first event, where it is below another.
#[inline(always)]
fn below(first: Option<u32>, to: u32) -> Option<u32>
    ensures { (test : ℕ → Bool) (from : ℕ) → IsLeastBetween test from (2 ^ 32 - 1) first →
        IsLeastBetween test from to result }
{
    match first {
        Some(number) => if number < to { first } else { None },
        None => None,
    }
}

impl<'a> Reader<'a> {
    /// Nothing was looked up. There is room for so many words, and for the drops of as many spaces,
    /// up to a limit each; what memory is refused for is looked up anew each time.
    pub fn new(past: &'a Past, words: usize) -> Reader<'a>
        ensures { result ≡ past.now }
    {
        if words == 0 {
            return Reader::without_room(past);
        }
        let control_spans = past.controls.processors();
        Reader {
            past,
            words: match Vec::from_elem(past.alloc, None, words.min(MOST_WORDS)) {
                Ok(words) => words,
                Err(_) => Vec::new(past.alloc),
            },
            control_spans: match Vec::from_elem(past.alloc, None, control_spans) {
                Ok(control_spans) => control_spans,
                Err(_) => Vec::new(past.alloc),
            },
            space_drops: match Vec::from_elem(past.alloc, None, words.min(MOST_SPACE_DROPS)) {
                Ok(space_drops) => space_drops,
                Err(_) => Vec::new(past.alloc),
            },
            probes: Probes::new(),
            passed: Tally::NONE,
        }
    }

    /// Nothing is kept: each question is looked up anew.
    #[inline(always)]
    fn without_room(past: &'a Past) -> Reader<'a>
        ensures { result ≡ past.now }
    {
        Reader {
            past,
            words: Vec::new(past.alloc),
            control_spans: Vec::new(past.alloc),
            space_drops: Vec::new(past.alloc),
            probes: Probes::new(),
            passed: Tally::NONE,
        }
    }

    /// What the run did.
    pub fn past(&self) -> &Past
        ensures { result.now ≡ self.now }
    {
        self.past
    }

    /// How many moments its look-ups in the past have read: none where a value was kept.
    pub fn probes(&self) -> u64 {
        self.probes.count()
    }

    /// How many entries of the log its look-ups passed over, which no list had yet, by the lists
    /// that they lacked. `Past::catch_up_pages`, `catch_up_regions` and `catch_up_wide` make those.
    pub fn passed(&self) -> Tally {
        self.passed
    }

    /// The settings of the run.
    pub fn cfg(&self) -> Cfg
        ensures run { InEachRun self.now (λ head events. result ≡ head.cfg) }
        ensures within { (36 ≤ result.m) × (result.m ≤ 52) }
    {
        self.past.cfg()
    }

    /// The place of a word, where there are any.
    fn place_of(&self, address: u64) -> usize {
        place_among(self.words.len(), address >> 3)
    }

    /// The value of a word at a moment, where a place has it.
    fn known_value(&self, place: usize, moment: u32, address: u64) -> Option<u64>
        ensures { InEachRun self.now (λ head events.
            IfSome result (λ v. v ≡ mem_at events moment address)) }
    {
        match self.words.get(place)? {
            Some(word) => if word.address == address {
                value_in(&word.span, moment)
            } else {
                None
            },
            None => None,
        }
    }

    /// Keeps a word at a place, where there is one.
    fn keep_word(&mut self, place: usize, word: Word)
        requires { IsWord self.old word }
        ensures { self.new ≡ self.old }
    {
        if place < self.words.len() {
            self.words[place] = Some(word);
        }
    }

    /// The value at a physical address just before the event with this number.
    pub fn value_at(&mut self, moment: u32, address: u64) -> u64
        ensures past { self.new ≡ self.old }
        ensures value { InEachRun self.old (λ head events. result ≡ mem_at events moment address) }
    {
        if self.words.is_empty() {
            return self.value_once(moment, address);
        }
        let place = self.place_of(address);
        match self.known_value(place, moment, address) {
            Some(value) => value,
            None => {
                let span = self.past.value_span(moment, address, &mut self.probes);
                self.keep_word(place, Word { address, span });
                span.value
            }
        }
    }

    /// What `value_at` gives, of a word that is not kept, since it is hardly read twice.
    pub(crate) fn value_once(&mut self, moment: u32, address: u64) -> u64
        ensures past { self.new ≡ self.old }
        ensures value { InEachRun self.old (λ head events. result ≡ mem_at events moment address) }
    {
        self.past
            .value_at_counted(moment, address, &mut self.probes)
    }

    /// The control registers of a processor at a moment, where they are kept.
    #[inline(always)]
    fn known_control(&self, p: u16, moment: u32) -> Option<Control>
        ensures run { InEachRun self.now (λ head events.
            IfSome result (λ c. c ≡ control_at head events p moment)) }
        ensures root { IfSome result (λ c. c.root < 2 ^ 52) }
    {
        match self.control_spans.get(p as usize)? {
            Some(kept) => if kept.p == p {
                value_in(&kept.span, moment)
            } else {
                None
            },
            None => None,
        }
    }

    /// Whether a place has no control registers, or earlier ones than those up to a moment.
    fn is_behind(&self, place: usize, to: u32) -> bool {
        match self.control_spans.get(place) {
            Some(Some(kept)) => kept.span.to < to,
            Some(None) => true,
            None => false,
        }
    }

    /// Keeps the control registers of a processor, where there is a place for it. Earlier ones than
    /// it has are not kept: look-ups go on to later and later events.
    fn keep_control_span(&mut self, kept: ControlSpan)
        requires { IsControlSpan self.old kept }
        ensures { self.new ≡ self.old }
    {
        let place = kept.p as usize;
        if place < self.control_spans.len() && self.is_behind(place, kept.span.to) {
            self.control_spans[place] = Some(kept);
        }
    }

    /// The control registers of a processor just before the event with this number.
    #[inline(always)]
    pub fn control_at(&mut self, p: u16, moment: u32) -> Control
        requires { p < processor_count self.old }
        ensures past { self.new ≡ self.old }
        ensures run { InEachRun self.old (λ head events. result ≡ control_at head events p moment) }
        ensures root { result.root < 2 ^ 52 }
    {
        if self.control_spans.is_empty() {
            return self.past.control_at_counted(p, moment, &mut self.probes);
        }
        match self.known_control(p, moment) {
            Some(control) => control,
            None => {
                let span = self.past.control_span(p, moment, &mut self.probes);
                self.keep_control_span(ControlSpan { p, span });
                span.value
            }
        }
    }

    /// The drop of a space that a place has, if it is also the first from this moment on.
    #[inline(always)]
    fn known_drop(&self, place: usize, space: Space, from: u32) -> Option<SpaceDrop>
        ensures { IfSome result
            (λ known. IsSpaceDrop self.now.drops space from (2 ^ 32 - 1) known.first) }
    {
        match self.space_drops.get(place)? {
            Some(known) => if is_same(known.space, space) && holds_from(known, from) {
                Some(*known)
            } else {
                None
            },
            None => None,
        }
    }

    /// Keeps the drop of a space at a place, where there is one.
    fn keep_space_drop(&mut self, place: usize, kept: SpaceDrop)
        requires { IsDropOfSpace self.old kept }
        ensures { self.new ≡ self.old }
    {
        if place < self.space_drops.len() {
            self.space_drops[place] = Some(kept);
        }
    }

    /// The first event from a moment on at which a processor had to drop all entries of a space.
    fn space_drop(&mut self, space: Space, from: u32) -> Option<u32>
        ensures past { self.new ≡ self.old }
        ensures drop { IsSpaceDrop self.old.drops space from (2 ^ 32 - 1) result }
    {
        let place = place_among(self.space_drops.len(), number_of(space));
        match self.known_drop(place, space, from) {
            Some(known) => known.first,
            None => {
                let window = Window { from, to: u32::MAX };
                let drops = &self.past.drops;
                let first = drops.first_drop_of_space(space, window, &mut self.probes);
                self.keep_space_drop(place, SpaceDrop { space, from, first });
                first
            }
        }
    }

    /// Whether a paging-structure-cache entry survives on a processor in a window. A reader with
    /// room looks up the entry's own key alone, beside the drop of its space.
    fn survives_in(&mut self, p: u16, key: StructureKey, window: Window) -> bool
        requires { IsTableLevel key.level }
        ensures past { self.new ≡ self.old }
        ensures run { InEachRun self.old (λ head events.
            result ≡ structure_survives head events p key window.from window.to) }
    {
        if self.space_drops.is_empty() {
            return self
                .past
                .structure_survives_counted(p, key, window, &mut self.probes);
        }
        let all = self.space_drop(structure_space(p, key), window.from);
        let found = below(all, window.to);
        let drops = &self.past.drops;
        !drops.structure_dropped_beside(p, key, window, found, &mut self.probes)
    }

    /// The first event from this moment on at which a processor had to drop a translation. A reader
    /// with room looks up the translation's own key alone, beside the drop of its space.
    fn first_drop_from(&mut self, p: u16, key: TranslationKey, from: u32) -> Option<u32>
        requires { IsPageShift key.shift }
        ensures past { self.new ≡ self.old }
        ensures run { InEachRun self.old (λ head events. IsFirstDrop
            (λ a b. not (translation_survives head events p key a b))
            from (2 ^ 32 - 1) result) }
    {
        if self.space_drops.is_empty() {
            return self
                .past
                .first_drop_of_translation(p, key, from, &mut self.probes);
        }
        let found = self.space_drop(translation_space(p, key), from);
        let window = Window { from, to: u32::MAX };
        let drops = &self.past.drops;
        drops.first_drop_of_translation_beside(p, key, window, found, &mut self.probes)
    }

    /// Whether a paging-structure-cache entry survives on a processor in a window.
    pub(crate) fn structure_survives(&mut self, p: u16, key: StructureKey, window: Window) -> bool
        requires { IsTableLevel key.level }
        ensures past { self.new ≡ self.old }
        ensures run { InEachRun self.old (λ head events.
            result ≡ structure_survives head events p key window.from window.to) }
    {
        let before = self.probes.entries();
        let survives = self.survives_in(p, key, window);
        let passed = self.probes.entries().saturating_sub(before);
        self.passed.regions = self.passed.regions.saturating_add(passed);
        survives
    }

    /// The first event from this moment on at which a processor had to drop a translation.
    pub fn first_drop_of_translation(
        &mut self,
        p: u16,
        key: TranslationKey,
        from: u32,
    ) -> Option<u32>
        requires { IsPageShift key.shift }
        ensures past { self.new ≡ self.old }
        ensures run { InEachRun self.old (λ head events. IsFirstDrop
            (λ a b. not (translation_survives head events p key a b))
            from (2 ^ 32 - 1) result) }
    {
        let before = self.probes.entries();
        let first = self.first_drop_from(p, key, from);
        let passed = self.probes.entries().saturating_sub(before);
        self.pass_for(key, passed);
        first
    }

    /// A look-up of a translation passed over so many entries of the log.
    fn pass_for(&mut self, key: TranslationKey, passed: u64)
        ensures { self.new ≡ self.old }
    {
        if key.global || key.shift != 12 {
            self.passed.wide = self.passed.wide.saturating_add(passed);
        } else {
            self.passed.pages = self.passed.pages.saturating_add(passed);
        }
    }
}
