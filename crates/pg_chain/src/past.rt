ghost use Rattle.std.specs.Prelude.{◌≡◌, ◌+◌, ◌-◌, ◌<◌, ◌≤◌, ◌^◌, List, [], ◌∷◌, ◌++◌, length};
ghost use Rattle.std.specs.Prelude.{not, true, ℕ};
ghost use Rattle.std.specs.Prelude.{IfOk, IsOk, IsTrue, OnOk, OnErr};
ghost use Rattle.std.specs.List.{AllByRecursion};
ghost use Rattle.pg_entry.specs.Permission.{is_allowed};
ghost use Rattle.pg_event.specs.declared.event.Event.{Event};
ghost use Rattle.pg_event.specs.Form.{processor_of};
ghost use Rattle.pg_event.specs.Heads.{Head};
ghost use Rattle.pg_event.specs.Spelling.{IsHead};
ghost use Rattle.pg_event.specs.Values.{written, mem_at, control_at};
ghost use Rattle.pg_event.specs.Witness.{structure_survives, translation_survives};
ghost use Rattle.pg_entry.specs.Kinds.{IsPageShift};
ghost use Rattle.pg_timeline.specs.Timelines.{IsSpan};
ghost use Rattle.pg_inval.specs.Drops.{IsTableLevel};
ghost use Rattle.pg_inval.specs.Lists.{IsFirstDrop};
ghost use Rattle.pg_chain.specs.Standing.{IsPast, InEachRun, IsNext, processor_count};
ghost use Rattle.pg_chain.specs.Standing.{changes_nothing};

use pg_entry::{AccessKind, Cfg, Entry, Rights, has_bit, marked};
use pg_event::{
    Control, Event, Header, MemoryChange, Outcome, Request, StructureKey, TranslationKey, Version,
    Window, processor_of,
};
use pg_inval::{Drops, Tally};
use pg_moment::Versions;
use pg_state::Controls;
use pg_timeline::{Probes, Span};
use std::alloc::{AllocError, Global};

/// What a run did up to some event, as far as it was noted. A moment is the number of an event, and
/// lies just before it.
#[derive(Drop)]
pub struct Past {
    /// Where memory for it comes from.
    pub alloc: Global,
    /// What memory was.
    pub versions: Versions,
    /// What the control registers were.
    pub controls: Controls,
    /// What may have dropped cached entries.
    pub drops: Drops,
}

/// Whether an event leaves memory, control registers and caches as they are.
#[inline(always)]
fn changes_nothing(event: &Event) -> bool
    ensures { result ≡ changes_nothing event.now }
{
    match event.request() {
        Request::Access { outcome, .. } => match outcome {
            Outcome::Page(_) => true,
            Outcome::Fault(_) => false,
        },
        Request::Update { .. } | Request::Nothing => false,
    }
}

/// Whether a value may be the entry of a large or of a global page: of a present entry, bit 7 makes
/// one of level 3 or 2 a leaf, and bit 8 a leaf global. Of other entries these bits say other
/// things, and then more is kept than is needed.
fn may_be_wide(value: u64) -> bool {
    has_bit(value, 0) && (has_bit(value, 7) || has_bit(value, 8))
}

impl Past {
    /// The start of a run. Fails where memory is refused.
    pub fn new(alloc: Global, header: &Header) -> Result<Past, AllocError>
        requires { IsHead header.now }
        ensures { IfOk result (λ past. IsPast past header.now []) }
    {
        Ok(Past {
            alloc,
            versions: Versions::new(alloc),
            controls: Controls::new(alloc, header)?,
            drops: Drops::new(alloc),
        })
    }

    /// Notes the event with this number, which is the next. Fails where memory is refused, and then
    /// nothing is noted. An access that got its answer takes no memory. Lists of what it drops are
    /// made by the `catch_up` calls alone.
    #[inline(always)]
    pub fn note_later(&mut self, moment: u32, event: &Event) -> Result<(), AllocError>
        requires next { IsNext self.old moment }
        requires processor { processor_of event.now < processor_count self.old }
        ensures ok { InEachRun self.old (λ head events.
            moment ≡ length events →
            OnOk result (IsPast self.new head (events ++ event.now ∷ []))) }
        ensures err { InEachRun self.old (λ head events.
            moment ≡ length events → OnErr result (IsPast self.new head events)) }
        ensures nothing { changes_nothing event.now ≡ true → IsOk result }
    {
        // Most events change nothing: whoever notes them one by one makes no call for these.
        if changes_nothing(event) {
            return Ok(());
        }
        self.note_change(moment, event)
    }

    /// Notes the next event, which may change something, as `note_later` does.
    #[inline(never)]
    fn note_change(&mut self, moment: u32, event: &Event) -> Result<(), AllocError>
        requires next { IsNext self.old moment }
        requires processor { processor_of event.now < processor_count self.old }
        ensures ok { InEachRun self.old (λ head events.
            moment ≡ length events →
            OnOk result (IsPast self.new head (events ++ event.now ∷ []))) }
        ensures err { InEachRun self.old (λ head events.
            moment ≡ length events → OnErr result (IsPast self.new head events)) }
    {
        self.watch(event);
        self.note_kind(moment, event)
    }

    /// Looks out for entries of large and of global pages: in a run that writes none, nothing is
    /// kept of the drops of such pages.
    #[inline(always)]
    fn watch(&mut self, event: &Event)
        ensures { self.new ≡ self.old }
    {
        match event.memory_change() {
            MemoryChange::Value { value, .. } => {
                if may_be_wide(value) {
                    self.drops.keep_wide();
                }
            }
            MemoryChange::Flags { .. } | MemoryChange::Nothing => {}
        }
    }

    /// Notes an event by what it does to memory.
    #[inline(always)]
    fn note_kind(&mut self, moment: u32, event: &Event) -> Result<(), AllocError>
        requires next { IsNext self.old moment }
        requires processor { processor_of event.now < processor_count self.old }
        ensures ok { InEachRun self.old (λ head events.
            moment ≡ length events →
            OnOk result (IsPast self.new head (events ++ event.now ∷ []))) }
        ensures err { InEachRun self.old (λ head events.
            moment ≡ length events → OnErr result (IsPast self.new head events)) }
    {
        match event.memory_change() {
            MemoryChange::Value { addr, value } => self.versions.note(moment, addr, value),
            MemoryChange::Flags { addr, dirty } => {
                let before = self.versions.at(moment, addr);
                let after = marked(Entry(before), dirty);
                self.versions.note(moment, addr, after.0)
            }
            MemoryChange::Nothing => self.note_drop(moment, event),
        }
    }

    /// Notes the next event as `note_later` does, and makes all lists.
    pub fn note(&mut self, moment: u32, event: &Event) -> Result<(), AllocError>
        requires next { IsNext self.old moment }
        requires processor { processor_of event.now < processor_count self.old }
        ensures ok { InEachRun self.old (λ head events.
            moment ≡ length events →
            OnOk result (IsPast self.new head (events ++ event.now ∷ []))) }
        ensures err { InEachRun self.old (λ head events.
            moment ≡ length events → OnErr result (IsPast self.new head events)) }
        ensures nothing { changes_nothing event.now ≡ true → IsOk result }
    {
        let noted = self.note_later(moment, event);
        self.catch_up();
        noted
    }

    /// How many entries of the log each kind of list lacks. No clause speaks of it: it is for those
    /// who weigh what lists cost.
    pub fn unlisted(&self) -> Tally {
        self.drops.unlisted()
    }

    /// Makes all lists of what was dropped, which look-ups ask where they are made and else go
    /// through the log.
    fn catch_up(&mut self)
        ensures { self.new ≡ self.old }
    {
        self.drops.catch_up();
    }

    /// Makes the lists that most look-ups ask: those of translations of 4-KiB pages that are not
    /// global.
    pub fn catch_up_pages(&mut self)
        ensures { self.new ≡ self.old }
    {
        self.drops.catch_up_pages();
    }

    /// Makes the lists of paging-structure-cache entries.
    pub fn catch_up_regions(&mut self)
        ensures { self.new ≡ self.old }
    {
        self.drops.catch_up_regions();
    }

    /// Makes the lists of translations of large and of global pages.
    pub fn catch_up_wide(&mut self)
        ensures { self.new ≡ self.old }
    {
        self.drops.catch_up_wide();
    }

    /// Notes an event that leaves memory as it is, and may drop entries and change control
    /// registers.
    fn note_drop(&mut self, moment: u32, event: &Event) -> Result<(), AllocError>
        requires next { IsNext self.old moment }
        requires processor { processor_of event.now < processor_count self.old }
        requires memory { (addr value : ℕ) → written addr value event.now ≡ value }
        ensures ok { InEachRun self.old (λ head events.
            moment ≡ length events →
            OnOk result (IsPast self.new head (events ++ event.now ∷ []))) }
        ensures err { InEachRun self.old (λ head events.
            moment ≡ length events → OnErr result (IsPast self.new head events)) }
    {
        let before = self.controls.latest(processor_of(event));
        let rules = self.controls.cfg().rules;
        match self.drops.note_later(rules, moment, event, before) {
            Err(refused) => Err(refused),
            Ok(()) => match self.controls.note(moment, event) {
                Err(refused) => {
                    self.drops.forget_from(moment);
                    Err(refused)
                }
                Ok(()) => Ok(()),
            },
        }
    }

    /// Notes events in their order, the first of which has this number and is the next. Fails where
    /// memory is refused, and then nothing is noted.
    pub fn note_all(&mut self, first: u32, events: &[Event]) -> Result<(), AllocError>
        requires next { IsNext self.old first }
        requires processors { AllByRecursion
            (λ e. processor_of e < processor_count self.old) events.now }
        requires count { first + length events.now ≤ 2 ^ 32 }
        ensures ok { InEachRun self.old (λ head before.
            first ≡ length before → OnOk result (IsPast self.new head (before ++ events.now))) }
        ensures err { InEachRun self.old (λ head before.
            first ≡ length before → OnErr result (IsPast self.new head before)) }
    {
        for (i, event) in events.iter().enumerate() {
            if let Err(refused) = self.note_later(first + i as u32, event) {
                self.forget_from(first);
                return Err(refused);
            }
        }
        self.catch_up();
        Ok(())
    }

    /// Forgets the events from a moment on.
    pub fn forget_from(&mut self, moment: u32)
        ensures { (head : Head) (before more : List Event) →
            IsPast self.old head (before ++ more) → moment ≡ length before →
            IsPast self.new head before }
    {
        self.versions.forget_from(moment);
        self.controls.forget_from(moment);
        self.drops.forget_from(moment);
    }

    /// The settings of the run.
    pub fn cfg(&self) -> Cfg
        ensures run { InEachRun self.now (λ head events. result ≡ head.cfg) }
        ensures within { (36 ≤ result.m) × (result.m ≤ 52) }
    {
        self.controls.cfg()
    }

    /// Whether the rights of a whole walk allow an access in the run (Intel SDM, vol. 3, 4.6.1).
    #[inline(always)]
    pub fn allow(&self, rights: Rights, kind: AccessKind) -> bool
        ensures { InEachRun self.now (λ head events.
            result ≡ is_allowed head.cfg rights kind) }
    {
        self.controls.allow(rights, kind)
    }

    /// The version of the run's record.
    pub fn version(&self) -> Version
        ensures { InEachRun self.now (λ head events. result ≡ head.version) }
    {
        self.controls.version()
    }

    /// The value at a physical address just before the event with this number.
    pub fn value_at(&self, moment: u32, addr: u64) -> u64
        ensures { InEachRun self.now (λ head events. result ≡ mem_at events moment addr) }
    {
        self.value_at_counted(moment, addr, &mut Probes::new())
    }

    /// What `value_at` gives, and counts the moments that were read.
    pub(crate) fn value_at_counted(&self, moment: u32, addr: u64, probes: &mut Probes) -> u64
        ensures run { InEachRun self.now (λ head events. result ≡ mem_at events moment addr) }
        ensures probes { (probes.old ≤ probes.new) × (probes.new ≤ probes.old + 34) }
    {
        self.versions.at_counted(moment, addr, probes)
    }

    /// The control registers of a processor just before the event with this number.
    pub fn control_at(&self, p: u16, moment: u32) -> Control
        requires { p < processor_count self.now }
        ensures run { InEachRun self.now (λ head events. result ≡ control_at head events p moment) }
        ensures root { result.root < 2 ^ 52 }
    {
        self.control_at_counted(p, moment, &mut Probes::new())
    }

    /// What `control_at` gives, and counts the moments that were read.
    pub(crate) fn control_at_counted(&self, p: u16, moment: u32, probes: &mut Probes) -> Control
        requires { p < processor_count self.now }
        ensures run { InEachRun self.now (λ head events. result ≡ control_at head events p moment) }
        ensures root { result.root < 2 ^ 52 }
        ensures probes { (probes.old ≤ probes.new) × (probes.new ≤ probes.old + 34) }
    {
        self.controls.control_at_counted(p, moment, probes)
    }

    /// The control registers of a processor at the event that comes next.
    #[inline(always)]
    pub fn latest_control(&self, p: u16) -> Control
        requires { p < processor_count self.now }
        ensures run { (moment : ℕ) → IsNext self.now moment → InEachRun self.now (λ head events.
            result ≡ control_at head events p moment) }
        ensures root { result.root < 2 ^ 52 }
    {
        self.controls.latest(p)
    }

    /// Whether no event from a moment on drops a translation of a processor, as far as is told
    /// without a look into lists: it may also say no where none does.
    #[inline(always)]
    pub fn translation_outlasts(&self, p: u16, key: TranslationKey, from: u32) -> bool
        requires { IsPageShift key.shift }
        ensures run { IsTrue result → (to : ℕ) → InEachRun self.now (λ head events.
            translation_survives head events p key from to ≡ true) }
    {
        self.drops.translation_outlasts(p, key, from)
    }

    /// What `value_at` gives, and the moments around this one at which the value is the same.
    pub fn value_span(&self, moment: u32, addr: u64, probes: &mut Probes) -> Span<u64>
        ensures run { InEachRun self.now (λ head events.
            IsSpan (λ w. mem_at events w addr) moment result) }
        ensures probes { (probes.old ≤ probes.new) × (probes.new ≤ probes.old + 35) }
    {
        self.versions.span_at(moment, addr, probes)
    }

    /// The control registers, with the moments around this one at which they are the same.
    pub fn control_span(&self, p: u16, moment: u32, probes: &mut Probes) -> Span<Control>
        requires { p < processor_count self.now }
        ensures run { InEachRun self.now (λ head events.
            IsSpan (λ w. control_at head events p w) moment result) }
        ensures root { result.value.root < 2 ^ 52 }
        ensures probes { (probes.old ≤ probes.new) × (probes.new ≤ probes.old + 35) }
    {
        self.controls.control_span(p, moment, probes)
    }

    /// Whether a paging-structure-cache entry survives on a processor in a window.
    pub fn structure_survives(&self, p: u16, key: StructureKey, window: Window) -> bool
        requires { IsTableLevel key.level }
        ensures { InEachRun self.now (λ head events.
            result ≡ structure_survives head events p key window.from window.to) }
    {
        self.structure_survives_counted(p, key, window, &mut Probes::new())
    }

    /// What `structure_survives` answers, and counts what was read.
    pub(crate) fn structure_survives_counted(
        &self,
        p: u16,
        key: StructureKey,
        window: Window,
        probes: &mut Probes,
    ) -> bool
        requires { IsTableLevel key.level }
        ensures run { InEachRun self.now (λ head events.
            result ≡ structure_survives head events p key window.from window.to) }
        ensures probes { (probes.old ≤ probes.new) × (probes.new ≤ probes.old + 102) }
    {
        !self.drops.structure_dropped_counted(p, key, window, probes)
    }

    /// Whether no event from a moment on drops a paging-structure-cache entry, as far as is told
    /// without a look into lists: it may also say no where none does.
    #[inline(always)]
    pub(crate) fn structure_outlasts(&self, p: u16, key: StructureKey, from: u32) -> bool
        requires { IsTableLevel key.level }
        ensures { IsTrue result → (to : ℕ) → InEachRun self.now (λ head events.
            structure_survives head events p key from to ≡ true) }
    {
        self.drops.structure_outlasts(p, key, from)
    }

    /// The first event from this moment on at which a processor had to drop a
    /// paging-structure-cache entry.
    pub fn first_drop_of_structure(
        &self,
        p: u16,
        key: StructureKey,
        from: u32,
        probes: &mut Probes,
    ) -> Option<u32>
        requires { IsTableLevel key.level }
        ensures run { InEachRun self.now (λ head events. IsFirstDrop
            (λ a b. not (structure_survives head events p key a b))
            from (2 ^ 32 - 1) result) }
        ensures probes { (probes.old ≤ probes.new) × (probes.new ≤ probes.old + 102) }
    {
        let window = Window { from, to: u32::MAX };
        self.drops.first_drop_of_structure(p, key, window, probes)
    }

    /// The first event from this moment on at which a processor had to drop a translation.
    pub fn first_drop_of_translation(
        &self,
        p: u16,
        key: TranslationKey,
        from: u32,
        probes: &mut Probes,
    ) -> Option<u32>
        requires { IsPageShift key.shift }
        ensures run { InEachRun self.now (λ head events. IsFirstDrop
            (λ a b. not (translation_survives head events p key a b))
            from (2 ^ 32 - 1) result) }
        ensures probes { (probes.old ≤ probes.new) × (probes.new ≤ probes.old + 102) }
    {
        let window = Window { from, to: u32::MAX };
        self.drops.first_drop_of_translation(p, key, window, probes)
    }
}
