ghost use Rattle.std.specs.Prelude.{◌≡◌, ◌+◌, ◌<◌, ◌≤◌, ◌^◌, false, List, [], ◌∷◌, ◌++◌, map};
ghost use Rattle.std.specs.Prelude.{length, replicate, slice_set, IsOk, IfOk, OnOk, OnErr, ℕ};
ghost use Rattle.pg_entry.specs.Permission.{is_allowed};
ghost use Rattle.pg_event.specs.declared.event.Event.{Event};
ghost use Rattle.pg_event.specs.Form.{processor_of};
ghost use Rattle.pg_event.specs.Heads.{Head};
ghost use Rattle.pg_event.specs.Spelling.{IsHead};
ghost use Rattle.pg_event.specs.Values.{controlled, control_at};
ghost use Rattle.pg_timeline.specs.Timelines.{end_of, cut_at, IsSpan};
ghost use Rattle.pg_state.specs.Controls.{is_change, start_in, cfg_of, version_of, next_moment};
ghost use Rattle.pg_state.specs.Controls.{processor_count, changes_of, control_in, IsNoted, IsSame};
ghost use Rattle.pg_state.specs.Controls.{IsCutAt, StandsFor};

use crate::changes::Changes;
use crate::permissions::Permissions;
use pg_entry::{AccessKind, Cfg, Rights};
use pg_event::{Control, Event, Header, Version, controlled, loaded, processor_of};
use pg_timeline::{Probes, Span};
use std::alloc::{AllocError, Global};
use std::marker::Model;

/// The control registers of a run's processors at its moments, as far as they were noted.
#[derive(Drop)]
pub struct Controls {
    header: Header,
    next: u64,
    /// The registers that each processor's changes left, by the processors' numbers.
    by_processor: Vec<Changes>,
    permissions: Permissions,
}

impl Model for Controls {
    ghost use Rattle.std.specs.Prelude.{◌≡◌};
    ghost use Rattle.pg_state.specs.Controls.{Registers, AreKept};

    ghost Value = { Registers };

    ghost view = { λ a. record {
      head = a.header;
      changes = a.by_processor.items;
      next = a.next;
    } };

    ghost invariant = { λ a. AreKept a.header a.by_processor.items a.next
        × (a.permissions ≡ a.header.cfg) };
}

/// Whether an event may change the control registers of its processor.
fn is_change(event: &Event) -> bool
    ensures { result ≡ is_change event.now }
{
    event.control_change().changes_some()
}

/// No changes of each of some processors.
fn unchanged(alloc: Global, processors: &[(u64, bool)]) -> Result<Vec<Changes>, AllocError>
    ensures { IfOk result
        (λ by_processor. by_processor.items ≡ replicate (length processors.now) []) }
{
    let mut by_processor = Vec::with_capacity(alloc, processors.len())?;
    for _ in processors {
        by_processor.push(Changes::new(alloc))?;
    }
    Ok(by_processor)
}

/// Adds registers after those of a processor.
fn push_at(
    by_processor: &mut Vec<Changes>,
    p: u16,
    moment: u32,
    control: Control,
) -> Result<(), AllocError>
    requires processor { p < length by_processor.old.items }
    requires end { end_of (changes_of by_processor.old.items p) ≤ moment }
    ensures ok { OnOk result (by_processor.new.items
        ≡ slice_set by_processor.old.items p (changes_of by_processor.old.items p
        ++ record { moment = moment; value = control } ∷ [])) }
    ensures err { OnErr result (by_processor.new.items ≡ by_processor.old.items) }
{
    by_processor[p as usize].push(moment, control)
}

/// The registers that the changes of a processor left.
fn changes_at(by_processor: &Vec<Changes>, p: u16) -> &Changes
    requires { p < length by_processor.now.items }
    ensures { result.now ≡ changes_of by_processor.now.items p }
{
    &by_processor[p as usize]
}

/// Forgets the registers of every processor from a moment on.
fn cut_all(by_processor: &mut Vec<Changes>, moment: u32)
    ensures { by_processor.new.items ≡ map (cut_at moment) by_processor.old.items }
{
    for changes in by_processor.iter_mut() {
        changes.forget_from(moment);
    }
}

impl Controls {
    /// The registers at the start of a run. Fails where memory is refused.
    pub fn new(alloc: Global, header: &Header) -> Result<Controls, AllocError>
        requires { IsHead header.now }
        ensures start { IfOk result (λ controls. StandsFor controls header.now []) }
    {
        let by_processor = unchanged(alloc, &header.processors)?;
        Ok(Controls {
            header: header.clone()?,
            next: 0,
            by_processor,
            permissions: Permissions::new(header.cfg),
        })
    }

    /// The settings of the run's processors.
    pub fn cfg(&self) -> Cfg
        ensures value { result ≡ cfg_of self.now }
        ensures run { (head : Head) (events : List Event) → StandsFor self.now head events →
            result ≡ head.cfg }
        ensures width { (36 ≤ result.m) × (result.m ≤ 52) }
    {
        self.header.cfg
    }

    /// Whether the rights of a whole walk allow an access in this run (Intel SDM, vol. 3, 4.6.1).
    #[inline(always)]
    pub fn allow(&self, rights: Rights, kind: AccessKind) -> bool
        ensures value { result ≡ is_allowed (cfg_of self.now) rights kind }
        ensures run { (head : Head) (events : List Event) → StandsFor self.now head events →
            result ≡ is_allowed head.cfg rights kind }
    {
        self.permissions.allow(rights, kind)
    }

    /// The version of the run's record.
    pub fn version(&self) -> Version
        ensures value { result ≡ version_of self.now }
        ensures run { (head : Head) (events : List Event) → StandsFor self.now head events →
            result ≡ head.version }
    {
        self.header.version
    }

    /// How many processors there are.
    pub fn processors(&self) -> usize
        ensures { result ≡ processor_count self.now }
    {
        let header = &self.header;
        header.processors.len()
    }

    /// The least moment that a further event may have.
    pub fn next(&self) -> u64
        ensures { result ≡ next_moment self.now }
    {
        self.next
    }

    /// Notes the event with this number; one that changes no control register takes no memory.
    /// Fails where memory is refused, and then nothing is noted.
    pub fn note(&mut self, moment: u32, event: &Event) -> Result<(), AllocError>
        requires next { next_moment self.old ≤ moment }
        requires processor { processor_of event.now < processor_count self.old }
        ensures ok { OnOk result (IsNoted self.old self.new moment event.now) }
        ensures err { OnErr result (IsSame self.old self.new) }
        ensures others { is_change event.now ≡ false → IsOk result }
        ensures run { (head : Head) (events : List Event) → StandsFor self.old head events →
            moment ≡ length events →
            OnOk result (StandsFor self.new head (events ++ event.now ∷ [])) }
    {
        if is_change(event) {
            let p = processor_of(event);
            let after = self.after(event);
            push_at(&mut self.by_processor, p, moment, after)?;
            self.next = moment as u64 + 1;
        }
        Ok(())
    }

    /// The control registers of an event's processor after the event, which comes next.
    fn after(&self, event: &Event) -> Control
        requires { processor_of event.now < processor_count self.now }
        ensures { let p = processor_of event.now in (w : ℕ) → next_moment self.now ≤ w →
            result ≡ controlled self.now.head.cfg.m p (control_in self.now p w) event.now }
    {
        let p = processor_of(event);
        controlled(self.header.cfg.m, p, self.latest(p), event)
    }

    /// Forgets the events from a moment on.
    pub fn forget_from(&mut self, moment: u32)
        ensures { IsCutAt self.old self.new moment }
    {
        cut_all(&mut self.by_processor, moment);
        self.next = self.next.min(moment as u64);
    }

    /// The control registers of a processor at the start of the run.
    fn start(&self, p: u16) -> Control
        requires { p < processor_count self.now }
        ensures { result ≡ start_in self.now.head p }
    {
        let header = &self.header;
        let (cr3, pge) = header.processors[p as usize];
        loaded(header.cfg.m, cr3, pge)
    }

    /// The control registers of a processor just before the event with this number.
    pub fn control_at(&self, p: u16, moment: u32) -> Control
        requires { p < processor_count self.now }
        ensures value { result ≡ control_in self.now p moment }
        ensures run { (head : Head) (events : List Event) → StandsFor self.now head events →
            result ≡ control_at head events p moment }
        ensures root { result.root < 2 ^ 52 }
    {
        self.control_at_counted(p, moment, &mut Probes::new())
    }

    /// The control registers of a processor after all events that were noted.
    #[inline(always)]
    pub fn latest(&self, p: u16) -> Control
        requires { p < processor_count self.now }
        ensures value { (w : ℕ) → next_moment self.now ≤ w → result ≡ control_in self.now p w }
        ensures run { (head : Head) (events : List Event) → StandsFor self.now head events →
            (w : ℕ) → next_moment self.now ≤ w → result ≡ control_at head events p w }
        ensures root { result.root < 2 ^ 52 }
    {
        match changes_at(&self.by_processor, p).last() {
            Some(control) => control,
            None => self.start(p),
        }
    }

    /// The physical address of the PML4 table of a processor just before the event with this
    /// number.
    pub fn root_at(&self, p: u16, moment: u32) -> u64
        requires { p < processor_count self.now }
        ensures value { result ≡ (control_in self.now p moment).root }
        ensures run { (head : Head) (events : List Event) → StandsFor self.now head events →
            result ≡ (control_at head events p moment).root }
        ensures within { result < 2 ^ 52 }
    {
        self.root_at_counted(p, moment, &mut Probes::new())
    }

    /// What `root_at` gives, and counts the moments that were read.
    pub fn root_at_counted(&self, p: u16, moment: u32, probes: &mut Probes) -> u64
        requires { p < processor_count self.now }
        ensures value { result ≡ (control_in self.now p moment).root }
        ensures run { (head : Head) (events : List Event) → StandsFor self.now head events →
            result ≡ (control_at head events p moment).root }
        ensures within { result < 2 ^ 52 }
        ensures probes { (probes.old ≤ probes.new) × (probes.new ≤ probes.old + 34) }
    {
        self.control_at_counted(p, moment, probes).root
    }

    /// The current PCID of a processor just before the event with this number.
    pub fn pcid_at(&self, p: u16, moment: u32) -> u16
        requires { p < processor_count self.now }
        ensures value { result ≡ (control_in self.now p moment).pcid }
        ensures run { (head : Head) (events : List Event) → StandsFor self.now head events →
            result ≡ (control_at head events p moment).pcid }
    {
        self.pcid_at_counted(p, moment, &mut Probes::new())
    }

    /// What `pcid_at` gives, and counts the moments that were read.
    pub fn pcid_at_counted(&self, p: u16, moment: u32, probes: &mut Probes) -> u16
        requires { p < processor_count self.now }
        ensures value { result ≡ (control_in self.now p moment).pcid }
        ensures run { (head : Head) (events : List Event) → StandsFor self.now head events →
            result ≡ (control_at head events p moment).pcid }
        ensures probes { (probes.old ≤ probes.new) × (probes.new ≤ probes.old + 34) }
    {
        self.control_at_counted(p, moment, probes).pcid
    }

    /// Whether global pages are on (CR4.PGE) just before the event with this number.
    pub fn pge_at(&self, p: u16, moment: u32) -> bool
        requires { p < processor_count self.now }
        ensures value { result ≡ (control_in self.now p moment).pge }
        ensures run { (head : Head) (events : List Event) → StandsFor self.now head events →
            result ≡ (control_at head events p moment).pge }
    {
        self.pge_at_counted(p, moment, &mut Probes::new())
    }

    /// What `pge_at` gives, and counts the moments that were read.
    pub fn pge_at_counted(&self, p: u16, moment: u32, probes: &mut Probes) -> bool
        requires { p < processor_count self.now }
        ensures value { result ≡ (control_in self.now p moment).pge }
        ensures run { (head : Head) (events : List Event) → StandsFor self.now head events →
            result ≡ (control_at head events p moment).pge }
        ensures probes { (probes.old ≤ probes.new) × (probes.new ≤ probes.old + 34) }
    {
        self.control_at_counted(p, moment, probes).pge
    }

    /// What `control_at` gives, and counts the moments that were read.
    pub fn control_at_counted(&self, p: u16, moment: u32, probes: &mut Probes) -> Control
        requires { p < processor_count self.now }
        ensures value { result ≡ control_in self.now p moment }
        ensures run { (head : Head) (events : List Event) → StandsFor self.now head events →
            result ≡ control_at head events p moment }
        ensures root { result.root < 2 ^ 52 }
        ensures probes { (probes.old ≤ probes.new) × (probes.new ≤ probes.old + 34) }
    {
        match self.by_processor[p as usize].last_before(moment, probes) {
            Some(control) => control,
            None => self.start(p),
        }
    }

    /// What `control_at` gives, and the moments around this one at which the registers are the
    /// same.
    pub fn control_span(&self, p: u16, moment: u32, probes: &mut Probes) -> Span<Control>
        requires { p < processor_count self.now }
        ensures value { IsSpan (λ w. control_in self.now p w) moment result }
        ensures run { (head : Head) (events : List Event) → StandsFor self.now head events →
            IsSpan (λ w. control_at head events p w) moment result }
        ensures root { result.value.root < 2 ^ 52 }
        ensures probes { (probes.old ≤ probes.new) × (probes.new ≤ probes.old + 35) }
    {
        changes_at(&self.by_processor, p).span_at(moment, self.start(p), probes)
    }
}
