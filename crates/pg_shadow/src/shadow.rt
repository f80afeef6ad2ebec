ghost use Rattle.std.specs.Prelude.{◌≡◌, ◌+◌, ◌-◌, ◌^◌, ◌<◌, ◌≤◌, ◌&&◌, ℕ, List, length};
ghost use Rattle.std.specs.Prelude.{slice_get, OnOk, OnErr, None, true, if◌then◌else◌};
ghost use Rattle.pg_entry.specs.declared.Level.{Level};
ghost use Rattle.pg_event.specs.declared.event.Event.TheVariants as events;
ghost use Rattle.pg_event.specs.declared.event.Outcome.TheVariants as outcomes;
ghost use Rattle.pg_event.specs.Form.{processor_of};
ghost use Rattle.pg_event.specs.Meaning.{is_whole};
ghost use Rattle.pg_event.specs.Spelling.{IsHead};
ghost use Rattle.pg_event.specs.Values.{started};
ghost use Rattle.pg_event.specs.Invalidation.{level_shift, structure_key};
ghost use Rattle.pg_event.specs.Invalidation.{translation_key};
ghost use Rattle.pg_shadow.specs.Caches.{empty, with_table, with_leaf, after, AreInRange};
ghost use Rattle.pg_shadow.specs.Caches.{IsTableAt, IsPageAt, is_page_shift};
ghost use Rattle.pg_shadow.specs.Find.{found, IsFound, IsInRange};
ghost use Rattle.pg_shadow.specs.Spaces.{slot_in, path_in};
ghost use Rattle.pg_shadow.specs.Slots.{no_slot, bare};
ghost use Rattle.pg_shadow.specs.Left.{is_on_path};
ghost use Rattle.pg_shadow.specs.Held.{seen, space_of, level_of, KeepsOwn, IsSameOwn, IsLeftOwn};
ghost use Rattle.pg_shadow.specs.Held.{IsLeftGlobals, IsChangedOwn};

use crate::entries::{Found, KeptLeaf, KeptTable};
use crate::lookup::chosen;
use crate::slot::{KeptEntry, Path};
use crate::space::Space;
use pg_entry::{AccessKind, Level, Rules};
use pg_event::{
    Control, Event, Header, Invalidation, Moments, Outcome, bits_from, controlled, level_shift,
    loaded, processor_of,
};
use pg_timeline::Probes;
use std::alloc::{AllocError, Global};
use std::collections::HashMap;
use std::marker::Model;

/// What one processor caches, and its control registers.
#[derive(Drop)]
pub struct Shadow {
    maxphyaddr: u8,
    control: Control,
    alloc: Global,
    own: HashMap<u16, Space>,
    globals: Space,
}

impl Model for Shadow {
    ghost use Rattle.pg_shadow.specs.Held.{Held, seen};

    ghost Value = { Held };

    ghost use Rattle.pg_shadow.specs.Caches.{AreInRange};

    ghost view = { λ a. record {
      width = a.maxphyaddr;
      control = a.control;
      own = a.own.entries;
      globals = a.globals;
    } };

    ghost invariant = { λ a. AreInRange (seen (record {
      width = a.maxphyaddr;
      control = a.control;
      own = a.own.entries;
      globals = a.globals;
    })) };
}

/// The level whose entries map pages of this size.
fn level_of(shift: u8) -> Level
    ensures { result ≡ level_of shift }
{
    match shift {
        30 => Level::Three,
        21 => Level::Two,
        _ => Level::One,
    }
}

/// The control registers of a processor at the start of a run.
fn started(header: &Header, p: u16) -> Control
    requires head { IsHead header.now }
    requires processor { p < length header.now.processors }
    ensures { result
        ≡ started header.now.cfg.m (slice_get header.now.processors p) }
{
    let (cr3, pge) = header.processors[p as usize];
    loaded(header.cfg.m, cr3, pge)
}

/// Whether the translation that a leaf gives is global (Intel SDM, vol. 3, 4.10.2.4).
fn is_global(control: Control, global_bit: bool) -> bool
    ensures { result ≡ (global_bit && control.pge) }
{
    global_bit && control.pge
}

/// Keeps an entry under a PCID, which may be its first.
fn keep_own(
    own: &mut HashMap<u16, Space>,
    alloc: Global,
    pcid: u16,
    level: Level,
    number: u64,
    kept: &KeptEntry,
) -> Result<(), AllocError>
    requires { number < 2 ^ (48 - level_shift level) }
    ensures ok { OnOk result
        (KeepsOwn own.old.entries own.new.entries pcid level number kept.now) }
    ensures refused { OnErr result
        (slot_in (space_of own.old.entries pcid) level number ≡ no_slot) }
    ensures err { OnErr result (IsSameOwn own.old.entries own.new.entries) }
{
    match own.get_mut(&pcid) {
        Some(space) => space.keep(level, number, kept),
        None => {
            let mut space = Space::new(alloc);
            space.keep(level, number, kept)?;
            own.insert(pcid, space)?;
            Ok(())
        }
    }
}

/// Gives up what stands under a PCID on the path of a linear address.
fn forget_own(own: &mut HashMap<u16, Space>, pcid: u16, la: u64)
    ensures { IsChangedOwn (λ l n s. if is_on_path l n la then no_slot else s) pcid
        own.old.entries own.new.entries }
{
    match own.get_mut(&pcid) {
        Some(space) => space.forget(la),
        None => {}
    }
}

/// Gives up all tables under a PCID.
fn bare_own(own: &mut HashMap<u16, Space>, pcid: u16)
    ensures { IsChangedOwn (λ l n s. bare s) pcid own.old.entries own.new.entries }
{
    match own.get_mut(&pcid) {
        Some(space) => space.bare(),
        None => {}
    }
}

/// Gives up all that stands under a PCID, and its memory.
fn remove_own(own: &mut HashMap<u16, Space>, pcid: u16)
    ensures { IsChangedOwn (λ l n s. no_slot) pcid own.old.entries own.new.entries }
{
    let _ = own.remove(&pcid);
}

/// Takes out under each PCID what an invalidation names, which by all rules is both structure
/// entries and translations.
fn leave_own(own: &mut HashMap<u16, Space>, invalidation: Invalidation)
    requires { is_whole invalidation ≡ true }
    ensures { IsLeftOwn invalidation own.old.entries own.new.entries }
{
    match invalidation {
        Invalidation::Nothing => {}
        Invalidation::Address { pcid, la, .. } => forget_own(own, pcid, la),
        Invalidation::Page { pcid, la } => {
            bare_own(own, pcid);
            forget_own(own, pcid, la);
        }
        Invalidation::Pcid(pcid) => remove_own(own, pcid),
        Invalidation::Everything { .. } => own.clear(),
    }
}

/// Takes out the global translations that an invalidation names.
fn leave_globals(globals: &mut Space, invalidation: Invalidation)
    ensures { IsLeftGlobals invalidation globals.old globals.new }
{
    match invalidation {
        Invalidation::Nothing | Invalidation::Pcid(_) => {}
        Invalidation::Address {
            la,
            globals: takes,
            ..
        } => {
            if takes {
                globals.forget(la);
            }
        }
        Invalidation::Page { la, .. } => globals.forget(la),
        Invalidation::Everything { globals: takes } => {
            if takes {
                globals.clear();
            }
        }
    }
}

impl Shadow {
    /// The caches of a processor at the start of a run: empty, with the control registers that the
    /// header gives.
    pub fn new(alloc: Global, header: &Header, p: u16) -> Shadow
        requires head { IsHead header.now }
        requires processor { p < length header.now.processors }
        ensures { let maxphyaddr = header.now.cfg.m in
            seen result
            ≡ empty maxphyaddr (started maxphyaddr (slice_get header.now.processors p)) }
    {
        Shadow {
            maxphyaddr: header.cfg.m,
            control: started(header, p),
            alloc,
            own: HashMap::new(alloc),
            globals: Space::new(alloc),
        }
    }

    /// MAXPHYADDR, by which a MOV to CR3 is read and within which all that is kept lies.
    pub fn width(&self) -> u8
        ensures value { result ≡ (seen self.now).width }
        ensures within { (36 ≤ result) × (result ≤ 52) }
        ensures range { AreInRange (seen self.now) }
    {
        self.maxphyaddr
    }

    /// The control registers.
    pub fn control(&self) -> Control
        ensures value { result ≡ (seen self.now).control }
        ensures range { AreInRange (seen self.now) }
    {
        self.control
    }

    /// What there is for an access to a linear address: a translation, by a page of 4 KB before 2
    /// MB before 1 GB, in each size the current PCID's before the global one; else the table of the
    /// deepest paging-structure-cache entry of the current PCID. Where the header is of version 2,
    /// a write that the rights allow passes over translations with D = 0.
    pub fn find(&self, la: u64, kind: AccessKind, header: &Header) -> Found
        ensures value { result ≡ found (seen self.now) la header.now kind }
        ensures found { IsFound (seen self.now) la header.now kind result }
        ensures range { IsInRange (seen self.now).width result }
    {
        self.find_counted(la, kind, header, &mut Probes::new())
    }

    /// What `find` gives, and counts the slots that were read.
    pub fn find_counted(
        &self,
        la: u64,
        kind: AccessKind,
        header: &Header,
        probes: &mut Probes,
    ) -> Found
        ensures value { result ≡ found (seen self.now) la header.now kind }
        ensures found { IsFound (seen self.now) la header.now kind result }
        ensures range { IsInRange (seen self.now).width result }
        ensures probes { (probes.old ≤ probes.new) × (probes.new ≤ probes.old + 8) }
    {
        let own = self.own_path(la, probes);
        let globals = self.globals.path(la, probes);
        chosen(&own, &globals, header, kind)
    }

    /// The slots that a walk meets under the current PCID.
    fn own_path(&self, la: u64, probes: &mut Probes) -> Path
        ensures value { result ≡ path_in (space_of self.now.own self.now.control.pcid) la }
        ensures probes { (probes.old ≤ probes.new) × (probes.new ≤ probes.old + 4) }
    {
        match self.own.get(&self.control.pcid) {
            Some(space) => space.path(la, probes),
            None => Path::EMPTY,
        }
    }

    /// Keeps the table that an entry of level 4, 3 or 2 refers to, for the linear address that the
    /// entry was read for, under the current PCID, in place of what the key had. Fails where memory
    /// is refused, and then nothing is kept; none is taken where the key has an entry.
    pub fn keep_table(&mut self, la: u64, level: Level, kept: KeptTable) -> Result<(), AllocError>
        requires { IsTableAt (seen self.old).width level kept.table kept.moments }
        ensures ok { OnOk result (let s = seen self.old in
            seen self.new ≡ with_table (structure_key s.control.pcid level la) kept s) }
        ensures refused { OnErr result (let s = seen self.old in
            s.tables (structure_key s.control.pcid level la) ≡ None) }
        ensures err { OnErr result (seen self.new ≡ seen self.old) }
    {
        let number = bits_from(level_shift(level), la);
        let pcid = self.control.pcid;
        keep_own(
            &mut self.own,
            self.alloc,
            pcid,
            level,
            number,
            &KeptEntry::Table(kept),
        )
    }

    /// Keeps a page of 2 to the power of `shift` bytes (12, 21 or 30) for the linear address that
    /// its leaf was read for, in place of what the key had: for every PCID where the leaf has G and
    /// CR4.PGE is 1 (Intel SDM, vol. 3, 4.10.2.4), else under the current one. Fails where memory
    /// is refused, and then nothing is kept; none is taken where the key has an entry.
    pub fn keep_leaf(
        &mut self,
        la: u64,
        shift: u8,
        global_bit: bool,
        kept: KeptLeaf,
    ) -> Result<(), AllocError>
        requires { IsPageAt (seen self.old).width shift kept.frame kept.moments }
        ensures ok { OnOk result (let s = seen self.old in
            let key = translation_key s.control.pcid shift (global_bit && s.control.pge) la in
            seen self.new ≡ with_leaf key kept s) }
        ensures refused { OnErr result (let s = seen self.old in
            s.leaves (translation_key s.control.pcid shift (global_bit && s.control.pge) la)
            ≡ None) }
        ensures err { OnErr result (seen self.new ≡ seen self.old) }
    {
        let level = level_of(shift);
        let number = bits_from(shift, la);
        let pcid = self.control.pcid;
        if is_global(self.control, global_bit) {
            self.globals.keep(level, number, &KeptEntry::Leaf(kept))
        } else {
            keep_own(
                &mut self.own,
                self.alloc,
                pcid,
                level,
                number,
                &KeptEntry::Leaf(kept),
            )
        }
    }

    /// An event of the processor itself, whatever number it has there: takes out what it must drop,
    /// under the control registers before it, which it then changes. An event that drops nothing
    /// and changes no register does nothing here. Takes no memory.
    pub fn happened(&mut self, event: &Event)
        ensures { seen self.new ≡ after event.now (seen self.old) }
    {
        let control = self.control;
        let invalidation = event.invalidation(Rules::ALL, control);
        leave_own(&mut self.own, invalidation);
        leave_globals(&mut self.globals, invalidation);
        self.control = controlled(self.maxphyaddr, processor_of(event), control, event);
    }

    /// MOV to CR3.
    pub fn on_cr3(&mut self, operand: u64)
        ensures { (p : ℕ) → seen self.new ≡ after (events.MovCr3 p operand) (seen self.old) }
    {
        self.happened(&Event::MovCr3 { p: 0, operand });
    }

    /// INVLPG of a linear address.
    pub fn on_invlpg(&mut self, la: u64)
        ensures { (p : ℕ) → seen self.new ≡ after (events.Invlpg p la) (seen self.old) }
    {
        self.happened(&Event::Invlpg { p: 0, la });
    }

    /// INVPCID of a type (0 to 3), a PCID and a linear address.
    pub fn on_invpcid(&mut self, kind: u8, pcid: u16, la: u64)
        ensures { (p : ℕ) → seen self.new ≡ after (events.Invpcid p kind pcid la) (seen self.old) }
    {
        self.happened(&Event::Invpcid {
            p: 0,
            kind,
            pcid,
            la,
        });
    }

    /// MOV to CR4 that leaves PGE so.
    pub fn on_pge(&mut self, on: bool)
        ensures { (p : ℕ) → seen self.new ≡ after (events.MovCr4Pge p on) (seen self.old) }
    {
        self.happened(&Event::MovCr4Pge { p: 0, on });
    }

    /// A page fault at a linear address.
    pub fn on_fault(&mut self, la: u64)
        ensures { (p flags code : ℕ) (moments : List ℕ) → seen self.new
            ≡ after (events.Access p flags la (outcomes.Fault code) moments) (seen self.old) }
    {
        self.happened(&Event::Access {
            p: 0,
            flags: 0,
            la,
            outcome: Outcome::Fault(0),
            moments: Moments::first(0),
        });
    }
}
