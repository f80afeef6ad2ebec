ghost use Rattle.std.specs.Prelude.{◌≡◌, ◌<◌, ◌≤◌, ◌^◌, ◌↔◌, [], ◌∷◌, IsTrue, OnOk, OnErr, true};
ghost use Rattle.std.specs.List.{list_any};
ghost use Rattle.pg_event.specs.Wants.{want_of};
ghost use Rattle.pg_machine.specs.Machine.{same_structure, same_translation, is_usable, may_serve};
ghost use Rattle.pg_machine.specs.Machine.{Answers};
ghost use Rattle.pg_machine.specs.Stepping.{started_processor, leading_entry, has_structure};
ghost use Rattle.pg_machine.specs.Stepping.{has_translation, is_root, leads, may_read, has_member};
ghost use Rattle.pg_machine.specs.Stepping.{without_member, finds, leads_to_sought, answers};
ghost use Rattle.pg_machine.specs.Stepping.{has_answer, faults_by, has_outcome, processor_after};
ghost use Rattle.pg_machine.specs.Stepping.{without_taken, gives};

use crate::cached::{CachedStructure, CachedTranslation};
use crate::memory::Memory;
use crate::sought::{Sought, is_sought, leads_to_sought};
use crate::step::{Member, Structure, Translation};
use pg_entry::{AccessKind, Cause, Cfg, Level, Op, allowed, error_code};
use pg_event::{
    Control, Event, Header, Invalidation, Outcome, Parent, Version, Want, controlled, loaded,
    processor_of, root_of, structure_key, translation_matches, want_of,
};
use std::alloc::{AllocError, Global};
use std::marker::Model;

/// A logical processor: its control registers and its caches.
#[derive(Debug, Drop)]
pub(crate) struct Processor {
    control: Control,
    /// Oldest first, so that adding one moves no other. Most are asked for soon after they came.
    structures: Vec<CachedStructure>,
    translations: Vec<CachedTranslation>,
}

impl Model for Processor {
    ghost use Rattle.std.specs.Prelude.{◌<◌, ◌^◌, reverse};
    ghost use Rattle.pg_machine.specs.Listed.{ProcessorState};

    ghost Value = { ProcessorState };

    ghost view = { λ p. record {
      control = p.control;
      structures = reverse p.structures.items;
      translations = reverse p.translations.items;
    } };

    ghost invariant = { λ p. p.control.root < 2 ^ 52 };
}

impl Processor {
    /// The processor at the start of a run, by its CR3 and whether global pages are on.
    pub(crate) fn started(alloc: Global, maxphyaddr: u8, start: (u64, bool)) -> Processor
        requires width { (36 ≤ maxphyaddr) × (maxphyaddr ≤ 52) }
        ensures { result ≡ started_processor maxphyaddr start }
    {
        Processor {
            control: loaded(maxphyaddr, start.0, start.1),
            structures: Vec::new(alloc),
            translations: Vec::new(alloc),
        }
    }

    pub(crate) fn control(&self) -> Control
        ensures value { result ≡ self.now.control }
        ensures within { result.root < 2 ^ 52 }
    {
        self.control
    }

    fn has_structure(&self, wanted: &Structure) -> bool
        ensures value { result ≡ has_structure self.now wanted.now }
        ensures within { IsTrue result → wanted.now.table < 2 ^ 52 }
    {
        is_among(wanted, &self.structures)
    }

    fn has_translation(&self, wanted: &Translation) -> bool
        ensures { result ≡ has_translation self.now wanted.now }
    {
        self.translations
            .iter()
            .rev()
            .any(|x| same_translation(wanted, &x.get()))
    }

    /// Whether a walk for a linear address may read this table at this level: at level 4 the root,
    /// below it the table of a paging-structure-cache entry of the current PCID (Intel SDM, vol. 3,
    /// 4.10.3.2).
    pub(crate) fn may_read(&self, la: u64, level: Level, from: Parent) -> bool
        ensures value { result ≡ may_read self.now la level from }
        ensures within { IsTrue result → from.table < 2 ^ 52 }
    {
        match level {
            Level::Four => self.is_root(from),
            Level::Three => self.leads(la, Level::Four, from),
            Level::Two => self.leads(la, Level::Three, from),
            Level::One => self.leads(la, Level::Two, from),
        }
    }

    fn is_root(&self, from: Parent) -> bool
        ensures value { result ≡ is_root self.now.control from }
        ensures within { IsTrue result → from.table < 2 ^ 52 }
    {
        from == root_of(self.control)
    }

    fn leads(&self, la: u64, level: Level, from: Parent) -> bool
        ensures value { result ≡ leads self.now la level from }
        ensures within { IsTrue result → from.table < 2 ^ 52 }
    {
        self.has_structure(&self.leading_entry(la, level, from))
    }

    fn leading_entry(&self, la: u64, level: Level, from: Parent) -> Structure
        ensures { result ≡ leading_entry self.now.control.pcid la level from }
    {
        Structure {
            key: structure_key(self.control.pcid, level, la),
            table: from.table,
            rights: from.rights,
        }
    }

    pub(crate) fn add_structure(&mut self, structure: Structure) -> Result<(), AllocError>
        requires { structure.table < 2 ^ 52 }
        ensures ok { OnOk result
            (self.new ≡ record self.old { structures = structure ∷ self.old.structures }) }
        ensures err { OnErr result (self.new ≡ self.old) }
    {
        self.structures.push(CachedStructure::new(structure))?;
        Ok(())
    }

    pub(crate) fn add_translation(&mut self, translation: Translation) -> Result<(), AllocError>
        requires size { translation.key.shift ≤ 30 }
        requires within { translation.frame < 2 ^ 52 }
        ensures ok { OnOk result
            (self.new ≡ record self.old { translations = translation ∷ self.old.translations }) }
        ensures err { OnErr result (self.new ≡ self.old) }
    {
        self.translations.push(CachedTranslation::new(translation))?;
        Ok(())
    }

    pub(crate) fn has_member(&self, member: &Member) -> bool
        ensures { result ≡ has_member self.now member.now }
    {
        match member {
            Member::Structure(structure) => self.has_structure(structure),
            Member::Translation(translation) => self.has_translation(translation),
        }
    }

    pub(crate) fn drop_member(&mut self, member: &Member)
        ensures { self.new ≡ without_member self.old member.now }
    {
        match *member {
            Member::Structure(structure) => {
                self.structures
                    .retain(|x| !same_structure(&structure, &x.get()))
            }
            Member::Translation(translation) => {
                self.translations
                    .retain(|x| !same_translation(&translation, &x.get()))
            }
        }
    }

    /// Whether an access of this processor may come to this now. A translation that may be used
    /// gives an answer or a fault by rights, an entry that the walk may read the other faults.
    pub(crate) fn has_outcome(
        &self,
        header: &Header,
        memory: &Memory,
        access: AccessKind,
        la: u64,
        outcome: Outcome,
    ) -> bool
        requires width { (36 ≤ header.now.cfg.m) × (header.now.cfg.m ≤ 52) }
        ensures { result
            ≡ has_outcome header.now memory.now self.now access la outcome (want_of outcome) }
    {
        let cfg = header.cfg;
        match want_of(outcome) {
            Want::Leaf => self.has_answer(header, access, la, outcome),
            Want::Absent => {
                faults_by(cfg, access, Cause::Absent, outcome)
                    && self.finds(cfg, memory, la, Sought::Entry(Want::Absent))
            }
            Want::Reserved => {
                faults_by(cfg, access, Cause::Reserved, outcome)
                    && self.finds(cfg, memory, la, Sought::Entry(Want::Reserved))
            }
            Want::Present => false,
        }
    }

    fn has_answer(&self, header: &Header, access: AccessKind, la: u64, outcome: Outcome) -> bool
        ensures { result ≡ has_answer header.now self.now access la outcome }
    {
        let control = self.control;
        self.translations.iter().rev().any(|x| {
            gives(header, control, la, access, outcome, &x.get())
        })
    }

    /// Whether some entry that a walk of this processor for a linear address may read now is what
    /// is sought.
    pub(crate) fn finds(&self, cfg: Cfg, memory: &Memory, la: u64, sought: Sought) -> bool
        requires width { (36 ≤ cfg.m) × (cfg.m ≤ 52) }
        ensures { result ≡ finds cfg memory.now self.now la sought }
    {
        is_sought(cfg, memory, la, sought, Level::Four, root_of(self.control))
            || self.leads_to_sought(cfg, memory, la, sought)
    }

    fn leads_to_sought(&self, cfg: Cfg, memory: &Memory, la: u64, sought: Sought) -> bool
        requires width { (36 ≤ cfg.m) × (cfg.m ≤ 52) }
        ensures { result
            ≡ list_any (leads_to_sought cfg memory.now la sought self.now.control.pcid)
            self.now.structures }
    {
        let pcid = self.control.pcid;
        self.structures.iter().rev().any(|x| leads_to_sought(
            cfg,
            memory,
            la,
            sought,
            pcid,
            &x.get(),
        ))
    }

    /// Drops what an invalidation takes out.
    fn drop_taken(&mut self, by: Invalidation)
        ensures { self.new ≡ without_taken by self.old }
    {
        self.structures.retain(|x| !by.takes_structure(x.get().key));
        self.translations
            .retain(|x| !by.takes_translation(x.get().key));
    }

    /// What `drop_taken` does. Most events invalidate nothing, and go over no entry.
    fn drop_by(&mut self, by: Invalidation)
        ensures { self.new ≡ without_taken by self.old }
    {
        match by {
            Invalidation::Nothing => {}
            Invalidation::Address { .. }
            | Invalidation::Page { .. }
            | Invalidation::Pcid(_)
            | Invalidation::Everything { .. } => self.drop_taken(by),
        }
    }

    /// The processor after an event of its own.
    pub(crate) fn take(&mut self, cfg: Cfg, event: &Event)
        requires width { (12 ≤ cfg.m) × (cfg.m ≤ 52) }
        ensures { self.new ≡ processor_after cfg event.now self.old }
    {
        let control = self.control;
        self.drop_by(event.invalidation(cfg.rules, control));
        self.control = controlled(cfg.m, processor_of(event), control, event);
    }
}

/// Whether one of these entries is this one. The last are asked first.
fn is_among(wanted: &Structure, entries: &[CachedStructure]) -> bool
    ensures value { result ≡ list_any (same_structure wanted.now) entries.now }
    ensures within { IsTrue result → wanted.now.table < 2 ^ 52 }
{
    for i in (0..entries.len()).rev() {
        if same_structure(wanted, &entries[i].get()) {
            return true;
        }
    }
    false
}

fn same_structure(a: &Structure, b: &Structure) -> bool
    ensures { result ≡ same_structure a.now b.now }
{
    a == b
}

fn same_translation(a: &Translation, b: &Translation) -> bool
    ensures { result ≡ same_translation a.now b.now }
{
    a == b
}

/// Whether a translation may be used for a linear address: it is of its page, and of the current
/// PCID or global (Intel SDM, vol. 3, 4.10.2.4).
fn is_usable(control: Control, la: u64, translation: &Translation) -> bool
    requires { translation.now.key.shift ≤ 30 }
    ensures { result ≡ is_usable control la translation.now }
{
    let key = translation.key;
    translation_matches(key, la) && (control.pcid == key.pcid || key.global)
}

/// Whether a translation answers an access, or denies it, so.
fn answers(
    header: &Header,
    access: AccessKind,
    la: u64,
    outcome: Outcome,
    translation: &Translation,
) -> bool
    requires size { translation.now.key.shift ≤ 30 }
    requires within { translation.now.frame < 2 ^ 52 }
    ensures { result ≡ answers header.now access la outcome translation.now }
{
    let cfg = header.cfg;
    let is_allowed = allowed(cfg, translation.rights, access);
    match outcome {
        Outcome::Page(page) => {
            is_allowed
                && may_serve(header.version, access, translation)
                && page == translation.frame + la % (1 << translation.key.shift)
        }
        Outcome::Fault(code) => !is_allowed && code == error_code(cfg, access, Cause::Denied),
    }
}

/// Whether a translation may be used for a write: where dirty flags are judged, its page's entry
/// had D (Intel SDM, vol. 3, 4.8).
fn may_serve(version: Version, access: AccessKind, translation: &Translation) -> bool
    ensures { result ≡ may_serve version access translation.now }
{
    match version {
        Version::One => true,
        Version::Two => !matches!(access.op, Op::Write) || translation.dirty,
    }
}

/// Whether a processor with these control registers may use a translation for an access to a linear
/// address, and the access then has this outcome: an address in a page, or a fault by the rights
/// (Intel SDM, vol. 3, 4.6, 4.10.2.4).
pub fn gives(
    header: &Header,
    control: Control,
    la: u64,
    access: AccessKind,
    outcome: Outcome,
    translation: &Translation,
) -> bool
    requires size { translation.now.key.shift ≤ 30 }
    requires within { translation.now.frame < 2 ^ 52 }
    ensures value { result ≡ gives header.now control la access outcome translation.now }
    ensures meaning { IsTrue result ↔ (is_usable control la translation.now ≡ true)
        × Answers header.now access la translation.now outcome }
{
    is_usable(control, la, translation) && answers(header, access, la, outcome, translation)
}

fn faults_by(cfg: Cfg, access: AccessKind, cause: Cause, outcome: Outcome) -> bool
    ensures { result ≡ faults_by cfg access cause outcome }
{
    match outcome {
        Outcome::Page(_) => false,
        Outcome::Fault(code) => code == error_code(cfg, access, cause),
    }
}
