ghost use Rattle.std.specs.Prelude.{◌≡◌, ◌+◌, ◌<◌, ◌≤◌, not, List, [], ◌∷◌, ◌++◌, length};
ghost use Rattle.std.specs.Prelude.{IsOk, OnOk, OnErr, ℕ, Bool, IsTrue, false, true, ◌||◌};
ghost use Rattle.pg_event.specs.declared.event.Event.{Event};
ghost use Rattle.pg_event.specs.Form.{processor_of};
ghost use Rattle.pg_event.specs.Heads.{Head};
ghost use Rattle.pg_event.specs.Invalidation.{structure_key, translation_key};
ghost use Rattle.pg_event.specs.Values.{control_at};
ghost use Rattle.pg_event.specs.Witness.{structure_survives, translation_survives};
ghost use Rattle.pg_entry.specs.Kinds.{IsPageShift};
ghost use Rattle.pg_inval.specs.Drops.{Structure, Translation, IsTableLevel, DropsNothing};
ghost use Rattle.pg_inval.specs.Drops.{next_moment, is_dropped, IsNoted, IsSame, IsCutAt};
ghost use Rattle.pg_inval.specs.Drops.{StandsFor};
ghost use Rattle.pg_inval.specs.Lists.{IsFirstDrop, IsLeastBetween, has_drop};
ghost use Rattle.pg_inval.specs.Spaces.{IsSpaceDrop, structure_space, translation_space};

use crate::key::{DropKey, global_at, local_at, structure_at, structure_keys, translation_keys};
use crate::lasts::Lasts;
use crate::listed::Listed;
use crate::log::{LogEntry, forget_entries};
use crate::packed::pack;
use crate::space::{Space, own_key, space_keys};
use crate::tally::Tally;
use pg_entry::{Level, Rules};
use pg_event::{
    Control, Event, Invalidation, StructureKey, TranslationKey, Window, processor_of,
    structure_key, translation_key,
};
use pg_timeline::Probes;
use std::alloc::{AllocError, Global};
use std::marker::Model;

/// What a run's events dropped from the caches of their processors, as far as they were noted: a
/// log of them, for each key a bound of its last moment, and for each key the moments of its
/// events. The last moments answer most look-ups. The lists of a class of keys are made from the
/// log by `catch_up`; what they lack, look-ups find in the log.
#[derive(Drop)]
pub struct Drops {
    alloc: Global,
    next: u64,
    log: Vec<LogEntry>,
    listed: Listed,
    lasts: Lasts,
}

impl Model for Drops {
    ghost use Rattle.pg_inval.specs.Lists.{Log, IsRisingFrom, AreBefore};
    ghost use Rattle.pg_inval.specs.Lasts.{AreBounded};

    ghost Value = { Log };

    ghost view = { λ a. record { entries = a.log.items; next = a.next } };

    ghost use Rattle.pg_inval.specs.Listed.{AreListed};

    ghost invariant = { λ a. IsRisingFrom 0 a.log.items × AreBefore a.next a.log.items
        × AreListed a.log.items a.listed × AreBounded a.lasts a.log.items };
}

impl Drops {
    /// No event.
    pub fn new(alloc: Global) -> Drops
        ensures next { next_moment result ≡ 0 }
        ensures start { (head : Head) → StandsFor result head [] }
    {
        Drops {
            alloc,
            next: 0,
            log: Vec::new(alloc),
            listed: Listed::new(alloc),
            lasts: Lasts::new(alloc),
        }
    }

    /// Forgets the events from a moment on.
    pub fn forget_from(&mut self, moment: u32)
        ensures { IsCutAt self.old self.new moment }
    {
        forget_entries(&mut self.log, moment);
        self.listed.forget_from(moment, self.log.as_slice().len());
        self.next = self.next.min(moment as u64);
    }

    /// The least moment that a further event may have.
    pub fn next(&self) -> u64
        ensures { result ≡ next_moment self.now }
    {
        self.next
    }

    /// Notes the event with this number, where its processor is held to `rules`, and `before` are
    /// the control registers just before it; one that drops nothing takes no memory. Fails where
    /// memory is refused, and then nothing is noted. All lists are made up to it, so that look-ups
    /// need go through no log.
    pub fn note(
        &mut self,
        rules: Rules,
        moment: u32,
        event: &Event,
        before: Control,
    ) -> Result<(), AllocError>
        requires { next_moment self.old ≤ moment }
        ensures ok { OnOk result (IsNoted rules self.old self.new moment event.now before) }
        ensures err { OnErr result (IsSame self.old self.new) }
        ensures none { DropsNothing rules before event.now → IsOk result }
        ensures run { (head : Head) (events : List Event) → StandsFor self.old head events →
            rules ≡ head.cfg.rules → moment ≡ length events →
            before ≡ control_at head events (processor_of event.now) moment →
            OnOk result (StandsFor self.new head (events ++ event.now ∷ [])) }
    {
        self.keep_wide();
        let noted = self.note_later(rules, moment, event, before);
        self.catch_up();
        noted
    }

    /// Notes an event as `note` does, in the log and in the last moments of keys alone: lists wait
    /// for `catch_up`. Until then look-ups that the last moments do not answer go through the part
    /// of the log that their window has. How many entries they pass over is counted in their
    /// `Probes`, so that whoever asks can tell when lists are worth making.
    pub fn note_later(
        &mut self,
        rules: Rules,
        moment: u32,
        event: &Event,
        before: Control,
    ) -> Result<(), AllocError>
        requires { next_moment self.old ≤ moment }
        ensures ok { OnOk result (IsNoted rules self.old self.new moment event.now before) }
        ensures err { OnErr result (IsSame self.old self.new) }
        ensures none { DropsNothing rules before event.now → IsOk result }
        ensures run { (head : Head) (events : List Event) → StandsFor self.old head events →
            rules ≡ head.cfg.rules → moment ≡ length events →
            before ≡ control_at head events (processor_of event.now) moment →
            OnOk result (StandsFor self.new head (events ++ event.now ∷ [])) }
    {
        let next = moment as u64 + 1;
        let p = processor_of(event);
        let invalidation = event.invalidation(rules, before);
        if let Invalidation::Nothing = invalidation {
            self.next = next;
            return Ok(());
        }
        let entry = LogEntry {
            moment,
            p,
            packed: pack(invalidation),
        };
        self.log.push(entry)?;
        self.lasts.raise_for(p, invalidation, moment);
        self.next = next;
        Ok(())
    }

    /// There may be large or global pages: from now on their last moments are kept too, and their
    /// lists are made. What was dropped of them before, look-ups find in the log.
    pub fn keep_wide(&mut self)
        ensures { self.new ≡ self.old }
    {
        self.lasts.raise_wide_too();
    }

    /// How many entries of the log each kind of list lacks. No clause speaks of it: it is for those
    /// who weigh what lists cost against what look-ups pass over.
    pub fn unlisted(&self) -> Tally {
        self.listed.unlisted(self.log.as_slice().len())
    }

    /// Makes all lists up to the last event that was noted, those of large and global pages where
    /// `keep_wide` was called. Where memory is refused, those of a class stay behind, and look-ups
    /// go through the rest of the log.
    pub fn catch_up(&mut self)
        ensures { self.new ≡ self.old }
    {
        self.listed.catch_up(self.alloc, self.log.as_slice());
        if self.lasts.raises_wide() {
            self.listed.catch_up_wide(self.alloc, self.log.as_slice());
        }
    }

    /// Makes the lists that most look-ups ask, up to the last event that was noted: those of
    /// translations of 4-KiB pages that are not global.
    pub fn catch_up_pages(&mut self)
        ensures { self.new ≡ self.old }
    {
        self.listed.catch_up_pages(self.alloc, self.log.as_slice());
    }

    /// Makes the lists of paging-structure-cache entries.
    pub fn catch_up_regions(&mut self)
        ensures { self.new ≡ self.old }
    {
        self.listed
            .catch_up_regions(self.alloc, self.log.as_slice());
    }

    /// Makes the lists of translations of large and of global pages.
    pub fn catch_up_wide(&mut self)
        ensures { self.new ≡ self.old }
    {
        self.listed.catch_up_wide(self.alloc, self.log.as_slice());
    }

    /// Whether no event from a moment on drops a translation of processor `p`, as the last moments
    /// of its keys tell without a list. They may also say no where none does, since keys share
    /// them.
    #[inline(always)]
    pub fn translation_outlasts(&self, p: u16, key: TranslationKey, from: u32) -> bool
        requires { IsPageShift key.shift }
        ensures value { IsTrue result → (to : ℕ) →
            is_dropped self.now p (Translation key) from to ≡ false }
        ensures run { IsTrue result → (head : Head) (events : List Event) →
            StandsFor self.now head events → (to : ℕ) →
            translation_survives head events p key from to ≡ true }
    {
        if key.global {
            self.lasts
                .are_over(DropKey::Globals { p }, global_at(p, key), from)
        } else {
            let all = DropKey::NotGlobal { p };
            let of_pcid = DropKey::LocalsOf { p, pcid: key.pcid };
            self.lasts.is_over(all, from) && self.lasts.are_over(of_pcid, local_at(p, key), from)
        }
    }

    /// What `translation_outlasts` says, of a paging-structure-cache entry.
    #[inline(always)]
    pub fn structure_outlasts(&self, p: u16, key: StructureKey, from: u32) -> bool
        requires { IsTableLevel key.level }
        ensures value { IsTrue result → (to : ℕ) →
            is_dropped self.now p (Structure key) from to ≡ false }
        ensures run { IsTrue result → (head : Head) (events : List Event) →
            StandsFor self.now head events → (to : ℕ) →
            structure_survives head events p key from to ≡ true }
    {
        let all = DropKey::NotGlobal { p };
        let of_pcid = DropKey::StructuresOf { p, pcid: key.pcid };
        self.lasts.is_over(all, from) && self.lasts.are_over(of_pcid, structure_at(p, key), from)
    }

    /// Whether processor `p` had to drop the paging-structure-cache entry that level 4, 3 or 2 gave
    /// for a linear address under a PCID, by an event from `from` up to, not with, `to`.
    pub fn structure_dropped(
        &self,
        p: u16,
        pcid: u16,
        level: Level,
        la: u64,
        from: u32,
        to: u32,
    ) -> bool
        requires { IsTableLevel level }
        ensures value { result
            ≡ is_dropped self.now p (Structure (structure_key pcid level la)) from to }
        ensures run { let key = structure_key pcid level la in
            (head : Head) (events : List Event) → StandsFor self.now head events →
            result ≡ not (structure_survives head events p key from to) }
    {
        let key = structure_key(pcid, level, la);
        self.structure_dropped_counted(p, key, Window { from, to }, &mut Probes::new())
    }

    /// What `structure_dropped` says, of the entry that a key names, and counts the moments that
    /// were read in lists.
    pub fn structure_dropped_counted(
        &self,
        p: u16,
        key: StructureKey,
        window: Window,
        probes: &mut Probes,
    ) -> bool
        requires { IsTableLevel key.level }
        ensures value { result ≡ is_dropped self.now p (Structure key) window.from window.to }
        ensures run { (head : Head) (events : List Event) → StandsFor self.now head events →
            result ≡ not (structure_survives head events p key window.from window.to) }
        ensures probes { (probes.old ≤ probes.new) × (probes.new ≤ probes.old + 102) }
    {
        self.first_drop_of_structure(p, key, window, probes)
            .is_some()
    }

    /// The least moment of a window at which processor `p` had to drop a paging-structure-cache
    /// entry. It counts the moments that were read.
    pub fn first_drop_of_structure(
        &self,
        p: u16,
        key: StructureKey,
        window: Window,
        probes: &mut Probes,
    ) -> Option<u32>
        requires { IsTableLevel key.level }
        ensures first { IsFirstDrop
            (is_dropped self.now p (Structure key)) window.from window.to result }
        ensures run { (head : Head) (events : List Event) → StandsFor self.now head events →
            IsFirstDrop
            (λ a b. not (structure_survives head events p key a b))
            window.from window.to result }
        ensures probes { (probes.old ≤ probes.new) × (probes.new ≤ probes.old + 102) }
    {
        if self.structure_outlasts(p, key, window.from) {
            return None;
        }
        self.listed_structure_drop(p, key, window, probes)
    }

    /// The least moment of a window at which an entry is dropped, by the lists of its keys.
    fn listed_structure_drop(
        &self,
        p: u16,
        key: StructureKey,
        window: Window,
        probes: &mut Probes,
    ) -> Option<u32>
        requires { IsTableLevel key.level }
        ensures first { IsFirstDrop
            (is_dropped self.now p (Structure key)) window.from window.to result }
        ensures run { (head : Head) (events : List Event) → StandsFor self.now head events →
            IsFirstDrop
            (λ a b. not (structure_survives head events p key a b))
            window.from window.to result }
        ensures probes { (probes.old ≤ probes.new) × (probes.new ≤ probes.old + 102) }
    {
        let keys = structure_keys(p, key);
        let log = self.log.as_slice();
        self.listed
            .first_between(&self.lasts, log, &keys, window, probes)
    }

    /// Whether processor `p` had to drop the translation of a linear address by a page of 2 to the
    /// power of `shift` bytes (12, 21 or 30) under a PCID, by an event from `from` up to, not with,
    /// `to`.
    pub fn translation_dropped(
        &self,
        p: u16,
        pcid: u16,
        shift: u8,
        la: u64,
        global: bool,
        from: u32,
        to: u32,
    ) -> bool
        requires { IsPageShift shift }
        ensures value { result
            ≡ is_dropped self.now p (Translation (translation_key pcid shift global la)) from to }
        ensures run { let key = translation_key pcid shift global la in
            (head : Head) (events : List Event) → StandsFor self.now head events →
            result ≡ not (translation_survives head events p key from to) }
    {
        let key = translation_key(pcid, shift, global, la);
        self.translation_dropped_counted(p, key, Window { from, to }, &mut Probes::new())
    }

    /// What `translation_dropped` says, of the translation that a key names, and counts the moments
    /// that were read in lists.
    pub fn translation_dropped_counted(
        &self,
        p: u16,
        key: TranslationKey,
        window: Window,
        probes: &mut Probes,
    ) -> bool
        requires { IsPageShift key.shift }
        ensures value { result ≡ is_dropped self.now p (Translation key) window.from window.to }
        ensures run { (head : Head) (events : List Event) → StandsFor self.now head events →
            result ≡ not (translation_survives head events p key window.from window.to) }
        ensures probes { (probes.old ≤ probes.new) × (probes.new ≤ probes.old + 102) }
    {
        self.first_drop_of_translation(p, key, window, probes)
            .is_some()
    }

    /// The least moment of a window at which processor `p` had to drop a translation. It counts the
    /// moments that were read.
    pub fn first_drop_of_translation(
        &self,
        p: u16,
        key: TranslationKey,
        window: Window,
        probes: &mut Probes,
    ) -> Option<u32>
        requires { IsPageShift key.shift }
        ensures first { IsFirstDrop
            (is_dropped self.now p (Translation key)) window.from window.to result }
        ensures run { (head : Head) (events : List Event) → StandsFor self.now head events →
            IsFirstDrop
            (λ a b. not (translation_survives head events p key a b))
            window.from window.to result }
        ensures probes { (probes.old ≤ probes.new) × (probes.new ≤ probes.old + 102) }
    {
        if self.translation_outlasts(p, key, window.from) {
            return None;
        }
        self.listed_translation_drop(p, key, window, probes)
    }

    /// The least moment of a window at which a translation is dropped, by the lists of its keys.
    fn listed_translation_drop(
        &self,
        p: u16,
        key: TranslationKey,
        window: Window,
        probes: &mut Probes,
    ) -> Option<u32>
        requires { IsPageShift key.shift }
        ensures first { IsFirstDrop
            (is_dropped self.now p (Translation key)) window.from window.to result }
        ensures run { (head : Head) (events : List Event) → StandsFor self.now head events →
            IsFirstDrop
            (λ a b. not (translation_survives head events p key a b))
            window.from window.to result }
        ensures probes { (probes.old ≤ probes.new) × (probes.new ≤ probes.old + 102) }
    {
        let keys = translation_keys(p, key);
        let log = self.log.as_slice();
        self.listed
            .first_between(&self.lasts, log, keys.as_slice(), window, probes)
    }

    /// The least moment of a window at which all entries of a space had to be dropped. It counts
    /// the moments that were read.
    pub fn first_drop_of_space(
        &self,
        space: Space,
        window: Window,
        probes: &mut Probes,
    ) -> Option<u32>
        ensures first { IsSpaceDrop self.now space window.from window.to result }
        ensures probes { (probes.old ≤ probes.new) × (probes.new ≤ probes.old + 68) }
    {
        let keys = space_keys(space);
        let log = self.log.as_slice();
        self.listed
            .first_among(&self.lasts, log, keys.as_slice(), window, probes)
    }

    /// The least moment of a window at which a key was dropped or something else happened, where it
    /// is known when that happened first.
    fn beside(
        &self,
        key: DropKey,
        window: Window,
        found: Option<u32>,
        probes: &mut Probes,
    ) -> Option<u32>
        ensures least { (test : ℕ → Bool) → IsLeastBetween test window.from window.to found →
            IsLeastBetween (λ j. test j || has_drop self.now.entries key j)
            window.from window.to result }
        ensures probes { (probes.old ≤ probes.new) × (probes.new ≤ probes.old + 34) }
    {
        let left = Window {
            to: found.unwrap_or(window.to),
            ..window
        };
        let log = self.log.as_slice();
        self.listed
            .first_at(&self.lasts, log, key, left, probes)
            .or(found)
    }

    /// The least moment of a window at which processor `p` had to drop a paging-structure-cache
    /// entry. The caller knows when all of its space had to be dropped first (`found`), so only its
    /// own key is looked up.
    fn first_drop_of_structure_beside(
        &self,
        p: u16,
        key: StructureKey,
        window: Window,
        found: Option<u32>,
        probes: &mut Probes,
    ) -> Option<u32>
        requires level { IsTableLevel key.level }
        requires found { IsSpaceDrop self.now (structure_space p key) window.from window.to found }
        ensures first { IsFirstDrop
            (is_dropped self.now p (Structure key)) window.from window.to result }
        ensures probes { (probes.old ≤ probes.new) × (probes.new ≤ probes.old + 34) }
    {
        self.beside(structure_at(p, key), window, found, probes)
    }

    /// Whether processor `p` had to drop a paging-structure-cache entry in a window. The caller
    /// knows when all of its space had to be dropped first (`found`), so only its own key is looked
    /// up. It counts the moments that were read.
    pub fn structure_dropped_beside(
        &self,
        p: u16,
        key: StructureKey,
        window: Window,
        found: Option<u32>,
        probes: &mut Probes,
    ) -> bool
        requires level { IsTableLevel key.level }
        requires found { IsSpaceDrop self.now (structure_space p key) window.from window.to found }
        ensures value { result ≡ is_dropped self.now p (Structure key) window.from window.to }
        ensures run { (head : Head) (events : List Event) → StandsFor self.now head events →
            result ≡ not (structure_survives head events p key window.from window.to) }
        ensures probes { (probes.old ≤ probes.new) × (probes.new ≤ probes.old + 34) }
    {
        self.first_drop_of_structure_beside(p, key, window, found, probes)
            .is_some()
    }

    /// The least moment of a window at which processor `p` had to drop a translation. The caller
    /// knows when all of its space had to be dropped first (`found`), so only its own key is looked
    /// up. It counts the moments that were read.
    pub fn first_drop_of_translation_beside(
        &self,
        p: u16,
        key: TranslationKey,
        window: Window,
        found: Option<u32>,
        probes: &mut Probes,
    ) -> Option<u32>
        requires shift { IsPageShift key.shift }
        requires found { IsSpaceDrop self.now
            (translation_space p key) window.from window.to found }
        ensures first { IsFirstDrop
            (is_dropped self.now p (Translation key)) window.from window.to result }
        ensures run { (head : Head) (events : List Event) → StandsFor self.now head events →
            IsFirstDrop
            (λ a b. not (translation_survives head events p key a b))
            window.from window.to result }
        ensures probes { (probes.old ≤ probes.new) × (probes.new ≤ probes.old + 34) }
    {
        self.beside(own_key(p, key), window, found, probes)
    }
}
