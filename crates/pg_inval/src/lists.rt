ghost use Rattle.std.specs.Prelude.{◌≡◌, ◌+◌, ◌≤◌, ℕ, Bool, OnOk, OnErr, List, [], length, IsOk};
ghost use Rattle.std.specs.HashMap.{IsUnchanged};
ghost use Rattle.pg_timeline.specs.Timelines.{end_of, has_moment, IsLeastFrom};
ghost use Rattle.pg_timeline.specs.Keyed.{stamps_in, IsPushed, AreCut, EndsBefore};
ghost use Rattle.pg_inval.specs.Keys.{is_same_key};
ghost use Rattle.pg_inval.specs.Classes.{class_of};
ghost use Rattle.pg_inval.specs.declared.class.Class.{Class};
ghost use Rattle.pg_inval.specs.declared.log.LogEntry.{LogEntry};
ghost use Rattle.pg_inval.specs.Lists.{AreDistinct, ArePushed, AreSame, has_drop, cut_log};
ghost use Rattle.pg_inval.specs.Lists.{IsRisingFrom, IsListed, IsLeastBetween};

use crate::class::Class;
use crate::dropped::keys_in;
use crate::key::DropKey;
use crate::log::{LogEntry, first_in};
use crate::packed::invalidation_of;
use pg_event::Window;
use pg_timeline::{Probes, Timeline};
use std::alloc::{AllocError, Global};
use std::collections::HashMap;

/// Adds a moment at the end of the list of a key, which may be its first.
fn push_at(
    by_key: &mut HashMap<DropKey, Timeline<()>>,
    alloc: Global,
    key: DropKey,
    moment: u32,
) -> Result<(), AllocError>
    requires { end_of (stamps_in is_same_key by_key.old.entries key) ≤ moment }
    ensures ok { OnOk result
        (IsPushed is_same_key by_key.old.entries by_key.new.entries key
        (record { moment = moment; value = tt })) }
    ensures err { OnErr result (IsUnchanged by_key.old by_key.new) }
{
    match by_key.get_mut(&key) {
        Some(timeline) => timeline.push(moment, ()),
        None => {
            let mut timeline = Timeline::new(alloc);
            timeline.push(moment, ())?;
            by_key.insert(key, timeline)?;
            Ok(())
        }
    }
}

/// Forgets the moments of every key from one on. A key may be left with none.
fn cut_all(by_key: &mut HashMap<DropKey, Timeline<()>>, moment: u32)
    ensures { AreCut is_same_key by_key.old.entries by_key.new.entries moment }
{
    by_key.retain(|_, timeline| {
        timeline.forget_from(moment);
        true
    });
}

/// Adds a moment, which is above all others, at the end of the list of each key. Fails where memory
/// is refused, and then nothing is added.
fn push_moments(
    by_key: &mut HashMap<DropKey, Timeline<()>>,
    alloc: Global,
    keys: &[DropKey],
    moment: u32,
) -> Result<(), AllocError>
    requires distinct { AreDistinct keys.now }
    requires ends { EndsBefore is_same_key by_key.old.entries moment }
    ensures ok { OnOk result
        (ArePushed by_key.old.entries by_key.new.entries keys.now moment) }
    ensures err { OnErr result (AreSame by_key.old.entries by_key.new.entries) }
    ensures none { keys.now ≡ [] → IsOk result }
{
    for key in keys {
        if let Err(refused) = push_at(by_key, alloc, *key, moment) {
            cut_all(by_key, moment);
            return Err(refused);
        }
    }
    Ok(())
}

/// The least moment of a key from one on.
fn first_at(
    by_key: &HashMap<DropKey, Timeline<()>>,
    key: DropKey,
    from: u32,
    probes: &mut Probes,
) -> Option<u32>
    ensures least { IsLeastFrom
        (has_moment (stamps_in is_same_key by_key.now.entries key)) from result }
    ensures probes { (probes.old ≤ probes.new) × (probes.new ≤ probes.old + 34) }
{
    by_key.get(&key)?.first_from(from, probes)
}

/// A moment, where it is below another.
fn below(found: Option<u32>, to: u32) -> Option<u32>
    ensures { (test : ℕ → Bool) (from : ℕ) → IsLeastFrom test from found →
        IsLeastBetween test from to result }
{
    match found {
        Some(moment) => if moment < to { Some(moment) } else { None },
        None => None,
    }
}

/// For each key of a class the moments of its events, as far as the log was gone through.
#[derive(Drop)]
pub(crate) struct Lists {
    /// So many of the log's entries are in the lists.
    known: usize,
    by_key: HashMap<DropKey, Timeline<()>>,
}

impl Lists {
    /// Those of no entry.
    pub(crate) fn new(alloc: Global) -> Lists
        ensures { (c : Class) (log : List LogEntry) →
            IsListed c log result.known result.by_key.entries }
    {
        Lists {
            known: 0,
            by_key: HashMap::new(alloc),
        }
    }

    /// How many of so many entries of the log they lack.
    pub(crate) fn unlisted(&self, count: usize) -> u64 {
        count.saturating_sub(self.known) as u64
    }

    /// Goes through the rest of the log. Where memory is refused, the lists stay behind it.
    #[inline(always)]
    pub(crate) fn catch_up(&mut self, class: Class, alloc: Global, log: &[LogEntry])
        requires listed { IsListed class log.now self.old.known self.old.by_key.entries }
        requires rising { IsRisingFrom 0 log.now }
        ensures { IsListed class log.now self.new.known self.new.by_key.entries }
    {
        while self.known < log.len() {
            let entry = log[self.known];
            let keys = keys_in(class, entry.p, invalidation_of(entry.packed));
            match push_moments(&mut self.by_key, alloc, keys.as_slice(), entry.moment) {
                Ok(()) => self.known += 1,
                Err(_) => return,
            }
        }
    }

    /// Forgets the moments from one on, of which so many entries of the log are left.
    pub(crate) fn forget_from(&mut self, moment: u32, left: usize)
        ensures { (c : Class) (log : List LogEntry) → IsRisingFrom 0 log →
            left ≡ length (cut_log moment log) →
            IsListed c log self.old.known self.old.by_key.entries →
            IsListed c (cut_log moment log) self.new.known self.new.by_key.entries }
    {
        cut_all(&mut self.by_key, moment);
        self.known = self.known.min(left);
    }

    /// The least moment of a key in a window. Where the lists have none, it is looked for in what
    /// they lack of the log: that is later than all that they have.
    pub(crate) fn first_between(
        &self,
        log: &[LogEntry],
        key: DropKey,
        window: Window,
        probes: &mut Probes,
    ) -> Option<u32>
        requires listed { IsListed (class_of key) log.now self.now.known self.now.by_key.entries }
        requires rising { IsRisingFrom 0 log.now }
        ensures least { IsLeastBetween (has_drop log.now key) window.from window.to result }
        ensures probes { (probes.old ≤ probes.new) × (probes.new ≤ probes.old + 34) }
    {
        match below(first_at(&self.by_key, key, window.from, probes), window.to) {
            Some(moment) => Some(moment),
            None => first_in(&log[self.known..], key, window, probes),
        }
    }
}
