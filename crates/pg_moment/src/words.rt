//! The values of words, by address.

ghost use Rattle.std.specs.Prelude.{◌≡◌, ◌+◌, ◌≤◌, ◌<◌, nat_eq, List, [], None, OnOk, OnErr};
ghost use Rattle.std.specs.Map.{lookup};
ghost use Rattle.std.specs.Option.{unwrap_or};
ghost use Rattle.pg_timeline.specs.Timelines.{last_before, IsSpan};
ghost use Rattle.pg_timeline.specs.Keyed.{stamps_in, IsPushed, AreCut, AreBelow};
ghost use Rattle.pg_moment.specs.declared.log.Older.{Older};
ghost use Rattle.pg_moment.specs.Stamps.{IsWord, Lists};
ghost use Rattle.pg_moment.specs.Words.{AreWhole, cut_each, IsAdded, line_of, word_at};

use crate::line::{Line, place_of};
use crate::lists::cut_lists;
use crate::superseded::{Superseded, same_at_all};
use crate::word::{Others, Word};
use pg_timeline::{Probes, Span};
use std::alloc::{AllocError, Global};
use std::collections::HashMap;
use std::marker::Model;

/// The values of words, by the line that a word stands in: the words of a line are mostly written
/// and read together, and a map of lines has an eighth of the keys.
#[derive(Drop)]
pub(crate) struct Words {
    lines: HashMap<u64, Line>,
    others: Superseded,
}

impl Model for Words {
    ghost use Rattle.std.specs.Prelude.{ℕ, List};
    ghost use Rattle.pg_timeline.specs.declared.timeline.Stamp.{Stamp};
    ghost use Rattle.pg_moment.specs.Words.{words_of, AreWhole};

    ghost Value = { List (ℕ × List (Stamp ℕ)) };

    ghost view = { λ w. words_of w.others.log.items w.others.lists.entries w.lines.entries };

    ghost invariant = { λ w.
        AreWhole w.others.log.items w.others.lists.entries w.lines.entries };
}

/// The number of the line that a word stands in. Addresses that differ modulo 8 have different
/// lines, so that every address has a word of its own.
#[inline(always)]
fn line_of(addr: u64) -> u64
    ensures { result ≡ line_of addr }
{
    addr / 64 * 8 + addr % 8
}

/// Adds a line, whose one value is that of the word at an address. It stands by itself, since a
/// function with a line of its own clears the room for one at each call.
#[inline(never)]
fn begin_at(
    lines: &mut HashMap<u64, Line>,
    addr: u64,
    moment: u32,
    value: u64,
) -> Result<(), AllocError>
    requires absent { lookup (nat_eq (line_of addr)) lines.old.entries ≡ None }
    ensures ok { (log : List Older) (lists : Lists) →
        OnOk result (IsAdded log lists log lists addr
        (record { moment = moment; value = value }) lines.old.entries lines.new.entries) }
    ensures err { OnErr result (lines.new.entries ≡ lines.old.entries) }
{
    let word = Word {
        value,
        moment,
        others: Others::Logged { place: 0, count: 0 },
    };
    lines.insert(line_of(addr), Line::with_word(place_of(addr), word))?;
    Ok(())
}

/// Gives the word at an address another value, which may be its first.
fn push_at(
    lines: &mut HashMap<u64, Line>,
    others: &mut Superseded,
    alloc: Global,
    addr: u64,
    moment: u32,
    value: u64,
) -> Result<(), AllocError>
    requires word { IsWord others.old.log.items others.old.lists.entries addr
        (word_at lines.old.entries addr) }
    ensures ok { OnOk result (IsAdded others.old.log.items others.old.lists.entries
        others.new.log.items others.new.lists.entries addr
        (record { moment = moment; value = value }) lines.old.entries lines.new.entries) }
    ensures err { OnErr result ((lines.new.entries ≡ lines.old.entries)
        × (others.new.log.items ≡ others.old.log.items)
        × (others.new.lists.entries ≡ others.old.lists.entries)) }
{
    match lines.get_mut(&line_of(addr)) {
        Some(line) => line.push(others, alloc, addr, moment, value),
        None => begin_at(lines, addr, moment, value),
    }
}

/// Forgets the values of every word from a moment on.
fn cut_all(lines: &mut HashMap<u64, Line>, others: &Superseded, moment: u32)
    ensures { lines.new.entries ≡ cut_each others.now.log.items moment lines.old.entries }
{
    lines.retain(|_, line| {
        line.forget_from(others, moment);
        true
    });
}

impl Words {
    /// No word has a value.
    pub(crate) fn new(alloc: Global) -> Words
        ensures { result ≡ [] }
    {
        Words {
            lines: HashMap::new(alloc),
            others: Superseded::new(alloc),
        }
    }

    /// The value of the last stamp of an address below a moment.
    #[inline(always)]
    pub(crate) fn last_before(&self, addr: u64, moment: u32, probes: &mut Probes) -> Option<u64>
        ensures value { result ≡ last_before moment (stamps_in nat_eq self.now addr) }
        ensures probes { (probes.old ≤ probes.new) × (probes.new ≤ probes.old + 34) }
    {
        match self.lines.get(&line_of(addr)) {
            Some(line) => {
                let word = line.word(place_of(addr));
                self.others.value_before(addr, word, moment, probes)
            }
            None => None,
        }
    }

    /// What `last_before` gives, or another value where there is none, and the moments around this
    /// one at which it is the same.
    pub(crate) fn span_at(
        &self,
        addr: u64,
        moment: u32,
        start: u64,
        probes: &mut Probes,
    ) -> Span<u64>
        ensures span { let stamps = stamps_in nat_eq self.now addr in
            IsSpan (λ w. unwrap_or (last_before w stamps) start) moment result }
        ensures probes { (probes.old ≤ probes.new) × (probes.new ≤ probes.old + 35) }
    {
        match self.lines.get(&line_of(addr)) {
            Some(line) => {
                let word = line.word(place_of(addr));
                self.others.span_at(addr, word, moment, start, probes)
            }
            None => same_at_all(start),
        }
    }

    /// Adds a value after those of an address, which may be its first. Fails where
    /// memory is refused, and then nothing is added.
    pub(crate) fn push(
        &mut self,
        alloc: Global,
        addr: u64,
        moment: u32,
        value: u64,
    ) -> Result<(), AllocError>
        requires { AreBelow moment (stamps_in nat_eq self.old addr) }
        ensures ok { OnOk result (IsPushed nat_eq self.old self.new addr
            (record { moment = moment; value = value })) }
        ensures err { OnErr result (self.new ≡ self.old) }
    {
        push_at(
            &mut self.lines,
            &mut self.others,
            alloc,
            addr,
            moment,
            value,
        )
    }

    /// Forgets the values of every address from a moment on.
    pub(crate) fn forget_from(&mut self, moment: u32)
        ensures { AreCut nat_eq self.old self.new moment }
    {
        cut_all(&mut self.lines, &self.others, moment);
        cut_lists(&mut self.others.lists, moment);
    }
}
