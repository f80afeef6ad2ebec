//! The values of words that others took the place of.

ghost use Rattle.std.specs.Prelude.{◌≡◌, ℕ, ◌+◌, ◌-◌, ◌^◌, ◌≤◌, [], IfOk, OnErr};
ghost use Rattle.std.specs.Option.{unwrap_or};
ghost use Rattle.pg_timeline.specs.Timelines.{last_before, IsSpan};
ghost use Rattle.pg_moment.specs.declared.word.Others.TheVariants.{Logged};
ghost use Rattle.pg_moment.specs.Stamps.{AreOthers, cut_word, IsWord, Keeps};
ghost use Rattle.pg_moment.specs.Stamps.{others_of, stamps_of};

use crate::lists::push_listed;
use crate::log::{Older, cut_logged, last_logged, list_logged, span_logged};
use crate::word::{Others, Word};
use pg_timeline::{Probes, Span, Timeline};
use std::alloc::{AllocError, Global};
use std::collections::HashMap;

/// A look-up reads at most this many values of a word from the log, one by one.
const MOST_LOGGED: u32 = 32;

/// The values of all words that others took the place of. They go to the end of one log, each with
/// the place of the value before it of the same word. So a word needs no allocation of its own. A
/// word with many values has a list of them, found by its address; its values in the log stay
/// there, unused.
#[derive(Drop)]
pub(crate) struct Superseded {
    pub log: Vec<Older>,
    pub lists: HashMap<u64, Timeline<u64>>,
}

impl Superseded {
    /// No value.
    pub(crate) fn new(alloc: Global) -> Superseded
        ensures log { result.log.items ≡ [] }
        ensures lists { result.lists.entries ≡ [] }
    {
        Superseded {
            log: Vec::new(alloc),
            lists: HashMap::new(alloc),
        }
    }

    /// Keeps the last value of a word, before another takes its place, and tells where all values
    /// of the word are then. Fails where memory is refused, and then nothing is kept.
    #[inline(always)]
    pub(crate) fn keep(
        &mut self,
        alloc: Global,
        addr: u64,
        word: Word,
    ) -> Result<Others, AllocError>
        requires { IsWord self.old.log.items self.old.lists.entries addr word }
        ensures ok { IfOk result (Keeps self.old.log.items self.old.lists.entries
            self.new.log.items self.new.lists.entries addr word) }
        ensures err { OnErr result ((self.new.log.items ≡ self.old.log.items)
            × (self.new.lists.entries ≡ self.old.lists.entries)) }
    {
        match word.others {
            Others::Unwritten => Ok(Others::Logged { place: 0, count: 0 }),
            Others::Logged { place, count } => self.keep_logged(alloc, addr, word, place, count),
            Others::Listed => {
                push_listed(&mut self.lists, alloc, addr, word.moment, word.value)?;
                Ok(Others::Listed)
            }
            Others::LastForgotten => Ok(Others::Listed),
        }
    }

    /// Keeps the last value, as `keep` does, of a word with `count` values in the log, the last of
    /// them at `place`.
    #[inline(always)]
    fn keep_logged(
        &mut self,
        alloc: Global,
        addr: u64,
        word: Word,
        place: u32,
        count: u32,
    ) -> Result<Others, AllocError>
        requires word { IsWord self.old.log.items self.old.lists.entries addr word }
        requires others { word.others ≡ Logged place count }
        ensures ok { IfOk result (Keeps self.old.log.items self.old.lists.entries
            self.new.log.items self.new.lists.entries addr word) }
        ensures err { OnErr result ((self.new.log.items ≡ self.old.log.items)
            × (self.new.lists.entries ≡ self.old.lists.entries)) }
    {
        let next = self.log.len();
        if count < MOST_LOGGED && next < u32::MAX as usize {
            self.log.push(Older {
                value: word.value,
                moment: word.moment,
                before: place,
            })?;
            Ok(Others::Logged {
                place: next as u32,
                count: count + 1,
            })
        } else {
            self.begin_list(alloc, addr, word, place, count)
        }
    }

    /// Keeps the last value, as `keep_logged` does, and the word has a list from now on.
    #[inline(never)]
    fn begin_list(
        &mut self,
        alloc: Global,
        addr: u64,
        word: Word,
        place: u32,
        count: u32,
    ) -> Result<Others, AllocError>
        requires word { IsWord self.old.log.items self.old.lists.entries addr word }
        requires others { word.others ≡ Logged place count }
        ensures ok { IfOk result (Keeps self.old.log.items self.old.lists.entries
            self.new.log.items self.new.lists.entries addr word) }
        ensures err { OnErr result ((self.new.log.items ≡ self.old.log.items)
            × (self.new.lists.entries ≡ self.old.lists.entries)) }
    {
        let mut list = list_logged(alloc, &self.log, place, count)?;
        list.push(word.moment, word.value)?;
        self.lists.insert(addr, list)?;
        Ok(Others::Listed)
    }

    /// The value of the last stamp of a word below a moment.
    #[inline(always)]
    pub(crate) fn value_before(
        &self,
        addr: u64,
        word: Word,
        moment: u32,
        probes: &mut Probes,
    ) -> Option<u64>
        requires { IsWord self.now.log.items self.now.lists.entries addr word }
        ensures value { result ≡ last_before moment
            (stamps_of self.now.log.items self.now.lists.entries addr word) }
        ensures probes { (probes.old ≤ probes.new) × (probes.new ≤ probes.old + 34) }
    {
        if word.others.have_last() && word.moment < moment {
            probes.tick();
            Some(word.value)
        } else {
            self.other_before(addr, word.others, moment, probes)
        }
    }

    /// What `value_before` gives, of the other values of a word.
    fn other_before(
        &self,
        addr: u64,
        others: Others,
        moment: u32,
        probes: &mut Probes,
    ) -> Option<u64>
        requires { (last : ℕ)
            × AreOthers self.now.log.items self.now.lists.entries addr last others }
        ensures value { result ≡ last_before moment
            (others_of self.now.log.items self.now.lists.entries addr others) }
        ensures probes { (probes.old ≤ probes.new) × (probes.new ≤ probes.old + 34) }
    {
        match others {
            Others::Unwritten => None,
            Others::Logged { place, count } => {
                last_logged(&self.log, place, count, moment, probes)
            }
            Others::Listed | Others::LastForgotten => match self.lists.get(&addr) {
                Some(list) => list.last_before(moment, probes),
                // No word says that it has a list before the list is there.
                None => None,
            },
        }
    }

    /// The value of the last stamp of a word below a moment, or another where there is none, and
    /// the moments around this one at which it is the same.
    pub(crate) fn span_at(
        &self,
        addr: u64,
        word: Word,
        moment: u32,
        start: u64,
        probes: &mut Probes,
    ) -> Span<u64>
        requires { IsWord self.now.log.items self.now.lists.entries addr word }
        ensures span { IsSpan (λ w. unwrap_or (last_before w
            (stamps_of self.now.log.items self.now.lists.entries addr word)) start) moment result }
        ensures probes { (probes.old ≤ probes.new) × (probes.new ≤ probes.old + 35) }
    {
        if !word.others.have_last() {
            return self.other_span(addr, word.others, moment, start, probes);
        }
        if word.moment < moment {
            probes.tick();
            return Span {
                value: word.value,
                from: word.moment + 1,
                to: u32::MAX,
            };
        }
        let span = self.other_span(addr, word.others, moment, start, probes);
        Span {
            value: span.value,
            from: span.from,
            to: span.to.min(word.moment),
        }
    }

    /// What `span_at` gives, of the other values of a word.
    fn other_span(
        &self,
        addr: u64,
        others: Others,
        moment: u32,
        start: u64,
        probes: &mut Probes,
    ) -> Span<u64>
        requires { (last : ℕ)
            × AreOthers self.now.log.items self.now.lists.entries addr last others }
        ensures span { IsSpan (λ w. unwrap_or (last_before w
            (others_of self.now.log.items self.now.lists.entries addr others)) start)
            moment result }
        ensures probes { (probes.old ≤ probes.new) × (probes.new ≤ probes.old + 35) }
    {
        match others {
            Others::Unwritten => same_at_all(start),
            Others::Logged { place, count } => {
                span_logged(&self.log, place, count, moment, start, probes)
            }
            Others::Listed | Others::LastForgotten => match self.lists.get(&addr) {
                Some(list) => list.span_at(moment, start, probes),
                None => same_at_all(start),
            },
        }
    }

    /// A word without its values from a moment on.
    pub(crate) fn cut(&self, word: Word, moment: u32) -> Word
        ensures { result ≡ cut_word self.now.log.items moment word }
    {
        match word.others {
            Others::Unwritten | Others::LastForgotten => word,
            Others::Logged { place, count } => cut_logged(&self.log, moment, word, place, count),
            Others::Listed => {
                if word.moment < moment {
                    word
                } else {
                    Word {
                        others: Others::LastForgotten,
                        ..word
                    }
                }
            }
        }
    }
}

/// A value that is the same at all moments.
pub(crate) fn same_at_all(value: u64) -> Span<u64>
    ensures { result ≡ record { value = value; from = 0; to = 2 ^ 32 - 1 } }
{
    Span {
        value,
        from: 0,
        to: u32::MAX,
    }
}
