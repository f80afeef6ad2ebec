//! The words of a line.

ghost use Rattle.std.specs.Prelude.{◌≡◌, ◌<◌, map, slice_index_or, slice_set, OnOk, OnErr};
ghost use Rattle.pg_moment.specs.Stamps.{cut_word, IsWord, unwritten};
ghost use Rattle.pg_moment.specs.Words.{IsWritten, no_words, place_of};

use crate::superseded::Superseded;
use crate::word::{UNWRITTEN, Word};
use std::alloc::{AllocError, Global};
use std::marker::Model;

/// So many words a line has: it has 64 bytes.
const WORDS: usize = 8;

/// The words of a line, by place.
#[derive(Drop)]
pub(crate) struct Line {
    words: [Word; WORDS],
}

impl Model for Line {
    ghost use Rattle.std.specs.Prelude.{◌≡◌, List, length};
    ghost use Rattle.pg_moment.specs.declared.word.Word.{Word};

    ghost Value = { List Word };

    ghost view = { λ l. l.words };

    ghost invariant = { λ l. length l.words ≡ 8 };
}

/// The place of a word in its line.
#[inline(always)]
pub(crate) fn place_of(addr: u64) -> usize
    ensures place { result ≡ place_of addr }
    ensures within { result < 8 }
{
    (addr / 8 % 8) as usize
}

impl Line {
    /// A line with one word that was written, at a place.
    pub(crate) fn with_word(place: usize, word: Word) -> Line
        requires { place < 8 }
        ensures { result ≡ slice_set no_words place word }
    {
        let mut words = [UNWRITTEN; WORDS];
        words[place] = word;
        Line { words }
    }

    /// The word at a place.
    #[inline(always)]
    pub(crate) fn word(&self, place: usize) -> Word
        requires { place < 8 }
        ensures { result ≡ slice_index_or self.now place unwritten }
    {
        self.words[place]
    }

    /// Gives the word at an address another value from a moment on. Fails where memory is refused,
    /// and then all is as it was.
    #[inline(always)]
    pub(crate) fn push(
        &mut self,
        others: &mut Superseded,
        alloc: Global,
        addr: u64,
        moment: u32,
        value: u64,
    ) -> Result<(), AllocError>
        requires { IsWord others.old.log.items others.old.lists.entries addr
            (slice_index_or self.old (place_of addr) unwritten) }
        ensures ok { OnOk result (IsWritten others.old.log.items others.old.lists.entries
            others.new.log.items others.new.lists.entries addr
            (record { moment = moment; value = value }) self.old self.new) }
        ensures err { OnErr result ((self.new ≡ self.old)
            × (others.new.log.items ≡ others.old.log.items)
            × (others.new.lists.entries ≡ others.old.lists.entries)) }
    {
        let place = place_of(addr);
        let kept = others.keep(alloc, addr, self.words[place])?;
        self.words[place] = Word {
            value,
            moment,
            others: kept,
        };
        Ok(())
    }

    /// Forgets the values of every word from a moment on.
    pub(crate) fn forget_from(&mut self, others: &Superseded, moment: u32)
        ensures { self.new ≡ map (cut_word others.now.log.items moment) self.old }
    {
        for word in self.words.iter_mut() {
            *word = others.cut(*word, moment);
        }
    }
}
