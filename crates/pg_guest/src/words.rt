//! The words of a line, from left to right.

ghost use Rattle.std.specs.Prelude.{◌≡◌, ◌<◌, ◌∷◌, [], length, IfSome, MatchOption};
ghost use Rattle.std.specs.Option.{option_copied};
ghost use Rattle.std.specs.Str.{bytes_eq};
ghost use Rattle.pg_guest.specs.Lines.{pieces, words_of};
ghost use Rattle.pg_guest.specs.Words.{word_at, dec_at, hex_at, bit_at, keyword_at, ended};
ghost use Rattle.pg_guest.specs.Answers.{Agrees, pieces_behind};

use crate::number::{dec_of, hex_of};
use crate::script_refusal::ScriptRefusal;
use std::marker::Model;

/// The words of a line that are not read yet.
#[derive(Drop)]
pub(crate) struct Words<'a> {
    rest: Option<&'a [u8]>,
}

impl<'a> Model for Words<'a> {
    ghost use Rattle.std.specs.Prelude.{List, ℕ};
    ghost use Rattle.std.specs.Option.{option_copied};
    ghost use Rattle.pg_guest.specs.Answers.{words_left};

    ghost Value = { List (List ℕ) };

    ghost view = { λ w. words_left (option_copied w.rest) };
}

impl<'a> Words<'a> {
    pub(crate) fn new(line: &'a [u8]) -> Words<'a>
        ensures { result ≡ words_of line.now }
    {
        Words { rest: Some(line) }
    }

    /// The next word, and those after it.
    pub(crate) fn split_first(&self) -> Option<(&'a [u8], Words<'a>)>
        ensures { MatchOption result (self.now ≡ []) (λ x. self.now ≡ x.0.now ∷ x.1) }
    {
        let (word, rest) = cut(self.rest?, b' ');
        Some((word, Words { rest }))
    }
}

/// The piece before the first separator, and what follows it, if there is one.
pub(crate) fn cut(bytes: &[u8], separator: u8) -> (&[u8], Option<&[u8]>)
    ensures pieces { pieces separator bytes.now
        ≡ result.0.now ∷ pieces_behind separator (option_copied result.1) }
    ensures less { IfSome result.1 (λ rest. length rest.now < length bytes.now) }
{
    match bytes.iter().position(|byte| *byte == separator) {
        Some(at) => (&bytes[..at], Some(&bytes[at + 1..])),
        None => (bytes, None),
    }
}

pub(crate) fn same_bytes(xs: &[u8], ys: &[u8]) -> bool
    ensures { result ≡ bytes_eq xs.now ys.now }
{
    xs == ys
}

pub(crate) fn word_of<'a>(words: &Words<'a>) -> Result<(&'a [u8], Words<'a>), ScriptRefusal>
    ensures { Agrees (λ x. (x.0.now, x.1)) result (word_at words.now) }
{
    words.split_first().ok_or(ScriptRefusal::Instruction)
}

#[tactic(auto, unfolding(crate::specs::Words::dec_at))]
pub(crate) fn dec_word<'a>(words: &Words<'a>) -> Result<(u64, Words<'a>), ScriptRefusal>
    ensures { Agrees (λ x. (x.0, x.1)) result (dec_at words.now) }
{
    let (word, rest) = word_of(words)?;
    let number = dec_of(word).ok_or(ScriptRefusal::Number)?;
    Ok((number, rest))
}

#[tactic(auto, unfolding(crate::specs::Words::hex_at))]
pub(crate) fn hex_word<'a>(words: &Words<'a>) -> Result<(u64, Words<'a>), ScriptRefusal>
    ensures { Agrees (λ x. (x.0, x.1)) result (hex_at words.now) }
{
    let (word, rest) = word_of(words)?;
    let number = hex_of(word).ok_or(ScriptRefusal::Number)?;
    Ok((number, rest))
}

#[tactic(auto, unfolding(crate::specs::Words::bit_at))]
pub(crate) fn bit_word<'a>(words: &Words<'a>) -> Result<(bool, Words<'a>), ScriptRefusal>
    ensures { Agrees (λ x. (x.0, x.1)) result (bit_at words.now) }
{
    let (word, rest) = word_of(words)?;
    match word {
        b"0" => Ok((false, rest)),
        b"1" => Ok((true, rest)),
        _ => Err(ScriptRefusal::Instruction),
    }
}

/// What follows this very word.
#[tactic(auto, unfolding(crate::specs::Words::keyword_at))]
pub(crate) fn after_keyword<'a>(
    keyword: &[u8],
    words: &Words<'a>,
) -> Result<Words<'a>, ScriptRefusal>
    ensures { Agrees (λ x. x) result (keyword_at keyword.now words.now) }
{
    let (word, rest) = word_of(words)?;
    if !same_bytes(word, keyword) {
        return Err(ScriptRefusal::Instruction);
    }
    Ok(rest)
}

/// A value that stands where the words end.
pub(crate) fn ended<T: Copy>(value: T, words: &Words) -> Result<T, ScriptRefusal>
    ensures { Agrees (λ x. x) result (ended (value, words.now)) }
{
    match words.split_first() {
        None => Ok(value),
        Some(_) => Err(ScriptRefusal::Instruction),
    }
}
