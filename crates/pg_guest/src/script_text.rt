//! The lines of a text.

ghost use Rattle.std.specs.Prelude.{◌≡◌, ◌<◌, ◌-◌, ◌^◌, length, IfOk};
ghost use Rattle.pg_guest.specs.Lines.{is_plain, is_skipped};
ghost use Rattle.pg_guest.specs.Reading.{front_at};
ghost use Rattle.pg_guest.specs.Answers.{Agrees, lines_in, told_in, front_in};
ghost use Rattle.pg_guest.specs.Answers.{ShortensTo};

use crate::script_refusal::{ScriptError, ScriptRefusal};
use crate::words::{Words, cut};
use std::marker::Model;

/// The lines of a text from one on.
#[derive(Drop)]
pub(crate) struct Text<'a> {
    bytes: &'a [u8],
    /// The number of the first of them.
    number: u32,
}

impl<'a> Model for Text<'a> {
    ghost use Rattle.std.specs.Prelude.{ℕ, List, ◌+◌, ◌^◌, ◌<◌, length};

    ghost Value = { ℕ × List ℕ };

    ghost view = { λ t. (t.number, t.bytes.now) };

    ghost invariant = { λ t. t.number + length t.bytes.now < 2 ^ 32 };
}

/// What a line says, under its number, and the lines after it.
#[derive(Drop)]
pub(crate) struct Told<'a, T> {
    pub(crate) number: u32,
    pub(crate) value: T,
    pub(crate) rest: Text<'a>,
}

/// What comes next in a text.
#[derive(Drop)]
pub(crate) enum Front<'a> {
    /// No line more: the next would have this number.
    Ended(u32),
    /// The bytes of a line.
    Line(Told<'a, &'a [u8]>),
}

impl<'a> Text<'a> {
    /// All lines of a text.
    pub(crate) fn new(bytes: &'a [u8]) -> Text<'a>
        requires { length bytes.now < 2 ^ 32 - 1 }
        ensures { result ≡ (1, bytes.now) }
    {
        Text { bytes, number: 1 }
    }

    /// The next line.
    pub(crate) fn front(&self) -> Result<Front<'a>, ScriptError>
        ensures front { Agrees (front_in lines_in) result (front_at (lines_in self.now)) }
        ensures less { IfOk result (ShortensTo (length self.now.1)) }
    {
        let number = self.number;
        match cut(self.bytes, b'\n') {
            (line, Some(bytes)) if is_plain(line) => Ok(Front::Line(Told {
                number,
                value: line,
                rest: Text {
                    bytes,
                    number: number + 1,
                },
            })),
            ([], None) => Ok(Front::Ended(number)),
            _ => Err(ScriptError {
                line: number,
                refusal: ScriptRefusal::LineEnd,
            }),
        }
    }

    /// The next line that says something.
    pub(crate) fn told_front(&self) -> Result<Front<'a>, ScriptError>
        ensures front { Agrees (front_in told_in) result (front_at (told_in self.now)) }
        ensures less { IfOk result (ShortensTo (length self.now.1)) }
    {
        let mut text = Text {
            bytes: self.bytes,
            number: self.number,
        };
        'lines: loop {
            match text.front()? {
                Front::Line(line) if is_skipped(line.value) => text = line.rest,
                front => return Ok(front),
            }
        }
    }
}

/// Whether each byte is from 0x20 to 0x7E.
fn is_plain(line: &[u8]) -> bool
    ensures { result ≡ is_plain line.now }
{
    line.iter().all(|byte| 0x20 <= *byte && *byte <= 0x7e)
}

/// Whether a line is empty or a comment.
fn is_skipped(line: &[u8]) -> bool
    ensures { result ≡ is_skipped line.now }
{
    matches!(line, [] | [b'#', ..])
}
