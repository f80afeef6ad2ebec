//! A sink that gets the first line alone that says why there is no answer.

ghost use Rattle.std.specs.Prelude.{None};

use crate::lines::line_length;
use pg_codec::{Failed, Sink};
use std::cell::Cell;

/// How the lines begin that say why there is no answer.
const HEAD: &[u8] = b"pcid-audit: ";

/// Which part of a text comes next.
#[derive(Clone, Copy, PartialEq, Eq)]
enum Part {
    /// A line whose first bytes, so many, are those of `HEAD`.
    Head(usize),
    /// A line that begins otherwise.
    Other,
    /// A line that begins with `HEAD`.
    Told,
    /// What follows such a line.
    Rest,
}

/// What comes next in a line that begins with so many bytes of `HEAD`, behind this byte.
fn behind_head(length: usize, byte: u8) -> Part {
    if HEAD.get(length) != Some(&byte) {
        Part::Other
    } else if length + 1 < HEAD.len() {
        Part::Head(length + 1)
    } else {
        Part::Told
    }
}

/// Which part comes next behind this byte.
fn behind(part: Part, byte: u8) -> Part {
    match part {
        Part::Rest => Part::Rest,
        Part::Told if byte == b'\n' => Part::Rest,
        Part::Told => Part::Told,
        Part::Head(_) | Part::Other if byte == b'\n' => Part::Head(0),
        Part::Head(length) => behind_head(length, byte),
        Part::Other => Part::Other,
    }
}

/// Which part comes next behind these bytes.
fn part_behind(part: Part, bytes: &[u8]) -> Part {
    let mut next = part;
    for byte in bytes {
        next = behind(next, *byte);
    }
    next
}

/// Standard error for a program that reads it: while the cell is set, nothing passes behind the
/// first line that begins with `pcid-audit: `. So a refusal is its fixed line alone. All that is
/// put counts as taken.
#[derive(Drop)]
pub struct Brief<'a, E> {
    errors: E,
    is_brief: &'a Cell<bool>,
    part: Part,
}

impl<'a, E: Sink> Brief<'a, E> {
    /// Nothing was put into it.
    pub fn new(errors: E, is_brief: &'a Cell<bool>) -> Brief<'a, E> {
        Brief {
            errors,
            is_brief,
            part: Part::Head(0),
        }
    }
}

impl<'a, E: Sink> Sink for Brief<'a, E> {
    ghost held = { λ _. None };

    ghost failed = { λ b. E.failed b.errors };

    fn put(&mut self, bytes: &[u8]) -> Result<usize, Failed> {
        if !self.is_brief.get() {
            return self.errors.put(bytes);
        }
        if self.part == Part::Rest && self.errors.failures() < u64::MAX {
            return Ok(bytes.len());
        }
        match self.errors.put(&bytes[..line_length(bytes)]) {
            Ok(taken) => {
                self.part = part_behind(self.part, &bytes[..taken]);
                Ok(taken)
            }
            Err(failed) => Err(failed),
        }
    }

    fn failures(&self) -> u64 {
        self.errors.failures()
    }
}
