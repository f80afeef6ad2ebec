//! Rows: records that are written as text, and what the program must answer.

use crate::case::{Case, answers};
use std::alloc::{AllocGlobal, Global};
use std::sync::Wait;
use std::test::Fail;
use std::thread::Threads;

/// What the program is given, and what it must answer. Rows are written as text, each line of which
/// begins with a mark:
///
/// - `== name`: what the row shows. The lines that follow are the row's.
/// - `$ words`: the words after the program's name.
/// - `< digits`: standard input in hexadecimal, one word or more.
/// - `> text`: a line of standard output; `>+ text` is the first part of one that goes on.
/// - `! text`: a line of standard error.
/// - `? number`: the exit status.
/// - `@part digits`: input that rows name in the place of digits. Several lines make one part.
/// - `# text`: a remark.
///
/// One text is proved within seconds, where a table of structs takes ten times as long.
#[derive(Drop)]
pub struct Row<'a> {
    pub name: &'a str,
    pub words: Vec<&'a str>,
    pub input: Vec<u8>,
    pub output: String,
    pub line: String,
    pub status: u8,
}

/// A word for input, and the digits that it stands for or adds.
type Part<'a> = (&'a str, &'a str);

/// Adds the bytes that a word spells in hexadecimal.
fn push_digits(bytes: &mut Vec<u8>, alloc: Global, digits: &str) -> Result<(), Fail> {
    let decoded = hex::decode(alloc, digits)?;
    bytes.extend_from_slice(&decoded)?;
    Ok(())
}

/// The bytes that the pieces spell in hexadecimal.
pub fn bytes_of(alloc: Global, pieces: &[&str]) -> Result<Vec<u8>, Fail> {
    let mut bytes = Vec::new(alloc);
    for piece in pieces {
        push_digits(&mut bytes, alloc, *piece)?;
    }
    Ok(bytes)
}

/// Adds the bytes of a word that names a part, or else spells them.
fn push_word<'a>(
    bytes: &mut Vec<u8>,
    alloc: Global,
    parts: &[Part<'a>],
    word: &str,
) -> Result<(), Fail> {
    let mut is_part = false;
    for (name, digits) in parts {
        if *name == word {
            push_digits(bytes, alloc, *digits)?;
            is_part = true;
        }
    }
    // What is no part and no digits is refused here.
    if !is_part {
        push_digits(bytes, alloc, word)?;
    }
    Ok(())
}

/// Adds the bytes of the words of a line.
fn push_input<'a>(
    bytes: &mut Vec<u8>,
    alloc: Global,
    parts: &[Part<'a>],
    text: &str,
) -> Result<(), Fail> {
    for word in text.split(' ') {
        push_word(bytes, alloc, parts, word)?;
    }
    Ok(())
}

/// Adds the words of a line.
fn push_words<'a>(words: &mut Vec<&'a str>, text: &'a str) -> Result<(), Fail> {
    for word in text.split(' ') {
        words.push(word)?;
    }
    Ok(())
}

/// Adds a text, and how it ends.
fn push_text(texts: &mut String, text: &str, end: &str) -> Result<(), Fail> {
    texts.push_str(text)?;
    texts.push_str(end)?;
    Ok(())
}

impl<'a> Row<'a> {
    /// A row of which no more is known. The program ends with no such status.
    fn named(alloc: Global, name: &'a str) -> Row<'a> {
        Row {
            name,
            words: Vec::new(alloc),
            input: Vec::new(alloc),
            output: String::new(alloc),
            line: String::new(alloc),
            status: u8::MAX,
        }
    }

    /// Takes a line of its text.
    fn take(
        &mut self,
        alloc: Global,
        parts: &[Part<'a>],
        mark: &str,
        text: &'a str,
    ) -> Result<(), Fail> {
        match mark {
            "" | "#" => Ok(()),
            "$" => push_words(&mut self.words, text),
            "<" => push_input(&mut self.input, alloc, parts, text),
            ">" => push_text(&mut self.output, text, "\n"),
            ">+" => push_text(&mut self.output, text, ""),
            "!" => push_text(&mut self.line, text, "\n"),
            "?" => self.end(text),
            _ => Err(Fail::new(mark)),
        }
    }

    /// Takes its exit status.
    fn end(&mut self, digits: &str) -> Result<(), Fail> {
        self.status = u8::from_str_radix(digits, 10)?;
        Ok(())
    }

    /// The row, as the program is run on it.
    pub fn case(&self) -> Case<'_> {
        Case {
            name: self.name,
            words: &self.words,
            input: &self.input,
            output: self.output.as_bytes(),
            line: self.line.as_str(),
            status: self.status,
        }
    }
}

/// What some texts have so far.
#[derive(Drop)]
struct Table<'a> {
    parts: Vec<Part<'a>>,
    rows: Vec<Row<'a>>,
}

impl<'a> Table<'a> {
    /// Begins a row.
    fn begin(&mut self, alloc: Global, name: &'a str) -> Result<(), Fail> {
        self.rows.push(Row::named(alloc, name))?;
        Ok(())
    }

    /// Takes a line of a part.
    fn add(&mut self, name: &'a str, digits: &'a str) -> Result<(), Fail> {
        self.parts.push((name, digits))?;
        Ok(())
    }

    /// Takes a line of a text.
    fn take(&mut self, alloc: Global, line: &'a str) -> Result<(), Fail> {
        let (mark, text) = line.split_once(' ').unwrap_or((line, ""));
        if mark == "==" {
            return self.begin(alloc, text);
        }
        if mark.starts_with('@') {
            return self.add(mark, text);
        }
        match self.rows.last_mut() {
            Some(row) => row.take(alloc, &self.parts, mark, text),
            None if mark.is_empty() || mark == "#" => Ok(()),
            None => Err(Fail::new(mark)),
        }
    }

    /// Takes the lines of texts.
    fn take_all(&mut self, alloc: Global, texts: &[&'a str]) -> Result<(), Fail> {
        for text in texts {
            for line in text.split('\n') {
                self.take(alloc, line)?;
            }
        }
        Ok(())
    }
}

/// The rows of some texts.
pub fn rows_of<'a>(alloc: Global, texts: &[&'a str]) -> Result<Vec<Row<'a>>, Fail> {
    let mut table = Table {
        parts: Vec::new(alloc),
        rows: Vec::new(alloc),
    };
    table.take_all(alloc, texts)?;
    Ok(table.rows)
}

/// The row of a text that has this name.
pub fn row_of<'a>(alloc: Global, text: &'a str, name: &str) -> Result<Row<'a>, Fail> {
    let mut rows = rows_of(alloc, &[text])?;
    for i in 0..rows.len() {
        if rows[i].name == name {
            return Ok(rows.swap_remove(i));
        }
    }
    Err(Fail::new("no such row"))
}

/// The name of the first row that the program does not answer. Without any row, none is answered.
fn first_of<'a, T: AllocGlobal + Threads + Wait + Sync>(
    rt: &T,
    rows: &[Row<'a>],
) -> Option<&'a str> {
    if rows.is_empty() {
        return Some("no row");
    }
    for row in rows {
        if !answers(rt, row.case()) {
            return Some(row.name);
        }
    }
    None
}

/// The name of the first row of some texts that the program does not answer, over memory.
pub fn first_unanswered<'a, T: AllocGlobal + Threads + Wait + Sync>(
    rt: &T,
    texts: &[&'a str],
) -> Result<Option<&'a str>, Fail> {
    let rows = rows_of(rt.alloc(), texts)?;
    Ok(first_of(rt, &rows))
}
