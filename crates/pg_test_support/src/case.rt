//! What the program is given and must answer, over streams that are whole, small or failing.

use crate::pieces::{Crumbs, Fault, Pieces};
use crate::told::is_told;
use pg_codec::{Sink, Source, Watched};
use pg_span_run::Peeked;
use pg_tool::{Nowhere, pcid_audit, plan};
use std::alloc::AllocGlobal;
use std::io::ErrorKind;
use std::sync::Wait;
use std::test::Fail;
use std::thread::Threads;

/// What the program is given, and what it must answer.
#[derive(Clone, Copy)]
pub struct Case<'a> {
    pub name: &'a str,
    /// The words after the program's name.
    pub words: &'a [&'a str],
    /// Standard input.
    pub input: &'a [u8],
    /// Standard output.
    pub output: &'a [u8],
    /// Standard error: of a refusal its fixed line alone.
    pub line: &'a str,
    /// The exit status.
    pub status: u8,
}

/// What it says where a stream fails.
const DEVICE: &str = "pcid-audit: refused 11 device\n";

/// There are no files.
fn no_file(_name: &str) -> Option<Peeked<Watched<&'static [u8]>>> {
    None
}

/// None can be created.
fn no_creation(_name: &str) -> Option<Nowhere> {
    None
}

/// The exit status of the program with these words on these streams, where there are no files. What
/// the program promises is long: who calls this carries none of it, and is proved sooner.
pub fn run_on<T: AllocGlobal + Threads + Wait + Sync, R: Source, O: Sink, E: Sink>(
    rt: &T,
    words: &[&str],
    input: &mut Peeked<R>,
    output: &mut O,
    errors: &mut E,
) -> u8 {
    let planned = plan(rt.alloc(), words);
    pcid_audit(rt, planned, no_file, no_creation, input, output, errors)
}

/// The exit status of the program over memory (`run_on`).
pub fn run_over<T: AllocGlobal + Threads + Wait + Sync>(
    rt: &T,
    words: &[&str],
    bytes: &[u8],
    output: &mut Watched<Vec<u8>>,
    errors: &mut Watched<Vec<u8>>,
) -> u8 {
    let mut input = Peeked::new(Watched::new(bytes));
    run_on(rt, words, &mut input, output, errors)
}

/// Whether the program ended and wrote as the case says. A refusal's fixed line is followed by
/// those that say it in words and name the input.
pub fn is_answered<'a>(case: Case<'a>, status: u8, output: &[u8], line: &[u8]) -> bool {
    status == case.status && output == case.output && is_told(case.line, status, line)
}

/// Whether the program answers as the case says on a source in the place of the case's input.
pub fn answers_on<'a, T: AllocGlobal + Threads + Wait + Sync, R: Source>(
    rt: &T,
    case: Case<'a>,
    input: &mut Peeked<R>,
) -> bool {
    let mut output = Watched::new(Vec::new(rt.alloc()));
    let mut errors = Watched::new(Vec::new(rt.alloc()));
    let status = run_on(rt, case.words, input, &mut output, &mut errors);
    is_answered(case, status, &output.inner, &errors.inner)
}

/// Whether it does over memory.
pub fn answers<'a, T: AllocGlobal + Threads + Wait + Sync>(rt: &T, case: Case<'a>) -> bool {
    let mut input = Peeked::new(Watched::new(case.input));
    answers_on(rt, case, &mut input)
}

/// Whether it does by one byte a read, and one byte a write.
pub fn answers_by_bytes<'a, T: AllocGlobal + Threads + Wait + Sync>(
    rt: &T,
    case: Case<'a>,
) -> Result<bool, Fail> {
    let mut input = Peeked::new(Watched::new(Pieces::new(case.input, 1)));
    let mut output = Watched::new(Crumbs::new(rt.alloc(), None)?);
    let mut errors = Watched::new(Crumbs::new(rt.alloc(), None)?);
    let status = run_on(rt, case.words, &mut input, &mut output, &mut errors);
    Ok(is_answered(case, status, &output.inner.taken, &errors.inner.taken))
}

/// Whether the program says that a device failed, and writes nothing else, where the read of this
/// number fails so, by pieces of this size.
fn ends_at_read<'a, T: AllocGlobal + Threads + Wait + Sync>(
    rt: &T,
    case: Case<'a>,
    most: usize,
    read: usize,
    kind: ErrorKind,
) -> bool {
    let failed = Case {
        output: &[],
        line: DEVICE,
        status: 2,
        ..case
    };
    let mut input = Peeked::new(Watched::new(Pieces {
        left: case.input,
        most,
        reads: 0,
        failing: Some((read, kind)),
    }));
    answers_on(rt, failed, &mut input)
}

/// Whether it does at each read in its turn.
pub fn ends_at_each_read<'a, T: AllocGlobal + Threads + Wait + Sync>(
    rt: &T,
    case: Case<'a>,
    most: usize,
) -> bool {
    // So many pieces, and the end.
    let reads = case.input.len().div_ceil(most.max(1)).wrapping_add(1);
    for read in 0..reads {
        if !ends_at_read(rt, case, most, read, ErrorKind::Interrupted)
            || !ends_at_read(rt, case, most, read, ErrorKind::UnexpectedEof)
        {
            return false;
        }
    }
    true
}

/// Whether a write of this number to standard output that fails so ends the program, one byte a
/// write: what was written stays, and is a beginning of the whole.
fn ends_at_write<'a, T: AllocGlobal + Threads + Wait + Sync>(
    rt: &T,
    case: Case<'a>,
    write: usize,
    fault: Fault,
) -> Result<bool, Fail> {
    let mut input = Peeked::new(Watched::new(case.input));
    let mut output = Watched::new(Crumbs::new(rt.alloc(), Some((write, fault)))?);
    let mut errors = Watched::new(Vec::new(rt.alloc()));
    let status = run_on(rt, case.words, &mut input, &mut output, &mut errors);
    let taken = output.inner.taken.as_slice();
    let is_well_told = status == 2 && is_told(DEVICE, status, &errors.inner);
    Ok(is_well_told && taken.len() == write && case.output.starts_with(taken))
}

/// Whether it does at each write to standard output in its turn.
pub fn ends_at_each_write<'a, T: AllocGlobal + Threads + Wait + Sync>(
    rt: &T,
    case: Case<'a>,
) -> Result<bool, Fail> {
    for write in 0..case.output.len() {
        if !ends_at_write(rt, case, write, Fault::Error)?
            || !ends_at_write(rt, case, write, Fault::TakesNone)?
        {
            return Ok(false);
        }
    }
    Ok(true)
}
