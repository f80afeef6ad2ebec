// SPDX-License-Identifier: MIT OR Apache-2.0
//! pcid-audit: the program over the standard streams.
#![tactic(auto)]

mod reasons;

use crate::reasons::Reasoned;
use pg_arguments::arguments;
use pg_codec::Watched;
use pg_span_run::Peeked;
use pg_tool::{Brief, Followed, Host, Signals, Teller, pcid_audit_of_arguments};
use std::cell::Cell;
use std::fs::{self, File};
use std::io::{self, ErrorKind, IsTerminal, Lock, Read, Stderr, Write};
use std::process::ExitCode;

/// What is read: it tells of its progress on standard error, by a handle of its own.
type Input<'r, 'a, R> = Peeked<Followed<'a, Watched<R>, Watched<Stderr>, &'r HostRuntime>>;

/// How many bytes a file has, if it is one that has a size: neither a pipe nor a device.
fn size_of(file: &File) -> Option<u64> {
    match file.metadata() {
        Ok(metadata) if metadata.is_file() => Some(metadata.len()),
        _ => None,
    }
}

/// The path of the file of that name, where `-` is standard input.
fn path_of(name: &str) -> &str {
    if name == "-" { "/dev/stdin" } else { name }
}

/// The file of that path, if it is no directory.
fn file_at(rt: &HostRuntime, path: &str) -> Result<File, ErrorKind> {
    match fs::open(rt, path) {
        Ok(file) => match file.metadata() {
            Ok(metadata) if metadata.is_dir() => Err(ErrorKind::IsADirectory),
            _ => Ok(file),
        },
        Err(error) => Err(error.kind()),
    }
}

/// The file of that name, where it can be opened, and else `why` says why not.
fn open_file<'r, 'a>(
    rt: &'r HostRuntime,
    name: &str,
    signals: &'a Signals,
    why: &Cell<Option<ErrorKind>>,
) -> Option<Input<'r, 'a, File>> {
    match file_at(rt, path_of(name)) {
        Ok(file) => {
            let size = size_of(&file);
            let errors = Watched::new(rt.stderr());
            let followed = Followed::new(Watched::new(file), errors, rt, size, signals);
            Some(Peeked::new(followed))
        }
        Err(kind) => {
            why.set(Some(kind));
            None
        }
    }
}

/// The empty file of that name, where it can be created, and else `why` says why not.
fn create_file(
    rt: &HostRuntime,
    name: &str,
    why: &Cell<Option<ErrorKind>>,
) -> Option<Watched<File>> {
    match File::create(rt, name) {
        Ok(file) => Some(Watched::new(file)),
        Err(error) => {
            why.set(Some(error.kind()));
            None
        }
    }
}

fn main(rt: HostRuntime) -> ExitCode {
    let mut output = Watched::new(rt.stdout());
    // Whoever names a file, or reads standard error at a terminal, is told in words too.
    let signals = Signals::new(!rt.stderr().is_terminal());
    let why = Cell::new(None);
    let mut errors = Reasoned {
        errors: Brief::new(Watched::new(rt.stderr()), &signals.is_brief),
        why: &why,
        reasons: Watched::new(rt.stderr()),
    };
    let mut input = Peeked::new(Followed::new(
        Watched::new(rt.reader()),
        Watched::new(rt.stderr()),
        &rt,
        None,
        &signals,
    ));
    let host = Host {
        opener: |name: &str| {
            signals.is_brief.set(false);
            open_file(&rt, name, &signals, &why)
        },
        creator: |name: &str| {
            signals.is_brief.set(false);
            create_file(&rt, name, &why)
        },
        is_terminal: rt.stdout().is_terminal(),
        signals: &signals,
        observer: Teller::new(Watched::new(rt.stderr())),
    };
    let status = pcid_audit_of_arguments(
        &rt,
        arguments(&rt),
        host,
        &mut input,
        &mut output,
        &mut errors,
    );
    ExitCode::from(status)
}
