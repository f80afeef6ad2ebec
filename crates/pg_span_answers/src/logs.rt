//! The logs of files.

ghost use Rattle.std.specs.Prelude.{◌≡◌, map, MatchResult};
ghost use Rattle.pg_codec.specs.Reads.{seen};
ghost use Rattle.pg_codec.specs.Streams.{FailsWithDevice};
ghost use Rattle.pg_span_answers.specs.Merges.{IsLogOf, IsUntaken, ReadsLog, TakesLogs, is_device};
ghost use Rattle.pg_span_answers.specs.Openings.{opens};

use crate::reading::{MOST, tell_unread};
use pg_codec::{IntakeError, Source, pull_all};
use pg_span_run::{Log, LogError, LogRefusal, read_log};
use std::alloc::Global;
use std::cell::Cell;

/// Why the log of a file was not taken.
#[derive(Clone, Copy, Debug, PartialEq, Eq)]
pub(crate) enum Untaken {
    /// The file could not be opened.
    Unopened,
    /// Its bytes are no log: the first refusal.
    Refused(LogRefusal),
    /// A read failed.
    Device,
    /// Memory ran out.
    Memory,
}

/// Why the logs of files were not taken.
#[derive(Clone, Copy, Debug, PartialEq, Eq)]
pub(crate) enum Stop {
    /// The first that was not, by its place among the names, and why.
    At { place: usize, why: Untaken },
    /// Memory ran out.
    Memory,
}

/// The log that a source has left. The source hears how many of the bytes were not read, if they
/// are refused.
fn log_in<R: Source>(alloc: Global, source: &mut R) -> Result<Log, Untaken>
    ensures reads { ReadsLog (R.left source.old) result }
    ensures failures { FailsWithDevice is_device
        (R.failed source.old) (R.failed source.new) result }
{
    let bytes = match pull_all(alloc, source, MOST) {
        Ok(bytes) => bytes,
        Err(IntakeError::Device) => return Err(Untaken::Device),
        Err(IntakeError::TooMany | IntakeError::Memory) => return Err(Untaken::Memory),
    };
    let unread = Cell::new(0);
    let log = read_log(alloc, &bytes, &unread);
    tell_unread(source, log.is_err(), unread.get());
    match log {
        Ok(log) => Ok(log),
        Err(LogError::Refused(refusal)) => Err(Untaken::Refused(refusal)),
        Err(LogError::Memory) => Err(Untaken::Memory),
    }
}

/// The log of the file of that name.
fn log_of<F: Fn(&str) -> Option<S>, S: Source + Drop>(
    alloc: Global,
    opener: &F,
    name: &str,
) -> Result<Log, Untaken>
    requires { F.IsAlwaysCallable opener.now }
    ensures { MatchResult result (IsLogOf (opens F.Fn S.Source opener.now) name.now)
        (IsUntaken (opens F.Fn S.Source opener.now) name.now) }
{
    match opener(name) {
        Some(mut file) => log_in(alloc, &mut file),
        None => Err(Untaken::Unopened),
    }
}

/// The logs of the files of these names, in their order.
pub(crate) fn logs_of<F: Fn(&str) -> Option<S>, S: Source + Drop>(
    alloc: Global,
    opener: &F,
    names: &[&str],
) -> Result<Vec<Log>, Stop>
    requires { F.IsAlwaysCallable opener.now }
    ensures { TakesLogs (opens F.Fn S.Source opener.now) (map (λ s. s.now) names.now)
        (seen (λ v. v.items) result) }
{
    let mut logs = Vec::new(alloc);
    for (place, name) in names.iter().enumerate() {
        match log_of(alloc, opener, name) {
            Ok(log) => match logs.push(log) {
                Ok(()) => {}
                Err(_) => return Err(Stop::Memory),
            },
            Err(why) => return Err(Stop::At { place, why }),
        }
    }
    Ok(logs)
}
