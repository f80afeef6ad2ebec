//! The record with spans that logs of single processors make, as `merge` writes it.

ghost use Rattle.std.specs.Prelude.{◌≡◌, map};
ghost use Rattle.pg_span_run.specs.Runs.{AreOfOneRun};
ghost use Rattle.pg_span_run.specs.Merged.{IsMerged};
ghost use Rattle.pg_codec.specs.Writing.{Puts};
ghost use Rattle.pg_report.specs.Changes.{filled};
ghost use Rattle.pg_span_run.specs.Spelling.{spanned_bytes};
ghost use Rattle.pg_span_answers.specs.Answers.{GivesOut, WantsMemory};
ghost use Rattle.pg_answers.specs.Refusals.{Tells};
ghost use Rattle.pg_span_answers.specs.Merges.{AnswersLogs, Merges, TellsUntaken, GivesRun};
ghost use Rattle.pg_span_answers.specs.Merges.{log_line, log_refusal_text, merge_line, merge_name};
ghost use Rattle.pg_span_answers.specs.Merges.{merge_status, name_at};
ghost use Rattle.pg_span_answers.specs.Openings.{opens};

use crate::answers::{give_out, tell_memory};
use crate::logs::{Stop, Untaken, logs_of};
use pg_answers::{
    MEMORY, REFUSED, UNOPENED, YES, put_line, put_name, put_number, put_place, put_refusal, tell,
    tell_unopened,
};
use pg_codec::{Failed, Sink, Source, put_all};
use pg_report::AuditError;
use pg_span_run::{
    Log, LogRefusal, MergeError, Setting, SpannedRun, merge_logs, reading_of_spanned_spelling,
    spell_spanned,
};
use std::alloc::Global;

fn put_log_refusal<W: Sink>(errors: &mut W, refusal: LogRefusal) -> Result<(), Failed>
    ensures { Puts W.Sink (log_refusal_text refusal) errors.old errors.new result }
{
    match refusal {
        LogRefusal::Field(refusal) => {
            let error = AuditError::Refused(refusal);
            put_refusal(errors, error.number(), error.name())?;
            put_place(errors, error)
        }
        LogRefusal::Stamps { event } => {
            put_number(errors, b"pcid-audit: refused 16 stamps event ", event)
        }
        LogRefusal::Processor { event } => {
            put_number(
                errors,
                b"pcid-audit: refused 17 other processor event ",
                event,
            )
        }
    }
}

fn put_log_line<W: Sink>(errors: &mut W, name: &str, refusal: LogRefusal) -> Result<(), Failed>
    ensures { Puts W.Sink (log_line name.now refusal) errors.old errors.new result }
{
    put_log_refusal(errors, refusal)?;
    put_all(errors, b" in")?;
    put_name(errors, name)
}

/// The name at a place.
fn name_at<'a>(names: &[&'a str], place: usize) -> &'a str
    ensures { result.now ≡ name_at (map (λ s. s.now) names.now) place }
{
    match names.get(place) {
        Some(name) => name,
        None => "",
    }
}

/// What is wrong with logs that make no run.
fn merge_name(error: MergeError) -> &'static str
    ensures { result.now ≡ merge_name error }
{
    match error {
        MergeError::NoLogs => "no log",
        MergeError::Differs { setting, .. } => match setting {
            Setting::Version => "other version",
            Setting::Maxphyaddr => "other MAXPHYADDR",
            Setting::Flags => "other flags",
            Setting::Processors => "other number of processors",
        },
        MergeError::Twice { .. } => "two logs of one processor",
        MergeError::Missing { .. } => "no log of a processor",
        MergeError::TooMany => "too many events",
        MergeError::Memory => "memory",
    }
}

fn put_merge_line<W: Sink>(errors: &mut W, error: MergeError) -> Result<(), Failed>
    ensures { Puts W.Sink (merge_line error) errors.old errors.new result }
{
    put_line(errors, error.number(), merge_name(error))
}

/// Tells why logs make no run.
fn tell_unmerged<E: Sink>(errors: &mut E, error: MergeError)
    ensures { Tells (filled E.Sink errors.old errors.new) (merge_line error) }
{
    let _ = put_merge_line(errors, error);
}

fn merge_status(error: MergeError) -> u8
    ensures { result ≡ merge_status error }
{
    match error {
        MergeError::NoLogs
        | MergeError::Differs { .. }
        | MergeError::Twice { .. }
        | MergeError::Missing { .. }
        | MergeError::TooMany => REFUSED,
        MergeError::Memory => MEMORY,
    }
}

/// Tells why the log of a file was not taken, and gives the status.
fn tell_untaken<O: Sink, E: Sink>(output: &mut O, errors: &mut E, name: &str, why: Untaken) -> u8
    ensures { TellsUntaken name.now why
        (filled O.Sink output.old output.new) (filled E.Sink errors.old errors.new) result }
{
    match why {
        Untaken::Unopened => {
            tell_unopened(errors, name);
            UNOPENED
        }
        Untaken::Refused(refusal) => {
            let _ = put_log_line(errors, name, refusal);
            REFUSED
        }
        Untaken::Device => {
            tell(errors, AuditError::Device);
            REFUSED
        }
        Untaken::Memory => tell_memory(output, errors),
    }
}

/// Writes the record of a run.
fn give_run<O: Sink, E: Sink>(alloc: Global, run: &SpannedRun, output: &mut O, errors: &mut E) -> u8
    ensures { GivesRun run.now
        (filled O.Sink output.old output.new) (filled E.Sink errors.old errors.new) result }
{
    match spell_spanned(alloc, run) {
        Ok(bytes) => give_out(output, errors, &bytes, YES),
        Err(_) => tell_memory(output, errors),
    }
}

/// Merges logs, and writes the record.
fn answer_logs<O: Sink, E: Sink>(
    alloc: Global,
    logs: &[Log],
    error: u32,
    output: &mut O,
    errors: &mut E,
) -> u8
    ensures { AnswersLogs logs.now error
        (filled O.Sink output.old output.new) (filled E.Sink errors.old errors.new) result }
{
    reading_of_spanned_spelling();
    match merge_logs(alloc, logs, error as u64) {
        Ok(run) => give_run(alloc, &run, output, errors),
        Err(why) => {
            tell_unmerged(errors, why);
            merge_status(why)
        }
    }
}

/// Reads the logs of the files of these names, one of each processor of a run, and writes the
/// record of version 3 or 4 that they make, each span longer on both sides by so many ticks of the
/// clocks. Nothing is written before it is ready. It gives the exit status: 0 a record, 2 refused,
/// 3 memory, 66 a file that can't be opened.
pub fn merge<F: Fn(&str) -> Option<S>, S: Source + Drop, O: Sink, E: Sink>(
    alloc: Global,
    names: &[&str],
    error: u32,
    opener: &F,
    output: &mut O,
    errors: &mut E,
) -> u8
    requires { F.IsAlwaysCallable opener.now }
    ensures { Merges (opens F.Fn S.Source opener.now) (map (λ s. s.now) names.now) error
        (filled O.Sink output.old output.new) (filled E.Sink errors.old errors.new) result }
{
    match logs_of(alloc, opener, names) {
        Ok(logs) => answer_logs(alloc, &logs, error, output, errors),
        Err(Stop::At { place, why }) => { tell_untaken(output, errors, name_at(names, place), why) }
        Err(Stop::Memory) => tell_memory(output, errors),
    }
}
