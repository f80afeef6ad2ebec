//! Why in every order of a run's events one of them does not come to pass.

ghost use Rattle.std.specs.Prelude.{◌≡◌, ◌++◌, ◌<◌, ◌≤◌, IfOk, OnOk, length, slice_get};
ghost use Rattle.std.specs.Prelude.{string_bytes};
ghost use Rattle.std.specs.Option.{ForSome};
ghost use Rattle.pg_span_run.specs.Spans.{span_of};
ghost use Rattle.pg_span_text.specs.Parts.{parts_in};
ghost use Rattle.pg_span_text.specs.Cause.{numbered_line, after_name, after_event, after_text};
ghost use Rattle.pg_span_text.specs.Cause.{version_text, entries_text, parts_text, walk_text};
ghost use Rattle.pg_span_text.specs.Cause.{refused_text, given_text, head_text};
ghost use Rattle.pg_span_text.specs.Cause.{event_text, cause_text};

use crate::lines::push_began;
use crate::parts::{ReadAfter, WalkCause, walk_cause, walked_address};
use crate::seen::Seen;
use crate::seen_lines::{push_cannot_lines, push_may_lines};
use pg_entry::Cfg;
use pg_event::{Event, Header, Outcome, Version};
use pg_span_refute::may_be_given;
use pg_span_run::{SpannedRun, ended_before, event_of};
use std::alloc::{AllocError, Global};

/// Appends the line of the event with this number.
fn push_numbered(
    text: &mut String,
    run: &SpannedRun,
    number: u32,
    event: &Event,
) -> Result<(), AllocError>
    requires { number < length run.now.events }
    ensures { OnOk result
        (string_bytes text.new ≡ string_bytes text.old ++ numbered_line run.now number event.now) }
{
    push_began(text, number, ended_before(run, number), event)?;
    text.push_str("\n")
}

fn after_name(keeps: bool) -> &'static str
    ensures { result.now ≡ after_name keeps }
{
    if keeps {
        "read after, if not global: "
    } else {
        "read after: "
    }
}

/// Appends the line of the event after which a page is read.
fn push_after_event(text: &mut String, run: &SpannedRun, after: ReadAfter) -> Result<(), AllocError>
    requires { after.number < length run.now.events }
    ensures { OnOk result (string_bytes text.new ≡ string_bytes text.old
        ++ after_event run.now after (slice_get run.now.events after.number)) }
{
    text.push_str(after_name(after.keeps_global))?;
    push_numbered(text, run, after.number, event_of(run, after.number))
}

/// Appends the line of the event after which a page is read, if there is one.
fn push_after(
    text: &mut String,
    run: &SpannedRun,
    after: Option<ReadAfter>,
) -> Result<(), AllocError>
    requires { ForSome after (λ x. x.number < length run.now.events) }
    ensures { OnOk result (string_bytes text.new
        ≡ string_bytes text.old ++ after_text run.now after) }
{
    match after {
        None => Ok(()),
        Some(after) => push_after_event(text, run, after),
    }
}

/// Appends what assists do to values, if there are any.
fn push_version(text: &mut String, version: Version) -> Result<(), AllocError>
    ensures { OnOk result
        (string_bytes text.new ≡ string_bytes text.old ++ version_text version) }
{
    match version {
        Version::One => Ok(()),
        Version::Two => text.push_str(
            "values are as written: assists may have set accessed and dirty\n",
        ),
    }
}

/// Appends which entries may be read, and which can't.
fn push_entries(
    text: &mut String,
    header: &Header,
    may: &[Seen],
    cannot: &[Seen],
) -> Result<(), AllocError>
    requires { (36 ≤ header.now.cfg.m) × (header.now.cfg.m ≤ 52) }
    ensures { OnOk result (string_bytes text.new
        ≡ string_bytes text.old ++ entries_text header.now may.now cannot.now) }
{
    push_may_lines(text, header.cfg, may)?;
    push_version(text, header.version)?;
    push_cannot_lines(text, cannot)
}

/// Appends after which event a walk reads, and which entries.
fn push_parts(text: &mut String, run: &SpannedRun, cause: &WalkCause) -> Result<(), AllocError>
    requires { ForSome cause.now.after (λ x. x.number < length run.now.events) }
    ensures { OnOk result (string_bytes text.new
        ≡ string_bytes text.old ++ parts_text run.now (parts_in cause.now)) }
{
    push_after(text, run, cause.after)?;
    push_entries(text, run.header(), &cause.may_read, &cause.cannot_read)
}

/// Appends what the walk of an event reads.
fn push_walk(
    alloc: Global,
    text: &mut String,
    run: &SpannedRun,
    number: u32,
    event: &Event,
    la: u64,
) -> Result<(), AllocError>
    requires { number < length run.now.events }
    ensures { OnOk result (string_bytes text.new ≡ string_bytes text.old
        ++ walk_text run.now (span_of run.now number event.now) (Some la)) }
{
    let cause = walk_cause(alloc, run, number, event, la)?;
    push_parts(text, run, &cause)
}

/// Why no memory gives an event, where none does.
fn refused_text(event: &Event) -> &'static str
    ensures { result.now ≡ refused_text event.now }
{
    match *event {
        Event::Access {
            outcome: Outcome::Page(_),
            ..
        } => "no memory gives it: the address has another offset in its page\n",
        Event::Access {
            outcome: Outcome::Fault(_),
            ..
        } => "no memory gives it: no cause of a page fault gives such an access this code\n",
        Event::Assist { .. } => {
            "no memory gives it: no walk for this address sets these flags in this word\n"
        }
        Event::Write { .. }
        | Event::MovCr3 { .. }
        | Event::Invlpg { .. }
        | Event::Invpcid { .. }
        | Event::MovCr4Pge { .. } => "",
    }
}

/// Appends why no memory gives an event, where none does.
fn push_given(text: &mut String, cfg: Cfg, event: &Event) -> Result<(), AllocError>
    ensures { OnOk result
        (string_bytes text.new ≡ string_bytes text.old ++ given_text cfg event.now) }
{
    if may_be_given(cfg, event) {
        return Ok(());
    }
    text.push_str(refused_text(event))
}

/// Appends the event, and why no memory gives it, where none does.
fn push_head(
    text: &mut String,
    run: &SpannedRun,
    number: u32,
    event: &Event,
) -> Result<(), AllocError>
    requires { number < length run.now.events }
    ensures { OnOk result
        (string_bytes text.new ≡ string_bytes text.old ++ head_text run.now number event.now) }
{
    let cfg = run.header().cfg;
    text.push_str("event: ")?;
    push_numbered(text, run, number, event)?;
    push_given(text, cfg, event)
}

/// Appends why in every order an event does not come to pass.
fn push_event(
    alloc: Global,
    text: &mut String,
    run: &SpannedRun,
    number: u32,
    event: &Event,
) -> Result<(), AllocError>
    requires { number < length run.now.events }
    ensures { OnOk result
        (string_bytes text.new ≡ string_bytes text.old ++ event_text run.now number event.now) }
{
    push_head(text, run, number, event)?;
    match walked_address(event) {
        None => Ok(()),
        Some(la) => push_walk(alloc, text, run, number, event, la),
    }
}

/// Why in every order the event with this number does not come to pass, where no order of the run's
/// events has a run: why no memory gives it, where none does; after which event of its processor
/// it reads the entries of its page, which values these may have there, and which they can't have
/// any more. Nothing for a number that no
/// event has, and the event's own line for one that names no walk.
///
/// It takes a few passes over the events, and one for each table that a walk may come to: 65 for
/// each level at most. Fails only when out of memory.
pub fn cause_text(alloc: Global, run: &SpannedRun, number: u64) -> Result<String, AllocError>
    ensures { IfOk result (λ t. string_bytes t ≡ cause_text run.now number) }
{
    let mut text = String::new(alloc);
    if number < run.len() as u64 {
        let number = number as u32;
        push_event(alloc, &mut text, run, number, event_of(run, number))?;
    }
    Ok(text)
}
