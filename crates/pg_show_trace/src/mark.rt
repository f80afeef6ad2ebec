//! What is marked of a rejection: its event, and the events that led to it.

ghost use Rattle.std.specs.Prelude.{◌≡◌, ◌++◌, IfOk, OnOk};
ghost use Rattle.pg_show_trace.specs.Marks.{cause_name, role_name, said, source_at, writers};
ghost use Rattle.pg_show_trace.specs.Marks.{last_in, unless_at, sources_of};
ghost use Rattle.pg_show_trace.specs.Marks.{explanation_mark, denial_mark};

use pg_check::History;
use pg_event::{Event, Reason, processor_of};
use pg_explain::{
    Denial, Explanation, WalkEntry, denial_text_by, down_to_end, event_at, explanation_text,
    processor_at, taker, takers_in,
};
use pg_report::reason_name;
use pg_search::Last;
use std::alloc::{AllocError, Global};

/// Why an event is rejected.
#[derive(Clone, Copy)]
pub enum Cause {
    /// Its moments do not witness it.
    Moments(Reason),
    /// No moments witness it.
    NoMoments,
    /// It comes to pass in no order of events with spans.
    NoOrder,
}

impl Cause {
    pub(crate) fn name(self) -> &'static str
        ensures { result.now ≡ cause_name self }
    {
        match self {
            Cause::Moments(reason) => reason_name(reason),
            Cause::NoMoments => "no moments",
            Cause::NoOrder => "no order",
        }
    }
}

/// What an event has to do with the rejected one.
#[derive(Clone, Copy)]
pub enum Role {
    /// It wrote an entry of the walk.
    Write,
    /// By it a cached entry had to go.
    Drop,
    /// After it no moments witness the rejected event.
    Last,
}

impl Role {
    pub(crate) fn name(self) -> &'static str
        ensures { result.now ≡ role_name self }
    {
        match self {
            Role::Write => "read by the walk",
            Role::Drop => "dropped the entry",
            Role::Last => "last event before it",
        }
    }
}

/// An event from which an arrow leads to the rejected one.
#[derive(Clone, Copy)]
pub struct Source {
    /// Its number.
    pub number: u32,
    /// Its processor.
    pub p: u16,
    pub role: Role,
}

/// The rejected event of a record.
#[derive(Drop)]
pub struct Mark {
    /// Its number.
    pub number: u32,
    /// Its processor.
    pub p: u16,
    pub cause: Cause,
    /// The lines that tell of the rejection.
    pub words: String,
    /// The events that led to it.
    pub sources: Vec<Source>,
}

/// Appends the event with this number, where there is one.
pub(crate) fn push_source(
    sources: &mut Vec<Source>,
    events: &[Event],
    role: Role,
    number: Option<u32>,
) -> Result<(), AllocError>
    ensures { OnOk result
        (sources.new.items ≡ sources.old.items ++ source_at events.now role number) }
{
    let Some(number) = number else {
        return Ok(());
    };
    match event_at(events, number) {
        Some(event) => {
            sources.push(Source {
                number,
                p: processor_of(&event),
                role,
            })?;
            Ok(())
        }
        None => Ok(()),
    }
}

/// The events that wrote the entries of a walk, down to the first that is no table.
fn writers(alloc: Global, events: &[Event], walk: &[WalkEntry]) -> Result<Vec<Source>, AllocError>
    ensures { IfOk result (λ found. found.items ≡ writers events.now walk.now) }
{
    let mut sources = Vec::new(alloc);
    for entry in down_to_end(walk) {
        push_source(&mut sources, events, Role::Write, entry.writer)?;
    }
    Ok(sources)
}

/// The event after which no moments witness.
fn last_in(last: Option<Last>) -> Option<u32>
    ensures { result ≡ last_in last }
{
    match last {
        None => None,
        Some(last) => Some(last.number),
    }
}

/// A number, unless there is another.
fn unless_at(other: Option<u32>, number: Option<u32>) -> Option<u32>
    ensures { result ≡ unless_at other number }
{
    match other {
        None => number,
        Some(_) => None,
    }
}

/// The events that wrote the entries of a walk down to the first that is no table, the one by which
/// an entry had to go and, where there is none, the one after which no moments witness.
fn sources_of(
    alloc: Global,
    events: &[Event],
    walk: &[WalkEntry],
    dropped: Option<u32>,
    last: Option<u32>,
) -> Result<Vec<Source>, AllocError>
    ensures { IfOk result (λ found. found.items ≡ sources_of events.now walk.now dropped last) }
{
    let mut sources = writers(alloc, events, walk)?;
    push_source(&mut sources, events, Role::Drop, dropped)?;
    push_source(&mut sources, events, Role::Last, unless_at(dropped, last))?;
    Ok(sources)
}

/// The mark of an event that its moments do not witness.
pub(crate) fn explanation_mark(
    alloc: Global,
    history: &History,
    explanation: &Explanation,
) -> Result<Mark, AllocError>
    ensures { IfOk result (λ m. said m ≡ explanation_mark history.now.events explanation.now) }
{
    let events = history.events();
    let Explanation {
        number,
        finding,
        other,
        last,
        ..
    } = *explanation;
    Ok(Mark {
        number,
        p: processor_at(events, number),
        cause: Cause::Moments(finding.reason()),
        words: explanation_text(alloc, events, explanation)?,
        sources: sources_of(
            alloc,
            events,
            &explanation.walk,
            finding.dropper(),
            taker(other, last),
        )?,
    })
}

/// The mark of an event that no moments witness.
pub(crate) fn denial_mark(
    alloc: Global,
    history: &History,
    denial: &Denial,
) -> Result<Mark, AllocError>
    ensures { IfOk result (λ m. said m ≡ denial_mark history.now.events denial.now) }
{
    let events = history.events();
    let number = denial.number;
    let takers = takers_in(events, denial);
    Ok(Mark {
        number,
        p: processor_at(events, number),
        cause: Cause::NoMoments,
        words: denial_text_by(alloc, event_at(events, number), takers, denial)?,
        sources: sources_of(
            alloc,
            events,
            &denial.walk,
            denial.dropped,
            last_in(denial.last),
        )?,
    })
}
