//! What all bad events of a record have in common, and the causes of the first of them.

ghost use Rattle.std.specs.Prelude.{◌≡◌, ◌<◌, List, length, take, IfOk};
ghost use Rattle.std.specs.List.{AllByRecursion};
ghost use Rattle.pg_event.specs.Witness.{Witnessed};
ghost use Rattle.pg_explain.specs.Bads.{IsBad, bads};
ghost use Rattle.pg_explain.specs.Explained.{IsExplained};
ghost use Rattle.pg_explain.specs.Writers.{AreKnown};
ghost use Rattle.pg_answers.specs.Answers.{AreCauses, AreExplanations, IsSummary, IsSummed};

use crate::answer::{Answer, Summary};
use pg_check::History;
use pg_explain::{Bad, Explanation, WriterIndex, bads, explain_with, tallies};
use pg_report::report_of;
use std::alloc::{AllocError, Global};

/// An index of writers costs about as much as the passes over events that so many causes take.
const MANY: usize = 4;

/// How many bad events there are, and what those with one reason have in common.
fn summary_of(alloc: Global, found: &[Bad]) -> Result<Summary, AllocError>
    ensures { IfOk result (IsSummary found.now) }
{
    let tallies = tallies(alloc, found)?;
    Ok(Summary {
        bad_events: found.len() as u64,
        tallies,
    })
}

/// The cause of an event that is not witnessed, by writers, where they are given.
pub(crate) fn cause_of(
    alloc: Global,
    history: &History,
    writers: &Option<WriterIndex<'_>>,
    number: u64,
) -> Result<Explanation, AllocError>
    requires within { number < length history.now.events }
    requires writers { AreKnown history.now.events writers.now }
    requires bad { ¬ Witnessed history.now.head history.now.events number }
    ensures { IfOk result (IsExplained history.now.head history.now.events number) }
{
    match explain_with(alloc, history, writers, number)? {
        Some(explanation) => Ok(explanation),
        None => unreachable!(),
    }
}

/// The writers of a history, where so many events are explained that an index costs less than the
/// passes that it saves.
fn writers_for(
    alloc: Global,
    history: &History,
    count: usize,
) -> Result<Option<WriterIndex<'_>>, AllocError>
    ensures { IfOk result (AreKnown history.now.events) }
{
    if count < MANY {
        return Ok(None);
    }
    let writers = WriterIndex::of(alloc, history)?;
    Ok(Some(writers))
}

/// The cause of each of bad events, in their order, by writers, where they are given.
fn each_by(
    alloc: Global,
    history: &History,
    writers: &Option<WriterIndex<'_>>,
    found: &[Bad],
) -> Result<Vec<Explanation>, AllocError>
    requires writers { AreKnown history.now.events writers.now }
    requires bad { AllByRecursion (IsBad history.now.head history.now.events) found.now }
    ensures { IfOk result (λ xs.
        AreExplanations history.now.head history.now.events found.now xs.items) }
{
    let mut causes = Vec::new(alloc);
    for bad in found {
        let cause = cause_of(alloc, history, writers, bad.number as u64)?;
        causes.push(cause)?;
    }
    Ok(causes)
}

/// The cause of each of bad events, in their order.
fn each(alloc: Global, history: &History, found: &[Bad]) -> Result<Vec<Explanation>, AllocError>
    requires { AllByRecursion (IsBad history.now.head history.now.events) found.now }
    ensures { IfOk result (λ xs.
        AreExplanations history.now.head history.now.events found.now xs.items) }
{
    let writers = writers_for(alloc, history, found.len())?;
    each_by(alloc, history, &writers, found)
}

/// The causes of so many bad events at most.
fn causes_of(
    alloc: Global,
    history: &History,
    found: &[Bad],
    most: usize,
) -> Result<Vec<Explanation>, AllocError>
    requires { found.now ≡ bads history.now.head history.now.events }
    ensures { IfOk result (λ xs.
        AreExplanations history.now.head history.now.events (take most found.now) xs.items) }
{
    each(alloc, history, &found[..most.min(found.len())])
}

/// The report of a record, and a summary of its bad events.
pub(crate) fn summed(alloc: Global, history: &History) -> Result<Answer, AllocError>
    ensures { IfOk result (IsSummed history.now) }
{
    let found = bads(alloc, history)?;
    let summary = summary_of(alloc, &found)?;
    Ok(Answer::Summary(report_of(history), summary))
}

/// The report of a record, the causes of so many of its bad events at most, and a summary of all of
/// them.
pub(crate) fn all_explained(
    alloc: Global,
    history: History,
    most: u32,
) -> Result<Answer, AllocError>
    ensures { IfOk result (AreCauses most history) }
{
    let found = bads(alloc, &history)?;
    let causes = causes_of(alloc, &history, &found, most as usize)?;
    let summary = summary_of(alloc, &found)?;
    let report = report_of(&history);
    Ok(Answer::Causes(report, history, causes, summary))
}
