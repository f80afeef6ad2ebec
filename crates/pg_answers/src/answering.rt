//! The answer of each question of a record.

ghost use Rattle.pg_report.specs.Changes.{drawn};
ghost use Rattle.pg_answers.specs.Answers.{IsAnswer};
ghost use Rattle.pg_answers.specs.Found.{IsFound};

use crate::answer::Answer;
use crate::certificates::certify;
use crate::checks::check;
use crate::explanations::{explained, explained_at};
use crate::outcomes::outcomes_asked;
use crate::question::Question;
use crate::summaries::{all_explained, summed};
use pg_arguments::Checkers;
use pg_codec::Source;
use pg_event::Selection;
use pg_report::{AuditError, read_record};
use std::alloc::{AllocGlobal, Global};
use std::sync::Wait;
use std::thread::Threads;

/// The report of the record that `input` has left, and a summary of its bad events.
fn check_all<R: Source>(alloc: Global, input: &mut R) -> Result<Answer, AuditError>
    ensures { IsFound (IsAnswer Question.CheckAll) 1 (drawn R.Source input.old input.new) result }
{
    match read_record(alloc, input) {
        Ok(history) => Ok(summed(alloc, &history)?),
        Err(error) => Err(error),
    }
}

/// Its report, and the cause of a rejection.
fn explain<T: AllocGlobal + Threads + Wait + Sync, R: Source>(
    rt: &T,
    checkers: Checkers,
    input: &mut R,
) -> Result<Answer, AuditError>
    ensures { IsFound (IsAnswer Question.Explain) checkers
        (drawn R.Source input.old input.new) result }
{
    match read_record(rt.alloc(), input) {
        Ok(history) => explained(rt, checkers, history),
        Err(error) => Err(error),
    }
}

/// The cause of a rejection at this event or before it; else the event's outcomes.
fn explain_at<R: Source>(alloc: Global, number: u32, input: &mut R) -> Result<Answer, AuditError>
    ensures { IsFound (IsAnswer (Question.ExplainAt number)) 1
        (drawn R.Source input.old input.new) result }
{
    match read_record(alloc, input) {
        Ok(history) => Ok(explained_at(alloc, history, number)?),
        Err(error) => Err(error),
    }
}

/// Its report, the causes of so many bad events at most, and a summary of all of them.
fn explain_all<R: Source>(alloc: Global, most: u32, input: &mut R) -> Result<Answer, AuditError>
    ensures { IsFound (IsAnswer (Question.ExplainAll most)) 1
        (drawn R.Source input.old input.new) result }
{
    match read_record(alloc, input) {
        Ok(history) => Ok(all_explained(alloc, history, most)?),
        Err(error) => Err(error),
    }
}

/// Its events, of which a selection asks for some.
fn show<R: Source>(alloc: Global, selection: Selection, input: &mut R) -> Result<Answer, AuditError>
    ensures { IsFound (IsAnswer (Question.Show selection)) 1
        (drawn R.Source input.old input.new) result }
{
    match read_record(alloc, input) {
        Ok(history) => Ok(Answer::Events(history, selection)),
        Err(error) => Err(error),
    }
}

/// The outcomes of one of its events.
fn outcomes_of_record<R: Source>(
    alloc: Global,
    asked: Option<u32>,
    most: u32,
    input: &mut R,
) -> Result<Answer, AuditError>
    ensures { IsFound (IsAnswer (Question.Outcomes asked most)) 1
        (drawn R.Source input.old input.new) result }
{
    match read_record(alloc, input) {
        Ok(history) => Ok(outcomes_asked(alloc, &history, asked, most)?),
        Err(error) => Err(error),
    }
}

/// Reads the record that `input` has left, all of it, and answers a question of it. So many
/// checkers judge where its moments are judged, or whether some run has its events; the answer is
/// the same for each number of them. An error is that of a refused record, of the input, of memory,
/// or of a thread.
pub fn answer_record<T: AllocGlobal + Threads + Wait + Sync, R: Source>(
    rt: &T,
    checkers: Checkers,
    question: Question,
    input: &mut R,
) -> Result<Answer, AuditError>
    ensures { IsFound (IsAnswer question) checkers (drawn R.Source input.old input.new) result }
{
    match question {
        Question::Check => check(rt, checkers, input),
        Question::CheckAll => check_all(rt.alloc(), input),
        Question::Certify => certify(rt, checkers, input),
        Question::Explain => explain(rt, checkers, input),
        Question::ExplainAt(number) => explain_at(rt.alloc(), number, input),
        Question::ExplainAll(most) => explain_all(rt.alloc(), most, input),
        Question::Show(selection) => show(rt.alloc(), selection, input),
        Question::Outcomes(asked, most) => outcomes_of_record(rt.alloc(), asked, most, input),
    }
}
