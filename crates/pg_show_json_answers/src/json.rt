//! Answers as JSON.

ghost use Rattle.std.specs.Prelude.{◌≡◌, List, map, IfOk, string_bytes};
ghost use Rattle.serde_json.specs.View.{view, members_view};
ghost use Rattle.pg_show_json.specs.Tree.{Json, Fields as ToldFields, data_of, members_of};
ghost use Rattle.pg_show_json.specs.Tree.{json_line, no_fields, object};
ghost use Rattle.pg_show_json.specs.Reports.{with_report};
ghost use Rattle.pg_show_json.specs.Causes.{explanation_json};
ghost use Rattle.pg_show_json_answers.specs.Answers.{answer_json, cause_fields, causes_fields};
ghost use Rattle.pg_show_json_answers.specs.Answers.{rejection_json, summary_fields};

use crate::lines::shown_json;
use crate::outcomes::{outcomes_line, put_allowed};
use pg_answers::{Answer, Rejection, Summary};
use pg_event::Event;
use pg_explain::Explanation;
use pg_report::Report;
use pg_show_json::{
    Fields, denial_json, explanation_json, line_of, list_of, put_count, put_counts, put_no,
    put_report, tallies_json,
};
use serde_json::{Map, Value, put};
use std::alloc::{AllocError, Global};

/// No fields.
fn none(alloc: Global) -> Fields
    ensures { members_view result.entries ≡ members_of no_fields }
{
    Map::new(alloc)
}

/// The line of a report, with more of it.
fn report_line(alloc: Global, report: Report, more: Fields) -> Result<String, AllocError>
    ensures { (told : ToldFields) → members_view more.entries ≡ members_of told →
        IfOk result (λ t. string_bytes t ≡ json_line (object (with_report report told))) }
{
    let mut fields = more;
    put_report(&mut fields, alloc, report)?;
    line_of(alloc, fields)
}

/// How many bad events there are, and what those with one reason have in common.
fn summary_fields(alloc: Global, summary: &Summary) -> Result<Fields, AllocError>
    ensures { IfOk result (λ m. members_view m.entries ≡ members_of (summary_fields summary.now)) }
{
    let mut fields = none(alloc);
    let tallies = tallies_json(alloc, &summary.tallies)?;
    put(&mut fields, alloc, "tallies", tallies)?;
    put_count(&mut fields, alloc, "bad_events", summary.bad_events)?;
    Ok(fields)
}

/// A cause.
fn cause_fields(alloc: Global, cause: Value) -> Result<Fields, AllocError>
    ensures { (told : Json) → view cause ≡ data_of told →
        IfOk result (λ m. members_view m.entries ≡ members_of (cause_fields told)) }
{
    let mut fields = none(alloc);
    put(&mut fields, alloc, "cause", cause)?;
    Ok(fields)
}

/// Causes, where these are the events of their run.
fn each(
    alloc: Global,
    events: &[Event],
    explanations: &[Explanation],
) -> Result<Vec<Value>, AllocError>
    ensures { IfOk result (λ vs. map view vs.items
        ≡ map (λ x. data_of (explanation_json events.now x)) explanations.now) }
{
    let mut values = Vec::new(alloc);
    for explanation in explanations {
        let cause = explanation_json(alloc, events, explanation)?;
        values.push(cause)?;
    }
    Ok(values)
}

/// Causes, and what all bad events have in common.
fn causes_fields(
    alloc: Global,
    events: &[Event],
    explanations: &[Explanation],
    summary: &Summary,
) -> Result<Fields, AllocError>
    ensures { IfOk result (λ m. members_view m.entries
        ≡ members_of (causes_fields events.now explanations.now summary.now)) }
{
    let mut fields = summary_fields(alloc, summary)?;
    let causes = each(alloc, events, explanations)?;
    put(&mut fields, alloc, "causes", list_of(causes))?;
    Ok(fields)
}

/// The line of a no of `certify`, and of its cause.
fn rejection_line(alloc: Global, rejection: &Rejection) -> Result<String, AllocError>
    ensures { IfOk result (λ t. string_bytes t ≡ json_line (rejection_json rejection.now)) }
{
    let Rejection {
        events,
        segments,
        denial,
        event,
        takers,
        allowed,
    } = rejection;
    let cause = denial_json(alloc, event, *takers, denial)?;
    let mut fields = cause_fields(alloc, cause)?;
    put_allowed(&mut fields, alloc, allowed)?;
    put_counts(&mut fields, alloc, *events, *segments)?;
    put_no(&mut fields, alloc, denial.number as u64, 14, "no moments")?;
    line_of(alloc, fields)
}

/// An answer as JSON: an object in one line, and of events one of each. Fails only when out of
/// memory.
pub fn answer_json(alloc: Global, answer: &Answer) -> Result<String, AllocError>
    ensures { IfOk result (λ t. string_bytes t ≡ answer_json answer.now) }
{
    match answer {
        Answer::Report(report) => report_line(alloc, *report, none(alloc)),
        Answer::Summary(report, summary) => {
            let fields = summary_fields(alloc, summary)?;
            report_line(alloc, *report, fields)
        }
        Answer::Cause(report, history, explanation, allowed) => {
            let cause = explanation_json(alloc, history.events(), explanation)?;
            let mut fields = cause_fields(alloc, cause)?;
            put_allowed(&mut fields, alloc, allowed)?;
            report_line(alloc, *report, fields)
        }
        Answer::Causes(report, history, explanations, summary) => {
            let fields = causes_fields(alloc, history.events(), explanations, summary)?;
            report_line(alloc, *report, fields)
        }
        Answer::Rejection(rejection) => rejection_line(alloc, rejection),
        Answer::Events(history, selection) => shown_json(alloc, *selection, history.events()),
        Answer::Outcomes(outcomes) => outcomes_line(alloc, outcomes),
    }
}
