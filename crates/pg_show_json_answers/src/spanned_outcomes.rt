//! The outcomes of an event of a record with no one order, as JSON.

ghost use Rattle.std.specs.Prelude.{◌≡◌, IfOk, string_bytes};
ghost use Rattle.pg_show_json.specs.Tree.{json_line};
ghost use Rattle.pg_report.specs.Changes.{filled};
ghost use Rattle.pg_span_verdict.specs.Verdicts.{IsOrderedRun, IsVerdict};
ghost use Rattle.pg_show_json_answers.specs.SpannedOutcomes.{ordered_outcomes_json, GivesTold};
ghost use Rattle.pg_show_json_answers.specs.SpannedOutcomes.{GivesOutcomesIn, GivesOutcomes};
ghost use Rattle.pg_show_json_answers.specs.SpannedOutcomes.{AnswersOutcomes};

use crate::outcomes::event_outcomes_fields;
use crate::spanned_answers::{give_line, give_verdict};
use crate::spanned_refusals::tell_memory;
use pg_answers::event_outcomes_status;
use pg_codec::Sink;
use pg_show_json::{line_of, number_json};
use pg_span_answers::{OrderedOutcomes, outcomes_in_order};
use pg_span_run::SpannedRun;
use pg_span_verdict::{Verdict, find_ordered_run};
use serde_json::put;
use std::alloc::{AllocError, Global};

/// The line of them.
fn outcomes_line(alloc: Global, told: &OrderedOutcomes) -> Result<String, AllocError>
    ensures { IfOk result (λ t. string_bytes t ≡ json_line (ordered_outcomes_json told.now)) }
{
    let mut fields = event_outcomes_fields(alloc, &told.outcomes)?;
    put(&mut fields, alloc, "place", number_json(told.place))?;
    line_of(alloc, fields)
}

/// Writes them, once they are known.
fn give_told<O: Sink, E: Sink>(
    alloc: Global,
    told: &OrderedOutcomes,
    output: &mut O,
    errors: &mut E,
) -> u8
    ensures { GivesTold told.now
        (filled O.Sink output.old output.new) (filled E.Sink errors.old errors.new) result }
{
    match outcomes_line(alloc, told) {
        Ok(text) => {
            let status = event_outcomes_status(&told.outcomes);
            give_line(output, errors, text.as_str(), status)
        }
        Err(_) => tell_memory(output, errors),
    }
}

/// Writes the outcomes of an event in an order that has a run.
fn give_outcomes<O: Sink, E: Sink>(
    alloc: Global,
    event: Option<u32>,
    most: u32,
    run: &SpannedRun,
    order: &[u32],
    output: &mut O,
    errors: &mut E,
) -> u8
    requires { IsOrderedRun run.now order.now }
    ensures { GivesOutcomesIn event most run.now order.now
        (filled O.Sink output.old output.new) (filled E.Sink errors.old errors.new) result }
{
    match outcomes_in_order(alloc, run, order, event, most) {
        Ok(told) => give_told(alloc, &told, output, errors),
        Err(_) => tell_memory(output, errors),
    }
}

/// Writes them of a yes, and another verdict itself.
fn give_outcomes_if<O: Sink, E: Sink>(
    alloc: Global,
    event: Option<u32>,
    most: u32,
    run: &SpannedRun,
    verdict: &Verdict,
    output: &mut O,
    errors: &mut E,
) -> u8
    requires { IsVerdict run.now verdict.now }
    ensures { GivesOutcomes event most run.now verdict.now
        (filled O.Sink output.old output.new) (filled E.Sink errors.old errors.new) result }
{
    match verdict {
        Verdict::Yes(order) => give_outcomes(alloc, event, most, run, order, output, errors),
        Verdict::Never(..) => give_verdict(alloc, run, verdict, output, errors),
        Verdict::NoneOfAll(_) => give_verdict(alloc, run, verdict, output, errors),
        Verdict::Undecided(_) => give_verdict(alloc, run, verdict, output, errors),
    }
}

/// Looks for an order of a run's events, and writes the outcomes of an event in it, or the verdict
/// where there is none.
pub(crate) fn answer_outcomes<O: Sink, E: Sink>(
    alloc: Global,
    event: Option<u32>,
    most: u32,
    run: &SpannedRun,
    output: &mut O,
    errors: &mut E,
) -> u8
    ensures { AnswersOutcomes event most run.now
        (filled O.Sink output.old output.new) (filled E.Sink errors.old errors.new) result }
{
    match find_ordered_run(alloc, run) {
        Ok(verdict) => give_outcomes_if(alloc, event, most, run, &verdict, output, errors),
        Err(_) => tell_memory(output, errors),
    }
}
