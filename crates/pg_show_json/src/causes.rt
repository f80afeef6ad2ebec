//! The cause of a rejection as JSON.

ghost use Rattle.std.specs.Prelude.{◌≡◌, IfOk, Some, None, slice_get};
ghost use Rattle.serde_json.specs.View.{view, members_view};
ghost use Rattle.pg_show_json.specs.Tree.{data_of, members_of};
ghost use Rattle.pg_show_json.specs.Causes.{ended_fields, explanation_json};
ghost use Rattle.pg_show_json.specs.Causes.{given_json, lacking_json, denial_json};

use crate::entries::walk_json;
use crate::events::{claim_json, outcome_json};
use crate::fields::{Fields, numbers_json, put_flag};
use crate::findings::finding_json;
use crate::lasts::{dropped_json, event_at, last_json};
use pg_event::{Event, Moments, Outcome};
use pg_explain::{Denial, Explanation, Finding, Takers, taken_in};
use pg_search::Last;
use serde_json::{Map, Value, put};
use std::alloc::{AllocError, Global};

/// Whether no moments prove an event, and when it would last have been witnessed.
fn final_fields(alloc: Global, events: &[Event], told: &Explanation) -> Result<Fields, AllocError>
    ensures { IfOk result (λ m. members_view m.entries
        ≡ members_of (ended_fields events.now None told.now.last)) }
{
    let mut fields = Map::new(alloc);
    let taken = taken_in(events, told.last);
    let told = last_json(alloc, taken, told.last)?;
    put(&mut fields, alloc, "last", told)?;
    put_flag(&mut fields, alloc, "final", true)?;
    Ok(fields)
}

/// Other moments that prove an event.
fn other_fields(
    alloc: Global,
    events: &[Event],
    moments: &Moments,
    last: Option<Last>,
) -> Result<Fields, AllocError>
    ensures { IfOk result (λ m. members_view m.entries
        ≡ members_of (ended_fields events.now (Some moments.now) last)) }
{
    let mut fields = Map::new(alloc);
    let told = numbers_json(alloc, moments.as_slice())?;
    put(&mut fields, alloc, "other_moments", told)?;
    put_flag(&mut fields, alloc, "final", false)?;
    Ok(fields)
}

fn ended_fields(alloc: Global, events: &[Event], told: &Explanation) -> Result<Fields, AllocError>
    ensures { IfOk result (λ m. members_view m.entries
        ≡ members_of (ended_fields events.now told.now.other told.now.last)) }
{
    match &told.other {
        None => final_fields(alloc, events, told),
        Some(moments) => other_fields(alloc, events, moments, told.last),
    }
}

/// The cause of a bad event, where these are the events of its run.
pub fn explanation_json(
    alloc: Global,
    events: &[Event],
    told: &Explanation,
) -> Result<Value, AllocError>
    ensures { IfOk result (λ v. view v ≡ data_of (explanation_json events.now told.now)) }
{
    let mut fields = ended_fields(alloc, events, told)?;
    let finding = finding_json(alloc, events, told.finding)?;
    put(&mut fields, alloc, "finding", finding)?;
    let walk = walk_json(alloc, told.walk.as_slice())?;
    put(&mut fields, alloc, "walk", walk)?;
    let event = event_at(alloc, events, told.number)?;
    put(&mut fields, alloc, "event", event)?;
    Ok(Value::Object(fields))
}

fn given_json(alloc: Global, given: Option<Outcome>) -> Result<Value, AllocError>
    ensures { IfOk result (λ v. view v ≡ data_of (given_json given)) }
{
    match given {
        None => Ok(Value::Null),
        Some(outcome) => outcome_json(alloc, outcome),
    }
}

fn lacking_json(alloc: Global, lacking: Option<Finding>) -> Result<Value, AllocError>
    ensures { IfOk result (λ v. view v ≡ data_of (lacking_json lacking)) }
{
    match lacking {
        None => Ok(Value::Null),
        Some(finding) => finding_json(alloc, &[], finding),
    }
}

/// The cause of the rejection of this event, which no moments witness, where these took its last
/// moments away.
pub fn denial_json(
    alloc: Global,
    event: &Event,
    takers: Takers,
    told: &Denial,
) -> Result<Value, AllocError>
    ensures { IfOk result (λ v. view v ≡ data_of (denial_json event.now takers told.now)) }
{
    let mut fields = Map::new(alloc);
    let dropped = dropped_json(alloc, told.dropped, takers.dropped)?;
    put(&mut fields, alloc, "dropped_by", dropped)?;
    let last = last_json(alloc, takers.taken, told.last)?;
    put(&mut fields, alloc, "last", last)?;
    let lacking = lacking_json(alloc, told.lacking)?;
    put(&mut fields, alloc, "lacking", lacking)?;
    let given = given_json(alloc, told.given)?;
    put(&mut fields, alloc, "given", given)?;
    let walk = walk_json(alloc, told.walk.as_slice())?;
    put(&mut fields, alloc, "now", walk)?;
    let event = claim_json(alloc, told.number as u64, event)?;
    put(&mut fields, alloc, "event", event)?;
    Ok(Value::Object(fields))
}
