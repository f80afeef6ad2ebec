//! What may come of an event, as JSON.

ghost use Rattle.std.specs.Prelude.{◌≡◌, List, codes, map, take, Some, IfOk, OnOk, string_bytes};
ghost use Rattle.serde_json.specs.View.{view, members_view};
ghost use Rattle.pg_show_json.specs.Tree.{Fields as ToldFields, data_of, members_of, counts, field};
ghost use Rattle.pg_show_json.specs.Tree.{no_fields, object, json_line};
ghost use Rattle.pg_show_json_answers.specs.Answers.{with_result, allowed_json, asked_fields};
ghost use Rattle.pg_show_json_answers.specs.Answers.{with_allowed, word_json, flags_fields};
ghost use Rattle.pg_show_json_answers.specs.Answers.{given_fields, told_json};
ghost use Rattle.pg_show_json_answers.specs.Answers.{outcomes_fields, by_json, assist_fields};
ghost use Rattle.pg_show_json_answers.specs.Answers.{no_access_fields, event_outcomes_fields};

use pg_answers::{
    AccessOutcomes, AssistOutcome, EventOutcomes, MOST_ALLOWED, NeededFlags, OutcomeWalk,
    first_allowed,
};
use pg_event::{Event, Moments, Outcome};
use pg_outcomes::Allowed;
use pg_show_json::{
    Fields, addresses_json, claim_json, hex_json, line_of, list_of, number_json, numbers_json,
    object_of, put_count, put_hex, walk_json,
};
use serde_json::{Map, Value, put};
use std::alloc::{AllocError, Global};

/// Puts an outcome.
fn put_result(fields: &mut Fields, alloc: Global, outcome: Outcome) -> Result<(), AllocError>
    ensures { (told : ToldFields) → members_view fields.old.entries ≡ members_of told →
        OnOk result (members_view fields.new.entries ≡ members_of (with_result outcome told)) }
{
    match outcome {
        Outcome::Page(page) => put_hex(fields, alloc, "page", page),
        Outcome::Fault(code) => put_hex(fields, alloc, "fault", code as u64),
    }
}

/// Moments alone.
fn by_fields(alloc: Global, moments: &[u32]) -> Result<Fields, AllocError>
    ensures { IfOk result (λ m. members_view m.entries
        ≡ members_of (field (codes "by") (counts moments.now) no_fields)) }
{
    let mut fields = Map::new(alloc);
    let by = numbers_json(alloc, moments)?;
    put(&mut fields, alloc, "by", by)?;
    Ok(fields)
}

fn allowed_json(alloc: Global, allowed: &Allowed) -> Result<Value, AllocError>
    ensures { IfOk result (λ v. view v ≡ data_of (allowed_json allowed.now)) }
{
    let mut fields = by_fields(alloc, allowed.moments.as_slice())?;
    put_result(&mut fields, alloc, allowed.outcome)?;
    Ok(object_of(fields))
}

fn each(alloc: Global, found: &[Allowed]) -> Result<Vec<Value>, AllocError>
    ensures { IfOk result (λ vs. map view vs.items
        ≡ map (λ x. data_of (allowed_json x)) found.now) }
{
    let mut values = Vec::new(alloc);
    for allowed in found {
        let value = allowed_json(alloc, allowed)?;
        values.push(value)?;
    }
    Ok(values)
}

/// Puts what an access might have come to, behind the cause of its rejection.
pub(crate) fn put_allowed(
    fields: &mut Fields,
    alloc: Global,
    allowed: &Option<Vec<Allowed>>,
) -> Result<(), AllocError>
    ensures { (told : ToldFields) → members_view fields.old.entries ≡ members_of told → OnOk result
        (members_view fields.new.entries ≡ members_of (with_allowed allowed.now told)) }
{
    match allowed {
        None => Ok(()),
        Some(found) => {
            put_count(fields, alloc, "allowed_count", found.len() as u64)?;
            let told = each(alloc, first_allowed(found, MOST_ALLOWED))?;
            put(fields, alloc, "allowed", list_of(told))
        }
    }
}

/// The event, without its moments.
fn asked_fields(alloc: Global, number: u32, event: &Event) -> Result<Fields, AllocError>
    ensures { IfOk result (λ m. members_view m.entries
        ≡ members_of (asked_fields number event.now)) }
{
    let mut fields = Map::new(alloc);
    let told = claim_json(alloc, number as u64, event)?;
    put(&mut fields, alloc, "event", told)?;
    Ok(fields)
}

/// A word, or null where there is none.
fn word_json(alloc: Global, word: Option<u64>) -> Result<Value, AllocError>
    ensures { IfOk result (λ v. view v ≡ data_of (word_json word)) }
{
    match word {
        Some(word) => hex_json(alloc, word),
        None => Ok(Value::Null),
    }
}

/// The words that need flags.
fn needed_fields(alloc: Global, needed: &NeededFlags) -> Result<Fields, AllocError>
    ensures { IfOk result (λ m. members_view m.entries
        ≡ members_of (flags_fields (Some needed.now))) }
{
    let mut fields = Map::new(alloc);
    let accessed = addresses_json(alloc, &needed.accessed)?;
    put(&mut fields, alloc, "accessed", accessed)?;
    let dirty = word_json(alloc, needed.dirty)?;
    put(&mut fields, alloc, "dirty", dirty)?;
    Ok(fields)
}

/// The words that need flags, of a record that is judged by them.
fn flags_fields(alloc: Global, flags: &Option<NeededFlags>) -> Result<Fields, AllocError>
    ensures { IfOk result (λ m. members_view m.entries ≡ members_of (flags_fields flags.now)) }
{
    match flags {
        Some(needed) => needed_fields(alloc, needed),
        None => Ok(Map::new(alloc)),
    }
}

/// What gives an outcome.
fn given_fields(alloc: Global, told: &OutcomeWalk) -> Result<Fields, AllocError>
    ensures { IfOk result (λ m. members_view m.entries ≡ members_of (given_fields told.now)) }
{
    let mut fields = flags_fields(alloc, &told.flags)?;
    let walk = walk_json(alloc, &told.walk)?;
    put(&mut fields, alloc, "walk", walk)?;
    put(&mut fields, alloc, "cached_since", number_json(told.since))?;
    Ok(fields)
}

/// An outcome, and what gives it.
fn told_json(alloc: Global, told: &OutcomeWalk) -> Result<Value, AllocError>
    ensures { IfOk result (λ v. view v ≡ data_of (told_json told.now)) }
{
    let mut fields = given_fields(alloc, told)?;
    let by = numbers_json(alloc, told.allowed.moments.as_slice())?;
    put(&mut fields, alloc, "by", by)?;
    put_result(&mut fields, alloc, told.allowed.outcome)?;
    Ok(object_of(fields))
}

fn each_told(alloc: Global, told: &[OutcomeWalk]) -> Result<Vec<Value>, AllocError>
    ensures { IfOk result (λ vs. map view vs.items
        ≡ map (λ x. data_of (told_json x)) told.now) }
{
    let mut values = Vec::new(alloc);
    for outcome in told {
        let value = told_json(alloc, outcome)?;
        values.push(value)?;
    }
    Ok(values)
}

fn outcomes_fields(alloc: Global, outcomes: &AccessOutcomes) -> Result<Fields, AllocError>
    ensures { IfOk result (λ m. members_view m.entries
        ≡ members_of (outcomes_fields outcomes.now)) }
{
    let mut fields = asked_fields(alloc, outcomes.number, &outcomes.event)?;
    put_count(&mut fields, alloc, "count", outcomes.found.len() as u64)?;
    let told = each_told(alloc, &outcomes.told)?;
    put(&mut fields, alloc, "outcomes", list_of(told))?;
    Ok(fields)
}

/// Moments, or null where there are none.
fn by_json(alloc: Global, moments: Option<Moments>) -> Result<Value, AllocError>
    ensures { IfOk result (λ v. view v ≡ data_of (by_json moments)) }
{
    match moments {
        Some(moments) => numbers_json(alloc, moments.as_slice()),
        None => Ok(Value::Null),
    }
}

fn assist_fields(alloc: Global, assist: &AssistOutcome) -> Result<Fields, AllocError>
    ensures { IfOk result (λ m. members_view m.entries ≡ members_of (assist_fields assist.now)) }
{
    let mut fields = asked_fields(alloc, assist.number, &assist.event)?;
    let by = by_json(alloc, assist.moments)?;
    put(&mut fields, alloc, "by", by)?;
    Ok(fields)
}

fn no_access_fields(alloc: Global, number: Option<u32>) -> Result<Fields, AllocError>
    ensures { IfOk result (λ m. members_view m.entries ≡ members_of (no_access_fields number)) }
{
    let mut fields = Map::new(alloc);
    put(&mut fields, alloc, "no_access", number_json(number))?;
    Ok(fields)
}

/// The fields of the outcomes of an event. Fails only when out of memory.
pub(crate) fn event_outcomes_fields(
    alloc: Global,
    outcomes: &EventOutcomes,
) -> Result<Fields, AllocError>
    ensures { IfOk result (λ m. members_view m.entries
        ≡ members_of (event_outcomes_fields outcomes.now)) }
{
    match outcomes {
        EventOutcomes::Access(outcomes) => outcomes_fields(alloc, outcomes),
        EventOutcomes::Assist(assist) => assist_fields(alloc, assist),
        EventOutcomes::NoAccess(number) => no_access_fields(alloc, *number),
    }
}

/// The line of what may come of an event.
pub(crate) fn outcomes_line(alloc: Global, outcomes: &EventOutcomes) -> Result<String, AllocError>
    ensures { IfOk result (λ t. string_bytes t
        ≡ json_line (object (event_outcomes_fields outcomes.now))) }
{
    let fields = event_outcomes_fields(alloc, outcomes)?;
    line_of(alloc, fields)
}
