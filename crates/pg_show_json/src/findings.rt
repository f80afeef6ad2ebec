//! What was found for a reason, as JSON.

ghost use Rattle.std.specs.Prelude.{◌≡◌, IfOk, OnOk};
ghost use Rattle.serde_json.specs.View.{view, members_view};
ghost use Rattle.pg_explain.specs.Text.{wish_name};
ghost use Rattle.pg_show_json.specs.Tree.{data_of, members_of, no_fields};
ghost use Rattle.pg_show_json.specs.Findings.{limit_name, limit_number, order_fields};
ghost use Rattle.pg_show_json.specs.Findings.{wish_fields, tags_fields, drop_fields};
ghost use Rattle.pg_show_json.specs.Findings.{held_fields, prevention_json, right_fields};
ghost use Rattle.pg_show_json.specs.Findings.{flag_fields, misfit_of, misfit_fields};
ghost use Rattle.pg_show_json.specs.Findings.{expected_fields, finding_fields, finding_json};

use crate::entries::put_held;
use crate::events::{op_name, outcome_json};
use crate::fields::{Fields, put_count, put_flag, put_hex, put_text};
use crate::lasts::event_at;
use pg_entry::{AccessKind, Kind, Level, Rights};
use pg_event::{Event, Outcome, Want};
use pg_explain::{
    Finding, Limit, Misfit, Prevention, Tagged, Wish, kind_name, level_number, rights_text,
};
use serde_json::{Map, Value, put};
use std::alloc::{AllocError, Global};

fn limit_name(limit: Limit) -> &'static str
    ensures { result.now ≡ limit_name limit }
{
    match limit {
        Limit::Moment(_) => "moment",
        Limit::Event(_) => "event",
    }
}

fn limit_number(limit: Limit) -> u32
    ensures { result ≡ limit_number limit }
{
    match limit {
        Limit::Moment(moment) => moment,
        Limit::Event(number) => number,
    }
}

fn order_fields(
    alloc: Global,
    level: Level,
    moment: u32,
    limit: Limit,
) -> Result<Fields, AllocError>
    ensures { IfOk result (λ m. members_view m.entries
        ≡ members_of (order_fields level moment limit)) }
{
    let mut fields = Map::new(alloc);
    put_count(&mut fields, alloc, "limit", limit_number(limit) as u64)?;
    put_text(&mut fields, alloc, "above", limit_name(limit))?;
    put_count(&mut fields, alloc, "moment", moment as u64)?;
    put_count(&mut fields, alloc, "level", level_number(level) as u64)?;
    put_text(&mut fields, alloc, "finding", "moments")?;
    Ok(fields)
}

fn wish_name(wish: Wish) -> &'static str
    ensures { result.now ≡ wish_name wish }
{
    match wish {
        Wish::Table => "table",
        Wish::Last(Want::Leaf) => "leaf",
        Wish::Last(Want::Absent) => "absent",
        Wish::Last(Want::Reserved) => "reserved",
        Wish::Last(Want::Present) => "table or leaf",
    }
}

fn wish_fields(alloc: Global, level: Level, wish: Wish, found: Kind) -> Result<Fields, AllocError>
    ensures { IfOk result (λ m. members_view m.entries
        ≡ members_of (wish_fields level wish found)) }
{
    let mut fields = Map::new(alloc);
    put_text(&mut fields, alloc, "found", kind_name(found))?;
    put_count(&mut fields, alloc, "level", level_number(level) as u64)?;
    put_text(&mut fields, alloc, "wished", wish_name(wish))?;
    put_text(&mut fields, alloc, "finding", "wished")?;
    Ok(fields)
}

fn tags_fields(alloc: Global, one: Tagged, other: Tagged) -> Result<Fields, AllocError>
    ensures { IfOk result (λ m. members_view m.entries ≡ members_of (tags_fields one other)) }
{
    let mut fields = Map::new(alloc);
    put_count(&mut fields, alloc, "other_moment", other.moment as u64)?;
    put_hex(&mut fields, alloc, "other_pcid", other.pcid as u64)?;
    put_count(&mut fields, alloc, "moment", one.moment as u64)?;
    put_hex(&mut fields, alloc, "pcid", one.pcid as u64)?;
    put_text(&mut fields, alloc, "finding", "pcids")?;
    Ok(fields)
}

fn drop_fields(
    alloc: Global,
    name: &str,
    events: &[Event],
    level: Level,
    at: u32,
) -> Result<Fields, AllocError>
    ensures { IfOk result (λ m. members_view m.entries
        ≡ members_of (drop_fields name.now events.now level at)) }
{
    let mut fields = Map::new(alloc);
    let by = event_at(alloc, events, at)?;
    put(&mut fields, alloc, "by", by)?;
    put_count(&mut fields, alloc, "level", level_number(level) as u64)?;
    put_text(&mut fields, alloc, "entry", name)?;
    put_text(&mut fields, alloc, "finding", "dropped")?;
    Ok(fields)
}

fn held_fields(
    alloc: Global,
    moment: u32,
    address: u64,
    value: u64,
    kind: Kind,
) -> Result<Fields, AllocError>
    ensures { IfOk result (λ m. members_view m.entries
        ≡ members_of (held_fields moment address value kind)) }
{
    let mut fields = Map::new(alloc);
    put_count(&mut fields, alloc, "moment", moment as u64)?;
    put_held(&mut fields, alloc, address, value, kind)?;
    put_text(&mut fields, alloc, "finding", "held")?;
    Ok(fields)
}

fn prevention_json(alloc: Global, prevention: Option<Prevention>) -> Result<Value, AllocError>
    ensures { IfOk result (λ v. view v ≡ data_of (prevention_json prevention)) }
{
    match prevention {
        None => Ok(Value::Null),
        Some(Prevention::Smap) => Value::try_from_str(alloc, "SMAP"),
        Some(Prevention::Smep) => Value::try_from_str(alloc, "SMEP"),
    }
}

fn right_fields(
    alloc: Global,
    rights: Rights,
    access: AccessKind,
    is_allowed: bool,
    prevention: Option<Prevention>,
) -> Result<Fields, AllocError>
    ensures { IfOk result (λ m. members_view m.entries
        ≡ members_of (right_fields rights access is_allowed prevention)) }
{
    let mut fields = Map::new(alloc);
    let by = prevention_json(alloc, prevention)?;
    put(&mut fields, alloc, "by", by)?;
    put_text(&mut fields, alloc, "operation", op_name(access.op))?;
    put_flag(&mut fields, alloc, "ac", access.ac)?;
    put_flag(&mut fields, alloc, "user", access.user)?;
    put_flag(&mut fields, alloc, "allowed", is_allowed)?;
    put_text(&mut fields, alloc, "rights", rights_text(rights))?;
    put_text(&mut fields, alloc, "finding", "rights")?;
    Ok(fields)
}

fn flag_fields(alloc: Global, name: &str, address: u64, value: u64) -> Result<Fields, AllocError>
    ensures { IfOk result (λ m. members_view m.entries
        ≡ members_of (flag_fields name.now address value)) }
{
    let mut fields = Map::new(alloc);
    put_hex(&mut fields, alloc, "value", value)?;
    put_hex(&mut fields, alloc, "word", address)?;
    put_text(&mut fields, alloc, "finding", name)?;
    Ok(fields)
}

fn put_misfit(fields: &mut Fields, alloc: Global, misfit: Misfit) -> Result<(), AllocError>
    ensures { OnOk result (members_view fields.old.entries ≡ members_of no_fields →
        members_view fields.new.entries ≡ members_of (misfit_of misfit)) }
{
    match misfit {
        Misfit::Moment(moment) => put_count(fields, alloc, "moment", moment as u64),
        Misfit::Word(address) => put_hex(fields, alloc, "word", address),
        Misfit::Kind(kind) => put_text(fields, alloc, "found", kind_name(kind)),
        Misfit::Rights(rights) => put_text(fields, alloc, "rights", rights_text(rights)),
    }
}

fn misfit_fields(alloc: Global, misfit: Misfit) -> Result<Fields, AllocError>
    ensures { IfOk result (λ m. members_view m.entries ≡ members_of (misfit_fields misfit)) }
{
    let mut fields = Map::new(alloc);
    put_misfit(&mut fields, alloc, misfit)?;
    put_text(&mut fields, alloc, "finding", "assist")?;
    Ok(fields)
}

fn expected_fields(alloc: Global, expected: Outcome) -> Result<Fields, AllocError>
    ensures { IfOk result (λ m. members_view m.entries ≡ members_of (expected_fields expected)) }
{
    let mut fields = Map::new(alloc);
    let outcome = outcome_json(alloc, expected)?;
    put(&mut fields, alloc, "outcome", outcome)?;
    put_text(&mut fields, alloc, "finding", "expected")?;
    Ok(fields)
}

fn finding_fields(alloc: Global, events: &[Event], finding: Finding) -> Result<Fields, AllocError>
    ensures { IfOk result (λ m. members_view m.entries
        ≡ members_of (finding_fields events.now finding)) }
{
    match finding {
        Finding::Order {
            level,
            moment,
            limit,
        } => order_fields(alloc, level, moment, limit),
        Finding::Entry { level, wish, found } => wish_fields(alloc, level, wish, found),
        Finding::Context { first, other } => tags_fields(alloc, first, other),
        Finding::StructureDropped { level, at } => {
            drop_fields(alloc, "structure entry", events, level, at)
        }
        Finding::TranslationDropped { level, at } => {
            drop_fields(alloc, "translation", events, level, at)
        }
        Finding::ForeignPcid { read, current } => tags_fields(alloc, read, current),
        Finding::NotAtEvent {
            moment,
            address,
            value,
            kind,
        } => held_fields(alloc, moment, address, value, kind),
        Finding::Rights {
            rights,
            access,
            is_allowed,
            prevention,
        } => right_fields(alloc, rights, access, is_allowed, prevention),
        Finding::Answer { expected } => expected_fields(alloc, Outcome::Page(expected)),
        Finding::Code { expected } => expected_fields(alloc, Outcome::Fault(expected)),
        Finding::Accessed { address, value, .. } => {
            flag_fields(alloc, "accessed", address, value)
        }
        Finding::Dirty { address, value } => flag_fields(alloc, "dirty", address, value),
        Finding::Assist(misfit) => misfit_fields(alloc, misfit),
    }
}

/// What was found for a reason, where these are the events of its run.
pub(crate) fn finding_json(
    alloc: Global,
    events: &[Event],
    finding: Finding,
) -> Result<Value, AllocError>
    ensures { IfOk result (λ v. view v ≡ data_of (finding_json events.now finding)) }
{
    Ok(Value::Object(finding_fields(alloc, events, finding)?))
}
