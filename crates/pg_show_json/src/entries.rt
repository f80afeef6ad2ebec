//! Entries of a walk as JSON.

ghost use Rattle.std.specs.Prelude.{◌≡◌, map, IfOk, OnOk};
ghost use Rattle.serde_json.specs.View.{view, members_view};
ghost use Rattle.pg_show_json.specs.Tree.{data_of, members_of, Fields as Told};
ghost use Rattle.pg_show_json.specs.Entries.{number_json, with_held, entry_json, walk_json};

use crate::fields::{Fields, list_of, put_count, put_hex, put_text};
use pg_chain::EntryRead;
use pg_entry::Kind;
use pg_explain::{WalkEntry, down_to_end, kind_name, level_number};
use serde_json::{Map, Value, put};
use std::alloc::{AllocError, Global};

/// The number of an event, or null where there is none.
pub fn number_json(number: Option<u32>) -> Value
    ensures { view result ≡ data_of (number_json number) }
{
    match number {
        None => Value::Null,
        Some(number) => Value::from(number),
    }
}

/// Puts a word, what it holds, and what that is.
pub fn put_held(
    fields: &mut Fields,
    alloc: Global,
    address: u64,
    value: u64,
    kind: Kind,
) -> Result<(), AllocError>
    ensures { (others : Told) → members_view fields.old.entries ≡ members_of others →
        OnOk result (members_view fields.new.entries
        ≡ members_of (with_held address value kind others)) }
{
    put_text(fields, alloc, "is", kind_name(kind))?;
    put_hex(fields, alloc, "value", value)?;
    put_hex(fields, alloc, "word", address)
}

fn entry_json(alloc: Global, entry: &WalkEntry) -> Result<Value, AllocError>
    ensures { IfOk result (λ v. view v ≡ data_of (entry_json entry.now)) }
{
    let EntryRead {
        level,
        address,
        value,
        moment,
        ..
    } = entry.step;
    let mut fields = Map::new(alloc);
    put(&mut fields, alloc, "written_by", number_json(entry.writer))?;
    put_held(&mut fields, alloc, address, value, entry.kind)?;
    put_hex(&mut fields, alloc, "pcid", entry.pcid as u64)?;
    put_count(&mut fields, alloc, "moment", moment as u64)?;
    put_count(&mut fields, alloc, "level", level_number(level) as u64)?;
    Ok(Value::Object(fields))
}

fn entries(alloc: Global, walk: &[WalkEntry]) -> Result<Vec<Value>, AllocError>
    ensures { IfOk result (λ vs. map view vs.items ≡ map (λ x. data_of (entry_json x)) walk.now) }
{
    let mut values = Vec::new(alloc);
    for entry in walk {
        let value = entry_json(alloc, entry)?;
        values.push(value)?;
    }
    Ok(values)
}

/// A walk: its entries down to the first that is no table. Fails only when out of memory.
pub fn walk_json(alloc: Global, walk: &[WalkEntry]) -> Result<Value, AllocError>
    ensures { IfOk result (λ v. view v ≡ data_of (walk_json walk.now)) }
{
    let values = entries(alloc, down_to_end(walk))?;
    Ok(list_of(values))
}
