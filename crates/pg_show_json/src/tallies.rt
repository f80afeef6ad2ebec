//! What bad events have in common, as JSON.

ghost use Rattle.std.specs.Prelude.{◌≡◌, map, IfOk};
ghost use Rattle.serde_json.specs.View.{view};
ghost use Rattle.pg_show_json.specs.Tree.{data_of, count, counts, hex, hexes};
ghost use Rattle.pg_show_json.specs.Tallies.{tally_json, tallies_json};

use crate::fields::{hex_json, list_of, put_count, put_text};
use pg_explain::Tally;
use pg_report::{reason_name, reason_number};
use serde_json::{Map, Value, put};
use std::alloc::{AllocError, Global};

fn numbers(alloc: Global, numbers: &[u64]) -> Result<Vec<Value>, AllocError>
    ensures { IfOk result (λ vs. map view vs.items ≡ map (λ n. data_of (count n)) numbers.now) }
{
    let mut values = Vec::new(alloc);
    for number in numbers {
        values.push(Value::from(*number))?;
    }
    Ok(values)
}

fn addresses(alloc: Global, addresses: &[u64]) -> Result<Vec<Value>, AllocError>
    ensures { IfOk result (λ vs. map view vs.items ≡ map (λ n. data_of (hex n)) addresses.now) }
{
    let mut values = Vec::new(alloc);
    for address in addresses {
        let value = hex_json(alloc, *address)?;
        values.push(value)?;
    }
    Ok(values)
}

fn numbers_json(alloc: Global, told: &[u64]) -> Result<Value, AllocError>
    ensures { IfOk result (λ v. view v ≡ data_of (counts told.now)) }
{
    let values = numbers(alloc, told)?;
    Ok(list_of(values))
}

/// Addresses as a list.
pub fn addresses_json(alloc: Global, told: &[u64]) -> Result<Value, AllocError>
    ensures { IfOk result (λ v. view v ≡ data_of (hexes told.now)) }
{
    let values = addresses(alloc, told)?;
    Ok(list_of(values))
}

fn tally_json(alloc: Global, tally: &Tally) -> Result<Value, AllocError>
    ensures { IfOk result (λ v. view v ≡ data_of (tally_json tally.now)) }
{
    let mut fields = Map::new(alloc);
    let pages = addresses_json(alloc, tally.pages.as_slice())?;
    put(&mut fields, alloc, "pages", pages)?;
    let processors = numbers_json(alloc, tally.processors.as_slice())?;
    put(&mut fields, alloc, "cpus", processors)?;
    put_count(&mut fields, alloc, "first", tally.first as u64)?;
    put_count(&mut fields, alloc, "count", tally.count)?;
    put_text(&mut fields, alloc, "reason_name", reason_name(tally.reason))?;
    put_count(
        &mut fields,
        alloc,
        "reason",
        reason_number(tally.reason) as u64,
    )?;
    Ok(Value::Object(fields))
}

fn each(alloc: Global, tallies: &[Tally]) -> Result<Vec<Value>, AllocError>
    ensures { IfOk result (λ vs. map view vs.items
        ≡ map (λ t. data_of (tally_json t)) tallies.now) }
{
    let mut values = Vec::new(alloc);
    for tally in tallies {
        let value = tally_json(alloc, tally)?;
        values.push(value)?;
    }
    Ok(values)
}

/// Tallies, as a list.
pub fn tallies_json(alloc: Global, tallies: &[Tally]) -> Result<Value, AllocError>
    ensures { IfOk result (λ v. view v ≡ data_of (tallies_json tallies.now)) }
{
    let values = each(alloc, tallies)?;
    Ok(list_of(values))
}
