//! Which events were deduced to come first, as JSON.

ghost use Rattle.std.specs.Prelude.{◌≡◌, map, IfOk};
ghost use Rattle.serde_json.specs.View.{view};
ghost use Rattle.pg_show_json.specs.Tree.{data_of};
ghost use Rattle.pg_show_json_answers.specs.Verdicts.{edge_json, edges_json};

use pg_show_json::{list_of, put_count};
use pg_span_refute::Edge;
use serde_json::{Map, Value};
use std::alloc::{AllocError, Global};

fn edge_json(alloc: Global, edge: Edge) -> Result<Value, AllocError>
    ensures { IfOk result (λ v. view v ≡ data_of (edge_json edge)) }
{
    let mut fields = Map::new(alloc);
    put_count(&mut fields, alloc, "second", edge.second as u64)?;
    put_count(&mut fields, alloc, "first", edge.first as u64)?;
    Ok(Value::Object(fields))
}

fn each_edge(alloc: Global, edges: &[Edge]) -> Result<Vec<Value>, AllocError>
    ensures { IfOk result (λ vs. map view vs.items ≡ map (λ x. data_of (edge_json x)) edges.now) }
{
    let mut values = Vec::new(alloc);
    for edge in edges {
        let value = edge_json(alloc, *edge)?;
        values.push(value)?;
    }
    Ok(values)
}

/// The edges, an object each.
pub(crate) fn edges_json(alloc: Global, edges: &[Edge]) -> Result<Value, AllocError>
    ensures { IfOk result (λ v. view v ≡ data_of (edges_json edges.now)) }
{
    let values = each_edge(alloc, edges)?;
    Ok(list_of(values))
}
