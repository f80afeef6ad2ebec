//! Fields of an object, put in one after another.

ghost use Rattle.std.specs.Prelude.{◌≡◌, ◌++◌, List, map, IfOk, OnOk, codes, string_bytes};
ghost use Rattle.serde_json.specs.Data.{put};
ghost use Rattle.serde_json.specs.View.{view, members_view};
ghost use Rattle.pg_show_json.specs.Tree.{Json, Fields as Told, data_of, members_of};
ghost use Rattle.pg_show_json.specs.Tree.{flag, count, text, hex, list, elements};
ghost use Rattle.pg_show_json.specs.Tree.{counts, object, json_text, json_line};

use serde_json::{Map, Value};
use std::alloc::{AllocError, Global};

/// The version of the form of answers. It rises where a field changes its name, its type or its
/// meaning, or goes.
const FORMAT: u64 = 1;

/// The fields of an object.
pub type Fields = Map<String, Value>;

/// Puts a number.
pub fn put_count(
    fields: &mut Fields,
    alloc: Global,
    name: &str,
    number: u64,
) -> Result<(), AllocError>
    ensures { OnOk result (members_view fields.new.entries
        ≡ put name.now (data_of (count number)) (members_view fields.old.entries)) }
{
    serde_json::put(fields, alloc, name, Value::from(number))
}

/// Puts a truth value.
pub fn put_flag(
    fields: &mut Fields,
    alloc: Global,
    name: &str,
    is_so: bool,
) -> Result<(), AllocError>
    ensures { OnOk result (members_view fields.new.entries
        ≡ put name.now (data_of (flag is_so)) (members_view fields.old.entries)) }
{
    serde_json::put(fields, alloc, name, Value::Bool(is_so))
}

/// Puts a text.
pub fn put_text(
    fields: &mut Fields,
    alloc: Global,
    name: &str,
    told: &str,
) -> Result<(), AllocError>
    ensures { OnOk result (members_view fields.new.entries
        ≡ put name.now (data_of (text told.now)) (members_view fields.old.entries)) }
{
    let value = Value::try_from_str(alloc, told)?;
    serde_json::put(fields, alloc, name, value)
}

/// An address, or the bits of a register or an entry: `0x` and hexadecimal digits.
pub fn hex_json(alloc: Global, bits: u64) -> Result<Value, AllocError>
    ensures { IfOk result (λ v. view v ≡ data_of (hex bits)) }
{
    let told = format!(in alloc; "0x{bits:x}")?;
    Ok(Value::String(told))
}

/// Puts that.
pub fn put_hex(fields: &mut Fields, alloc: Global, name: &str, bits: u64) -> Result<(), AllocError>
    ensures { OnOk result (members_view fields.new.entries
        ≡ put name.now (data_of (hex bits)) (members_view fields.old.entries)) }
{
    let value = hex_json(alloc, bits)?;
    serde_json::put(fields, alloc, name, value)
}

/// The list of values.
pub fn list_of(values: Vec<Value>) -> Value
    ensures { (told : List Json) → map view values.items ≡ map data_of told →
        view result ≡ data_of (list (elements told)) }
{
    Value::Array(values)
}

fn numbers(alloc: Global, numbers: &[u32]) -> Result<Vec<Value>, AllocError>
    ensures { IfOk result (λ vs. map view vs.items ≡ map (λ n. data_of (count n)) numbers.now) }
{
    let mut values = Vec::new(alloc);
    for number in numbers {
        values.push(Value::from(*number))?;
    }
    Ok(values)
}

/// Numbers as a list.
pub fn numbers_json(alloc: Global, told: &[u32]) -> Result<Value, AllocError>
    ensures { IfOk result (λ v. view v ≡ data_of (counts told.now)) }
{
    let values = numbers(alloc, told)?;
    Ok(list_of(values))
}

/// The object of fields.
pub fn object_of(fields: Fields) -> Value
    ensures { (told : Told) → members_view fields.entries ≡ members_of told →
        view result ≡ data_of (object told) }
{
    Value::Object(fields)
}

/// The text of a value, and the end of its line.
fn text_line(alloc: Global, value: &Value) -> Result<String, AllocError>
    ensures { (told : Json) → view value.now ≡ data_of told →
        IfOk result (λ t. string_bytes t ≡ json_text told ++ codes "\n") }
{
    let mut text = value.to_string(alloc)?;
    text.push_str("\n")?;
    Ok(text)
}

/// The line of an answer that has these fields: an object of them and the version of the form.
pub fn line_of(alloc: Global, fields: Fields) -> Result<String, AllocError>
    ensures { (told : Told) → members_view fields.entries ≡ members_of told →
        IfOk result (λ t. string_bytes t ≡ json_line (object told)) }
{
    let mut fields = fields;
    put_count(&mut fields, alloc, "format", FORMAT)?;
    text_line(alloc, &Value::Object(fields))
}
