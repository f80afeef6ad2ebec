//! Events as JSON.

ghost use Rattle.std.specs.Prelude.{◌≡◌, IfOk, OnOk, codes};
ghost use Rattle.serde_json.specs.Data.{put as with_member};
ghost use Rattle.serde_json.specs.View.{view, members_view};
ghost use Rattle.pg_show_json.specs.Tree.{data_of, members_of, counts, Fields as Told};
ghost use Rattle.pg_show_json.specs.Events.{op_name, code_fields, outcome_json, asked_fields};
ghost use Rattle.pg_show_json.specs.Events.{write_fields, access_fields, assist_fields};
ghost use Rattle.pg_show_json.specs.Events.{root_fields, page_drop_fields, pcid_drop_fields};
ghost use Rattle.pg_show_json.specs.Events.{switch_fields, deed_fields, claim_fields, claim_json};
ghost use Rattle.pg_show_json.specs.Events.{with_moments, event_fields, event_json, began_fields};

use crate::fields::{Fields, numbers_json, put_count, put_flag, put_hex, put_text};
use pg_entry::{Op, has_bit};
use pg_event::{Event, Moments, Outcome, access_kind, processor_of, says_dirty};
use serde_json::{Map, Value, put};
use std::alloc::{AllocError, Global};

/// The name of an operation.
pub fn op_name(op: Op) -> &'static str
    ensures { result.now ≡ op_name op }
{
    match op {
        Op::Read => "read",
        Op::Write => "write",
        Op::Fetch => "fetch",
    }
}

fn code_fields(alloc: Global, code: u16) -> Result<Fields, AllocError>
    ensures { IfOk result (λ m. members_view m.entries ≡ members_of (code_fields code)) }
{
    let bits = code as u64;
    let mut fields = Map::new(alloc);
    put_flag(&mut fields, alloc, "fetch", has_bit(bits, 4))?;
    put_flag(&mut fields, alloc, "reserved", has_bit(bits, 3))?;
    put_flag(&mut fields, alloc, "user", has_bit(bits, 2))?;
    put_flag(&mut fields, alloc, "write", has_bit(bits, 1))?;
    put_flag(&mut fields, alloc, "present", has_bit(bits, 0))?;
    put_hex(&mut fields, alloc, "fault", bits)?;
    Ok(fields)
}

/// What an access got.
pub fn outcome_json(alloc: Global, outcome: Outcome) -> Result<Value, AllocError>
    ensures { IfOk result (λ v. view v ≡ data_of (outcome_json outcome)) }
{
    match outcome {
        Outcome::Page(page) => {
            let mut fields = Map::new(alloc);
            put_hex(&mut fields, alloc, "page", page)?;
            Ok(Value::Object(fields))
        }
        Outcome::Fault(code) => Ok(Value::Object(code_fields(alloc, code)?)),
    }
}

fn write_fields(alloc: Global, addr: u64, value: u64) -> Result<Fields, AllocError>
    ensures { IfOk result (λ m. members_view m.entries ≡ members_of (write_fields addr value)) }
{
    let mut fields = Map::new(alloc);
    put_hex(&mut fields, alloc, "value", value)?;
    put_hex(&mut fields, alloc, "word", addr)?;
    put_text(&mut fields, alloc, "kind", "write")?;
    Ok(fields)
}

/// What an access asks of the rights, by its flags, and its linear address.
fn asked_fields(alloc: Global, flags: u8, la: u64) -> Result<Fields, AllocError>
    ensures { IfOk result (λ m. members_view m.entries ≡ members_of (asked_fields flags la)) }
{
    let kind = access_kind(flags);
    let mut fields = Map::new(alloc);
    put_hex(&mut fields, alloc, "address", la)?;
    put_text(&mut fields, alloc, "operation", op_name(kind.op))?;
    put_flag(&mut fields, alloc, "ac", kind.ac)?;
    put_flag(&mut fields, alloc, "user", kind.user)?;
    Ok(fields)
}

fn access_fields(alloc: Global, flags: u8, la: u64, outcome: Outcome) -> Result<Fields, AllocError>
    ensures { IfOk result (λ m. members_view m.entries
        ≡ members_of (access_fields flags la outcome)) }
{
    let mut fields = asked_fields(alloc, flags, la)?;
    let got = outcome_json(alloc, outcome)?;
    put(&mut fields, alloc, "outcome", got)?;
    put_text(&mut fields, alloc, "kind", "access")?;
    Ok(fields)
}

fn assist_fields(alloc: Global, flags: u8, la: u64, word: u64) -> Result<Fields, AllocError>
    ensures { IfOk result (λ m. members_view m.entries
        ≡ members_of (assist_fields flags la word)) }
{
    let mut fields = asked_fields(alloc, flags, la)?;
    put_flag(&mut fields, alloc, "dirty", says_dirty(flags))?;
    put_hex(&mut fields, alloc, "word", word)?;
    put_text(&mut fields, alloc, "kind", "assist")?;
    Ok(fields)
}

fn root_fields(alloc: Global, operand: u64) -> Result<Fields, AllocError>
    ensures { IfOk result (λ m. members_view m.entries ≡ members_of (root_fields operand)) }
{
    let mut fields = Map::new(alloc);
    put_hex(&mut fields, alloc, "operand", operand)?;
    put_text(&mut fields, alloc, "kind", "cr3")?;
    Ok(fields)
}

fn page_drop_fields(alloc: Global, la: u64) -> Result<Fields, AllocError>
    ensures { IfOk result (λ m. members_view m.entries ≡ members_of (page_drop_fields la)) }
{
    let mut fields = Map::new(alloc);
    put_hex(&mut fields, alloc, "address", la)?;
    put_text(&mut fields, alloc, "kind", "invlpg")?;
    Ok(fields)
}

fn pcid_drop_fields(alloc: Global, kind: u8, pcid: u16, la: u64) -> Result<Fields, AllocError>
    ensures { IfOk result (λ m. members_view m.entries
        ≡ members_of (pcid_drop_fields kind pcid la)) }
{
    let mut fields = Map::new(alloc);
    put_hex(&mut fields, alloc, "address", la)?;
    put_hex(&mut fields, alloc, "pcid", pcid as u64)?;
    put_count(&mut fields, alloc, "type", kind as u64)?;
    put_text(&mut fields, alloc, "kind", "invpcid")?;
    Ok(fields)
}

fn switch_fields(alloc: Global, on: bool) -> Result<Fields, AllocError>
    ensures { IfOk result (λ m. members_view m.entries ≡ members_of (switch_fields on)) }
{
    let mut fields = Map::new(alloc);
    put_flag(&mut fields, alloc, "on", on)?;
    put_text(&mut fields, alloc, "kind", "pge")?;
    Ok(fields)
}

/// What an event did, without the moments that it names.
fn deed_fields(alloc: Global, event: &Event) -> Result<Fields, AllocError>
    ensures { IfOk result (λ m. members_view m.entries ≡ members_of (deed_fields event.now)) }
{
    match *event {
        Event::Write { addr, value, .. } => write_fields(alloc, addr, value),
        Event::Access {
            flags,
            la,
            outcome,
            ..
        } => access_fields(alloc, flags, la, outcome),
        Event::Assist {
            flags,
            la,
            word,
            ..
        } => assist_fields(alloc, flags, la, word),
        Event::MovCr3 { operand, .. } => root_fields(alloc, operand),
        Event::Invlpg { la, .. } => page_drop_fields(alloc, la),
        Event::Invpcid { kind, pcid, la, .. } => pcid_drop_fields(alloc, kind, pcid, la),
        Event::MovCr4Pge { on, .. } => switch_fields(alloc, on),
    }
}

fn claim_fields(alloc: Global, number: u64, event: &Event) -> Result<Fields, AllocError>
    ensures { IfOk result (λ m. members_view m.entries
        ≡ members_of (claim_fields number event.now)) }
{
    let mut fields = deed_fields(alloc, event)?;
    put_count(&mut fields, alloc, "cpu", processor_of(event) as u64)?;
    put_count(&mut fields, alloc, "event", number)?;
    Ok(fields)
}

/// An event with its number, without the moments that it names.
pub fn claim_json(alloc: Global, number: u64, event: &Event) -> Result<Value, AllocError>
    ensures { IfOk result (λ v. view v ≡ data_of (claim_json number event.now)) }
{
    Ok(Value::Object(claim_fields(alloc, number, event)?))
}

fn put_moments(fields: &mut Fields, alloc: Global, moments: &Moments) -> Result<(), AllocError>
    ensures { OnOk result (members_view fields.new.entries
        ≡ with_member (codes "moments") (data_of (counts moments.now))
        (members_view fields.old.entries)) }
{
    let told = numbers_json(alloc, moments.as_slice())?;
    put(fields, alloc, "moments", told)
}

/// Puts the moments that an event names.
fn put_named(fields: &mut Fields, alloc: Global, event: &Event) -> Result<(), AllocError>
    ensures { (others : Told) → members_view fields.old.entries ≡ members_of others →
        OnOk result (members_view fields.new.entries
        ≡ members_of (with_moments event.now others)) }
{
    match event {
        Event::Access { moments, .. } => put_moments(fields, alloc, moments),
        Event::Assist { moments, .. } => put_moments(fields, alloc, moments),
        Event::Write { .. }
        | Event::MovCr3 { .. }
        | Event::Invlpg { .. }
        | Event::Invpcid { .. }
        | Event::MovCr4Pge { .. } => Ok(()),
    }
}

/// The fields of an event with its number, and with the moments that it names.
pub fn event_fields(alloc: Global, number: u64, event: &Event) -> Result<Fields, AllocError>
    ensures { IfOk result (λ m. members_view m.entries
        ≡ members_of (event_fields number event.now)) }
{
    let mut fields = claim_fields(alloc, number, event)?;
    put_named(&mut fields, alloc, event)?;
    Ok(fields)
}

/// The object of these.
pub fn event_json(alloc: Global, number: u64, event: &Event) -> Result<Value, AllocError>
    ensures { IfOk result (λ v. view v ≡ data_of (event_json number event.now)) }
{
    Ok(Value::Object(event_fields(alloc, number, event)?))
}

/// The fields of an event with its number, and with how many events had ended when it began.
pub fn began_fields(
    alloc: Global,
    began: u64,
    number: u64,
    event: &Event,
) -> Result<Fields, AllocError>
    ensures { IfOk result (λ m. members_view m.entries
        ≡ members_of (began_fields began number event.now)) }
{
    let mut fields = claim_fields(alloc, number, event)?;
    put_count(&mut fields, alloc, "began", began)?;
    Ok(fields)
}
