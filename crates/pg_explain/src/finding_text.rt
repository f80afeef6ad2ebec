//! The text of what was found for a reason.

ghost use Rattle.std.specs.Prelude.{◌≡◌, ◌++◌, OnOk, string_bytes, codes};
ghost use Rattle.pg_explain.specs.Line.{hex, word_text, code_text};
ghost use Rattle.pg_explain.specs.Text.{numbered_text, limit_text};
ghost use Rattle.pg_explain.specs.Text.{order_text, want_name, wish_name, wish_text, tag_text};
ghost use Rattle.pg_explain.specs.Text.{tags_text, drop_text, now_text, verb, right_text};
ghost use Rattle.pg_explain.specs.Text.{by_text, flag_text, misfit_text, finding_text};

use crate::finding::{Finding, Limit, Misfit, Prevention, Tagged, Wish};
use crate::line::{event_at, push_code, push_kind, push_line_at, push_word};
use crate::names::{level_number, rights_text};
use crate::walk_text::{kind_name, push_held};
use pg_entry::{AccessKind, Kind, Level, Rights};
use pg_event::{Event, Want};
use std::alloc::AllocError;

/// Appends the line of the event with this number, where there is one. Fails only when out of
/// memory, and may then leave a part of the line.
pub fn push_numbered(text: &mut String, events: &[Event], number: u32) -> Result<(), AllocError>
    ensures { OnOk result
        (string_bytes text.new ≡ string_bytes text.old ++ numbered_text events.now number) }
{
    push_line_at(text, number, event_at(events, number))
}

fn push_limit(text: &mut String, limit: Limit) -> Result<(), AllocError>
    ensures { OnOk result
        (string_bytes text.new ≡ string_bytes text.old ++ limit_text limit) }
{
    match limit {
        Limit::Moment(moment) => write!(text, "moment {moment}"),
        Limit::Event(number) => write!(text, "event {number}"),
    }
}

fn push_order(text: &mut String, level: Level, moment: u32, limit: Limit) -> Result<(), AllocError>
    ensures { OnOk result
        (string_bytes text.new ≡ string_bytes text.old ++ order_text level moment limit) }
{
    let level = level_number(level);
    write!(text, "moments: level {level} at {moment} is above ")?;
    push_limit(text, limit)
}

fn want_name(want: Want) -> &'static str
    ensures { result.now ≡ want_name want }
{
    match want {
        Want::Leaf => "leaf",
        Want::Absent => "absent",
        Want::Reserved => "reserved",
        Want::Present => "table or leaf",
    }
}

fn wish_name(wish: Wish) -> &'static str
    ensures { result.now ≡ wish_name wish }
{
    match wish {
        Wish::Table => "table",
        Wish::Last(want) => want_name(want),
    }
}

fn push_wish(text: &mut String, level: Level, wish: Wish, kind: Kind) -> Result<(), AllocError>
    ensures { OnOk result
        (string_bytes text.new ≡ string_bytes text.old ++ wish_text level wish kind) }
{
    let wished = wish_name(wish);
    let level = level_number(level);
    let found = kind_name(kind);
    write!(text, "wished: {wished} at level {level}, found {found}")
}

fn push_tag(text: &mut String, tagged: Tagged) -> Result<(), AllocError>
    ensures { OnOk result
        (string_bytes text.new ≡ string_bytes text.old ++ tag_text tagged) }
{
    let Tagged { moment, pcid } = tagged;
    write!(text, "0x{pcid:x} at moment {moment}")
}

fn push_tags(text: &mut String, one: Tagged, other: Tagged) -> Result<(), AllocError>
    ensures { OnOk result
        (string_bytes text.new ≡ string_bytes text.old ++ tags_text one other) }
{
    text.push_str("pcids: ")?;
    push_tag(text, one)?;
    text.push_str(", ")?;
    push_tag(text, other)
}

/// Appends an entry of a cache that was dropped, and the event that did it.
fn push_drop(
    text: &mut String,
    name: &str,
    events: &[Event],
    level: Level,
    at: u32,
) -> Result<(), AllocError>
    ensures { OnOk result (string_bytes text.new
        ≡ string_bytes text.old ++ drop_text name.now events.now level at) }
{
    let level = level_number(level);
    write!(text, "dropped: {name} of level {level} by ")?;
    push_numbered(text, events, at)
}

fn push_now(
    text: &mut String,
    moment: u32,
    address: u64,
    value: u64,
    kind: Kind,
) -> Result<(), AllocError>
    ensures { OnOk result
        (string_bytes text.new ≡ string_bytes text.old ++ now_text moment address value kind) }
{
    text.push_str("held: ")?;
    push_held(text, address, value, kind)?;
    write!(text, " at the event, read at moment {moment}")
}

fn verb(is_allowed: bool) -> &'static str
    ensures { result.now ≡ verb is_allowed }
{
    if is_allowed { " allow " } else { " deny " }
}

fn by_text(prevention: Option<Prevention>) -> &'static str
    ensures { result.now ≡ by_text prevention }
{
    match prevention {
        None => "",
        Some(Prevention::Smap) => " by SMAP",
        Some(Prevention::Smep) => " by SMEP",
    }
}

fn push_right(
    text: &mut String,
    rights: Rights,
    access: AccessKind,
    is_allowed: bool,
    prevention: Option<Prevention>,
) -> Result<(), AllocError>
    ensures { OnOk result (string_bytes text.new
        ≡ string_bytes text.old ++ right_text rights access is_allowed prevention) }
{
    text.push_str("rights: ")?;
    text.push_str(rights_text(rights))?;
    text.push_str(verb(is_allowed))?;
    push_kind(text, access)?;
    text.push_str(by_text(prevention))
}

fn push_flag(text: &mut String, name: &str, address: u64, value: u64) -> Result<(), AllocError>
    ensures { OnOk result
        (string_bytes text.new ≡ string_bytes text.old ++ flag_text name.now address value) }
{
    text.push_str(name)?;
    push_word(text, address)?;
    write!(text, " = 0x{value:x} is 0")
}

/// Appends a word of table memory after a name.
fn push_named_word(text: &mut String, name: &str, address: u64) -> Result<(), AllocError>
    ensures { OnOk result
        (string_bytes text.new ≡ string_bytes text.old ++ (name.now ++ word_text address)) }
{
    text.push_str(name)?;
    push_word(text, address)
}

/// Appends two texts, one after the other.
fn push_both(text: &mut String, one: &str, other: &str) -> Result<(), AllocError>
    ensures { OnOk result
        (string_bytes text.new ≡ string_bytes text.old ++ (one.now ++ other.now)) }
{
    text.push_str(one)?;
    text.push_str(other)
}

fn push_misfit(text: &mut String, misfit: Misfit) -> Result<(), AllocError>
    ensures { OnOk result
        (string_bytes text.new ≡ string_bytes text.old ++ misfit_text misfit) }
{
    match misfit {
        Misfit::Moment(moment) => {
            write!(text, "assist: read at moment {moment}, not at the event")
        }
        Misfit::Word(address) => push_named_word(text, "assist: the word read last is ", address),
        Misfit::Kind(kind) => {
            push_both(text, "assist: dirty wishes leaf, found ", kind_name(kind))
        }
        Misfit::Rights(rights) => {
            push_both(
                text,
                "assist: dirty is denied by rights ",
                rights_text(rights),
            )
        }
    }
}

/// Appends the physical address, or the error code, that would have been right.
fn push_expected(text: &mut String, expected: u64) -> Result<(), AllocError>
    ensures { OnOk result
        (string_bytes text.new ≡ string_bytes text.old ++ (codes "expected: " ++ hex expected)) }
{
    write!(text, "expected: 0x{expected:x}")
}

fn push_expected_code(text: &mut String, expected: u16) -> Result<(), AllocError>
    ensures { OnOk result (string_bytes text.new
        ≡ string_bytes text.old ++ (codes "expected: " ++ code_text expected)) }
{
    text.push_str("expected: ")?;
    push_code(text, expected)
}

/// Appends what was found for a reason, without an end of the line. Fails only when out of memory,
/// and may then leave a part of the line.
pub fn push_finding(text: &mut String, events: &[Event], finding: Finding) -> Result<(), AllocError>
    ensures { OnOk result
        (string_bytes text.new ≡ string_bytes text.old ++ finding_text events.now finding) }
{
    match finding {
        Finding::Order {
            level,
            moment,
            limit,
        } => push_order(text, level, moment, limit),
        Finding::Entry { level, wish, found } => push_wish(text, level, wish, found),
        Finding::Context { first, other } => push_tags(text, first, other),
        Finding::StructureDropped { level, at } => {
            push_drop(text, "structure entry", events, level, at)
        }
        Finding::TranslationDropped { level, at } => {
            push_drop(text, "translation", events, level, at)
        }
        Finding::ForeignPcid { read, current } => push_tags(text, read, current),
        Finding::NotAtEvent {
            moment,
            address,
            value,
            kind,
        } => push_now(text, moment, address, value, kind),
        Finding::Rights {
            rights,
            access,
            is_allowed,
            prevention,
        } => push_right(text, rights, access, is_allowed, prevention),
        Finding::Answer { expected } => push_expected(text, expected),
        Finding::Code { expected } => push_expected_code(text, expected),
        Finding::Accessed { address, value, .. } => {
            push_flag(text, "accessed: bit 5 of ", address, value)
        }
        Finding::Dirty { address, value } => push_flag(text, "dirty: bit 6 of ", address, value),
        Finding::Assist(misfit) => push_misfit(text, misfit),
    }
}
