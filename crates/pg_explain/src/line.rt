ghost use Rattle.std.specs.Prelude.{◌≡◌, ◌++◌, OnOk, codes, slice_get, string_bytes};
ghost use Rattle.pg_event.specs.Form.{access_kind};
ghost use Rattle.pg_explain.specs.Line.{mode_name, op_name, kind_text, access_text, bit_name};
ghost use Rattle.pg_explain.specs.Line.{bit_names, opening, in_brackets, code_text, outcome_text};
ghost use Rattle.pg_explain.specs.Line.{word_text, numbers_text, moments_text};
ghost use Rattle.pg_explain.specs.Line.{set_text, assist_text};
ghost use Rattle.pg_explain.specs.Line.{switch_text, event_text, claim_text, named_text};
ghost use Rattle.pg_explain.specs.Line.{event_line, line_at, processor_at};

use pg_entry::{AccessKind, Op, has_bit};
use pg_event::{Event, Moments, Outcome, Request, access_kind, processor_of, says_dirty};
use std::alloc::AllocError;

fn mode_name(kind: AccessKind) -> &'static str
    ensures { result.now ≡ mode_name kind }
{
    match (kind.user, kind.ac) {
        (true, true) => "user-ac",
        (true, false) => "user",
        (false, true) => "super-ac",
        (false, false) => "super",
    }
}

fn op_name(op: Op) -> &'static str
    ensures { result.now ≡ op_name op }
{
    match op {
        Op::Read => "read",
        Op::Write => "write",
        Op::Fetch => "fetch",
    }
}

/// Appends what an access asks of the rights: its mode and its operation.
pub(crate) fn push_kind(text: &mut String, kind: AccessKind) -> Result<(), AllocError>
    ensures { OnOk result
        (string_bytes text.new ≡ string_bytes text.old ++ kind_text kind) }
{
    let mode = mode_name(kind);
    let op = op_name(kind.op);
    write!(text, "{mode} {op}")
}

/// Appends an access by its flags, to a linear address.
pub(crate) fn push_access(text: &mut String, flags: u8, la: u64) -> Result<(), AllocError>
    ensures { OnOk result
        (string_bytes text.new ≡ string_bytes text.old ++ access_text flags la) }
{
    push_kind(text, access_kind(flags))?;
    write!(text, " 0x{la:x}")
}

/// The names of bits 0 to 4 of an error code.
fn bit_name(k: u32) -> &'static str
    ensures { result.now ≡ bit_name k }
{
    match k {
        0 => "present",
        1 => "write",
        2 => "user",
        3 => "reserved",
        _ => "fetch",
    }
}

/// Appends the name of a bit, the first with an opening bracket.
fn push_name(text: &mut String, is_opened: bool, name: &str) -> Result<(), AllocError>
    ensures { OnOk result
        (string_bytes text.new ≡ string_bytes text.old ++ (opening is_opened ++ name.now)) }
{
    if is_opened {
        write!(text, " {name}")
    } else {
        write!(text, " ({name}")
    }
}

/// Appends the names of the bits that are set in an error code, in brackets.
fn push_bits(text: &mut String, code: u16) -> Result<(), AllocError>
    ensures { OnOk result
        (string_bytes text.new ≡ string_bytes text.old ++ in_brackets (bit_names code)) }
{
    let mut is_opened = false;
    for k in 0..5 {
        if has_bit(code as u64, k) {
            push_name(text, is_opened, bit_name(k))?;
            is_opened = true;
        }
    }
    if is_opened {
        text.push_str(")")?;
    }
    Ok(())
}

/// Appends an error code.
pub(crate) fn push_code(text: &mut String, code: u16) -> Result<(), AllocError>
    ensures { OnOk result (string_bytes text.new ≡ string_bytes text.old ++ code_text code) }
{
    write!(text, "fault 0x{code:x}")?;
    push_bits(text, code)
}

pub(crate) fn push_outcome(text: &mut String, outcome: Outcome) -> Result<(), AllocError>
    ensures { OnOk result
        (string_bytes text.new ≡ string_bytes text.old ++ outcome_text outcome) }
{
    match outcome {
        Outcome::Page(page) => write!(text, "0x{page:x}"),
        Outcome::Fault(code) => push_code(text, code),
    }
}

/// Appends moments.
fn push_moments(text: &mut String, moments: &Moments) -> Result<(), AllocError>
    ensures { OnOk result
        (string_bytes text.new ≡ string_bytes text.old ++ moments_text moments.now) }
{
    text.push_str(" moments")?;
    push_numbers(text, moments.as_slice())
}

/// Appends numbers, each after a space.
pub(crate) fn push_numbers(text: &mut String, numbers: &[u32]) -> Result<(), AllocError>
    ensures { OnOk result
        (string_bytes text.new ≡ string_bytes text.old ++ numbers_text numbers.now) }
{
    for number in numbers {
        write!(text, " {number}")?;
    }
    Ok(())
}

fn set_text(flags: u8) -> &'static str
    ensures { result.now ≡ set_text flags }
{
    if says_dirty(flags) {
        "accessed dirty"
    } else {
        "accessed"
    }
}

/// Appends what MOV to CR4 did to CR4.PGE.
fn push_switch(text: &mut String, on: bool) -> Result<(), AllocError>
    ensures { OnOk result
        (string_bytes text.new ≡ string_bytes text.old ++ (codes "pge " ++ switch_text on)) }
{
    text.push_str(if on { "pge on" } else { "pge off" })
}

/// Appends a word of table memory by its physical address.
pub(crate) fn push_word(text: &mut String, address: u64) -> Result<(), AllocError>
    ensures { OnOk result (string_bytes text.new ≡ string_bytes text.old ++ word_text address) }
{
    write!(text, "[0x{address:x}]")
}

/// Appends an assist after its access.
pub(crate) fn push_assist(text: &mut String, flags: u8, word: u64) -> Result<(), AllocError>
    ensures { OnOk result
        (string_bytes text.new ≡ string_bytes text.old ++ assist_text flags word) }
{
    text.push_str(" assist ")?;
    push_word(text, word)?;
    text.push_str(" ")?;
    text.push_str(set_text(flags))
}

/// Appends an access with its answer.
fn push_answered(text: &mut String, flags: u8, la: u64, outcome: Outcome) -> Result<(), AllocError>
    ensures { OnOk result (string_bytes text.new ≡ string_bytes text.old
        ++ (access_text flags la ++ (codes " -> " ++ outcome_text outcome))) }
{
    push_access(text, flags, la)?;
    text.push_str(" -> ")?;
    push_outcome(text, outcome)
}

/// Appends an access with the assist that serves it.
fn push_assisted(text: &mut String, flags: u8, la: u64, word: u64) -> Result<(), AllocError>
    ensures { OnOk result (string_bytes text.new
        ≡ string_bytes text.old ++ (access_text flags la ++ assist_text flags word)) }
{
    push_access(text, flags, la)?;
    push_assist(text, flags, word)
}

/// Appends what an event did, without the moments that it names.
pub(crate) fn push_claim(text: &mut String, event: &Event) -> Result<(), AllocError>
    ensures { OnOk result
        (string_bytes text.new ≡ string_bytes text.old ++ claim_text event.now) }
{
    match *event {
        Event::Write { addr, value, .. } => write!(text, "write [0x{addr:x}] = 0x{value:x}"),
        Event::Access {
            flags,
            la,
            outcome,
            ..
        } => push_answered(text, flags, la, outcome),
        Event::Assist {
            flags,
            la,
            word,
            ..
        } => push_assisted(text, flags, la, word),
        Event::MovCr3 { operand, .. } => write!(text, "cr3 0x{operand:x}"),
        Event::Invlpg { la, .. } => write!(text, "invlpg 0x{la:x}"),
        Event::Invpcid { kind, pcid, la, .. } => {
            write!(text, "invpcid {kind} 0x{pcid:x} 0x{la:x}")
        }
        Event::MovCr4Pge { on, .. } => push_switch(text, on),
    }
}

/// Appends the moments that an event names.
fn push_named(text: &mut String, event: &Event) -> Result<(), AllocError>
    ensures { OnOk result
        (string_bytes text.new ≡ string_bytes text.old ++ named_text event.now) }
{
    match event.request() {
        Request::Access { moments, .. } | Request::Update { moments, .. } => {
            push_moments(text, &moments)
        }
        Request::Nothing => Ok(()),
    }
}

/// Appends what an event did.
fn push_deed(text: &mut String, event: &Event) -> Result<(), AllocError>
    ensures { OnOk result
        (string_bytes text.new ≡ string_bytes text.old ++ event_text event.now) }
{
    push_claim(text, event)?;
    push_named(text, event)
}

/// Appends the line of the event with this number, without its end. Fails only when out of memory,
/// and may then leave a part of the line.
pub(crate) fn push_event(text: &mut String, number: u64, event: &Event) -> Result<(), AllocError>
    ensures { OnOk result
        (string_bytes text.new ≡ string_bytes text.old ++ event_line number event.now) }
{
    let p = processor_of(event);
    write!(text, "{number} cpu {p} ")?;
    push_deed(text, event)
}

/// The event with this number, where there is one.
pub fn event_at(events: &[Event], number: u32) -> Option<Event>
    ensures { result ≡ slice_get events.now number }
{
    match events.get(number as usize) {
        Some(event) => Some(*event),
        None => None,
    }
}

/// The processor of the event with this number, or 0 where there is none.
pub fn processor_at(events: &[Event], number: u32) -> u16
    ensures { result ≡ processor_at events.now number }
{
    match events.get(number as usize) {
        Some(event) => processor_of(event),
        None => 0,
    }
}

/// Appends the line of an event with this number, where there is one.
pub(crate) fn push_line_at(
    text: &mut String,
    number: u32,
    event: Option<Event>,
) -> Result<(), AllocError>
    ensures { OnOk result
        (string_bytes text.new ≡ string_bytes text.old ++ line_at number event) }
{
    match event {
        None => Ok(()),
        Some(event) => push_event(text, number as u64, &event),
    }
}
