//! The text of which entries a walk may read, and which it can't.

ghost use Rattle.std.specs.Prelude.{◌≡◌, ◌++◌, ◌≤◌, OnOk, string_bytes};
ghost use Rattle.pg_span_text.specs.Text.{kind_text, writer_text, held_text, level_text};
ghost use Rattle.pg_span_text.specs.Text.{entry_text, may_line, reason_text};
ghost use Rattle.pg_span_text.specs.Text.{gone_line, cannot_line, may_lines, cannot_lines};

use crate::seen::{Gone, Seen};
use pg_entry::{Cfg, Entry, Kind, Level, classify};
use pg_explain::level_number;
use std::alloc::AllocError;

/// So many lines of entries that may be read.
const MOST_MAY: usize = 64;

/// So many lines of entries that can't.
const MOST_CANNOT: usize = 16;

/// Appends what an entry is, and which page a leaf maps.
fn push_kind(text: &mut String, kind: Kind) -> Result<(), AllocError>
    ensures { OnOk result (string_bytes text.new ≡ string_bytes text.old ++ kind_text kind) }
{
    match kind {
        Kind::Absent => text.push_str("absent"),
        Kind::Reserved => text.push_str("reserved"),
        Kind::Table { .. } => text.push_str("table"),
        Kind::Leaf { frame, .. } => write!(text, "leaf 0x{frame:x}"),
    }
}

fn push_writer(text: &mut String, writer: Option<u32>) -> Result<(), AllocError>
    ensures { OnOk result (string_bytes text.new ≡ string_bytes text.old ++ writer_text writer) }
{
    match writer {
        None => text.push_str(", never written"),
        Some(number) => write!(text, ", written by event {number}"),
    }
}

/// Appends a word and what it holds.
fn push_held(text: &mut String, address: u64, value: u64) -> Result<(), AllocError>
    ensures { OnOk result
        (string_bytes text.new ≡ string_bytes text.old ++ held_text address value) }
{
    write!(text, "[0x{address:x}] = 0x{value:x}")
}

fn push_level(text: &mut String, level: Level) -> Result<(), AllocError>
    ensures { OnOk result (string_bytes text.new ≡ string_bytes text.old ++ level_text level) }
{
    let level = level_number(level);
    write!(text, "may read: level {level} ")
}

/// Appends a word, what it holds, and what that is.
fn push_entry(text: &mut String, cfg: Cfg, seen: Seen) -> Result<(), AllocError>
    requires { (36 ≤ cfg.m) × (cfg.m ≤ 52) }
    ensures { OnOk result
        (string_bytes text.new ≡ string_bytes text.old ++ entry_text cfg seen) }
{
    push_held(text, seen.address, seen.value)?;
    text.push_str(" ")?;
    push_kind(text, classify(cfg, seen.level, Entry(seen.value)))
}

/// Appends the line of an entry that may be read.
fn push_may(text: &mut String, cfg: Cfg, seen: Seen) -> Result<(), AllocError>
    requires { (36 ≤ cfg.m) × (cfg.m ≤ 52) }
    ensures { OnOk result
        (string_bytes text.new ≡ string_bytes text.old ++ may_line cfg seen) }
{
    push_level(text, seen.level)?;
    push_entry(text, cfg, seen)?;
    push_writer(text, seen.writer)?;
    text.push_str("\n")
}

/// Appends why a value can't be read.
fn push_reason(text: &mut String, gone: Gone) -> Result<(), AllocError>
    ensures { OnOk result (string_bytes text.new ≡ string_bytes text.old ++ reason_text gone) }
{
    let Gone { by, before } = gone;
    writeln!(
        text,
        ": event {by} overwrites it and comes before event {before}"
    )
}

/// Appends the line of an entry that can't be read, and why.
fn push_gone(text: &mut String, seen: Seen, gone: Gone) -> Result<(), AllocError>
    ensures { OnOk result
        (string_bytes text.new ≡ string_bytes text.old ++ gone_line seen gone) }
{
    text.push_str("can't read: ")?;
    push_held(text, seen.address, seen.value)?;
    push_writer(text, seen.writer)?;
    push_reason(text, gone)
}

fn push_cannot(text: &mut String, seen: Seen) -> Result<(), AllocError>
    ensures { OnOk result (string_bytes text.new ≡ string_bytes text.old ++ cannot_line seen) }
{
    match seen.gone {
        None => Ok(()),
        Some(gone) => push_gone(text, seen, gone),
    }
}

/// Appends the lines of entries that may be read, or of the first of them.
pub(crate) fn push_may_lines(text: &mut String, cfg: Cfg, seen: &[Seen]) -> Result<(), AllocError>
    requires { (36 ≤ cfg.m) × (cfg.m ≤ 52) }
    ensures { OnOk result
        (string_bytes text.new ≡ string_bytes text.old ++ may_lines cfg 0 seen.now) }
{
    for (i, one) in seen.iter().enumerate() {
        if i == MOST_MAY {
            text.push_str("..\n")?;
            return Ok(());
        }
        push_may(text, cfg, *one)?;
    }
    Ok(())
}

/// Appends the lines of entries that can't be read, or of the first of them.
pub(crate) fn push_cannot_lines(text: &mut String, seen: &[Seen]) -> Result<(), AllocError>
    ensures { OnOk result
        (string_bytes text.new ≡ string_bytes text.old ++ cannot_lines 0 seen.now) }
{
    for (i, one) in seen.iter().enumerate() {
        if i == MOST_CANNOT {
            text.push_str("..\n")?;
            return Ok(());
        }
        push_cannot(text, *one)?;
    }
    Ok(())
}
