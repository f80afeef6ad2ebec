//! The text of a walk, an entry a line.

ghost use Rattle.std.specs.Prelude.{◌≡◌, ◌++◌, OnOk, string_bytes};
ghost use Rattle.pg_explain.specs.Text.{kind_name, held_text, read_text, writer_text};
ghost use Rattle.pg_explain.specs.Text.{entry_text, walk_text};

use crate::entry::WalkEntry;
use crate::line::push_word;
use crate::names::level_number;
use crate::walk_end::down_to_end;
use pg_chain::EntryRead;
use pg_entry::{Kind, Level};
use std::alloc::AllocError;

/// What an entry is, as its line says it.
pub fn kind_name(kind: Kind) -> &'static str
    ensures { result.now ≡ kind_name kind }
{
    match kind {
        Kind::Absent => "absent",
        Kind::Reserved => "reserved",
        Kind::Table { .. } => "table",
        Kind::Leaf { .. } => "leaf",
    }
}

/// Appends a word, what it holds, and what that is.
pub(crate) fn push_held(
    text: &mut String,
    address: u64,
    value: u64,
    kind: Kind,
) -> Result<(), AllocError>
    ensures { OnOk result
        (string_bytes text.new ≡ string_bytes text.old ++ held_text address value kind) }
{
    push_word(text, address)?;
    let name = kind_name(kind);
    write!(text, " = 0x{value:x} {name}")
}

fn push_read(text: &mut String, level: Level, moment: u32, pcid: u16) -> Result<(), AllocError>
    ensures { OnOk result
        (string_bytes text.new ≡ string_bytes text.old ++ read_text level moment pcid) }
{
    let level = level_number(level);
    write!(text, "level {level}: moment {moment} pcid 0x{pcid:x} ")
}

pub(crate) fn push_writer(text: &mut String, writer: Option<u32>) -> Result<(), AllocError>
    ensures { OnOk result
        (string_bytes text.new ≡ string_bytes text.old ++ writer_text writer) }
{
    match writer {
        Some(event) => writeln!(text, ", written by event {event}"),
        None => text.push_str(", never written\n"),
    }
}

/// Appends the line of an entry of a walk. Fails only when out of memory, and may then leave a part
/// of the line.
pub fn push_entry(text: &mut String, entry: &WalkEntry) -> Result<(), AllocError>
    ensures { OnOk result
        (string_bytes text.new ≡ string_bytes text.old ++ entry_text entry.now) }
{
    let EntryRead {
        level,
        address,
        value,
        moment,
        ..
    } = entry.step;
    push_read(text, level, moment, entry.pcid)?;
    push_held(text, address, value, entry.kind)?;
    push_writer(text, entry.writer)
}

/// Appends the entries of a walk down to the first that is no table.
pub(crate) fn push_walk(text: &mut String, walk: &[WalkEntry]) -> Result<(), AllocError>
    ensures { OnOk result
        (string_bytes text.new ≡ string_bytes text.old ++ walk_text walk.now) }
{
    for entry in down_to_end(walk) {
        push_entry(text, entry)?;
    }
    Ok(())
}
