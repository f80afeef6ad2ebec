//! The text of a tally: a line.

ghost use Rattle.std.specs.Prelude.{◌≡◌, ◌+◌, ◌-◌, ◌++◌, nat_le, length, codes, IfOk, OnOk};
ghost use Rattle.std.specs.Prelude.{string_bytes};
ghost use Rattle.pg_explain.specs.Tallies.{item_text, items_text, more_text, beginning_text};
ghost use Rattle.pg_explain.specs.Tallies.{with_list, head_of, with_processors, tally_text};

use crate::tallier::Tally;
use std::alloc::{AllocError, Global};

/// How numbers are written.
#[derive(Clone, Copy)]
pub enum Style {
    Decimal,
    Hex,
}

/// The columns of a line up to which processors are named.
const PROCESSOR_COLUMNS: usize = 60;

/// The columns of a line up to which pages are named.
const COLUMNS: usize = 100;

/// A number after a space.
fn item_text(alloc: Global, style: Style, number: u64) -> Result<String, AllocError>
    ensures { IfOk result (λ t. string_bytes t ≡ item_text style number) }
{
    match style {
        Style::Decimal => format!(in alloc; " {number}"),
        Style::Hex => format!(in alloc; " 0x{number:x}"),
    }
}

/// How many more there are.
fn more_text(alloc: Global, count: u64) -> Result<String, AllocError>
    ensures { IfOk result (λ t. string_bytes t ≡ more_text count) }
{
    if count == 0 {
        return Ok(String::new(alloc));
    }
    format!(in alloc; " and {count} more")
}

/// Whether two texts of these lengths fit, one after the other.
fn do_fit(one: usize, other: usize, room: usize) -> bool
    ensures { result ≡ nat_le (one + other) room }
{
    one <= room && other <= room - one
}

/// Whether all numbers fit so many columns.
fn all_fit(alloc: Global, room: usize, style: Style, numbers: &[u64]) -> Result<bool, AllocError>
    ensures { IfOk result (λ fit. fit
        ≡ nat_le (length (items_text style numbers.now)) room) }
{
    let mut left = room;
    for number in numbers {
        let item = item_text(alloc, style, *number)?;
        if item.len() > left {
            return Ok(false);
        }
        left -= item.len();
    }
    Ok(true)
}

/// Appends numbers, each after a space.
fn push_items(
    alloc: Global,
    line: &mut String,
    style: Style,
    numbers: &[u64],
) -> Result<(), AllocError>
    ensures { OnOk result
        (string_bytes line.new ≡ string_bytes line.old ++ items_text style numbers.now) }
{
    for number in numbers {
        let item = item_text(alloc, style, *number)?;
        line.push_str(item.as_str())?;
    }
    Ok(())
}

/// Appends as many of the first numbers as fit so many columns with how many more there are.
fn push_beginning(
    alloc: Global,
    line: &mut String,
    room: usize,
    style: Style,
    numbers: &[u64],
) -> Result<(), AllocError>
    ensures { OnOk result (string_bytes line.new
        ≡ string_bytes line.old ++ beginning_text room style numbers.now) }
{
    let mut left = room;
    for (i, number) in numbers.iter().enumerate() {
        let item = item_text(alloc, style, *number)?;
        let more = more_text(alloc, (numbers.len() - i - 1) as u64)?;
        if !do_fit(item.len(), more.len(), left) {
            let rest = more_text(alloc, (numbers.len() - i) as u64)?;
            return line.push_str(rest.as_str());
        }
        line.push_str(item.as_str())?;
        left -= item.len();
    }
    Ok(())
}

/// Appends as many numbers to a line as fit so many columns of it.
fn push_list(
    alloc: Global,
    line: &mut String,
    columns: usize,
    style: Style,
    numbers: &[u64],
) -> Result<(), AllocError>
    ensures { OnOk result (string_bytes line.new
        ≡ with_list (string_bytes line.old) columns style numbers.now) }
{
    let room = columns.saturating_sub(line.len());
    if all_fit(alloc, room, style, numbers)? {
        push_items(alloc, line, style, numbers)
    } else {
        push_beginning(alloc, line, room, style, numbers)
    }
}

fn head_of(alloc: Global, number: u8, name: &str, tally: &Tally) -> Result<String, AllocError>
    ensures { IfOk result (λ t. string_bytes t ≡ head_of number name.now tally.now) }
{
    let count = tally.count;
    let first = tally.first;
    format!(in alloc; "{number} {name}: {count}, first {first}, cpus")
}

/// The line of a tally, whose reason has this number and this name. Fails only when out of memory.
pub fn tally_text(
    alloc: Global,
    number: u8,
    name: &str,
    tally: &Tally,
) -> Result<String, AllocError>
    ensures { IfOk result (λ t. string_bytes t ≡ tally_text number name.now tally.now) }
{
    let mut line = head_of(alloc, number, name, tally)?;
    push_list(
        alloc,
        &mut line,
        PROCESSOR_COLUMNS,
        Style::Decimal,
        &tally.processors,
    )?;
    line.push_str(", pages")?;
    push_list(alloc, &mut line, COLUMNS, Style::Hex, &tally.pages)?;
    line.push_str("\n")?;
    Ok(line)
}
