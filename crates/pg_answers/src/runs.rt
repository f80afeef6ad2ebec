//! The text of a run: one line a step.

ghost use Rattle.std.specs.Prelude.{◌≡◌, ◌+◌, ◌<◌, ◌^◌, ◌∷◌, ◌++◌, IfOk, OnOk, codes, decimal};
ghost use Rattle.std.specs.Prelude.{string_bytes};
ghost use Rattle.pg_explain.specs.Names.{level_number};
ghost use Rattle.pg_answers.specs.Runs.{line_of, PushesLine, address_text};
ghost use Rattle.pg_answers.specs.Runs.{parent_words, step_text, next_number, run_text};

use pg_entry::Level;
use pg_event::Parent;
use pg_explain::{level_number, rights_text};
use pg_machine::Step;
use std::alloc::{AllocError, Global};

/// Appends the line of a fill that reads a table below the root.
fn push_fill(text: &mut String, name: &str, p: u16, la: u64, from: Parent) -> Result<(), AllocError>
    ensures { OnOk result (PushesLine (string_bytes text.old) (string_bytes text.new)
        (name.now ∷ decimal p ∷ address_text la ∷ parent_words from)) }
{
    let table = from.table;
    let rights = rights_text(from.rights);
    writeln!(text, "{name} {p} 0x{la:x} 0x{table:x} {rights}")
}

/// Appends the line of a fill of the TLB.
fn push_leaf(
    text: &mut String,
    p: u16,
    la: u64,
    level: Level,
    from: Parent,
) -> Result<(), AllocError>
    ensures { OnOk result (PushesLine (string_bytes text.old) (string_bytes text.new)
        (codes "leaf" ∷ decimal p ∷ address_text la ∷ decimal (level_number level)
        ∷ parent_words from)) }
{
    let level = level_number(level);
    let table = from.table;
    let rights = rights_text(from.rights);
    writeln!(text, "leaf {p} 0x{la:x} {level} 0x{table:x} {rights}")
}

/// Appends the line of a step, where an event is the one with this number.
fn push_step(text: &mut String, number: u64, step: &Step) -> Result<(), AllocError>
    ensures { OnOk result
        (string_bytes text.new ≡ string_bytes text.old ++ step_text number step.now) }
{
    match *step {
        Step::Fill4 { p, la } => writeln!(text, "fill4 {p} 0x{la:x}"),
        Step::Fill3 { p, la, from } => push_fill(text, "fill3", p, la, from),
        Step::Fill2 { p, la, from } => push_fill(text, "fill2", p, la, from),
        Step::FillLeaf { p, la, level, from } => push_leaf(text, p, la, level, from),
        Step::Drop { p, .. } => writeln!(text, "drop {p}"),
        Step::Do(_) => writeln!(text, "do {number}"),
    }
}

/// The number of the event that comes next after a step.
fn next_number(number: u64, step: &Step) -> u64
    requires { number + 1 < 2 ^ 64 }
    ensures { result ≡ next_number number step.now }
{
    match *step {
        Step::Do(_) => number + 1,
        Step::Fill4 { .. }
        | Step::Fill3 { .. }
        | Step::Fill2 { .. }
        | Step::FillLeaf { .. }
        | Step::Drop { .. } => number,
    }
}

/// The lines of a run, in their order. Its events are counted from 0. `Err` is out of memory
/// alone.
pub fn run_text(alloc: Global, steps: &[Step]) -> Result<String, AllocError>
    ensures { IfOk result (λ t. string_bytes t ≡ run_text steps.now) }
{
    let mut text = String::new(alloc);
    let mut number = 0;
    for step in steps {
        push_step(&mut text, number, step)?;
        number = next_number(number, step);
    }
    Ok(text)
}
