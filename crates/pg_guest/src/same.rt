ghost use Rattle.std.specs.Prelude.{◌≡◌, ◌↔◌, IsTrue};

use crate::instruction::Instruction;

/// Whether two lists of instructions are the same.
pub fn same_instructions(one: &[Instruction], other: &[Instruction]) -> bool
    ensures { IsTrue result ↔ (one.now ≡ other.now) }
{
    one == other
}
