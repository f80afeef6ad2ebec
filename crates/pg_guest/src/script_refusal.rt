ghost use Rattle.std.specs.Prelude.{◌≡◌};
ghost use Rattle.pg_guest.specs.Refusals.{number_of, name_of};

use thiserror::Error;

/// Why a text is no script: what is wrong with its first line that is.
#[derive(Clone, Copy, PartialEq, Eq, Debug)]
pub enum ScriptRefusal {
    /// Line 1 is not `pcid-guest 1` or `pcid-guest 2`.
    FirstLine,
    /// The next line is not `machine M` with any of `wp nxe smep smap` after it in this order, M
    /// from 36 to 52.
    Machine,
    /// The next line is not `segment N`, N from 1 to 65,536.
    Segment,
    /// No line `cpu CR3 PGE` follows, or one that begins with `cpu` is not that, or its CR3 is not
    /// below 2 to the power of M.
    Cpu,
    /// An instruction does not begin with a number in decimal digits, or its name, mode, PGE or
    /// count of words is wrong.
    Instruction,
    /// A word of an instruction is no number where one belongs.
    Number,
    /// A number of an instruction is too large for its field, or its event is not well formed.
    Malformed,
    /// No LF ends the text's last line, or a line has a byte below 0x20 or above 0x7E.
    LineEnd,
    /// More instructions than 1,048,576.
    TooMany,
    /// An allocation failed in this call.
    Memory,
}

impl ScriptRefusal {
    /// Its number in a refusal line: 1 to 10, in the order of the variants.
    pub fn number(&self) -> u8
        ensures { result ≡ number_of self.now }
    {
        match *self {
            ScriptRefusal::FirstLine => 1,
            ScriptRefusal::Machine => 2,
            ScriptRefusal::Segment => 3,
            ScriptRefusal::Cpu => 4,
            ScriptRefusal::Instruction => 5,
            ScriptRefusal::Number => 6,
            ScriptRefusal::Malformed => 7,
            ScriptRefusal::LineEnd => 8,
            ScriptRefusal::TooMany => 9,
            ScriptRefusal::Memory => 10,
        }
    }

    /// Its name, as a refusal line gives it after the number.
    pub fn name(&self) -> &'static str
        ensures { result.now ≡ name_of self.now }
    {
        match *self {
            ScriptRefusal::FirstLine => "first line",
            ScriptRefusal::Machine => "machine",
            ScriptRefusal::Segment => "segment",
            ScriptRefusal::Cpu => "cpu",
            ScriptRefusal::Instruction => "instruction",
            ScriptRefusal::Number => "number",
            ScriptRefusal::Malformed => "malformed",
            ScriptRefusal::LineEnd => "line end",
            ScriptRefusal::TooMany => "too many instructions",
            ScriptRefusal::Memory => "memory",
        }
    }
}

/// A refusal and the line that it is of, from 1. Where a line lacks at the end of the text, it is
/// the number after the last.
#[derive(Clone, Copy, Debug, Drop, Error)]
#[error("script line {line}: {refusal:?}")]
pub struct ScriptError {
    pub line: u32,
    pub refusal: ScriptRefusal,
}
