/// What an instruction of a script asks a processor to do: an event without its processor, its
/// outcome and its moments.
#[derive(Clone, Copy, PartialEq, Eq)]
pub enum Instruction {
    /// Write a word of table memory, at a physical byte address.
    Write { addr: u64, value: u64 },
    /// Access a linear byte address. The flags are those of an access in an event.
    Access { flags: u8, la: u64 },
    /// MOV to CR3 with this operand.
    MovCr3 { operand: u64 },
    /// INVLPG of a linear byte address.
    Invlpg { la: u64 },
    /// INVPCID of a type (0 to 3), a PCID and a linear byte address.
    Invpcid { kind: u8, pcid: u16, la: u64 },
    /// MOV to CR4 that leaves PGE so.
    MovCr4Pge { on: bool },
}

/// An instruction and the number, from 0, of the processor that carries it out.
#[derive(Clone, Copy)]
pub struct Task {
    /// The number of the processor.
    pub p: u16,
    /// What it carries out.
    pub instruction: Instruction,
}
