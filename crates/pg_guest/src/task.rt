//! What the words of a line say that is an instruction.

ghost use Rattle.std.specs.Prelude.{◌≡◌, ◌<◌, ◌≤◌, ◌^◌, IfOk};
ghost use Rattle.pg_guest.specs.Instructions.{processor_at, kind_at, write_in, access_in};
ghost use Rattle.pg_guest.specs.Instructions.{mov_cr3_in, invlpg_in, invpcid_in, mov_cr4_pge_in};
ghost use Rattle.pg_guest.specs.Instructions.{instruction_in, task_in};
ghost use Rattle.pg_guest.specs.Tasks.{event_of, IsWellFormed};
ghost use Rattle.pg_guest.specs.Answers.{Agrees};

use crate::instruction::{Instruction, Task};
use crate::number::dec_of;
use crate::script_refusal::ScriptRefusal;
use crate::words::{Words, bit_word, dec_word, ended, hex_word, same_bytes, word_of};
use pg_entry::{AccessKind, Op};
use pg_event::{Event, Header, Moments, Outcome, flags_of, well_formed};

/// The number of a processor, which begins the line.
#[tactic(auto, unfolding(crate::specs::Instructions::processor_at))]
fn processor_word<'a>(words: &Words<'a>) -> Result<(u64, Words<'a>), ScriptRefusal>
    ensures { Agrees (λ x. (x.0, x.1)) result (processor_at words.now) }
{
    let (word, rest) = word_of(words)?;
    let p = dec_of(word).ok_or(ScriptRefusal::Instruction)?;
    Ok((p, rest))
}

/// An access of an operation, by the word of its mode.
#[tactic(auto, unfolding(crate::specs::Instructions::kind_at))]
fn kind_word<'a>(op: Op, words: &Words<'a>) -> Result<(AccessKind, Words<'a>), ScriptRefusal>
    ensures { Agrees (λ x. (x.0, x.1)) result (kind_at op words.now) }
{
    let (word, rest) = word_of(words)?;
    let (user, ac) = if same_bytes(word, b"user") {
        (true, false)
    } else if same_bytes(word, b"super") {
        (false, false)
    } else if same_bytes(word, b"super-ac") {
        (false, true)
    } else {
        return Err(ScriptRefusal::Instruction);
    };
    Ok((AccessKind { op, user, ac }, rest))
}

#[tactic(auto, unfolding(crate::specs::Instructions::write_in))]
fn write_of(words: &Words) -> Result<Instruction, ScriptRefusal>
    ensures { Agrees (λ x. x) result (write_in words.now) }
{
    let (addr, rest) = hex_word(words)?;
    let (value, rest) = hex_word(&rest)?;
    ended(Instruction::Write { addr, value }, &rest)
}

/// Address and mode.
#[tactic(auto, unfolding(crate::specs::Instructions::access_in))]
fn access_of(op: Op, words: &Words) -> Result<Instruction, ScriptRefusal>
    ensures { Agrees (λ x. x) result (access_in op words.now) }
{
    let (la, rest) = hex_word(words)?;
    let (kind, rest) = kind_word(op, &rest)?;
    let flags = flags_of(kind);
    ended(Instruction::Access { flags, la }, &rest)
}

#[tactic(auto, unfolding(crate::specs::Instructions::mov_cr3_in))]
fn mov_cr3_of(words: &Words) -> Result<Instruction, ScriptRefusal>
    ensures { Agrees (λ x. x) result (mov_cr3_in words.now) }
{
    let (operand, rest) = hex_word(words)?;
    ended(Instruction::MovCr3 { operand }, &rest)
}

#[tactic(auto, unfolding(crate::specs::Instructions::invlpg_in))]
fn invlpg_of(words: &Words) -> Result<Instruction, ScriptRefusal>
    ensures { Agrees (λ x. x) result (invlpg_in words.now) }
{
    let (la, rest) = hex_word(words)?;
    ended(Instruction::Invlpg { la }, &rest)
}

/// Type, PCID and address.
#[tactic(auto, unfolding(crate::specs::Instructions::invpcid_in))]
fn invpcid_of(words: &Words) -> Result<Instruction, ScriptRefusal>
    ensures { Agrees (λ x. x) result (invpcid_in words.now) }
{
    let (kind, rest) = dec_word(words)?;
    let (pcid, rest) = hex_word(&rest)?;
    let (la, rest) = hex_word(&rest)?;
    let la = ended(la, &rest)?;
    let kind = u8::try_from(kind).map_err(|_| ScriptRefusal::Malformed)?;
    let pcid = u16::try_from(pcid).map_err(|_| ScriptRefusal::Malformed)?;
    Ok(Instruction::Invpcid { kind, pcid, la })
}

#[tactic(auto, unfolding(crate::specs::Instructions::mov_cr4_pge_in))]
fn mov_cr4_pge_of(words: &Words) -> Result<Instruction, ScriptRefusal>
    ensures { Agrees (λ x. x) result (mov_cr4_pge_in words.now) }
{
    let (on, rest) = bit_word(words)?;
    ended(Instruction::MovCr4Pge { on }, &rest)
}

/// The fields of an instruction by its name.
#[tactic(auto, unfolding(crate::specs::Instructions::instruction_in))]
fn instruction_of(name: &[u8], words: &Words) -> Result<Instruction, ScriptRefusal>
    ensures { Agrees (λ x. x) result (instruction_in name.now words.now) }
{
    if same_bytes(name, b"write") {
        write_of(words)
    } else if same_bytes(name, b"read") {
        access_of(Op::Read, words)
    } else if same_bytes(name, b"store") {
        access_of(Op::Write, words)
    } else if same_bytes(name, b"fetch") {
        access_of(Op::Fetch, words)
    } else if same_bytes(name, b"cr3") {
        mov_cr3_of(words)
    } else if same_bytes(name, b"invlpg") {
        invlpg_of(words)
    } else if same_bytes(name, b"invpcid") {
        invpcid_of(words)
    } else if same_bytes(name, b"pge") {
        mov_cr4_pge_of(words)
    } else {
        Err(ScriptRefusal::Instruction)
    }
}

/// An event of a processor that carries an instruction out; its outcome and moments are any.
fn event_of(p: u16, instruction: &Instruction) -> Event
    ensures { result ≡ event_of p instruction.now }
{
    match *instruction {
        Instruction::Write { addr, value } => Event::Write { p, addr, value },
        Instruction::Access { flags, la } => Event::Access {
            p,
            flags,
            la,
            outcome: Outcome::Fault(0),
            moments: Moments::first(0),
        },
        Instruction::MovCr3 { operand } => Event::MovCr3 { p, operand },
        Instruction::Invlpg { la } => Event::Invlpg { p, la },
        Instruction::Invpcid { kind, pcid, la } => Event::Invpcid { p, kind, pcid, la },
        Instruction::MovCr4Pge { on } => Event::MovCr4Pge { p, on },
    }
}

/// An instruction and its processor, where its event is well formed under the header.
#[tactic(auto, unfolding(crate::specs::Instructions::task_in))]
pub(crate) fn task_of(header: &Header, words: &Words) -> Result<Task, ScriptRefusal>
    requires { header.now.cfg.m ≤ 52 }
    ensures task { Agrees (λ x. x) result (task_in header.now words.now) }
    ensures well { IfOk result (λ task. IsWellFormed header.now task.p task.instruction) }
{
    let (p, rest) = processor_word(words)?;
    let (name, rest) = word_of(&rest)?;
    let instruction = instruction_of(name, &rest)?;
    let p = u16::try_from(p).map_err(|_| ScriptRefusal::Malformed)?;
    well_formed(header, &event_of(p, &instruction)).map_err(|_| ScriptRefusal::Malformed)?;
    Ok(Task { p, instruction })
}
