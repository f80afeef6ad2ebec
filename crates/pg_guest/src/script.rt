ghost use Rattle.std.specs.Prelude.{◌≡◌, ◌<◌, ◌-◌, ◌^◌, length, IfOk, IfErr, Ok};
ghost use Rattle.std.specs.List.{AllByRecursion};
ghost use Rattle.pg_event.specs.Spelling.{IsHead};
ghost use Rattle.pg_guest.specs.Tasks.{IsWellFormed, instructions_of, order_of};
ghost use Rattle.pg_guest.specs.Reading.{reading, IsScript};
ghost use Rattle.pg_guest.specs.Refusals.{IsRefused};

use crate::instruction::Instruction;
use crate::script_reader::{header_of, tasks_of};
use crate::script_refusal::ScriptError;
use crate::script_text::Text;
use crate::tasks::Tasks;
use pg_event::Header;
use std::alloc::Global;
use std::marker::Model;

/// The settings of a run and the instructions of its processors, as a text says them.
#[derive(Drop)]
pub struct Script {
    header: Header,
    tasks: Tasks,
}

impl Model for Script {
    ghost use Rattle.pg_guest.specs.Reading.{Scripted, IsScript};

    ghost Value = { Scripted };

    ghost view = { λ s. record { head = s.header; tasks = s.tasks } };

    ghost invariant = { λ s. IsScript (record { head = s.header; tasks = s.tasks }) };
}

impl Script {
    /// Reads a text. It answers the first line that is wrong. Memory is taken as the lines of
    /// processors and of instructions come: where memory runs out, the answer names the line that
    /// wanted it.
    #[tactic(auto, unfolding(crate::specs::Reading::reading))]
    pub fn read(alloc: Global, bytes: &[u8]) -> Result<Script, ScriptError>
        requires { length bytes.now < 2 ^ 32 - 1 }
        ensures said { IfOk result (λ script. reading bytes.now ≡ Ok script) }
        ensures refused { IfErr result (λ e. IsRefused bytes.now e) }
        ensures kept { IfOk result (λ script. IsScript script) }
    {
        let (header, text) = header_of(alloc, &Text::new(bytes))?;
        let tasks = tasks_of(alloc, &header, text)?;
        Ok(Script { header, tasks })
    }

    /// The settings of the run.
    pub fn header(&self) -> &Header
        ensures header { result.now ≡ self.now.head }
        ensures range { IsHead result.now }
        ensures kept { IsScript self.now }
    {
        &self.header
    }

    /// The instructions of a processor in the order of their lines; none of one that the header
    /// has not.
    pub fn instructions(&self, p: u16) -> &[Instruction]
        ensures instructions { result.now ≡ instructions_of p self.now.tasks }
        ensures well { AllByRecursion (IsWellFormed self.now.head p) result.now }
    {
        self.tasks.instructions(p)
    }

    /// The processor of each instruction, in the order of the lines.
    pub fn order(&self) -> &[u16]
        ensures order { result.now ≡ order_of self.now.tasks }
        ensures within { AllByRecursion (λ p. p < length self.now.head.processors) result.now }
        ensures kept { IsScript self.now }
    {
        self.tasks.order()
    }
}
