//! What a turn does: an access goes on with its walk, another instruction is carried out.

ghost use Rattle.std.specs.Prelude.{◌≡◌, ◌<◌, length, Some};
ghost use Rattle.pg_guest.specs.declared.instruction.Instruction.TheVariants as instructions;
ghost use Rattle.pg_guest.specs.Tasks.{IsWellFormed};
ghost use Rattle.pg_shadow.specs.Held.{seen as cached};
ghost use Rattle.pg_shadow.specs.Find.{IsInRange};
ghost use Rattle.pg_guest.specs.Turn.{carried_out, begun, goes_on, turned_by, ComesTo, IsTurn};
ghost use Rattle.pg_guest.specs.Held.{seen};
ghost use Rattle.pg_guest.specs.Steps.{IsOfRun};

use super::Processor;
use crate::advance::Advance;
use crate::calls::cfg_of;
use crate::instruction::Instruction;
use crate::walks::{address_in, from_root, from_table, outcome_of};
use pg_entry::AccessKind;
use pg_event::{Event, Header, Moments, Outcome, access_kind};
use pg_shadow::Found;
use pg_world::World;

impl<'a> Processor<'a> {
    /// Where the walk for an access stands: one that has not begun begins with what is cached.
    fn begun(&self, la: u64, kind: AccessKind, header: &Header) -> Found
        ensures value { result ≡ begun header.now (cached self.now.shadow) la kind self.now.way }
        ensures range { IsInRange (cached self.now.shadow).width result }
    {
        match self.way {
            Found::Hit { .. } | Found::Partial { .. } => self.way,
            Found::Miss => self.shadow.find(la, kind, header),
        }
    }

    /// Carries an access out that found a page by these moments.
    fn access(
        &mut self,
        world: &mut World,
        flags: u8,
        la: u64,
        outcome: Outcome,
        moments: Moments,
    ) -> Advance
        requires well { IsWellFormed world.old.head self.old.number (instructions.Access flags la) }
        requires due { self.old.place < length self.old.instructions }
        ensures number { self.new.number ≡ self.old.number }
        ensures turn { let x = seen self.old in
            ComesTo world.old x
            (carried_out world.old x (Event.Access self.old.number flags la outcome moments))
            (record { answer = result; world = world.new; processor = seen self.new }) }
    {
        let access = Event::Access {
            p: self.number,
            flags,
            la,
            outcome,
            moments,
        };
        self.carry_out(world, &access)
    }

    /// Goes on with an access whose walk stands so far.
    fn go_on(&mut self, world: &mut World, flags: u8, la: u64, way: Found) -> Advance
        requires way { IsInRange (cached self.old.shadow).width way }
        requires width { (cached self.old.shadow).width ≡ world.old.head.cfg.m }
        requires well { IsWellFormed world.old.head self.old.number (instructions.Access flags la) }
        requires due { self.old.place < length self.old.instructions }
        ensures number { self.new.number ≡ self.old.number }
        ensures turn { let x = seen self.old in
            ComesTo world.old x (goes_on self.old.number world.old x flags la way)
            (record { answer = result; world = world.new; processor = seen self.new }) }
    {
        let kind = access_kind(flags);
        let control = self.shadow.control();
        match way {
            Found::Hit {
                frame,
                shift,
                rights,
                moments,
                ..
            } => {
                let address = address_in(frame, shift, la);
                let outcome = outcome_of(cfg_of(world), kind, rights, address);
                self.access(world, flags, la, outcome, moments)
            }
            Found::Partial {
                level,
                table,
                rights,
                moments,
            } => {
                let walk = from_table(kind, la, level, table, rights, moments);
                self.read(world, way, &walk)
            }
            Found::Miss => self.read(world, way, &from_root(control, kind, la)),
        }
    }

    /// A turn with an instruction that is the next one.
    fn step(&mut self, world: &mut World, instruction: &Instruction) -> Advance
        requires width { (cached self.old.shadow).width ≡ world.old.head.cfg.m }
        requires well { IsWellFormed world.old.head self.old.number instruction.now }
        requires due { self.old.place < length self.old.instructions }
        ensures number { self.new.number ≡ self.old.number }
        ensures turn { let x = seen self.old in
            ComesTo world.old x (turned_by self.old.number world.old x (Some instruction.now))
            (record { answer = result; world = world.new; processor = seen self.new }) }
    {
        let p = self.number;
        match *instruction {
            Instruction::Access { flags, la } => {
                let way = self.begun(la, access_kind(flags), world.header());
                self.go_on(world, flags, la, way)
            }
            Instruction::Write { addr, value } => {
                self.carry_out(world, &Event::Write { p, addr, value })
            }
            Instruction::MovCr3 { operand } => {
                self.carry_out(world, &Event::MovCr3 { p, operand })
            }
            Instruction::Invlpg { la } => self.carry_out(world, &Event::Invlpg { p, la }),
            Instruction::Invpcid { kind, pcid, la } => {
                self.carry_out(world, &Event::Invpcid { p, kind, pcid, la })
            }
            Instruction::MovCr4Pge { on } => self.carry_out(world, &Event::MovCr4Pge { p, on }),
        }
    }

    /// A turn with the next instruction, if there is one.
    pub(super) fn turn(&mut self, world: &mut World) -> Advance
        requires { IsOfRun world.old.head self.old.number (seen self.old) }
        ensures number { self.new.number ≡ self.old.number }
        ensures turn { IsTurn self.old.number world.old (seen self.old)
            (record { answer = result; world = world.new; processor = seen self.new }) }
    {
        match self.instructions.get(self.place) {
            None => Advance::Ended,
            Some(instruction) => {
                let instruction = *instruction;
                self.step(world, &instruction)
            }
        }
    }
}
