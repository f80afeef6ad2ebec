ghost use Rattle.std.specs.Prelude.{◌≡◌, ◌+◌, ◌<◌, ◌++◌, ◌∷◌, [], length, vec_len, vec_capacity};
ghost use Rattle.pg_event.specs.Spelling.{IsHead};
ghost use Rattle.pg_shadow.specs.Held.{seen as cached};
ghost use Rattle.pg_shadow.specs.Caches.{after};
ghost use Rattle.pg_guest.specs.Turn.{fresh, carried_out, ComesTo, IsTurn};
ghost use Rattle.pg_guest.specs.Leaves.{Leaves};
ghost use Rattle.pg_guest.specs.Transcripts.{KeepsTold};
ghost use Rattle.pg_guest.specs.Held.{seen};
ghost use Rattle.pg_guest.specs.Runs.{StaysAtHome, StaysIfStopped};
ghost use Rattle.pg_guest.specs.Steps.{IsOfRun, IsOwnEvent};

mod turns;
mod walking;

use crate::advance::{Advance, Stop};
use crate::calls::record;
use crate::instruction::Instruction;
use pg_event::{Event, Header};
use pg_shadow::{Found, Shadow};
use pg_world::{Receipt, World};
use std::alloc::Global;
use std::marker::Model;

/// A recorded processor: it carries out its instructions in their order, by turns, and keeps the
/// receipts of its events.
#[derive(Drop)]
pub struct Processor<'a> {
    number: u16,
    instructions: &'a [Instruction],
    /// The number of the next instruction.
    place: usize,
    /// Where the walk for it stands: a page, a table, or not begun.
    way: Found,
    transcript: Vec<Receipt>,
    shadow: Shadow,
}

impl<'a> Model for Processor<'a> {
    ghost use Rattle.pg_guest.specs.Held.{Held, IsProcessor};

    ghost Value = { Held };

    ghost view = { λ x. record {
      number = x.number;
      instructions = x.instructions.now;
      place = x.place;
      way = x.way;
      transcript = x.transcript.items;
      shadow = x.shadow;
    } };

    ghost invariant = { λ x. IsProcessor (record {
      number = x.number;
      instructions = x.instructions.now;
      place = x.place;
      way = x.way;
      transcript = x.transcript.items;
      shadow = x.shadow;
    }) };
}

/// Adds a receipt, for which there is room, and takes out of the shadow what its event must drop.
fn note(transcript: &mut Vec<Receipt>, shadow: &mut Shadow, receipt: &Receipt)
    requires { vec_len transcript.old < vec_capacity transcript.old }
    ensures transcript { transcript.new.items ≡ transcript.old.items ++ receipt.now ∷ [] }
    ensures shadow { cached shadow.new ≡ after receipt.now.event (cached shadow.old) }
{
    transcript.push_reserved(*receipt);
    shadow.happened(&receipt.event);
}

impl<'a> Processor<'a> {
    /// Processor `p` of a run, before the first of these instructions.
    pub fn new(
        alloc: Global,
        header: &Header,
        p: u16,
        instructions: &'a [Instruction],
    ) -> Processor<'a>
        requires head { IsHead header.now }
        requires processor { p < length header.now.processors }
        ensures number { result.number ≡ p }
        ensures fresh { seen result ≡ fresh header.now p instructions.now }
    {
        Processor {
            number: p,
            instructions,
            place: 0,
            way: Found::Miss,
            transcript: Vec::new(alloc),
            shadow: Shadow::new(alloc, header, p),
        }
    }

    /// Its number in the run.
    pub fn number(&self) -> u16
        ensures { result ≡ self.now.number }
    {
        self.number
    }

    /// Its instructions.
    pub fn instructions(&self) -> &[Instruction]
        ensures { result.now ≡ self.now.instructions }
    {
        self.instructions
    }

    /// The receipts of its events so far, in their order.
    pub fn transcript(&self) -> &[Receipt]
        ensures { result.now ≡ self.now.transcript }
    {
        self.transcript.as_slice()
    }

    /// What `transcript` gives, and nothing else of the processor.
    pub fn into_transcript(self) -> Vec<Receipt>
        ensures { result.items ≡ self.entry.transcript }
    {
        self.transcript
    }

    /// Gives up the walk under way.
    fn stopped(&mut self, why: Stop) -> Advance
        ensures answer { result ≡ Advance.Stopped why }
        ensures left { self.new ≡ record self.old { way = Found.Miss } }
    {
        self.way = Found::Miss;
        Advance::Stopped(why)
    }

    /// Goes on to the next instruction, as this event carried one out.
    fn done(&mut self, receipt: Receipt) -> Advance
        requires { self.old.place < length self.old.instructions }
        ensures answer { result ≡ Advance.Done receipt }
        ensures left { self.new
            ≡ record self.old { place = self.old.place + 1; way = Found.Miss } }
    {
        self.place += 1;
        self.way = Found::Miss;
        Advance::Done(receipt)
    }

    /// Carries the instruction out by an event that is known.
    fn carry_out(&mut self, world: &mut World, event: &Event) -> Advance
        requires event { IsOwnEvent world.old.head self.old.number event.now }
        requires due { self.old.place < length self.old.instructions }
        ensures number { self.new.number ≡ self.old.number }
        ensures turn { ComesTo world.old (seen self.old)
            (carried_out world.old (seen self.old) event.now)
            (record { answer = result; world = world.new; processor = seen self.new }) }
    {
        if self.transcript.reserve(1).is_err() {
            return self.stopped(Stop::Memory);
        }
        match record(world, self.number, event) {
            Ok(receipt) => {
                note(&mut self.transcript, &mut self.shadow, &receipt);
                self.done(receipt)
            }
            Err(why) => self.stopped(why),
        }
    }

    /// One turn: a step of the walk of an access, which reads one level, or what carries the next
    /// instruction out. It calls the world once at most, and takes room for a receipt before.
    ///
    /// Where it is stopped nothing was recorded, what was cached stays, and the next turn begins
    /// the instruction again.
    ///
    /// The processor has to be one of this world's run: made by `processors` from the script whose
    /// header the world has, or by `new` with that header and with instructions that are well
    /// formed under it. Its turns in that world and those of the others keep it so.
    pub fn advance(&mut self, world: &mut World) -> Advance
        requires { IsOfRun world.old.head self.old.number (seen self.old) }
        ensures number { self.new.number ≡ self.old.number }
        ensures turn { IsTurn self.old.number world.old (seen self.old)
            (record { answer = result; world = world.new; processor = seen self.new }) }

        ensures leaves { Leaves world.old world.new (seen self.old) (seen self.new) }
        ensures run { IsOfRun world.new.head self.new.number (seen self.new) }
        ensures home { StaysAtHome self.old.number world.old world.new (seen self.old)
            (seen self.new) }
        ensures told { KeepsTold self.old.number world.old world.new (seen self.old)
            (seen self.new) }
        ensures stopped { StaysIfStopped world.old world.new (seen self.old) (seen self.new)
            result }
    {
        self.turn(world)
    }
}
