ghost use Rattle.std.specs.Prelude.{◌≡◌, ◌≢◌, ◌<◌, ◌∷◌, [], length, map, None, IfOk, IfSome};
ghost use Rattle.std.specs.Prelude.{IsTrue, IsNone, OnErr, ◌↔◌, true, false};
ghost use mathlib.Core.List.{IsPrefix};
ghost use Rattle.pg_guest.specs.Held.{seen};
ghost use Rattle.pg_guest.specs.Runs.{AreNew};
ghost use Rattle.pg_guest.specs.CoreRun.{IsCoreRun, unwritten};
ghost use Rattle.pg_guest.specs.Laws.{IsQuiet};
ghost use Rattle.pg_guest.specs.Transcripts.{AreTold};
ghost use Rattle.pg_guest.specs.Reading.{Scripted};
ghost use Rattle.pg_guest.specs.Tasks.{instructions_of};
ghost use Rattle.pg_world.specs.Kept.{IsSegment};
ghost use Rattle.pg_world.specs.Recording.{sealed_count, segment_of};
ghost use Rattle.pg_runner.specs.Seats.{IsPair};
ghost use Rattle.pg_runner.specs.Boards.{HasToldAll, IsBoard, IsRunOf, after_take, counts_of};
ghost use Rattle.pg_runner.specs.Boards.{stored_after};

use crate::counts::Counts;
use crate::finished::Finished;
use crate::progress::Progress;
use crate::publisher::Publisher;
use crate::turns::turn;
use pg_event::{Event, Header};
use pg_guest::{Advance, Processor, Script, Stop, processors, same_instructions};
use pg_world::World;
use std::alloc::{AllocError, Global};
use std::marker::Model;

/// A record in the making and the processors that make it, and the progress that tells how far they
/// have come. It keeps true that turns of some script's processors lead to it, so whoever takes it
/// out of a lock knows that its record is accepted and all its processors are at home.
#[derive(Drop)]
pub struct Board<'a> {
    world: World,
    processors: Vec<Processor<'a>>,
    publisher: Publisher,
    progress: &'a Progress,
}

impl<'a> Model for Board<'a> {
    ghost use Rattle.std.specs.Prelude.{◌≡◌};
    ghost use Rattle.pg_runner.specs.Boards.{Desk, IsBoard};

    ghost Value = { Desk };

    ghost view = { λ b. record {
      world = b.world;
      processors = b.processors.items;
      publisher = b.publisher;
    } };

    ghost invariant = { λ b. IsBoard b.world b.processors.items
        × (b.publisher.word ≡ b.progress.now) };
}

/// How far a record has come.
fn counts_of(world: &World) -> Counts
    ensures counts { result ≡ counts_of world.now }
    ensures pair { IsPair result }
{
    Counts {
        events: world.len() as u32,
        segments: world.sealed() as u32,
    }
}

/// Whether a processor has the instructions that a script has for it.
fn has_instructions(processor: &Processor<'_>, script: &Script) -> bool
    ensures { let h = processor.now in
        IsTrue result ↔ (h.instructions ≡ instructions_of h.number script.now.tasks) }
{
    same_instructions(
        processor.instructions(),
        script.instructions(processor.number()),
    )
}

impl<'a> Board<'a> {
    /// The processors of a script, each before the first of its instructions, and nothing recorded.
    /// Fails where memory is refused.
    pub fn new(
        alloc: Global,
        script: &'a Script,
        publisher: Publisher,
        progress: &'a Progress,
    ) -> Result<Board<'a>, AllocError>
        requires { publisher.word ≡ progress.now }
        ensures world { IfOk result (λ board. board.world ≡ unwritten script.now.head) }
        ensures processors { IfOk result (λ board. AreNew script.now board.processors) }
        ensures publisher { IfOk result (λ board. board.publisher ≡ publisher) }
    {
        let world = World::new(alloc, script.header().clone()?);
        let processors = processors(alloc, script)?;
        Ok(Board {
            world,
            processors,
            publisher,
            progress,
        })
    }

    /// How many processors there are.
    pub fn count(&self) -> usize
        ensures { result ≡ length self.now.processors }
    {
        self.processors.len()
    }

    /// The settings of the run. Of what a board keeps it says the most: its record is accepted and
    /// not finished, all processors are at home, and their transcripts are told.
    pub fn header(&self) -> &Header
        ensures header { result.now ≡ self.now.world.head }
        ensures quiet { IsQuiet self.now.world (map seen self.now.processors) }
        ensures told { AreTold self.now.world (map seen self.now.processors) }
        ensures open { self.now.world.finished ≡ false }
    {
        self.world.header()
    }

    /// One turn of processor `p`, after which the counts of the record are stored. It is never
    /// stopped because the record is finished.
    pub fn turn(&mut self, p: u16) -> Advance
        requires { p < length self.old.processors }
        ensures turn { IsCoreRun self.old.world (map seen self.old.processors)
            (p ∷ []) (result ∷ []) self.new.world (map seen self.new.processors) }
        ensures count { length self.new.processors ≡ length self.old.processors }
        ensures grows { IsPrefix self.old.world.events self.new.world.events }
        ensures ended { result ≡ Advance.Ended → HasToldAll p (map seen self.new.processors) }
        ensures going { result ≢ Advance.Stopped Stop.Finished }
        ensures script { (script : Scripted) →
            IsRunOf script self.old.world self.old.processors →
            IsRunOf script self.new.world self.new.processors }
        ensures stored { self.new.publisher ≡ stored_after self.old.publisher self.new.world }
    {
        let answer = turn(&mut self.world, &mut self.processors, p);
        self.publisher.store(self.progress, counts_of(&self.world));
        answer
    }

    /// A copy of the next sealed segment that was not yet given out, if there is one; else no
    /// memory is taken. Fails where memory is refused, and then the same segment is the next.
    pub fn take_sealed(&mut self, alloc: Global) -> Result<Option<Vec<Event>>, AllocError>
        ensures none { IfOk result
            (λ taken. IsNone taken ↔ (self.old.world.taken ≡ sealed_count self.old.world)) }
        ensures segment { IfOk result (λ taken. IfSome taken
            (λ segment. segment.items ≡ segment_of self.old.world self.old.world.taken)) }
        ensures formed { IfOk result (λ taken. IfSome taken
            (λ segment. IsSegment self.old.world segment.items)) }
        ensures taken { IfOk result (λ taken. self.new ≡ after_take taken self.old) }

        ensures refused { OnErr result (self.old.world.taken < sealed_count self.old.world) }
        ensures err { OnErr result (self.new ≡ self.old) }
    {
        self.world.take_sealed(alloc)
    }

    /// Whether its settings and the instructions of its processors are those of a script.
    pub fn is_of(&self, script: &Script) -> bool
        ensures { IsTrue result ↔ (IsRunOf script.now self.now.world self.now.processors) }
    {
        if !self.header().is_same(script.header()) {
            return false;
        }
        for p in 0..self.processors.len() {
            if !has_instructions(&self.processors[p], script) {
                return false;
            }
        }
        true
    }

    /// Finishes the record, and stores its counts.
    pub fn finish(self) -> Finished<'a>
        ensures world { result.world ≡ record self.entry.world { finished = true } }
        ensures processors { result.processors.items ≡ self.entry.processors }
        ensures stored { result.publisher ≡ stored_after self.entry.publisher result.world }
        ensures kept { IsBoard self.entry.world self.entry.processors }
    {
        let Board {
            mut world,
            processors,
            mut publisher,
            progress,
        } = self;
        world.finish();
        publisher.store(progress, counts_of(&world));
        Finished {
            world,
            processors,
            publisher,
        }
    }
}
