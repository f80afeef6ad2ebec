//! The run of a script that has one processor.

ghost use Rattle.std.specs.Prelude.{◌≡◌, ◌<◌, length, IfOk};
ghost use Rattle.pg_event.specs.Spelling.{IsRecord};
ghost use Rattle.pg_guest.specs.Runs.{ArePlaced};
ghost use Rattle.pg_guest.specs.CoreRun.{unwritten};
ghost use Rattle.pg_runner.specs.Runs.{record_of};

use crate::again::{take_sealed, turn};
use pg_event::Record;
use pg_guest::{Advance, Processor, Script, processors};
use pg_world::World;
use std::alloc::{AllocError, Global};

/// More turns than the instructions of a short script take.
const TURNS: usize = 1000;

/// A run's record, and how many of its events were given out in segments.
#[derive(Drop)]
pub(crate) struct Ran {
    pub trace: Record,
    pub given: u64,
}

/// Turns of the first processor until it has ended.
fn turn_to_end(
    world: &mut World,
    guests: &mut [Processor<'_>],
    refused: &mut u64,
) -> Result<(), AllocError>
    requires placed { ArePlaced world.old.head guests.old }
    requires some { 0 < length guests.old }
{
    for _ in 0..TURNS {
        match turn(world, guests, 0, refused) {
            Advance::Read(_) | Advance::Assisted(_) | Advance::Done(_) => {}
            Advance::Ended => return Ok(()),
            Advance::Stopped(_) => return Err(AllocError),
        }
    }
    Err(AllocError)
}

/// Takes all segments that are sealed, and says how many events they have.
fn take_all(alloc: Global, world: &mut World, refused: &mut u64) -> Result<u64, AllocError> {
    let mut given = 0u64;
    for _ in 0..world.sealed() {
        if let Some(segment) = take_sealed(alloc, world, refused)? {
            given = given.wrapping_add(segment.len() as u64);
        }
    }
    Ok(given)
}

/// Turns of the first processor of a script, which has all its instructions.
fn carry_out(
    alloc: Global,
    script: &Script,
    world: &mut World,
    refused: &mut u64,
) -> Result<(), AllocError>
    requires { world.old ≡ unwritten script.now.head }
{
    let mut guests = processors(alloc, script)?;
    if guests.is_empty() {
        return Err(AllocError);
    }
    turn_to_end(world, &mut guests, refused)
}

/// Runs a script whose first processor has all its instructions.
pub(crate) fn run(alloc: Global, script: &Script, refused: &mut u64) -> Result<Ran, AllocError>
    ensures { IfOk result (λ ran. IsRecord (record_of ran.trace)) }
{
    let mut world = World::new(alloc, script.header().clone()?);
    carry_out(alloc, script, &mut world, refused)?;
    world.finish();
    let given = take_all(alloc, &mut world, refused)?;
    Ok(Ran {
        trace: world.into_record(),
        given,
    })
}
