//! Calls that are called once more where memory was refused: the first has left all as it was.

ghost use Rattle.std.specs.Prelude.{◌≡◌, ◌+◌, ◌<◌, ◌^◌, ◌++◌, ◌↔◌, length, IfOk, IfSome};
ghost use Rattle.std.specs.Prelude.{IsNone, OnOk, OnErr, is_some, if◌then◌else◌};
ghost use Rattle.pg_check.specs.Kept.{AreWellFormed};
ghost use Rattle.pg_guest.specs.Runs.{ArePlaced};
ghost use Rattle.pg_machine.specs.Listed.{state_of};
ghost use Rattle.pg_machine.specs.Machine.{MayTake, after};
ghost use Rattle.pg_test_retry.specs.Again.{IsCounted, TookTurn, one_more, stand};
ghost use Rattle.pg_world.specs.Kept.{IsSegment};
ghost use Rattle.pg_world.specs.Recording.{sealed_count, segment_of, with_taken};

use pg_check::History;
use pg_event::Event;
use pg_guest::{Advance, Processor, Stop};
use pg_machine::{Machine, Step, Stuck};
use pg_world::World;
use std::alloc::{AllocError, Global};

/// A turn of the processor at a place. Where running out of memory stops it, another one begins the
/// instruction again.
pub(crate) fn turn(
    world: &mut World,
    guests: &mut [Processor<'_>],
    p: u16,
    refused: &mut u64,
) -> Advance
    requires placed { ArePlaced world.old.head guests.old }
    requires within { p < length guests.old }
    ensures turned { TookTurn p result (stand world.old guests.old refused.old)
        (stand world.new guests.new refused.new) }
    ensures placed { ArePlaced world.new.head guests.new }
    ensures count { length guests.new ≡ length guests.old }
{
    let answer = pg_runner::turn(world, guests, p);
    if answer != Advance::Stopped(Stop::Memory) {
        return answer;
    }
    *refused = refused.wrapping_add(1);
    pg_runner::turn(world, guests, p)
}

/// A copy of the next sealed segment that was not yet given out, if there is one.
pub(crate) fn take_sealed(
    alloc: Global,
    world: &mut World,
    refused: &mut u64,
) -> Result<Option<Vec<Event>>, AllocError>
    ensures none { IfOk result
        (λ taken. IsNone taken ↔ (world.old.taken ≡ sealed_count world.old)) }
    ensures segment { IfOk result (λ taken. IfSome taken
        (λ segment. segment.items ≡ segment_of world.old world.old.taken)) }
    ensures formed { IfOk result (λ taken. IfSome taken
        (λ segment. IsSegment world.old segment.items)) }
    ensures taken { IfOk result (λ taken. world.new
        ≡ (if is_some taken then with_taken world.old else world.old)) }

    ensures refused { OnErr result (world.old.taken < sealed_count world.old) }
    ensures err { OnErr result (world.new ≡ world.old) }
    ensures counted { IsCounted refused.old refused.new }
    ensures twice { OnErr result (refused.new ≡ one_more refused.old) }
{
    match world.take_sealed(alloc) {
        Ok(segment) => Ok(segment),
        Err(_) => {
            *refused = refused.wrapping_add(1);
            world.take_sealed(alloc)
        }
    }
}

/// Adds events to a history.
pub(crate) fn extend(
    history: &mut History,
    events: &[Event],
    refused: &mut u64,
) -> Result<(), AllocError>
    requires well { AreWellFormed history.old.head events.now }
    requires count { length history.old.events + length events.now < 2 ^ 32 }
    ensures ok { OnOk result (history.new
        ≡ record { head = history.old.head; events = history.old.events ++ events.now }) }
    ensures err { OnErr result (history.new ≡ history.old) }
    ensures counted { IsCounted refused.old refused.new }
    ensures twice { OnErr result (refused.new ≡ one_more refused.old) }
{
    match history.extend(events) {
        Ok(()) => Ok(()),
        Err(_) => {
            *refused = refused.wrapping_add(1);
            history.extend(events)
        }
    }
}

/// Has the machine take a step.
pub(crate) fn step(machine: &mut Machine, step: &Step, refused: &mut u64) -> Result<(), Stuck>
    ensures taken { OnOk result (MayTake machine.old.head (state_of machine.old) step.now) }
    ensures after { OnOk result
        (state_of machine.new ≡ after machine.old.head (state_of machine.old) step.now) }
    ensures err { OnErr result (machine.new ≡ machine.old) }
    ensures counted { IsCounted refused.old refused.new }
{
    match machine.step(step) {
        Err(Stuck::Memory) => {
            *refused = refused.wrapping_add(1);
            machine.step(step)
        }
        answer => answer,
    }
}
