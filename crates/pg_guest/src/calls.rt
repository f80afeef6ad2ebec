//! Calls of the world by a turn.

ghost use Rattle.std.specs.Prelude.{◌≡◌, ◌≢◌, ◌≤◌, true, OnOk, OnErr, IfOk, IfErr, IsErrAnd};
ghost use Rattle.std.specs.Prelude.{MatchResult, Err, None};
ghost use Rattle.pg_world.specs.Recording.{receipt_of, with_event};
ghost use Rattle.pg_world.specs.Walks.{is_walk, found_in, after_found};
ghost use Rattle.pg_guest.specs.Turn.{MayStop, refused_event, refused_by};
ghost use Rattle.pg_guest.specs.Steps.{IsOwnEvent, IsStopOf, answer_of};

use crate::advance::{Advance, Stop};
use pg_entry::Cfg;
use pg_event::Event;
use pg_world::{LevelRead, Receipt, Walk, World, WorldError};

/// What paging depends on in this world.
pub(crate) fn cfg_of(world: &World) -> Cfg
    ensures value { result ≡ world.now.head.cfg }
    ensures range { (36 ≤ result.m) × (result.m ≤ 52) }
{
    world.header().cfg
}

/// Why a turn is stopped where the world refuses a call for this.
fn stop_of(error: WorldError) -> Stop
    requires { error ≢ WorldError.Malformed }
    ensures { IsStopOf error result }
{
    match error {
        WorldError::Malformed => unreachable!(),
        WorldError::Full => Stop::Full,
        WorldError::Finished => Stop::Finished,
        WorldError::Memory => Stop::Memory,
    }
}

fn answered(recorded: Result<Receipt, WorldError>) -> Result<Receipt, Stop>
    requires { recorded ≢ Err WorldError.Malformed }
    ensures { MatchResult recorded (λ receipt. result ≡ Ok receipt)
        (λ error. IsErrAnd result (IsStopOf error)) }
{
    match recorded {
        Ok(receipt) => Ok(receipt),
        Err(error) => Err(stop_of(error)),
    }
}

/// Has the world record an event of a processor that carries an instruction out.
pub(crate) fn record(world: &mut World, p: u16, event: &Event) -> Result<Receipt, Stop>
    requires { IsOwnEvent world.old.head p event.now }
    ensures receipt { IfOk result
        (λ receipt. receipt ≡ receipt_of world.old.events event.now) }
    ensures recorded { OnOk result (world.new ≡ with_event world.old event.now) }
    ensures ok { OnOk result (refused_event world.old ≡ None) }

    ensures refused { IfErr result
        (MayStop world.old (Advance.Done (receipt_of world.old.events event.now))) }
    ensures err { OnErr result (world.new ≡ world.old) }
{
    match *event {
        Event::Write { addr, value, .. } => answered(world.write(p, addr, value)),
        Event::Access { .. } => answered(world.commit(p, event)),
        Event::MovCr3 { .. }
        | Event::Invlpg { .. }
        | Event::Invpcid { .. }
        | Event::MovCr4Pge { .. } => answered(world.control(p, event)),
        Event::Assist { .. } => unreachable!(),
    }
}

/// Has the world read a level for a walk of a processor.
pub(crate) fn read_level(world: &mut World, p: u16, walk: &Walk) -> Result<LevelRead, Stop>
    requires { is_walk world.old.head p walk.now ≡ true }
    ensures found { IfOk result (λ found. found ≡ found_in world.old p walk.now) }
    ensures recorded { OnOk result
        (world.new ≡ after_found world.old (found_in world.old p walk.now)) }
    ensures ok { IfOk result
        (λ found. refused_by world.old (answer_of walk.now.level found) ≡ None) }

    ensures refused { IfErr result
        (MayStop world.old (answer_of walk.now.level (found_in world.old p walk.now))) }
    ensures err { OnErr result (world.new ≡ world.old) }
{
    match world.read_or_fault(p, walk) {
        Ok(found) => Ok(found),
        Err(error) => Err(stop_of(error)),
    }
}
