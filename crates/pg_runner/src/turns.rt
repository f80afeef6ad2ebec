//! Turns of processors that stand at their places.

ghost use Rattle.std.specs.Prelude.{◌≡◌, ◌<◌, ◌∷◌, [], length, map};
ghost use Rattle.pg_guest.specs.Held.{seen};
ghost use Rattle.pg_guest.specs.Runs.{ArePlaced};
ghost use Rattle.pg_guest.specs.CoreRun.{IsCoreRun};

use pg_guest::{Advance, Processor};
use pg_world::World;

/// One turn of processor `p`.
pub fn turn(world: &mut World, processors: &mut [Processor<'_>], p: u16) -> Advance
    requires placed { ArePlaced world.old.head processors.old }
    requires within { p < length processors.old }
    ensures turned { IsCoreRun world.old (map seen processors.old) (p ∷ []) (result ∷ [])
        world.new (map seen processors.new) }
    ensures placed { ArePlaced world.new.head processors.new }
    ensures count { length processors.new ≡ length processors.old }
{
    processors[p as usize].advance(world)
}
