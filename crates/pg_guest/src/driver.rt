//! Runs of processors, turn by turn.

ghost use Rattle.std.specs.Prelude.{◌≡◌, ◌<◌, length, map, IfOk, OnErr};
ghost use Rattle.std.specs.List.{AllByRecursion};
ghost use Rattle.pg_guest.specs.CoreRun.{unwritten, IsCoreRun};
ghost use Rattle.pg_guest.specs.Laws.{IsQuiet};
ghost use Rattle.pg_guest.specs.Leaves.{LeaveAll};
ghost use Rattle.pg_guest.specs.Transcripts.{AreTold};
ghost use Rattle.pg_guest.specs.Held.{seen};
ghost use Rattle.pg_guest.specs.Runs.{ArePlaced, IsNew, AreNew};

use crate::advance::Advance;
use crate::processor::Processor;
use crate::script::Script;
use pg_world::World;
use std::alloc::{AllocError, Global};

/// Processor `p` of a script, before the first of its instructions.
fn processor_of(alloc: Global, script: &Script, p: u16) -> Processor<'_>
    requires { p < length script.now.head.processors }
    ensures { IsNew script.now p result }
{
    Processor::new(alloc, script.header(), p, script.instructions(p))
}

/// The processors of a script, each before the first of its instructions.
pub fn processors(alloc: Global, script: &Script) -> Result<Vec<Processor<'_>>, AllocError>
    ensures made { IfOk result (λ processors. AreNew script.now processors.items) }
    ensures quiet { IfOk result
        (λ processors. IsQuiet (unwritten script.now.head) (map seen processors.items)) }
    ensures told { IfOk result
        (λ processors. AreTold (unwritten script.now.head) (map seen processors.items)) }
{
    let header = script.header();
    let count = header.processors.len();
    let mut processors = Vec::new(alloc);
    for p in 0..count as u16 {
        processors.push(processor_of(alloc, script, p))?;
    }
    Ok(processors)
}

/// Gives one turn after another to the processors with these numbers, and tells what each turn came
/// to. Room for the answers is taken first: where it is refused nothing is changed.
///
/// Each processor has to stand at the place that is its number, and to be of this world's run, as
/// those that `processors` makes of the script whose header the world has; and each number has to
/// be a place among them. All stay so.
pub fn drive(
    alloc: Global,
    world: &mut World,
    processors: &mut [Processor<'_>],
    turns: &[u16],
) -> Result<Vec<Advance>, AllocError>
    requires placed { ArePlaced world.old.head processors.old }
    requires turns { AllByRecursion (λ p. p < length processors.old) turns.now }
    ensures run { IfOk result (λ answers. IsCoreRun
        world.old (map seen processors.old) turns.now answers.items
        world.new (map seen processors.new)) }
    ensures placed { ArePlaced world.new.head processors.new }
    ensures leaves { LeaveAll
        world.old world.new (map seen processors.old) (map seen processors.new) }
    ensures quiet { IsQuiet world.old (map seen processors.old) →
        IsQuiet world.new (map seen processors.new) }
    ensures told { AreTold world.old (map seen processors.old) →
        AreTold world.new (map seen processors.new) }
    ensures err { OnErr result ((world.new ≡ world.old) × (processors.new ≡ processors.old)) }
{
    let mut answers = Vec::with_capacity(alloc, turns.len())?;
    for p in turns {
        let processor = &mut processors[*p as usize];
        let answer = processor.advance(world);
        answers.push_reserved(answer);
    }
    Ok(answers)
}
