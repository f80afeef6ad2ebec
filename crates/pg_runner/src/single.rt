//! Runs on one thread, the lines of the script in their order.

ghost use Rattle.std.specs.Prelude.{◌≡◌, ◌+◌, ◌<◌, length, map, IfOk, IfErr, OnOk};
ghost use Rattle.pg_guest.specs.Held.{seen};
ghost use Rattle.pg_guest.specs.Runs.{ArePlaced};
ghost use Rattle.pg_event.specs.Spelling.{IsRecord};
ghost use Rattle.pg_runner.specs.Lines.{AreCarriedOut, IsSingleRun};
ghost use Rattle.pg_runner.specs.Runs.{record_of};

use crate::error::RunError;
use crate::record_report::report_of_record;
use crate::result::RunResult;
use crate::turns::turn;
use pg_guest::{Advance, Processor, Script, Stop, processors};
use pg_world::{Receipt, World};
use std::alloc::{AllocError, Global};

/// An instruction takes so many turns at most where no other processor has one between.
const MOST_TURNS: usize = 9;

/// Carries out the line with this number, counted from 0, after all lines before it.
fn carry_out(
    script: &Script,
    line: usize,
    world: &mut World,
    processors: &mut [Processor<'_>],
) -> Result<(), AllocError>
    requires line { line < length script.now.tasks }
    requires placed { ArePlaced world.old.head processors.old }
    requires before { AreCarriedOut script.now line world.old (map seen processors.old) }
    ensures placed { ArePlaced world.new.head processors.new }
    ensures after { OnOk result
        (AreCarriedOut script.now (line + 1) world.new (map seen processors.new)) }
{
    let p = script.order()[line];
    for _ in 0..MOST_TURNS {
        match turn(world, processors, p) {
            Advance::Read(_) | Advance::Assisted(_) => {}
            Advance::Done(_) => return Ok(()),
            Advance::Stopped(Stop::Memory) => return Err(AllocError),
            Advance::Stopped(Stop::Full) => unreachable!(),
            Advance::Stopped(Stop::Finished) => unreachable!(),
            Advance::Ended => unreachable!(),
        }
    }
    unreachable!()
}

/// Carries out all lines, in their order.
fn carry_out_all(
    script: &Script,
    world: &mut World,
    processors: &mut [Processor<'_>],
) -> Result<(), AllocError>
    requires placed { ArePlaced world.old.head processors.old }
    requires before { AreCarriedOut script.now 0 world.old (map seen processors.old) }
    ensures { OnOk result
        (AreCarriedOut script.now (length script.now.tasks) world.new (map seen processors.new)) }
{
    for line in 0..script.order().len() {
        carry_out(script, line, world, processors)?;
    }
    Ok(())
}

/// The receipts of each processor.
pub fn transcripts_of(
    alloc: Global,
    processors: Vec<Processor<'_>>,
) -> Result<Vec<Vec<Receipt>>, AllocError>
    ensures { IfOk result (λ all. map (λ own. own.items) all.items
        ≡ map (λ h. h.transcript) processors.entry.items) }
{
    let mut all = Vec::new(alloc);
    for processor in processors {
        all.push(processor.into_transcript())?;
    }
    Ok(all)
}

/// Runs a script on the calling thread alone, its lines in their order, each to its end, and then
/// judges the record. It fails where memory is refused alone, and then nothing is handed out.
pub fn run_single(alloc: Global, script: &Script) -> Result<RunResult, RunError>
    ensures ok { IfOk result (λ run. IsSingleRun script.now run) }
    ensures formed { IfOk result (λ run. IsRecord (record_of run.trace)) }
    ensures err { IfErr result (λ e. e ≡ RunError.Memory) }
{
    let mut world = World::new(alloc, script.header().clone()?);
    let mut guests = processors(alloc, script)?;
    carry_out_all(script, &mut world, &mut guests)?;
    world.finish();
    let trace = world.into_record();
    let report = report_of_record(alloc, &trace)?;
    let transcripts = transcripts_of(alloc, guests)?;
    Ok(RunResult {
        trace,
        report,
        transcripts,
    })
}
