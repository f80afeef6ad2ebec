use crate::receipts::script_of;
use crate::threads::is_accepted;
use pg_guest::Script;
use pg_runner::{RunError, run_single};
use pg_world::Receipt;
use std::alloc::Global;
use std::test::Fail;

/// A page read, taken away, read from what is cached, invalidated and read again.
const SCRIPT: &[u8] = b"pcid-guest 2
machine 40 wp nxe
segment 16
cpu 0x1001 1
cpu 0x1001 1
0 write 0x1000 0x2007
0 write 0x2000 0x3007
0 write 0x3000 0x4007
0 write 0x4028 0x9007
0 read 0x5123 user
0 write 0x4028 0x0
0 read 0x5123 user
0 invlpg 0x5000
0 read 0x5123 user
1 pge 0
";

/// Whether the first of two processors recorded 13 events, and the last one's first is event 13.
fn are_of_two(transcripts: &[Vec<Receipt>]) -> bool {
    let (Some(first), Some(last)) = (transcripts.first(), transcripts.last()) else {
        return false;
    };
    let moment = last.first().map(|receipt| receipt.moment);
    (transcripts.len(), first.len(), moment) == (2, 13, Some(13))
}

/// Whether the script above has 14 events and is accepted: four assists set accessed flags before
/// the first read.
fn is_run(alloc: Global, script: &Script) -> Result<bool, Fail> {
    let run = run_single(alloc, script)?;
    let are_all = run.trace.events.len() == 14 && are_of_two(&run.transcripts);
    Ok(are_all && is_accepted(run.report, 14, 1))
}

#[test]
fn every_line_on_one_thread(rt: HostRuntime) -> Result<(), Fail> {
    let script = script_of(rt.alloc(), SCRIPT)?;
    assert!(rt; is_run(rt.alloc(), &script)?);
    Ok(())
}

#[test]
fn errors_by_number_and_name(rt: HostRuntime) -> Result<(), Fail> {
    assert!(rt; RunError::Checkers.number() == 3);
    assert!(rt; RunError::Thread.name() == "thread refused");
    Ok(())
}
