use crate::receipts::script_of;
use pg_check::{History, check_event};
use pg_event::{Event, well_formed};
use pg_guest::{Advance, Script};
use pg_runner::{Board, Progress};
use std::alloc::Global;
use std::test::Fail;

/// A page mapped, read, taken away, read from what is cached, invalidated and read again.
const STALE: &[u8] = b"pcid-guest 1
machine 40 wp nxe
segment 16
cpu 0x1001 1
0 write 0x1000 0x2007
0 write 0x2000 0x3007
0 write 0x3000 0x4007
0 write 0x4028 0x9007
0 read 0x5123 user
0 write 0x4028 0x0
0 read 0x5123 user
0 invlpg 0x5000
0 read 0x5123 user
";

/// The same where accessed flags are set.
const ASSISTED: &[u8] = b"pcid-guest 2
machine 40 wp nxe
segment 16
cpu 0x1001 1
0 write 0x1000 0x2007
0 write 0x2000 0x3007
0 write 0x3000 0x4007
0 write 0x4028 0x9007
0 read 0x5123 user
0 write 0x4028 0x0
0 read 0x5123 user
0 invlpg 0x5000
0 read 0x5123 user
";

fn add(history: &mut History, event: Event) -> Result<(), Fail> {
    if history.len() >= 100 {
        return Err(Fail::from("full"));
    }
    match well_formed(history.header(), &event) {
        Ok(()) => Ok(history.extend(&[event])?),
        Err(_) => Err(Fail::from("malformed")),
    }
}

fn all_witnessed(history: &History) -> bool {
    for i in 0..history.len() {
        if check_event(history, i).is_err() {
            return false;
        }
    }
    true
}

/// Gives processor 0 turns until it has ended, and takes in what it records. Says whether each
/// event so far was witnessed after each turn.
fn turn_all(board: &mut Board<'_>, history: &mut History) -> Result<bool, Fail> {
    for _ in 0..100u8 {
        if board.count() == 0 {
            return Ok(false);
        }
        match board.turn(0) {
            Advance::Read(_) => {}
            Advance::Assisted(receipt) | Advance::Done(receipt) => add(history, receipt.event)?,
            Advance::Ended => return Ok(true),
            Advance::Stopped(_) => return Ok(false),
        }
        if !all_witnessed(history) {
            return Ok(false);
        }
    }
    Ok(false)
}

/// The same from the start of a script.
fn run(alloc: Global, script: &Script, history: &mut History) -> Result<bool, Fail> {
    let (progress, publisher, _seats) = Progress::open(alloc, 0)?;
    let mut board = Board::new(alloc, script, publisher, &progress)?;
    turn_all(&mut board, history)
}

/// How many events a history has after a script of one processor, if all went so.
fn witnessed(alloc: Global, script: &Script, history: &mut History) -> Result<Option<u64>, Fail> {
    let is_witnessed = run(alloc, script, history)?;
    Ok(is_witnessed.then_some(history.len()))
}

/// The same of a history that begins with the script.
fn events_of(alloc: Global, script: &Script) -> Result<Option<u64>, Fail> {
    let header = script.header().clone()?;
    let mut history = History::new(alloc, header)?;
    witnessed(alloc, script, &mut history)
}

/// Whether a script has so many events, and all went so.
fn has_events(alloc: Global, text: &[u8], events: u64) -> Result<bool, Fail> {
    let script = script_of(alloc, text)?;
    Ok(events_of(alloc, &script)? == Some(events))
}

#[test]
fn every_event_after_each_turn(rt: HostRuntime) -> Result<(), Fail> {
    assert!(rt; has_events(rt.alloc(), STALE, 9)?);
    assert!(rt; has_events(rt.alloc(), ASSISTED, 13)?);
    Ok(())
}
