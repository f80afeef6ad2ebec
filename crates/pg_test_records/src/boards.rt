ghost use Rattle.std.specs.Prelude.{◌≡◌};

use crate::processors::{ANSWERED, TWO};
use crate::receipts::{receipt_of, script_of};
use pg_guest::{Advance, Script};
use pg_runner::{Board, Counts, Progress, Publisher};
use std::alloc::{AllocError, Global};
use std::test::Fail;

/// A page mapped, read, taken away, read from what is cached, invalidated and read again by
/// processor 0, and read by processor 1.
pub(crate) const STALE: &[u8] = b"pcid-guest 1
machine 40 wp nxe
segment 16
cpu 0x1001 1
cpu 0x1001 1
0 write 0x1000 0x2007
0 write 0x2000 0x3007
0 write 0x3000 0x4007
0 write 0x4028 0x9007
0 read 0x5123 user
0 write 0x4028 0x0
0 read 0x5123 user
0 invlpg 0x5000
0 read 0x5123 user
1 read 0x5123 user
";

/// Gives two processors a turn each, until both have ended; says whether they have.
fn turn_both(board: &mut Board<'_>) -> bool {
    let mut before = false;
    for k in 0..100u16 {
        let p = k % 2;
        if p as usize >= board.count() {
            return false;
        }
        let ended = matches!(board.turn(p), Advance::Ended);
        if ended && before {
            return true;
        }
        before = ended;
    }
    false
}

/// Whether a board is of its script, before its last turn and after it, and has no full segment.
fn is_carried_out(
    alloc: Global,
    board: &mut Board<'_>,
    script: &Script,
) -> Result<bool, AllocError> {
    let begins = board.is_of(script);
    let ends = turn_both(board);
    let is_full = board.take_sealed(alloc)?.is_some();
    Ok((begins, ends, is_full, board.is_of(script)) == (true, true, false, true))
}

/// How many events a script has, if it is carried out so.
fn events_of(
    alloc: Global,
    script: &Script,
    publisher: Publisher,
    progress: &Progress,
) -> Result<Option<u64>, AllocError>
    requires { publisher.word ≡ progress.now }
{
    let mut board = Board::new(alloc, script, publisher, progress)?;
    let is_right = is_carried_out(alloc, &mut board, script)?;
    Ok(is_right.then_some(board.finish().world.len()))
}

/// What a reader sees before the first turn and after the last, and how many events there are
/// then, if the script was carried out.
fn counts_of(alloc: Global, script: &Script) -> Result<(Counts, Counts, Option<u64>), Fail> {
    let (progress, publisher, mut seats) = Progress::open(alloc, 1)?;
    let mut seat = seats.pop().ok_or("no reader")?;
    let before = progress.read(&mut seat);
    let events = events_of(alloc, script, publisher, &progress)?;
    Ok((before, progress.read(&mut seat), events))
}

#[test]
fn counts_after_the_last_turn(rt: HostRuntime) -> Result<(), Fail> {
    let script = script_of(rt.alloc(), STALE)?;
    let none = Counts {
        events: 0,
        segments: 0,
    };
    let all = Counts {
        events: 10,
        segments: 1,
    };
    assert!(rt; counts_of(rt.alloc(), &script)? == (none, all, Some(10)));
    Ok(())
}

/// The last answer of these turns, where there are such processors.
fn last_turn(board: &mut Board<'_>, turns: &[u16]) -> Option<Advance> {
    let mut last = None;
    for p in turns {
        if *p as usize >= board.count() {
            return None;
        }
        last = Some(board.turn(*p));
    }
    last
}

/// The last answer of these turns, and how many events there are then.
fn turned(
    alloc: Global,
    script: &Script,
    turns: &[u16],
) -> Result<(Option<Advance>, u64), AllocError> {
    let (progress, publisher, _seats) = Progress::open(alloc, 0)?;
    let mut board = Board::new(alloc, script, publisher, &progress)?;
    let last = last_turn(&mut board, turns);
    Ok((last, board.finish().world.len()))
}

/// Whether the last of ten turns is answered by the read, as event 5 of six.
fn is_answered(alloc: Global, script: &Script) -> Result<bool, Fail> {
    let answered = Advance::Done(receipt_of(5, &ANSWERED).ok_or("no moments")?);
    let came = turned(alloc, script, &[0, 0, 0, 0, 0, 0, 0, 1, 0, 0])?;
    Ok(came == (Some(answered), 6))
}

#[test]
fn ten_turns_of_two_processors(rt: HostRuntime) -> Result<(), Fail> {
    let script = script_of(rt.alloc(), TWO)?;
    assert!(rt; is_answered(rt.alloc(), &script)?);
    Ok(())
}
