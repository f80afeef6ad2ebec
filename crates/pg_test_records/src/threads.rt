ghost use Rattle.std.specs.Prelude.{◌≡◌};
ghost use Rattle.pg_event.specs.Spelling.{IsRecord};
ghost use Rattle.pg_runner.specs.Runs.{record_of};

use crate::boards::STALE;
use crate::receipts::{receipt_of, script_of};
use crate::written::{Written, event_of};
use pg_codec::{Watched, write_record};
use pg_event::{Outcome, Record};
use pg_guest::{Advance, Script};
use pg_pool::{Gate, OpenGate};
use pg_report::{Report, Verdict};
use pg_runner::{
    Board, Counts, Progress, Publisher, RunError, RunResult, run_guest, run_guest_watched,
};
use pg_world::Receipt;
use std::alloc::{AllocError, AllocGlobal, Global};
use std::sync::atomic::{AtomicU64, Ordering};
use std::sync::{Mutex, Wait};
use std::test::Fail;
use std::thread::{self, Threads};

/// How often a waiting thread yields before a test fails.
const TURNS: u32 = 10_000_000;

/// Whether a flag is raised in time.
fn is_raised(flag: &AtomicU64) -> bool {
    for _ in 0..TURNS {
        if flag.load(Ordering::SeqCst) > 0 {
            return true;
        }
        thread::yield_now();
    }
    false
}

/// Holds the first instruction of processor 0 until that of processor 1 has left, and that of
/// processor 1 until that of processor 0 has come.
#[derive(Drop)]
struct OtherFirst {
    came: AtomicU64,
    left: AtomicU64,
    failed: AtomicU64,
}

impl Gate for OtherFirst {
    fn enter(&self, worker: u32, number: u64) {
        if number > 0 {
            return;
        }
        let raised = if worker == 0 {
            self.came.store(1, Ordering::SeqCst);
            is_raised(&self.left)
        } else {
            is_raised(&self.came)
        };
        if !raised {
            self.failed.store(1, Ordering::SeqCst);
        }
    }

    fn leave(&self, worker: u32, _number: u64) {
        if worker == 1 {
            self.left.store(1, Ordering::SeqCst);
        }
    }
}

/// Processor 1's read, before anything was written.
const FAULT_OF_ONE: Written = Written::Access {
    p: 1,
    flags: 4,
    la: 0x5123,
    outcome: Outcome::Fault(4),
    at: &[0],
};

/// Whether a report is a yes, with these counts.
pub(crate) fn is_accepted(report: Report, events: u64, segments: u64) -> bool {
    report
        == Report {
            verdict: Verdict::Yes,
            events,
            segments,
        }
}

/// How many bytes a record has.
fn size_of(alloc: Global, trace: &Record) -> Option<usize>
    requires { IsRecord (record_of trace.now) }
{
    let mut sink = Watched::new(Vec::new(alloc));
    write_record(&mut sink, &trace.header, &trace.events).ok()?;
    Some(sink.inner.len())
}

/// Whether its fault is the first event, and the record has as many bytes as these ten events
/// spell.
fn is_fault_first(alloc: Global, trace: &Record) -> bool
    requires { IsRecord (record_of trace.now) }
{
    let first = trace.events.first().copied();
    first.is_some() && first == event_of(&FAULT_OF_ONE) && size_of(alloc, trace) == Some(273)
}

/// Whether there are nine receipts of processor 0, and the fault's of processor 1.
fn are_nine_and_fault(transcripts: &[Vec<Receipt>]) -> bool {
    let (Some(own), Some(other)) = (transcripts.first(), transcripts.last()) else {
        return false;
    };
    let fault = receipt_of(0, &FAULT_OF_ONE);
    (transcripts.len(), own.len(), other.len()) == (2, 9, 1)
        && fault.is_some()
        && other.first().copied() == fault
}

/// Whether the fault of processor 1 is the first of all ten events.
fn is_other_first(alloc: Global, run: &RunResult) -> bool
    requires { IsRecord (record_of run.now.trace) }
{
    is_accepted(run.report, 10, 1)
        && is_fault_first(alloc, &run.trace)
        && are_nine_and_fault(&run.transcripts)
}

/// Whether processor 1 comes first where the gate has processor 0 wait for it.
fn is_other_first_by<T: AllocGlobal + Threads + Wait + Sync>(
    rt: &T,
    script: &Script,
    gate: &OtherFirst,
) -> Result<bool, Fail> {
    let run = run_guest(rt, rt.alloc(), script, 2, gate)?;
    Ok(is_other_first(rt.alloc(), &run))
}

#[test]
fn both_run_at_the_same_time(rt: HostRuntime) -> Result<(), Fail> {
    let script = script_of(rt.alloc(), STALE)?;
    let gate = OtherFirst {
        came: AtomicU64::new(0),
        left: AtomicU64::new(0),
        failed: AtomicU64::new(0),
    };
    let is_first = is_other_first_by(&rt, &script, &gate)?;
    assert!(rt; is_first && gate.failed.load(Ordering::SeqCst) == 0);
    Ok(())
}

/// Whether so many checkers judge the run of a script of ten events, or are refused.
fn is_judged_or_refused<T: AllocGlobal + Threads + Wait + Sync>(
    rt: &T,
    script: &Script,
    checkers: u32,
) -> bool {
    match run_guest(rt, rt.alloc(), script, checkers, &OpenGate) {
        Ok(run) => matches!(checkers, 1 | 64) && is_accepted(run.report, 10, 1),
        Err(error) => matches!(checkers, 0 | 65) && error == RunError::Checkers,
    }
}

#[test]
fn numbers_of_checkers(rt: HostRuntime) -> Result<(), Fail> {
    let script = script_of(rt.alloc(), STALE)?;
    for checkers in [0, 1, 64, 65] {
        assert!(rt; is_judged_or_refused(&rt, &script, checkers), "{checkers}");
    }
    Ok(())
}

/// A page mapped, read, taken away, read from what is cached, invalidated and read again, in
/// segments of two events.
const SEGMENTS: &[u8] = b"pcid-guest 1
machine 40 wp nxe
segment 2
cpu 0x1001 1
0 write 0x1000 0x2007
0 write 0x2000 0x3007
0 write 0x3000 0x4007
0 write 0x4028 0x9007
0 read 0x5123 user
0 write 0x4028 0x0
0 read 0x5123 user
0 invlpg 0x5000
0 read 0x5123 user
";

/// Holds the last instruction until the checkers have left segment 0.
#[derive(Drop)]
struct LastWaits<'a> {
    judged: &'a AtomicU64,
    failed: AtomicU64,
}

impl<'a> Gate for LastWaits<'a> {
    fn enter(&self, _worker: u32, number: u64) {
        if number == 8 && !is_raised(self.judged) {
            self.failed.store(1, Ordering::SeqCst);
        }
    }

    fn leave(&self, _worker: u32, _number: u64) {}
}

/// Says when segment 0 has been judged.
#[derive(Drop)]
struct Tells<'a> {
    judged: &'a AtomicU64,
}

impl<'a> Gate for Tells<'a> {
    fn enter(&self, _worker: u32, _number: u64) {}

    fn leave(&self, _worker: u32, number: u64) {
        if number == 0 {
            self.judged.store(1, Ordering::SeqCst);
        }
    }
}

/// Whether a run of nine events in five segments is accepted, through these gates.
fn is_accepted_through<T: AllocGlobal + Threads + Wait + Sync>(
    rt: &T,
    script: &Script,
    gate: &LastWaits<'_>,
    tells: &Tells<'_>,
) -> Result<bool, Fail> {
    let run = run_guest_watched(rt, rt.alloc(), script, 1, gate, tells)?;
    Ok(is_accepted(run.report, 9, 5))
}

#[test]
fn judged_while_a_processor_runs(rt: HostRuntime) -> Result<(), Fail> {
    let script = script_of(rt.alloc(), SEGMENTS)?;
    let judged = AtomicU64::new(0);
    let gate = LastWaits {
        judged: &judged,
        failed: AtomicU64::new(0),
    };
    let tells = Tells { judged: &judged };
    let is_right = is_accepted_through(&rt, &script, &gate, &tells)?;
    assert!(rt; is_right && gate.failed.load(Ordering::SeqCst) == 0);
    Ok(())
}

/// Gives a processor a turn in each hold of the lock, until it has ended.
fn turn_to_end<R: Wait>(rt: &R, shared: &Mutex<Board<'_>>, p: u16) {
    for _ in 0..100u32 {
        let mut board = shared.lock(rt);
        if p as usize >= board.count() || matches!(board.turn(p), Advance::Ended) {
            return;
        }
    }
}

/// Turns two processors to their end, each in a thread of its own, and joins these. Says whether
/// both were started.
fn end_in_threads<R: Threads + Wait + Sync>(rt: &R, shared: &Mutex<Board<'_>>) -> bool {
    thread::scope(thread::scope_env(), rt, |scope| -> bool {
        let first = scope.spawn(move || turn_to_end(rt, shared, 0));
        let second = scope.spawn(move || turn_to_end(rt, shared, 1));
        let mut joined = 0;
        if let Ok(handle) = first {
            handle.join(rt);
            joined += 1;
        }
        if let Ok(handle) = second {
            handle.join(rt);
            joined += 1;
        }
        joined == 2
    })
}

/// How many events there are once the processors' threads are joined and the record is finished.
fn events_after_joins<R: AllocGlobal + Threads + Wait + Sync>(
    rt: &R,
    script: &Script,
    publisher: Publisher,
    progress: &Progress,
) -> Result<Option<u64>, AllocError>
    requires { publisher.word ≡ progress.now }
{
    let shared = Mutex::new(Board::new(rt.alloc(), script, publisher, progress)?);
    let ended = end_in_threads(rt, &shared);
    Ok(ended.then_some(shared.into_inner().finish().world.len()))
}

/// What a reader sees then, who read before the threads were started, and how many events there
/// are.
fn counts_after_joins<R: AllocGlobal + Threads + Wait + Sync>(
    rt: &R,
    script: &Script,
) -> Result<(Counts, Option<u64>), Fail> {
    let (progress, publisher, mut seats) = Progress::open(rt.alloc(), 1)?;
    let mut seat = seats.pop().ok_or("no reader")?;
    let _before = progress.read(&mut seat);
    let events = events_after_joins(rt, script, publisher, &progress)?;
    Ok((progress.read(&mut seat), events))
}

#[test]
fn counts_after_the_threads_are_joined(rt: HostRuntime) -> Result<(), Fail> {
    let script = script_of(rt.alloc(), STALE)?;
    let all = Counts {
        events: 10,
        segments: 1,
    };
    assert!(rt; counts_after_joins(&rt, &script)? == (all, Some(10)));
    Ok(())
}
