//! Records audited by many checkers.

use crate::streams::ten_segments;
use pg_codec::Watched;
use pg_event::Reason;
use pg_pool::Gate;
use pg_report::{AuditError, Verdict, audit, audit_watched};
use pg_test_support::{Case, Row, answers};
use std::alloc::AllocGlobal;
use std::sync::Wait;
use std::sync::atomic::{AtomicU64, Ordering};
use std::test::Fail;
use std::thread::{self, Threads};

/// How often a waiting thread yields before a test fails.
const TURNS: u32 = 10_000_000;

/// What an audit by so many checkers comes to.
fn audited<T: AllocGlobal + Threads + Wait + Sync>(
    rt: &T,
    checkers: u32,
    input: &mut Watched<&[u8]>,
    output: &mut Watched<Vec<u8>>,
) -> Result<Verdict, AuditError> {
    audit(rt, rt.alloc(), input, output, checkers)
}

/// Whether so many checkers find event 7 bad, and the report of the ten segments is written.
fn is_told<T: AllocGlobal + Threads + Wait + Sync>(rt: &T, checkers: u32, ten: &Row<'_>) -> bool {
    let mut input = Watched::new(ten.input.as_slice());
    let mut output = Watched::new(Vec::new(rt.alloc()));
    let verdict = audited(rt, checkers, &mut input, &mut output);
    let no = Ok(Verdict::No {
        event: 7,
        reason: Reason::Answer,
    });
    verdict == no && output.inner.as_slice() == ten.output.as_bytes()
}

#[test]
fn the_same_by_any_number_of_checkers(rt: HostRuntime) -> Result<(), Fail> {
    let ten = ten_segments(rt.alloc())?;
    for checkers in [1, 2, 7, 64] {
        assert!(rt; is_told(&rt, checkers, &ten), "{checkers}");
    }
    Ok(())
}

#[test]
fn the_same_by_the_program(rt: HostRuntime) -> Result<(), Fail> {
    let ten = ten_segments(rt.alloc())?;
    for checkers in ["1", "2", "7", "64"] {
        let by_many = Case {
            words: &["check", "--checkers", checkers],
            ..ten.case()
        };
        assert!(rt; answers(&rt, by_many), "{}", by_many.name);
    }
    Ok(())
}

/// Whether so many checkers are refused, and nothing is read or written.
fn is_refused<T: AllocGlobal + Threads + Wait + Sync>(rt: &T, checkers: u32, bytes: &[u8]) -> bool {
    let mut input = Watched::new(bytes);
    let mut output = Watched::new(Vec::new(rt.alloc()));
    let refused = audited(rt, checkers, &mut input, &mut output);
    let is_unread = input.inner.len() == bytes.len() && output.inner.is_empty();
    refused == Err(AuditError::Checkers) && is_unread
}

#[test]
fn no_checkers_or_too_many(rt: HostRuntime) -> Result<(), Fail> {
    let ten = ten_segments(rt.alloc())?;
    for checkers in [0, 65] {
        assert!(rt; is_refused(&rt, checkers, &ten.input), "{checkers}");
    }
    assert!(rt; AuditError::Checkers.number() == 15);
    Ok(())
}

/// Holds segment 0 until segment 1 has left, and segment 1 until segment 0 has come. It keeps the
/// worker of each, and counts all that come.
#[derive(Drop)]
struct Held {
    came: AtomicU64,
    left: AtomicU64,
    comings: AtomicU64,
    workers: [AtomicU64; 2],
    failed: AtomicU64,
}

fn comes(flag: &AtomicU64) -> bool {
    for _ in 0..TURNS {
        if flag.load(Ordering::SeqCst) > 0 {
            return true;
        }
        thread::yield_now();
    }
    false
}

impl Held {
    /// Both came in time, ten segments came, and the first two to different workers, whichever of
    /// these: who begins late finds that the other took segment 0 from its deque.
    fn is_met(&self) -> bool {
        let first = self.workers[0].load(Ordering::SeqCst);
        let second = self.workers[1].load(Ordering::SeqCst);
        self.failed.load(Ordering::SeqCst) == 0
            && self.comings.load(Ordering::SeqCst) == 10
            && first != 0
            && second != 0
            && first != second
    }

    fn await_other(&self, number: usize) -> bool {
        if number == 0 {
            self.came.store(1, Ordering::SeqCst);
            comes(&self.left)
        } else {
            comes(&self.came)
        }
    }
}

impl Gate for Held {
    fn enter(&self, worker: u32, number: u64) {
        self.comings.fetch_add(1, Ordering::SeqCst);
        if number < 2 {
            self.workers[number as usize].store(1 + worker as u64, Ordering::SeqCst);
            if !self.await_other(number as usize) {
                self.failed.store(1, Ordering::SeqCst);
            }
        }
    }

    fn leave(&self, _worker: u32, number: u64) {
        if number == 1 {
            self.left.store(1, Ordering::SeqCst);
        }
    }
}

/// Whether two checkers judge the ten segments through this gate, and the report is written.
fn is_judged_by_two<T: AllocGlobal + Threads + Wait + Sync>(
    rt: &T,
    ten: &Row<'_>,
    gate: &Held,
) -> bool {
    let mut input = Watched::new(ten.input.as_slice());
    let mut output = Watched::new(Vec::new(rt.alloc()));
    let verdict = audit_watched(rt, rt.alloc(), &mut input, &mut output, 2, gate);
    verdict.is_ok() && output.inner.as_slice() == ten.output.as_bytes()
}

#[test]
fn two_checkers_of_one_record_at_the_same_time(rt: HostRuntime) -> Result<(), Fail> {
    let ten = ten_segments(rt.alloc())?;
    let gate = Held {
        came: AtomicU64::new(0),
        left: AtomicU64::new(0),
        comings: AtomicU64::new(0),
        workers: [AtomicU64::new(0), AtomicU64::new(0)],
        failed: AtomicU64::new(0),
    };
    assert!(rt; is_judged_by_two(&rt, &ten, &gate) && gate.is_met());
    Ok(())
}
