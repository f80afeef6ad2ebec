//! Long records of one processor, audited by several checkers: each segment goes through the gate
//! once, whatever is in it, and the segments of a checker that is held back are taken by another.

use pg_codec::Watched;
use pg_event::Reason;
use pg_pool::Gate;
use pg_report::{AuditError, Verdict, audit_watched};
use std::alloc::{AllocError, AllocGlobal, Global};
use std::sync::Wait;
use std::sync::atomic::{AtomicU64, Ordering};
use std::test::Fail;
use std::thread::{self, Threads};

/// How often a waiting thread yields before a test fails.
const TURNS: u32 = 10_000_000;

/// A record that begins with four writes which map a page, and goes on with reads of it, each by a
/// walk at its own event.
#[derive(Clone, Copy)]
struct Long {
    events: u32,
    /// How many events a full segment has.
    segment: u32,
    /// The number of the read that got another page, if one did.
    bad: Option<u32>,
}

/// The address and the value of each write.
const MAPPING: [(u64, u64); 4] = [
    (0x1000, 0x2007),
    (0x2000, 0x3007),
    (0x3000, 0x4007),
    (0x4028, 0x9007),
];

/// Version 1, physical addresses of 40 bits, WP and NXE, and one processor; then the size of a
/// segment, the processor's CR3 with PCID 1, and CR4.PGE.
fn put_header(bytes: &mut Vec<u8>, segment: u32) -> Result<(), AllocError> {
    bytes.extend_from_slice(b"PGRECORD\x01\x00\x28\x03\x01")?;
    bytes.extend_from_slice(&segment.to_le_bytes())?;
    bytes.extend_from_slice(b"\x01\x10\x00\x00\x00\x00\x00\x00\x01")
}

/// A write by processor 0.
fn put_write(bytes: &mut Vec<u8>, address: u64, value: u64) -> Result<(), AllocError> {
    bytes.extend_from_slice(b"\x10\x00")?;
    bytes.extend_from_slice(&address.to_le_bytes())?;
    bytes.extend_from_slice(&value.to_le_bytes())
}

/// A user read of 0x5123 by processor 0 with four moments, all this one.
fn put_read(bytes: &mut Vec<u8>, page: u64, moment: u32) -> Result<(), AllocError> {
    bytes.extend_from_slice(b"\x11\x00\x04")?;
    bytes.extend_from_slice(&0x5123u64.to_le_bytes())?;
    bytes.extend_from_slice(b"\x00")?;
    bytes.extend_from_slice(&page.to_le_bytes())?;
    bytes.extend_from_slice(b"\x04")?;
    for _ in 0..4u32 {
        bytes.extend_from_slice(&moment.to_le_bytes())?;
    }
    Ok(())
}

fn put_event(bytes: &mut Vec<u8>, long: &Long, number: u32) -> Result<(), AllocError> {
    match MAPPING.get(number as usize) {
        Some(&(address, value)) => put_write(bytes, address, value),
        None if long.bad == Some(number) => put_read(bytes, 0x9124, number),
        None => put_read(bytes, 0x9123, number),
    }
}

/// The tag of a segment, its number, and how many events it has.
fn put_segment(bytes: &mut Vec<u8>, number: u32, count: u32) -> Result<(), AllocError> {
    bytes.extend_from_slice(b"\x01")?;
    bytes.extend_from_slice(&number.to_le_bytes())?;
    bytes.extend_from_slice(&count.to_le_bytes())
}

fn record_of(alloc: Global, long: &Long) -> Result<Vec<u8>, AllocError> {
    let mut bytes = Vec::new(alloc);
    put_header(&mut bytes, long.segment)?;
    let size = long.segment.max(1);
    for number in 0..long.events {
        if number % size == 0 {
            put_segment(&mut bytes, number / size, size.min(long.events - number))?;
        }
        put_event(&mut bytes, long, number)?;
    }
    bytes.extend_from_slice(b"\x02")?;
    bytes.extend_from_slice(&long.events.to_le_bytes())?;
    Ok(bytes)
}

/// The verdict that the record has to get.
fn verdict_of(long: &Long) -> Verdict {
    match long.bad {
        Some(event) => Verdict::No {
            event: event as u64,
            reason: Reason::Answer,
        },
        None => Verdict::Yes,
    }
}

/// Whether so many checkers say what has to be said of a record.
fn is_judged_by<T: AllocGlobal + Threads + Wait + Sync, G: Gate>(
    rt: &T,
    long: &Long,
    bytes: &[u8],
    checkers: u32,
    gate: &G,
) -> bool {
    let mut input = Watched::new(bytes);
    let mut output = Watched::new(Vec::new(rt.alloc()));
    let verdict = audit_watched(rt, rt.alloc(), &mut input, &mut output, checkers, gate);
    verdict == Ok::<Verdict, AuditError>(verdict_of(long))
}

/// Counts how often each segment enters and leaves, and holds the first worker back for so many
/// turns at each of its segments.
#[derive(Drop)]
struct Counted {
    entered: Vec<AtomicU64>,
    left: Vec<AtomicU64>,
    turns: u32,
}

fn zeros(alloc: Global, count: u32) -> Result<Vec<AtomicU64>, AllocError> {
    let mut zeros = Vec::new(alloc);
    for _ in 0..count {
        zeros.push(AtomicU64::new(0))?;
    }
    Ok(zeros)
}

/// Adds one to the count of a segment.
fn count(counts: &[AtomicU64], number: u64) {
    if let Some(count) = counts.get(number as usize) {
        count.fetch_add(1, Ordering::SeqCst);
    }
}

/// Whether each was counted once.
fn are_one(counts: &[AtomicU64]) -> bool {
    counts.iter().all(|count| count.load(Ordering::SeqCst) == 1)
}

impl Gate for Counted {
    fn enter(&self, worker: u32, number: u64) {
        count(&self.entered, number);
        if worker == 0 {
            for _ in 0..self.turns {
                thread::yield_now();
            }
        }
    }

    fn leave(&self, _worker: u32, number: u64) {
        count(&self.left, number);
    }
}

/// Whether each segment of a record goes through the gate of so many checkers once, of which the
/// first is held back for so many turns at each of its segments.
fn goes_through_once<T: AllocGlobal + Threads + Wait + Sync>(
    rt: &T,
    long: &Long,
    bytes: &[u8],
    checkers: u32,
    turns: u32,
) -> Result<bool, AllocError> {
    let segments = long.events.div_ceil(long.segment.max(1));
    let gate = Counted {
        entered: zeros(rt.alloc(), segments)?,
        left: zeros(rt.alloc(), segments)?,
        turns,
    };
    let is_judged = is_judged_by(rt, long, bytes, checkers, &gate);
    Ok(is_judged && are_one(&gate.entered) && are_one(&gate.left))
}

/// The first bad event of 40,000: none, at the beginning, in the middle and at the end.
const BAD: [Option<u32>; 4] = [None, Some(4), Some(20_000), Some(39_999)];

/// Fails unless each segment of 40,000 events goes through the gate once, by a few checkers.
fn expect_once<T: AllocGlobal + Threads + Wait + Sync>(
    rt: &T,
    segment: u32,
    bad: Option<u32>,
) -> Result<(), Fail> {
    let long = Long {
        events: 40_000,
        segment,
        bad,
    };
    let bytes = record_of(rt.alloc(), &long)?;
    for checkers in [1, 2, 4, 5] {
        if !goes_through_once(rt, &long, &bytes, checkers, 0)? {
            return Err(Fail::from("a segment, or the verdict"));
        }
    }
    Ok(())
}

#[test]
fn each_of_40_segments_goes_through_the_gate_once(rt: HostRuntime) -> Result<(), Fail> {
    for &bad in BAD.iter() {
        expect_once(&rt, 1_000, bad)?;
    }
    Ok(())
}

#[test]
fn each_of_2_500_segments_goes_through_the_gate_once(rt: HostRuntime) -> Result<(), Fail> {
    expect_once(&rt, 16, None)?;
    expect_once(&rt, 16, Some(20_000))
}

#[test]
fn so_it_does_with_64_checkers(rt: HostRuntime) -> Result<(), Fail> {
    let long = Long {
        events: 20_000,
        segment: 16,
        bad: Some(19_999),
    };
    let bytes = record_of(rt.alloc(), &long)?;
    assert!(rt; goes_through_once(&rt, &long, &bytes, 64, 0)?);
    Ok(())
}

#[test]
fn many_windows_by_checkers_of_which_one_is_slow(rt: HostRuntime) -> Result<(), Fail> {
    for bad in [None, Some(69_999)] {
        let long = Long {
            events: 70_000,
            segment: 1_000,
            bad,
        };
        let bytes = record_of(rt.alloc(), &long)?;
        for checkers in [2, 3] {
            assert!(rt;
                goes_through_once(&rt, &long, &bytes, checkers, 1_000)?,
                "{checkers}"
            );
        }
    }
    Ok(())
}

/// Holds segment 0 until all others have left.
#[derive(Drop)]
struct Held {
    others: u64,
    left: AtomicU64,
    failed: AtomicU64,
}

impl Held {
    fn await_others(&self) -> bool {
        for _ in 0..TURNS {
            if self.left.load(Ordering::SeqCst) >= self.others {
                return true;
            }
            thread::yield_now();
        }
        false
    }
}

impl Gate for Held {
    fn enter(&self, _worker: u32, number: u64) {
        if number == 0 && !self.await_others() {
            self.failed.store(1, Ordering::SeqCst);
        }
    }

    fn leave(&self, _worker: u32, _number: u64) {
        self.left.fetch_add(1, Ordering::SeqCst);
    }
}

#[test]
fn segments_of_a_checker_that_is_held_are_stolen(rt: HostRuntime) -> Result<(), Fail> {
    let long = Long {
        events: 4_000,
        segment: 100,
        bad: Some(50),
    };
    let bytes = record_of(rt.alloc(), &long)?;
    let gate = Held {
        others: 39,
        left: AtomicU64::new(0),
        failed: AtomicU64::new(0),
    };
    assert!(rt; is_judged_by(&rt, &long, &bytes, 2, &gate));
    assert!(rt; gate.failed.load(Ordering::SeqCst) == 0);
    Ok(())
}
