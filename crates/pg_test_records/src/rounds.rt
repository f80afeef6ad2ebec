use crate::written::{INVLPG, MAPPED, Written, add_all, started};
use pg_check::{History, SegmentVerdict};
use pg_event::{Outcome, Reason, Version};
use pg_pool::{Gate, OpenGate, PoolError, Round, Seat, audit_round, close_round, open_round};
use std::alloc::{AllocError, AllocGlobal, Global};
use std::sync::Wait;
use std::sync::atomic::{AtomicU64, Ordering};
use std::test::Fail;
use std::thread::{self, Threads};

/// How often a waiting thread yields before a test fails.
const TURNS: u32 = 10_000_000;

/// What a seat takes until it finds nothing.
fn taken_by(alloc: Global, seat: &mut Seat) -> Result<Vec<u32>, AllocError> {
    let mut taken = Vec::new(alloc);
    for _ in 0..100u32 {
        let Some(number) = seat.take() else {
            break;
        };
        taken.push(number)?;
    }
    Ok(taken)
}

/// The numbers that the seats of one round leave.
fn left_by(alloc: Global, seats: Vec<Seat>) -> Result<Vec<u32>, Fail> {
    if seats.is_empty() {
        return Err(Fail::from("no seat"));
    }
    let round = seats[0].round();
    if !seats.iter().all(|seat| seat.round() == round) {
        return Err(Fail::from("two rounds"));
    }
    Ok(close_round(alloc, seats)?)
}

/// A round of the numbers from 0, what some of its seats take in their turn until they find
/// nothing, and what is left then.
struct Case {
    name: &'static str,
    last: u32,
    checkers: u32,
    taken: &'static [(usize, &'static [u32])],
    left: &'static [u32],
}

const CASES: [Case; 4] = [
    Case {
        name: "one seat takes all",
        last: 10,
        checkers: 3,
        taken: &[(1, &[1, 4, 7, 2, 5, 8, 0, 3, 6, 9])],
        left: &[],
    },
    Case {
        name: "what one seat took no other takes",
        last: 10,
        checkers: 3,
        taken: &[(1, &[1, 4, 7, 2, 5, 8, 0, 3, 6, 9]), (0, &[]), (2, &[])],
        left: &[],
    },
    Case {
        name: "a round closed at once",
        last: 10,
        checkers: 3,
        taken: &[],
        left: &[0, 1, 2, 3, 4, 5, 6, 7, 8, 9],
    },
    Case {
        name: "a round of nothing",
        last: 0,
        checkers: 2,
        taken: &[(0, &[]), (1, &[])],
        left: &[],
    },
];

/// Whether the seat at a place takes these numbers and finds nothing then.
fn takes(
    alloc: Global,
    seats: &mut [Seat],
    place: usize,
    numbers: &[u32],
) -> Result<bool, AllocError> {
    let Some(seat) = seats.get_mut(place) else {
        return Ok(false);
    };
    let taken = taken_by(alloc, seat)?;
    let is_empty = seat.take().is_none();
    Ok(taken.as_slice() == numbers && is_empty && seat.number() as usize == place)
}

/// Whether seats take what the case says.
fn take_all(alloc: Global, seats: &mut [Seat], case: &Case) -> Result<bool, AllocError> {
    for (place, numbers) in case.taken {
        if !takes(alloc, seats, *place, numbers)? {
            return Ok(false);
        }
    }
    Ok(seats.len() == case.checkers as usize)
}

fn goes_so(alloc: Global, case: &Case) -> Result<bool, Fail> {
    if case.checkers == 0 || case.checkers > 64 {
        return Err(Fail::from("no number of checkers"));
    }
    let mut seats = open_round(alloc, 0, case.last, case.checkers)?;
    let is_taken = take_all(alloc, &mut seats, case)?;
    Ok(is_taken && left_by(alloc, seats)?.as_slice() == case.left)
}

#[test]
fn seats_of_a_round(rt: HostRuntime) -> Result<(), Fail> {
    for case in CASES.iter() {
        assert!(rt; goes_so(rt.alloc(), case)?, "{}", case.name);
    }
    Ok(())
}

/// Holds segment 0 until segment 1 has left, and segment 1 until segment 0 has come. It counts who
/// comes, and keeps each one's worker.
#[derive(Drop)]
struct Held {
    came: AtomicU64,
    left: AtomicU64,
    comings: AtomicU64,
    workers: [AtomicU64; 2],
    failed: AtomicU64,
}

fn comes(flag: &AtomicU64) -> bool {
    for _ in 0..TURNS {
        if flag.load(Ordering::SeqCst) > 0 {
            return true;
        }
        thread::yield_now();
    }
    false
}

impl Gate for Held {
    fn enter(&self, worker: u32, number: u64) {
        self.comings.fetch_add(1, Ordering::SeqCst);
        if number < 2 {
            self.workers[number as usize].store(1 + worker as u64, Ordering::SeqCst);
        }
        let came = if number == 0 {
            self.came.store(1, Ordering::SeqCst);
            comes(&self.left)
        } else {
            comes(&self.came)
        };
        if !came {
            self.failed.store(1, Ordering::SeqCst);
        }
    }

    fn leave(&self, _worker: u32, number: u64) {
        if number == 1 {
            self.left.store(1, Ordering::SeqCst);
        }
    }
}

/// A read of the page of 0x5000 by a walk at moment 4, an INVLPG of the page, and the same read by
/// the walk from before it.
const OLD_READS: [Written; 3] = [READ_AT_4, INVLPG, READ_AT_4];

const READ_AT_4: Written = Written::Access {
    p: 0,
    flags: 4,
    la: 0x5123,
    outcome: Outcome::Page(0x9123),
    at: &[4, 4, 4, 4],
};

/// Four writes that map linear 0x5000 to physical 0x9000, and those reads: in two segments.
fn stale_leaf(alloc: Global) -> Result<History, Fail> {
    let mut history = started(alloc, Version::One, 4, 1)?;
    add_all(&mut history, &MAPPED)?;
    add_all(&mut history, &OLD_READS)?;
    Ok(history)
}

const STALE_LEAF: [SegmentVerdict; 2] = [
    SegmentVerdict {
        number: 0,
        first_bad: None,
    },
    SegmentVerdict {
        number: 1,
        first_bad: Some((6, Reason::TranslationDropped)),
    },
];

const BOTH: Round = Round { first: 0, last: 2 };

/// Whether each of two segments came once, and in time.
fn came_both(gate: &Held) -> bool {
    let failed = gate.failed.load(Ordering::SeqCst);
    let comings = gate.comings.load(Ordering::SeqCst);
    let first = gate.workers[0].load(Ordering::SeqCst);
    let second = gate.workers[1].load(Ordering::SeqCst);
    // Checker 1 begins with segment 1, and waits in it for segment 0.
    [failed, comings, first, second] == [0, 2, 1, 2]
}

/// The round of both segments of a history that has two, by so many checkers.
fn audit_both<R: AllocGlobal + Threads + Wait + Sync, G: Gate>(
    rt: &R,
    history: &History,
    checkers: u32,
    gate: &G,
) -> Option<Result<Vec<SegmentVerdict>, PoolError>> {
    if history.segments() != 2 {
        return None;
    }
    Some(audit_round(rt, rt.alloc(), history.stretch(), BOTH, checkers, gate))
}

/// The same of the stale leaf.
fn audited<R: AllocGlobal + Threads + Wait + Sync, G: Gate>(
    rt: &R,
    checkers: u32,
    gate: &G,
) -> Result<Result<Vec<SegmentVerdict>, PoolError>, Fail> {
    let history = stale_leaf(rt.alloc())?;
    Ok(audit_both(rt, &history, checkers, gate).ok_or("not two segments")?)
}

#[test]
fn two_checkers_at_the_same_time(rt: HostRuntime) -> Result<(), Fail> {
    let gate = Held {
        came: AtomicU64::new(0),
        left: AtomicU64::new(0),
        comings: AtomicU64::new(0),
        workers: [AtomicU64::new(0), AtomicU64::new(0)],
        failed: AtomicU64::new(0),
    };
    let verdicts = audited(&rt, 2, &gate)??;
    assert!(rt; verdicts.as_slice() == STALE_LEAF.as_slice() && came_both(&gate));
    Ok(())
}

#[test]
fn any_number_of_checkers(rt: HostRuntime) -> Result<(), Fail> {
    for checkers in [0, 1, 2, 7, 64, 65] {
        let is_right = match audited(&rt, checkers, &OpenGate)? {
            Ok(verdicts) => {
                matches!(checkers, 1..=64) && verdicts.as_slice() == STALE_LEAF.as_slice()
            }
            Err(error) => matches!(checkers, 0 | 65) && error == PoolError::Checkers,
        };
        assert!(rt; is_right, "{checkers}");
    }
    Ok(())
}
