use crate::written::{INVLPG, READ, Written, add_all, started};
use pg_certify::{first_denied, first_denied_by};
use pg_check::History;
use pg_event::{Outcome, Version};
use std::alloc::{AllocGlobal, Global};
use std::sync::Wait;
use std::test::Fail;
use std::thread::Threads;

/// Linear 0x5000 is mapped to physical 0x9000, and 0x6000 to 0xa000.
pub(crate) const MAPPED: [Written; 5] = [
    Written::Write(0, 0x1000, 0x2007),
    Written::Write(0, 0x2000, 0x3007),
    Written::Write(0, 0x3000, 0x4007),
    Written::Write(0, 0x4028, 0x9007),
    Written::Write(0, 0x4030, 0xa007),
];

/// Eight events: the leaf of 0x5000 is cleared and set anew, and two processors read the old page
/// meanwhile, and other pages. No event but these INVLPG drops anything. Reads name no moments but
/// a placeholder.
pub(crate) const TURN: [Written; 8] = [
    Written::Write(0, 0x4028, 0),
    Written::Access {
        p: 0,
        flags: READ,
        la: 0x5123,
        outcome: Outcome::Page(0x9123),
        at: &[0],
    },
    Written::Access {
        p: 1,
        flags: READ,
        la: 0x6123,
        outcome: Outcome::Page(0xa123),
        at: &[0],
    },
    Written::Access {
        p: 1,
        flags: READ,
        la: 0x5123,
        outcome: Outcome::Page(0x9123),
        at: &[0],
    },
    Written::Write(0, 0x4028, 0x9007),
    INVLPG,
    Written::Access {
        p: 0,
        flags: READ,
        la: 0x5123,
        outcome: Outcome::Page(0x9123),
        at: &[0],
    },
    Written::Access {
        p: 0,
        flags: READ,
        la: 0x6fff,
        outcome: Outcome::Page(0xafff),
        at: &[0],
    },
];

/// A read of a page that no walk gives.
pub(crate) const DENIED: [Written; 1] = [Written::Access {
    p: 1,
    flags: READ,
    la: 0x5123,
    outcome: Outcome::Page(0xb123),
    at: &[0],
}];

/// Another one, of another page.
pub(crate) const OTHER_DENIED: [Written; 1] = [Written::Access {
    p: 1,
    flags: READ,
    la: 0x6123,
    outcome: Outcome::Page(0xb123),
    at: &[0],
}];

/// Parts of a history, each so many turns and events after them, and the least event that is
/// denied.
struct Case {
    name: &'static str,
    parts: &'static [(u32, &'static [Written])],
    denied: Option<u64>,
}

const CASES: [Case; 4] = [
    Case {
        name: "few events",
        parts: &[],
        denied: None,
    },
    Case {
        name: "checkers certify what one does",
        parts: &[(600, &[])],
        denied: None,
    },
    // The events 2,405, 3,206 and 4,007 are denied, which each of several checkers may have.
    Case {
        name: "the least event that any checker denies is told",
        parts: &[(300, &DENIED), (100, &DENIED), (100, &DENIED)],
        denied: Some(2_405),
    },
    // Of two checkers the first has page 0x5000 of processor 1, and the second page 0x6000: the
    // second denies event 1,205, and the first event 2,806.
    Case {
        name: "a later event of an earlier checker is not told",
        parts: &[(150, &OTHER_DENIED), (200, &DENIED)],
        denied: Some(1_205),
    },
];

/// Adds so many turns, and more after them.
fn add_turns(
    history: &mut History,
    turn: &[Written],
    count: u32,
    more: &[Written],
) -> Result<(), Fail> {
    for _ in 0..count {
        add_all(history, turn)?;
    }
    add_all(history, more)
}

fn add_parts(history: &mut History, case: &Case) -> Result<(), Fail> {
    add_all(history, &MAPPED)?;
    for (count, more) in case.parts {
        add_turns(history, &TURN, *count, more)?;
    }
    Ok(())
}

/// Whether several checkers give this answer, however many they are.
fn all_answer<R: Threads + Wait + Sync>(
    rt: &R,
    alloc: Global,
    history: &History,
    denied: Option<u64>,
) -> bool {
    for checkers in [1, 2, 3, 4, 64] {
        if first_denied_by(rt, alloc, history, checkers) != Ok(denied) {
            return false;
        }
    }
    true
}

/// Whether one checker and several deny what the case says.
fn is_denied_in<R: AllocGlobal + Threads + Wait + Sync>(
    rt: &R,
    history: &mut History,
    case: &Case,
) -> Result<bool, Fail> {
    add_parts(history, case)?;
    let is_denied = first_denied(rt.alloc(), history)? == case.denied;
    Ok(is_denied && all_answer(rt, rt.alloc(), history, case.denied))
}

fn is_denied<R: AllocGlobal + Threads + Wait + Sync>(rt: &R, case: &Case) -> Result<bool, Fail> {
    let mut history = started(rt.alloc(), Version::One, 2)?;
    is_denied_in(rt, &mut history, case)
}

#[test]
fn checkers_deny_what_one_does(rt: HostRuntime) -> Result<(), Fail> {
    for case in CASES.iter() {
        assert!(rt; is_denied(&rt, case)?, "{}", case.name);
    }
    Ok(())
}
