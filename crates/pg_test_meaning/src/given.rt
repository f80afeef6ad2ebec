//! What no memory gives, and what no order gives where assists are events. Expected values are from
//! the Intel SDM, vol. 3: 4.5 (words of a walk), 4.7 (codes of page faults), 4.8 (flags).

use crate::orders::{Spanned, run_in};
use crate::written::{FETCH, INVLPG, READ, WRITE, Written};
use pg_event::{Outcome, Version};
use pg_span_refute::{first_not_given, refute};
use std::alloc::{AllocGlobal, Global};
use std::test::Fail;

/// Linear 0x5000 is mapped to 0x9000 and 0x6000 to 0xa000 by events 0 to 4, and these come after.
struct Case {
    name: &'static str,
    version: Version,
    events: &'static [Spanned],
    /// Whether the last event is refused.
    is_refused: bool,
}

/// The flags of a supervisor's read.
const SUPERVISOR_READ: u8 = 0;

/// The flags of a user's write, of an assist that sets D beside A.
const DIRTY: u8 = 0x15;

const ABSENT_TO_USER: Spanned = (
    Written::Access {
        p: 1,
        flags: READ,
        la: 0x5123,
        outcome: Outcome::Fault(4),
        at: &[0],
    },
    0,
);

const SUPERVISOR_AS_USER: Spanned = (
    Written::Access {
        p: 1,
        flags: SUPERVISOR_READ,
        la: 0x5123,
        outcome: Outcome::Fault(4),
        at: &[0],
    },
    0,
);

const READ_AS_WRITE: Spanned = (
    Written::Access {
        p: 1,
        flags: READ,
        la: 0x5123,
        outcome: Outcome::Fault(6),
        at: &[0],
    },
    0,
);

const WRITE_AS_READ: Spanned = (
    Written::Access {
        p: 1,
        flags: WRITE,
        la: 0x5123,
        outcome: Outcome::Fault(4),
        at: &[0],
    },
    0,
);

const FETCH_WITH_ITS_BIT: Spanned = (
    Written::Access {
        p: 1,
        flags: FETCH,
        la: 0x5123,
        outcome: Outcome::Fault(0x14),
        at: &[0],
    },
    0,
);

const RESERVED_AND_ABSENT: Spanned = (
    Written::Access {
        p: 1,
        flags: READ,
        la: 0x5123,
        outcome: Outcome::Fault(0xc),
        at: &[0],
    },
    0,
);

const SUPERVISOR_DENIED: Spanned = (
    Written::Access {
        p: 1,
        flags: SUPERVISOR_READ,
        la: 0x5123,
        outcome: Outcome::Fault(1),
        at: &[0],
    },
    0,
);

const OTHER_OFFSET: Spanned = (
    Written::Access {
        p: 1,
        flags: READ,
        la: 0x5123,
        outcome: Outcome::Page(0x9124),
        at: &[0],
    },
    0,
);

const OTHER_PAGE: Spanned = (
    Written::Access {
        p: 1,
        flags: READ,
        la: 0x5123,
        outcome: Outcome::Page(0x77123),
        at: &[0],
    },
    0,
);

const LEAF: Spanned = (
    Written::Assist {
        flags: READ,
        la: 0x5123,
        word: 0x4028,
        at: &[0],
    },
    0,
);

const WORD_OF_ANOTHER_PAGE: Spanned = (
    Written::Assist {
        flags: READ,
        la: 0x5123,
        word: 0x4030,
        at: &[0],
    },
    0,
);

/// Linear 0x80_0000_5123 has the index 1 at level 4, and so the word 0x1008.
const ROOT: Spanned = (
    Written::Assist {
        flags: READ,
        la: 0x80_0000_5123,
        word: 0x1008,
        at: &[0],
    },
    0,
);

const DIRTY_ROOT: Spanned = (
    Written::Assist {
        flags: DIRTY,
        la: 0x80_0000_5123,
        word: 0x1008,
        at: &[0],
    },
    0,
);

const GIVEN: [Case; 13] = [
    Case {
        name: "an absent entry, and a user's read",
        version: Version::One,
        events: &[ABSENT_TO_USER],
        is_refused: false,
    },
    Case {
        name: "the bit of user mode, and a supervisor's read",
        version: Version::One,
        events: &[SUPERVISOR_AS_USER],
        is_refused: true,
    },
    Case {
        name: "the bit of a write, and a read",
        version: Version::One,
        events: &[READ_AS_WRITE],
        is_refused: true,
    },
    Case {
        name: "no bit of a write, and a write",
        version: Version::One,
        events: &[WRITE_AS_READ],
        is_refused: true,
    },
    Case {
        name: "the bit of a fetch, and a fetch where NXE is on",
        version: Version::One,
        events: &[FETCH_WITH_ITS_BIT],
        is_refused: false,
    },
    Case {
        name: "a reserved bit of an entry that is not present",
        version: Version::One,
        events: &[RESERVED_AND_ABSENT],
        is_refused: true,
    },
    Case {
        name: "a denial of a supervisor's read without SMAP",
        version: Version::One,
        events: &[SUPERVISOR_DENIED],
        is_refused: true,
    },
    Case {
        name: "another offset in the page",
        version: Version::One,
        events: &[OTHER_OFFSET],
        is_refused: true,
    },
    Case {
        name: "a page that nothing maps, which some memory maps",
        version: Version::One,
        events: &[OTHER_PAGE],
        is_refused: false,
    },
    Case {
        name: "an assist of the leaf's word",
        version: Version::Two,
        events: &[LEAF],
        is_refused: false,
    },
    Case {
        name: "an assist of the word of another page",
        version: Version::Two,
        events: &[WORD_OF_ANOTHER_PAGE],
        is_refused: true,
    },
    Case {
        name: "an assist of the word of level 4",
        version: Version::Two,
        events: &[ROOT],
        is_refused: false,
    },
    Case {
        name: "D in the word of level 4",
        version: Version::Two,
        events: &[DIRTY_ROOT],
        is_refused: true,
    },
];

const FOUR: Spanned = (
    Written::Assist {
        flags: READ,
        la: 0x5123,
        word: 0x1000,
        at: &[0],
    },
    0,
);

const THREE: Spanned = (
    Written::Assist {
        flags: READ,
        la: 0x5123,
        word: 0x2000,
        at: &[0],
    },
    0,
);

const TWO: Spanned = (
    Written::Assist {
        flags: READ,
        la: 0x5123,
        word: 0x3000,
        at: &[0],
    },
    0,
);

const DIRTY_LEAF: Spanned = (
    Written::Assist {
        flags: DIRTY,
        la: 0x5123,
        word: 0x4028,
        at: &[0],
    },
    0,
);

const DIRTY_TABLE: Spanned = (
    Written::Assist {
        flags: DIRTY,
        la: 0x5123,
        word: 0x3000,
        at: &[0],
    },
    0,
);

/// No entry refers to a table at 0x7000.
const OTHER_TABLE: Spanned = (
    Written::Assist {
        flags: READ,
        la: 0x5123,
        word: 0x7028,
        at: &[0],
    },
    0,
);

/// The leaf of 0x7000 was never written.
const ABSENT_LEAF: Spanned = (
    Written::Assist {
        flags: READ,
        la: 0x7123,
        word: 0x4038,
        at: &[0],
    },
    0,
);

/// The leaf of 0x5000 is read-only.
const READ_ONLY: Spanned = (Written::Write(0, 0x4028, 0x9005), 0);

/// Its value is written again, without A.
const AGAIN: Spanned = (Written::Write(0, 0x4028, 0x9007), 0);

const DROP: Spanned = (INVLPG, 0);

const OWN_READ: Spanned = (
    Written::Access {
        p: 0,
        flags: READ,
        la: 0x5123,
        outcome: Outcome::Page(0x9123),
        at: &[0],
    },
    0,
);

const OWN_WRITE: Spanned = (
    Written::Access {
        p: 0,
        flags: WRITE,
        la: 0x5123,
        outcome: Outcome::Page(0x9123),
        at: &[0],
    },
    0,
);

const REFUTED: [Case; 12] = [
    Case {
        name: "an assist of the leaf below entries without A",
        version: Version::Two,
        events: &[LEAF],
        is_refused: true,
    },
    Case {
        name: "an assist of the leaf below entries with A",
        version: Version::Two,
        events: &[FOUR, THREE, TWO, LEAF],
        is_refused: false,
    },
    Case {
        name: "an assist in a table that no entry refers to",
        version: Version::Two,
        events: &[FOUR, THREE, TWO, OTHER_TABLE],
        is_refused: true,
    },
    Case {
        name: "an assist of an absent entry",
        version: Version::Two,
        events: &[FOUR, THREE, TWO, ABSENT_LEAF],
        is_refused: true,
    },
    Case {
        name: "D in a leaf that may be written",
        version: Version::Two,
        events: &[FOUR, THREE, TWO, DIRTY_LEAF],
        is_refused: false,
    },
    Case {
        name: "D in a leaf that is read-only",
        version: Version::Two,
        events: &[READ_ONLY, FOUR, THREE, TWO, DIRTY_LEAF],
        is_refused: true,
    },
    Case {
        name: "D in an entry that refers to a table",
        version: Version::Two,
        events: &[FOUR, THREE, DIRTY_TABLE],
        is_refused: true,
    },
    Case {
        name: "a walk through entries without A",
        version: Version::Two,
        events: &[OWN_READ],
        is_refused: true,
    },
    Case {
        name: "a walk through entries whose A assists have set",
        version: Version::Two,
        events: &[FOUR, THREE, TWO, LEAF, OWN_READ],
        is_refused: false,
    },
    Case {
        name: "a leaf that was written again without A",
        version: Version::Two,
        events: &[FOUR, THREE, TWO, LEAF, AGAIN, DROP, OWN_READ],
        is_refused: true,
    },
    Case {
        name: "a write through a leaf without D",
        version: Version::Two,
        events: &[FOUR, THREE, TWO, LEAF, OWN_WRITE],
        is_refused: true,
    },
    Case {
        name: "a write through a leaf whose D an assist has set",
        version: Version::Two,
        events: &[FOUR, THREE, TWO, DIRTY_LEAF, OWN_WRITE],
        is_refused: false,
    },
];

/// Whether the last event is the first that no memory gives, where the case says so.
fn is_given_so(alloc: Global, case: &Case) -> Result<bool, Fail> {
    let run = run_in(alloc, case.version, case.events)?;
    let last = run.len() as u32;
    Ok(match first_not_given(&run) {
        Some(number) => case.is_refused && last > 0 && number == last - 1,
        None => !case.is_refused,
    })
}

/// Whether no order gives the last event, where the case says so.
fn is_refuted_so(alloc: Global, case: &Case) -> Result<bool, Fail> {
    let run = run_in(alloc, case.version, case.events)?;
    if run.len() == 0 {
        return Ok(false);
    }
    Ok(refute(alloc, &run, run.len() as u32 - 1)? == case.is_refused)
}

#[test]
fn what_no_memory_gives_is_refused(rt: HostRuntime) -> Result<(), Fail> {
    for case in GIVEN.iter() {
        assert!(rt; is_given_so(rt.alloc(), case)?, "{}", case.name);
    }
    Ok(())
}

#[test]
fn assists_are_refuted(rt: HostRuntime) -> Result<(), Fail> {
    for case in REFUTED.iter() {
        assert!(rt; is_refuted_so(rt.alloc(), case)?, "{}", case.name);
    }
    Ok(())
}
