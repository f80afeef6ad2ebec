use crate::written::{ACCESSED, INVLPG, MAPPED, READ, WRITE, Written, add_all, event_of, started};
use pg_check::History;
use pg_event::{Event, Outcome, Version, well_formed};
use pg_outcomes::{Allowed, is_access, outcomes_at};
use pg_search::Seen;
use std::alloc::{AllocGlobal, Global};
use std::process::Abort;
use std::test::Fail;

/// An outcome, and the freshest moments that witness it.
struct Told(Outcome, &'static [u32]);

/// Events that come first, an access behind them, and all outcomes that it may have.
struct Case {
    name: &'static str,
    version: Version,
    before: &'static [Written],
    then: &'static [Written],
    access: Written,
    outcomes: &'static [Told],
}

/// The page is read, or written. The outcome is not looked at.
const READ_PAGE: Written = Written::Access {
    p: 0,
    flags: READ,
    la: 0x5123,
    outcome: Outcome::Page(0),
    at: &[0],
};

const WRITE_PAGE: Written = Written::Access {
    p: 0,
    flags: WRITE,
    la: 0x5123,
    outcome: Outcome::Page(0),
    at: &[0],
};

/// What a page of another processor gives.
const READ_ELSEWHERE: Written = Written::Access {
    p: 1,
    flags: READ,
    la: 0x5123,
    outcome: Outcome::Page(0),
    at: &[0],
};

/// Linear 0x5000 is mapped to physical 0x9000, for all PCIDs.
const GLOBAL: [Written; 4] = [
    Written::Write(0, 0x1000, 0x2007),
    Written::Write(0, 0x2000, 0x3007),
    Written::Write(0, 0x3000, 0x4007),
    Written::Write(0, 0x4028, 0x9107),
];

const CASES: [Case; 14] = [
    Case {
        name: "one page",
        version: Version::One,
        before: &MAPPED,
        then: &[],
        access: READ_PAGE,
        outcomes: &[Told(Outcome::Page(0x9123), &[4, 4, 4, 4])],
    },
    // Event 4 changes the leaf: the old page was last read just before.
    Case {
        name: "old and new page",
        version: Version::One,
        before: &MAPPED,
        then: &[Written::Write(0, 0x4028, 0xa007)],
        access: READ_PAGE,
        outcomes: &[
            Told(Outcome::Page(0x9123), &[4, 4, 4, 4]),
            Told(Outcome::Page(0xa123), &[5, 5, 5, 5]),
        ],
    },
    // Pages rise, though the later one was mapped first; one that comes again is told once.
    Case {
        name: "pages in rising order",
        version: Version::One,
        before: &MAPPED,
        then: &[
            Written::Write(0, 0x4028, 0x8007),
            Written::Write(0, 0x4028, 0x9007),
        ],
        access: READ_PAGE,
        outcomes: &[
            Told(Outcome::Page(0x8123), &[5, 5, 5, 5]),
            Told(Outcome::Page(0x9123), &[6, 6, 6, 6]),
        ],
    },
    Case {
        name: "cleared leaf before it is invalidated",
        version: Version::One,
        before: &MAPPED,
        then: &[Written::Write(0, 0x4028, 0)],
        access: READ_PAGE,
        outcomes: &[
            Told(Outcome::Page(0x9123), &[4, 4, 4, 4]),
            Told(Outcome::Fault(0x4), &[5, 5, 5, 5]),
        ],
    },
    Case {
        name: "nothing but a fault",
        version: Version::One,
        before: &MAPPED,
        then: &[Written::Write(0, 0x4028, 0), INVLPG],
        access: READ_PAGE,
        outcomes: &[Told(Outcome::Fault(0x4), &[6, 6, 6, 6])],
    },
    // INVLPG of processor 0 drops nothing of processor 1.
    Case {
        name: "another processor",
        version: Version::One,
        before: &MAPPED,
        then: &[Written::Write(0, 0x4028, 0), INVLPG],
        access: READ_ELSEWHERE,
        outcomes: &[
            Told(Outcome::Page(0x9123), &[4, 4, 4, 4]),
            Told(Outcome::Fault(0x4), &[6, 6, 6, 6]),
        ],
    },
    // The leaf becomes read-only: a write is done by the old entry, or faults by the new one.
    Case {
        name: "fault by rights",
        version: Version::One,
        before: &MAPPED,
        then: &[Written::Write(0, 0x4028, 0x9005)],
        access: WRITE_PAGE,
        outcomes: &[
            Told(Outcome::Page(0x9123), &[4, 4, 4, 4]),
            Told(Outcome::Fault(0x7), &[5, 5, 5, 5]),
        ],
    },
    // Bit 40 of the leaf is reserved, since MAXPHYADDR is 40.
    Case {
        name: "fault by a reserved bit",
        version: Version::One,
        before: &MAPPED,
        then: &[Written::Write(0, 0x4028, 0x100_0000_9007)],
        access: READ_PAGE,
        outcomes: &[
            Told(Outcome::Page(0x9123), &[4, 4, 4, 4]),
            Told(Outcome::Fault(0xd), &[5, 5, 5, 5]),
        ],
    },
    // Event 4 loads PCID 2 with an empty root.
    Case {
        name: "global page under another PCID",
        version: Version::One,
        before: &GLOBAL,
        then: &[Written::Cr3(0, 0x7002)],
        access: READ_PAGE,
        outcomes: &[
            Told(Outcome::Page(0x9123), &[4, 4, 4, 4]),
            Told(Outcome::Fault(0x4), &[5]),
        ],
    },
    Case {
        name: "page of another PCID",
        version: Version::One,
        before: &MAPPED,
        then: &[Written::Cr3(0, 0x7002)],
        access: READ_PAGE,
        outcomes: &[Told(Outcome::Fault(0x4), &[5])],
    },
    // The table of level 3 is replaced by event 4 with an empty one, and the leaf is changed.
    Case {
        name: "stale table",
        version: Version::One,
        before: &MAPPED,
        then: &[
            Written::Write(0, 0x1000, 0x6007),
            Written::Write(0, 0x4028, 0xa007),
        ],
        access: READ_PAGE,
        outcomes: &[
            Told(Outcome::Page(0x9123), &[4, 5, 5, 5]),
            Told(Outcome::Page(0xa123), &[4, 6, 6, 6]),
            Told(Outcome::Fault(0x4), &[6, 6]),
        ],
    },
    // A page of 1 GB becomes one of 2 MB, and that becomes small ones.
    Case {
        name: "large pages split",
        version: Version::One,
        before: &[
            Written::Write(0, 0x1000, 0x2007),
            Written::Write(0, 0x2000, 0x4000_0087),
        ],
        then: &[
            Written::Write(0, 0x3000, 0x0020_0087),
            Written::Write(0, 0x2000, 0x3007),
            Written::Write(0, 0x4028, 0x9007),
            Written::Write(0, 0x3000, 0x4007),
        ],
        access: READ_PAGE,
        outcomes: &[
            Told(Outcome::Page(0x9123), &[6, 6, 6, 6]),
            Told(Outcome::Page(0x0020_5123), &[5, 5, 5]),
            Told(Outcome::Page(0x4000_5123), &[3, 3]),
        ],
    },
    // In version 2 an entry is used only once A is set.
    Case {
        name: "no outcome before assists",
        version: Version::Two,
        before: &MAPPED,
        then: &[],
        access: READ_PAGE,
        outcomes: &[],
    },
    // A leaf that an assist updates is one that the access may use.
    Case {
        name: "page by an updated leaf",
        version: Version::Two,
        before: &ACCESSED,
        then: &[
            Written::Write(0, 0x4028, 0xa007),
            Written::Assist {
                flags: READ,
                la: 0x5123,
                word: 0x4028,
                at: &[5, 5, 5, 5],
            },
        ],
        access: READ_PAGE,
        outcomes: &[
            Told(Outcome::Page(0x9123), &[4, 4, 4, 4]),
            Told(Outcome::Page(0xa123), &[6, 6, 6, 6]),
        ],
    },
];

/// Whether the outcomes are these, with these moments.
fn are_told(found: &[Allowed], wanted: &[Told]) -> bool {
    if found.len() != wanted.len() {
        return false;
    }
    for (allowed, told) in found.iter().zip(wanted) {
        if allowed.outcome != told.0 || allowed.moments.as_slice() != told.1 {
            return false;
        }
    }
    true
}

/// Every outcome that an access may have behind all events of a history.
fn outcomes_of(alloc: Global, history: &History, event: &Event) -> Result<Vec<Allowed>, Fail> {
    if !is_access(event) || well_formed(history.header(), event).is_err() {
        return Err(Fail::from("no access"));
    }
    Ok(outcomes_at(alloc, &Seen::of(history), history.len() as u32, event)?)
}

/// Whether a history has the outcomes that a case says.
fn has_outcomes(alloc: Global, history: &mut History, case: &Case) -> Result<bool, Fail> {
    add_all(history, case.before)?;
    add_all(history, case.then)?;
    let event = event_of(&case.access).ok_or("moments")?;
    let found = outcomes_of(alloc, history, &event)?;
    Ok(are_told(&found, case.outcomes))
}

fn has_all(alloc: Global, case: &Case) -> Result<bool, Fail> {
    let mut history = started(alloc, case.version, 2)?;
    has_outcomes(alloc, &mut history, case)
}

fn have_all(rt: &(impl AllocGlobal + Abort), cases: &[Case]) -> Result<(), Fail> {
    for case in cases {
        assert!(rt; has_all(rt.alloc(), case)?, "{}", case.name);
    }
    Ok(())
}

#[test]
fn accesses_have_their_outcomes(rt: HostRuntime) -> Result<(), Fail> {
    have_all(&rt, &CASES)
}
