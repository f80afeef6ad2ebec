use crate::written::{ACCESSED, INVLPG, MAPPED, READ, WRITE, Written, add_all, started};
use pg_certify::{Certified, certify};
use pg_check::History;
use pg_event::{Event, Moments, Outcome, Version};
use pg_reach::freshest_moments;
use pg_search::names_moments;
use std::alloc::{AllocGlobal, Global};
use std::process::Abort;
use std::test::Fail;

/// Events that are added, and the freshest moments that are found for the last of them, if there
/// are any. The moments that an event names are looked at by no search.
struct Step {
    events: &'static [Written],
    found: Option<&'static [u32]>,
}

/// MOV to CR3 with bit 63 flushes nothing.
const NO_FLUSH: u64 = 1 << 63;

/// How memory is at first, and steps in one history.
struct Case {
    name: &'static str,
    version: Version,
    before: &'static [Written],
    steps: &'static [Step],
}

/// The page is read, or written.
const READ_PAGE: Written = Written::Access {
    p: 0,
    flags: READ,
    la: 0x5123,
    outcome: Outcome::Page(0x9123),
    at: &[0],
};

const WRITE_PAGE: Written = Written::Access {
    p: 0,
    flags: WRITE,
    la: 0x5123,
    outcome: Outcome::Page(0x9123),
    at: &[0],
};

/// Another page is read.
const READ_OTHER: Written = Written::Access {
    p: 0,
    flags: READ,
    la: 0x5123,
    outcome: Outcome::Page(0x8123),
    at: &[0],
};

/// The page that the leaf maps once another was written.
const READ_NEW: Written = Written::Access {
    p: 0,
    flags: READ,
    la: 0x5123,
    outcome: Outcome::Page(0xa123),
    at: &[0],
};

/// A read meets an entry that is not present.
const READ_ABSENT: Written = Written::Access {
    p: 0,
    flags: READ,
    la: 0x5123,
    outcome: Outcome::Fault(0x4),
    at: &[0],
};

const CASES: [Case; 9] = [
    Case {
        name: "fresh walk",
        version: Version::One,
        before: &MAPPED,
        steps: &[Step {
            events: &[READ_PAGE],
            found: Some(&[4, 4, 4, 4]),
        }],
    },
    Case {
        name: "other page",
        version: Version::One,
        before: &MAPPED,
        steps: &[Step {
            events: &[READ_OTHER],
            found: None,
        }],
    },
    // The leaf is cleared by event 4. The old page is the freshest where it was read just before,
    // and nothing gives it once the page was invalidated.
    Case {
        name: "stale leaf until it is invalidated",
        version: Version::One,
        before: &MAPPED,
        steps: &[
            Step {
                events: &[Written::Write(0, 0x4028, 0), READ_PAGE],
                found: Some(&[4, 4, 4, 4]),
            },
            Step {
                events: &[INVLPG, READ_PAGE],
                found: None,
            },
        ],
    },
    // PCID 1 has the old page until event 4 loads PCID 2, under which the leaf is changed, and may
    // use it once it is loaded again: unless it was invalidated meanwhile.
    Case {
        name: "stale leaf of a PCID that is loaded again",
        version: Version::One,
        before: &MAPPED,
        steps: &[
            Step {
                events: &[
                    Written::Cr3(0, NO_FLUSH + 0x1002),
                    Written::Write(0, 0x4028, 0x8007),
                    Written::Cr3(0, NO_FLUSH + 0x1001),
                    READ_PAGE,
                ],
                found: Some(&[4, 4, 4, 4]),
            },
            Step {
                events: &[
                    Written::Cr3(0, NO_FLUSH + 0x1002),
                    Written::Invpcid(0, 1, 1, 0),
                    Written::Cr3(0, NO_FLUSH + 0x1001),
                    READ_PAGE,
                ],
                found: None,
            },
        ],
    },
    // The entries never changed, so a walk at the event itself gives the page, also after INVLPG.
    Case {
        name: "unchanged page after INVLPG",
        version: Version::One,
        before: &MAPPED,
        steps: &[Step {
            events: &[READ_PAGE, INVLPG, READ_PAGE],
            found: Some(&[6, 6, 6, 6]),
        }],
    },
    // The table of level 3 is replaced by event 4 with an empty one. A fault by the new one is read
    // at its own event, and the page is found below the old one, which was last read just before.
    Case {
        name: "either table where one was replaced",
        version: Version::One,
        before: &MAPPED,
        steps: &[
            Step {
                events: &[
                    Written::Write(0, 0x1000, 0x6007),
                    Written::Write(0, 0x4028, 0xa007),
                    READ_NEW,
                ],
                found: Some(&[4, 6, 6, 6]),
            },
            Step {
                events: &[READ_ABSENT],
                found: Some(&[7, 7]),
            },
        ],
    },
    // The root's entry is replaced by event 1, so that a walk at event 2 finds no entry of level 3
    // in the new table, nor in the old one. Moments 1 and 2 would do, and 2 and 2 are fresher.
    Case {
        name: "freshest of two walks",
        version: Version::One,
        before: &[],
        steps: &[Step {
            events: &[
                Written::Write(0, 0x1000, 0x2007),
                Written::Write(0, 0x1000, 0x6007),
                READ_ABSENT,
            ],
            found: Some(&[2, 2]),
        }],
    },
    // In version 2 an entry is used only once A is set: by an assist, level 4 first.
    Case {
        name: "accessed flags first",
        version: Version::Two,
        before: &MAPPED,
        steps: &[
            Step {
                events: &[READ_PAGE],
                found: None,
            },
            Step {
                events: &[Written::Assist {
                    flags: READ,
                    la: 0x5123,
                    word: 0x2000,
                    at: &[0],
                }],
                found: None,
            },
        ],
    },
    // A leaf is used for a write only once D is set.
    Case {
        name: "dirty flag first",
        version: Version::Two,
        before: &ACCESSED,
        steps: &[
            Step {
                events: &[WRITE_PAGE],
                found: None,
            },
            Step {
                events: &[Written::Assist {
                    flags: WRITE + 16,
                    la: 0x5123,
                    word: 0x4028,
                    at: &[0],
                }],
                found: Some(&[5, 5, 5, 5]),
            },
            Step {
                events: &[WRITE_PAGE],
                found: Some(&[6, 6, 6, 6]),
            },
        ],
    },
];

/// The moments that are found for the last event, or that none are.
fn found_of(alloc: Global, history: &History) -> Result<Option<Moments>, Fail> {
    let count = history.len();
    if count == 0 || !names_moments(&history.events()[(count - 1) as usize]) {
        return Err(Fail::from("names no moments"));
    }
    Ok(freshest_moments(alloc, history, count - 1)?)
}

/// Adds events, and says whether what is found for the last is as the step says.
fn finds(alloc: Global, history: &mut History, step: &Step) -> Result<bool, Fail> {
    add_all(history, step.events)?;
    Ok(match (found_of(alloc, history)?, step.found) {
        (Some(moments), Some(wanted)) => moments.as_slice() == wanted,
        (None, None) => true,
        (Some(_), None) | (None, Some(_)) => false,
    })
}

/// Takes all steps of a case in a history.
fn finds_in(alloc: Global, history: &mut History, case: &Case) -> Result<bool, Fail> {
    add_all(history, case.before)?;
    for step in case.steps {
        if !finds(alloc, history, step)? {
            return Ok(false);
        }
    }
    Ok(true)
}

fn finds_all(alloc: Global, case: &Case) -> Result<bool, Fail> {
    let mut history = started(alloc, case.version, 1)?;
    finds_in(alloc, &mut history, case)
}

fn find_all(rt: &(impl AllocGlobal + Abort), cases: &[Case]) -> Result<(), Fail> {
    for case in cases {
        assert!(rt; finds_all(rt.alloc(), case)?, "{}", case.name);
    }
    Ok(())
}

#[test]
fn freshest_moments_are_found(rt: HostRuntime) -> Result<(), Fail> {
    find_all(&rt, &CASES)
}

/// The moment at which the last event reads the entry that it reads last.
fn last_moment(events: &[Event]) -> Option<u32> {
    match events.last() {
        Some(Event::Access { moments, .. }) => moments.as_slice().last().copied(),
        Some(_) | None => None,
    }
}

/// How many events are certified once these are added, and the last moment.
fn certified(
    alloc: Global,
    history: &mut History,
    events: &[Written],
) -> Result<Option<(usize, Option<u32>)>, Fail> {
    add_all(history, events)?;
    match certify(alloc, history)? {
        Certified::Yes(found) => Ok(Some((found.len(), last_moment(&found)))),
        Certified::No(_) => Ok(None),
    }
}

/// The leaf stands from moment 4 on, and event 4 clears it.
const STALE_LEAF: [Written; 6] = [
    Written::Write(0, 0x1000, 0x2007),
    Written::Write(0, 0x2000, 0x3007),
    Written::Write(0, 0x3000, 0x4007),
    Written::Write(0, 0x4028, 0x9007),
    Written::Write(0, 0x4028, 0),
    READ_PAGE,
];

/// What is found for the last event of the stale leaf.
fn certified_stale_leaf(alloc: Global) -> Result<Option<(usize, Option<u32>)>, Fail> {
    let mut history = started(alloc, Version::One, 1)?;
    certified(alloc, &mut history, &STALE_LEAF)
}

#[test]
fn a_stale_leaf_is_certified_by_its_one_moment(rt: HostRuntime) -> Result<(), Fail> {
    assert!(rt; certified_stale_leaf(rt.alloc())? == Some((6, Some(4))));
    Ok(())
}
