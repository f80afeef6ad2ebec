use crate::orders::{NEW_READ, OLD_READ, OWN_INVLPG, REMAP, Spanned, run_of};
use crate::written::{INVLPG, READ, Written};
use pg_event::Outcome;
use pg_span_refute::{Edge, refute, refute_near};
use std::alloc::{AllocGlobal, Global};
use std::test::Fail;

struct Case {
    name: &'static str,
    /// The events after the mapping, the last of which is asked.
    events: &'static [Spanned],
    /// Whether no order can witness it.
    refuted: bool,
}

/// Processor 1 reads a page that nobody maps.
const UNMAPPED_READ: Written = Written::Access {
    p: 1,
    flags: READ,
    la: 0x8123,
    outcome: Outcome::Page(0x9123),
    at: &[0],
};

/// Processor 1 finds the page absent.
const ABSENT: Written = Written::Access {
    p: 1,
    flags: READ,
    la: 0x5123,
    outcome: Outcome::Fault(4),
    at: &[0],
};

/// Processor 1 is denied the page, which it may read.
const DENIED: Written = Written::Access {
    p: 1,
    flags: READ,
    la: 0x5123,
    outcome: Outcome::Fault(5),
    at: &[0],
};

const CASES: [Case; 15] = [
    Case {
        name: "an old leaf behind an INVLPG that began behind the write",
        events: &[(REMAP, 0), (OWN_INVLPG, 0), (OLD_READ, 0)],
        refuted: true,
    },
    Case {
        name: "an old leaf behind an INVLPG that overlaps the write",
        events: &[(REMAP, 0), (OWN_INVLPG, 1), (OLD_READ, 0)],
        refuted: false,
    },
    Case {
        name: "an old leaf whose read overlaps the INVLPG before it",
        events: &[(REMAP, 0), (OWN_INVLPG, 0), (OLD_READ, 1)],
        refuted: true,
    },
    Case {
        name: "an old leaf with no invalidation",
        events: &[(REMAP, 0), (OLD_READ, 0)],
        refuted: false,
    },
    Case {
        name: "an old leaf behind the INVLPG of another processor",
        events: &[(REMAP, 0), (INVLPG, 0), (OLD_READ, 0)],
        refuted: false,
    },
    Case {
        name: "an old leaf behind the INVLPG of another page",
        events: &[(REMAP, 0), (Written::Invlpg(1, 0x7000), 0), (OLD_READ, 0)],
        refuted: false,
    },
    Case {
        name: "an old leaf behind a load of CR3 that drops",
        events: &[(REMAP, 0), (Written::Cr3(1, 0x1001), 0), (OLD_READ, 0)],
        refuted: true,
    },
    Case {
        name: "an old leaf behind a load of CR3 that drops nothing",
        events: &[
            (REMAP, 0),
            (Written::Cr3(1, 0x8000_0000_0000_1001), 0),
            (OLD_READ, 0),
        ],
        refuted: false,
    },
    Case {
        name: "a leaf that was not yet written",
        events: &[(NEW_READ, 0)],
        refuted: true,
    },
    Case {
        name: "a leaf that is written at the time of the read",
        events: &[(REMAP, 0), (NEW_READ, 1)],
        refuted: false,
    },
    Case {
        name: "a page that nobody maps",
        events: &[(UNMAPPED_READ, 0)],
        refuted: true,
    },
    Case {
        name: "a fault of an absent entry behind the write of the leaf",
        events: &[(ABSENT, 0)],
        refuted: true,
    },
    Case {
        name: "a fault of an absent entry at the time of the write of the leaf",
        events: &[(ABSENT, 2)],
        refuted: false,
    },
    Case {
        name: "a fault of denial where the rights allow the access",
        events: &[(DENIED, 0)],
        refuted: true,
    },
    Case {
        name: "a write is not asked",
        events: &[(REMAP, 0)],
        refuted: false,
    },
];

fn is_so(alloc: Global, case: &Case) -> Result<bool, Fail> {
    let run = run_of(alloc, case.events)?;
    if run.len() == 0 {
        return Ok(false);
    }
    Ok(refute(alloc, &run, run.len() as u32 - 1)? == case.refuted)
}

/// The events of a processor that reads a new leaf and then, after an INVLPG or not, the old one,
/// while another writes it.
const NEW_THEN_OLD: [Spanned; 4] = [(NEW_READ, 0), (OWN_INVLPG, 0), (OLD_READ, 0), (REMAP, 3)];

const NEW_THEN_KEPT: [Spanned; 3] = [(NEW_READ, 0), (OLD_READ, 0), (REMAP, 2)];

/// Whether the last of these accesses is refuted, since the write comes before the first.
fn is_deduced(alloc: Global) -> Result<bool, Fail> {
    let run = run_of(alloc, &NEW_THEN_OLD)?;
    match refute_near(alloc, &run, 7)? {
        Some(found) => {
            let edge = Edge {
                first: 8,
                second: 5,
            };
            Ok(found.number == 7 && found.edges.as_slice() == [edge].as_slice())
        }
        None => Ok(false),
    }
}

fn is_none_deduced(alloc: Global) -> Result<bool, Fail> {
    let run = run_of(alloc, &NEW_THEN_KEPT)?;
    Ok(refute_near(alloc, &run, 6)?.is_none())
}

#[test]
fn what_comes_first_is_deduced(rt: HostRuntime) -> Result<(), Fail> {
    let alone = run_of(rt.alloc(), &NEW_THEN_OLD)?;
    assert!(rt; !refute(rt.alloc(), &alone, 7)?);
    assert!(rt; is_deduced(rt.alloc())?);
    assert!(rt; is_none_deduced(rt.alloc())?);
    Ok(())
}

#[test]
fn events_are_refuted(rt: HostRuntime) -> Result<(), Fail> {
    for case in CASES.iter() {
        assert!(rt; is_so(rt.alloc(), case)?, "{}", case.name);
    }
    Ok(())
}
