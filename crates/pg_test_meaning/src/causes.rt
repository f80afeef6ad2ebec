use crate::orders::{OLD_READ, OWN_INVLPG, REMAP, Spanned, push, run_of};
use crate::written::{READ, Written};
use pg_entry::{Cfg, CfgFlags, Rules};
use pg_event::{Header, Outcome, Selection, Version};
use pg_span_run::SpannedRun;
use pg_span_text::{cause_text, spanned_lines};
use std::alloc::{AllocGlobal, Global};
use std::process::Abort;
use std::test::Fail;

struct Case {
    name: &'static str,
    /// The events after the mapping.
    events: &'static [Spanned],
    /// The number of the event that is asked about.
    number: u64,
    told: &'static str,
}

/// Processor 1 finds the page absent.
const ABSENT: Written = Written::Access {
    p: 1,
    flags: READ,
    la: 0x5123,
    outcome: Outcome::Fault(4),
    at: &[0],
};

/// Processor 1 reads in supervisor mode, and the code of the fault has the bit of user mode.
const SUPERVISOR_AS_USER: Written = Written::Access {
    p: 1,
    flags: 0,
    la: 0x6123,
    outcome: Outcome::Fault(4),
    at: &[0],
};

const CASES: [Case; 8] = [
    Case {
        name: "an old leaf behind an INVLPG that began behind the write",
        events: &[(REMAP, 0), (OWN_INVLPG, 0), (OLD_READ, 0)],
        number: 7,
        told: "event: 7 cpu 1 user read 0x5123 -> 0x9123 began 7
read after: 6 cpu 1 invlpg 0x5000 began 6
may read: level 4 [0x1000] = 0x2007 table, written by event 0
may read: level 3 [0x2000] = 0x3007 table, written by event 1
may read: level 2 [0x3000] = 0x4007 table, written by event 2
may read: level 1 [0x4028] = 0xb007 leaf 0xb000, written by event 5
can't read: [0x4028] = 0x9007, written by event 3: event 5 overwrites it and comes before event 6
",
    },
    Case {
        name: "an old leaf behind an INVLPG that overlaps the write",
        events: &[(REMAP, 0), (OWN_INVLPG, 1), (OLD_READ, 0)],
        number: 7,
        told: "event: 7 cpu 1 user read 0x5123 -> 0x9123 began 7
read after: 6 cpu 1 invlpg 0x5000 began 5
may read: level 4 [0x1000] = 0x2007 table, written by event 0
may read: level 3 [0x2000] = 0x3007 table, written by event 1
may read: level 2 [0x3000] = 0x4007 table, written by event 2
may read: level 1 [0x4028] = 0x9007 leaf 0x9000, written by event 3
may read: level 1 [0x4028] = 0xb007 leaf 0xb000, written by event 5
",
    },
    Case {
        name: "an old leaf behind a load of CR3, which may leave a global one",
        events: &[(REMAP, 0), (Written::Cr3(1, 0x1001), 0), (OLD_READ, 1)],
        number: 7,
        told: "event: 7 cpu 1 user read 0x5123 -> 0x9123 began 6
read after, if not global: 6 cpu 1 cr3 0x1001 began 6
may read: level 4 [0x1000] = 0x2007 table, written by event 0
may read: level 3 [0x2000] = 0x3007 table, written by event 1
may read: level 2 [0x3000] = 0x4007 table, written by event 2
may read: level 1 [0x4028] = 0xb007 leaf 0xb000, written by event 5
can't read: [0x4028] = 0x9007, written by event 3: event 5 overwrites it and comes before event 6
",
    },
    Case {
        name: "a load of CR3 that drops nothing, and a table that nobody writes",
        events: &[(Written::Cr3(1, 0x8000_0000_0000_8001), 0), (OLD_READ, 0)],
        number: 6,
        told: "event: 6 cpu 1 user read 0x5123 -> 0x9123 began 6
may read: level 4 [0x1000] = 0x2007 table, written by event 0
may read: level 4 [0x8000] = 0x0 absent, never written
may read: level 3 [0x2000] = 0x3007 table, written by event 1
may read: level 2 [0x3000] = 0x4007 table, written by event 2
may read: level 1 [0x4028] = 0x9007 leaf 0x9000, written by event 3
",
    },
    Case {
        name: "an absent entry that was there no more",
        events: &[(Written::Write(0, 0x4028, 0), 0), (REMAP, 0), (ABSENT, 0)],
        number: 7,
        told: "event: 7 cpu 1 user read 0x5123 -> fault 0x4 (user) began 7
may read: level 4 [0x1000] = 0x2007 table, written by event 0
may read: level 3 [0x2000] = 0x3007 table, written by event 1
may read: level 2 [0x3000] = 0x4007 table, written by event 2
may read: level 1 [0x4028] = 0x9007 leaf 0x9000, written by event 3
may read: level 1 [0x4028] = 0xb007 leaf 0xb000, written by event 6
can't read: [0x4028] = 0x0, written by event 5: event 6 overwrites it and comes before event 7
",
    },
    Case {
        name: "a page fault of user mode, and a supervisor's read",
        events: &[(SUPERVISOR_AS_USER, 0)],
        number: 5,
        told: "event: 5 cpu 1 super read 0x6123 -> fault 0x4 (user) began 5
no memory gives it: no cause of a page fault gives such an access this code
may read: level 4 [0x1000] = 0x2007 table, written by event 0
may read: level 3 [0x2000] = 0x3007 table, written by event 1
may read: level 2 [0x3000] = 0x4007 table, written by event 2
may read: level 1 [0x4030] = 0xa007 leaf 0xa000, written by event 4
",
    },
    Case {
        name: "an event that names no walk",
        events: &[(REMAP, 2)],
        number: 5,
        told: "event: 5 cpu 0 write [0x4028] = 0xb007 began 3
",
    },
    Case {
        name: "no event",
        events: &[],
        number: 5,
        told: "",
    },
];

fn is_told(alloc: Global, case: &Case) -> Result<bool, Fail> {
    let run = run_of(alloc, case.events)?;
    Ok(cause_text(alloc, &run, case.number)?.as_str() == case.told)
}

fn tell_all(rt: &(impl AllocGlobal + Abort), cases: &[Case]) -> Result<(), Fail> {
    for case in cases {
        assert!(rt; is_told(rt.alloc(), case)?, "{}", case.name);
    }
    Ok(())
}

#[test]
fn causes_of_events(rt: HostRuntime) -> Result<(), Fail> {
    tell_all(&rt, &CASES)
}

/// Processor 2 finds the page absent, and then reads it.
const NOT_SEEN: Written = Written::Access {
    p: 2,
    flags: 0xc,
    la: 0x200_0040,
    outcome: Outcome::Fault(4),
    at: &[0],
};

const SEEN: Written = Written::Access {
    p: 2,
    flags: 8,
    la: 0x200_0040,
    outcome: Outcome::Page(0x200_0040),
    at: &[0],
};

/// A write of an upper entry is seen, and not seen again, while it is under way: the record of this
/// that KVM gave.
const SEEN_AND_NOT: [Spanned; 8] = [
    (Written::Write(0, 0x40_0000, 0x40_3067), 0),
    (Written::Write(0, 0x40_3000, 0x40_6067), 0),
    (Written::Write(0, 0x40_a000, 0x200_0063), 0),
    (Written::Write(0, 0x40_6080, 0x40_a067), 0),
    (NOT_SEEN, 0),
    (Written::Invlpg(2, 0x200_0040), 0),
    (SEEN, 0),
    (Written::Write(0, 0x40_6080, 0), 3),
];

const SEEN_CAUSE: &str = "event: 6 cpu 2 super-ac read 0x2000040 -> 0x2000040 began 6
read after: 5 cpu 2 invlpg 0x2000040 began 5
may read: level 4 [0x400000] = 0x403067 table, written by event 0
may read: level 3 [0x403000] = 0x406067 table, written by event 1
may read: level 2 [0x406080] = 0x40a067 table, written by event 3
may read: level 2 [0x406080] = 0x0 absent, written by event 7
may read: level 1 [0x40a000] = 0x2000063 leaf 0x2000000, written by event 2
";

const SEEN_FROM_4: &str = "4 cpu 2 user-ac read 0x2000040 -> fault 0x4 (user) began 4
5 cpu 2 invlpg 0x2000040 began 5
6 cpu 2 super-ac read 0x2000040 -> 0x2000040 began 6
7 cpu 0 write [0x406080] = 0x0 began 4
";

const SEEN_OF_WORD: &str = "3 cpu 0 write [0x406080] = 0x40a067 began 3
7 cpu 0 write [0x406080] = 0x0 began 4
";

fn seen_and_not(alloc: Global) -> Result<SpannedRun, Fail> {
    let header = Header {
        version: Version::One,
        cfg: Cfg {
            flags: CfgFlags(1),
            m: 40,
            rules: Rules::ALL,
        },
        segment: 1024,
        processors: vec![in alloc; (0x40_0000, false); 3]?,
    };
    if !header.is_in_range() {
        return Err(Fail::from("no header"));
    }
    let mut run = SpannedRun::new(alloc, header);
    for (written, back) in SEEN_AND_NOT.iter() {
        push(&mut run, written, *back)?;
    }
    Ok(run)
}

/// What is shown from a number on, and of a word if it is named.
fn shown(alloc: Global, run: &SpannedRun, from: u32, word: Option<u64>) -> Result<String, Fail> {
    let selection = Selection {
        from,
        to: u32::MAX,
        cpu: None,
        page: None,
        loads: false,
        word,
    };
    Ok(spanned_lines(alloc, selection, run)?)
}

fn is_seen_and_not(alloc: Global) -> Result<bool, Fail> {
    let run = seen_and_not(alloc)?;
    Ok(
        cause_text(alloc, &run, 6)?.as_str() == SEEN_CAUSE
            && shown(alloc, &run, 4, None)?.as_str() == SEEN_FROM_4
            && shown(alloc, &run, 0, Some(0x40_6080))?.as_str() == SEEN_OF_WORD,
    )
}

#[test]
fn a_write_that_is_seen_and_not_seen(rt: HostRuntime) -> Result<(), Fail> {
    assert!(rt; is_seen_and_not(rt.alloc())?);
    Ok(())
}
