use crate::written::{INVLPG, MAPPED, READ, Written, add_all, started};
use pg_check::History;
use pg_event::{Outcome, Version};
use pg_explain::{denial_text_by, deny, event_at, takers_in};
use pg_search::names_moments;
use std::alloc::{AllocGlobal, Global};
use std::process::Abort;
use std::test::Fail;

/// Events, of which no moments witness the last, and why.
struct Case {
    name: &'static str,
    first: &'static [Written],
    then: &'static [Written],
    last: &'static [Written],
    told: &'static str,
}

/// A read by the user of the page at 0x5000, which 0x9000 answers.
const USED: Written = Written::Access {
    p: 0,
    flags: READ,
    la: 0x5123,
    outcome: Outcome::Page(0x9123),
    at: &[0],
};

const UNMAPPED: Written = Written::Write(0, 0x4028, 0);

/// A load of CR3 with PCID 2, and one with PCID 1, which drops nothing.
const TO_TWO: Written = Written::Cr3(0, 0x1002);

const BACK_TO_ONE: Written = Written::Cr3(0, 0x8000_0000_0000_1001);

const CASES: [Case; 4] = [
    // A user has PCID 1 and a kernel PCID 2. The kernel drops its own translation of the page by
    // event 8, and that of the user by event 9.
    Case {
        name: "a translation of the PCID dropped while the processor has another",
        first: &MAPPED,
        then: &[USED, TO_TWO, USED, UNMAPPED, INVLPG],
        last: &[Written::Invpcid(0, 0, 1, 0x5000), BACK_TO_ONE, USED],
        told: "event: 11 cpu 0 user read 0x5123 -> 0x9123
now: level 4 [0x1000] = 0x2007 table, written by event 0
now: level 3 [0x2000] = 0x3007 table, written by event 1
now: level 2 [0x3000] = 0x4007 table, written by event 2
now: level 1 [0x4028] = 0x0 absent, written by event 7
now: would give fault 0x4 (user)
last: moment 5 by 5 5 5 5; taken by 5 cpu 0 cr3 0x1002
last: dropped by 9 cpu 0 invpcid 0 0x1 0x5000
",
    },
    // Under PCID 1 the page was never there.
    Case {
        name: "a translation of another PCID alone",
        first: &[TO_TWO],
        then: &MAPPED,
        last: &[UNMAPPED, BACK_TO_ONE, USED],
        told: "event: 7 cpu 0 user read 0x5123 -> 0x9123
now: level 4 [0x1000] = 0x2007 table, written by event 1
now: level 3 [0x2000] = 0x3007 table, written by event 2
now: level 2 [0x3000] = 0x4007 table, written by event 3
now: level 1 [0x4028] = 0x0 absent, written by event 5
now: would give fault 0x4 (user)
last: moment 6 by 5 5 5 5 under pcid 0x2; taken by 6 cpu 0 cr3 0x8000000000001001
",
    },
    Case {
        name: "a translation dropped by the event that takes it",
        first: &MAPPED,
        then: &[USED, UNMAPPED, INVLPG],
        last: &[USED],
        told: "event: 7 cpu 0 user read 0x5123 -> 0x9123
now: level 4 [0x1000] = 0x2007 table, written by event 0
now: level 3 [0x2000] = 0x3007 table, written by event 1
now: level 2 [0x3000] = 0x4007 table, written by event 2
now: level 1 [0x4028] = 0x0 absent, written by event 5
now: would give fault 0x4 (user)
last: moment 6 by 5 5 5 5; taken by 6 cpu 0 invlpg 0x5000
",
    },
    Case {
        name: "a page that was never there",
        first: &[],
        then: &[],
        last: &[USED],
        told: "event: 0 cpu 0 user read 0x5123 -> 0x9123
now: level 4 [0x1000] = 0x0 absent, never written
now: would give fault 0x4 (user)
last: never
",
    },
];

/// Why no moments witness the last event.
fn told_of(alloc: Global, history: &History) -> Result<String, Fail> {
    let count = history.len();
    if count == 0 || !names_moments(&history.events()[(count - 1) as usize]) {
        return Err(Fail::from("no access"));
    }
    let denial = deny(alloc, history, count - 1)?;
    let events = history.events();
    let event = event_at(events, (count - 1) as u32);
    Ok(denial_text_by(alloc, event, takers_in(events, &denial), &denial)?)
}

fn is_told(alloc: Global, case: &Case) -> Result<bool, Fail> {
    let mut history = started(alloc, Version::One, 1)?;
    add_all(&mut history, case.first)?;
    add_all(&mut history, case.then)?;
    add_all(&mut history, case.last)?;
    Ok(told_of(alloc, &history)?.as_str() == case.told)
}

fn tell_all(rt: &(impl AllocGlobal + Abort), cases: &[Case]) -> Result<(), Fail> {
    for case in cases {
        assert!(rt; is_told(rt.alloc(), case)?, "{}", case.name);
    }
    Ok(())
}

#[test]
fn denials_of_the_last_event(rt: HostRuntime) -> Result<(), Fail> {
    tell_all(&rt, &CASES)
}
