use crate::written::{
    ACCESSED, FETCH, INVLPG, MAPPED, READ, WRITE, Written, add_all, events_of, started,
};
use pg_check::History;
use pg_event::{Outcome, Selection, Version};
use pg_explain::{explain, explanation_text, shown_text};
use std::alloc::{AllocGlobal, Global};
use std::process::Abort;
use std::test::Fail;

/// Events, and what is told of the last of them.
struct Case {
    name: &'static str,
    version: Version,
    /// How 0x5000 is mapped.
    before: &'static [Written],
    events: &'static [Written],
    /// Nothing where it is witnessed.
    told: &'static str,
}

const CASES: [Case; 17] = [
    Case {
        name: "witnessed event has no explanation",
        version: Version::One,
        before: &MAPPED,
        events: &[Written::Access {
            p: 0,
            flags: READ,
            la: 0x5123,
            outcome: Outcome::Page(0x9123),
            at: &[4, 4, 4, 4],
        }],
        told: "",
    },
    Case {
        name: "moments out of order",
        version: Version::One,
        before: &MAPPED,
        events: &[Written::Access {
            p: 0,
            flags: READ,
            la: 0x5123,
            outcome: Outcome::Page(0x9123),
            at: &[4, 3, 4, 4],
        }],
        told: "event: 4 cpu 0 user read 0x5123 -> 0x9123 moments 4 3 4 4
level 4: moment 4 pcid 0x1 [0x1000] = 0x2007 table, written by event 0
level 3: moment 3 pcid 0x1 [0x2000] = 0x3007 table, written by event 1
level 2: moment 4 pcid 0x1 [0x3000] = 0x4007 table, written by event 2
level 1: moment 4 pcid 0x1 [0x4028] = 0x9007 leaf, written by event 3
moments: level 4 at 4 is above moment 3
other moments would: 4 4 4 4
",
    },
    Case {
        name: "absent entry above the last",
        version: Version::One,
        before: &MAPPED,
        events: &[Written::Access {
            p: 0,
            flags: READ,
            la: 0x5123,
            outcome: Outcome::Page(0x9123),
            at: &[2, 2, 2, 2],
        }],
        told: "event: 4 cpu 0 user read 0x5123 -> 0x9123 moments 2 2 2 2
level 4: moment 2 pcid 0x1 [0x1000] = 0x2007 table, written by event 0
level 3: moment 2 pcid 0x1 [0x2000] = 0x3007 table, written by event 1
level 2: moment 2 pcid 0x1 [0x3000] = 0x0 absent, never written
wished: table at level 2, found absent
other moments would: 4 4 4 4
",
    },
    Case {
        name: "moments under two pcids",
        version: Version::One,
        before: &MAPPED,
        events: &[
            Written::Cr3(0, 0x1002),
            Written::Access {
                p: 0,
                flags: READ,
                la: 0x5123,
                outcome: Outcome::Page(0x9123),
                at: &[4, 4, 5, 5],
            },
        ],
        told: "event: 5 cpu 0 user read 0x5123 -> 0x9123 moments 4 4 5 5
level 4: moment 4 pcid 0x1 [0x1000] = 0x2007 table, written by event 0
level 3: moment 4 pcid 0x1 [0x2000] = 0x3007 table, written by event 1
level 2: moment 5 pcid 0x2 [0x3000] = 0x4007 table, written by event 2
level 1: moment 5 pcid 0x2 [0x4028] = 0x9007 leaf, written by event 3
pcids: 0x1 at moment 4, 0x2 at moment 5
other moments would: 5 5 5 5
",
    },
    Case {
        name: "structure entry dropped between levels",
        version: Version::One,
        before: &MAPPED,
        events: &[
            INVLPG,
            Written::Access {
                p: 0,
                flags: READ,
                la: 0x5123,
                outcome: Outcome::Page(0x9123),
                at: &[4, 4, 5, 5],
            },
        ],
        told: "event: 5 cpu 0 user read 0x5123 -> 0x9123 moments 4 4 5 5
level 4: moment 4 pcid 0x1 [0x1000] = 0x2007 table, written by event 0
level 3: moment 4 pcid 0x1 [0x2000] = 0x3007 table, written by event 1
level 2: moment 5 pcid 0x1 [0x3000] = 0x4007 table, written by event 2
level 1: moment 5 pcid 0x1 [0x4028] = 0x9007 leaf, written by event 3
dropped: structure entry of level 3 by 4 cpu 0 invlpg 0x5000
other moments would: 5 5 5 5
",
    },
    // The page's entries never changed, so a walk at the event itself proves it.
    Case {
        name: "invlpg of an unchanged page",
        version: Version::One,
        before: &MAPPED,
        events: &[
            INVLPG,
            Written::Access {
                p: 0,
                flags: READ,
                la: 0x5123,
                outcome: Outcome::Page(0x9123),
                at: &[4, 4, 4, 4],
            },
        ],
        told: "event: 5 cpu 0 user read 0x5123 -> 0x9123 moments 4 4 4 4
level 4: moment 4 pcid 0x1 [0x1000] = 0x2007 table, written by event 0
level 3: moment 4 pcid 0x1 [0x2000] = 0x3007 table, written by event 1
level 2: moment 4 pcid 0x1 [0x3000] = 0x4007 table, written by event 2
level 1: moment 4 pcid 0x1 [0x4028] = 0x9007 leaf, written by event 3
dropped: translation of level 1 by 4 cpu 0 invlpg 0x5000
other moments would: 5 5 5 5
",
    },
    // Event 4 leaves the page's translation, event 5 is the first that drops it, and event 6 comes
    // too late to drop it.
    Case {
        name: "first of two invlpgs",
        version: Version::One,
        before: &MAPPED,
        events: &[
            Written::Invlpg(0, 0x6000),
            INVLPG,
            Written::Invlpg(0, 0x5ff8),
            Written::Access {
                p: 0,
                flags: READ,
                la: 0x5123,
                outcome: Outcome::Page(0x9123),
                at: &[4, 4, 4, 4],
            },
        ],
        told: "event: 7 cpu 0 user read 0x5123 -> 0x9123 moments 4 4 4 4
level 4: moment 4 pcid 0x1 [0x1000] = 0x2007 table, written by event 0
level 3: moment 4 pcid 0x1 [0x2000] = 0x3007 table, written by event 1
level 2: moment 4 pcid 0x1 [0x3000] = 0x4007 table, written by event 2
level 1: moment 4 pcid 0x1 [0x4028] = 0x9007 leaf, written by event 3
dropped: translation of level 1 by 5 cpu 0 invlpg 0x5000
other moments would: 7 7 7 7
",
    },
    // No moment after the INVLPG reads the old leaf.
    Case {
        name: "stale leaf after invlpg",
        version: Version::One,
        before: &MAPPED,
        events: &[
            Written::Write(0, 0x4028, 0),
            INVLPG,
            Written::Access {
                p: 0,
                flags: READ,
                la: 0x5123,
                outcome: Outcome::Page(0x9123),
                at: &[4, 4, 4, 4],
            },
        ],
        told: "event: 6 cpu 0 user read 0x5123 -> 0x9123 moments 4 4 4 4
level 4: moment 4 pcid 0x1 [0x1000] = 0x2007 table, written by event 0
level 3: moment 4 pcid 0x1 [0x2000] = 0x3007 table, written by event 1
level 2: moment 4 pcid 0x1 [0x3000] = 0x4007 table, written by event 2
level 1: moment 4 pcid 0x1 [0x4028] = 0x9007 leaf, written by event 3
dropped: translation of level 1 by 5 cpu 0 invlpg 0x5000
final: no moments prove this access
last: moment 5 by 4 4 4 4; taken by 5 cpu 0 invlpg 0x5000
",
    },
    Case {
        name: "translation of another pcid",
        version: Version::One,
        before: &MAPPED,
        events: &[
            Written::Cr3(0, 0x1002),
            Written::Access {
                p: 0,
                flags: READ,
                la: 0x5123,
                outcome: Outcome::Page(0x9123),
                at: &[4, 4, 4, 4],
            },
        ],
        told: "event: 5 cpu 0 user read 0x5123 -> 0x9123 moments 4 4 4 4
level 4: moment 4 pcid 0x1 [0x1000] = 0x2007 table, written by event 0
level 3: moment 4 pcid 0x1 [0x2000] = 0x3007 table, written by event 1
level 2: moment 4 pcid 0x1 [0x3000] = 0x4007 table, written by event 2
level 1: moment 4 pcid 0x1 [0x4028] = 0x9007 leaf, written by event 3
pcids: 0x1 at moment 4, 0x2 at moment 5
other moments would: 5 5 5 5
",
    },
    Case {
        name: "absent entry read before the fault",
        version: Version::One,
        before: &MAPPED,
        events: &[Written::Access {
            p: 0,
            flags: READ,
            la: 0x6000,
            outcome: Outcome::Fault(4),
            at: &[3, 3, 3, 3],
        }],
        told: "event: 4 cpu 0 user read 0x6000 -> fault 0x4 (user) moments 3 3 3 3
level 4: moment 3 pcid 0x1 [0x1000] = 0x2007 table, written by event 0
level 3: moment 3 pcid 0x1 [0x2000] = 0x3007 table, written by event 1
level 2: moment 3 pcid 0x1 [0x3000] = 0x4007 table, written by event 2
level 1: moment 3 pcid 0x1 [0x4030] = 0x0 absent, never written
held: [0x4030] = 0x0 absent at the event, read at moment 3
other moments would: 4 4 4 4
",
    },
    // The leaf lost its write right by event 4, and the old translation went by event 5.
    Case {
        name: "rights of an old leaf",
        version: Version::One,
        before: &MAPPED,
        events: &[
            Written::Write(0, 0x4028, 0x9005),
            INVLPG,
            Written::Access {
                p: 0,
                flags: WRITE,
                la: 0x5123,
                outcome: Outcome::Page(0x9123),
                at: &[6, 6, 6, 6],
            },
        ],
        told: "event: 6 cpu 0 user write 0x5123 -> 0x9123 moments 6 6 6 6
level 4: moment 6 pcid 0x1 [0x1000] = 0x2007 table, written by event 0
level 3: moment 6 pcid 0x1 [0x2000] = 0x3007 table, written by event 1
level 2: moment 6 pcid 0x1 [0x3000] = 0x4007 table, written by event 2
level 1: moment 6 pcid 0x1 [0x4028] = 0x9005 leaf, written by event 4
rights: -u- deny user write
final: no moments prove this access
last: moment 5 by 4 4 4 4; taken by 5 cpu 0 invlpg 0x5000
",
    },
    Case {
        name: "bit flipped in an answer",
        version: Version::One,
        before: &MAPPED,
        events: &[Written::Access {
            p: 0,
            flags: READ,
            la: 0x5123,
            outcome: Outcome::Page(0x9133),
            at: &[4, 4, 4, 4],
        }],
        told: "event: 4 cpu 0 user read 0x5123 -> 0x9133 moments 4 4 4 4
level 4: moment 4 pcid 0x1 [0x1000] = 0x2007 table, written by event 0
level 3: moment 4 pcid 0x1 [0x2000] = 0x3007 table, written by event 1
level 2: moment 4 pcid 0x1 [0x3000] = 0x4007 table, written by event 2
level 1: moment 4 pcid 0x1 [0x4028] = 0x9007 leaf, written by event 3
expected: 0x9123
final: no moments prove this access
last: never
",
    },
    // With NXE on, the code of a fetch has bit 4.
    Case {
        name: "code without bit 4",
        version: Version::One,
        before: &MAPPED,
        events: &[Written::Access {
            p: 0,
            flags: FETCH,
            la: 0x6000,
            outcome: Outcome::Fault(4),
            at: &[4, 4, 4, 4],
        }],
        told: "event: 4 cpu 0 user fetch 0x6000 -> fault 0x4 (user) moments 4 4 4 4
level 4: moment 4 pcid 0x1 [0x1000] = 0x2007 table, written by event 0
level 3: moment 4 pcid 0x1 [0x2000] = 0x3007 table, written by event 1
level 2: moment 4 pcid 0x1 [0x3000] = 0x4007 table, written by event 2
level 1: moment 4 pcid 0x1 [0x4030] = 0x0 absent, never written
expected: fault 0x14 (user fetch)
final: no moments prove this access
last: never
",
    },
    Case {
        name: "entry used without accessed",
        version: Version::Two,
        before: &MAPPED,
        events: &[Written::Access {
            p: 0,
            flags: READ,
            la: 0x5123,
            outcome: Outcome::Page(0x9123),
            at: &[4, 4, 4, 4],
        }],
        told: "event: 4 cpu 0 user read 0x5123 -> 0x9123 moments 4 4 4 4
level 4: moment 4 pcid 0x1 [0x1000] = 0x2007 table, written by event 0
level 3: moment 4 pcid 0x1 [0x2000] = 0x3007 table, written by event 1
level 2: moment 4 pcid 0x1 [0x3000] = 0x4007 table, written by event 2
level 1: moment 4 pcid 0x1 [0x4028] = 0x9007 leaf, written by event 3
accessed: bit 5 of [0x1000] = 0x2007 is 0
final: no moments prove this access
last: never
",
    },
    Case {
        name: "write by a leaf that is not dirty",
        version: Version::Two,
        before: &ACCESSED,
        events: &[Written::Access {
            p: 0,
            flags: WRITE,
            la: 0x5123,
            outcome: Outcome::Page(0x9123),
            at: &[4, 4, 4, 4],
        }],
        told: "event: 4 cpu 0 user write 0x5123 -> 0x9123 moments 4 4 4 4
level 4: moment 4 pcid 0x1 [0x1000] = 0x2027 table, written by event 0
level 3: moment 4 pcid 0x1 [0x2000] = 0x3027 table, written by event 1
level 2: moment 4 pcid 0x1 [0x3000] = 0x4027 table, written by event 2
level 1: moment 4 pcid 0x1 [0x4028] = 0x9027 leaf, written by event 3
dirty: bit 6 of [0x4028] = 0x9027 is 0
final: no moments prove this access
last: never
",
    },
    Case {
        name: "assist of another word",
        version: Version::Two,
        before: &ACCESSED,
        events: &[Written::Assist {
            flags: WRITE + 16,
            la: 0x5123,
            word: 0x4030,
            at: &[4, 4, 4, 4],
        }],
        told: "event: 4 cpu 0 user write 0x5123 assist [0x4030] accessed dirty moments 4 4 4 4
level 4: moment 4 pcid 0x1 [0x1000] = 0x2027 table, written by event 0
level 3: moment 4 pcid 0x1 [0x2000] = 0x3027 table, written by event 1
level 2: moment 4 pcid 0x1 [0x3000] = 0x4027 table, written by event 2
level 1: moment 4 pcid 0x1 [0x4028] = 0x9027 leaf, written by event 3
assist: the word read last is [0x4028]
final: no moments prove this assist
last: never
",
    },
    // Event 3 wrote the leaf, and the assist, event 4, set A and D in it.
    Case {
        name: "leaf that an assist wrote",
        version: Version::Two,
        before: &ACCESSED,
        events: &[
            Written::Assist {
                flags: WRITE + 16,
                la: 0x5123,
                word: 0x4028,
                at: &[4, 4, 4, 4],
            },
            Written::Access {
                p: 0,
                flags: WRITE,
                la: 0x5123,
                outcome: Outcome::Page(0x9133),
                at: &[5, 5, 5, 5],
            },
        ],
        told: "event: 5 cpu 0 user write 0x5123 -> 0x9133 moments 5 5 5 5
level 4: moment 5 pcid 0x1 [0x1000] = 0x2027 table, written by event 0
level 3: moment 5 pcid 0x1 [0x2000] = 0x3027 table, written by event 1
level 2: moment 5 pcid 0x1 [0x3000] = 0x4027 table, written by event 2
level 1: moment 5 pcid 0x1 [0x4028] = 0x9067 leaf, written by event 4
expected: 0x9123
final: no moments prove this access
last: never
",
    },
];

/// What is told of the last event: nothing where it is witnessed.
fn told_of(alloc: Global, history: &History) -> Result<String, Fail> {
    let count = history.len();
    if count == 0 {
        return Err(Fail::from("no event"));
    }
    match explain(alloc, history, count - 1)? {
        None => Ok(String::new(alloc)),
        Some(explanation) => Ok(explanation_text(alloc, history.events(), &explanation)?),
    }
}

fn is_told_in(alloc: Global, history: &mut History, case: &Case) -> Result<bool, Fail> {
    add_all(history, case.before)?;
    add_all(history, case.events)?;
    Ok(told_of(alloc, history)?.as_str() == case.told)
}

fn is_told(alloc: Global, case: &Case) -> Result<bool, Fail> {
    let mut history = started(alloc, case.version, 1)?;
    is_told_in(alloc, &mut history, case)
}

fn tell_all(rt: &(impl AllocGlobal + Abort), cases: &[Case]) -> Result<(), Fail> {
    for case in cases {
        assert!(rt; is_told(rt.alloc(), case)?, "{}", case.name);
    }
    Ok(())
}

#[test]
fn explanations_of_the_last_event(rt: HostRuntime) -> Result<(), Fail> {
    tell_all(&rt, &CASES)
}

/// Events of three processors, of each kind but assists.
const EACH_KIND: [Written; 8] = [
    Written::Write(0, 0x7008, 0x74b0_0000_0000_b61f),
    Written::Access {
        p: 2,
        flags: FETCH,
        la: 0x4020_0f38,
        outcome: Outcome::Page(0x103_4f38),
        at: &[44, 44, 44, 85],
    },
    Written::Access {
        p: 1,
        flags: WRITE,
        la: 0x5000,
        outcome: Outcome::Fault(7),
        at: &[9, 9, 9, 9],
    },
    Written::Access {
        p: 1,
        flags: 8,
        la: 0,
        outcome: Outcome::Fault(0),
        at: &[9],
    },
    Written::Invlpg(2, 0x4000_1f00),
    Written::Invpcid(0, 0, 10, 0x5000),
    Written::Cr3(0, 0x1002),
    Written::Pge(0, false),
];

/// Events of three processors, of which the last names no address in the page of 0x5000.
const OF_THREE: [Written; 10] = [
    Written::Write(2, 0x4028, 0x9007),
    Written::Cr3(0, 0x1002),
    Written::Cr3(2, 0x1002),
    Written::Access {
        p: 0,
        flags: READ,
        la: 0x5ff8,
        outcome: Outcome::Fault(4),
        at: &[3, 3, 3, 3],
    },
    Written::Invlpg(1, 0x5000),
    Written::Invlpg(1, 0x6000),
    Written::Invpcid(2, 2, 0, 0),
    Written::Pge(1, false),
    Written::Pge(2, false),
    Written::Assist {
        flags: READ,
        la: 0x6000,
        word: 0x4028,
        at: &[9, 9, 9, 9],
    },
];

/// Events, and the lines of those that a selection asks for.
struct Shown {
    name: &'static str,
    events: &'static [Written],
    selection: Selection,
    lines: &'static str,
}

const SHOWN: [Shown; 5] = [
    Shown {
        name: "all",
        events: &EACH_KIND,
        selection: Selection {
            from: 0,
            to: 4_294_967_295,
            cpu: None,
            page: None,
            loads: false,
            word: None,
        },
        lines: "0 cpu 0 write [0x7008] = 0x74b000000000b61f
1 cpu 2 user fetch 0x40200f38 -> 0x1034f38 moments 44 44 44 85
2 cpu 1 user write 0x5000 -> fault 0x7 (present write user) moments 9 9 9 9
3 cpu 1 super-ac read 0x0 -> fault 0x0 moments 9
4 cpu 2 invlpg 0x40001f00
5 cpu 0 invpcid 0 0xa 0x5000
6 cpu 0 cr3 0x1002
7 cpu 0 pge off
",
    },
    Shown {
        name: "of a page, with loads",
        events: &OF_THREE,
        selection: Selection {
            from: 0,
            to: 4_294_967_295,
            cpu: None,
            page: Some(0x5123),
            loads: true,
            word: None,
        },
        lines: "1 cpu 0 cr3 0x1002
3 cpu 0 user read 0x5ff8 -> fault 0x4 (user) moments 3 3 3 3
4 cpu 1 invlpg 0x5000
6 cpu 2 invpcid 2 0x0 0x0
7 cpu 1 pge off
",
    },
    Shown {
        name: "of a page, without loads",
        events: &OF_THREE,
        selection: Selection {
            from: 0,
            to: 4_294_967_295,
            cpu: None,
            page: Some(0x5123),
            loads: false,
            word: None,
        },
        lines: "3 cpu 0 user read 0x5ff8 -> fault 0x4 (user) moments 3 3 3 3
4 cpu 1 invlpg 0x5000
6 cpu 2 invpcid 2 0x0 0x0
",
    },
    Shown {
        name: "of a word",
        events: &OF_THREE,
        selection: Selection {
            from: 0,
            to: 4_294_967_295,
            cpu: None,
            page: None,
            loads: false,
            word: Some(0x4028),
        },
        lines: "0 cpu 2 write [0x4028] = 0x9007
9 cpu 0 user read 0x6000 assist [0x4028] accessed moments 9 9 9 9
",
    },
    Shown {
        name: "of a page and a processor",
        events: &OF_THREE,
        selection: Selection {
            from: 5,
            to: 4_294_967_295,
            cpu: Some(1),
            page: Some(0x5123),
            loads: true,
            word: None,
        },
        lines: "7 cpu 1 pge off\n",
    },
];

fn is_shown(alloc: Global, shown: &Shown) -> Result<bool, Fail> {
    let events = events_of(alloc, shown.events)?;
    Ok(shown_text(alloc, shown.selection, &events)?.as_str() == shown.lines)
}

fn show_all(rt: &(impl AllocGlobal + Abort), cases: &[Shown]) -> Result<(), Fail> {
    for shown in cases {
        assert!(rt; is_shown(rt.alloc(), shown)?, "{}", shown.name);
    }
    Ok(())
}

#[test]
fn lines_of_events(rt: HostRuntime) -> Result<(), Fail> {
    show_all(&rt, &SHOWN)
}
