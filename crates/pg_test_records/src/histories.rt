use crate::written::{INVLPG, MAPPED, Written, add, add_all, started};
use pg_check::{History, SegmentVerdict, check_event, check_segment, first_bad};
use pg_event::{Outcome, Reason, Version};
use std::alloc::AllocGlobal;
use std::process::Abort;
use std::test::Fail;

/// The first bad event and its reason.
type Bad = Option<(u64, Reason)>;

/// An event that is added, or what the history then says.
enum Step {
    Add(Written),
    Len(u64),
    Segments(u64),
    FirstBad(Bad),
    /// What a memo finds in the first segment if all walks share its only slot.
    ByOneSlot(Bad),
    Event(u64, Result<(), Reason>),
    Segment(u64, Bad),
    /// The value just before an event, at a physical address.
    Value(u32, u64, u64),
}

/// Steps in one history of two processors, in which linear 0x5000 is mapped to physical 0x9000.
struct Case {
    name: &'static str,
    version: Version,
    segment: u32,
    steps: &'static [Step],
}

/// A user read of 0x5123 that got 0x9123, by a walk at moment 4.
const READ_AT_4: Step = Step::Add(Written::Access {
    p: 0,
    flags: 4,
    la: 0x5123,
    outcome: Outcome::Page(0x9123),
    at: &[4, 4, 4, 4],
});

const READ_AT_7: Step = Step::Add(Written::Access {
    p: 0,
    flags: 4,
    la: 0x5123,
    outcome: Outcome::Page(0x9123),
    at: &[7, 7, 7, 7],
});

const CASES: [Case; 6] = [
    Case {
        name: "fresh walk",
        version: Version::One,
        segment: 16,
        steps: &[
            READ_AT_4,
            Step::Len(5),
            Step::Segments(1),
            Step::FirstBad(None),
            Step::Event(4, Ok(())),
        ],
    },
    Case {
        name: "stale leaf after INVLPG",
        version: Version::One,
        segment: 16,
        steps: &[
            READ_AT_4,
            Step::Add(INVLPG),
            READ_AT_4,
            Step::FirstBad(Some((6, Reason::TranslationDropped))),
            Step::Len(7),
            Step::Event(6, Err(Reason::TranslationDropped)),
        ],
    },
    Case {
        name: "a walk of one processor serves no other",
        version: Version::One,
        segment: 16,
        steps: &[
            READ_AT_4,
            Step::Add(Written::Invlpg(1, 0x5000)),
            READ_AT_4,
            Step::FirstBad(None),
            Step::Add(Written::Access {
                p: 1,
                flags: 4,
                la: 0x5123,
                outcome: Outcome::Page(0x9123),
                at: &[4, 4, 4, 4],
            }),
            Step::FirstBad(Some((7, Reason::TranslationDropped))),
        ],
    },
    Case {
        name: "a walk by new moments serves no old ones",
        version: Version::One,
        segment: 16,
        steps: &[
            READ_AT_4,
            READ_AT_4,
            Step::Add(INVLPG),
            READ_AT_7,
            READ_AT_7,
            Step::ByOneSlot(None),
            READ_AT_4,
            Step::ByOneSlot(Some((9, Reason::TranslationDropped))),
        ],
    },
    Case {
        name: "segments are judged apart",
        version: Version::One,
        segment: 2,
        steps: &[
            READ_AT_4,
            Step::Add(INVLPG),
            READ_AT_4,
            Step::Segments(4),
            Step::Segment(2, None),
            Step::Segment(3, Some((6, Reason::TranslationDropped))),
        ],
    },
    Case {
        name: "a write after its assists",
        version: Version::Two,
        segment: 16,
        steps: &[
            Step::Add(Written::Assist {
                p: 0,
                flags: 5,
                la: 0x5123,
                word: 0x1000,
                at: &[4],
            }),
            Step::Add(Written::Assist {
                p: 0,
                flags: 5,
                la: 0x5123,
                word: 0x2000,
                at: &[5, 5],
            }),
            Step::Add(Written::Assist {
                p: 0,
                flags: 5,
                la: 0x5123,
                word: 0x3000,
                at: &[6, 6, 6],
            }),
            Step::Add(Written::Assist {
                p: 0,
                flags: 0x15,
                la: 0x5123,
                word: 0x4028,
                at: &[7, 7, 7, 7],
            }),
            Step::Add(Written::Access {
                p: 0,
                flags: 5,
                la: 0x5123,
                outcome: Outcome::Page(0x9123),
                at: &[8, 8, 8, 8],
            }),
            Step::Value(8, 0x4028, 0x9067),
            Step::FirstBad(None),
        ],
    },
];

fn first_bad_by_one_slot(history: &History) -> Bad {
    if history.segments() == 0 {
        return None;
    }
    let stretch = history.stretch();
    stretch.check_segment(&mut stretch.memo(1), 0).first_bad
}

fn is_judged(history: &History, number: u64, wanted: Bad) -> bool {
    let verdict = SegmentVerdict {
        number,
        first_bad: wanted,
    };
    number < history.segments() && check_segment(history, number) == verdict
}

/// Whether a history says so.
fn says(history: &History, step: &Step) -> bool {
    match *step {
        Step::Add(_) => true,
        Step::Len(count) => history.len() == count && history.events().len() as u64 == count,
        Step::Segments(count) => history.segments() == count,
        Step::FirstBad(wanted) => first_bad(history) == wanted,
        Step::ByOneSlot(wanted) => first_bad_by_one_slot(history) == wanted,
        Step::Event(i, wanted) => i < history.len() && check_event(history, i) == wanted,
        Step::Segment(number, wanted) => is_judged(history, number, wanted),
        Step::Value(moment, addr, value) => history.value_at(moment, addr) == value,
    }
}

/// Adds an event, or says whether the history says so.
fn take(history: &mut History, step: &Step) -> Result<bool, Fail> {
    match step {
        Step::Add(written) => {
            add(history, written)?;
            Ok(true)
        }
        _ => Ok(says(history, step)),
    }
}

/// Takes all steps of a case.
fn take_steps(
    rt: &(impl AllocGlobal + Abort),
    history: &mut History,
    case: &Case,
) -> Result<(), Fail> {
    add_all(history, &MAPPED)?;
    for (place, step) in case.steps.iter().enumerate() {
        assert!(rt; take(history, step)?, "{}, step {place}", case.name);
    }
    Ok(())
}

/// Takes all steps of a case in a history of its own.
fn take_all(rt: &(impl AllocGlobal + Abort), case: &Case) -> Result<(), Fail> {
    let mut history = started(rt.alloc(), case.version, case.segment, 2)?;
    take_steps(rt, &mut history, case)
}

#[test]
fn histories_are_judged(rt: HostRuntime) -> Result<(), Fail> {
    for case in CASES.iter() {
        take_all(&rt, case)?;
    }
    Ok(())
}
