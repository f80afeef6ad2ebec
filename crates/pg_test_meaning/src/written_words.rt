use crate::written::{INVLPG, MAPPED, READ, WRITE, Written, add_all, event_of, header_of, started};
use pg_check::History;
use pg_event::{Event, Outcome, Version, well_formed};
use pg_search::{KeptRun, Seen};
use std::alloc::{AllocGlobal, Global};
use std::process::Abort;
use std::test::Fail;

/// Behind the mapping a read, an assist, an invalidation and a write.
const BEHIND: [Written; 4] = [
    Written::Access {
        p: 1,
        flags: READ,
        la: 0x5123,
        outcome: Outcome::Page(0x9123),
        at: &[4, 4, 4, 4],
    },
    Written::Assist {
        flags: WRITE,
        la: 0x5123,
        word: 0x4028,
        at: &[5, 5, 5, 5],
    },
    INVLPG,
    Written::Write(1, 0x4028, 0xa007),
];

/// A moment, and for each event below it that writes a word the moment behind it, and the word.
struct Case {
    moment: u32,
    words: &'static [(u32, u64)],
}

/// What changes no word is passed over, and the word of an assist is listed once more.
const CASES: [Case; 5] = [
    Case {
        moment: 0,
        words: &[],
    },
    Case {
        moment: 2,
        words: &[(1, 0x1000), (2, 0x2000)],
    },
    Case {
        moment: 5,
        words: &[(1, 0x1000), (2, 0x2000), (3, 0x3000), (4, 0x4028)],
    },
    Case {
        moment: 7,
        words: &[
            (1, 0x1000),
            (2, 0x2000),
            (3, 0x3000),
            (4, 0x4028),
            (6, 0x4028),
        ],
    },
    Case {
        moment: 8,
        words: &[
            (1, 0x1000),
            (2, 0x2000),
            (3, 0x3000),
            (4, 0x4028),
            (6, 0x4028),
            (8, 0x4028),
        ],
    },
];

fn keep(kept: &mut KeptRun, event: &Event) -> Result<(), Fail> {
    if kept.len() >= 10_000 {
        return Err(Fail::from("full"));
    }
    match well_formed(kept.header(), event) {
        Ok(()) => Ok(kept.keep(event)?),
        Err(_) => Err(Fail::from("malformed")),
    }
}

fn keep_all(kept: &mut KeptRun, events: &[Written]) -> Result<(), Fail> {
    for written in events {
        keep(kept, &event_of(written).ok_or("moments")?)?;
    }
    Ok(())
}

/// A run that is kept in brief, of no events.
fn kept_of(alloc: Global) -> Result<KeptRun, Fail> {
    let header = header_of(alloc, Version::Two, 2)?;
    if !header.is_in_range() {
        return Err(Fail::from("no header"));
    }
    Ok(KeptRun::new(alloc, header)?)
}

/// Whether these words were written, as the case says.
fn are_written(alloc: Global, seen: &Seen<'_>, case: &Case) -> Result<bool, Fail> {
    let found = seen.written(alloc, case.moment)?;
    if found.len() != case.words.len() {
        return Ok(false);
    }
    for (left, wanted) in found.iter().zip(case.words) {
        if (left.since, left.word) != *wanted {
            return Ok(false);
        }
    }
    Ok(true)
}

fn check_all(rt: &(impl AllocGlobal + Abort), seen: &Seen<'_>) -> Result<(), Fail> {
    for case in CASES.iter() {
        assert!(rt;
            are_written(rt.alloc(), seen, case)?,
            "moment {}",
            case.moment
        );
    }
    Ok(())
}

/// By all events.
fn check_whole(rt: &(impl AllocGlobal + Abort), history: &mut History) -> Result<(), Fail> {
    add_all(history, &MAPPED)?;
    add_all(history, &BEHIND)?;
    check_all(rt, &Seen::of(history))
}

/// By what is kept of them.
fn check_kept(rt: &(impl AllocGlobal + Abort), kept: &mut KeptRun) -> Result<(), Fail> {
    keep_all(kept, &MAPPED)?;
    keep_all(kept, &BEHIND)?;
    check_all(rt, &Seen::among(kept))
}

#[test]
fn words_that_events_wrote(rt: HostRuntime) -> Result<(), Fail> {
    let mut history = started(rt.alloc(), Version::Two, 2)?;
    check_whole(&rt, &mut history)?;
    let mut kept = kept_of(rt.alloc())?;
    check_kept(&rt, &mut kept)
}
