ghost use Rattle.std.specs.Prelude.{◌<◌, ◌^◌, length, IfOk};
ghost use Rattle.pg_event.specs.Spelling.{IsHead};
ghost use Rattle.pg_check.specs.Kept.{AreWellFormed};

use crate::written::{READ, Written, add_all, event_of, started};
use pg_check::History;
use pg_entry::{Level, Rights};
use pg_event::{Outcome, Parent, Reason, Record, Version};
use pg_machine::Step;
use pg_run_of::{BuildError, build_run};
use std::alloc::{AllocError, AllocGlobal, Global};
use std::process::Abort;
use std::test::Fail;

/// A step of a run, of processor 0 and for 0x5123 where it is between events.
enum Ran {
    /// An event of the record.
    Do(Written),
    /// An entry of this level is cached, from this table.
    Fill(Level, u64),
}

/// A record's events, and its run.
struct Case {
    name: &'static str,
    events: &'static [Written],
    run: Result<&'static [Ran], BuildError>,
}

const CASES: [Case; 2] = [
    Case {
        name: "fresh walk",
        events: &[
            Written::Write(0, 0x1000, 0x2007),
            Written::Write(0, 0x2000, 0x3007),
            Written::Write(0, 0x3000, 0x4007),
            Written::Write(0, 0x4028, 0x9007),
            READ_PAGE,
        ],
        run: Ok(&[
            Ran::Do(Written::Write(0, 0x1000, 0x2007)),
            Ran::Do(Written::Write(0, 0x2000, 0x3007)),
            Ran::Do(Written::Write(0, 0x3000, 0x4007)),
            Ran::Do(Written::Write(0, 0x4028, 0x9007)),
            Ran::Fill(Level::Four, 0x1000),
            Ran::Fill(Level::Three, 0x2000),
            Ran::Fill(Level::Two, 0x3000),
            Ran::Fill(Level::One, 0x4000),
            Ran::Do(READ_PAGE),
        ]),
    },
    Case {
        name: "other answer",
        events: &[
            Written::Write(0, 0x1000, 0x2007),
            Written::Write(0, 0x2000, 0x3007),
            Written::Write(0, 0x3000, 0x4007),
            Written::Write(0, 0x4028, 0x9007),
            Written::Access {
                p: 0,
                flags: READ,
                la: 0x5123,
                outcome: Outcome::Page(0x8123),
                at: &[4, 4, 4, 4],
            },
        ],
        run: Err(BuildError::NotAccepted {
            event: 4,
            reason: Reason::Answer,
        }),
    },
];

/// A read by a walk at its own event.
const READ_PAGE: Written = Written::Access {
    p: 0,
    flags: READ,
    la: 0x5123,
    outcome: Outcome::Page(0x9123),
    at: &[4, 4, 4, 4],
};

/// The record of a history.
fn record_of(alloc: Global, history: &History) -> Result<Record, AllocError>
    ensures head { IfOk result (λ r. IsHead r.header) }
    ensures well { IfOk result (λ r. AreWellFormed r.header r.events.items) }
    ensures count { IfOk result (λ r. length r.events.items < 2 ^ 32) }
{
    let header = history.header().clone()?;
    let events = history.events().to_vec(alloc)?;
    Ok(Record { header, events })
}

/// The step that caches an entry of this level: no table is named at level 4, and a leaf stands at
/// level 1.
fn fill(level: Level, table: u64) -> Step {
    let from = Parent {
        table,
        rights: Rights::ALL,
    };
    let (p, la) = (0, 0x5123);
    match level {
        Level::Four => Step::Fill4 { p, la },
        Level::Three => Step::Fill3 { p, la, from },
        Level::Two => Step::Fill2 { p, la, from },
        Level::One => Step::FillLeaf { p, la, level, from },
    }
}

fn is_step(step: &Step, ran: &Ran) -> bool {
    match ran {
        Ran::Do(written) => event_of(written).map(Step::Do) == Some(*step),
        Ran::Fill(level, table) => *step == fill(*level, *table),
    }
}

/// Whether a run has these steps, or is refused so.
fn is_run(run: &Result<Vec<Step>, BuildError>, case: &Case) -> bool {
    match (run, case.run) {
        (Ok(steps), Ok(wanted)) => {
            steps.len() == wanted.len()
                && steps
                    .iter()
                    .zip(wanted)
                    .all(|(step, ran)| is_step(step, ran))
        }
        (Err(error), Err(wanted)) => *error == wanted,
        (Ok(_), Err(_)) | (Err(_), Ok(_)) => false,
    }
}

fn is_built_of(alloc: Global, history: &mut History, case: &Case) -> Result<bool, Fail> {
    add_all(history, case.events)?;
    let record = record_of(alloc, history)?;
    Ok(is_run(&build_run(alloc, &record), case))
}

fn is_built(alloc: Global, case: &Case) -> Result<bool, Fail> {
    let mut history = started(alloc, Version::One, 1)?;
    is_built_of(alloc, &mut history, case)
}

fn build_all(rt: &(impl AllocGlobal + Abort), cases: &[Case]) -> Result<(), Fail> {
    for case in cases {
        assert!(rt; is_built(rt.alloc(), case)?, "{}", case.name);
    }
    Ok(())
}

#[test]
fn runs_of_records(rt: HostRuntime) -> Result<(), Fail> {
    build_all(&rt, &CASES)
}
