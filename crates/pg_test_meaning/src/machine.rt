use pg_entry::{Cfg, CfgFlags, Level, Rights, Rules};
use pg_event::{Event, Header, Malformed, Moments, Outcome, Parent, Version, structure_key};
use pg_machine::{Machine, Member, Step, Structure, Stuck};
use std::alloc::{AllocError, AllocGlobal, Global};
use std::process::Abort;
use std::test::Fail;

const ADDRESS: u64 = 0x5123;

/// MAXPHYADDR 40, write protection and execute disable on, one processor with global pages on.
fn one_processor(alloc: Global, version: Version) -> Result<Machine, AllocError> {
    let header = Header {
        version,
        cfg: Cfg {
            flags: CfgFlags(3),
            m: 40,
            rules: Rules::ALL,
        },
        segment: 16,
        processors: vec![in alloc; (0x1001, true)]?,
    };
    Machine::start(alloc, &header)
}

/// A step of the walk for `ADDRESS`, or another one that it has to do with.
enum Taken {
    /// A word of memory is written.
    Write(u64, u64),
    /// An access by user code.
    Access(u8, Outcome),
    /// An assist for such an access, in this word.
    Assist(u8, u64),
    /// An entry of level 4 is cached by this processor.
    Fill4(u16),
    Fill3,
    Fill2,
    FillLeaf,
    /// The entry of level 4 is dropped.
    Drop4,
}

fn parent(table: u64) -> Parent {
    Parent {
        table,
        rights: Rights::ALL,
    }
}

/// An access by user code; no step looks at its moments.
fn access(flags: u8, outcome: Outcome) -> Step {
    Step::Do(Event::Access {
        p: 0,
        flags,
        la: ADDRESS,
        outcome,
        moments: Moments::first(4),
    })
}

fn assist(flags: u8, word: u64) -> Step {
    Step::Do(Event::Assist {
        p: 0,
        flags,
        la: ADDRESS,
        word,
        moments: Moments::first(4),
    })
}

fn drop_level_4() -> Step {
    let member = Member::Structure(Structure {
        key: structure_key(1, Level::Four, ADDRESS),
        table: 0x2000,
        rights: Rights::ALL,
    });
    Step::Drop { p: 0, member }
}

fn step_of(taken: &Taken) -> Step {
    let la = ADDRESS;
    match *taken {
        Taken::Write(addr, value) => Step::Do(Event::Write { p: 0, addr, value }),
        Taken::Access(flags, outcome) => access(flags, outcome),
        Taken::Assist(flags, word) => assist(flags, word),
        Taken::Fill4(p) => Step::Fill4 { p, la },
        Taken::Fill3 => Step::Fill3 {
            p: 0,
            la,
            from: parent(0x2000),
        },
        Taken::Fill2 => Step::Fill2 {
            p: 0,
            la,
            from: parent(0x3000),
        },
        Taken::FillLeaf => Step::FillLeaf {
            p: 0,
            la,
            level: Level::One,
            from: parent(0x4000),
        },
        Taken::Drop4 => drop_level_4(),
    }
}

/// Whether a step comes to this. A machine that is stuck has not changed.
fn comes_to(
    alloc: Global,
    machine: &mut Machine,
    taken: &Taken,
    wanted: Result<(), Stuck>,
) -> Result<bool, Fail> {
    let before = format!(in alloc; "{machine:?}")?;
    let result = machine.step(&step_of(taken));
    let after = format!(in alloc; "{machine:?}")?;
    Ok(result == wanted && (result.is_ok() || before == after))
}

/// Steps of one machine, each with what it has to come to.
struct Case {
    name: &'static str,
    version: Version,
    steps: &'static [(Taken, Result<(), Stuck>)],
}

/// The page that the walk comes to is read, or written.
const READ_PAGE: Taken = Taken::Access(4, Outcome::Page(0x9123));

const WRITE_PAGE: Taken = Taken::Access(5, Outcome::Page(0x9123));

const CASES: [Case; 4] = [
    Case {
        name: "fresh walk",
        version: Version::One,
        steps: &[
            (Taken::Write(0x1000, 0x2007), Ok(())),
            (Taken::Write(0x2000, 0x3007), Ok(())),
            (Taken::Write(0x3000, 0x4007), Ok(())),
            (Taken::Write(0x4028, 0x9007), Ok(())),
            (Taken::Fill4(0), Ok(())),
            (Taken::Fill3, Ok(())),
            (Taken::Fill2, Ok(())),
            (Taken::FillLeaf, Ok(())),
            (READ_PAGE, Ok(())),
        ],
    },
    Case {
        name: "no translation",
        version: Version::One,
        steps: &[
            (Taken::Write(0x1000, 0x2007), Ok(())),
            (Taken::Write(0x2000, 0x3007), Ok(())),
            (Taken::Write(0x3000, 0x4007), Ok(())),
            (Taken::Write(0x4028, 0x9007), Ok(())),
            (Taken::Fill4(0), Ok(())),
            (Taken::Fill3, Ok(())),
            (Taken::Fill2, Ok(())),
            (READ_PAGE, Err(Stuck::Translation)),
            (Taken::FillLeaf, Ok(())),
            (READ_PAGE, Ok(())),
        ],
    },
    Case {
        name: "each reason",
        version: Version::One,
        steps: &[
            (Taken::Fill4(1), Err(Stuck::Processor)),
            (Taken::Fill3, Err(Stuck::Source)),
            (Taken::Fill4(0), Err(Stuck::Kind)),
            (Taken::Drop4, Err(Stuck::Member)),
            // Memory is 0, so the level 4 entry is absent: a read by user code faults by code 4.
            (Taken::Access(4, Outcome::Fault(6)), Err(Stuck::Entry)),
            (Taken::Access(4, Outcome::Fault(4)), Ok(())),
            (
                Taken::Write(0x1001, 0),
                Err(Stuck::Malformed(Malformed::WordAddress)),
            ),
            (Taken::Write(0x1000, 0x2007), Ok(())),
            (Taken::Fill4(0), Ok(())),
            (Taken::Drop4, Ok(())),
            (Taken::Drop4, Err(Stuck::Member)),
        ],
    },
    // A write by user code, for which the walk has to set A at level 4 and D in the page's entry.
    Case {
        name: "assisted write",
        version: Version::Two,
        steps: &[
            (Taken::Write(0x1000, 0x2007), Ok(())),
            (Taken::Write(0x2000, 0x3027), Ok(())),
            (Taken::Write(0x3000, 0x4027), Ok(())),
            (Taken::Write(0x4028, 0x9027), Ok(())),
            (Taken::Fill4(0), Err(Stuck::Kind)),
            // A table has no D, and level 3 is not yet read.
            (Taken::Assist(0x15, 0x1000), Err(Stuck::Entry)),
            (Taken::Assist(4, 0x2000), Err(Stuck::Entry)),
            (Taken::Assist(4, 0x1000), Ok(())),
            (Taken::Fill4(0), Ok(())),
            (Taken::Fill3, Ok(())),
            (Taken::Fill2, Ok(())),
            (Taken::FillLeaf, Ok(())),
            (READ_PAGE, Ok(())),
            (WRITE_PAGE, Err(Stuck::Translation)),
            (Taken::Assist(0x15, 0x4028), Ok(())),
            (WRITE_PAGE, Err(Stuck::Translation)),
            (Taken::FillLeaf, Ok(())),
            (WRITE_PAGE, Ok(())),
        ],
    },
];

/// Takes all steps of a case with a machine of its own.
fn take_all(rt: &(impl AllocGlobal + Abort), case: &Case) -> Result<(), Fail> {
    let mut machine = one_processor(rt.alloc(), case.version)?;
    for (place, step) in case.steps.iter().enumerate() {
        let (taken, wanted) = step;
        let comes = comes_to(rt.alloc(), &mut machine, taken, *wanted)?;
        assert!(rt; comes, "{}, step {place}", case.name);
    }
    Ok(())
}

fn take_cases(rt: &(impl AllocGlobal + Abort), cases: &[Case]) -> Result<(), Fail> {
    for case in cases {
        take_all(rt, case)?;
    }
    Ok(())
}

#[test]
fn steps_come_to_what_they_must(rt: HostRuntime) -> Result<(), Fail> {
    take_cases(&rt, &CASES)
}
