use crate::receipts::receipt_of;
use crate::written::{Written, moments_of};
use pg_entry::{AccessKind, Cfg, CfgFlags, Level, Op, Rights, Rules};
use pg_event::{Event, Header, Outcome, Version};
use pg_world::{LevelRead, Receipt, Walk, World, WorldError};
use std::alloc::{AllocError, AllocGlobal, Global};
use std::process::Abort;
use std::test::Fail;

/// MAXPHYADDR 40, WP and NXE, and one processor whose PML4 table is at 0x1000.
fn one_processor(alloc: Global, version: Version, segment: u32) -> Result<Header, AllocError> {
    let mut processors = Vec::new(alloc);
    processors.push((0x1001, true))?;
    Ok(Header {
        version,
        cfg: Cfg {
            flags: CfgFlags(3),
            m: 40,
            rules: Rules::ALL,
        },
        segment,
        processors,
    })
}

/// A read of a level of the walk for 0x5123 by a user access of processor 0.
struct Read {
    op: Op,
    level: Level,
    table: u64,
    /// When the levels above were read.
    above: &'static [u32],
}

/// What such a read finds.
enum Finds {
    /// This entry, at this moment.
    Entry(u64, u32),
    /// A fault, with this moment.
    Fault(u32, Written),
    /// An assist, with this moment.
    Assist(u32, Written),
}

/// A call on a world, and what it gives.
enum Step {
    /// A word's value.
    Write(u64, u64),
    Read(Read, Finds),
    /// An access that is committed, with its moment.
    Commit(u32, Written),
    /// An INVLPG that is committed, for which that is not the way.
    CommitInvlpg,
    Invlpg(Result<u32, WorldError>),
    /// A full segment is taken, if there is one, of so many events.
    Take(Option<usize>),
    Finish,
}

const INVLPG: Event = Event::Invlpg { p: 0, la: 0x5000 };

fn walk(read: &Read) -> Walk {
    Walk {
        la: 0x5123,
        kind: AccessKind {
            op: read.op,
            user: true,
            ac: false,
        },
        level: read.level,
        table: read.table,
        rights: Rights::ALL,
        moments: moments_of(read.above),
    }
}

/// Whether a receipt has this moment and this event.
fn is_receipt(receipt: &Receipt, moment: u32, written: &Written) -> bool {
    receipt_of(moment, written) == Some(*receipt)
}

fn is_given(given: &LevelRead, finds: &Finds) -> bool {
    match (given, finds) {
        (LevelRead::Entry { value, moment }, Finds::Entry(wanted, at)) => {
            value == wanted && moment == at
        }
        (LevelRead::Fault(receipt), Finds::Fault(moment, written))
        | (LevelRead::Assisted(receipt), Finds::Assist(moment, written)) => {
            is_receipt(receipt, *moment, written)
        }
        _ => false,
    }
}

fn is_found(world: &mut World, read: &Read, finds: &Finds) -> bool {
    match world.read_or_fault(0, &walk(read)) {
        Ok(given) => is_given(&given, finds),
        Err(_) => false,
    }
}

/// Whether an access is recorded as it is.
fn is_committed(world: &mut World, moment: u32, written: &Written) -> bool {
    let Some(receipt) = receipt_of(moment, written) else {
        return false;
    };
    world.commit(0, &receipt.event) == Ok(receipt)
}

/// Whether an INVLPG has this moment, or is refused so.
fn is_invalidated(world: &mut World, wanted: Result<u32, WorldError>) -> bool {
    let recorded = world.control(0, &INVLPG);
    recorded
        == wanted.map(|moment| Receipt {
            moment,
            event: INVLPG,
        })
}

/// How many events the full segment has that is taken.
fn taken(alloc: Global, world: &mut World) -> Result<Option<usize>, AllocError> {
    Ok(world.take_sealed(alloc)?.map(|events| events.len()))
}

/// Makes a call; says whether it gave what it says.
fn take(alloc: Global, world: &mut World, step: &Step) -> Result<bool, AllocError> {
    Ok(match step {
        Step::Write(addr, value) => world.write(0, *addr, *value).is_ok(),
        Step::Read(read, finds) => is_found(world, read, finds),
        Step::Commit(moment, written) => is_committed(world, *moment, written),
        Step::CommitInvlpg => world.commit(0, &INVLPG) == Err(WorldError::Malformed),
        Step::Invlpg(wanted) => is_invalidated(world, *wanted),
        Step::Take(wanted) => taken(alloc, world)? == *wanted,
        Step::Finish => {
            world.finish();
            true
        }
    })
}

/// What a world is made with, what happens in it, and how many events and sealed segments it has
/// then.
struct Case {
    name: &'static str,
    version: Version,
    segment: u32,
    steps: &'static [Step],
    events: u64,
    sealed: u64,
}

const CASES: [Case; 3] = [
    Case {
        name: "reads and records",
        version: Version::One,
        segment: 16,
        steps: &[
            Step::Write(0x1000, 0x2007),
            Step::Write(0x2000, 0x3007),
            Step::Write(0x3000, 0x4007),
            Step::Write(0x4028, 0x9007),
            Step::Read(
                Read {
                    op: Op::Read,
                    level: Level::One,
                    table: 0x4000,
                    above: &[4, 4, 4],
                },
                Finds::Entry(0x9007, 4),
            ),
            Step::Commit(
                4,
                Written::Access {
                    p: 0,
                    flags: 4,
                    la: 0x5123,
                    outcome: Outcome::Page(0x9123),
                    at: &[4, 4, 4, 4],
                },
            ),
            Step::Read(
                Read {
                    op: Op::Read,
                    level: Level::Four,
                    table: 0x8000,
                    above: &[],
                },
                Finds::Fault(
                    5,
                    Written::Access {
                        p: 0,
                        flags: 4,
                        la: 0x5123,
                        outcome: Outcome::Fault(4),
                        at: &[5],
                    },
                ),
            ),
        ],
        events: 6,
        sealed: 0,
    },
    Case {
        name: "sets dirty in version two",
        version: Version::Two,
        segment: 16,
        steps: &[
            Step::Write(0x1000, 0x2027),
            Step::Write(0x2000, 0x3027),
            Step::Write(0x3000, 0x4027),
            Step::Write(0x4028, 0x9027),
            Step::Read(
                WRITE_AT_LEVEL_1,
                Finds::Assist(
                    4,
                    Written::Assist {
                        p: 0,
                        flags: 0x15,
                        la: 0x5123,
                        word: 0x4028,
                        at: &[4, 4, 4, 4],
                    },
                ),
            ),
            Step::Read(WRITE_AT_LEVEL_1, Finds::Entry(0x9067, 5)),
        ],
        events: 5,
        sealed: 0,
    },
    Case {
        name: "seals each segment once",
        version: Version::One,
        segment: 2,
        steps: &[
            Step::Invlpg(Ok(0)),
            Step::Invlpg(Ok(1)),
            Step::Invlpg(Ok(2)),
            Step::CommitInvlpg,
            Step::Take(Some(2)),
            Step::Take(None),
            Step::Finish,
            Step::Invlpg(Err(WorldError::Finished)),
            Step::Take(Some(1)),
        ],
        events: 3,
        sealed: 2,
    },
];

const WRITE_AT_LEVEL_1: Read = Read {
    op: Op::Write,
    level: Level::One,
    table: 0x4000,
    above: &[4, 4, 4],
};

/// Whether a world has the case's numbers, and its record as many events.
fn ends_so(world: World, case: &Case) -> bool {
    let numbers = (world.len(), world.sealed(), world.header().segment);
    let record = world.into_record();
    numbers == (case.events, case.sealed, case.segment) && record.events.len() as u64 == case.events
}

/// Takes all steps of a case.
fn take_steps(rt: &(impl AllocGlobal + Abort), world: &mut World, case: &Case) -> Result<(), Fail> {
    for (place, step) in case.steps.iter().enumerate() {
        assert!(rt;
            take(rt.alloc(), world, step)?,
            "{}, step {place}",
            case.name
        );
    }
    Ok(())
}

/// Takes them with a new world, and looks at its end.
fn take_all(rt: &(impl AllocGlobal + Abort), case: &Case) -> Result<(), Fail> {
    let header = one_processor(rt.alloc(), case.version, case.segment)?;
    if !header.is_in_range() {
        return Err(Fail::from("no header"));
    }
    let mut world = World::new(rt.alloc(), header);
    take_steps(rt, &mut world, case)?;
    assert!(rt; ends_so(world, case), "{}", case.name);
    Ok(())
}

fn take_cases(rt: &(impl AllocGlobal + Abort), cases: &[Case]) -> Result<(), Fail> {
    for case in cases {
        take_all(rt, case)?;
    }
    Ok(())
}

#[test]
fn what_is_recorded(rt: HostRuntime) -> Result<(), Fail> {
    take_cases(&rt, &CASES)
}

#[test]
fn headers_compared(rt: HostRuntime) -> Result<(), Fail> {
    let header = one_processor(rt.alloc(), Version::One, 16)?;
    let other = one_processor(rt.alloc(), Version::One, 32)?;
    assert!(rt; header.is_same(&header.clone()?) && !header.is_same(&other));
    Ok(())
}
