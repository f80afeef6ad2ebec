ghost use Rattle.std.specs.Prelude.{◌≡◌, ◌<◌, ◌-◌, length, IfOk};
ghost use Rattle.std.specs.List.{AllByRecursion};
ghost use Rattle.pg_guest.specs.Runs.{ArePlaced};

use crate::receipts::{receipt_of, script_of};
use crate::written::Written;
use pg_event::Outcome;
use pg_guest::{Advance, Processor, Script, Stop, drive, processors};
use pg_world::{Receipt, World};
use std::alloc::{AllocError, AllocGlobal, Global};
use std::process::Abort;
use std::test::Fail;

/// The tables and the page of 0x5123 written, and read by processor 0, while processor 1 writes
/// another page.
pub(crate) const TWO: &[u8] = b"pcid-guest 1
machine 40 wp nxe
segment 16
cpu 0x1001 1
cpu 0x1001 1
0 write 0x1000 0x2007
0 write 0x2000 0x3007
0 write 0x3000 0x4007
0 write 0x4028 0x9007
0 read 0x5123 user
1 write 0x4028 0xa007
";

/// That read, where the other page is written in its midst. It is event 5.
pub(crate) const ANSWERED: Written = Written::Access {
    p: 0,
    flags: 4,
    la: 0x5123,
    outcome: Outcome::Page(0xa123),
    at: &[4, 4, 4, 5],
};

fn world_of(alloc: Global, script: &Script) -> Result<World, AllocError>
    ensures { IfOk result (λ world. world.head ≡ script.now.head) }
{
    let header = script.header().clone()?;
    Ok(World::new(alloc, header))
}

/// The world and the processors of a script.
fn started(alloc: Global, script: &Script) -> Result<(World, Vec<Processor<'_>>), AllocError>
    ensures { IfOk result (λ run. ArePlaced run.0.head run.1.items) }
{
    let world = world_of(alloc, script)?;
    Ok((world, processors(alloc, script)?))
}

/// The last answer of some turns of the processors at these places.
fn last_of(world: &mut World, guests: &mut [Processor<'_>], turns: &[usize]) -> Advance
    requires placed { ArePlaced world.old.head guests.old }
    requires turns { AllByRecursion (λ p. p < length guests.old) turns.now }
{
    let mut last = Advance::Ended;
    for p in turns {
        let guest = &mut guests[*p];
        last = guest.advance(world);
    }
    last
}

/// How many instructions the first of two processors has and how many events it recorded, and how
/// many the other one recorded.
fn lengths_of(guests: &[Processor<'_>]) -> Option<(usize, usize, usize)> {
    let first = guests.first()?;
    let other = guests.last()?;
    let lengths = (first.instructions().len(), first.transcript().len());
    Some((lengths.0, lengths.1, other.transcript().len()))
}

/// The last answer of ten turns, and the processors' lengths then.
type Ten = (Advance, Option<(usize, usize, usize)>);

/// Ten turns of two processors one by one.
fn ten_turns(alloc: Global, script: &Script) -> Result<Option<Ten>, AllocError> {
    let (mut world, mut guests) = started(alloc, script)?;
    if guests.len() != 2 {
        return Ok(None);
    }
    let last = last_of(&mut world, &mut guests, &[0, 0, 0, 0, 0, 0, 0, 1, 0, 0]);
    Ok(Some((last, lengths_of(&guests))))
}

/// The same ten turns by one call: the last answer, and how many events the last processor
/// recorded.
fn ten_driven(
    alloc: Global,
    script: &Script,
) -> Result<Option<(Option<Advance>, usize)>, AllocError> {
    let (mut world, mut guests) = started(alloc, script)?;
    if guests.len() != 2 {
        return Ok(None);
    }
    let turns = [0, 0, 0, 0, 0, 0, 0, 1, 0, 0];
    let answers = drive(alloc, &mut world, &mut guests, &turns)?;
    let recorded = guests.pop().map(|guest| guest.into_transcript().len());
    let last = answers.last().copied();
    Ok(recorded.map(|count| (last, count)))
}

/// Whether ten turns of two processors are answered so, in either way.
fn are_answered(alloc: Global, script: &Script) -> Result<bool, Fail> {
    let answered = Advance::Done(receipt_of(5, &ANSWERED).ok_or("no moments")?);
    let by_turns = ten_turns(alloc, script)?;
    let driven = ten_driven(alloc, script)?;
    Ok(by_turns == Some((answered, Some((5, 5, 1)))) && driven == Some((Some(answered), 1)))
}

#[test]
fn ten_turns_of_two_processors(rt: HostRuntime) -> Result<(), Fail> {
    let script = script_of(rt.alloc(), TWO)?;
    assert!(rt; are_answered(rt.alloc(), &script)?);
    Ok(())
}

const IDLE: &[u8] = b"pcid-guest 1
machine 40 wp nxe
segment 16
cpu 0x1001 1
cpu 0x1001 1
0 invlpg 0x5000
";

/// What two processors are answered in a finished world, and how many events it has then.
fn finished_turns(
    alloc: Global,
    script: &Script,
) -> Result<Option<(Option<Advance>, Option<Advance>, u64)>, AllocError> {
    let (mut world, mut guests) = started(alloc, script)?;
    if guests.len() != 2 {
        return Ok(None);
    }
    world.finish();
    let answers = drive(alloc, &mut world, &mut guests, &[0, 1])?;
    let (first, last) = (answers.first().copied(), answers.last().copied());
    Ok(Some((first, last, world.len())))
}

/// A finished record takes nothing more; a processor that has ended asks for nothing.
#[test]
fn turns_in_a_finished_world(rt: HostRuntime) -> Result<(), Fail> {
    let script = script_of(rt.alloc(), IDLE)?;
    let refused = Some(Advance::Stopped(Stop::Finished));
    let wanted = Some((refused, Some(Advance::Ended), 0));
    assert!(rt; finished_turns(rt.alloc(), &script)? == wanted);
    Ok(())
}

/// What one processor records in 21 turns by one call, where the last of them finds it at its end.
fn driven(alloc: Global, script: &Script) -> Result<Option<Vec<Receipt>>, AllocError> {
    let (mut world, mut guests) = started(alloc, script)?;
    if guests.len() != 1 {
        return Ok(None);
    }
    let answers = drive(alloc, &mut world, &mut guests, &[0; 21])?;
    if answers.last().copied() != Some(Advance::Ended) {
        return Ok(None);
    }
    Ok(guests.pop().map(|guest| guest.into_transcript()))
}

/// What one processor records in 17 turns one by one.
fn by_turns(alloc: Global, script: &Script) -> Result<Option<Vec<Receipt>>, AllocError> {
    let (mut world, mut guests) = started(alloc, script)?;
    if guests.len() != 1 {
        return Ok(None);
    }
    let _ = last_of(&mut world, &mut guests, &[0; 17]);
    Ok(guests.pop().map(|guest| guest.into_transcript()))
}

/// A script of one processor, and what it records.
struct Case {
    name: &'static str,
    text: &'static [u8],
    /// Whether it is driven to its end by one call, or has so many turns as it needs.
    is_driven: bool,
    /// How many events it records.
    events: usize,
    /// Some of them, by their places.
    receipts: &'static [(u32, Written)],
}

/// Whether one of these receipts stands at a place, with that number as its moment.
fn has(receipts: &[Receipt], place: u32, written: &Written) -> bool {
    let wanted = receipt_of(place, written);
    wanted.is_some() && receipts.get(place as usize).copied() == wanted
}

/// What the processor of a case records.
fn recorded(alloc: Global, case: &Case) -> Result<Option<Vec<Receipt>>, Fail> {
    let script = script_of(alloc, case.text)?;
    let recorded = if case.is_driven {
        driven(alloc, &script)
    } else {
        by_turns(alloc, &script)
    };
    Ok(recorded?)
}

/// Whether the processor records what the case says.
fn records(alloc: Global, case: &Case) -> Result<bool, Fail> {
    let Some(receipts) = recorded(alloc, case)? else {
        return Err(Fail::from("not one processor, or not its end"));
    };
    Ok(
        receipts.len() == case.events
            && case
                .receipts
                .iter()
                .all(|(place, written)| has(&receipts, *place, written)),
    )
}

const READ_OF_0X9123_AT_4: Written = Written::Access {
    p: 0,
    flags: 4,
    la: 0x5123,
    outcome: Outcome::Page(0x9123),
    at: &[4, 4, 4, 4],
};

const CASES: [Case; 4] = [
    Case {
        name: "stale until invalidated",
        text: b"pcid-guest 1
machine 40 wp nxe
segment 16
cpu 0x1001 1
0 write 0x1000 0x2007
0 write 0x2000 0x3007
0 write 0x3000 0x4007
0 write 0x4028 0x9007
0 read 0x5123 user
0 write 0x4028 0x0
0 read 0x5123 user
0 invlpg 0x5000
0 read 0x5123 user
",
        is_driven: true,
        events: 9,
        receipts: &[
            (6, READ_OF_0X9123_AT_4),
            (
                8,
                Written::Access {
                    p: 0,
                    flags: 4,
                    la: 0x5123,
                    outcome: Outcome::Fault(4),
                    at: &[8, 8, 8, 8],
                },
            ),
        ],
    },
    Case {
        name: "accessed flags set first",
        text: b"pcid-guest 2
machine 40 wp nxe
segment 16
cpu 0x1001 1
0 write 0x1000 0x2007
0 write 0x2000 0x3007
0 write 0x3000 0x4007
0 write 0x4028 0x9007
0 read 0x5123 user
0 write 0x4028 0x0
0 read 0x5123 user
0 invlpg 0x5000
0 read 0x5123 user
",
        is_driven: true,
        events: 13,
        receipts: &[
            (
                7,
                Written::Assist {
                    p: 0,
                    flags: 4,
                    la: 0x5123,
                    word: 0x4028,
                    at: &[5, 6, 7, 7],
                },
            ),
            (
                8,
                Written::Access {
                    p: 0,
                    flags: 4,
                    la: 0x5123,
                    outcome: Outcome::Page(0x9123),
                    at: &[5, 6, 7, 8],
                },
            ),
            (
                12,
                Written::Access {
                    p: 0,
                    flags: 4,
                    la: 0x5123,
                    outcome: Outcome::Fault(4),
                    at: &[12, 12, 12, 12],
                },
            ),
        ],
    },
    // What is cached under a PCID answers under no other, and MOV to CR3 with bit 63 keeps it
    // (Intel SDM, vol. 3, 4.10.2, 4.10.4.1).
    Case {
        name: "two PCIDs",
        text: b"pcid-guest 1
machine 40 wp nxe
segment 16
cpu 0x1001 1
0 write 0x1000 0x2007
0 write 0x2000 0x3007
0 write 0x3000 0x4007
0 write 0x4028 0x9007
0 read 0x5123 user
0 cr3 0x8000000000001002
0 read 0x5123 user
0 cr3 0x8000000000001001
0 read 0x5123 user
",
        is_driven: false,
        events: 9,
        receipts: &[
            (4, READ_OF_0X9123_AT_4),
            (
                6,
                Written::Access {
                    p: 0,
                    flags: 4,
                    la: 0x5123,
                    outcome: Outcome::Page(0x9123),
                    at: &[6, 6, 6, 6],
                },
            ),
            (8, READ_OF_0X9123_AT_4),
        ],
    },
    // A walk goes on from a table that was cached for another address of the same 2 MB (4.10.3).
    Case {
        name: "table of another walk",
        text: b"pcid-guest 1
machine 40 wp nxe
segment 16
cpu 0x1001 1
0 write 0x1000 0x2007
0 write 0x2000 0x3007
0 write 0x3000 0x4007
0 write 0x4028 0x9007
0 write 0x4030 0xa007
0 read 0x5123 user
0 read 0x6123 user
",
        is_driven: false,
        events: 7,
        receipts: &[
            (
                5,
                Written::Access {
                    p: 0,
                    flags: 4,
                    la: 0x5123,
                    outcome: Outcome::Page(0x9123),
                    at: &[5, 5, 5, 5],
                },
            ),
            (
                6,
                Written::Access {
                    p: 0,
                    flags: 4,
                    la: 0x6123,
                    outcome: Outcome::Page(0xa123),
                    at: &[5, 5, 5, 6],
                },
            ),
        ],
    },
];

fn record_all(rt: &(impl AllocGlobal + Abort), cases: &[Case]) -> Result<(), Fail> {
    for case in cases {
        assert!(rt; records(rt.alloc(), case)?, "{}", case.name);
    }
    Ok(())
}

#[test]
fn receipts_of_one_processor(rt: HostRuntime) -> Result<(), Fail> {
    record_all(&rt, &CASES)
}
