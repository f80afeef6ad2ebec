use crate::certificates::MAPPED;
use crate::written::{INVLPG, READ, Written, event_of, header_of};
use pg_check::History;
use pg_event::{Outcome, Version, well_formed};
use pg_span_run::{SpannedRun, is_order};
use pg_span_verdict::{
    InOrder, Verdict, certify_in_order, find_ordered_run, history_in_order, moments_in_order,
};
use std::alloc::{AllocGlobal, Global};
use std::test::Fail;

/// An event after the mapping, and how many before it had not ended when it began.
pub(crate) type Spanned = (Written, u32);

/// What is to be told.
enum Told {
    Yes,
    Never(u64),
    NoneOfAll(u64),
    Undecided(u64),
}

struct Case {
    name: &'static str,
    events: &'static [Spanned],
    told: Told,
    /// An order that has a run, or none.
    order: &'static [u32],
}

/// Processor 1 reads the page that was there before event 5.
pub(crate) const OLD_READ: Written = Written::Access {
    p: 1,
    flags: READ,
    la: 0x5123,
    outcome: Outcome::Page(0x9123),
    at: &[0],
};

pub(crate) const OWN_INVLPG: Written = Written::Invlpg(1, 0x5000);

pub(crate) const REMAP: Written = Written::Write(0, 0x4028, 0xb007);

/// Processor 1 reads the page that is there from the replacement on.
pub(crate) const NEW_READ: Written = Written::Access {
    p: 1,
    flags: READ,
    la: 0x5123,
    outcome: Outcome::Page(0xb123),
    at: &[0],
};

/// Processor 1 reads a page that nothing maps, and its error code lacks the bit of user mode.
const WRONG_CODE: Written = Written::Access {
    p: 1,
    flags: READ,
    la: 0x6123,
    outcome: Outcome::Fault(0),
    at: &[0],
};

/// The same of processor 0, whose events have one order.
const OWN_WRONG_CODE: Written = Written::Access {
    p: 0,
    flags: READ,
    la: 0x6123,
    outcome: Outcome::Fault(0),
    at: &[0],
};

const CASES: [Case; 8] = [
    Case {
        name: "one order alone, which has a run",
        events: &[(REMAP, 0), (OLD_READ, 0), (INVLPG, 0)],
        told: Told::Yes,
        order: &[0, 1, 2, 3, 4, 5, 6, 7],
    },
    Case {
        name: "one order alone, which has none",
        events: &[(REMAP, 0), (OWN_INVLPG, 0), (OLD_READ, 0)],
        told: Told::Never(7),
        order: &[],
    },
    Case {
        name: "an invalidation that began before the write had ended",
        events: &[(REMAP, 0), (OWN_INVLPG, 1), (OLD_READ, 0)],
        told: Told::Yes,
        order: &[0, 1, 2, 3, 4, 6, 5, 7],
    },
    Case {
        name: "an invalidation of another processor is of no account",
        events: &[(REMAP, 0), (INVLPG, 0), (OLD_READ, 1)],
        told: Told::Yes,
        order: &[0, 1, 2, 3, 4, 5, 7, 6],
    },
    Case {
        name: "an invalidation behind the write, and a read that overlaps it alone",
        events: &[(REMAP, 0), (OWN_INVLPG, 0), (OLD_READ, 1)],
        told: Told::Never(7),
        order: &[],
    },
    Case {
        name: "a wrong error code, which no memory gives",
        events: &[(WRONG_CODE, 1)],
        told: Told::Never(5),
        order: &[],
    },
    Case {
        name: "a read of the new page and then of the old one, and all orders tried",
        events: &[(NEW_READ, 0), (OWN_INVLPG, 0), (OLD_READ, 0), (REMAP, 3)],
        told: Told::NoneOfAll(7),
        order: &[],
    },
    Case {
        name: "a wrong error code, and spans of one processor alone that overlap",
        events: &[(OWN_WRONG_CODE, 1)],
        told: Told::Never(5),
        order: &[],
    },
];

pub(crate) fn push(run: &mut SpannedRun, written: &Written, back: u32) -> Result<(), Fail> {
    let event = event_of(written).ok_or("moments")?;
    if run.len() >= 10_000 || back as usize > run.len() {
        return Err(Fail::from("span"));
    }
    match well_formed(run.header(), &event) {
        Ok(()) => Ok(run.push(&event, back)?),
        Err(_) => Err(Fail::from("malformed")),
    }
}

/// The mapping, and these events after it, in a record of version 3.
pub(crate) fn run_of(alloc: Global, events: &[Spanned]) -> Result<SpannedRun, Fail> {
    run_in(alloc, Version::One, events)
}

/// The same in a record of version 3, or with assists of version 4.
pub(crate) fn run_in(
    alloc: Global,
    version: Version,
    events: &[Spanned],
) -> Result<SpannedRun, Fail> {
    let header = header_of(alloc, version, 2)?;
    if !header.is_in_range() {
        return Err(Fail::from("no header"));
    }
    let mut run = SpannedRun::new(alloc, header);
    for written in MAPPED.iter() {
        push(&mut run, written, 0)?;
    }
    for (written, back) in events {
        push(&mut run, written, *back)?;
    }
    Ok(run)
}

/// Whether the verdict is what the case says.
fn is_told(alloc: Global, run: &SpannedRun, told: &Told) -> Result<bool, Fail> {
    Ok(match (find_ordered_run(alloc, run)?, told) {
        (Verdict::Yes(order), Told::Yes) => {
            let found = moments_in_order(alloc, run, &order)?;
            is_order(alloc, run, &order)? && found.len() == run.len()
        }
        (Verdict::Never(event, _), Told::Never(at)) => event == *at,
        (Verdict::NoneOfAll(event), Told::NoneOfAll(at)) => event == *at,
        (Verdict::Undecided(event), Told::Undecided(at)) => event == *at,
        _ => false,
    })
}

/// Whether the events are certified in this order.
fn is_certified_in(alloc: Global, run: &SpannedRun, order: &[u32]) -> Result<bool, Fail> {
    Ok(matches!(certify_in_order(alloc, run, order)?, InOrder::Certified))
}

fn is_so(alloc: Global, case: &Case) -> Result<bool, Fail> {
    let run = run_of(alloc, case.events)?;
    let certified = is_certified_in(alloc, &run, case.order)?;
    Ok(is_told(alloc, &run, &case.told)? && certified != case.order.is_empty())
}

#[test]
fn orders_are_found(rt: HostRuntime) -> Result<(), Fail> {
    for case in CASES.iter() {
        assert!(rt; is_so(rt.alloc(), case)?, "{}", case.name);
    }
    Ok(())
}

/// Whether these events end a history.
fn ends_with(history: &History, written: &[Written]) -> Result<bool, Fail> {
    let events = history.events();
    if events.len() < written.len() {
        return Err(Fail::from("few events"));
    }
    let last = &events[events.len() - written.len()..];
    for (event, wanted) in last.iter().zip(written) {
        if *event != event_of(wanted).ok_or("moments")? {
            return Ok(false);
        }
    }
    Ok(true)
}

/// Whether the events of a run in the order that is found are so many, of which these are the last.
fn ends_in_order_with(
    alloc: Global,
    run: &SpannedRun,
    count: u64,
    written: &[Written],
) -> Result<bool, Fail> {
    match find_ordered_run(alloc, run)? {
        Verdict::Yes(order) => {
            let history = history_in_order(alloc, run, &order)?;
            Ok(history.len() == count && ends_with(&history, written)?)
        }
        Verdict::Never(..) | Verdict::NoneOfAll(_) | Verdict::Undecided(_) => Ok(false),
    }
}

/// The invalidation has to come before the write that it overlaps, or the read has no old entry.
const OVERLAPPING: [Spanned; 3] = [(REMAP, 0), (OWN_INVLPG, 1), (OLD_READ, 0)];

const OVERLAPPING_IN_ORDER: [Written; 3] = [OWN_INVLPG, REMAP, OLD_READ];

#[test]
fn events_in_an_order_are_a_history(rt: HostRuntime) -> Result<(), Fail> {
    let run = run_of(rt.alloc(), &OVERLAPPING)?;
    assert!(rt; ends_in_order_with(rt.alloc(), &run, 8, &OVERLAPPING_IN_ORDER)?);
    Ok(())
}
