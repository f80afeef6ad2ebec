//! How often judging looks into the past where pages are read again and again.

use crate::written::{Written, add, add_all, started};
use pg_check::History;
use pg_event::{Outcome, Reason, Version};
use std::alloc::Global;
use std::test::Fail;

const PAGES: u64 = 512;

/// How often the pages are read in their order.
const SCANS: u32 = 20;

/// An event that drops all translations, before there is any, and the upper tables of a table of
/// pages at 0x4000.
const BEFORE: [Written; 4] = [
    Written::Invpcid(0, 2, 0, 0),
    Written::Write(0, 0x1000, 0x2007),
    Written::Write(0, 0x2000, 0x3007),
    Written::Write(0, 0x3000, 0x4007),
];

/// Maps each page of the lowest 2 MB to one from 0x100000 on.
fn map(history: &mut History) -> Result<(), Fail> {
    for page in 0..PAGES {
        let entry = Written::Write(0, 0x4000 + 8 * page, 0x10_0007 + 0x1000 * page);
        add(history, &entry)?;
    }
    Ok(())
}

/// Reads each of these pages, by a walk that was made once all were mapped.
fn scan(history: &mut History) -> Result<(), Fail> {
    for page in 0..PAGES {
        let read = Written::Access {
            p: 0,
            flags: 4,
            la: 0x1000 * page,
            outcome: Outcome::Page(0x10_0000 + 0x1000 * page),
            at: &[516, 516, 516, 516],
        };
        add(history, &read)?;
    }
    Ok(())
}

fn scan_all(history: &mut History) -> Result<(), Fail> {
    add_all(history, &BEFORE)?;
    map(history)?;
    for _ in 0..SCANS {
        scan(history)?;
    }
    Ok(())
}

/// What is found in the first segment, and how many moments were read for that, with room for so
/// many walks.
fn judged(history: &History, walks: usize) -> Option<(Option<(u64, Reason)>, u64)> {
    if history.segments() == 0 {
        return None;
    }
    let stretch = history.stretch();
    let mut memo = stretch.memo(walks);
    let verdict = stretch.check_segment(&mut memo, 0);
    Some((verdict.first_bad, memo.probes()))
}

/// How many moments are read to judge all events with no memo of walks, and with one. None where
/// one of them is not witnessed.
fn judged_twice(history: &History) -> Option<(u64, u64)> {
    let (first_bad, without) = judged(history, 0)?;
    let (same, with) = judged(history, 4_096)?;
    if first_bad.is_some() || same.is_some() {
        return None;
    }
    Some((without, with))
}

/// The same of all scans, which are added.
fn scanned(history: &mut History) -> Result<Option<(u64, u64)>, Fail> {
    scan_all(history)?;
    Ok(judged_twice(history))
}

/// The same of a history of its own.
fn moments_read(alloc: Global) -> Result<Option<(u64, u64)>, Fail> {
    let mut history = started(alloc, Version::One, 65_536, 1)?;
    scanned(&mut history)
}

/// Where no walk is kept, each of 10,240 reads looks up four words. Else each of 512 pages has one
/// walk, which reads the entry of its page, and most of the upper tables are kept.
#[test]
fn pages_read_again(rt: HostRuntime) -> Result<(), Fail> {
    let (without, with) = moments_read(rt.alloc())?.ok_or("not witnessed")?;
    let is_few = with >= 512 && with <= without / 10;
    assert!(rt; without >= 40_960 && is_few, "{without}, {with}");
    Ok(())
}
