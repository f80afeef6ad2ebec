//! Histories out of tables, in which the moments of an event are plain numbers: no constant can
//! make them otherwise.

use pg_check::History;
use pg_entry::{Cfg, CfgFlags, Rules};
use pg_event::{Event, Header, Moments, Outcome, Version, well_formed};
use std::alloc::{AllocError, Global};
use std::test::Fail;

/// An event. Moments are written out, level 4 first.
pub(crate) enum Written {
    /// A processor writes a word.
    Write(u16, u64, u64),
    /// An access.
    Access {
        p: u16,
        flags: u8,
        la: u64,
        outcome: Outcome,
        at: &'static [u32],
    },
    /// What serves an access of processor 0.
    Assist {
        flags: u8,
        la: u64,
        word: u64,
        at: &'static [u32],
    },
    /// INVLPG by a processor.
    Invlpg(u16, u64),
    /// INVPCID by a processor, with its type, PCID and address.
    Invpcid(u16, u8, u16, u64),
    /// MOV to CR3 by a processor.
    Cr3(u16, u64),
    /// MOV to CR4 by a processor, with PGE.
    Pge(u16, bool),
}

/// Linear 0x5000 is mapped to physical 0x9000.
pub(crate) const MAPPED: [Written; 4] = [
    Written::Write(0, 0x1000, 0x2007),
    Written::Write(0, 0x2000, 0x3007),
    Written::Write(0, 0x3000, 0x4007),
    Written::Write(0, 0x4028, 0x9007),
];

/// The same, with accessed flags that are set.
pub(crate) const ACCESSED: [Written; 4] = [
    Written::Write(0, 0x1000, 0x2027),
    Written::Write(0, 0x2000, 0x3027),
    Written::Write(0, 0x3000, 0x4027),
    Written::Write(0, 0x4028, 0x9027),
];

/// What invalidates the page.
pub(crate) const INVLPG: Written = Written::Invlpg(0, 0x5000);

/// The flags of a user's read, write and fetch.
pub(crate) const READ: u8 = 4;

pub(crate) const WRITE: u8 = 5;

pub(crate) const FETCH: u8 = 6;

/// These moments, where they are one to four.
fn moments_of(at: &[u32]) -> Option<Moments> {
    let (first, rest) = at.split_first()?;
    let mut moments = Moments::first(*first);
    for moment in rest {
        moments = moments.with(*moment)?;
    }
    Some(moments)
}

/// The event that is written so.
pub(crate) fn event_of(written: &Written) -> Option<Event> {
    Some(match *written {
        Written::Write(p, addr, value) => Event::Write { p, addr, value },
        Written::Access {
            p,
            flags,
            la,
            outcome,
            at,
        } => Event::Access {
            p,
            flags,
            la,
            outcome,
            moments: moments_of(at)?,
        },
        Written::Assist {
            flags,
            la,
            word,
            at,
        } => Event::Assist {
            p: 0,
            flags,
            la,
            word,
            moments: moments_of(at)?,
        },
        Written::Invlpg(p, la) => Event::Invlpg { p, la },
        Written::Invpcid(p, kind, pcid, la) => Event::Invpcid { p, kind, pcid, la },
        Written::Cr3(p, operand) => Event::MovCr3 { p, operand },
        Written::Pge(p, on) => Event::MovCr4Pge { p, on },
    })
}

/// MAXPHYADDR 40, WP and NXE, and so many processors with the PCID 1 and the root 0x1000.
pub(crate) fn header_of(
    alloc: Global,
    version: Version,
    processors: usize,
) -> Result<Header, AllocError> {
    Ok(Header {
        version,
        cfg: Cfg {
            flags: CfgFlags(3),
            m: 40,
            rules: Rules::ALL,
        },
        segment: 16,
        processors: vec![in alloc; (0x1001, true); processors]?,
    })
}

/// A history of no events.
pub(crate) fn started(alloc: Global, version: Version, processors: usize) -> Result<History, Fail> {
    let header = header_of(alloc, version, processors)?;
    if !header.is_in_range() {
        return Err(Fail::from("no header"));
    }
    Ok(History::new(alloc, header)?)
}

fn add(history: &mut History, event: Event) -> Result<(), Fail> {
    if history.len() >= 10_000 {
        return Err(Fail::from("full"));
    }
    match well_formed(history.header(), &event) {
        Ok(()) => Ok(history.extend(&[event])?),
        Err(_) => Err(Fail::from("malformed")),
    }
}

/// Adds these events.
pub(crate) fn add_all(history: &mut History, events: &[Written]) -> Result<(), Fail> {
    for written in events {
        add(history, event_of(written).ok_or("moments")?)?;
    }
    Ok(())
}

/// These events.
pub(crate) fn events_of(alloc: Global, written: &[Written]) -> Result<Vec<Event>, Fail> {
    let mut events = Vec::new(alloc);
    for it in written {
        events.push(event_of(it).ok_or("moments")?)?;
    }
    Ok(events)
}
