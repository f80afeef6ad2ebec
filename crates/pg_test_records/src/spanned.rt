//! The worked example of docs/FORMAT.md, whose bytes were made by hand, and changed bytes of it.

ghost use Rattle.std.specs.Prelude.{◌≤◌};

use pg_codec::{Watched, pull_all};
use pg_event::{Event, Malformed, Moments, Outcome, Refusal, Version};
use pg_span_run::{Peeked, SpannedError, SpannedRefusal, SpannedRun, read_spanned, spell_spanned};
use std::alloc::Global;
use std::cell::Cell;
use std::io::{self, Read};
use std::test::Fail;

/// Four writes by processor 0, and an INVLPG and an access by processor 1.
const RECORD: [u8; 175] = [
    0x50, 0x47, 0x52, 0x45, 0x43, 0x4f, 0x52, 0x44, 3, 0, 40, 3, 2, 16, 0, 0, 0, 0x01, 0x10, 0, 0,
    0, 0, 0, 0, 0, 0x01, 0x10, 0, 0, 0, 0, 0, 0, 0, 1, 0, 0, 0, 0, 6, 0, 0, 0, 0x10, 0, 0, 0, 0, 0,
    0, 0x10, 0, 0, 0, 0, 0, 0, 0x07, 0x20, 0, 0, 0, 0, 0, 0, 0x10, 0, 0, 0, 0, 0, 0, 0x20, 0, 0, 0,
    0, 0, 0, 0x07, 0x30, 0, 0, 0, 0, 0, 0, 0x10, 0, 0, 0, 0, 0, 0, 0x30, 0, 0, 0, 0, 0, 0, 0x07,
    0x40, 0, 0, 0, 0, 0, 0, 0x10, 0, 0, 0, 0, 0, 0x28, 0x40, 0, 0, 0, 0, 0, 0, 0x07, 0x90, 0, 0, 0,
    0, 0, 0, 0x13, 1, 1, 0, 0, 0, 0, 0x50, 0, 0, 0, 0, 0, 0, 0x11, 1, 0, 0, 0, 0, 4, 0x23, 0x51, 0,
    0, 0, 0, 0, 0, 0, 0x23, 0x91, 0, 0, 0, 0, 0, 0, 2, 6, 0, 0, 0,
];

/// What the last two events of the example say, and its spans.
fn is_example(run: &SpannedRun) -> bool {
    let access = Event::Access {
        p: 1,
        flags: 4,
        la: 0x5123,
        outcome: Outcome::Page(0x9123),
        moments: Moments::first(0),
    };
    run.header().version == Version::One
        && run.backs() == [0, 0, 0, 0, 1, 0].as_slice()
        && run.event_at(4) == Some(&Event::Invlpg { p: 1, la: 0x5000 })
        && run.event_at(5) == Some(&access)
}

/// Whether the example is read, and then spelled as it was.
fn is_read_and_spelled(alloc: Global) -> Result<bool, Fail> {
    let run = read_spanned(alloc, RECORD.as_slice(), &Cell::new(0))?;
    let bytes = spell_spanned(alloc, &run)?;
    Ok(is_example(&run) && bytes.as_slice() == RECORD.as_slice())
}

#[test]
fn the_example_is_read_and_spelled(rt: HostRuntime) -> Result<(), Fail> {
    assert!(rt; is_read_and_spelled(rt.alloc())?);
    Ok(())
}

/// Changed bytes of the example, and the refusal that they get.
struct Changed {
    name: &'static str,
    /// Places and the bytes that stand there.
    bytes: &'static [(usize, u8)],
    /// Where the part begins that is refused.
    part: usize,
    refusal: SpannedRefusal,
}

const CHANGED: [Changed; 10] = [
    Changed {
        name: "another magic",
        bytes: &[(7, 0x45)],
        part: 0,
        refusal: SpannedRefusal::Plain(Refusal::Magic),
    },
    Changed {
        name: "version 2",
        bytes: &[(8, 2)],
        part: 0,
        refusal: SpannedRefusal::Plain(Refusal::Version),
    },
    Changed {
        name: "MAXPHYADDR of 35",
        bytes: &[(10, 35)],
        part: 0,
        refusal: SpannedRefusal::Plain(Refusal::HeaderField),
    },
    Changed {
        name: "segment 1",
        bytes: &[(36, 1)],
        part: 35,
        refusal: SpannedRefusal::Plain(Refusal::SegmentNumber),
    },
    Changed {
        name: "an assist in version 3",
        bytes: &[(44, 0x16)],
        part: 44,
        refusal: SpannedRefusal::Plain(Refusal::Tag),
    },
    Changed {
        name: "an event of processor 2",
        bytes: &[(45, 2)],
        part: 44,
        refusal: SpannedRefusal::Plain(Refusal::Malformed {
            event: 0,
            rule: Malformed::Processor,
        }),
    },
    Changed {
        name: "a span before the first event",
        bytes: &[(134, 5)],
        part: 132,
        refusal: SpannedRefusal::Back { event: 4 },
    },
    Changed {
        name: "the same at an address that is not canonical",
        bytes: &[(134, 5), (145, 0x80)],
        part: 132,
        refusal: SpannedRefusal::Plain(Refusal::Malformed {
            event: 4,
            rule: Malformed::LinearAddress,
        }),
    },
    Changed {
        name: "a total of 7",
        bytes: &[(171, 7)],
        part: 170,
        refusal: SpannedRefusal::Plain(Refusal::Total),
    },
    Changed {
        name: "a third kind of outcome",
        bytes: &[(161, 2)],
        part: 146,
        refusal: SpannedRefusal::Plain(Refusal::Tag),
    },
];

/// What refuses bytes, and how many are left where the part begins that is refused, if one is.
fn refusal_of(alloc: Global, bytes: &[u8]) -> Result<Option<(SpannedRefusal, usize)>, Fail> {
    let unread = Cell::new(0);
    match read_spanned(alloc, bytes, &unread) {
        Ok(_) => Ok(None),
        Err(SpannedError::Refused(refusal)) => Ok(Some((refusal, unread.get()))),
        Err(SpannedError::Memory) => Err(Fail::from("memory ran out")),
    }
}

fn is_refused(alloc: Global, changed: &Changed) -> Result<bool, Fail> {
    let mut bytes = RECORD;
    for (place, byte) in changed.bytes {
        if *place < bytes.len() {
            bytes[*place] = *byte;
        }
    }
    match refusal_of(alloc, bytes.as_slice())? {
        None => Ok(false),
        Some((refusal, left)) => {
            Ok(refusal == changed.refusal && left == bytes.len().saturating_sub(changed.part))
        }
    }
}

#[test]
fn changed_bytes_are_refused(rt: HostRuntime) -> Result<(), Fail> {
    for changed in CHANGED.iter() {
        assert!(rt; is_refused(rt.alloc(), changed)?, "{}", changed.name);
    }
    Ok(())
}

/// Whether the first so many bytes of the example are cut.
fn is_cut(alloc: Global, count: usize) -> Result<bool, Fail>
    requires { count ≤ 175 }
{
    match refusal_of(alloc, &RECORD[..count])? {
        None => Ok(false),
        Some((refusal, _)) => Ok(refusal == SpannedRefusal::Plain(Refusal::Truncated)),
    }
}

#[test]
fn fronts_are_cut(rt: HostRuntime) -> Result<(), Fail> {
    for count in 0..175 {
        assert!(rt; is_cut(rt.alloc(), count)?, "{count} bytes");
    }
    Ok(())
}

/// Hands out one byte a read.
#[derive(Drop)]
struct Drip {
    bytes: &'static [u8],
}

impl Read for Drip {
    fn read(&mut self, buf: &mut [u8]) -> io::Result<usize> {
        if buf.is_empty() {
            return Ok(0);
        }
        match self.bytes {
            [] => Ok(0),
            [byte, rest @ ..] => {
                buf[0] = *byte;
                self.bytes = rest;
                Ok(1)
            }
        }
    }
}

/// Whether a source says spans, and then gives the same bytes.
fn is_peeked(alloc: Global, bytes: &'static [u8], says: bool) -> Result<bool, Fail> {
    let mut source = Peeked::new(Watched::new(Drip { bytes }));
    let Ok(found) = source.says_spans() else {
        return Err(Fail::from("a failed read"));
    };
    let pulled = pull_all(alloc, &mut source, 1000)?;
    Ok(found == says && pulled.as_slice() == bytes)
}

#[test]
fn sources_are_peeked(rt: HostRuntime) -> Result<(), Fail> {
    assert!(rt; is_peeked(rt.alloc(), &RECORD, true)?, "the example");
    assert!(rt;
        is_peeked(rt.alloc(), &RECORD[..9], false)?,
        "half a version"
    );
    assert!(rt; is_peeked(rt.alloc(), &[], false)?, "nothing");
    assert!(rt;
        is_peeked(rt.alloc(), b"PGRECORD\x02\x00more", false)?,
        "version 2"
    );
    Ok(())
}
