ghost use Rattle.std.specs.Prelude.{◌≤◌, length, IsTrue};
ghost use Rattle.pg_event.specs.Spelling.{IsHead};
ghost use Rattle.pg_codec.specs.Writing.{FitVersion};

use crate::written::{Written, events_of};
use pg_codec::{ReadError, RecordReader, Source, Watched, write_end, write_header, write_segment};
use pg_entry::{Cfg, CfgFlags, Rules};
use pg_event::{Event, Header, Outcome, Version, most_processors, processor_of};
use std::alloc::{AllocError, Global};
use std::io::{self, ErrorKind, Read};
use std::test::Fail;

/// One segment of four writes and an access, and the end mark.
const RECORD: [u8; 149] = [
    0x50, 0x47, 0x52, 0x45, 0x43, 0x4f, 0x52, 0x44, 1, 0, 40, 3, 1, 16, 0, 0, 0, 0x01, 0x10, 0, 0,
    0, 0, 0, 0, 1, 1, 0, 0, 0, 0, 5, 0, 0, 0, 0x10, 0, 0, 0x10, 0, 0, 0, 0, 0, 0, 0x07, 0x20, 0, 0,
    0, 0, 0, 0, 0x10, 0, 0, 0x20, 0, 0, 0, 0, 0, 0, 0x07, 0x30, 0, 0, 0, 0, 0, 0, 0x10, 0, 0, 0x30,
    0, 0, 0, 0, 0, 0, 0x07, 0x40, 0, 0, 0, 0, 0, 0, 0x10, 0, 0x28, 0x40, 0, 0, 0, 0, 0, 0, 0x07,
    0x90, 0, 0, 0, 0, 0, 0, 0x11, 0, 0x04, 0x23, 0x51, 0, 0, 0, 0, 0, 0, 0, 0x23, 0x91, 0, 0, 0, 0,
    0, 0, 4, 4, 0, 0, 0, 4, 0, 0, 0, 4, 0, 0, 0, 4, 0, 0, 0, 2, 5, 0, 0, 0,
];

/// A record of version 2: one segment of an assist by processor 1 of 2, and the end mark.
const ASSIST_RECORD: [u8; 87] = [
    0x50, 0x47, 0x52, 0x45, 0x43, 0x4f, 0x52, 0x44, 2, 0, 40, 3, 2, 0, 16, 0, 0, 0, 0x01, 0x10, 0,
    0, 0, 0, 0, 0, 1, 0x01, 0x20, 0, 0, 0, 0, 0, 0, 0, 1, 0, 0, 0, 0, 1, 0, 0, 0, 0x16, 1, 0, 0x15,
    0x23, 0x51, 0, 0, 0, 0, 0, 0, 0x28, 0x40, 0, 0, 0, 0, 0, 0, 4, 0, 0, 0, 0, 0, 0, 0, 0, 0, 0, 0,
    0, 0, 0, 0, 0, 2, 1, 0, 0, 0,
];

/// Hands out one byte a read, and fails from some read on.
#[derive(Drop)]
struct Drip {
    bytes: &'static [u8],
    at: usize,
    reads_left: usize,
}

impl Read for Drip {
    fn read(&mut self, buf: &mut [u8]) -> io::Result<usize> {
        if self.reads_left == 0 {
            return Err(io::Error::from(ErrorKind::Interrupted));
        }
        self.reads_left -= 1;
        if self.at >= self.bytes.len() || buf.is_empty() {
            return Ok(0);
        }
        buf[0] = self.bytes[self.at];
        self.at += 1;
        Ok(1)
    }
}

fn dripping(bytes: &'static [u8], reads_left: usize) -> Watched<Drip> {
    Watched::new(Drip {
        bytes,
        at: 0,
        reads_left,
    })
}

/// The header and the events of a record of one segment.
struct Case {
    name: &'static str,
    bytes: &'static [u8],
    version: Version,
    processors: &'static [(u64, bool)],
    events: &'static [Written],
}

const CASES: [Case; 2] = [
    Case {
        name: "version 1",
        bytes: &RECORD,
        version: Version::One,
        processors: &[(0x1001, true)],
        events: &[
            Written::Write(0, 0x1000, 0x2007),
            Written::Write(0, 0x2000, 0x3007),
            Written::Write(0, 0x3000, 0x4007),
            Written::Write(0, 0x4028, 0x9007),
            Written::Access {
                p: 0,
                flags: 4,
                la: 0x5123,
                outcome: Outcome::Page(0x9123),
                at: &[4, 4, 4, 4],
            },
        ],
    },
    Case {
        name: "version 2",
        bytes: &ASSIST_RECORD,
        version: Version::Two,
        processors: &[(0x1001, true), (0x2001, false)],
        events: &[Written::Assist {
            p: 1,
            flags: 0x15,
            la: 0x5123,
            word: 0x4028,
            at: &[0, 0, 0, 0],
        }],
    },
];

fn header_of(alloc: Global, case: &Case) -> Result<Header, AllocError> {
    Ok(Header {
        version: case.version,
        cfg: Cfg {
            flags: CfgFlags(3),
            m: 40,
            rules: Rules::ALL,
        },
        segment: 16,
        processors: Vec::from_slice(alloc, case.processors)?,
    })
}

/// Reads the header, one segment and the end mark, of which nothing else is told.
fn read_all(alloc: Global, bytes: &'static [u8]) -> Result<(Header, Vec<Event>), Fail> {
    let mut source = dripping(bytes, 1000);
    let mut reader = RecordReader::new(alloc)?;
    let header = reader.read_header(alloc, &mut source)?;
    let Some(events) = reader.read_segment(alloc, &mut source)? else {
        return Err(Fail::from("no segment"));
    };
    match reader.read_segment(alloc, &mut source)? {
        None => Ok((header, events)),
        Some(_) => Err(Fail::from("two segments")),
    }
}

/// Whether a record is read so, one byte a read.
fn is_read(alloc: Global, case: &Case) -> Result<bool, Fail> {
    let (header, events) = read_all(alloc, case.bytes)?;
    let wanted = events_of(alloc, case.events)?;
    Ok(header.is_same(&header_of(alloc, case)?) && events == wanted)
}

/// The bytes of a record of one segment.
fn written(alloc: Global, header: &Header, events: &[Event]) -> Option<Vec<u8>>
    requires head { IsHead header.now }
    requires some { 1 ≤ length events.now }
    requires few { length events.now ≤ 65536 }
    requires processors { FitVersion header.now.version events.now }
{
    let mut sink = Watched::new(Vec::new(alloc));
    write_header(&mut sink, header).ok()?;
    write_segment(&mut sink, header.version, 0, events).ok()?;
    write_end(&mut sink, events.len() as u32).ok()?;
    Some(sink.inner)
}

/// Whether the processor of each event has a place in a record of this version.
fn fit(version: Version, events: &[Event]) -> bool
    ensures { IsTrue result → FitVersion version events.now }
{
    let most = most_processors(version);
    events
        .iter()
        .all(|event| (processor_of(event) as usize) < most)
}

/// Whether a record is written so.
fn is_written(alloc: Global, case: &Case) -> Result<bool, Fail> {
    let header = header_of(alloc, case)?;
    let events = events_of(alloc, case.events)?;
    let may = header.is_in_range() && 1 <= events.len() && events.len() <= 65_536;
    if !may || !fit(header.version, &events) {
        return Err(Fail::from("no record"));
    }
    let bytes = written(alloc, &header, &events).ok_or("a failed write")?;
    Ok(bytes.as_slice() == case.bytes)
}

#[test]
fn records_are_read_and_written(rt: HostRuntime) -> Result<(), Fail> {
    for case in CASES.iter() {
        assert!(rt; is_read(rt.alloc(), case)?, "reading {}", case.name);
        assert!(rt; is_written(rt.alloc(), case)?, "writing {}", case.name);
    }
    Ok(())
}

/// What a reader answers first where the read of this number fails, and then, if the device failed
/// once.
fn failed(alloc: Global, read: usize) -> Result<Option<(ReadError, ReadError)>, AllocError> {
    let mut source = dripping(&RECORD, read);
    let mut reader = RecordReader::new(alloc)?;
    let Err(first) = reader.read_header(alloc, &mut source) else {
        return Ok(None);
    };
    let before = source.failures();
    let Err(then) = reader.read_segment(alloc, &mut source) else {
        return Ok(None);
    };
    let is_once = (before, source.failures()) == (1, 1);
    Ok(is_once.then_some((first, then)))
}

#[test]
fn failing_device(rt: HostRuntime) -> Result<(), Fail> {
    let wanted = Some((ReadError::Device, ReadError::Failed));
    for k in 0..150 {
        assert!(rt; failed(rt.alloc(), k)? == wanted, "read {k}");
    }
    Ok(())
}

/// The numbers of what a reader answers in the midst of the end mark, and then.
fn refused(alloc: Global) -> Result<Option<(u8, u8)>, Fail> {
    let mut source = dripping(&RECORD[..148], 1000);
    let mut reader = RecordReader::new(alloc)?;
    let _header = reader.read_header(alloc, &mut source)?;
    if reader.read_segment(alloc, &mut source)?.is_none() {
        return Ok(None);
    }
    let Err(first) = reader.read_segment(alloc, &mut source) else {
        return Ok(None);
    };
    let Err(then) = reader.read_segment(alloc, &mut source) else {
        return Ok(None);
    };
    Ok(Some((first.number(), then.number())))
}

#[test]
fn refused_and_then_failed(rt: HostRuntime) -> Result<(), Fail> {
    assert!(rt; refused(rt.alloc())? == Some((8, 13)));
    Ok(())
}
