//! How many events the bytes of a record have, and the lines of `--progress`.

ghost use Rattle.std.specs.Prelude.{◌≡◌};
ghost use Rattle.pg_runner.specs.Seats.{counts};

use pg_codec::Watched;
use pg_runner::{Counts, Observer};
use pg_tool::{Counter, Teller};
use std::alloc::{AllocError, Global};
use std::test::Fail;

/// Adds what is said, and so many zeros after it.
fn put(bytes: &mut Vec<u8>, said: &[u8], zeros: usize) -> Result<(), AllocError> {
    for byte in said {
        bytes.push(*byte)?;
    }
    for _ in 0..zeros {
        bytes.push(0)?;
    }
    Ok(())
}

/// An event of each kind: its tag, what follows the processor and says more, and how many bytes
/// there are in all but the processor.
fn put_events(bytes: &mut Vec<u8>, width: u8) -> Result<(), AllocError> {
    let width = width as usize;
    put(bytes, b"\x10", width + 16)?;
    put(bytes, b"\x11", width + 9)?;
    put(bytes, b"\x00", 8)?;
    put(bytes, b"\x04", 16)?;
    put(bytes, b"\x11", width + 9)?;
    put(bytes, b"\x01", 2)?;
    put(bytes, b"\x01", 4)?;
    put(bytes, b"\x12", width + 8)?;
    put(bytes, b"\x13", width + 8)?;
    put(bytes, b"\x14", width + 11)?;
    put(bytes, b"\x15", width + 1)
}

/// How many events, and in how many bytes the last of them ends.
fn counted(bytes: &[u8], piece: usize) -> (u64, u64) {
    let mut counter = Counter::new();
    let mut found = (0, 0);
    let mut rest = bytes;
    for _ in 0..bytes.len() {
        let before = counter.events();
        let taken = counter.take(&rest[..rest.len().min(piece)]);
        rest = &rest[taken..];
        if counter.events() != before {
            found = (counter.events(), counter.bytes());
        }
    }
    found
}

/// A header of version 1, eight events in two segments, and the end mark. Gives where the last
/// event ends.
fn put_version_1(bytes: &mut Vec<u8>) -> Result<u64, AllocError> {
    put(bytes, b"PGRECORD\x01\x00\x28\x03\x02", 4 + 18)?;
    put(bytes, b"\x01\x00\x00\x00\x00\x07\x00\x00\x00", 0)?;
    put_events(bytes, 1)?;
    put(bytes, b"\x01\x01\x00\x00\x00\x01\x00\x00\x00", 0)?;
    put(bytes, b"\x15", 2)?;
    let end = bytes.len() as u64;
    put(bytes, b"\x02\x08\x00\x00\x00", 0)?;
    Ok(end)
}

#[test]
fn events_of_version_1(rt: HostRuntime) -> Result<(), Fail> {
    let mut bytes = Vec::new(rt.alloc());
    let end = put_version_1(&mut bytes)?;
    for piece in [1, 2, 7, 1000] {
        assert!(rt; counted(&bytes, piece) == (8, end), "{piece}");
    }
    Ok(())
}

/// The same of version 2, with an assist, in one segment.
fn put_version_2(bytes: &mut Vec<u8>) -> Result<u64, AllocError> {
    put(bytes, b"PGRECORD\x02\x00\x28\x03\x01\x01", 4 + 9 * 257)?;
    put(bytes, b"\x01\x00\x00\x00\x00\x08\x00\x00\x00", 0)?;
    put_events(bytes, 2)?;
    put(bytes, b"\x16", 2 + 17)?;
    put(bytes, b"\x02", 8)?;
    let end = bytes.len() as u64;
    put(bytes, b"\x02\x08\x00\x00\x00", 0)?;
    Ok(end)
}

#[test]
fn events_of_version_2(rt: HostRuntime) -> Result<(), Fail> {
    let mut bytes = Vec::new(rt.alloc());
    let end = put_version_2(&mut bytes)?;
    for piece in [1, 2, 7, 1000] {
        assert!(rt; counted(&bytes, piece) == (8, end), "{piece}");
    }
    Ok(())
}

/// An event, and after it bytes that begin none. Gives where the event ends.
fn put_no_record(bytes: &mut Vec<u8>) -> Result<u64, AllocError> {
    put(bytes, b"PGRECORD\x01\x00\x28\x03\x00", 4)?;
    put(bytes, b"\x01\x00\x00\x00\x00\x02\x00\x00\x00", 0)?;
    put(bytes, b"\x15", 2)?;
    let end = bytes.len() as u64;
    put(bytes, b"\x99\x15\x00\x00\x15\x00\x00", 0)?;
    Ok(end)
}

#[test]
fn bytes_that_are_no_record(rt: HostRuntime) -> Result<(), Fail> {
    let mut bytes = Vec::new(rt.alloc());
    let end = put_no_record(&mut bytes)?;
    assert!(rt; counted(&bytes, 3) == (1, end));
    Ok(())
}

fn at(events: u32, segments: u32) -> Counts
    ensures { result ≡ counts events segments }
{
    Counts { events, segments }
}

/// A teller that saw a run come to its end, by looks that missed most of it.
fn told(alloc: Global) -> Teller<Watched<Vec<u8>>> {
    let mut teller = Teller::new(Watched::new(Vec::new(alloc)));
    teller.see(at(0, 0));
    teller.see(at(999_999, 3));
    teller.see(at(1_000_000, 3));
    teller.see(at(1_000_001, 4));
    teller.see(at(1_999_999, 7));
    teller.see(at(4_200_000, 8));
    teller.see(at(4_200_000, 8));
    teller.see(at(4_294_967_295, 4_294_967_295));
    teller
}

/// The lines of the looks that were the first after a million events.
const TOLD: &[u8] = b"pcid-audit: 1000000 events, 3 segments
pcid-audit: 4200000 events, 8 segments
pcid-audit: 4294967295 events, 4294967295 segments
";

#[test]
fn lines_of_a_run(rt: HostRuntime) -> Result<(), Fail> {
    let teller = told(rt.alloc());
    assert!(rt; teller.errors.inner.as_slice() == TOLD);
    Ok(())
}
