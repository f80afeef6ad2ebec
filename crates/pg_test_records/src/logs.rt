//! Logs of single processors, and the runs that they make.

use pg_event::Event;
use pg_span_run::{Log, SpannedRun, merge_logs, read_log};
use std::alloc::{AllocError, AllocGlobal, Global};
use std::cell::Cell;
use std::test::Fail;

/// The log of docs/FORMAT.md: INVLPG of 0x5000 by processor 1 of 2. One byte follows.
const LOG: [u8; 68] = [
    0x50, 0x47, 0x43, 0x50, 0x55, 0x4c, 0x4f, 0x47, 1, 0, 0x28, 3, 2, 0, 1, 0, 0x01, 0x10, 0, 0, 0,
    0, 0, 0, 1, 3, 0, 0, 0, 0, 0, 0, 0, 4, 0, 0, 0, 0, 0, 0, 0, 0x13, 1, 0, 0x50, 0, 0, 0, 0, 0, 0,
    0xff, 0xff, 0xff, 0xff, 0xff, 0xff, 0xff, 0xff, 1, 0, 0, 0, 0, 0, 0, 0, 0,
];

/// That log with one byte changed and cut to a length, the number of its refusal, 0 for none, and
/// where the part begins that is refused.
struct Bytes {
    name: &'static str,
    at: usize,
    byte: u8,
    length: usize,
    told: u8,
    part: usize,
}

const BYTES: [Bytes; 19] = [
    Bytes {
        name: "a log",
        at: 0,
        byte: 0x50,
        length: 67,
        told: 0,
        part: 0,
    },
    Bytes {
        name: "another magic",
        at: 0,
        byte: 0x51,
        length: 67,
        told: 1,
        part: 0,
    },
    Bytes {
        name: "version 3",
        at: 8,
        byte: 3,
        length: 67,
        told: 2,
        part: 0,
    },
    Bytes {
        name: "MAXPHYADDR 53",
        at: 10,
        byte: 53,
        length: 67,
        told: 3,
        part: 0,
    },
    Bytes {
        name: "settings of five bits",
        at: 11,
        byte: 16,
        length: 67,
        told: 3,
        part: 0,
    },
    Bytes {
        name: "no processor",
        at: 12,
        byte: 0,
        length: 67,
        told: 3,
        part: 0,
    },
    Bytes {
        name: "65 processors in version 1",
        at: 12,
        byte: 65,
        length: 67,
        told: 3,
        part: 0,
    },
    Bytes {
        name: "a processor that the run lacks",
        at: 14,
        byte: 2,
        length: 67,
        told: 3,
        part: 0,
    },
    Bytes {
        name: "an event that begins at 0",
        at: 25,
        byte: 0,
        length: 67,
        told: 16,
        part: 25,
    },
    Bytes {
        name: "an event that ends as it begins",
        at: 25,
        byte: 4,
        length: 67,
        told: 16,
        part: 25,
    },
    Bytes {
        name: "an assist in version 1",
        at: 41,
        byte: 0x16,
        length: 67,
        told: 6,
        part: 25,
    },
    Bytes {
        name: "an event of another processor",
        at: 42,
        byte: 0,
        length: 67,
        told: 17,
        part: 25,
    },
    Bytes {
        name: "an event of a processor that the run lacks",
        at: 42,
        byte: 2,
        length: 67,
        told: 7,
        part: 25,
    },
    Bytes {
        name: "another total",
        at: 59,
        byte: 2,
        length: 67,
        told: 9,
        part: 51,
    },
    Bytes {
        name: "a byte after the end",
        at: 0,
        byte: 0x50,
        length: 68,
        told: 10,
        part: 67,
    },
    Bytes {
        name: "no magic",
        at: 0,
        byte: 0x50,
        length: 7,
        told: 8,
        part: 0,
    },
    Bytes {
        name: "an event cut",
        at: 0,
        byte: 0x50,
        length: 50,
        told: 8,
        part: 25,
    },
    Bytes {
        name: "no end mark",
        at: 0,
        byte: 0x50,
        length: 51,
        told: 8,
        part: 51,
    },
    Bytes {
        name: "an end mark cut",
        at: 0,
        byte: 0x50,
        length: 66,
        told: 8,
        part: 51,
    },
];

fn is_told(alloc: Global, case: &Bytes) -> Result<bool, Fail> {
    let mut bytes = Vec::from_slice(alloc, &LOG)?;
    if case.at >= bytes.len() || case.length > bytes.len() {
        return Err(Fail::from("place"));
    }
    bytes[case.at] = case.byte;
    let unread = Cell::new(0);
    match read_log(alloc, &bytes[..case.length], &unread) {
        Ok(_) => Ok(case.told == 0),
        Err(error) => {
            Ok(error.number() == case.told && unread.get() == case.length.saturating_sub(case.part))
        }
    }
}

#[test]
fn first_refusal_of_bytes_is_told(rt: HostRuntime) -> Result<(), Fail> {
    for case in BYTES.iter() {
        assert!(rt; is_told(rt.alloc(), case)?, "{}", case.name);
    }
    Ok(())
}

/// A log of a run of two processors: MAXPHYADDR, its processor, and its events, each an INVLPG
/// between two stamps, whose address is its begin stamp.
type Spans = (u8, u8, &'static [(u8, u8)]);

/// Logs, by how many ticks their spans are longer, and what they make: the processor, the address
/// and the span of each event, or the number of a refusal.
struct Case {
    name: &'static str,
    logs: &'static [Spans],
    error: u64,
    events: &'static [(u16, u64, u32)],
    told: u8,
}

const CASES: [Case; 12] = [
    Case {
        name: "no event overlaps another",
        logs: &[(40, 0, &[(1, 2), (5, 6)]), (40, 1, &[(3, 4)])],
        error: 0,
        events: &[(0, 1, 0), (1, 3, 0), (0, 5, 0)],
        told: 0,
    },
    Case {
        name: "the first to begin ends last",
        logs: &[(40, 0, &[(1, 6)]), (40, 1, &[(2, 3), (4, 5)])],
        error: 0,
        events: &[(1, 2, 0), (1, 4, 0), (0, 1, 2)],
        told: 0,
    },
    Case {
        name: "the order of the logs is of no account",
        logs: &[(40, 1, &[(2, 3), (4, 5)]), (40, 0, &[(1, 6)])],
        error: 0,
        events: &[(1, 2, 0), (1, 4, 0), (0, 1, 2)],
        told: 0,
    },
    Case {
        name: "spans of one tick more overlap",
        logs: &[(40, 0, &[(1, 2)]), (40, 1, &[(3, 4)])],
        error: 1,
        events: &[(0, 1, 0), (1, 3, 1)],
        told: 0,
    },
    Case {
        name: "spans that touch overlap",
        logs: &[(40, 0, &[(1, 2)]), (40, 1, &[(4, 5)])],
        error: 1,
        events: &[(0, 1, 0), (1, 4, 1)],
        told: 0,
    },
    Case {
        name: "spans that are a tick apart do not",
        logs: &[(40, 0, &[(1, 2)]), (40, 1, &[(5, 6)])],
        error: 1,
        events: &[(0, 1, 0), (1, 5, 0)],
        told: 0,
    },
    Case {
        name: "more ticks than any stamp has",
        logs: &[(40, 0, &[(1, 2), (5, 6)]), (40, 1, &[(3, 4)])],
        error: u64::MAX,
        events: &[(0, 1, 0), (1, 3, 1), (0, 5, 2)],
        told: 0,
    },
    Case {
        name: "of two that end at once that of the lower processor is first",
        logs: &[(40, 1, &[(1, 4)]), (40, 0, &[(2, 4)])],
        error: 0,
        events: &[(0, 2, 0), (1, 1, 1)],
        told: 0,
    },
    Case {
        name: "no log",
        logs: &[],
        error: 0,
        events: &[],
        told: 18,
    },
    Case {
        name: "another MAXPHYADDR",
        logs: &[(40, 0, &[]), (41, 1, &[])],
        error: 0,
        events: &[],
        told: 19,
    },
    Case {
        name: "two logs of one processor",
        logs: &[(40, 0, &[]), (40, 0, &[])],
        error: 0,
        events: &[],
        told: 20,
    },
    Case {
        name: "a processor without a log",
        logs: &[(40, 1, &[])],
        error: 0,
        events: &[],
        told: 21,
    },
];

fn add(bytes: &mut Vec<u8>, byte: u8, zeros: usize) -> Result<(), AllocError> {
    bytes.push(byte)?;
    for _ in 0..zeros {
        bytes.push(0)?;
    }
    Ok(())
}

fn bytes_of(alloc: Global, log: &Spans) -> Result<Vec<u8>, AllocError> {
    let mut bytes = Vec::from_slice(alloc, b"PGCPULOG".as_slice())?;
    add(&mut bytes, 1, 1)?;
    bytes.extend_from_slice(&[log.0, 0])?;
    add(&mut bytes, 2, 1)?;
    add(&mut bytes, log.1, 1)?;
    add(&mut bytes, 0, 8)?;
    for (begin, end) in log.2.iter() {
        add(&mut bytes, *begin, 7)?;
        add(&mut bytes, *end, 7)?;
        bytes.extend_from_slice(&[0x13, log.1])?;
        add(&mut bytes, *begin, 7)?;
    }
    bytes.extend_from_slice(&[0xff; 8])?;
    bytes.extend_from_slice(&(log.2.len() as u64).to_le_bytes())?;
    Ok(bytes)
}

fn logs_of(alloc: Global, case: &Case) -> Result<Vec<Log>, Fail> {
    let mut logs = Vec::new(alloc);
    for log in case.logs.iter() {
        let bytes = bytes_of(alloc, log)?;
        match read_log(alloc, &bytes, &Cell::new(0)) {
            Ok(log) => logs.push(log)?,
            Err(_) => return Err(Fail::from("log")),
        }
    }
    Ok(logs)
}

fn is_run(run: &SpannedRun, case: &Case) -> bool {
    if run.len() != case.events.len() {
        return false;
    }
    for (i, &(p, la, back)) in case.events.iter().enumerate() {
        if run.events()[i] != (Event::Invlpg { p, la }) || run.backs()[i] != back {
            return false;
        }
    }
    true
}

fn is_so(alloc: Global, case: &Case) -> Result<bool, Fail> {
    let logs = logs_of(alloc, case)?;
    match merge_logs(alloc, &logs, case.error) {
        Ok(run) => Ok(case.told == 0 && is_run(&run, case)),
        Err(error) => Ok(error.number() == case.told),
    }
}

#[test]
fn logs_make_runs(rt: HostRuntime) -> Result<(), Fail> {
    for case in CASES.iter() {
        assert!(rt; is_so(rt.alloc(), case)?, "{}", case.name);
    }
    Ok(())
}
