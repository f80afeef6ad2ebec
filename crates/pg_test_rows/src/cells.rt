//! Each cell of the table of allowed accesses (Intel SDM, vol. 3, 4.6.1), and each summand of the
//! error code (4.7), through the whole program.

use pg_test_support::{Case, answers};
use std::alloc::{AllocError, AllocGlobal, Global};
use std::process::Abort;
use std::sync::Wait;
use std::test::Fail;
use std::thread::Threads;

const NXE: u8 = 2;

const WP: u8 = 1;

const SMEP: u8 = 4;

const SMAP: u8 = 8;

const READ: u8 = 0;

const WRITE: u8 = 1;

const FETCH: u8 = 2;

const USER: u8 = 4;

const AC: u8 = 8;

/// The page's entry: present, and with these rights.
const USER_WRITABLE: u64 = 0x9007;

const USER_READ_ONLY: u64 = 0x9005;

const SUPERVISOR_WRITABLE: u64 = 0x9003;

const SUPERVISOR_READ_ONLY: u64 = 0x9001;

const XD: u64 = 0x8000_0000_0000_0000;

/// Settings, the entry, access flags, and the code of the page fault where the access is not
/// allowed.
type Cell = (u8, u64, u8, Option<u16>);

const USER_CELLS: [Cell; 10] = [
    (WP | NXE, USER_READ_ONLY, READ | USER, None),
    (WP | NXE, SUPERVISOR_READ_ONLY, READ | USER, Some(0x5)),
    (WP | NXE, USER_WRITABLE, WRITE | USER, None),
    (WP | NXE, USER_READ_ONLY, WRITE | USER, Some(0x7)),
    (NXE, USER_READ_ONLY, WRITE | USER, Some(0x7)),
    (WP | NXE, SUPERVISOR_WRITABLE, WRITE | USER, Some(0x7)),
    (WP | NXE, USER_READ_ONLY, FETCH | USER, None),
    (WP | NXE, USER_READ_ONLY | XD, FETCH | USER, Some(0x15)),
    (WP | NXE, SUPERVISOR_READ_ONLY, FETCH | USER, Some(0x15)),
    (WP, SUPERVISOR_READ_ONLY, FETCH | USER, Some(0x5)),
];

const SUPERVISOR_CELLS: [Cell; 20] = [
    (WP | NXE, USER_READ_ONLY, READ, None),
    (WP | NXE | SMAP, USER_READ_ONLY, READ, Some(0x1)),
    (WP | NXE | SMAP, USER_READ_ONLY, READ | AC, None),
    (WP | NXE | SMAP, SUPERVISOR_READ_ONLY, READ, None),
    (WP | NXE, USER_WRITABLE, WRITE, None),
    (WP | NXE, USER_READ_ONLY, WRITE, Some(0x3)),
    (NXE, USER_READ_ONLY, WRITE, None),
    (WP | NXE | SMAP, USER_WRITABLE, WRITE, Some(0x3)),
    (WP | NXE | SMAP, USER_WRITABLE, WRITE | AC, None),
    (WP | NXE | SMAP, USER_READ_ONLY, WRITE | AC, Some(0x3)),
    (NXE | SMAP, USER_READ_ONLY, WRITE, Some(0x3)),
    (NXE | SMAP, USER_READ_ONLY, WRITE | AC, None),
    (WP | NXE | SMAP, SUPERVISOR_WRITABLE, WRITE, None),
    (WP | NXE, SUPERVISOR_READ_ONLY, WRITE, Some(0x3)),
    (NXE, SUPERVISOR_READ_ONLY, WRITE, None),
    (WP | NXE, USER_READ_ONLY, FETCH, None),
    (WP | SMEP, USER_READ_ONLY, FETCH, Some(0x11)),
    (WP | NXE, USER_READ_ONLY | XD, FETCH, Some(0x11)),
    (WP | NXE | SMEP, SUPERVISOR_READ_ONLY, FETCH, None),
    (WP | NXE, SUPERVISOR_READ_ONLY | XD, FETCH, Some(0x11)),
];

fn push_write(bytes: &mut Vec<u8>, addr: u64, value: u64) -> Result<(), AllocError> {
    bytes.extend_from_slice(&[0x10, 0])?;
    bytes.extend_from_slice(&addr.to_le_bytes())?;
    bytes.extend_from_slice(&value.to_le_bytes())
}

fn push_header(bytes: &mut Vec<u8>, settings: u8) -> Result<(), AllocError> {
    bytes.extend_from_slice(b"PGRECORD")?;
    bytes.extend_from_slice(&[1, 0, 40, settings, 1, 16, 0, 0, 0])?;
    bytes.extend_from_slice(&[0x01, 0x10, 0, 0, 0, 0, 0, 0, 1])?;
    bytes.extend_from_slice(&[1, 0, 0, 0, 0, 5, 0, 0, 0])
}

/// An access to 0x5123 at event 4 that reads each level there; an answer, or a code.
fn push_access(bytes: &mut Vec<u8>, flags: u8, code: Option<u16>) -> Result<(), AllocError> {
    bytes.extend_from_slice(&[0x11, 0, flags, 0x23, 0x51, 0, 0, 0, 0, 0, 0])?;
    match code {
        None => bytes.extend_from_slice(&[0, 0x23, 0x91, 0, 0, 0, 0, 0, 0])?,
        Some(code) => {
            bytes.push(1)?;
            bytes.extend_from_slice(&code.to_le_bytes())?;
        }
    }
    bytes.push(4)?;
    for _ in 0..4 {
        bytes.extend_from_slice(&[4, 0, 0, 0])?;
    }
    Ok(())
}

fn record(alloc: Global, cell: &Cell, code: Option<u16>) -> Result<Vec<u8>, AllocError> {
    let (settings, entry, flags, _) = *cell;
    let mut bytes = Vec::new(alloc);
    push_header(&mut bytes, settings)?;
    push_write(&mut bytes, 0x1000, 0x2007)?;
    push_write(&mut bytes, 0x2000, 0x3007)?;
    push_write(&mut bytes, 0x3000, 0x4007)?;
    push_write(&mut bytes, 0x4028, entry)?;
    push_access(&mut bytes, flags, code)?;
    bytes.extend_from_slice(&[2, 5, 0, 0, 0])?;
    Ok(bytes)
}

/// What `check` answers of a record.
fn judged<'a>(input: &'a [u8], output: &'a str, status: u8) -> Case<'a> {
    Case {
        name: "cell",
        words: &["check"],
        input,
        output: output.as_bytes(),
        line: "",
        status,
    }
}

const YES: &str = "verdict: yes\nevents: 5\nsegments: 1\n";

const NO: &str = "verdict: no\nevent: 4\nreason: 8 rights\nevents: 5\nsegments: 1\n";

/// Whether the program answers so of a cell's record with this code, or with an answer.
fn is_judged<T: AllocGlobal + Threads + Wait + Sync>(
    rt: &T,
    cell: &Cell,
    code: Option<u16>,
    output: &str,
    status: u8,
) -> Result<bool, Fail> {
    let input = record(rt.alloc(), cell, code)?;
    Ok(answers(rt, judged(&input, output, status)))
}

/// What the table says is a yes, and the other answer a no.
fn run_cells<T: AllocGlobal + Abort + Threads + Wait + Sync>(
    rt: &T,
    cells: &[Cell],
) -> Result<(), Fail> {
    for (at, cell) in cells.iter().enumerate() {
        let denied = cell.3;
        let other = if denied.is_some() { None } else { Some(1) };
        assert!(rt; is_judged(rt, cell, denied, YES, 0)?, "{at}");
        assert!(rt; is_judged(rt, cell, other, NO, 1)?, "{at}");
    }
    Ok(())
}

#[test]
fn each_cell(rt: HostRuntime) -> Result<(), Fail> {
    run_cells(&rt, &USER_CELLS)?;
    run_cells(&rt, &SUPERVISOR_CELLS)
}
