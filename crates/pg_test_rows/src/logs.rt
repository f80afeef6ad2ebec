//! Logs of single processors, merged.

use pg_codec::Watched;
use pg_span_run::Peeked;
use pg_test_support::{Case, bytes_of, is_answered};
use pg_tool::{Nowhere, pcid_audit, plan};
use std::alloc::AllocGlobal;
use std::sync::Wait;
use std::test::Fail;
use std::thread::Threads;

/// What the two logs below make: the worked example in segments of 65,536 events.
const MERGED: &[&str] = &[
    "50475245434f5244030028030200000100011000000000000000011000000000000000",
    "010000000006000000",
    "10000000000000100000000000000720000000000000",
    "10000000000000200000000000000730000000000000",
    "10000000000000300000000000000740000000000000",
    "10000000000028400000000000000790000000000000",
    "1301010000000050000000000000",
    "110100000000042351000000000000002391000000000000",
    "0206000000",
];

/// Processor 0's log of the worked example.
const LOG_0: &[&str] = &[
    "50474350554c4f470100280302000000011000000000000000",
    "01000000000000000200000000000000100000100000000000000720000000000000",
    "03000000000000000400000000000000100000200000000000000730000000000000",
    "05000000000000000600000000000000100000300000000000000740000000000000",
    "07000000000000000a00000000000000100028400000000000000790000000000000",
    "ffffffffffffffff0400000000000000",
];

/// Processor 1's.
const LOG_1: &[&str] = &[
    "50474350554c4f470100280302000100011000000000000000",
    "08000000000000000b0000000000000013010050000000000000",
    "0c000000000000000d000000000000001101042351000000000000002391000000000000",
    "ffffffffffffffff0200000000000000",
];

/// The log of that name.
fn log_of<'a>(name: &str, first: &'a [u8], second: &'a [u8]) -> &'a [u8] {
    if name == "a.log" { first } else { second }
}

/// The exit status of the program where the two logs are the only files.
fn run_with_logs<'a, T: AllocGlobal + Threads + Wait + Sync>(
    rt: &T,
    merged: Case<'a>,
    first: &'a [u8],
    second: &'a [u8],
    output: &mut Watched<Vec<u8>>,
    errors: &mut Watched<Vec<u8>>,
) -> u8 {
    let mut input = Peeked::new(Watched::new(merged.input));
    let opener = |name: &str| Some(Peeked::new(Watched::new(log_of(name, first, second))));
    let planned = plan(rt.alloc(), merged.words);
    let creator = |_name: &str| -> Option<Nowhere> { None };
    pcid_audit(rt, planned, opener, creator, &mut input, output, errors)
}

/// Whether the two logs are merged as the case says.
fn are_merged<'a, T: AllocGlobal + Threads + Wait + Sync>(
    rt: &T,
    merged: Case<'a>,
    first: &'a [u8],
    second: &'a [u8],
) -> bool {
    let mut output = Watched::new(Vec::new(rt.alloc()));
    let mut errors = Watched::new(Vec::new(rt.alloc()));
    let status = run_with_logs(rt, merged, first, second, &mut output, &mut errors);
    is_answered(merged, status, &output.inner, &errors.inner)
}

#[test]
fn logs_merged(rt: HostRuntime) -> Result<(), Fail> {
    let output = bytes_of(rt.alloc(), MERGED)?;
    let first = bytes_of(rt.alloc(), LOG_0)?;
    let second = bytes_of(rt.alloc(), LOG_1)?;
    let merged = Case {
        name: "logs_merged",
        words: &["merge", "b.log", "a.log"],
        input: &[],
        output: &output,
        line: "",
        status: 0,
    };
    assert!(rt; are_merged(&rt, merged, &first, &second), "{}", merged.name);
    Ok(())
}
