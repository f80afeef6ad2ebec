//! The program over streams that move few bytes a call, that end early and that fail.

use pg_test_support::{
    Case, Row, answers, answers_by_bytes, bytes_of, ends_at_each_read, ends_at_each_write,
    explanations, headers, push_record, refusals, row_of, rows_of, runs, walks,
};
use std::alloc::{AllocGlobal, Global};
use std::process::Abort;
use std::sync::Wait;
use std::test::Fail;
use std::thread::Threads;

/// Two of its events are bad, in segments 3 and 7.
const TEN_SEGMENTS: &str = "
== ten_segments_two_bad_events
$ check
< 50475245434f52440100280301020000000110000000000000010100000000020000001000001000
< 00000000000720000000000000100000200000000000000730000000000000010100000002000000
< 10000030000000000000074000000000000010002840000000000000079000000000000001020000
< 00020000001100042351000000000000002391000000000000040400000004000000040000000400
< 00001100042351000000000000002391000000000000040500000005000000050000000500000001
< 03000000020000001100042351000000000000002391000000000000040600000006000000060000
< 00060000001100042351000000000000002491000000000000040700000007000000070000000700
< 00000104000000020000001100042351000000000000002391000000000000040800000008000000
< 08000000080000001100042351000000000000002391000000000000040900000009000000090000
< 00090000000105000000020000001100042351000000000000002391000000000000040a0000000a
< 0000000a0000000a0000001100042351000000000000002391000000000000040b0000000b000000
< 0b0000000b0000000106000000020000001100042351000000000000002391000000000000040c00
< 00000c0000000c0000000c0000001100042351000000000000002391000000000000040d0000000d
< 0000000d0000000d0000000107000000020000001100042351000000000000002391000000000000
< 040e0000000e0000000e0000000e0000001100042351000000000000010500040f0000000f000000
< 0f0000000f0000000108000000020000001100042351000000000000002391000000000000041000
< 00001000000010000000100000001100042351000000000000002391000000000000041100000011
< 00000011000000110000000109000000020000001100042351000000000000002391000000000000
< 04120000001200000012000000120000001100042351000000000000002391000000000000041300
< 00001300000013000000130000000214000000
> verdict: no
> event: 7
> reason: 9 answer
> events: 20
> segments: 10
? 1
";

/// The record of ten segments, and what is said of it.
pub fn ten_segments(alloc: Global) -> Result<Row<'static>, Fail> {
    row_of(alloc, TEN_SEGMENTS, "ten_segments_two_bad_events")
}

/// Runs the program on each row, one byte a read and a write.
fn run_by_bytes<T: AllocGlobal + Abort + Threads + Wait + Sync>(
    rt: &T,
    rows: &[Row<'_>],
) -> Result<(), Fail> {
    for row in rows {
        assert!(rt; answers_by_bytes(rt, row.case())?, "{}", row.name);
    }
    Ok(())
}

/// The same of the rows of texts.
fn run_all_by_bytes<T: AllocGlobal + Abort + Threads + Wait + Sync>(
    rt: &T,
    texts: &[&str],
) -> Result<(), Fail> {
    let rows = rows_of(rt.alloc(), texts)?;
    run_by_bytes(rt, &rows)
}

#[test]
fn one_byte_a_call(rt: HostRuntime) -> Result<(), Fail> {
    let records = [
        walks::ROWS,
        TEN_SEGMENTS,
        headers::ROWS,
        refusals::ROWS,
        explanations::SAMPLES,
    ];
    run_all_by_bytes(&rt, &records)
}

/// Each proper beginning of a record is refused.
fn cut_each<T: AllocGlobal + Abort + Threads + Wait + Sync>(rt: &T, bytes: &[u8]) {
    for k in 0..bytes.len() {
        let truncated = Case {
            name: "proper_beginning",
            words: &["check"],
            input: &bytes[..k],
            output: &[],
            line: "pcid-audit: refused 8 truncated\n",
            status: 2,
        };
        assert!(rt; answers(rt, truncated), "{}", truncated.name);
    }
}

#[test]
fn each_proper_beginning(rt: HostRuntime) -> Result<(), Fail> {
    let walk = walks::fresh_walk(rt.alloc())?;
    assert_eq!(rt; walk.input.len(), 149);
    cut_each(&rt, &walk.input);
    Ok(())
}

const READERS: [&[&str]; 7] = [
    &["check"],
    &["check", "--checkers", "2"],
    &["certify"],
    &["certify", "--bytes"],
    &["run-of"],
    &["explain"],
    &["upgrade"],
];

/// Has each read of a record by pieces of this size fail in its turn, for each command.
fn fail_reads_of<T: AllocGlobal + Abort + Threads + Wait + Sync>(
    rt: &T,
    input: &[u8],
    most: usize,
) {
    for &words in &READERS {
        let whole = Case {
            name: "each_read",
            words,
            input,
            output: &[],
            line: "",
            status: 0,
        };
        assert!(rt; ends_at_each_read(rt, whole, most), "{:?}", whole.words);
    }
}

#[test]
fn each_read_of_ten_segments(rt: HostRuntime) -> Result<(), Fail> {
    let ten = ten_segments(rt.alloc())?;
    fail_reads_of(&rt, &ten.input, 10);
    Ok(())
}

/// More than the reader takes in at once, so that reads fail between segments too.
#[test]
fn each_read_of_a_long_record(rt: HostRuntime) -> Result<(), Fail> {
    let input = push_record(rt.alloc(), 5000, 100, 5000)?;
    fail_reads_of(&rt, &input, 8192);
    Ok(())
}

/// Has each write of the output of a case fail in its turn.
fn fail_writes_of<'a, T: AllocGlobal + Abort + Threads + Wait + Sync>(
    rt: &T,
    case: Case<'a>,
) -> Result<(), Fail> {
    assert!(rt; answers_by_bytes(rt, case)?, "{}", case.name);
    assert!(rt; ends_at_each_write(rt, case)?, "{}", case.name);
    Ok(())
}

/// The same of each row.
fn fail_writes_of_each<T: AllocGlobal + Abort + Threads + Wait + Sync>(
    rt: &T,
    rows: &[Row<'_>],
) -> Result<(), Fail> {
    for row in rows {
        fail_writes_of(rt, row.case())?;
    }
    Ok(())
}

#[test]
fn each_write_of_a_text(rt: HostRuntime) -> Result<(), Fail> {
    let texts = [
        walks::ROWS,
        TEN_SEGMENTS,
        explanations::STALE_LEAF,
        runs::ROWS,
    ];
    let rows = rows_of(rt.alloc(), &texts)?;
    fail_writes_of_each(&rt, &rows)
}

#[test]
fn each_write_of_two_checkers(rt: HostRuntime) -> Result<(), Fail> {
    let ten = ten_segments(rt.alloc())?;
    let by_two = Case {
        words: &["check", "--checkers", "2"],
        ..ten.case()
    };
    fail_writes_of(&rt, by_two)
}

/// The fresh walk as a record of version 2.
pub const UPGRADED: [&str; 4] = [
    "50475245434f52440200280301001000000001100000000000000101000000000500000010000000",
    "10000000000000072000000000000010000000200000000000000730000000000000100000003000",
    "00000000000740000000000000100000284000000000000007900000000000001100000423510000",
    "0000000000239100000000000004040000000400000004000000040000000205000000",
];

#[test]
fn each_write_of_an_upgrade(rt: HostRuntime) -> Result<(), Fail> {
    let walk = walks::fresh_walk(rt.alloc())?;
    let output = bytes_of(rt.alloc(), &UPGRADED)?;
    let whole = Case {
        name: "upgrade",
        words: &["upgrade"],
        input: &walk.input,
        output: &output,
        line: "verdict: no\nevent: 4\nreason: 11 accessed\nevents: 5\nsegments: 1\n",
        status: 1,
    };
    assert!(rt; answers_by_bytes(&rt, whole)?, "{}", whole.name);
    assert!(rt; ends_at_each_write(&rt, whole)?, "{:?}", whole.words);
    Ok(())
}

const SCRIPT: &str = "pcid-guest 1\nmachine 40 wp nxe\nsegment 2\ncpu 0x1001 1\n\
    0 invlpg 0x5000\n0 pge 0\n0 cr3 0x2003\n";

/// Its record: an INVLPG, a MOV to CR4 and one to CR3.
const RECORD: [&str; 7] = [
    "50475245434f5244010028030102000000011000000000000001",
    "010000000002000000",
    "13000050000000000000",
    "150000",
    "010100000001000000",
    "12000320000000000000",
    "0203000000",
];

/// How the script is run for its report, and for its record.
const REPORTS: [&[&str]; 2] = [&["run"], &["run", "--single"]];

const RECORDS: [&[&str]; 2] = [&["run", "--bytes"], &["run", "--single", "--bytes"]];

/// The script, run for this output.
fn run_for<'a>(words: &'a [&'a str], output: &'a [u8]) -> Case<'a> {
    Case {
        name: "run",
        words,
        input: SCRIPT.as_bytes(),
        output,
        line: "",
        status: 0,
    }
}

/// Over small streams, and with each read and each write failing.
fn run_over_streams<'a, T: AllocGlobal + Abort + Threads + Wait + Sync>(
    rt: &T,
    whole: Case<'a>,
) -> Result<(), Fail> {
    assert!(rt; answers_by_bytes(rt, whole)?, "{}", whole.name);
    assert!(rt; ends_at_each_read(rt, whole, 10), "{:?}", whole.words);
    assert!(rt; ends_at_each_write(rt, whole)?, "{:?}", whole.words);
    Ok(())
}

#[test]
fn each_read_and_write_of_a_run(rt: HostRuntime) -> Result<(), Fail> {
    let record = bytes_of(rt.alloc(), &RECORD)?;
    for &words in &REPORTS {
        let report = b"verdict: yes\nevents: 3\nsegments: 2\n";
        run_over_streams(&rt, run_for(words, report))?;
    }
    for &words in &RECORDS {
        run_over_streams(&rt, run_for(words, &record))?;
    }
    Ok(())
}
