//! Guest scripts by `run`: their reports, and their records byte for byte.

ghost use Rattle.std.specs.Prelude.{None};

use pg_codec::{Failed, Source};
use pg_span_run::Peeked;
use pg_test_support::{Case, answers, answers_on, bytes_of};
use std::alloc::{AllocError, Global};
use std::test::Fail;

/// A script, its report by `run --single`, and its record by `run --single --bytes`.
#[derive(Clone, Copy)]
struct Script {
    name: &'static str,
    /// The settings and the processors.
    head: &'static str,
    /// The instructions.
    lines: &'static str,
    report: &'static str,
    /// The record, in hexadecimal.
    record: &'static [&'static str],
}

const HEAD_1: &str = "pcid-guest 1\nmachine 40 wp nxe\nsegment 16\ncpu 0x1001 1\n";

const HEAD_2: &str = "pcid-guest 2\nmachine 40 wp nxe\nsegment 16\ncpu 0x1001 1\n";

const ROWS: [Script; 8] = [
    Script {
        name: "script_run_single",
        head: HEAD_1,
        lines: "0 write 0x1000 0x2007\n\
            0 write 0x2000 0x3007\n\
            0 write 0x3000 0x4007\n\
            0 write 0x4028 0x9007\n\
            0 read 0x5123 user\n\
            0 write 0x4028 0x0\n\
            0 read 0x5123 user\n\
            0 invlpg 0x5000\n\
            0 read 0x5123 user\n",
        report: "verdict: yes\nevents: 9\nsegments: 1\n",
        record: &[
            "50475245434f52440100280301100000000110000000000000010100000000090000001000001000",
            "00000000000720000000000000100000200000000000000730000000000000100000300000000000",
            "00074000000000000010002840000000000000079000000000000011000423510000000000000023",
            "91000000000000040400000004000000040000000400000010002840000000000000000000000000",
            "00001100042351000000000000002391000000000000040400000004000000040000000400000013",
            "00005000000000000011000423510000000000000104000408000000080000000800000008000000",
            "0209000000",
        ],
    },
    Script {
        name: "script_version_2",
        head: HEAD_2,
        lines: "0 write 0x1000 0x2007\n\
            0 write 0x2000 0x3007\n\
            0 write 0x3000 0x4007\n\
            0 write 0x4028 0x9007\n\
            0 read 0x5123 user\n\
            0 write 0x4028 0x0\n\
            0 read 0x5123 user\n\
            0 invlpg 0x5000\n\
            0 read 0x5123 user\n",
        report: "verdict: yes\nevents: 13\nsegments: 1\n",
        record: &[
            "50475245434f52440200280301001000000001100000000000000101000000000d00000010000000",
            "10000000000000072000000000000010000000200000000000000730000000000000100000003000",
            "00000000000740000000000000100000284000000000000007900000000000001600000423510000",
            "00000000001000000000000001040000001600000423510000000000000020000000000000020500",
            "00000500000016000004235100000000000000300000000000000305000000060000000600000016",
            "00000423510000000000002840000000000000040500000006000000070000000700000011000004",
            "23510000000000000023910000000000000405000000060000000700000008000000100000284000",
            "00000000000000000000000000110000042351000000000000002391000000000000040500000006",
            "00000007000000080000001300000050000000000000110000042351000000000000010400040c00",
            "00000c0000000c0000000c000000020d000000",
        ],
    },
    Script {
        name: "script_back_to_first_pcid",
        head: HEAD_1,
        lines: "0 write 0x1000 0x2007\n\
            0 write 0x2000 0x3007\n\
            0 write 0x3000 0x4007\n\
            0 write 0x4028 0x9007\n\
            0 read 0x5123 user\n\
            0 cr3 0x8000000000001002\n\
            0 read 0x5123 user\n\
            0 cr3 0x8000000000001001\n\
            0 read 0x5123 user\n",
        report: "verdict: yes\nevents: 9\nsegments: 1\n",
        record: &[
            "50475245434f52440100280301100000000110000000000000010100000000090000001000001000",
            "00000000000720000000000000100000200000000000000730000000000000100000300000000000",
            "00074000000000000010002840000000000000079000000000000011000423510000000000000023",
            "91000000000000040400000004000000040000000400000012000210000000000080110004235100",
            "00000000000023910000000000000406000000060000000600000006000000120001100000000000",
            "80110004235100000000000000239100000000000004040000000400000004000000040000000209",
            "000000",
        ],
    },
    Script {
        name: "script_second_page_by_structure_cache",
        head: HEAD_1,
        lines: "0 write 0x1000 0x2007\n\
            0 write 0x2000 0x3007\n\
            0 write 0x3000 0x4007\n\
            0 write 0x4028 0x9007\n\
            0 write 0x4030 0xa007\n\
            0 read 0x5123 user\n\
            0 read 0x6123 user\n",
        report: "verdict: yes\nevents: 7\nsegments: 1\n",
        record: &[
            "50475245434f52440100280301100000000110000000000000010100000000070000001000001000",
            "00000000000720000000000000100000200000000000000730000000000000100000300000000000",
            "0007400000000000001000284000000000000007900000000000001000304000000000000007a000",
            "00000000001100042351000000000000002391000000000000040500000005000000050000000500",
            "000011000423610000000000000023a1000000000000040500000005000000050000000600000002",
            "07000000",
        ],
    },
    Script {
        name: "script_two_processors",
        head: "pcid-guest 1\nmachine 40 wp nxe\nsegment 16\ncpu 0x1001 1\ncpu 0x1001 1\n",
        lines: "0 write 0x1000 0x2007\n\
            0 write 0x2000 0x3007\n\
            0 write 0x3000 0x4007\n\
            0 write 0x4028 0x9007\n\
            0 write 0x4028 0x0\n\
            1 read 0x5123 user\n",
        report: "verdict: yes\nevents: 6\nsegments: 1\n",
        record: &[
            "50475245434f52440100280302100000000110000000000000010110000000000000010100000000",
            "06000000100000100000000000000720000000000000100000200000000000000730000000000000",
            "10000030000000000000074000000000000010002840000000000000079000000000000010002840",
            "00000000000000000000000000001101042351000000000000010400040500000005000000050000",
            "00050000000206000000",
        ],
    },
    Script {
        name: "script_no_instruction",
        head: HEAD_1,
        lines: "",
        report: "verdict: yes\nevents: 0\nsegments: 0\n",
        record: &[
            "50475245434f5244010028030110000000011000000000000001",
            "0200000000",
        ],
    },
    Script {
        name: "script_two_segments",
        head: "pcid-guest 1\nmachine 40 wp nxe\nsegment 2\ncpu 0x1001 1\n",
        lines: "0 invlpg 0x5000\n0 pge 0\n0 cr3 0x2003\n",
        report: "verdict: yes\nevents: 3\nsegments: 2\n",
        record: &[
            "50475245434f5244010028030102000000011000000000000001",
            "010000000002000000",
            "13000050000000000000",
            "150000",
            "010100000001000000",
            "12000320000000000000",
            "0203000000",
        ],
    },
    Script {
        name: "script_dirty_assist",
        head: HEAD_2,
        lines: "0 write 0x1000 0x2027\n\
            0 write 0x2000 0x3027\n\
            0 write 0x3000 0x4027\n\
            0 write 0x4028 0x9027\n\
            0 store 0x5123 user\n",
        report: "verdict: yes\nevents: 6\nsegments: 1\n",
        record: &[
            "50475245434f52440200280301001000000001100000000000000101000000000600000010000000",
            "10000000000000272000000000000010000000200000000000002730000000000000100000003000",
            "00000000002740000000000000100000284000000000000027900000000000001600001523510000",
            "00000000284000000000000004040000000400000004000000040000001100000523510000000000",
            "0000239100000000000004040000000400000004000000050000000206000000",
        ],
    },
];

/// How a script is run for its report.
const REPORTS: [&[&str]; 3] = [&["run", "--single"], &["run"], &["run", "--checkers", "2"]];

/// The script's text.
fn text_of(alloc: Global, row: &Script) -> Result<Vec<u8>, AllocError> {
    let mut text = Vec::from_slice(alloc, row.head.as_bytes())?;
    text.extend_from_slice(row.lines.as_bytes())?;
    Ok(text)
}

/// A script is run, which is a yes, and this is written.
fn ran<'a>(name: &'a str, words: &'a [&'a str], input: &'a [u8], output: &'a [u8]) -> Case<'a> {
    Case {
        name,
        words,
        input,
        output,
        line: "",
        status: 0,
    }
}

#[test]
fn reports_and_records_of_scripts(rt: HostRuntime) -> Result<(), Fail> {
    for row in &ROWS {
        let text = text_of(rt.alloc(), row)?;
        let record = bytes_of(rt.alloc(), row.record)?;
        for &words in &REPORTS {
            let reported = ran(row.name, words, &text, row.report.as_bytes());
            assert!(rt; answers(&rt, reported), "{}", row.name);
        }
        let words = ["run", "--single", "--bytes"];
        let recorded = ran(row.name, &words, &text, &record);
        assert!(rt; answers(&rt, recorded), "{}", row.name);
    }
    Ok(())
}

const TWO_THREADS: &str = "pcid-guest 1\nmachine 40 wp nxe\nsegment 16\n\
    cpu 0x1001 1\ncpu 0x1001 1\n\
    0 write 0x1000 0x2007\n\
    0 write 0x2000 0x3007\n\
    0 write 0x3000 0x4007\n\
    0 write 0x4028 0x9007\n\
    0 read 0x5123 user\n\
    0 write 0x4028 0x0\n\
    0 read 0x5123 user\n\
    0 invlpg 0x5000\n\
    0 read 0x5123 user\n\
    1 read 0x5123 user\n";

#[test]
fn two_processors_in_threads(rt: HostRuntime) -> Result<(), Fail> {
    let text = TWO_THREADS.as_bytes();
    for &words in &REPORTS {
        let report = b"verdict: yes\nevents: 10\nsegments: 1\n";
        assert!(rt;
            answers(&rt, ran("two_threads", words, text, report)),
            "{words:?}"
        );
    }
    Ok(())
}

/// A text that is no script, with its line of refusal.
const REFUSED: [(&str, &str); 11] = [
    (
        "pcid-guest 3\n",
        "pcid-audit: script line 1 refused 1 first line\n",
    ),
    (
        "pcid-guest 1\nmachine 35\n",
        "pcid-audit: script line 2 refused 2 machine\n",
    ),
    (
        "pcid-guest 1\nmachine 40\nsegment 0\n",
        "pcid-audit: script line 3 refused 3 segment\n",
    ),
    (
        "pcid-guest 1\nmachine 40\nsegment 16\n",
        "pcid-audit: script line 4 refused 4 cpu\n",
    ),
    (
        "pcid-guest 1\nmachine 40 wp nxe\nsegment 16\ncpu 0x1001 1\n0 jump\n",
        "pcid-audit: script line 5 refused 5 instruction\n",
    ),
    (
        "pcid-guest 1\nmachine 40 wp nxe\nsegment 16\ncpu 0x1001 1\n0 cr3 1\n",
        "pcid-audit: script line 5 refused 6 number\n",
    ),
    (
        "pcid-guest 1\nmachine 40 wp nxe\nsegment 16\ncpu 0x1001 1\n1 pge 1\n",
        "pcid-audit: script line 5 refused 7 malformed\n",
    ),
    (
        "pcid-guest 1",
        "pcid-audit: script line 1 refused 8 line end\n",
    ),
    ("", "pcid-audit: script line 1 refused 1 first line\n"),
    (
        "pcid-guest 1\n# a comment\n\nmachine 53\n",
        "pcid-audit: script line 4 refused 2 machine\n",
    ),
    (
        "pcid-guest 1\n\t\n",
        "pcid-audit: script line 2 refused 8 line end\n",
    ),
];

#[test]
fn texts_that_are_no_script(rt: HostRuntime) -> Result<(), Fail> {
    for &(text, line) in &REFUSED {
        let refused = Case {
            name: line,
            words: &["run", "--single"],
            input: text.as_bytes(),
            output: &[],
            line,
            status: 2,
        };
        assert!(rt; answers(&rt, refused), "{}", refused.name);
    }
    Ok(())
}

/// A script that never ends, and how many bytes of it were given.
#[derive(Drop)]
struct Endless {
    given: usize,
}

impl Source for Endless {
    ghost left = { λ _. None };

    ghost failed = { λ _. 0 };

    fn pull(&mut self, out: &mut [u8]) -> Result<usize, Failed> {
        out.fill(b'\n');
        self.given = self.given.wrapping_add(out.len());
        Ok(out.len())
    }

    fn failures(&self) -> u64 {
        0
    }
}

#[test]
fn a_script_that_is_too_long(rt: HostRuntime) -> Result<(), Fail> {
    let too_long = Case {
        name: "script_too_long",
        words: &["run", "--single"],
        input: &[],
        output: &[],
        line: "pcid-audit: script line 0 refused 11 too long\n",
        status: 2,
    };
    let mut input = Peeked::new(Endless { given: 0 });
    assert!(rt; answers_on(&rt, too_long, &mut input));
    assert_eq!(rt; input.inner.given, 134_217_729);
    Ok(())
}
