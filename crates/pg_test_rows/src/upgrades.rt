//! Version 2 records of the events of version 1 records.

use pg_test_support::{Case, answers, bytes_of};
use std::test::Fail;

/// A record to upgrade, and what the program must answer.
#[derive(Clone, Copy)]
struct Upgrade {
    name: &'static str,
    /// Standard input, in hexadecimal.
    input: &'static [&'static str],
    /// Standard output, in hexadecimal.
    output: &'static [&'static str],
    /// Standard error: the report of the upgraded record, or a refusal.
    errors: &'static str,
    status: u8,
}

const ROWS: [Upgrade; 3] = [
    Upgrade {
        name: "upgrade_empty_record",
        input: &["50475245434f52440100280301100000000110000000000000010200000000"],
        output: &["50475245434f5244020028030100100000000110000000000000010200000000"],
        errors: "verdict: yes\nevents: 0\nsegments: 0\n",
        status: 0,
    },
    Upgrade {
        name: "upgrade_fresh_walk",
        input: &[
            "50475245434f52440100280301100000000110000000000000010100000000050000001000001000",
            "00000000000720000000000000100000200000000000000730000000000000100000300000000000",
            "00074000000000000010002840000000000000079000000000000011000423510000000000000023",
            "9100000000000004040000000400000004000000040000000205000000",
        ],
        output: &[
            "50475245434f52440200280301001000000001100000000000000101000000000500000010000000",
            "10000000000000072000000000000010000000200000000000000730000000000000100000003000",
            "00000000000740000000000000100000284000000000000007900000000000001100000423510000",
            "0000000000239100000000000004040000000400000004000000040000000205000000",
        ],
        errors: "verdict: no\nevent: 4\nreason: 11 accessed\nevents: 5\nsegments: 1\n",
        status: 1,
    },
    Upgrade {
        name: "upgrade_of_version_2",
        input: &[
            "50475245434f52440200280301001000000001100000000000000101000000000500000010000000",
            "10000000000000072000000000000010000000200000000000000730000000000000100000003000",
            "00000000000740000000000000100000284000000000000007900000000000001100000423510000",
            "0000000000239100000000000004040000000400000004000000040000000205000000",
        ],
        output: &[],
        errors: "pcid-audit: refused 2 version\n",
        status: 2,
    },
];

#[test]
fn upgrades_and_their_reports(rt: HostRuntime) -> Result<(), Fail> {
    for row in &ROWS {
        let input = bytes_of(rt.alloc(), row.input)?;
        let output = bytes_of(rt.alloc(), row.output)?;
        let case = Case {
            name: row.name,
            words: &["upgrade"],
            input: &input,
            output: &output,
            line: row.errors,
            status: row.status,
        };
        assert!(rt; answers(&rt, case), "{}", case.name);
    }
    Ok(())
}
