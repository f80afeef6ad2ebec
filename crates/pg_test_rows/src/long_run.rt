//! Long runs on four processors: in one segment, and in segments that are judged window by window.

use pg_test_support::{Case, answers, push_record};
use std::test::Fail;

/// A record of so many events in segments of so many, of which one is bad, if it has that number;
/// and what the program answers.
type LongRow = (u32, u32, u32, &'static str, u8);

const ROWS: [LongRow; 5] = [
    (
        2000,
        65536,
        2000,
        "verdict: yes\nevents: 2000\nsegments: 1\n",
        0,
    ),
    (
        2000,
        65536,
        1999,
        "verdict: no\nevent: 1999\nreason: 9 answer\nevents: 2000\nsegments: 1\n",
        1,
    ),
    // In segments of ten thousand, of which two fill a window.
    (
        40000,
        10000,
        40000,
        "verdict: yes\nevents: 40000\nsegments: 4\n",
        0,
    ),
    (
        40000,
        10000,
        19999,
        "verdict: no\nevent: 19999\nreason: 9 answer\nevents: 40000\nsegments: 4\n",
        1,
    ),
    (
        40000,
        10000,
        30001,
        "verdict: no\nevent: 30001\nreason: 9 answer\nevents: 40000\nsegments: 4\n",
        1,
    ),
];

#[test]
fn thousands_of_events_in_windows(rt: HostRuntime) -> Result<(), Fail> {
    for &(events, segment, bad, output, status) in &ROWS {
        let bytes = push_record(rt.alloc(), events, segment.max(1), bad)?;
        let long = Case {
            name: output,
            words: &["check"],
            input: &bytes,
            output: output.as_bytes(),
            line: "",
            status,
        };
        assert!(rt; answers(&rt, long), "{}", long.name);
    }
    Ok(())
}
