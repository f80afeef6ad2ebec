//! Scripts that end early, and scripts with one byte changed, each byte to each other value. One
//! thread and a thread for the processor answer the same to each.

use pg_codec::Watched;
use pg_test_support::run_over;
use std::alloc::{AllocError, AllocGlobal, Global};
use std::process::Abort;
use std::sync::Wait;
use std::test::Fail;
use std::thread::Threads;

/// A page mapped, read, taken away, read from what is cached, invalidated and read again.
const SCRIPT: &str = "pcid-guest 1\nmachine 40 wp nxe\nsegment 16\ncpu 0x1001 1\n\
    0 write 0x1000 0x2007\n\
    0 write 0x2000 0x3007\n\
    0 write 0x3000 0x4007\n\
    0 write 0x4028 0x9007\n\
    0 read 0x5123 user\n\
    0 write 0x4028 0x0\n\
    0 read 0x5123 user\n\
    0 invlpg 0x5000\n\
    0 read 0x5123 user\n";

/// What the program wrote, and to where.
type Written = Watched<Vec<u8>>;

/// What `run` comes to, which a thread for the processor and one thread for all have to say alike.
fn ran<T: AllocGlobal + Abort + Threads + Wait + Sync>(
    rt: &T,
    text: &[u8],
    output: &mut Written,
    errors: &mut Written,
) -> u8 {
    let alone = run_over(rt, &["run", "--single"], text, output, errors);
    let mut other = Watched::new(Vec::new(rt.alloc()));
    let mut others = Watched::new(Vec::new(rt.alloc()));
    let by_threads = run_over(rt, &["run"], text, &mut other, &mut others);
    let is_alike = output.inner.as_slice() == other.inner.as_slice()
        && errors.inner.as_slice() == others.inner.as_slice();
    assert!(rt; is_alike && alone == by_threads);
    alone
}

/// How many lines are ended.
fn whole_lines(text: &[u8]) -> usize {
    let mut lines = 0usize;
    for byte in text {
        if *byte == b'\n' {
            lines = lines.wrapping_add(1);
        }
    }
    lines
}

/// Why the text is refused that has so many lines of the script, the last of them whole or not.
fn refusal(lines: usize, is_whole: bool) -> Option<&'static str> {
    match lines {
        _ if !is_whole => Some("8 line end"),
        0 => Some("1 first line"),
        1 => Some("2 machine"),
        2 => Some("3 segment"),
        3 => Some("4 cpu"),
        _ => None,
    }
}

/// What is told of a proper beginning of the script, with its status: it lacks a line, its last one
/// is cut, or it is a script of fewer instructions.
fn beginning(alloc: Global, text: &[u8]) -> Result<(u8, String), AllocError> {
    let lines = whole_lines(text);
    let is_whole = text.is_empty() || text.ends_with(b"\n");
    match refusal(lines, is_whole) {
        Some(name) => {
            let line = lines.wrapping_add(1);
            let told = format!(in alloc;
                "pcid-audit: script line {line} refused {name}\npcid-audit: input: standard input\n"
            )?;
            Ok((2, told))
        }
        None => {
            let events = lines.wrapping_sub(4);
            let segments = events.min(1);
            let report = format!(in alloc;
                "verdict: yes\nevents: {events}\nsegments: {segments}\n"
            )?;
            Ok((0, report))
        }
    }
}

/// A proper beginning comes to what it should: a report is written, or a refusal told.
fn expect_beginning<T: AllocGlobal + Abort + Threads + Wait + Sync>(
    rt: &T,
    text: &[u8],
    status: u8,
    told: &str,
) {
    let mut output = Watched::new(Vec::new(rt.alloc()));
    let mut errors = Watched::new(Vec::new(rt.alloc()));
    let came = ran(rt, text, &mut output, &mut errors);
    let (some, none) = if status == 0 {
        (&output, &errors)
    } else {
        (&errors, &output)
    };
    let is_told = some.inner.as_slice() == told.as_bytes() && none.inner.is_empty();
    assert!(rt; came == status && is_told, "{told}");
}

#[test]
fn each_proper_beginning_of_a_script(rt: HostRuntime) -> Result<(), Fail> {
    let text = SCRIPT.as_bytes();
    for k in 0..text.len() {
        let (status, told) = beginning(rt.alloc(), &text[..k])?;
        expect_beginning(&rt, &text[..k], status, told.as_str());
    }
    Ok(())
}

/// A script with another byte at a place.
fn mutated(alloc: Global, script: &str, at: usize, value: u8) -> Result<Vec<u8>, AllocError> {
    let mut text = Vec::from_slice(alloc, script.as_bytes())?;
    if let Some(byte) = text.get_mut(at) {
        *byte = value;
    }
    Ok(text)
}

/// The refusals of a script, by their numbers from 1.
const REFUSALS: [&str; 8] = [
    " refused 1 first line",
    " refused 2 machine",
    " refused 3 segment",
    " refused 4 cpu",
    " refused 5 instruction",
    " refused 6 number",
    " refused 7 malformed",
    " refused 8 line end",
];

/// What follows the line of a refusal.
const INPUT: &[u8] = b"\npcid-audit: input: standard input\n";

/// The number of the refusal that lines tell, and 0 where they tell none.
fn number_told(lines: &[u8]) -> usize {
    let Some(line) = lines.strip_suffix(INPUT) else {
        return 0;
    };
    for (i, refusal) in REFUSALS.iter().enumerate() {
        if line.ends_with(refusal.as_bytes()) {
            return i.wrapping_add(1);
        }
    }
    0
}

/// Whether a script was run, which is a yes, or refused with a line of its own, and then nothing is
/// written.
fn is_well_told(number: usize, status: u8, output: &[u8], line: &[u8]) -> bool {
    if number == 0 {
        status == 0 && output.starts_with(b"verdict: yes\n") && line.is_empty()
    } else {
        status == 2 && output.is_empty() && line.starts_with(b"pcid-audit: script line ")
    }
}

/// The number of a changed script's refusal, and 0 where it is run.
fn number_of<T: AllocGlobal + Abort + Threads + Wait + Sync>(rt: &T, text: &[u8]) -> usize {
    let mut output = Watched::new(Vec::new(rt.alloc()));
    let mut errors = Watched::new(Vec::new(rt.alloc()));
    let status = ran(rt, text, &mut output, &mut errors);
    let number = number_told(&errors.inner);
    assert!(rt; is_well_told(number, status, &output.inner, &errors.inner));
    number
}

/// Changes each byte of a script to each other value, and counts what comes of it by the number of
/// the refusal.
fn mutate_each<T: AllocGlobal + Abort + Threads + Wait + Sync>(
    rt: &T,
    script: &str,
) -> Result<[u32; 9], Fail> {
    let mut counts = [0u32; 9];
    for (at, byte) in script.as_bytes().iter().enumerate() {
        for value in 0..=255u8 {
            if value != *byte {
                let number = number_of(rt, &mutated(rt.alloc(), script, at, value)?);
                if let Some(count) = counts.get_mut(number) {
                    *count = count.wrapping_add(1);
                }
            }
        }
    }
    Ok(counts)
}

// The counts are those of checks/scripts/reader.py, which is written from docs/SCRIPT.md alone.

#[test]
fn each_byte_of_a_script(rt: HostRuntime) -> Result<(), Fail> {
    let counts = mutate_each(&rt, SCRIPT)?;
    let wanted = [1142, 1234, 1698, 1028, 1150, 8094, 7703, 181, 37695];
    assert_eq!(rt; counts, wanted);
    Ok(())
}

const NEW_SCRIPT: &str = "pcid-guest 2\nmachine 40 wp nxe\nsegment 16\ncpu 0x1001 1\n\
    0 write 0x1000 0x2007\n\
    0 write 0x2000 0x3007\n\
    0 write 0x3000 0x4007\n\
    0 write 0x4028 0x9007\n\
    0 store 0x5123 user\n\
    0 invpcid 0 0x1 0x5000\n\
    0 cr3 0x8000000000001002\n\
    0 pge 0\n\
    0 fetch 0x5123 super-ac\n";

#[test]
fn each_byte_of_a_script_of_version_2(rt: HostRuntime) -> Result<(), Fail> {
    let counts = mutate_each(&rt, NEW_SCRIPT)?;
    let wanted = [1206, 1234, 1698, 1028, 1150, 8182, 8192, 300, 38975];
    assert_eq!(rt; counts, wanted);
    Ok(())
}
