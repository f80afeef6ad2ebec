//! Records that end early, and records with one byte changed, each byte to each other value. One
//! checker and two give the same report: of the one record each time, of the other where a single
//! bit changed.

use pg_codec::Watched;
use pg_event::Refusal;
use pg_report::{AuditError, Verdict, audit, audit_one, reason_number};
use pg_test_support::{versions, walks};
use std::alloc::{AllocError, AllocGlobal, Global};
use std::process::Abort;
use std::sync::Wait;
use std::test::Fail;
use std::thread::Threads;

/// How many changed records got which report: first a yes, then by the number of the reason, from
/// 1, and then by the number of the refusal, from 1.
type Tally = [u32; 24];

/// The place where an answer is counted.
fn place_of(answer: Result<Verdict, AuditError>) -> usize {
    match answer {
        Ok(Verdict::Yes) => 0,
        Ok(Verdict::No { reason, .. }) => reason_number(reason) as usize,
        Err(error) => 13usize.wrapping_add(error.number() as usize),
    }
}

/// A record with another byte at a place.
fn mutated(alloc: Global, record: &[u8], at: usize, value: u8) -> Result<Vec<u8>, AllocError> {
    let mut bytes = Vec::from_slice(alloc, record)?;
    if let Some(byte) = bytes.get_mut(at) {
        *byte = value;
    }
    Ok(bytes)
}

/// What so many checkers say of the bytes, and write.
fn audited_by<T: AllocGlobal + Abort + Threads + Wait + Sync>(
    rt: &T,
    bytes: &[u8],
    checkers: u32,
    output: &mut Watched<Vec<u8>>,
) -> Result<Verdict, AuditError> {
    let mut input = Watched::new(bytes);
    if checkers == 1 {
        audit_one(rt.alloc(), &mut input, output)
    } else {
        audit(rt, rt.alloc(), &mut input, output, checkers)
    }
}

/// Of which records with one changed byte two checkers are asked too.
#[derive(Clone, Copy)]
enum Asked {
    Each,
    WhereOneBitChanged,
}

/// Whether two checkers are asked of a byte that was changed in these bits.
fn is_asked(asked: Asked, changed: u8) -> bool {
    match asked {
        Asked::Each => true,
        Asked::WhereOneBitChanged => changed.count_ones() == 1,
    }
}

/// What one checker says of the bytes.
fn audited_alone<T: AllocGlobal + Abort + Threads + Wait + Sync>(
    rt: &T,
    bytes: &[u8],
    at: usize,
) -> Result<Verdict, AuditError> {
    let mut output = Watched::new(Vec::new(rt.alloc()));
    let answer = audited_by(rt, bytes, 1, &mut output);
    let is_empty = output.inner.as_slice().is_empty();
    assert_eq!(rt; answer.is_err(), is_empty, "{at}");
    answer
}

/// What the bytes come to, which one checker and two have to say and write alike.
fn audited<T: AllocGlobal + Abort + Threads + Wait + Sync>(
    rt: &T,
    bytes: &[u8],
    at: usize,
) -> Result<Verdict, AuditError> {
    let mut output = Watched::new(Vec::new(rt.alloc()));
    let mut other = Watched::new(Vec::new(rt.alloc()));
    let alone = audited_by(rt, bytes, 1, &mut output);
    let by_two = audited_by(rt, bytes, 2, &mut other);
    let written = output.inner.as_slice();
    let is_alike = alone == by_two && written == other.inner.as_slice();
    assert!(rt; is_alike && alone.is_err() == written.is_empty(), "{at}");
    alone
}

/// Changes each byte of a record to each other value.
fn mutate_each<T: AllocGlobal + Abort + Threads + Wait + Sync>(
    rt: &T,
    record: &[u8],
    asked: Asked,
) -> Result<Tally, Fail> {
    let mut tally: Tally = [0; 24];
    for (at, byte) in record.iter().enumerate() {
        for value in 0..=255u8 {
            if value != *byte {
                let bytes = mutated(rt.alloc(), record, at, value)?;
                let answer = if is_asked(asked, value ^ *byte) {
                    audited(rt, &bytes, at)
                } else {
                    audited_alone(rt, &bytes, at)
                };
                let place = place_of(answer);
                if let Some(count) = tally.get_mut(place) {
                    *count = count.wrapping_add(1);
                }
            }
        }
    }
    Ok(tally)
}

/// Counted by the auditor in plain Rust, bench/auditor.
const FRESH_WALKS: Tally = [
    2117, 4076, 12041, 0, 0, 0, 0, 0, 160, 3315, 0, 0, 0, 0, //
    2040, 509, 2265, 1020, 1010, 2301, 6120, 0, 1020, 1,
];

/// Counted by that auditor too.
const DIRTY_ASSISTS: Tally = [
    2289, 8151, 13174, 0, 0, 0, 0, 0, 0, 3315, 0, 96, 12, 1219, //
    2040, 509, 2519, 1021, 1011, 2809, 9774, 0, 1020, 1,
];

/// Each proper beginning of a record is refused.
fn cut_each<T: AllocGlobal + Abort + Threads + Wait + Sync>(rt: &T, record: &[u8]) {
    for k in 0..record.len() {
        let answer = audited(rt, &record[..k], k);
        assert_eq!(rt; answer, Err(AuditError::Refused(Refusal::Truncated)), "{k}");
    }
}

/// Each proper beginning of a record is refused, and its changed records give this tally.
fn cut_and_mutate<T: AllocGlobal + Abort + Threads + Wait + Sync>(
    rt: &T,
    record: &[u8],
    asked: Asked,
    tally: Tally,
) -> Result<(), Fail> {
    cut_each(rt, record);
    assert_eq!(rt; mutate_each(rt, record, asked)?, tally);
    Ok(())
}

#[test]
fn each_byte_of_a_record(rt: HostRuntime) -> Result<(), Fail> {
    let walk = walks::fresh_walk(rt.alloc())?;
    cut_and_mutate(&rt, &walk.input, Asked::Each, FRESH_WALKS)
}

#[test]
fn each_byte_of_a_record_with_assists(rt: HostRuntime) -> Result<(), Fail> {
    let assist = versions::dirty_assist(rt.alloc())?;
    cut_and_mutate(&rt, &assist.input, Asked::WhereOneBitChanged, DIRTY_ASSISTS)
}
