//! Invalid arguments, and help.

use crate::texts::{FAULTS, TEXTS, Told};
use pg_codec::Watched;
use pg_test_support::run_over;
use std::alloc::AllocGlobal;
use std::process::Abort;
use std::sync::Wait;
use std::test::Fail;
use std::thread::Threads;

/// The words ended with 0 and their text on standard output, or with 64 and it on standard error.
fn is_told(told: Told, is_fault: bool, status: u8, output: &[u8], errors: &[u8]) -> bool {
    if is_fault {
        status == 64 && output.is_empty() && errors == told.text.as_bytes()
    } else {
        status == 0 && errors.is_empty() && output == told.text.as_bytes()
    }
}

fn tells<T: AllocGlobal + Threads + Wait + Sync>(rt: &T, told: Told, is_fault: bool) -> bool {
    let mut output = Watched::new(Vec::new(rt.alloc()));
    let mut errors = Watched::new(Vec::new(rt.alloc()));
    let status = run_over(rt, told.words, &[], &mut output, &mut errors);
    is_told(told, is_fault, status, &output.inner, &errors.inner)
}

fn expect_all<T: AllocGlobal + Abort + Threads + Wait + Sync>(
    rt: &T,
    rows: &[Told],
    is_fault: bool,
) {
    for told in rows {
        assert!(rt; tells(rt, *told, is_fault), "{:?}", told.words);
    }
}

#[test]
fn words_of_no_command_and_of_texts(rt: HostRuntime) -> Result<(), Fail> {
    expect_all(&rt, &FAULTS, true);
    expect_all(&rt, &TEXTS, false);
    Ok(())
}
