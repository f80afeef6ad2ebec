//! Records and scripts that are read from files by their names.

use pg_codec::{Sink, Source, Watched};
use pg_span_run::Peeked;
use pg_test_support::{Case, Pieces, answers, bytes_of, is_answered, walks};
use pg_tool::{Nowhere, pcid_audit, plan};
use std::alloc::AllocGlobal;
use std::io::ErrorKind;
use std::process::Abort;
use std::sync::Wait;
use std::test::Fail;
use std::thread::Threads;

/// What the words name.
const NAME: &str = "the.file";

/// The exit status of the program where this is what the one file has that there is.
fn run_with_file<T: AllocGlobal + Threads + Wait + Sync, R: Source, O: Sink, E: Sink>(
    rt: &T,
    case: Case<'_>,
    input: &mut Peeked<R>,
    output: &mut O,
    errors: &mut E,
) -> u8 {
    let opener = |name: &str| {
        if name == NAME {
            Some(Peeked::new(Watched::new(case.input)))
        } else {
            None
        }
    };
    let planned = plan(rt.alloc(), case.words);
    let creator = |_name: &str| -> Option<Nowhere> { None };
    pcid_audit(rt, planned, opener, creator, input, output, errors)
}

/// Whether the program answers as the case says, whose input the file has, and reads no standard
/// input.
fn is_answered_of_file<'a, T: AllocGlobal + Threads + Wait + Sync>(rt: &T, case: Case<'a>) -> bool {
    let mut input = Peeked::new(Watched::new(Pieces {
        left: &[],
        most: 1,
        reads: 0,
        failing: Some((0, ErrorKind::Interrupted)),
    }));
    let mut output = Watched::new(Vec::new(rt.alloc()));
    let mut errors = Watched::new(Vec::new(rt.alloc()));
    let status = run_with_file(rt, case, &mut input, &mut output, &mut errors);
    let is_right = is_answered(case, status, &output.inner, &errors.inner);
    is_right && input.inner.inner.reads == 0
}

/// The input is that of the one file there is, and standard input is not read.
fn answer_of_file<'a, T: AllocGlobal + Abort + Threads + Wait + Sync>(rt: &T, case: Case<'a>) {
    assert!(rt; is_answered_of_file(rt, case), "{}", case.name);
}

#[test]
fn a_record_by_its_name(rt: HostRuntime) -> Result<(), Fail> {
    let walk = walks::fresh_walk(rt.alloc())?;
    let named = Case {
        words: &["check", NAME],
        ..walk.case()
    };
    answer_of_file(&rt, named);
    Ok(())
}

#[test]
fn an_upgrade_by_its_name(rt: HostRuntime) -> Result<(), Fail> {
    let walk = walks::fresh_walk(rt.alloc())?;
    let output = bytes_of(rt.alloc(), &crate::streams::UPGRADED)?;
    let upgraded = Case {
        name: "upgrade_by_name",
        words: &["upgrade", NAME],
        input: &walk.input,
        output: &output,
        line: "verdict: no\nevent: 4\nreason: 11 accessed\nevents: 5\nsegments: 1\n",
        status: 1,
    };
    answer_of_file(&rt, upgraded);
    Ok(())
}

#[test]
fn a_script_by_its_name(rt: HostRuntime) -> Result<(), Fail> {
    let ran = Case {
        name: "run_by_name",
        words: &["run", "--single", NAME],
        input: b"pcid-guest 1\nmachine 40 wp nxe\nsegment 2\ncpu 0x1001 1\n0 invlpg 0x5000\n",
        output: b"verdict: yes\nevents: 1\nsegments: 1\n",
        line: "",
        status: 0,
    };
    answer_of_file(&rt, ran);
    Ok(())
}

/// Every command with the name of a file that is not there.
const UNOPENED: [&[&str]; 7] = [
    &["check", "other"],
    &["certify", "--bytes", "other"],
    &["run", "other"],
    &["run-of", "other"],
    &["explain", "other"],
    &["show", "other"],
    &["upgrade", "other"],
];

#[test]
fn files_that_can_not_be_opened(rt: HostRuntime) -> Result<(), Fail> {
    for &words in &UNOPENED {
        let unopened = Case {
            name: "file_that_can_not_be_opened",
            words,
            input: &[],
            output: &[],
            line: "pcid-audit: can't open other\n",
            status: 66,
        };
        answer_of_file(&rt, unopened);
    }
    Ok(())
}

/// The name `-` is that of standard input.
#[test]
fn standard_input_by_its_name(rt: HostRuntime) -> Result<(), Fail> {
    let walk = walks::fresh_walk(rt.alloc())?;
    let given = Case {
        words: &["check", "-"],
        ..walk.case()
    };
    assert!(rt; answers(&rt, given), "{}", given.name);
    Ok(())
}
