//! Records that are written with the moments that were found for them.

use crate::certificates::ROWS;
use pg_codec::Watched;
use pg_span_run::Peeked;
use pg_test_support::{
    Case, Row, answers, answers_by_bytes, ends_at_each_write, row_of, rows_of, run_on, walks,
};
use std::alloc::AllocGlobal;
use std::process::Abort;
use std::sync::Wait;
use std::test::Fail;
use std::thread::Threads;

const NAMING: &[&str] = &["certify", "--bytes"];

/// A no is told on standard error, and nothing is written.
fn expect_denied<T: AllocGlobal + Abort + Threads + Wait + Sync>(
    rt: &T,
    row: &Row<'_>,
) -> Result<(), Fail> {
    let denied = Case {
        words: NAMING,
        output: &[],
        line: row.output.as_str(),
        ..row.case()
    };
    assert!(rt; answers_by_bytes(rt, denied)?, "{}", denied.name);
    Ok(())
}

/// Whether the record of a row is written with moments, and nothing is told.
fn is_named<T: AllocGlobal + Threads + Wait + Sync>(
    rt: &T,
    row: &Row<'_>,
    output: &mut Watched<Vec<u8>>,
) -> bool {
    let mut input = Peeked::new(Watched::new(row.input.as_slice()));
    let mut errors = Watched::new(Vec::new(rt.alloc()));
    let status = run_on(rt, NAMING, &mut input, output, &mut errors);
    status == 0 && errors.inner.is_empty()
}

/// Of a yes the record is written, and `check` says yes to it.
fn expect_named<T: AllocGlobal + Abort + Threads + Wait + Sync>(
    rt: &T,
    row: &Row<'_>,
) -> Result<(), Fail> {
    let mut output = Watched::new(Vec::new(rt.alloc()));
    assert!(rt; is_named(rt, row, &mut output), "{}", row.name);
    let checked = Case {
        words: &["check"],
        input: &output.inner,
        ..row.case()
    };
    assert!(rt; answers(rt, checked), "{}", checked.name);
    Ok(())
}

/// Each row is told so, by its exit status.
fn expect_each<T: AllocGlobal + Abort + Threads + Wait + Sync>(
    rt: &T,
    rows: &[Row<'_>],
) -> Result<(), Fail> {
    for row in rows {
        if row.status == 0 {
            expect_named(rt, row)?;
        } else {
            expect_denied(rt, row)?;
        }
    }
    Ok(())
}

#[test]
fn records_with_moments_that_were_found(rt: HostRuntime) -> Result<(), Fail> {
    let rows = rows_of(rt.alloc(), &[ROWS])?;
    expect_each(&rt, &rows)
}

/// The fresh walk whose moments nobody named gets those of the walk at its event.
#[test]
fn the_fresh_walk_with_its_moments(rt: HostRuntime) -> Result<(), Fail> {
    let unnamed = row_of(rt.alloc(), ROWS, "certified_fresh_walk")?;
    let walk = walks::fresh_walk(rt.alloc())?;
    let named = Case {
        name: "fresh_walk_named",
        words: NAMING,
        input: &unnamed.input,
        output: &walk.input,
        line: "",
        status: 0,
    };
    assert!(rt; answers_by_bytes(&rt, named)?, "{}", named.name);
    assert!(rt; ends_at_each_write(&rt, named)?, "{:?}", named.words);
    Ok(())
}
