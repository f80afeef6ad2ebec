//! The rows of `check` by several checkers.

use crate::{invalidations, rights};
use pg_test_support::{Case, Row, answers, rows_of, versions, walks};
use std::alloc::AllocGlobal;
use std::sync::Wait;
use std::test::Fail;
use std::thread::Threads;

/// Whether a row is one of `check` with no other word.
fn is_check(row: &Row<'_>) -> bool {
    row.words.len() == 1 && row.words[0] == "check"
}

/// Whether so many checkers answer a row as one does.
fn is_answered_by<T: AllocGlobal + Threads + Wait + Sync>(
    rt: &T,
    row: &Row<'_>,
    checkers: &str,
) -> bool {
    let by_many = Case {
        words: &["check", "--checkers", checkers],
        ..row.case()
    };
    answers(rt, by_many)
}

/// The name of the first row of `check` that so many checkers do not answer. Without any row of it,
/// none is answered.
fn first_unanswered_by<'a, T: AllocGlobal + Threads + Wait + Sync>(
    rt: &T,
    rows: &[Row<'a>],
    checkers: &str,
) -> Option<&'a str> {
    if !rows.iter().any(|row| is_check(row)) {
        return Some("no row");
    }
    for row in rows {
        if is_check(row) && !is_answered_by(rt, row, checkers) {
            return Some(row.name);
        }
    }
    None
}

#[test]
fn records_judged_by_several_checkers(rt: HostRuntime) -> Result<(), Fail> {
    let texts = [
        invalidations::ROWS,
        rights::ROWS,
        walks::ROWS,
        versions::ROWS,
    ];
    let rows = rows_of(rt.alloc(), &texts)?;
    for checkers in ["2", "3"] {
        let unanswered = first_unanswered_by(&rt, &rows, checkers);
        assert!(rt; unanswered.is_none(), "{checkers}: {unanswered:?}");
    }
    Ok(())
}
