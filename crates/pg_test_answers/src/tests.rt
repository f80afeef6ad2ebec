use crate::{
    all_rejections, allowed, explanations, json, json_spans, lines, many_lines, outcomes, pictures,
    span_outcomes, span_pictures, spans, traces,
};
use pg_test_support::{Case, answers, bytes_of, first_unanswered};
use std::alloc::AllocGlobal;
use std::process::Abort;
use std::sync::Wait;
use std::test::Fail;
use std::thread::Threads;

/// The program answers each row of some texts, or the first that it does not is named.
fn expect_all<T: AllocGlobal + Abort + Threads + Wait + Sync>(
    rt: &T,
    texts: &[&'static str],
) -> Result<(), Fail> {
    let unanswered = first_unanswered(rt, texts)?;
    assert!(rt; unanswered.is_none(), "{unanswered:?}");
    Ok(())
}

#[test]
fn records_explained(rt: HostRuntime) -> Result<(), Fail> {
    let texts = [
        explanations::WALKS,
        explanations::CACHED,
        explanations::ANSWERS,
        explanations::FLAGS,
        all_rejections::ROWS,
    ];
    expect_all(&rt, &texts)
}

#[test]
fn records_shown(rt: HostRuntime) -> Result<(), Fail> {
    expect_all(&rt, &[lines::SAMPLES, lines::RANGES, many_lines::ROWS])
}

#[test]
fn outcomes_of_accesses(rt: HostRuntime) -> Result<(), Fail> {
    let texts = [
        outcomes::RECORDS,
        outcomes::ROWS,
        allowed::RECORDS,
        allowed::ROWS,
    ];
    expect_all(&rt, &texts)
}

#[test]
fn records_with_spans(rt: HostRuntime) -> Result<(), Fail> {
    let texts = [
        spans::RECORDS,
        spans::ROWS,
        json_spans::ROWS,
        span_outcomes::RECORDS,
        span_outcomes::ROWS,
    ];
    expect_all(&rt, &texts)
}

#[test]
fn records_as_json_and_drawn(rt: HostRuntime) -> Result<(), Fail> {
    expect_all(&rt, &[json::RECORDS, json::ROWS, pictures::ROWS])
}

#[test]
fn records_as_traces(rt: HostRuntime) -> Result<(), Fail> {
    expect_all(&rt, &[json::RECORDS, traces::ROWS])
}

#[test]
fn records_with_spans_drawn(rt: HostRuntime) -> Result<(), Fail> {
    expect_all(&rt, &[span_pictures::ROWS])
}

#[test]
fn record_with_spans_written_with_moments(rt: HostRuntime) -> Result<(), Fail> {
    let input = bytes_of(rt.alloc(), spans::LATE_WRITE)?;
    let output = bytes_of(rt.alloc(), spans::LATE_WRITE_IN_ORDER)?;
    let named = Case {
        name: "late_write_with_moments",
        words: &["certify", "--bytes"],
        input: &input,
        output: &output,
        line: "",
        status: 0,
    };
    assert!(rt; answers(&rt, named), "{}", named.name);
    Ok(())
}
