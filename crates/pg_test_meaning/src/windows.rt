//! Runs that are certified window by window.

ghost use Rattle.std.specs.Prelude.{◌≤◌, [], length, take, OnOk};
ghost use Rattle.pg_certify.specs.Windows.{IsCertifying};

use crate::certificates::{DENIED, MAPPED, OTHER_DENIED, TURN};
use crate::written::{Written, add_all, started};
use pg_certify::Certifying;
use pg_check::History;
use pg_event::Version;
use std::alloc::{AllocError, AllocGlobal, Global};
use std::process::Abort;
use std::test::Fail;

/// Parts of a run of two processors in segments of 16 events, ways to cut it into windows, and what
/// is known once they have come.
struct Case {
    name: &'static str,
    parts: &'static [&'static [Written]],
    /// The ends of the windows, for each way.
    cuts: &'static [&'static [usize]],
    denied: Option<u64>,
    events: u64,
    segments: u64,
}

const CASES: [Case; 4] = [
    Case {
        name: "no window",
        parts: &[&MAPPED],
        cuts: &[&[], &[0, 0]],
        denied: None,
        events: 0,
        segments: 0,
    },
    // The old page is read from what was cached in a window before.
    Case {
        name: "a yes",
        parts: &[&MAPPED, &TURN, &TURN],
        cuts: &[&[21], &[6, 14, 21], &[1, 5, 6, 7, 8, 9, 10, 21]],
        denied: None,
        events: 21,
        segments: 2,
    },
    // Event 13 is denied: alone in its window, first in one, last in one, and between others.
    Case {
        name: "a no",
        parts: &[&MAPPED, &TURN, &DENIED, &TURN],
        cuts: &[&[13, 14, 22], &[5, 13, 22], &[14, 15, 22], &[22]],
        denied: Some(13),
        events: 22,
        segments: 2,
    },
    // Event 13 is denied, and so is event 22: the earlier one is told.
    Case {
        name: "two nos",
        parts: &[&MAPPED, &TURN, &OTHER_DENIED, &TURN, &DENIED],
        cuts: &[&[23], &[14, 23], &[13, 22, 23]],
        denied: Some(13),
        events: 23,
        segments: 2,
    },
];

/// Takes the events from one on, up to another, as the next window.
fn take_window(
    certifying: &mut Certifying,
    history: &History,
    from: usize,
    to: usize,
) -> Result<(), AllocError>
    requires within { (from ≤ to) × (to ≤ length history.now.events) }
    requires before { IsCertifying certifying.old history.now.head
        (take from history.now.events) }
    ensures { OnOk result (IsCertifying certifying.new history.now.head
        (take to history.now.events)) }
{
    let events = history.events();
    certifying.window(&events[from..to])
}

/// Takes windows with these ends, as far as they rise and lie in the run.
fn take_windows(
    certifying: &mut Certifying,
    history: &History,
    ends: &[usize],
) -> Result<(), AllocError>
    requires { IsCertifying certifying.old history.now.head [] }
{
    let mut from = 0;
    for end in ends {
        if from <= *end && *end <= history.events().len() {
            take_window(certifying, history, from, *end)?;
            from = *end;
        }
    }
    Ok(())
}

/// The event that is denied, and how many events and segments there are.
fn settled(certifying: &Certifying) -> (Option<u64>, u64, u64) {
    (certifying.settle(), certifying.len(), certifying.segments())
}

/// The same once the windows with these ends have come.
fn known(
    alloc: Global,
    history: &History,
    ends: &[usize],
) -> Result<(Option<u64>, u64, u64), AllocError> {
    let header = history.header().clone()?;
    let mut certifying = Certifying::new(alloc, header)?;
    take_windows(&mut certifying, history, ends)?;
    Ok(settled(&certifying))
}

/// Whether the same is known in whatever way the run is cut.
fn is_known(alloc: Global, history: &History, case: &Case) -> Result<bool, AllocError> {
    for ends in case.cuts {
        if known(alloc, history, ends)? != (case.denied, case.events, case.segments) {
            return Ok(false);
        }
    }
    Ok(true)
}

fn is_certified_in(alloc: Global, history: &mut History, case: &Case) -> Result<bool, Fail> {
    for part in case.parts {
        add_all(history, part)?;
    }
    Ok(is_known(alloc, history, case)?)
}

fn is_certified(alloc: Global, case: &Case) -> Result<bool, Fail> {
    let mut history = started(alloc, Version::One, 2)?;
    is_certified_in(alloc, &mut history, case)
}

fn certify_all(rt: &(impl AllocGlobal + Abort), cases: &[Case]) -> Result<(), Fail> {
    for case in cases {
        assert!(rt; is_certified(rt.alloc(), case)?, "{}", case.name);
    }
    Ok(())
}

#[test]
fn windows_of_any_size(rt: HostRuntime) -> Result<(), Fail> {
    certify_all(&rt, &CASES)
}
