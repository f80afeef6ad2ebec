use pg_event::Reason;
use pg_explain::{Tally, tally_text};
use std::alloc::{AllocGlobal, Global};
use std::process::Abort;
use std::test::Fail;

/// So many numbers, each above the one before by the same.
struct Numbers {
    first: u64,
    step: u64,
    count: u64,
}

/// The numbers of a tally, and its line.
struct Case {
    number: u8,
    name: &'static str,
    reason: Reason,
    count: u64,
    first: u32,
    processors: Numbers,
    pages: Numbers,
    line: &'static str,
}

const CASES: [Case; 3] = [
    // Few processors and pages are all named.
    Case {
        number: 9,
        name: "answer",
        reason: Reason::Answer,
        count: 3,
        first: 6,
        processors: Numbers {
            first: 0,
            step: 1,
            count: 2,
        },
        pages: Numbers {
            first: 0x5000,
            step: 0x1000,
            count: 3,
        },
        line: "9 answer: 3, first 6, cpus 0 1, pages 0x5000 0x6000 0x7000\n",
    },
    // As many processors and pages are named as fit.
    Case {
        number: 5,
        name: "translation dropped",
        reason: Reason::TranslationDropped,
        count: 41,
        first: 6,
        processors: Numbers {
            first: 0,
            step: 1,
            count: 41,
        },
        pages: Numbers {
            first: 0x7f00_0000_0000,
            step: 0x1000,
            count: 12,
        },
        line: "5 translation dropped: 41, first 6, cpus 0 1 2 3 and 37 more, \
            pages 0x7f0000000000 and 11 more\n",
    },
    // All six processors fit, since nothing has to be said of others then.
    Case {
        number: 7,
        name: "absent read not at event",
        reason: Reason::NotAtEvent,
        count: 100,
        first: 60,
        processors: Numbers {
            first: 0,
            step: 1,
            count: 6,
        },
        pages: Numbers {
            first: 0xffff_8000_0000_0000,
            step: 0x1000,
            count: 2,
        },
        line: "7 absent read not at event: 100, first 60, cpus 0 1 2 3 4 5, \
            pages 0xffff800000000000 and 1 more\n",
    },
];

fn spelled(alloc: Global, numbers: &Numbers) -> Result<Vec<u64>, Fail> {
    let mut spelled = Vec::new(alloc);
    for k in 0..numbers.count {
        let above = k.wrapping_mul(numbers.step);
        spelled.push(numbers.first.wrapping_add(above))?;
    }
    Ok(spelled)
}

fn has_line(alloc: Global, case: &Case) -> Result<bool, Fail> {
    let tally = Tally {
        reason: case.reason,
        count: case.count,
        first: case.first,
        processors: spelled(alloc, &case.processors)?,
        pages: spelled(alloc, &case.pages)?,
    };
    let text = tally_text(alloc, case.number, case.name, &tally)?;
    Ok(text.as_str() == case.line)
}

fn line_all(rt: &(impl AllocGlobal + Abort), cases: &[Case]) -> Result<(), Fail> {
    for case in cases {
        assert!(rt; has_line(rt.alloc(), case)?, "{}", case.name);
    }
    Ok(())
}

#[test]
fn tallies_are_lines(rt: HostRuntime) -> Result<(), Fail> {
    line_all(&rt, &CASES)
}
