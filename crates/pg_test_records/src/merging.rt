use pg_check::SegmentVerdict;
use pg_event::Reason;
use pg_pool::Round;
use pg_report::{MergeError, Verdict, merge};
use std::alloc::Global;
use std::test::Fail;

/// Verdicts by several checkers, and what they come to together.
struct Case {
    name: &'static str,
    verdicts: &'static [SegmentVerdict],
    round: Round,
    merged: Result<Verdict, MergeError>,
    /// The number of the error.
    number: Option<u8>,
}

const BOTH: Round = Round { first: 0, last: 2 };

const GOOD_0: SegmentVerdict = SegmentVerdict {
    number: 0,
    first_bad: None,
};

const GOOD_1: SegmentVerdict = SegmentVerdict {
    number: 1,
    first_bad: None,
};

const GOOD_5: SegmentVerdict = SegmentVerdict {
    number: 5,
    first_bad: None,
};

const GOOD_9: SegmentVerdict = SegmentVerdict {
    number: 9,
    first_bad: None,
};

const BAD_0: SegmentVerdict = SegmentVerdict {
    number: 0,
    first_bad: Some((1, Reason::Answer)),
};

const BAD_1: SegmentVerdict = SegmentVerdict {
    number: 1,
    first_bad: Some((3, Reason::Answer)),
};

const CASES: [Case; 6] = [
    Case {
        name: "good in any order",
        verdicts: &[GOOD_1, GOOD_0],
        round: BOTH,
        merged: Ok(Verdict::Yes),
        number: None,
    },
    Case {
        name: "the first bad event in any order",
        verdicts: &[BAD_1, BAD_0],
        round: BOTH,
        merged: Ok(Verdict::No {
            event: 1,
            reason: Reason::Answer,
        }),
        number: None,
    },
    Case {
        name: "no segment",
        verdicts: &[],
        round: Round { first: 3, last: 3 },
        merged: Ok(Verdict::Yes),
        number: None,
    },
    Case {
        name: "double",
        verdicts: &[GOOD_0, GOOD_0],
        round: BOTH,
        merged: Err(MergeError::Double(0)),
        number: Some(1),
    },
    Case {
        name: "strangers",
        verdicts: &[GOOD_9, GOOD_0, GOOD_5],
        round: BOTH,
        merged: Err(MergeError::Stranger(5)),
        number: Some(2),
    },
    Case {
        name: "missing",
        verdicts: &[GOOD_0],
        round: BOTH,
        merged: Err(MergeError::Missing(1)),
        number: Some(3),
    },
];

fn is_merged(alloc: Global, case: &Case) -> bool {
    if case.round.first > case.round.last {
        return false;
    }
    let merged = merge(alloc, case.verdicts, case.round);
    let number = match merged {
        Ok(_) => None,
        Err(error) => Some(error.number()),
    };
    merged == case.merged && number == case.number
}

#[test]
fn verdicts_are_merged(rt: HostRuntime) -> Result<(), Fail> {
    for case in CASES.iter() {
        assert!(rt; is_merged(rt.alloc(), case), "{}", case.name);
    }
    Ok(())
}
