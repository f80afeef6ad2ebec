//! Verdicts with the numbers of their segments.

use pg_check::SegmentVerdict;

/// What is told of the segment with a number.
#[derive(Clone, Copy)]
pub(crate) struct NumberedVerdict<V> {
    pub number: u32,
    pub verdict: V,
}

/// What stands at a place until the verdict of its segment comes.
pub(crate) const NO_VERDICT: SegmentVerdict = SegmentVerdict {
    number: 0,
    first_bad: None,
};
