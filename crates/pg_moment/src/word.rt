//! The last value of a word, and where the others are.

ghost use Rattle.std.specs.Prelude.{◌≡◌};
ghost use Rattle.pg_moment.specs.Stamps.{has_last};

use std::mem::size_of;

/// Where the values of a word but its last are.
#[derive(Clone, Copy)]
pub(crate) enum Others {
    /// The word has no value.
    Unwritten,
    /// `count` values are in the log, the last of them at `place`.
    Logged { place: u32, count: u32 },
    /// The word has a list of them.
    Listed,
    /// The word has a list of all its values: the last one was forgotten, so `value` and `moment`
    /// say nothing.
    LastForgotten,
}

/// The last value of a word, the number of the event that left it there, and where the others are.
/// Most look-ups ask of a moment after that event, and do not read the others.
#[derive(Clone, Copy)]
pub(crate) struct Word {
    pub value: u64,
    pub moment: u32,
    pub others: Others,
}

/// A line has eight words, so a word must stay small.
const _: () = prove!(size_of::<Word>() == 24);

/// A word that was never written.
pub(crate) const UNWRITTEN: Word = Word {
    value: 0,
    moment: 0,
    others: Others::Unwritten,
};

impl Others {
    /// Whether the word has a last value.
    #[inline(always)]
    pub(crate) fn have_last(self) -> bool
        ensures { result ≡ has_last self }
    {
        match self {
            Others::Logged { .. } | Others::Listed => true,
            Others::Unwritten | Others::LastForgotten => false,
        }
    }
}
