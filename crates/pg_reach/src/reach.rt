//! The tables that a walk can come to.

ghost use Rattle.std.specs.Prelude.{◌≡◌, ◌<◌, ◌≤◌, ◌+◌, ◌^◌, ℕ, length, IsTrue, List};
ghost use Rattle.std.specs.Prelude.{true, false, IfSome};
ghost use Rattle.pg_search.specs.Freshness.{is_as_fresh};
ghost use Rattle.pg_reach.specs.Reaching.{up_to, AreWithin, IsFresher};

use pg_event::{Moments, Parent};
use pg_search::are_as_fresh;

/// A table in which a walk may read, at each moment from one up to another at which its processor
/// has the PCID.
#[derive(Clone, Copy)]
pub(crate) struct Reach {
    pub from: u32,
    pub to: u32,
    pub table: Parent,
    /// The latest moments of the readings that lead there, and after them the greatest of all,
    /// which stands for that of the reading in the table itself.
    pub latest: Moments,
}

/// The moments, where what is read later than one is read at this one.
pub(crate) fn up_to(moment: u32, latest: &Moments) -> Moments
    ensures { result ≡ up_to moment latest.now }
{
    let all = latest.as_slice();
    let mut early = Moments::first(moment.min(all[0]));
    for later in &all[1..] {
        early = match early.with(moment.min(*later)) {
            Some(more) => more,
            None => unreachable!(),
        };
    }
    early
}

/// Whether moments are as many as others, and none is later than that in its place.
pub(crate) fn are_within(moments: &[u32], others: &[u32]) -> bool
    ensures { IsTrue result → AreWithin moments.now others.now }
{
    let Some((x, more)) = moments.split_first() else {
        return others.is_empty();
    };
    let Some((y, rest)) = others.split_first() else {
        return false;
    };
    x <= y && are_within(more, rest)
}

/// Whether no others need be looked at, where these have been found: any are asked for.
pub(crate) fn is_done(freshest: bool, found: Option<Moments>) -> bool
    ensures { IsTrue result → (ws : List ℕ) → IsFresher freshest found ws }
{
    found.is_some() && !freshest
}

/// Whether others need not be looked at, where these have been found: the freshest are asked for
/// and these are as fresh, or any are.
pub(crate) fn is_enough(freshest: bool, found: &Option<Moments>, others: &Moments) -> bool
    ensures enough { IsTrue result → IsFresher freshest found.now others.now }
    ensures fresher { result ≡ false → freshest ≡ true →
        IfSome found.now (λ moments. is_as_fresh others.now moments ≡ true) }
{
    match found {
        Some(moments) => !freshest || are_as_fresh(moments.as_slice(), others.as_slice()),
        None => false,
    }
}
