//! From which moment on what is cached may matter.

ghost use Rattle.std.specs.Prelude.{◌≡◌, ◌<◌, ◌≤◌, ℕ, false, true};
ghost use Rattle.pg_entry.specs.Kinds.{IsPageShift};
ghost use Rattle.pg_inval.specs.Drops.{IsTableLevel};
ghost use Rattle.pg_entry.specs.declared.Level.TheVariants.{Four, Three, Two};
ghost use Rattle.pg_reach.specs.Bounds.{IsSince, structure_up_to, translation_up_to, AreBounds};

use crate::walker::Walker;
use pg_entry::Level;
use pg_search::Seen;

/// The first moment from which on the structure entry that a level gives survives up to another.
fn structure_since(seen: &Seen<'_>, walker: &Walker, level: Level, to: u32) -> u32
    requires { IsTableLevel level }
    ensures { IsSince (structure_up_to seen.now walker.now level to) to result }
{
    let (mut low, mut high) = (0, to);
    while low < high {
        let middle = low + (high - low) / 2;
        if seen.structure_survives(walker.lookup(), level, middle, to) {
            high = middle;
        } else {
            low = middle + 1;
        }
    }
    low
}

/// The first moment from which on a translation by a page of 2 to the power of `shift` bytes
/// survives up to the walker's number.
fn translation_since(seen: &Seen<'_>, walker: &Walker, shift: u8, global: bool) -> u32
    requires { IsPageShift shift }
    ensures { IsSince (translation_up_to seen.now walker.now shift global) walker.now.number
        result }
{
    let to = walker.number;
    let (mut low, mut high) = (0, to);
    while low < high {
        let middle = low + (high - low) / 2;
        if seen.translation_survives(walker.lookup(), shift, global, middle, to) {
            high = middle;
        } else {
            low = middle + 1;
        }
    }
    low
}

/// The first moment from which on a translation of some page survives up to the walker's number.
pub(crate) fn page_since(seen: &Seen<'_>, walker: &Walker, global: bool) -> u32
    ensures within { result ≤ walker.now.number }
    ensures since { (shift w : ℕ) → IsPageShift shift → w < result →
        translation_up_to seen.now walker.now shift global w ≡ false }
{
    let small = translation_since(seen, walker, 12, global);
    let large = translation_since(seen, walker, 21, global);
    let huge = translation_since(seen, walker, 30, global);
    small.min(large).min(huge)
}

/// By the level at which a walk reads, the moment from which on that may matter where the last
/// reading of a walk comes at `one` or later.
#[derive(Clone, Copy)]
pub(crate) struct Bounds {
    pub one: u32,
    pub two: u32,
    pub three: u32,
    pub four: u32,
}

/// The bounds of a walk whose last reading comes at this moment or later.
pub(crate) fn bounds_from(seen: &Seen<'_>, walker: &Walker, since: u32) -> Bounds
    ensures { AreBounds seen.now walker.now since result }
{
    let two = structure_since(seen, walker, Level::Two, since);
    let three = structure_since(seen, walker, Level::Three, two);
    let four = structure_since(seen, walker, Level::Four, three);
    Bounds {
        one: since,
        two,
        three,
        four,
    }
}
