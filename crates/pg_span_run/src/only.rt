//! Whether the events have one order alone.

ghost use Rattle.std.specs.Prelude.{◌↔◌, IsTrue};
ghost use Rattle.pg_span_run.specs.OrderLaws.{EachPrecedesNext};

use crate::span::must_precede;
use crate::spanned::SpannedRun;

/// Whether each event comes before the next in every order, so that the order in which they ended
/// is their only one: for example where no event overlaps one of another processor. It takes time
/// linear in their count.
pub fn has_one_order(run: &SpannedRun) -> bool
    ensures { IsTrue result ↔ EachPrecedesNext run.now }
{
    for next in 1..run.len() as u32 {
        if !must_precede(run, next - 1, next) {
            return false;
        }
    }
    true
}
