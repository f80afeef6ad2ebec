ghost use Rattle.std.specs.Prelude.{◌≡◌};
ghost use Rattle.pg_run_of.specs.Plan.{step_of};

use crate::visit::{Visit, table_fill};
use pg_machine::Step;

/// A fill of a cache by a walk, and the moment that it is taken at: just before the event of that
/// number.
#[derive(Clone, Copy)]
pub(crate) struct Fill {
    /// The number of the event that it comes just before.
    pub moment: u32,
    /// Where the walk stands: it fills what it reads next.
    pub visit: Visit,
    /// Whether that is a page, for the TLB, and no table.
    pub is_leaf: bool,
}

/// The step of a fill.
pub(crate) fn step_of(fill: &Fill) -> Step
    ensures { result ≡ step_of fill.now }
{
    if fill.is_leaf {
        let Visit { p, la, level, from } = fill.visit;
        Step::FillLeaf { p, la, level, from }
    } else {
        table_fill(fill.visit)
    }
}
