ghost use Rattle.std.specs.Prelude.{IfOk};
ghost use Rattle.pg_event.specs.Witness.{Accepted};
ghost use Rattle.pg_run_of.specs.Build.{BuildsRun};

use crate::placer::{place, sort_fills};
use crate::walker::fills_of;
use pg_check::History;
use pg_machine::Step;
use std::alloc::{AllocError, Global};

/// The run of an accepted record: the fills that the moments of its accesses and assists name, each
/// moment's just before its event, by event and then from level 4 down. An access that ends at an
/// entry that is not present or has a reserved bit set, and an assist, fill the levels above that
/// entry alone.
///
/// It fails only where memory is refused.
pub(crate) fn plan_run(alloc: Global, history: &History) -> Result<Vec<Step>, AllocError>
    requires { Accepted history.now.head history.now.events }
    ensures { IfOk result (λ steps. BuildsRun history.now.head history.now.events steps.items) }
{
    let mut fills = fills_of(alloc, history)?;
    sort_fills(&mut fills)?;
    place(alloc, &fills, history.events())
}
