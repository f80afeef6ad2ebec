ghost use Rattle.std.specs.Prelude.{◌≡◌, ◌≤◌, ◌<◌, List, length};
ghost use Rattle.pg_event.specs.declared.event.Event.{Event};
ghost use Rattle.pg_event.specs.Heads.{Head};
ghost use Rattle.pg_event.specs.Witness.{is_in_order};
ghost use Rattle.pg_chain.specs.Standing.{IsPast, processor_count};
ghost use Rattle.pg_check.specs.Ends.{walk_of, asked};

use crate::memo::Memo;
use pg_chain::Chain;
use pg_event::{Moments, Reason, Want};

/// Whether moments do not decrease, and none is above `last`, the number of the event.
pub fn is_in_order(moments: &[u32], last: u32) -> bool
    requires { 1 ≤ length moments.now }
    ensures { result ≡ is_in_order moments.now last }
{
    for i in 1..moments.len() {
        if moments[i - 1] > moments[i] {
            return false;
        }
    }
    moments[moments.len() - 1] <= last
}

/// The walk of event `number` by its moments, or the least of the reasons that no end of a walk
/// takes part in: `Order`, `Entry`, `Context` and `StructureDropped`. A memo counts what is looked
/// up for it, and does not keep it.
pub(crate) fn walk(
    memo: &mut Memo<'_>,
    number: u32,
    p: u16,
    la: u64,
    moments: &Moments,
    want: Want,
) -> Result<Chain, Reason>
    requires { p < processor_count memo.old }
    ensures past { memo.new ≡ memo.old }
    ensures walk { (head : Head) (events : List Event) → IsPast memo.old head events →
        result ≡ walk_of head events (asked number p la want) moments.now }
    ensures some { 1 ≤ length moments.now }
{
    if !is_in_order(moments.as_slice(), number) {
        return Err(Reason::Order);
    }
    memo.walk_once(p, la, moments, want)
}
