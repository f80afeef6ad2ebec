//! What an answer means. Each function does nothing: its contract is the law.

ghost use Rattle.pg_span_verdict.specs.Alone.{OneOrderAlone};
ghost use Rattle.pg_span_verdict.specs.Runs.{OrderedEventsRun, OrderedExactlyWhereARunExists};

use pg_certify::{certified_events_run, certified_exactly_where_a_run_exists};
use pg_span_run::no_other_order;

/// Well-formed events that some moments certify in one of their orders are those of a run of the
/// machine in this order.
pub fn ordered_events_run()
    ensures { OrderedEventsRun }
{
    certified_events_run();
}

/// Well-formed events have an order in which they are those of a run of the machine exactly where
/// they have one in which some moments certify them.
pub fn ordered_exactly_where_a_run_exists()
    ensures { OrderedExactlyWhereARunExists }
{
    certified_exactly_where_a_run_exists();
}

/// Events have one order alone, that in which they ended, exactly where each comes before the next
/// in every order: `has_one_order` of `pg_span_run` tells whether they do.
pub fn one_order_alone()
    ensures { OneOrderAlone }
{
    no_other_order();
}
