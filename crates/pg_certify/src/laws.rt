//! What an answer means. Each function does nothing: its contract is the law.

ghost use Rattle.pg_certify.specs.Certified.{CertifiedEventsRun, DeniedEventsHaveNoRun};
ghost use Rattle.pg_certify.specs.Certified.{CertifiedExactlyWhereARunExists};

use pg_search::unwitnessed_events_have_no_run;

/// Well-formed events that some moments certify are those of a run of the machine, but for their
/// moments.
pub fn certified_events_run()
    ensures { CertifiedEventsRun }
{}

/// Where no moments witness an event, no run of the machine begins with the events up to it, and
/// some run has those before it.
pub fn denied_events_have_no_run()
    ensures { DeniedEventsHaveNoRun }
{
    unwitnessed_events_have_no_run();
}

/// Well-formed events can be certified exactly where some run of the machine has them.
pub fn certified_exactly_where_a_run_exists()
    ensures { CertifiedExactlyWhereARunExists }
{}
