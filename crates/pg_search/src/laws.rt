//! Laws of witnesses. Each function does nothing: its contract is the law.

ghost use Rattle.pg_search.specs.Law.{UnwitnessedEventsHaveNoRun};
ghost use Rattle.pg_search.specs.Changes.{WitnessedAmongKept, TakenByAChange, WitnessedAlike};
ghost use Rattle.pg_search.specs.Changes.{DroppedByAChange};

/// Where no moments witness an event, no run of the machine begins with the events up to it.
pub fn unwitnessed_events_have_no_run()
    ensures { UnwitnessedEventsHaveNoRun }
{}

/// Moments that witness an event are told by the events that change something: of an access that
/// got its answer it is enough that it was there.
pub fn witnessed_among_kept()
    ensures { WitnessedAmongKept }
{}

/// After the last number at which an event would have been witnessed stands an event that changes
/// something.
pub fn taken_by_a_change()
    ensures { TakenByAChange }
{}

/// An event that took a translation away changes something.
pub fn dropped_by_a_change()
    ensures { DroppedByAChange }
{}

/// Which moments witness an event is told by what the events before it leave in memory, in control
/// registers and in caches: so these may be kept in less room than they take.
pub fn witnessed_alike()
    ensures { WitnessedAlike }
{}
