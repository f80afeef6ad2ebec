//! Laws of orders. Each function does nothing: its contract is the law.

ghost use Rattle.pg_span_run.specs.OrderLaws.{EndsAreAnOrder, NoOtherOrder, PrecedesByMust};

/// The order in which events ended is one of their orders, so that each run has one.
pub fn ends_are_an_order()
    ensures { EndsAreAnOrder }
{}

/// Where each event comes before the next in every order, the order in which they ended is their
/// only one.
pub fn no_other_order()
    ensures { NoOtherOrder }
{}

/// By their spans one event comes before another just where it must in every order.
pub fn precedes_by_must()
    ensures { PrecedesByMust }
{}
