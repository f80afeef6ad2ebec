//! What it means that nothing witnesses an event. The function does nothing: its contract is the
//! law.

ghost use Rattle.pg_span_refute.specs.Supposed.{WithoutAWitness};

/// Where nothing that a processor may have cached or may read gives an event, in the orders that
/// are as supposed, no run comes to the event in them.
pub fn without_a_witness()
    ensures { WithoutAWitness }
{}
