// SPDX-License-Identifier: MIT OR Apache-2.0
//! Whether the events of a record with no one order have an order in which some run of the machine
//! has them.
#![tactic(auto)]

mod in_order;
mod laws;
mod trying;
mod verdict;

pub use in_order::{InOrder, certify_in_order, history_in_order, moments_in_order};
pub use laws::{one_order_alone, ordered_events_run, ordered_exactly_where_a_run_exists};
pub use verdict::{Verdict, find_ordered_run};
