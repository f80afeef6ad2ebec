// SPDX-License-Identifier: MIT OR Apache-2.0
//! Events that no order of a run with spans can witness: what a processor may have cached while it
//! stands between two of its events, whatever the order of the others.
#![tactic(auto)]

mod caches;
mod deduced;
mod edge;
mod held;
mod impossible;
mod laws;
mod own;
mod refuter;
mod slot;
mod table;
mod updates;
mod words;

pub use deduced::{Refuted, refute_near};
pub use edge::Edge;
pub use impossible::{first_not_given, may_be_given};
pub use laws::without_a_witness;
pub use refuter::refute;
