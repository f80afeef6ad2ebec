// SPDX-License-Identifier: MIT OR Apache-2.0
//! Every outcome that an access may have after the events before it.
#![tactic(auto)]

mod allowed;
mod asked;
mod candidates;
mod laws;
mod outcomes;
mod pages;

pub use allowed::Allowed;
pub use asked::{Found, outcomes_of};
pub use laws::{allowed_exactly_where_a_run_exists, outcomes_among_kept, outcomes_are_one};
pub use outcomes::outcomes_at;
pub use pg_reach::{is_access, with_outcome};
