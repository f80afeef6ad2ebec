// SPDX-License-Identifier: MIT OR Apache-2.0
//! What it is that moments witness an event, and the laws of it; and a run as a search sees it,
//! whole or kept in little room. `pg_reach` searches.
#![tactic(auto)]

mod brief;
mod fresh;
mod kept_run;
mod last;
mod laws;
mod lookup;
mod places;
mod seen;
mod written;

pub use brief::{changes_something, names_moments, with_moments, writes};
pub use fresh::are_as_fresh;
pub use kept_run::KeptRun;
pub use last::Last;
pub use laws::{
    dropped_by_a_change, taken_by_a_change, unwitnessed_events_have_no_run, witnessed_alike,
    witnessed_among_kept,
};
pub use lookup::Lookup;
pub use seen::Seen;
pub use written::Written;
