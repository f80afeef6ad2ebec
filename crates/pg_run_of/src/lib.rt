// SPDX-License-Identifier: MIT OR Apache-2.0
//! What "accepted" means: the events of an accepted record are those of a run of the machine, and
//! each run has moments with which its events are an accepted record.
#![tactic(auto)]

mod build;
mod fill;
mod law;
mod placer;
mod plan;
mod visit;
mod walker;

pub use build::{BuildError, build_run, run_of};
pub use law::{
    accepted_events_run, accepted_records_run, answered_read_has_no_run, runs_are_accepted,
    runs_are_records,
};
