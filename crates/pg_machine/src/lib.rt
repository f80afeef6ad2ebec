// SPDX-License-Identifier: MIT OR Apache-2.0
//! The machine of the manual, by its steps.
#![tactic(auto)]

mod cached;
mod law;
mod machine;
mod memory;
mod processor;
mod sought;
mod step;
mod stuck;

pub use law::{runs_under_fewer_rules, some_record_has_no_run};
pub use machine::Machine;
pub use processor::gives;
pub use step::{Member, Step, Structure, Translation};
pub use stuck::Stuck;
