// SPDX-License-Identifier: MIT OR Apache-2.0
//! Table memory and the record of a run: a world that processors read, write and record in.
#![tactic(auto)]

mod error;
mod kinds;
mod law;
mod memory;
mod receipt;
mod walk;
mod widths;
mod world;

pub use error::WorldError;
pub use law::{
    an_assist_is_enough, finished_segments_are_the_events, segments_begin_the_events,
    tables_have_addresses,
};
pub use receipt::Receipt;
pub use walk::{LevelRead, Walk};
pub use world::World;
