// SPDX-License-Identifier: MIT OR Apache-2.0
//! Which cached entries a processor had to drop between two moments.
#![tactic(auto)]

mod class;
mod dropped;
mod drops;
mod key;
mod lasts;
mod listed;
mod lists;
mod log;
mod packed;
mod space;
mod tally;

pub use drops::Drops;
pub use space::{Space, structure_space, translation_space};
pub use tally::Tally;
