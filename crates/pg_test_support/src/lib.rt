// SPDX-License-Identifier: MIT OR Apache-2.0
//! Cases that the whole program is run on, over memory and over streams that fail: for the crates
//! that test it.
#![tactic(auto)]

mod case;
pub mod explanations;
pub mod headers;
mod long;
mod pieces;
pub mod refusals;
mod row;
pub mod runs;
mod told;
pub mod versions;
pub mod walks;

pub use case::{
    Case, answers, answers_by_bytes, answers_on, ends_at_each_read, ends_at_each_write,
    is_answered, run_on, run_over,
};
pub use long::push_record;
pub use pieces::Pieces;
pub use row::{Row, bytes_of, first_unanswered, row_of, rows_of};
pub use told::is_told;
