// SPDX-License-Identifier: MIT OR Apache-2.0
//! Events with spans as lines for a person, and why in every order of them one does not come to
//! pass.
#![tactic(auto)]

mod cause;
mod drops;
mod laws;
mod lines;
mod named;
mod parts;
mod picture;
mod seen;
mod seen_lines;
mod words;

pub use cause::cause_text;
pub use laws::drops_all_of_a_page;
pub use lines::{push_began, spanned_lines};
pub use parts::{ReadAfter, WalkCause, walk_cause, walked_address};
pub use picture::cause_picture;
pub use seen::{Gone, Seen};
