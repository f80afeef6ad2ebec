// SPDX-License-Identifier: MIT OR Apache-2.0
//! What `certify` answers of a record with no one order, and what `merge` makes of logs.
#![tactic(auto)]

mod answers;
mod asked;
mod logs;
mod merging;
mod outcomes;
mod reading;
mod refusals;
mod showing;
mod texts;

pub use answers::{certify_spanned, status_of};
pub use asked::Asked;
pub use merging::merge;
pub use outcomes::{OrderedOutcomes, outcomes_in_order};
pub use reading::{Unread, read_run};
pub use showing::{show_spanned, trace_spanned};
pub use texts::segments_of;
