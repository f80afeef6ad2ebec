// SPDX-License-Identifier: MIT OR Apache-2.0
//! A record as a trace: JSON in the trace-event format, which trace viewers open.
#![tactic(auto)]

mod judged;
mod mark;
mod objects;
mod shown;
mod spans;
mod writer;

pub use judged::{Traced, trace_certified, trace_explained};
pub use mark::{Cause, Mark, Role, Source};
pub use shown::trace_shown;
pub use spans::{spanned_trace, spanned_verdict_trace};
