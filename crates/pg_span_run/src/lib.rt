// SPDX-License-Identifier: MIT OR Apache-2.0
//! Runs with no one order: of each event it is known when it began and ended, and of each
//! processor its own order. Which orders may all events have had; which bytes of versions 3 and 4
//! are such a run; which bytes are the log of a single processor; and which run do the logs of all
//! processors make?
#![tactic(auto)]

mod error;
mod front;
mod gathering;
mod header;
mod log;
mod log_error;
mod log_header;
mod log_laws;
mod log_number;
mod log_reader;
mod merger;
mod number;
mod only;
mod order;
mod order_laws;
mod peeked;
mod reader;
mod refusal;
mod span;
mod spanned;
mod spelling;
mod spelling_laws;
mod start;
mod timed;
mod united;

pub use error::SpannedError;
pub use log::{Log, LogHeader, Stamped};
pub use log_error::{LogError, LogRefusal, MergeError, Setting};
pub use log_laws::{merged_logs_keep_programs, read_logs_are_logs, spans_are_as_stamped};
pub use log_reader::read_log;
pub use merger::merge_logs;
pub use only::has_one_order;
pub use order::is_order;
pub use order_laws::{ends_are_an_order, no_other_order, precedes_by_must};
pub use peeked::Peeked;
pub use reader::read_spanned;
pub use refusal::SpannedRefusal;
pub use span::{Span, ended_before, event_of, must_precede, precedes, span_of};
pub use spanned::SpannedRun;
pub use spelling::spell_spanned;
pub use spelling_laws::{no_bytes_spell_two_runs, reading_of_spanned_spelling, spelled_where_read};
pub use start::started;
