// SPDX-License-Identifier: MIT OR Apache-2.0
//! Runs of guest scripts, on one thread or with a thread for each processor: their records, judged,
//! the receipts of their processors, and how far a run has come, in one word that readers read
//! without a lock.
#![tactic(auto)]

mod batch;
mod board;
mod counts;
mod ending;
mod error;
mod finished;
mod given;
mod guest;
mod live_judging;
mod lookout;
mod observer;
mod processor;
mod processor_threads;
mod progress;
mod publisher;
mod reader;
mod record_report;
mod result;
mod rule;
mod seen;
mod segments;
mod shared;
mod single;
mod turns;

pub use board::Board;
pub use counts::Counts;
pub use error::RunError;
pub use finished::Finished;
pub use guest::{run_guest, run_guest_followed, run_guest_watched};
pub use observer::{Nobody, Observer};
pub use progress::Progress;
pub use publisher::Publisher;
pub use reader::ReadSeat;
pub use record_report::report_of_record;
pub use result::RunResult;
pub use single::{run_single, transcripts_of};
pub use turns::turn;
