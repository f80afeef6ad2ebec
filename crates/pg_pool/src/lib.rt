// SPDX-License-Identifier: MIT OR Apache-2.0
//! Checkers that share a round of numbers, and steal from one another what is left.
#![tactic(auto)]

mod auditor;
mod beside;
mod checker;
mod checkers;
mod close;
mod deal;
mod deque_view;
mod error;
mod gate;
mod numbered_verdict;
mod other_deque;
mod placing;
mod round;
mod rounds;
mod rule;
mod seat;
mod segments;
mod steps;
mod windows;

pub use auditor::audit_round;
pub use beside::{Beside, NoWork};
pub use close::close_round;
pub use deal::open_round;
pub use error::PoolError;
pub use gate::{Gate, OpenGate};
pub use round::Round;
pub use rounds::{Outcome, judge_round};
pub use seat::Seat;
pub use segments::Segments;
pub use windows::{WindowJudged, judge_window_beside};
