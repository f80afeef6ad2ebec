// SPDX-License-Identifier: MIT OR Apache-2.0
//! Calls that are refused memory are called again, and come to what they come to without that. One
//! processor carries out a script of each version of records: its record, the record's report, how
//! many of its events were given out in segments, and how many steps its run has are written to
//! standard output; and to standard error, how many calls were refused.
//!
//! `checks/growths/run` refuses each growth of this program in turn.
#![tactic(auto)]

mod again;
mod guest;
mod judge;
mod told;

use crate::told::tell_all;
use std::process::ExitCode;

/// Memory was refused outside the calls that are called again.
const MEMORY: u8 = 3;

fn main(rt: HostRuntime) -> ExitCode {
    let mut refused = 0;
    let Ok(text) = tell_all(rt.alloc(), &mut refused) else {
        return ExitCode::from(MEMORY);
    };
    if print!(rt; "{text}").is_err() || eprintln!(rt; "{refused} refused").is_err() {
        return ExitCode::FAILURE;
    }
    ExitCode::SUCCESS
}
