// SPDX-License-Identifier: MIT OR Apache-2.0
//! The whole program over any streams.
#![tactic(auto)]

mod answers;
mod brief;
mod counter;
mod followed;
mod format;
mod guest_error;
mod guest_refusals;
mod guests;
mod host;
mod inputs;
mod line;
mod lines;
mod named;
mod nowhere;
mod outputs;
mod program;
mod records;
mod remarks;
mod signals;
mod teller;
mod traces;
mod words;

pub use brief::Brief;
pub use counter::Counter;
pub use followed::Followed;
pub use guest_error::GuestError;
pub use host::Host;
pub use nowhere::Nowhere;
pub use pg_arguments::{
    CertifyOptions, CheckOptions, Checkers, Command, ExplainOptions, Invocation, Plan, RunOptions,
    ShowOptions, Telling, Usage, plan,
};
pub use pg_event::Selection;
pub use program::{pcid_audit, pcid_audit_followed, run, run_followed};
pub use signals::Signals;
pub use teller::Teller;
pub use words::{pcid_audit_of_arguments, pcid_audit_of_words};
