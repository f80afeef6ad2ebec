// SPDX-License-Identifier: MIT OR Apache-2.0
//! Guest scripts, and the recorded processors: each carries out the instructions of a script, turn
//! by turn, in a world that it shares with the others. No run of them is refused by the auditor.
#![tactic(auto)]

mod advance;
mod calls;
mod driver;
mod heading;
mod instruction;
mod laws;
mod number;
mod processor;
mod same;
mod script;
mod script_laws;
mod script_reader;
mod script_refusal;
mod script_text;
mod task;
mod tasks;
mod walks;
mod words;

pub use advance::{Advance, Stop};
pub use driver::{drive, processors};
pub use instruction::{Instruction, Task};
pub use laws::{
    assists_are_few, core_runs_are_accepted, core_runs_are_told, core_runs_go_on,
    core_runs_keep_quiet, core_runs_leave, ended_have_told_all, entries_are_present,
    events_are_few, five_turns_carry_out, fresh_are_at_home, fresh_are_told, nine_turns_carry_out,
    none_assist_in_version_one, others_stay_at_home, reads_go_further, transcripts_hold_all,
    turns_are_told, turns_come_nearer, turns_keep_home, turns_keep_quiet, turns_leave,
};
pub use processor::Processor;
pub use same::same_instructions;
pub use script::Script;
pub use script_laws::{each_carries_out, instructions_add_up, reading_of_text};
pub use script_refusal::{ScriptError, ScriptRefusal};
