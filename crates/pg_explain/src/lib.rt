// SPDX-License-Identifier: MIT OR Apache-2.0
//! Events as lines for a person, and the cause of a rejection.
#![tactic(auto)]

mod bad_events;
mod denial;
mod denial_lines;
mod dropped;
mod end_finding;
mod entry;
mod explainer;
mod filter;
mod finding;
mod finding_text;
mod flag_finding;
mod given;
mod lacking;
mod last_lines;
mod laws;
mod line;
mod names;
mod tallier;
mod tally_lines;
mod text;
mod translation_drop;
mod walk_end;
mod walk_finding;
mod walk_text;
mod writer_index;

pub use bad_events::{Bad, bads, bads_are_exact};
pub use denial::{Denial, denials_among_kept, deny, deny_event};
pub use denial_lines::{denial_text_by, push_claim_line, takers_in};
pub use entry::{WalkEntry, walk_by};
pub use explainer::{Explanation, explain, explain_with};
pub use filter::{fits, is_marked, marks_of, pages_show_their_drops, shown_text};
pub use finding::{Finding, Limit, Misfit, Prevention, Tagged, Wish};
pub use finding_text::{push_finding, push_numbered};
pub use last_lines::{Takers, push_last_moments, taken_in, taker};
pub use laws::{
    findings_stand_behind_reasons, others_leave_the_word, unwritten_words_stay,
    writers_leave_the_word,
};
pub use line::{event_at, processor_at};
pub use names::{level_number, rights_text};
pub use tallier::{Tally, counts_add_up, tallies};
pub use tally_lines::tally_text;
pub use text::{deed_name, explanation_text, push_last};
pub use walk_end::down_to_end;
pub use walk_finding::is_table;
pub use walk_text::{kind_name, push_entry};
pub use writer_index::WriterIndex;
