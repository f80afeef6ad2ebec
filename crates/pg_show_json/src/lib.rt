// SPDX-License-Identifier: MIT OR Apache-2.0
//! Answers as JSON: events, reports, causes of rejections, and what bad events have in common.
#![tactic(auto)]

mod causes;
mod entries;
mod events;
mod fields;
mod findings;
mod lasts;
mod reports;
mod tallies;

pub use causes::{denial_json, explanation_json};
pub use entries::{number_json, put_held, walk_json};
pub use events::{began_fields, claim_json, event_fields, event_json, op_name, outcome_json};
pub use fields::{
    Fields, hex_json, line_of, list_of, numbers_json, object_of, put_count, put_flag, put_hex,
    put_text,
};
pub use reports::{put_counts, put_no, put_report, put_yes};
pub use tallies::{addresses_json, tallies_json};
