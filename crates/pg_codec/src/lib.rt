// SPDX-License-Identifier: MIT OR Apache-2.0
//! Records as bytes: readers and writers over any stream, and streams whose failures are counted.
#![tactic(auto)]

mod block;
mod buffer;
mod chunk;
mod decoder;
mod error;
mod fields;
mod front;
mod intake;
mod naming;
mod number;
mod parts;
mod reader;
mod series;
mod settings;
mod spelling;
mod stage;
mod stream;
mod transfer;
mod watched;
mod writer;

pub use block::Block;
pub use buffer::refill_slice;
pub use decoder::{event_of, fields_of, last_tag};
pub use error::ReadError;
pub use fields::{byte_of, processor_number, u16_of, u32_of, u64_of};
pub use front::{cfg_of, magic_of, settings_after, start_of, version_of};
pub use intake::{IntakeError, pull_all};
pub use naming::Naming;
pub use reader::RecordReader;
pub use settings::Settings;
pub use spelling::{
    push_bare, push_end, push_event_head, push_segment_head, push_settings, push_start,
};
pub use stream::{Failed, Sink, Source};
pub use transfer::put_all;
pub use watched::Watched;
pub use writer::{write_end, write_header, write_record, write_segment};
