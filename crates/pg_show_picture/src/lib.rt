// SPDX-License-Identifier: MIT OR Apache-2.0
//! A picture of the cause of a rejection.
#![tactic(auto)]

mod named;
mod painter;
mod placer;
mod rows;
mod shapes;

pub use painter::picture_text;
pub use placer::{Arrow, Deed, EntryBox, EventBox, Lane, Layout, Role, lay_out};
