// SPDX-License-Identifier: MIT OR Apache-2.0
//! A search for an order of events with spans in which a machine may have had them. Nothing is
//! claimed of what it finds: who calls it checks the order, and certifies the events in it.
#![tactic(auto)]

mod asked;
mod deduced;
mod drops;
mod edges;
mod facts;
mod found;
mod keys;
mod learned;
mod lists;
mod looked;
mod made;
mod numbers;
mod ranges;
mod repair;
mod search;
mod stays;
mod sure;
mod sweep;
mod versions;
mod witness;

pub use search::{Sought, find_order};
