// SPDX-License-Identifier: MIT OR Apache-2.0
//! Tests of the public calls by which records are read, judged and made: the past that is asked,
//! readers and checkers; shadows, worlds, scripts, processors, and runs by one thread and many.
#![tactic(auto)]

#[cfg(test)]
mod boards;
#[cfg(test)]
mod codec;
#[cfg(test)]
mod controls;
#[cfg(test)]
mod drops;
#[cfg(test)]
mod histories;
#[cfg(test)]
mod logs;
#[cfg(test)]
mod merging;
#[cfg(test)]
mod processors;
#[cfg(test)]
mod progress;
#[cfg(test)]
mod receipts;
#[cfg(test)]
mod rounds;
#[cfg(test)]
mod scans;
#[cfg(test)]
mod scripts;
#[cfg(test)]
mod shadows;
#[cfg(test)]
mod single_runs;
#[cfg(test)]
mod spanned;
#[cfg(test)]
mod threads;
#[cfg(test)]
mod witnessed;
#[cfg(test)]
mod words;
#[cfg(test)]
mod worlds;
#[cfg(test)]
mod written;
