// SPDX-License-Identifier: MIT OR Apache-2.0
//! Worked rows of what commands answer, as text, as pictures and as JSON, by the whole program over
//! memory; and rows over streams, from files, by several checkers, and with changed bytes.
#![tactic(auto)]

#[cfg(test)]
mod all_rejections;
#[cfg(test)]
mod allowed;
#[cfg(test)]
mod crews;
#[cfg(test)]
mod explanations;
#[cfg(test)]
mod files;
#[cfg(test)]
mod json;
#[cfg(test)]
mod json_spans;
#[cfg(test)]
mod lines;
#[cfg(test)]
mod long;
#[cfg(test)]
mod many_lines;
#[cfg(test)]
mod mutated;
#[cfg(test)]
mod mutated_scripts;
#[cfg(test)]
mod outcomes;
#[cfg(test)]
mod pictures;
#[cfg(test)]
mod span_outcomes;
#[cfg(test)]
mod span_pictures;
#[cfg(test)]
mod spans;
#[cfg(test)]
mod streams;
#[cfg(test)]
mod tests;
#[cfg(test)]
mod texts;
#[cfg(test)]
mod traces;
#[cfg(test)]
mod words;
