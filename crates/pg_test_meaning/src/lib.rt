// SPDX-License-Identifier: MIT OR Apache-2.0
//! Tests of the machine, of the runs that a yes stands for, and of the causes of rejections.
#![tactic(auto)]

#[cfg(test)]
mod causes;
#[cfg(test)]
mod certificates;
#[cfg(test)]
mod denials;
#[cfg(test)]
mod explanations;
#[cfg(test)]
mod given;
#[cfg(test)]
mod machine;
#[cfg(test)]
mod orders;
#[cfg(test)]
mod outcomes;
#[cfg(test)]
mod refutations;
#[cfg(test)]
mod runs;
#[cfg(test)]
mod searches;
#[cfg(test)]
mod summaries;
#[cfg(test)]
mod windows;
#[cfg(test)]
mod written;
#[cfg(test)]
mod written_words;
