//! The tests of texts, files, answers and verdicts, through what their crates make public.
//!
//! They are here and not in each crate, so that no crate is proved a second time with its tests.
#![tactic(auto)]

#[cfg(test)]
mod answers;
#[cfg(test)]
mod digits;
mod ends;
#[cfg(test)]
mod faults;
#[cfg(test)]
mod files;
#[cfg(test)]
mod lines;
#[cfg(test)]
mod long_texts;
#[cfg(test)]
mod orders;
#[cfg(test)]
mod pages;
#[cfg(test)]
mod verdicts;

pub use ends::{Pieces, Sheet};
