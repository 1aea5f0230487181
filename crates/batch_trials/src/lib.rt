//! The tests of batches at gates and at their ends, of an algebra of a caller's own, and of the words
//! of a command line, through what their crates make public.
//!
//! They are here in place of each crate's own, so that no crate is proved a second time with its
//! tests.
#![tactic(auto)]

#[cfg(test)]
mod batches;
#[cfg(test)]
mod commands;
#[cfg(test)]
mod ends;
#[cfg(test)]
mod gates;
#[cfg(test)]
mod texts;
#[cfg(test)]
mod tolls;
#[cfg(test)]
mod turns;
