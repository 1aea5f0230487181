//! The tests of parts, mailboxes, stations and workers, through what their crates make public.
//!
//! They are here and not in each crate, so that no crate is proved a second time with its tests.
#![tactic(auto)]

#[cfg(test)]
mod graphs;
#[cfg(test)]
mod mailboxes;
#[cfg(test)]
mod parts;
#[cfg(test)]
mod stations;
#[cfg(test)]
mod workers;
