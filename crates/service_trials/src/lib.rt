//! The tests of services, through what their crates make public.
//!
//! They are here and not in each crate, so that no crate is proved a second time with its tests.
#![tactic(auto)]

#[cfg(test)]
mod asking;
#[cfg(test)]
mod replies;
#[cfg(test)]
mod stops;
#[cfg(test)]
mod watched;
