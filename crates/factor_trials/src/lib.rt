//! The tests of orders of elimination and of factors, through what their crates make public.
//!
//! They are here and not in each crate, so that no crate is proved a second time with its tests.
#![tactic(auto)]

#[cfg(test)]
mod orders;
#[cfg(test)]
mod reweighed;
#[cfg(test)]
mod road_guard;
#[cfg(test)]
mod roads;
