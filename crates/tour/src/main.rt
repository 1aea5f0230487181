//! A tour of the library in three examples, each of which prints what it found.
#![tactic(auto)]

mod fault;
mod in_memory;
mod own_algebra;
mod own_threads;
mod stops;

use fault::Fault;

fn main(rt: HostRuntime) -> Result<(), Fault> {
    in_memory::show(&rt)?;
    own_algebra::show(&rt)?;
    own_threads::show(&rt)
}
