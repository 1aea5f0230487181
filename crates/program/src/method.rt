//! How a command answers.
use batch_run::Settings;
use path_algebra::AlgebraChoice;
use std::alloc::Global;

/// How questions are answered, and under which algebra.
#[derive(Drop)]
pub struct Method<'t, R> {
    /// Starts threads.
    pub rt: &'t R,
    /// Gives memory.
    pub alloc: Global,
    pub settings: &'t Settings,
    pub chosen: AlgebraChoice,
}
