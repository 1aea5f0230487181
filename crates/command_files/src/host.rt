//! What a command works with.

use crate::files::FileSystem;
use text_lines::RoadWrite;

/// The types of what a command works with.
pub trait Streams {
    /// Files by their names, and standard input.
    type Files: FileSystem + Drop;

    /// An output.
    type Out: RoadWrite;

    /// An error output.
    type Errors: RoadWrite;
}

impl<P: FileSystem + Drop, W: RoadWrite, E: RoadWrite> Streams for (P, W, E) {
    type Files = P;

    type Out = W;

    type Errors = E;
}

/// Files by their names and standard input, an output, and an error output.
#[derive(Drop)]
pub struct Host<S: Streams> {
    pub files: S::Files,
    pub out: S::Out,
    pub errors: S::Errors,
}
