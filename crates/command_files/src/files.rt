//! The files and the standard input of a command, and its stopwatch.
ghost use Rattle.std.specs.Prelude.{◌≡◌, ℕ, List, Bool, IfOk};

use crate::opening::STDIN_NAME;
use crate::times::{Phase, Stopwatch, Times};
use std::fs;
use std::fs::Metadata;
use std::os::unix::fs::MetadataExt;
use std::rt::Files;
use std::time::Clock;
use text_lines::{Plain, ReadFailed, RoadRead, RoadWrite, WriteFault};

/// Files by their names, read or written, standard input, and a stopwatch, if there is one. A test
/// may bring its own.
pub trait FileSystem {
    /// A file that was opened.
    type File: RoadRead + Drop;

    /// Standard input.
    type Stdin: RoadRead + Drop;

    /// A file that was created.
    type NewFile: RoadWrite;

    // Trying to open the file of this name, once, leads from the first state to the second, if the
    // type says so.
    ghost opens: { Self → List ℕ → Self → Type 0 } = { λ _ _ _. Unit {0} };

    // Trying to create the file of this name, once, leads from the first state to the second, if
    // the type says so.
    ghost creates: { Self → List ℕ → Self → Type 0 } = { λ _ _ _. Unit {0} };

    // Asking whether two names are those of one file on a disk is answered like this, if the type
    // says so. `-` is standard input.
    ghost tells_same: { Self → List ℕ → List ℕ → Bool → Type 0 } = { λ _ _ _ _. Unit {0} };

    /// Opens the file of a name. Nothing has been read of it.
    fn open(&mut self, path: &str) -> Result<Self::File, ReadFailed>
        ensures opens { opens self.old path.now self.new }
        ensures unread { IfOk result (λ file. (Self.File.seen file).asked ≡ 0) };

    /// Creates the file of a name, or empties it.
    fn create(&mut self, path: &str) -> Result<Self::NewFile, WriteFault>
        ensures creates { creates self.old path.now self.new };

    /// Whether both names lead to one file on a disk. `-` is standard input.
    fn is_same_file(&self, path: &str, other: &str) -> bool
        ensures tells { tells_same self.now path.now other.now result };

    /// Standard input. Nothing has been read of it.
    fn stdin(&self) -> Self::Stdin
        ensures unread { (Self.Stdin.seen result).asked ≡ 0 };

    /// Starts the stopwatch, if that is wanted.
    fn measure(&self, _wanted: bool) {}

    /// The command begins this, and ends what it did before.
    fn enter(&self, _phase: Phase) {}

    /// Stops the stopwatch, and gives its times, if it was started.
    fn times(&self) -> Option<Times> {
        None
    }
}

/// The files and the standard input of the system, and a stopwatch by its clock.
#[derive(Clone, Copy)]
pub struct HostFiles<'s, 'a, R> {
    pub rt: &'a R,
    pub stopwatch: &'s Stopwatch<'a, R>,
}

/// What the system knows of the file of a name, if there is one. `-` is standard input.
fn metadata_of<R: Files>(rt: &R, path: &str) -> Option<Metadata> {
    let path = if path == STDIN_NAME {
        "/dev/fd/0"
    } else {
        path
    };
    fs::metadata(rt, path).ok()
}

impl<R: Files + Input + Clock> FileSystem for HostFiles<'_, '_, R> {
    type File = Plain<R::File>;

    type Stdin = Plain<R::Reader>;

    type NewFile = Plain<R::File>;

    fn open(&mut self, path: &str) -> Result<Plain<R::File>, ReadFailed> {
        match fs::File::open(self.rt, path) {
            Ok(file) => Ok(Plain::new(file)),
            Err(_) => Err(ReadFailed),
        }
    }

    fn create(&mut self, path: &str) -> Result<Plain<R::File>, WriteFault> {
        match fs::File::create(self.rt, path) {
            Ok(file) => Ok(Plain::new(file)),
            Err(_) => Err(WriteFault),
        }
    }

    fn is_same_file(&self, path: &str, other: &str) -> bool {
        match (metadata_of(self.rt, path), metadata_of(self.rt, other)) {
            (Some(one), Some(two)) => {
                one.is_file() && one.dev() == two.dev() && one.ino() == two.ino()
            }
            _ => false,
        }
    }

    fn stdin(&self) -> Plain<R::Reader> {
        Plain::new(self.rt.reader())
    }

    fn measure(&self, wanted: bool) {
        if wanted {
            self.stopwatch.start();
        }
    }

    fn enter(&self, phase: Phase) {
        self.stopwatch.enter(phase);
    }

    fn times(&self) -> Option<Times> {
        self.stopwatch.stop()
    }
}
