//! What the name of an input leads to.
ghost use Rattle.std.specs.Prelude.{refl};
ghost use Rattle.command_files.specs.Inputs.{opened_input};

use text_lines::{ReadFailed, RoadRead};

/// An input that was opened.
#[derive(Drop)]
pub enum OpenedInput<F, G> {
    /// The file of a name.
    File(F),
    /// Standard input, which is named `-`.
    Stdin(G),
}

impl<F: RoadRead, G: RoadRead> RoadRead for OpenedInput<F, G> {
    ghost seen = { opened_input F.seen G.seen };

    fn read(&mut self, buf: &mut [u8]) -> Result<usize, ReadFailed> {
        match self {
            OpenedInput::File(file) => file.read(buf),
            OpenedInput::Stdin(stdin) => stdin.read(buf),
        }
    }

    ghost itself = { λ _. refl };
}
