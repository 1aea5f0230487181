//! Whether anything is on an arc.
ghost use Rattle.std.specs.Prelude.{◌≡◌};
ghost use Rattle.scholten_core.specs.Diffusion.{is_idle};

use crate::token::Token;

impl<V: Copy> Token<V> {
    /// Whether nothing is on the arc.
    pub fn is_idle(self) -> bool
        ensures { result ≡ is_idle self }
    {
        matches!(self, Token::Idle)
    }
}
