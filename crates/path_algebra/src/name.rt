//! The names of the algebras, as written in answer texts and on the command line.
ghost use Rattle.std.specs.Prelude.{◌≡◌};
ghost use Rattle.std.specs.Str.{bytes_eq};
ghost use Rattle.path_algebra.specs.Names.{name_text};

/// Which algebra values come from. `Own` is the name of every algebra that is not given here.
#[derive(Clone, Copy, Debug, PartialEq, Eq)]
pub enum AlgebraName {
    Shortest,
    Widest,
    Reach,
    Hops,
    Reliable,
    Within,
    Own,
}

impl AlgebraName {
    ghost use Rattle.std.specs.Prelude.{◌≡◌, ◌≤◌, length};
    ghost use Rattle.path_algebra.specs.Names.{name_text, name_of_text};

    /// The word for this name.
    pub fn text(self) -> &'static str
        ensures word { result.now ≡ name_text self }
        ensures short { length result.now ≤ 10 }
    {
        match self {
            AlgebraName::Shortest => "shortest",
            AlgebraName::Widest => "widest",
            AlgebraName::Reach => "reach",
            AlgebraName::Hops => "hops",
            AlgebraName::Reliable => "reliable",
            AlgebraName::Within => "within",
            AlgebraName::Own => "own",
        }
    }

    /// The name that a word stands for, if it is one of the seven, letter for letter.
    pub fn from_text(word: &[u8]) -> Option<AlgebraName>
        ensures { result ≡ name_of_text word.now }
    {
        if is_word(word, AlgebraName::Shortest) {
            Some(AlgebraName::Shortest)
        } else if is_word(word, AlgebraName::Widest) {
            Some(AlgebraName::Widest)
        } else if is_word(word, AlgebraName::Reach) {
            Some(AlgebraName::Reach)
        } else if is_word(word, AlgebraName::Hops) {
            Some(AlgebraName::Hops)
        } else if is_word(word, AlgebraName::Reliable) {
            Some(AlgebraName::Reliable)
        } else if is_word(word, AlgebraName::Within) {
            Some(AlgebraName::Within)
        } else if is_word(word, AlgebraName::Own) {
            Some(AlgebraName::Own)
        } else {
            None
        }
    }
}

/// Whether a word is the one for a name.
fn is_word(word: &[u8], name: AlgebraName) -> bool
    ensures { result ≡ bytes_eq word.now (name_text name) }
{
    word == name.text().as_bytes()
}
