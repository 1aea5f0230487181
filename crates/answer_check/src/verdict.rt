//! The result of a check.

ghost use Rattle.std.specs.Prelude.{◌≡◌};

/// Why a place of an answer list is wrong.
#[derive(Clone, Copy, Debug, PartialEq, Eq)]
pub enum Reason {
    /// The header, the question that an answer names, or the line of a source is not the right one.
    Mismatch,
    /// The value is not the best.
    NotBest,
    /// The code is that of no value, or the parent does not give this value.
    NoParent,
    /// The hops are not the right ones.
    OtherHops,
    /// A lesser vertex could be the parent.
    LesserParent,
    /// A walk with a value leads there, and the answer says that there is none.
    HasWalk,
    /// The route is not the right one.
    OtherRoute,
}

impl Reason {
    ghost use Rattle.std.specs.Prelude.{◌≡◌};
    ghost use Rattle.answer_check.specs.Reasons.{reason_number};

    /// The number of a reason, 1 to 7.
    pub fn number(self) -> u32
        ensures { result ≡ reason_number self }
    {
        match self {
            Reason::Mismatch => 1,
            Reason::NotBest => 2,
            Reason::NoParent => 3,
            Reason::OtherHops => 4,
            Reason::LesserParent => 5,
            Reason::HasWalk => 6,
            Reason::OtherRoute => 7,
        }
    }
}

/// Whether an answer list is right, and if not, the first place where it is wrong.
#[derive(Clone, Copy, Debug, PartialEq, Eq)]
pub enum Verdict {
    Valid,
    /// Questions and vertices are numbered from 1. Question 0 is the whole list, and vertex 0 the
    /// whole answer.
    Invalid {
        question: usize,
        vertex: u32,
        reason: Reason,
    },
}
