//! The given algebras in one list: which of them is chosen, by its name or by its number, and what
//! is computed under it.
use crate::algebra::PathAlgebra;
use crate::name::AlgebraName;
use crate::within::Within;

/// One of the six algebras that are given here.
#[derive(Clone, Copy, Debug)]
pub enum AlgebraChoice {
    Shortest,
    Widest,
    Reach,
    Hops,
    Reliable,
    Within(Within),
}

/// The value of an expression with the algebra that was chosen. A choice becomes a type here alone.
#[macro_export]
macro_rules! with_algebra {
    ($chosen:expr, |$algebra:ident| $value:expr) => {
        match $chosen {
            $crate::AlgebraChoice::Shortest => {
                let $algebra = $crate::Shortest;
                $value
            }
            $crate::AlgebraChoice::Widest => {
                let $algebra = $crate::Widest;
                $value
            }
            $crate::AlgebraChoice::Reach => {
                let $algebra = $crate::Reach;
                $value
            }
            $crate::AlgebraChoice::Hops => {
                let $algebra = $crate::Hops;
                $value
            }
            $crate::AlgebraChoice::Reliable => {
                let $algebra = $crate::Reliable;
                $value
            }
            $crate::AlgebraChoice::Within($algebra) => $value,
        }
    };
}

impl AlgebraChoice {
    ghost use Rattle.std.specs.Prelude.{◌≡◌, ◌↔◌, IsSome, IfSome};
    ghost use Rattle.path_algebra.specs.Choices.{GoTogether, IsAlgebra, IsNumbered, limit_of, name_of};

    /// The algebra of a name, with a limit if it is `within`; none if the two do not go together.
    pub fn named(name: AlgebraName, limit: Option<u64>) -> Option<AlgebraChoice>
        ensures together { IsSome result ↔ GoTogether name limit }
        ensures name { IfSome result (λ chosen. name_of chosen ≡ name) }
        ensures limit { IfSome result (λ chosen. limit_of chosen ≡ limit) }
    {
        match (name, limit) {
            (AlgebraName::Shortest, None) => Some(AlgebraChoice::Shortest),
            (AlgebraName::Widest, None) => Some(AlgebraChoice::Widest),
            (AlgebraName::Reach, None) => Some(AlgebraChoice::Reach),
            (AlgebraName::Hops, None) => Some(AlgebraChoice::Hops),
            (AlgebraName::Reliable, None) => Some(AlgebraChoice::Reliable),
            (AlgebraName::Within, Some(limit)) => Within::new(limit).map(AlgebraChoice::Within),
            _ => None,
        }
    }

    /// The algebra of a number, counted from 0 in the order above; none if there is no such number,
    /// or the limit is above 2^63. Only `within` takes the limit.
    pub fn numbered(number: u32, limit: u64) -> Option<AlgebraChoice>
        ensures some { IsSome result ↔ IsAlgebra number limit }
        ensures chosen { IfSome result (IsNumbered number limit) }
    {
        match number {
            0 => Some(AlgebraChoice::Shortest),
            1 => Some(AlgebraChoice::Widest),
            2 => Some(AlgebraChoice::Reach),
            3 => Some(AlgebraChoice::Hops),
            4 => Some(AlgebraChoice::Reliable),
            5 => Within::new(limit).map(AlgebraChoice::Within),
            _ => None,
        }
    }

    /// The name of the algebra.
    pub fn name(self) -> AlgebraName
        ensures { result ≡ name_of self }
    {
        with_algebra!(self, |algebra| algebra.name())
    }
}
