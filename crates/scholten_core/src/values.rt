//! The choices that events make, each over plain values.
ghost use Rattle.std.specs.Prelude.{◌≡◌, cond};
ghost use Rattle.scholten_core.specs.Diffusion.{improves as improves_on, same_label, extend_label, engaged_by as engager_by, answer_to as answer};

use crate::token::Token;
use path_algebra::{PathAlgebra, laws_hold};
use road_graph::ArcNo;

/// Whether `a` is no worse than `b`.
fn no_worse<A: PathAlgebra>(algebra: A, a: A::Value, b: A::Value) -> bool
    ensures { result ≡ (A.meaning algebra).no_worse a b }
{
    laws_hold(algebra);
    A::no_worse(a, b)
}

/// Whether there is no label yet, or the value is strictly better.
pub fn improves<A: PathAlgebra>(algebra: A, value: A::Value, label: Option<A::Value>) -> bool
    ensures { result ≡ improves_on (A.meaning algebra) value label }
{
    match label {
        None => true,
        Some(old) => no_worse(algebra, value, old) && !no_worse(algebra, old, value),
    }
}

/// Whether the label is the one that an arc was last offered.
pub fn is_same<A: PathAlgebra>(algebra: A, told: Option<A::Value>, label: Option<A::Value>) -> bool
    ensures { result ≡ same_label (A.meaning algebra) told label }
{
    match (told, label) {
        (None, None) => true,
        (Some(x), Some(y)) => no_worse(algebra, x, y) && no_worse(algebra, y, x),
        _ => false,
    }
}

/// A label after one more arc, none if there is no label or the arc is refused.
pub fn extended<A: PathAlgebra>(
    algebra: A,
    label: Option<A::Value>,
    weight: u32,
) -> Option<A::Value>
    ensures { result ≡ extend_label (A.meaning algebra) label weight }
{
    match label {
        None => None,
        Some(x) => algebra.extend(x, weight),
    }
}

/// The label after a value that improves it or does not.
pub fn better_of<V: Copy>(improved: bool, value: V, label: Option<V>) -> Option<V>
    ensures { result ≡ cond improved (Some value) label }
{
    if improved { Some(value) } else { label }
}

/// The engager after a message on the arc: the first one stays.
pub fn engaged_by(engager: Option<ArcNo>, a: ArcNo) -> Option<ArcNo>
    ensures { result ≡ engager_by engager a }
{
    match engager {
        None => Some(a),
        Some(e) => Some(e),
    }
}

/// What the arc of a message holds then: it engages a neutral vertex, and any other answers it.
pub fn answer_to<V: Copy>(engager: Option<ArcNo>) -> Token<V>
    ensures { result ≡ answer engager }
{
    match engager {
        None => Token::Held,
        Some(_) => Token::Signal,
    }
}
