//! The codes of values, and the number that is written if there is no value.
ghost use Rattle.std.specs.Prelude.{◌≡◌, ◌∷◌, ◌++◌, [], OnOk};
ghost use Rattle.answer_lists.specs.Tree.{code_for};

use path_algebra::PathAlgebra;
use road_graph::Memory;
use std::alloc::AllocError;

/// The code of a vertex without a value.
pub(crate) const NO_CODE: u64 = u64::MAX;

/// The code of a value, or the number for none.
pub(crate) fn code_for<A: PathAlgebra>(algebra: A, value: Option<A::Value>) -> u64
    ensures { result ≡ code_for (A.meaning algebra) value }
{
    match value {
        Some(value) => algebra.code(value),
        None => NO_CODE,
    }
}

/// Adds a code to a row.
pub(crate) fn push_code(row: &mut Vec<u64>, code: u64) -> Result<(), Memory>
    ensures { OnOk result (row.new.items ≡ row.old.items ++ (code ∷ [])) }
{
    row.push(code).map_err(AllocError::from)?;
    Ok(())
}
