//! The call that answers with a table of codes.
ghost use Rattle.std.specs.Prelude.{◌≡◌, ◌↔◌, ◌∷◌, [], pos, IsSome, None};
ghost use Rattle.path_algebra.specs.Choices.{OfAlgebra};
ghost use Rattle.answer_lists.specs.Answers.{IsOneOf, ReportsListRefusals};
ghost use Rattle.answer_lists.specs.Table.{AreEndsIn, AreTableCodes, HasPlaces};
ghost use Rattle.diffuse_c.specs.Holding.{OfGraph};
ghost use Rattle.diffuse_c.specs.Keeping.{KeepsHeld};

use crate::handle::{DiffuseGraph, put, take};
use crate::owners::Owner;
use crate::status::CLOSED;
use answer_lists::{AlgebraNumber, TableEnds, answer_table};
use std::alloc::Global;

/// The best value from each of some sources to each of some targets, as a code, by the algebra of a
/// number: a row for each source, with a code for each target.
///
/// A target that no walk with a value leads to has the code 2^64 - 1.
#[unsafe(no_mangle)]
pub extern "C" fn diffuse_graph_table(
    alloc: Global,
    handle: &mut DiffuseGraph,
    algebra: u32,
    limit: u64,
    sources: &[u32],
    targets: &[u32],
    codes: &mut [u64],
) -> i32
    ensures kept { KeepsHeld handle.old.held handle.new.held }
    ensures table { OfGraph handle.old.held.shared (λ g. result ≡ pos 0 → OfAlgebra algebra limit
        (λ V A. AreTableCodes A g sources.now targets.now codes.new)) }
    ensures places { (result ≡ pos 0 → ⊥) → codes.new ≡ codes.old }
    ensures refusals { OfGraph handle.old.held.shared (λ g. ReportsListRefusals
        (AreEndsIn g sources.now targets.now) (HasPlaces sources.now targets.now codes.old)
        algebra limit result) }
    ensures closed { (result ≡ pos 4) ↔ (handle.old.held.shared ≡ None) }
    ensures stopped { result ≡ pos 45 → IsSome handle.old.held.stop }
    ensures status { IsOneOf (0 ∷ 2 ∷ 3 ∷ 4 ∷ 17 ∷ 43 ∷ 45 ∷ []) result }
{
    let Some(mut owner) = take(alloc, handle) else {
        return CLOSED;
    };
    let Owner { shared, stop, .. } = &mut *owner;
    let by = AlgebraNumber { algebra, limit };
    let ends = TableEnds { sources, targets };
    let status = answer_table(by, shared, stop, &ends, codes);
    put(handle, owner);
    status
}
