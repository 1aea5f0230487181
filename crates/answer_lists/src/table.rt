//! The codes of the best values from some vertices to others, written to a list of the caller.
ghost use Rattle.std.specs.Prelude.{◌≡◌, ◌↔◌, ◌*◌, ◌∷◌, [], pos, IfOk, IfSome, IsSome, IsTrue, None};
ghost use Rattle.path_algebra.specs.Choices.{OfAlgebra, Under};
ghost use Rattle.answer_lists.specs.Answers.{IsOneOf, ReportsListRefusals};
ghost use Rattle.answer_lists.specs.Table.{AreEndsIn, AreTableCodes, HasPlaces};
ghost use Rattle.answer_lists.specs.Tree.{HasLowCodes};

use crate::algebra_number::AlgebraNumber;
use crate::shared_graph::SharedGraph;
use crate::sources::are_vertices;
use crate::status::{DONE, MEMORY, NO_ALGEBRA, NO_ROOM, NO_VERTEX, STOPPED};
use crate::table_rows::{RowEnds, row};
use halting::Stop;
use path_algebra::{AlgebraChoice, PathAlgebra, with_algebra};
use road_graph::{Memory, Vertex};

/// The sources and the targets of a table, as a caller lends them.
#[derive(Clone, Copy)]
pub struct TableEnds<'t> {
    pub sources: &'t [u32],
    pub targets: &'t [u32],
}

/// The codes from each source, one row after the other; none if the stop is set before.
fn table<A: PathAlgebra>(
    algebra: A,
    shared: &mut SharedGraph,
    stop: &Option<Stop>,
    ends: &TableEnds<'_>,
) -> Result<Option<Vec<u64>>, Memory>
    requires low { HasLowCodes (A.meaning algebra) }
    requires ends { AreEndsIn shared.old.roads ends.now.sources.now ends.now.targets.now }
    ensures graph { shared.new ≡ shared.old }
    ensures table { IfOk result (λ codes. IfSome codes (λ codes. AreTableCodes (A.meaning algebra)
        shared.old.roads ends.now.sources.now ends.now.targets.now codes.items)) }
    ensures stopped { IfOk result (λ codes. codes ≡ None → IsSome stop.now) }
{
    let mut codes = Vec::new(shared.alloc());
    let mut kept = None;
    for source in ends.sources {
        let row_ends = RowEnds {
            source: Vertex(*source),
            targets: ends.targets,
        };
        let Some(row) = row(algebra, shared, &mut kept, stop, &row_ends)? else {
            return Ok(None);
        };
        codes.extend_from_slice(&row)?;
    }
    Ok(Some(codes))
}

/// Finds a table and writes it.
fn answer<A: PathAlgebra>(
    algebra: A,
    shared: &mut SharedGraph,
    stop: &Option<Stop>,
    ends: &TableEnds<'_>,
    codes: &mut [u64],
) -> i32
    requires low { HasLowCodes (A.meaning algebra) }
    requires ends { AreEndsIn shared.old.roads ends.now.sources.now ends.now.targets.now }
    requires places { HasPlaces ends.now.sources.now ends.now.targets.now codes.old }
    ensures graph { shared.new ≡ shared.old }
    ensures table { result ≡ pos 0 → AreTableCodes (A.meaning algebra) shared.old.roads
        ends.now.sources.now ends.now.targets.now codes.new }
    ensures kept { (result ≡ pos 0 → ⊥) → codes.new ≡ codes.old }
    ensures stopped { result ≡ pos 45 → IsSome stop.now }
    ensures status { IsOneOf (0 ∷ 3 ∷ 45 ∷ []) result }
{
    match table(algebra, shared, stop, ends) {
        Ok(Some(list)) => {
            codes.copy_from_slice(&list);
            DONE
        }
        Ok(None) => STOPPED,
        Err(Memory) => MEMORY,
    }
}

/// Finds a table by the chosen algebra and writes it.
fn answer_chosen(
    chosen: AlgebraChoice,
    shared: &mut SharedGraph,
    stop: &Option<Stop>,
    ends: &TableEnds<'_>,
    codes: &mut [u64],
) -> i32
    requires ends { AreEndsIn shared.old.roads ends.now.sources.now ends.now.targets.now }
    requires places { HasPlaces ends.now.sources.now ends.now.targets.now codes.old }
    ensures graph { shared.new ≡ shared.old }
    ensures table { result ≡ pos 0 → Under chosen (λ V A. AreTableCodes A shared.old.roads
        ends.now.sources.now ends.now.targets.now codes.new) }
    ensures kept { (result ≡ pos 0 → ⊥) → codes.new ≡ codes.old }
    ensures stopped { result ≡ pos 45 → IsSome stop.now }
    ensures status { IsOneOf (0 ∷ 3 ∷ 45 ∷ []) result }
{
    with_algebra!(chosen, |algebra| answer(algebra, shared, stop, ends, codes))
}

/// Whether a list has just one place for each pair of a source and a target.
fn has_places(sources: usize, targets: usize, places: usize) -> bool
    ensures { IsTrue result ↔ (places ≡ sources * targets) }
{
    match sources.checked_mul(targets) {
        Some(pairs) => pairs == places,
        None => false,
    }
}

/// Finds a table by the algebra of a number and writes it, if each source and each target is a
/// vertex, there is just one place for each pair of them, and there is such an algebra. It ends
/// without an answer soon after the stop is set, if there is one.
#[tactic(auto, using(path_algebra::proofs::Chosen::of_numbered))]
pub fn answer_table(
    by: AlgebraNumber,
    shared: &mut SharedGraph,
    stop: &Option<Stop>,
    ends: &TableEnds<'_>,
    codes: &mut [u64],
) -> i32
    ensures graph { shared.new ≡ shared.old }
    ensures table { result ≡ pos 0 → OfAlgebra by.algebra by.limit (λ V A. AreTableCodes A
        shared.old.roads ends.now.sources.now ends.now.targets.now codes.new) }
    ensures kept { (result ≡ pos 0 → ⊥) → codes.new ≡ codes.old }
    ensures refusals { ReportsListRefusals (AreEndsIn shared.old.roads
        ends.now.sources.now ends.now.targets.now)
        (HasPlaces ends.now.sources.now ends.now.targets.now codes.old) by.algebra by.limit result }
    ensures stopped { result ≡ pos 45 → IsSome stop.now }
    ensures status { IsOneOf (0 ∷ 2 ∷ 3 ∷ 17 ∷ 43 ∷ 45 ∷ []) result }
{
    let graph = shared.graph();
    if !are_vertices(graph, ends.sources) || !are_vertices(graph, ends.targets) {
        return NO_VERTEX;
    }
    if !has_places(ends.sources.len(), ends.targets.len(), codes.len()) {
        return NO_ROOM;
    }
    let Some(chosen) = AlgebraChoice::numbered(by.algebra, by.limit) else {
        return NO_ALGEBRA;
    };
    answer_chosen(chosen, shared, stop, ends, codes)
}
