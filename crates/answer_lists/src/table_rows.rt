//! The codes from one vertex to others: a row of a table.
ghost use Rattle.std.specs.Prelude.{◌≡◌, IfOk, IfSome, IsSome, None, OnOk};
ghost use Rattle.std.specs.List.{All};
ghost use Rattle.road_graph.specs.GraphData.{HasVertex};
ghost use Rattle.path_plain.specs.Searcher.{IsOfSameGraph};
ghost use Rattle.route_tree.specs.Searchers.{IsSearcherOf};
ghost use Rattle.answer_lists.specs.Table.{AreRowCodes, IsTableCode};
ghost use Rattle.answer_lists.specs.Tree.{HasLowCodes};

use crate::codes::{code_for, push_code};
use crate::shared_graph::SharedGraph;
use halting::{Halt, Stop, is_stopped};
use path_algebra::{PathAlgebra, laws_hold};
use path_plain::Searcher;
use road_graph::{Memory, OutGraph, Vertex};

/// The source of a row, and the targets of its table.
#[derive(Clone, Copy)]
pub(crate) struct RowEnds<'t> {
    pub(crate) source: Vertex,
    pub(crate) targets: &'t [u32],
}

/// The searcher of the row before, or a new one if there is none.
fn take_searcher<A: PathAlgebra>(
    algebra: A,
    shared: &SharedGraph,
    kept: &mut Option<Searcher<A>>,
) -> Result<Searcher<A>, Memory>
    requires { IfSome kept.old (IsSearcherOf algebra shared.now.roads) }
    ensures searcher { IfOk result (IsSearcherOf algebra shared.now.roads) }
    ensures taken { kept.new ≡ None }
{
    match kept.take() {
        Some(searcher) => Ok(searcher),
        None => Searcher::new(shared.alloc(), algebra, shared.graph()),
    }
}

/// The code of a target, by a search that goes on as far as it needs; none if the stop is set
/// before.
fn searched_code<A: PathAlgebra>(
    graph: &OutGraph,
    searcher: &mut Searcher<A>,
    stop: &Option<Stop>,
    source: Vertex,
    target: Vertex,
) -> Result<Option<u64>, Memory>
    requires low { HasLowCodes (A.meaning searcher.old.algebra) }
    requires searcher { searcher.old.roads ≡ graph.now }
    requires source { HasVertex graph.now source }
    requires target { HasVertex graph.now target }
    ensures searcher { IsOfSameGraph searcher.old searcher.new }
    ensures code { IfOk result (λ code. IfSome code (IsTableCode (A.meaning searcher.old.algebra)
        graph.now source target)) }
    ensures stopped { IfOk result (λ code. code ≡ None → IsSome stop.now) }
{
    let algebra = searcher.algebra();
    graph.holds();
    laws_hold(algebra);
    if is_stopped(stop) {
        return Ok(None);
    }
    if !searcher.solve_unless(graph, source, target, &mut Halt::by(stop))? {
        return Ok(None);
    }
    let label = searcher.labels().of(target);
    Ok(Some(code_for(algebra, label)))
}

/// The codes from one source, by a search: for each target it goes on as far as it needs. One that
/// is kept from a row of the same source goes on too. None if the stop is set before.
fn searched_row<A: PathAlgebra>(
    algebra: A,
    shared: &SharedGraph,
    kept: &mut Option<Searcher<A>>,
    stop: &Option<Stop>,
    ends: &RowEnds<'_>,
) -> Result<Option<Vec<u64>>, Memory>
    requires low { HasLowCodes (A.meaning algebra) }
    requires kept { IfSome kept.old (IsSearcherOf algebra shared.now.roads) }
    requires source { HasVertex shared.now.roads ends.now.source }
    requires targets { All (HasVertex shared.now.roads) ends.now.targets.now }
    ensures kept { OnOk result (IfSome kept.new (IsSearcherOf algebra shared.now.roads)) }
    ensures row { IfOk result (λ row. IfSome row (λ row. AreRowCodes (A.meaning algebra)
        shared.now.roads ends.now.targets.now ends.now.source row.items)) }
    ensures stopped { IfOk result (λ row. row ≡ None → IsSome stop.now) }
{
    let (graph, source) = (shared.graph(), ends.source);
    let mut searcher = take_searcher(algebra, shared, kept)?;
    let mut row = Vec::with_capacity(shared.alloc(), ends.targets.len())?;
    for target in ends.targets {
        let target = Vertex(*target);
        let Some(code) = searched_code(graph, &mut searcher, stop, source, target)? else {
            return Ok(None);
        };
        push_code(&mut row, code)?;
    }
    *kept = Some(searcher);
    Ok(Some(row))
}

/// The codes from one source; none if the stop is set before.
pub(crate) fn row<A: PathAlgebra>(
    algebra: A,
    shared: &mut SharedGraph,
    kept: &mut Option<Searcher<A>>,
    stop: &Option<Stop>,
    ends: &RowEnds<'_>,
) -> Result<Option<Vec<u64>>, Memory>
    requires low { HasLowCodes (A.meaning algebra) }
    requires kept { IfSome kept.old (IsSearcherOf algebra shared.old.roads) }
    requires source { HasVertex shared.old.roads ends.now.source }
    requires targets { All (HasVertex shared.old.roads) ends.now.targets.now }
    ensures graph { shared.new ≡ shared.old }
    ensures kept { OnOk result (IfSome kept.new (IsSearcherOf algebra shared.old.roads)) }
    ensures row { IfOk result (λ row. IfSome row (λ row. AreRowCodes (A.meaning algebra)
        shared.old.roads ends.now.targets.now ends.now.source row.items)) }
    ensures stopped { IfOk result (λ row. row ≡ None → IsSome stop.now) }
{
    let Some(mut factored) = shared.take_factored(algebra) else {
        return searched_row(algebra, shared, kept, stop, ends);
    };
    let row = factored.row(algebra, stop, ends);
    shared.put_factored(factored);
    row
}
