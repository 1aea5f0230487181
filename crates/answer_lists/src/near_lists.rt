//! The four lists of a caller to which what a kept searcher reached is written.
ghost use Rattle.std.specs.Prelude.{◌≡◌, ◌≤◌, ◌↔◌, IsTrue, length, map, pos, take};
ghost use Rattle.std.specs.List.{All};
ghost use Rattle.road_graph.specs.GraphData.{HasVertex};
ghost use Rattle.answer_lists.specs.Answers.{IsFound};
ghost use Rattle.answer_lists.specs.Near.{AreLongOrNone, BeginsOrNone, IsLongOrNone, IsSameAfter, IsWrittenNear, code_at, hops_at, parent_at};

use crate::codes::code_for;
use crate::route::copy;
use crate::status::{DONE, NO_ROOM};
use crate::tree_lists::{hops_for, parent_for};
use path_algebra::PathAlgebra;
use tree_search::TreeSearcher;

/// The lists of what is reached, as a caller lends them to be written: the vertices, of each the
/// code, the hops and the parent, and how many there are. A list without places is not wanted.
#[derive(Drop)]
pub struct NearLists<'a> {
    pub vertices: &'a mut [u32],
    pub codes: &'a mut [u64],
    pub hops: &'a mut [u32],
    pub parents: &'a mut [u32],
    pub count: &'a mut usize,
}

/// Writes the vertices that are reached, if the list is wanted.
fn write_vertices<A: PathAlgebra>(found: &TreeSearcher<A>, vertices: &mut [u32])
    requires { IsLongOrNone (length found.now.reached) (length vertices.old) }
    ensures list { BeginsOrNone (length found.now.reached) vertices.new found.now.reached }
    ensures rest { IsSameAfter (length found.now.reached) vertices.old vertices.new }
{
    if vertices.is_empty() {
        return;
    }
    copy(found.reached(), vertices);
}

/// Writes their codes, if the list is wanted.
fn write_codes<A: PathAlgebra>(algebra: A, found: &TreeSearcher<A>, codes: &mut [u64])
    requires vertices { All (HasVertex found.now.roads) found.now.reached }
    requires places { IsLongOrNone (length found.now.reached) (length codes.old) }
    ensures list { BeginsOrNone (length found.now.reached) codes.new
        (map (code_at (A.meaning algebra) found.now.labels) found.now.reached) }
    ensures rest { IsSameAfter (length found.now.reached) codes.old codes.new }
{
    if codes.is_empty() {
        return;
    }
    let reached = found.reached();
    for i in 0..reached.len() {
        codes[i] = code_for(algebra, found.value(reached[i]));
    }
}

/// Writes their hops, if the list is wanted.
fn write_hops<A: PathAlgebra>(found: &TreeSearcher<A>, hops: &mut [u32])
    requires vertices { All (HasVertex found.now.roads) found.now.reached }
    requires places { IsLongOrNone (length found.now.reached) (length hops.old) }
    ensures list { BeginsOrNone (length found.now.reached) hops.new
        (map (hops_at found.now.tree) found.now.reached) }
    ensures rest { IsSameAfter (length found.now.reached) hops.old hops.new }
{
    if hops.is_empty() {
        return;
    }
    let reached = found.reached();
    for i in 0..reached.len() {
        hops[i] = hops_for(found.hops(reached[i]));
    }
}

/// Writes their parents, if the list is wanted.
fn write_parents<A: PathAlgebra>(found: &TreeSearcher<A>, parents: &mut [u32])
    requires vertices { All (HasVertex found.now.roads) found.now.reached }
    requires places { IsLongOrNone (length found.now.reached) (length parents.old) }
    ensures list { BeginsOrNone (length found.now.reached) parents.new
        (map (parent_at found.now.tree) found.now.reached) }
    ensures rest { IsSameAfter (length found.now.reached) parents.old parents.new }
{
    if parents.is_empty() {
        return;
    }
    let reached = found.reached();
    for i in 0..reached.len() {
        parents[i] = parent_for(found.parent(reached[i]));
    }
}

/// Whether so many places suffice for n vertices, or there is none.
fn is_long_or_none(n: usize, count: usize) -> bool
    ensures { IsTrue result ↔ IsLongOrNone n count }
{
    n <= count || count == 0
}

/// Whether each list has a place for each of n vertices or more, or none.
fn are_long_or_none(n: usize, lists: &NearLists<'_>) -> bool
    ensures { IsTrue result ↔ AreLongOrNone n lists.now.vertices.now lists.now.codes.now
        lists.now.hops.now lists.now.parents.now }
{
    is_long_or_none(n, lists.vertices.len())
        && is_long_or_none(n, lists.codes.len())
        && is_long_or_none(n, lists.hops.len())
        && is_long_or_none(n, lists.parents.len())
}

/// Counts what is reached, and writes it, if each list that is wanted has a place for each vertex.
pub(crate) fn write_lists<A: PathAlgebra>(
    algebra: A,
    found: &TreeSearcher<A>,
    lists: &mut NearLists<'_>,
) -> i32
    requires { All (HasVertex found.now.roads) found.now.reached }
    ensures count { lists.new.count.now ≡ length found.now.reached }
    ensures vertices { result ≡ pos 0 → BeginsOrNone (length found.now.reached)
        lists.new.vertices.now found.now.reached }
    ensures codes { result ≡ pos 0 → BeginsOrNone (length found.now.reached)
        lists.new.codes.now (map (code_at (A.meaning algebra) found.now.labels) found.now.reached) }
    ensures hops { result ≡ pos 0 → BeginsOrNone (length found.now.reached)
        lists.new.hops.now (map (hops_at found.now.tree) found.now.reached) }
    ensures parents { result ≡ pos 0 → BeginsOrNone (length found.now.reached)
        lists.new.parents.now (map (parent_at found.now.tree) found.now.reached) }
    ensures written { IsWrittenNear lists.old lists.new result }
    ensures found { IsFound result }
{
    let count = found.reached().len();
    *lists.count = count;
    if !are_long_or_none(count, lists) {
        return NO_ROOM;
    }
    write_vertices(found, lists.vertices);
    write_codes(algebra, found, lists.codes);
    write_hops(found, lists.hops);
    write_parents(found, lists.parents);
    DONE
}
