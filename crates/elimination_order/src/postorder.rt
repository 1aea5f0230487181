//! A postorder of the assembly tree: each element after those below it. It makes the same links,
//! and those that are looked at together lie together.
ghost use Rattle.std.specs.Prelude.{◌≡◌, IfErr, IfOk, IsSome, length};
ghost use Rattle.halting.specs.declared.unfinished.Unfinished.TheVariants.{Halted};

use crate::assembly_tree::TreeNode;
use crate::elimination::Elimination;
use crate::lists::{NONE, at, put, stored};
use crate::order::Order;
use crate::order_builder::order_by;
use halting::{Stop, Unfinished, look_at};
use road_graph::Memory;
use std::alloc::Global;

/// The places of a vertex, of those that are eliminated with it, and of the elements below.
#[derive(Clone, Copy)]
struct Places {
    /// How many are eliminated with it.
    own: u32,
    /// How many there are in all.
    all: u32,
    /// The end of the places that are left for those that are eliminated with it.
    own_end: u32,
    /// The end of the places that are left for elements below.
    below_end: u32,
}

/// The tree as its postorder needs it.
#[derive(Drop)]
struct Postorder {
    /// The vertex of the element with which each vertex is eliminated.
    pivots: Vec<u32>,
    places: Vec<Places>,
}

/// The vertex that each is eliminated with.
fn pivots_of(alloc: Global, eliminated: &[u32], tree: &[TreeNode]) -> Result<Vec<u32>, Memory> {
    let mut pivots = vec![in alloc; NONE; tree.len()]?;
    for v in eliminated.iter().rev() {
        let pivot = match tree.get(*v as usize) {
            Some(node) if node.principal != NONE => at(&pivots, node.principal as usize),
            _ => *v,
        };
        put(&mut pivots, *v as usize, pivot);
    }
    Ok(pivots)
}

impl Postorder {
    /// No places yet.
    fn open(alloc: Global, eliminated: &[u32], tree: &[TreeNode]) -> Result<Self, Memory> {
        let none = Places {
            own: 0,
            all: 0,
            own_end: 0,
            below_end: 0,
        };
        Ok(Postorder {
            pivots: pivots_of(alloc, eliminated, tree)?,
            places: vec![in alloc; none; tree.len()]?,
        })
    }

    /// The vertex that a vertex is eliminated with.
    fn pivot(&self, v: u32) -> u32 {
        at(&self.pivots, v as usize)
    }

    /// The element that absorbs that of a vertex; `NONE` at a root.
    fn parent(&self, tree: &[TreeNode], v: u32) -> u32 {
        match tree.get(v as usize) {
            Some(node) => self.pivot(node.parent),
            None => NONE,
        }
    }

    /// Counts a vertex at its element, and an element at its parent, once all below it are counted.
    fn count(&mut self, tree: &[TreeNode], v: u32) {
        let pivot = self.pivot(v);
        let parent = self.parent(tree, v);
        let Some(mine) = self.places.get_mut(pivot as usize) else {
            return;
        };
        mine.own = mine.own.saturating_add(1);
        mine.all = mine.all.saturating_add(1);
        let all = mine.all;
        if pivot == v {
            if let Some(above) = self.places.get_mut(parent as usize) {
                above.all = above.all.saturating_add(all);
            }
        }
    }

    /// Gives an element and those below it the last places before an end. Says how many are left.
    fn give(&mut self, v: u32, end: u32) -> u32 {
        match self.places.get_mut(v as usize) {
            Some(mine) => {
                mine.own_end = end;
                mine.below_end = end.saturating_sub(mine.own);
                end.saturating_sub(mine.all)
            }
            None => end,
        }
    }

    /// Gives an element that another one absorbed places below that one.
    fn give_below(&mut self, v: u32, parent: u32) {
        let end = match self.places.get(parent as usize) {
            Some(above) => above.below_end,
            None => 0,
        };
        let left = self.give(v, end);
        if let Some(above) = self.places.get_mut(parent as usize) {
            above.below_end = left;
        }
    }

    /// The next place of those for a vertex and what is eliminated with it, from the last one on.
    fn next_place(&mut self, v: u32) -> u32 {
        let pivot = self.pivot(v);
        match self.places.get_mut(pivot as usize) {
            Some(mine) => {
                mine.own_end = mine.own_end.saturating_sub(1);
                mine.own_end
            }
            None => NONE,
        }
    }
}

/// The places of vertices that have none, after those of the others.
fn place_others(places: &mut [u32], taken: usize) {
    let mut next = stored(taken);
    for place in places {
        if *place == NONE {
            *place = next;
            next = next.saturating_add(1);
        }
    }
}

/// The vertices 1 to n in postorder, with those last whose rows are dense.
pub(crate) fn in_postorder(
    alloc: Global,
    n: u32,
    elimination: &Elimination,
    stop: &Option<Stop>,
) -> Result<Order, Unfinished>
    ensures count { IfOk result (λ order. length order.vertices.items ≡ n) }
    ensures halts { IfErr result (λ e. e ≡ Halted → IsSome stop.now) }
{
    let eliminated = &elimination.eliminated;
    let tree = &elimination.tree;
    let mut postorder = Postorder::open(alloc, eliminated, tree)?;
    for v in eliminated {
        look_at(stop)?;
        postorder.count(tree, *v);
    }
    let mut places = vec![in alloc; NONE; tree.len()]?;
    let mut end = stored(eliminated.len());
    for v in eliminated.iter().rev() {
        look_at(stop)?;
        if postorder.pivot(*v) == *v {
            let parent = postorder.parent(tree, *v);
            if parent == NONE {
                end = postorder.give(*v, end);
            } else {
                postorder.give_below(*v, parent);
            }
        }
        put(&mut places, *v as usize, postorder.next_place(*v));
    }
    place_others(&mut places, eliminated.len());
    Ok(order_by(alloc, n, &places)?)
}
