//! The lists of all vertices that the search for a route uses, kept blank between two routes.

ghost use Rattle.std.specs.Prelude.{◌≡◌, IfOk, None, false, length, replicate};
ghost use Rattle.route_tree.specs.Blank.{IsBlankBut};

use crate::hops_and_parents::Tree;
use crate::slot::NumberSlot;
use road_graph::{Memory, Vertex};
use std::alloc::Global;
use std::marker::Model;

/// For each vertex a mark, hops and a parent: no mark, and none of the others.
#[derive(Drop)]
pub(crate) struct Lists {
    marks: Vec<bool>,
    tree: Tree,
}

impl Model for Lists {
    ghost use Rattle.std.specs.Prelude.{ℕ, length};
    ghost use Rattle.route_tree.specs.Blank.{AreBlank};

    ghost Value = { ℕ };

    ghost view = { λ l. length l.marks.items };

    ghost invariant = { λ l. AreBlank (length l.marks.items) l.marks.items l.tree };
}

impl Lists {
    /// Lists for n vertices.
    pub(crate) fn new(alloc: Global, n: usize) -> Result<Self, Memory>
        ensures { IfOk result (λ lists. lists ≡ n) }
    {
        let marks = vec![in alloc; false; n]?;
        let tree = Tree::blank(alloc, n)?;
        Ok(Lists { marks, tree })
    }

    /// The marks, and the hops and parents.
    pub(crate) fn into_parts(self) -> (Vec<bool>, Tree)
        ensures marks { result.0.items ≡ replicate self false }
        ensures hops { result.1.hops ≡ replicate self None }
        ensures parents { result.1.parents ≡ replicate self None }
    {
        (self.marks, self.tree)
    }

    /// Lists that are blank but at the vertices that were found, made blank there too.
    pub(crate) fn put_back(marks: Vec<bool>, tree: Tree, found: &[Vertex]) -> Self
        requires marks { IsBlankBut false found.now marks.items }
        requires hops { IsBlankBut None found.now tree.hops }
        requires parents { IsBlankBut None found.now tree.parents }
        requires count { length tree.hops ≡ length marks.items }
        ensures { result ≡ length marks.items }
    {
        let mut marks = marks;
        let (mut hops, mut parents) = tree.into_parts();
        blank_at(&mut marks, found, false);
        blank_at(&mut hops, found, NumberSlot::none());
        blank_at(&mut parents, found, NumberSlot::none());
        let tree = Tree { hops, parents };
        Lists { marks, tree }
    }
}

/// Makes a list blank at some vertices. It is blank elsewhere.
fn blank_at<T: Copy>(list: &mut Vec<T>, found: &[Vertex], blank: T)
    requires { IsBlankBut blank found.now list.old.items }
    ensures { list.new.items ≡ replicate (length list.old.items) blank }
{
    for v in found {
        list[v.0 as usize - 1] = blank;
    }
}
