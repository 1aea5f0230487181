//! The lines of vertices in three lists, each with a number for each vertex.
ghost use Rattle.std.specs.Prelude.{◌≡◌, length};
ghost use Rattle.answer_lists.specs.Tree.{line_of, lines_of};

use crate::codes::NO_CODE;
use answer_check::VertexLines;
use answer_text::Reached;
use road_graph::Vertex;

/// The line of three numbers: none if they are those of an unreached vertex.
fn line_of(code: u64, hops: u32, parent: u32) -> Option<Reached>
    ensures { result ≡ line_of code hops parent }
{
    if code == NO_CODE && (hops == 0 && parent == 0) {
        return None;
    }
    Some(Reached { code, hops, parent })
}

/// The sources of a tree and its three lists, as a caller lends them to be read: the code, the hops
/// and the parent of each vertex.
#[derive(Clone, Copy)]
pub struct ListedTree<'l> {
    pub sources: &'l [u32],
    pub codes: &'l [u64],
    pub hops: &'l [u32],
    pub parents: &'l [u32],
}

/// Such lists of one length, line by line.
#[derive(Clone, Copy)]
pub(crate) struct ListedLines<'l> {
    pub(crate) tree: ListedTree<'l>,
    ghost as_many_hops: { length tree.hops.now ≡ length tree.codes.now },
    ghost as_many_parents: { length tree.parents.now ≡ length tree.codes.now },
}

impl VertexLines for ListedLines<'_> {
    ghost use Rattle.answer_lists.specs.Tree.{lines_of};

    ghost list = { λ l. lines_of l.tree.codes.now l.tree.hops.now l.tree.parents.now };

    fn line_of(&self, v: Vertex) -> Option<Reached> {
        let i = v.0 as usize - 1;
        line_of(self.tree.codes[i], self.tree.hops[i], self.tree.parents[i])
    }
}
