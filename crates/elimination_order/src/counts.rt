//! What an elimination makes and does, so that a graph with too many links is not factored.
ghost use Rattle.std.specs.Prelude.{◌≡◌, true, false};
ghost use Rattle.elimination_order.specs.Bounds.{AreWithinBounds, IsTooDense};

/// Links for each vertex. Road networks make 2 to 6, a wheel 3, twenty hubs over a path 21, a grid
/// of 512 by 512 makes 34 and one of 1,024 by 1,024 makes 42; a random graph of degree 4 with
/// 100,000 vertices 2,500.
const LINKS_A_VERTEX: u64 = 64;

/// Links besides, so that small graphs are in: a complete one of 175 vertices, but not of 176.
const MORE_LINKS: u64 = 4096;

/// Triangles for each vertex, which are the time that it takes to put walks at the links. Road
/// networks make up to 160, a grid of 512 by 512 makes 3,900 and one of 1,024 by 1,024 makes 9,000.
const TRIANGLES_A_VERTEX: u64 = 8192;

/// Entries of lists looked at, for each vertex and arc. Graphs that are factored need up to 14; it
/// is a bound of the time where many vertices are joined to two of many hubs.
const WORK_AN_ENTRY: u64 = 64;

/// Counts of an elimination.
#[derive(Clone, Copy, Debug, PartialEq, Eq)]
pub struct Counts {
    /// Pairs of a vertex and a neighbour that is eliminated after it.
    pub links: u64,
    /// Pairs of links from the same vertex.
    pub triangles: u64,
    /// Entries of lists that were looked at, and vertices that flows came to.
    pub work: u64,
}

impl Counts {
    /// Nothing is eliminated.
    pub(crate) fn new() -> Self {
        Counts {
            links: 0,
            triangles: 0,
            work: 0,
        }
    }

    /// One more vertex is eliminated, with so many links.
    pub(crate) fn add_vertex(&mut self, links: u64) {
        self.links = self.links.saturating_add(links);
        let triangles = links.saturating_mul(links.saturating_sub(1)) / 2;
        self.triangles = self.triangles.saturating_add(triangles);
    }

    /// So much more work is done.
    #[inline]
    pub(crate) fn add_work(&mut self, entries: usize) {
        self.work = self.work.saturating_add(entries as u64);
    }
}

/// Half of the work that an order of a graph of so many vertices and arcs may take. Flows may take
/// that: road networks need two thirds of it at most, a large mesh is cut into a few pieces by it.
pub(crate) fn half_of_work(vertices: u32, arcs: u32) -> u64 {
    WORK_AN_ENTRY / 2 * (u64::from(vertices) + u64::from(arcs))
}

/// Whether a graph of so many vertices and arcs is too dense by these counts.
pub(crate) fn is_too_dense(vertices: u32, arcs: u32, counts: Counts) -> bool
    ensures dense { result ≡ true → IsTooDense vertices arcs counts }
    ensures within { result ≡ false → AreWithinBounds vertices arcs counts }
{
    let vertices = u64::from(vertices);
    let entries = vertices + u64::from(arcs);
    LINKS_A_VERTEX * vertices + MORE_LINKS < counts.links
        || TRIANGLES_A_VERTEX * vertices < counts.triangles
        || WORK_AN_ENTRY * entries < counts.work
}
