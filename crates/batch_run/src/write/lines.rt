//! Writes the lines of vertices one at a time: they take no memory but labels and their tree.
ghost use Rattle.std.specs.Prelude.{◌≡◌, Option, length};
ghost use Rattle.text_lines.specs.Texts.{text_of};
ghost use Rattle.text_lines.specs.Written.{WritesText};
ghost use Rattle.answer_text.specs.AnswerText.{vertex_lines};
ghost use Rattle.batch_run.specs.WrittenLines.{written_line, written_lines};

use answer_text::{Reached, VertexLine, write_vertex_line};
use path_algebra::{Labels, PathAlgebra};
use road_graph::Vertex;
use route_tree::Tree;
use text_lines::{RoadWrite, WriteFault};

/// What the line of a vertex says; nothing if no walk reaches it.
fn line_of<A: PathAlgebra>(
    algebra: A,
    label: Option<A::Value>,
    hops: Option<u32>,
    parent: Option<Vertex>,
) -> Option<Reached>
    ensures { result ≡ written_line (A.meaning algebra) label hops parent }
{
    match (label, hops) {
        (Some(value), Some(hops)) => Some(Reached {
            code: algebra.code(value),
            hops,
            parent: match parent {
                Some(vertex) => vertex.0,
                None => 0,
            },
        }),
        _ => None,
    }
}

/// Writes the line of each of n vertices, in order.
pub(crate) fn write_lines<A: PathAlgebra, W: RoadWrite>(
    to: &mut W,
    algebra: A,
    n: u32,
    labels: &Labels<A::Value>,
    tree: &Tree,
) -> Result<(), WriteFault>
    requires labels { length labels.now ≡ n }
    requires hops { length tree.now.hops ≡ n }
    ensures { WritesText (W.seen to.old) (W.seen to.new) (text_of (vertex_lines 1 (written_lines
        (A.meaning algebra) labels.now tree.now n))) result }
{
    let mut text = VertexLine::new();
    for v in 0..n {
        let vertex = Vertex(v + 1);
        let hops = tree.hops(vertex);
        let parent = tree.parent(vertex);
        let line = line_of(algebra, labels.of(vertex), hops, parent);
        write_vertex_line(to, &mut text, u64::from(v) + 1, line)?;
    }
    Ok(())
}
