//! Writes graph files, each graph in its one spelling. No writer allocates memory.
ghost use Rattle.std.specs.Prelude.{◌≡◌, ◌≤◌, ◌+◌, ◌∷◌, ℕ, List, [], codes, decimal, length, map};
ghost use Rattle.road_graph.specs.GraphData.{GraphData};
ghost use Rattle.text_lines.specs.Texts.{spelled, text_of};
ghost use Rattle.text_lines.specs.Written.{WritesText};
ghost use Rattle.graph_text.specs.WrittenGraphs.{gr_text, graph_words, arc_words};

use road_graph::{ArcNo, Graph, RoadArc};
use text_lines::{Line, RoadWrite, WriteFault, push_spaced, write_bytes};

/// The problem line of a graph file.
#[tactic(auto, unfolding(text_lines::specs::Texts::spelled))]
fn line_of_graph(vertices: u32, arcs: u64) -> Line
    ensures { result.bytes ≡ spelled (graph_words vertices arcs) }
{
    let mut line = Line::new();
    line.push_str("p sp");
    push_spaced(&mut line, u64::from(vertices));
    push_spaced(&mut line, arcs);
    line.push_str("\n");
    line
}

/// The line of an arc.
#[tactic(auto, unfolding(text_lines::specs::Texts::spelled))]
fn fill_arc(line: &mut Line, arc: RoadArc)
    ensures { line.new.bytes ≡ spelled (arc_words arc) }
{
    line.clear();
    line.push_str("a");
    push_spaced(line, u64::from(arc.tail.0));
    push_spaced(line, u64::from(arc.head.0));
    push_spaced(line, u64::from(arc.weight));
    line.push_str("\n");
}

fn write_arcs<W: RoadWrite>(to: &mut W, graph: &Graph) -> Result<(), WriteFault>
    ensures { WritesText (W.seen to.old) (W.seen to.new) (text_of (map arc_words graph.now.arcs))
        result }
{
    let mut line = Line::new();
    // At most 2 ^ 27 arcs: their numbers fit.
    graph.holds();
    for number in 0..graph.arcs() as u32 {
        fill_arc(&mut line, graph.arc(ArcNo(number + 1)));
        write_bytes(to, line.as_str().as_bytes())?;
    }
    Ok(())
}

/// Writes a graph as a graph file: the whole text, or a prefix of it if a write fails.
pub fn write_gr<W: RoadWrite>(to: &mut W, graph: &Graph) -> Result<(), WriteFault>
    ensures { WritesText (W.seen to.old) (W.seen to.new) (gr_text graph.now) result }
{
    let line = line_of_graph(graph.vertices(), graph.arcs() as u64);
    write_bytes(to, line.as_str().as_bytes())?;
    write_arcs(to, graph)
}
