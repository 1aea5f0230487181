//! Theorems about the definitions: a graph that is written is read back, and the lines of a graph
//! file say what the graph is.
ghost use Rattle.std.specs.Prelude.{◌≡◌, ℕ, List, Ok, false};
ghost use Rattle.road_graph.specs.GraphData.{GraphData, IsGraph};
ghost use Rattle.text_lines.specs.Lines.{lines};
ghost use Rattle.text_lines.specs.Rules.{text_read};
ghost use Rattle.graph_text.specs.GraphFiles.{gr_rules};
ghost use Rattle.graph_text.specs.GraphLines.{SayGraph};
ghost use Rattle.graph_text.specs.WrittenGraphs.{gr_text};

/// The text of a graph has the graph as its value.
#[tactic(auto, using(crate::proofs::WrittenGraphs::graph_again))]
pub fn graph_read_again()
    ensures { (g : GraphData) → IsGraph g → text_read gr_rules (gr_text g) ≡ Ok g }
{}

/// The arcs of a graph that is read from a text are those of its arc lines, in order. Its one
/// problem line says how many vertices and arcs there are.
pub fn lines_say_the_graph()
    ensures { (bytes : List ℕ) (g : GraphData) → text_read gr_rules bytes ≡ Ok g →
        SayGraph (lines false bytes) g }
{}
