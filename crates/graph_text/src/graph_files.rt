//! Reads graph files.
ghost use Rattle.text_lines.specs.Reads.{ReadsText};
ghost use Rattle.graph_text.specs.GraphFiles.{gr_rules};

use crate::from_arcs::FromArcs;
use crate::graph_maker::GraphMaker;
use road_graph::Graph;
use std::alloc::Global;
use text_lines::{ReadFault, RoadRead, read_whole};

/// The graph of a graph file. `G` is any type of graph.
pub fn read_gr_as<R: RoadRead, G: FromArcs>(alloc: Global, from: &mut R) -> Result<G, ReadFault>
    ensures { ReadsText (R.seen from.old) (R.seen from.new) gr_rules G.roads 10 19 result }
{
    read_whole(from, GraphMaker::new(alloc))
}

/// The graph of a graph file.
pub fn read_gr<R: RoadRead>(alloc: Global, from: &mut R) -> Result<Graph, ReadFault>
    ensures { ReadsText (R.seen from.old) (R.seen from.new) gr_rules (λ g. g) 10 19 result }
{
    read_gr_as(alloc, from)
}
