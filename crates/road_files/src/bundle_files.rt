//! Reads bundles.
ghost use Rattle.std.specs.Prelude.{IfOk};
ghost use Rattle.text_lines.specs.Reads.{ReadsText};
ghost use Rattle.road_files.specs.Asked.{AreQuestionsOf};
ghost use Rattle.road_files.specs.BundleFiles.{bundle_of, bundle_with, bundle_rules};

use crate::bundle_parser::BundleParser;
use crate::questions::Questions;
use graph_text::FromArcs;
use road_graph::Graph;
use std::alloc::Global;
use text_lines::{ReadFault, RoadRead, read_whole};

/// The graph and the questions of a bundle. `G` is any type of graph.
pub fn read_bundle_as<R: RoadRead, G: FromArcs>(
    alloc: Global,
    from: &mut R,
) -> Result<(G, Questions), ReadFault>
    ensures reads { ReadsText (R.seen from.old) (R.seen from.new) bundle_rules
        (bundle_with G.roads) 10 19 result }
    ensures fit { IfOk result (λ b. AreQuestionsOf (G.roads b.0).vertices b.1) }
{
    read_whole(from, BundleParser::new(alloc))
}

/// The graph and the questions of a bundle.
pub fn read_bundle<R: RoadRead>(
    alloc: Global,
    from: &mut R,
) -> Result<(Graph, Questions), ReadFault>
    ensures reads { ReadsText (R.seen from.old) (R.seen from.new) bundle_rules bundle_of 10
        19 result }
    ensures fit { IfOk result (λ b. AreQuestionsOf b.0.vertices b.1) }
{
    read_bundle_as(alloc, from)
}
