//! Builds a graph from the lines of a graph file.
ghost use Rattle.std.specs.Prelude.{◌≡◌, None, refl};

use crate::from_arcs::FromArcs;
use crate::graph_builder::GraphBuilder;
use crate::graph_parser::GraphParser;
use std::alloc::Global;
use std::marker::PhantomData;
use text_lines::{LineFault, LineParser, Slot};

/// Parses the lines of a graph file, and builds the graph that they describe.
#[derive(Drop)]
pub struct GraphMaker<G> {
    pub parser: GraphParser,
    pub made: PhantomData<G>,
}

impl<G: FromArcs> GraphMaker<G> {
    ghost use Rattle.graph_text.specs.GraphTakes.{taken_of};

    /// A parser before the first line.
    pub fn new(alloc: Global) -> Self
        ensures { taken_of result.parser ≡ None }
    {
        GraphMaker {
            parser: GraphParser::new(alloc),
            made: PhantomData,
        }
    }
}

impl<G: FromArcs> LineParser for GraphMaker<G> {
    ghost use Rattle.graph_text.specs.GraphTakes.{graph_meaning};

    type Value = G;

    ghost meaning = { graph_meaning (λ s. s.parser) G.roads };

    fn field(&mut self, _slot: &Slot) -> Result<(), LineFault> {
        Ok(())
    }

    fn line(&mut self, slots: &[Slot]) -> Result<(), LineFault> {
        self.parser.parse_line(slots)
    }

    fn short_line(&mut self, letter: u8, numbers: (u64, u64, u64)) -> bool {
        self.parser.short(letter, numbers)
    }

    fn finish(self) -> Result<G, LineFault> {
        let parser = self.parser;
        let roads = GraphBuilder::complete(parser.taken)?;
        roads.build(parser.alloc)
    }

    ghost stops_short = { λ s at. refl };
}
