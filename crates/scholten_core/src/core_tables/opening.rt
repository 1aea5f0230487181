//! The tables of a fresh core.
ghost use Rattle.std.specs.Prelude.{◌≡◌, IfOk};
ghost use Rattle.road_graph.specs.GraphData.{HasVertex};
ghost use Rattle.scholten_core.specs.Network.{network};
ghost use Rattle.scholten_core.specs.Diffusion.{opening};
ghost use Rattle.scholten_core.specs.CoreView.{state_of, network_of};

use crate::core_tables::CoreTables;
use crate::token::Token;
use path_algebra::PathAlgebra;
use road_graph::{ArcNo, Graph, Memory, Vertex};
use std::alloc::Global;

impl<'g, A: PathAlgebra> CoreTables<'g, A> {
    /// A message with the origin on arc 0, and nothing else.
    pub fn open(
        alloc: Global,
        algebra: A,
        graph: &'g Graph,
        source: Vertex,
    ) -> Result<CoreTables<'g, A>, Memory>
        requires { HasVertex graph.now source }
        ensures diffusion { IfOk result (λ c. c.diffusion ≡ record {
          algebra = algebra;
          roads = graph.now;
          source = source;
        }) }
        ensures state { IfOk result (λ c. state_of c ≡ opening (A.meaning algebra)
            (network graph.now source)) }
    {
        let vertices = graph.vertices() as usize + 1;
        let arcs = graph.arcs() + 1;
        let labels: Vec<Option<A::Value>> = vec![in alloc; None; vertices]?;
        let engagers: Vec<Option<ArcNo>> = vec![in alloc; None; vertices]?;
        let mut tokens: Vec<Token<A::Value>> = vec![in alloc; Token::Idle; arcs]?;
        let told: Vec<Option<A::Value>> = vec![in alloc; None; arcs]?;
        let mut deficits = vec![in alloc; 0u32; vertices]?;
        tokens[0] = Token::Message(algebra.origin());
        deficits[0] = 1;
        Ok(CoreTables {
            algebra,
            graph,
            source,
            labels,
            engagers,
            tokens,
            told,
            deficits,
        })
    }
}
