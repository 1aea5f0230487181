//! The tables of a core, and how they are read.
ghost use Rattle.std.specs.Prelude.{◌≡◌, ℕ, ◌≤◌, ◌<◌, ◌+◌, ◌^◌, length};
ghost use Rattle.road_graph.specs.GraphData.{IsGraph, HasVertex};
ghost use Rattle.scholten_core.specs.Deficit.{deficit};
ghost use Rattle.scholten_core.specs.CoreView.{state_of, network_of};
ghost use Rattle.scholten_core.specs.DiffusionData.{IsDiffusion};

mod moves;
mod opening;
mod pumping;

use crate::arcs::{head_of, tail_of};
use crate::token::Token;
use path_algebra::PathAlgebra;
use road_graph::{ArcNo, Graph, Vertex};
use std::marker::Model;

/// The tables. Each begins with a place for the environment or for arc 0.
#[derive(Drop)]
pub struct CoreTables<'g, A: PathAlgebra> {
    algebra: A,
    graph: &'g Graph,
    source: Vertex,
    labels: Vec<Option<A::Value>>,
    engagers: Vec<Option<ArcNo>>,
    tokens: Vec<Token<A::Value>>,
    told: Vec<Option<A::Value>>,
    /// How many arcs out of each vertex are busy.
    deficits: Vec<u32>,
}

impl<'g, A: PathAlgebra> Model for CoreTables<'g, A> {
    ghost use Rattle.scholten_core.specs.CoreView.{CoreView, core_view, AreTablesSized};

    ghost Value = { CoreView A A.Value };

    ghost view = { λ c. core_view c.algebra c.graph.now c.source c.labels.items c.engagers.items c.tokens.items c.told.items c.deficits.items };

    ghost invariant = { λ c. AreTablesSized (core_view c.algebra c.graph.now c.source c.labels.items c.engagers.items c.tokens.items c.told.items c.deficits.items) };
}

impl<'g, A: PathAlgebra> CoreTables<'g, A> {
    /// The algebra of the diffusion.
    pub fn algebra(&self) -> A
        ensures algebra { result ≡ self.now.diffusion.algebra }
        ensures diffusion { IsDiffusion self.now.diffusion }
    {
        self.algebra
    }

    /// What is on an arc, nothing past the last one.
    pub fn token(&self, a: ArcNo) -> Token<A::Value>
        ensures { result ≡ (state_of self.now).token a }
    {
        let a = a.0 as usize;
        if a < self.tokens.len() {
            self.tokens[a]
        } else {
            Token::Idle
        }
    }

    /// The label of a vertex.
    pub fn label(&self, v: Vertex) -> Option<A::Value>
        requires { v ≤ self.now.diffusion.roads.vertices }
        ensures { result ≡ (state_of self.now).label v }
    {
        self.labels[v.0 as usize]
    }

    /// The arc that engages a vertex.
    pub fn engager(&self, v: Vertex) -> Option<ArcNo>
        requires { v ≤ self.now.diffusion.roads.vertices }
        ensures { result ≡ (state_of self.now).engager v }
    {
        self.engagers[v.0 as usize]
    }

    /// How many arcs out of a vertex are busy.
    pub fn deficit(&self, v: Vertex) -> u32
        requires { v ≤ self.now.diffusion.roads.vertices }
        ensures { result ≡ deficit (network_of self.now) v (state_of self.now) }
    {
        self.deficits[v.0 as usize]
    }

    /// The label that an arc was last offered.
    fn last_offer(&self, b: ArcNo) -> Option<A::Value>
        requires { b ≤ length self.now.diffusion.roads.arcs }
        ensures { result ≡ (state_of self.now).told b }
    {
        self.told[b.0 as usize]
    }

    /// The vertex that an arc leaves: the environment, vertex 0, for arc 0.
    pub fn tail(&self, a: ArcNo) -> Vertex
        requires { a ≤ length self.now.diffusion.roads.arcs }
        ensures tail { result ≡ (network_of self.now).tail a }
        ensures within { result ≤ self.now.diffusion.roads.vertices }
    {
        tail_of(self.graph, a)
    }

    /// The vertex that an arc enters.
    pub fn head(&self, a: ArcNo) -> Vertex
        requires { a ≤ length self.now.diffusion.roads.arcs }
        ensures head { result ≡ (network_of self.now).head a }
        ensures within { result ≤ self.now.diffusion.roads.vertices }
    {
        head_of(self.graph, self.source, a)
    }

    /// The weight of an arc of the graph.
    fn weight(&self, a: ArcNo) -> u32
        requires { (1 ≤ a) × (a ≤ length self.now.diffusion.roads.arcs) }
        ensures { result ≡ (network_of self.now).weight a }
    {
        self.graph.arc(a).weight
    }
}
