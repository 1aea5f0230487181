//! The arcs of a graph file so far.
ghost use Rattle.std.specs.Prelude.{◌≡◌, ◌<◌, ◌≤◌, ◌++◌, ◌∷◌, [], length, map, IfOk, IfErr, OnOk, MatchResult, option_map, true, false, Ok};
ghost use Rattle.road_graph.specs.GraphData.{JoinsVertices, IsGraph};
ghost use Rattle.text_lines.specs.Slots.{word_in};
ghost use Rattle.text_lines.specs.Takes.{Leaves, Breaks};
ghost use Rattle.graph_text.specs.GraphFiles.{one_arc, gr_whole, graph_read};

use crate::from_arcs::FromArcs;
use crate::number_fields::{number_up_to, vertex_of};
use crate::rules::{FIELDS, NO_PROBLEM, TOO_FEW, TOO_MANY};
use road_graph::{RoadArc, Vertex};
use std::alloc::Global;
use text_lines::{LineFault, Slot, push_item};

/// The greatest weight of an arc.
const MAX_WEIGHT: u32 = 4_294_967_295;

/// What the problem line announced, and the arcs so far.
#[derive(Drop)]
pub struct GraphBuilder {
    pub vertices: u32,
    pub announced: u32,
    pub arcs: Vec<RoadArc>,
    ghost few_arcs: { announced ≤ 134217728 },
    ghost room: { length arcs.items ≤ announced },
    // The arcs so far are those of a graph.
    ghost graph: { IsGraph (record { vertices = vertices; arcs = arcs.items }) },
}

impl GraphBuilder {
    ghost use Rattle.graph_text.specs.GraphTakes.{roads_so_far, FitsArc};

    fn push(&mut self, arc: RoadArc) -> Result<(), LineFault>
        requires room { length self.old.arcs.items < self.old.announced }
        requires joined { JoinsVertices self.old.vertices arc }
        ensures ok { OnOk result (roads_so_far self.new ≡ record (roads_so_far self.old)
            { arcs = self.old.arcs.items ++ arc ∷ [] }) }
        ensures err { IfErr result (λ e. e ≡ LineFault.Memory) }
    {
        push_item(&mut self.arcs, arc)
    }

    /// Adds the arc of these numbers if it breaks no rule and there is room for it. Else it changes
    /// nothing.
    #[tactic(auto, unfolding(crate::specs::GraphFiles::one_arc))]
    pub fn short_arc(&mut self, numbers: (u64, u64, u64)) -> bool
        ensures left { result ≡ false → self.new ≡ self.old }
        ensures taken { result ≡ true → (roads_so_far self.new ≡ record (roads_so_far self.old) {
          arcs = self.old.arcs.items ++ record {
            tail = numbers.0;
            head = numbers.1;
            weight = numbers.2;
          } ∷ [];
        }) }
        ensures joined { result ≡ true → FitsArc (roads_so_far self.old) numbers.0 numbers.1
            numbers.2 }
    {
        let (tail, head, weight) = numbers;
        let n = u64::from(self.vertices);
        if self.arcs.len() >= self.announced as usize || self.arcs.len() == self.arcs.capacity() {
            return false;
        }
        if tail == 0 || tail > n || head == 0 || head > n || weight > u64::from(MAX_WEIGHT) {
            return false;
        }
        let Ok(()) = self.arcs.push(RoadArc {
            tail: Vertex(tail as u32),
            head: Vertex(head as u32),
            weight: weight as u32,
        })
        else {
            unreachable!()
        };
        true
    }

    /// Adds the arc of a line after the problem line.
    #[tactic(auto, unfolding(crate::specs::GraphFiles::one_arc))]
    pub fn add(&mut self, slots: &[Slot]) -> Result<(), LineFault>
        ensures { Leaves (one_arc (roads_so_far self.old) (map word_in slots.now)) result
            (roads_so_far self.new) }
    {
        if self.arcs.len() >= self.announced as usize {
            return Err(LineFault::Broken(TOO_MANY));
        }
        if slots.len() != 4 {
            return Err(LineFault::Broken(FIELDS));
        }
        let tail = vertex_of(&slots[1], self.vertices)?;
        let head = vertex_of(&slots[2], self.vertices)?;
        let weight = number_up_to(&slots[3], MAX_WEIGHT)?;
        self.push(RoadArc { tail, head, weight })
    }

    /// All announced arcs, if they are there.
    pub fn complete(taken: Option<GraphBuilder>) -> Result<GraphBuilder, LineFault>
        ensures { MatchResult result (λ t. gr_whole (option_map roads_so_far taken) ≡ Ok
            (roads_so_far t)) (Breaks (gr_whole (option_map roads_so_far taken))) }
    {
        match taken {
            None => Err(LineFault::Broken(NO_PROBLEM)),
            Some(taken) if taken.arcs.len() < taken.announced as usize => Err(LineFault::Broken(
                TOO_FEW,
            )),
            Some(taken) => Ok(taken),
        }
    }

    /// The graph of these arcs.
    pub fn build<G: FromArcs>(self, alloc: Global) -> Result<G, LineFault>
        ensures graph { IfOk result (λ g. G.roads g ≡ graph_read (roads_so_far self)) }
        ensures memory { IfErr result (λ e. e ≡ LineFault.Memory) }
    {
        match G::from_arcs(alloc, self.vertices, self.arcs) {
            Ok(graph) => Ok(graph),
            Err(_) => Err(LineFault::Memory),
        }
    }
}
