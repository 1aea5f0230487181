//! Vertex cuts: few vertices that part a piece.
ghost use Rattle.std.specs.Prelude.{◌≡◌, IfErr, IsSome};
ghost use Rattle.halting.specs.declared.unfinished.Unfinished.TheVariants.{Halted};

use crate::carrier::Way;
use crate::flow::Flow;
use crate::lists::NONE;
use crate::neighbours::Neighbours;
use crate::plane::{Direction, Plane};
use crate::ranking::ranks;
use halting::{Stop, Unfinished};
use road_graph::Memory;
use std::alloc::{AllocError, Global};

/// Every direction in which a cut is sought.
const DIRECTIONS: [Direction; 4] = [
    Direction::X,
    Direction::Y,
    Direction::Sum,
    Direction::Difference,
];

/// The vertices of a cut.
#[derive(Drop)]
struct Cut {
    vertices: Vec<u32>,
    /// How many vertices lie beyond it, except those inside an end.
    beyond: usize,
}

/// The first size that is too much for a cut of n vertices: above 1.5 times the root of n. A piece
/// without a lesser one is not like roads.
fn too_wide(n: u32) -> u32 {
    let most = u64::from(n).saturating_mul(9);
    for size in 0..n {
        let twice = u64::from(size).saturating_mul(2);
        if twice.saturating_mul(twice) > most {
            return size;
        }
    }
    n
}

impl Flow {
    /// The vertices of which the last search reached the near gate alone.
    fn limits(&self, alloc: Global, way: Way) -> Result<Cut, Memory> {
        let mut vertices = Vec::new(alloc);
        let mut beyond = 0usize;
        for v in &self.open {
            if self.distance(way.far(*v)) != NONE {
                beyond = beyond.saturating_add(1);
            } else if self.distance(way.near(*v)) != NONE {
                vertices.push(*v).map_err(AllocError::from)?;
            }
        }
        Ok(Cut { vertices, beyond })
    }

    /// The cut by a full flow: the one nearest the last end, or that nearest the first, if it
    /// leaves more to its lesser side.
    fn cut(
        &mut self,
        alloc: Global,
        rows: &Neighbours,
        stop: &Option<Stop>,
    ) -> Result<Vec<u32>, Unfinished>
        ensures halts { IfErr result (λ e. e ≡ Halted → IsSome stop.now) }
    {
        let last = self.limits(alloc, Way::Back)?;
        self.search(rows, Way::On, stop)?;
        let first = self.limits(alloc, Way::On)?;
        // The ends have the same size, so the one with the lesser rim has more inside.
        let beyond_last = last.beyond.saturating_add(self.firsts.len());
        let beyond_first = first.beyond.saturating_add(self.lasts.len());
        if beyond_last >= beyond_first {
            Ok(last.vertices)
        } else {
            Ok(first.vertices)
        }
    }

    /// The least cut between the ends of a connected graph, of four directions; none if each is too
    /// wide or given up. Once so many gates were reached, no further direction is tried.
    pub(crate) fn least_cut(
        &mut self,
        alloc: Global,
        rows: &Neighbours,
        enough: u64,
        stop: &Option<Stop>,
    ) -> Result<Vec<u32>, Unfinished>
        ensures halts { IfErr result (λ e. e ≡ Halted → IsSome stop.now) }
    {
        let plane = Plane::of(alloc, rows, stop)?;
        let mut least = Vec::new(alloc);
        let mut bound = too_wide(rows.vertices());
        for direction in &DIRECTIONS {
            if self.work >= enough {
                break;
            }
            let keys = plane.along(alloc, *direction)?;
            let ranks = ranks(alloc, &keys)?;
            self.begin(rows, &ranks, stop)?;
            if self.run(rows, bound, stop)? {
                least = self.cut(alloc, rows, stop)?;
                bound = self.value;
            }
        }
        Ok(least)
    }
}
