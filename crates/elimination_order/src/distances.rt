//! Distances: how many steps it takes to each vertex, breadth first.
ghost use Rattle.std.specs.Prelude.{◌≡◌, IfErr, IsSome};
ghost use Rattle.halting.specs.declared.unfinished.Unfinished.TheVariants.{Halted};

use crate::lists::{NONE, Span, at, put};
use crate::neighbours::Neighbours;
use halting::{Stop, Unfinished, look_at};
use road_graph::Memory;
use std::alloc::{AllocError, Global};

/// A breadth-first search, from one vertex after another.
#[derive(Drop)]
pub(crate) struct Distances {
    /// The distance of each vertex, by index from 0; `NONE` if it is not reached.
    steps: Vec<u32>,
    /// The vertices in the order in which they were reached.
    pub(crate) reached: Vec<u32>,
}

impl Distances {
    /// None of n vertices is reached.
    pub(crate) fn new(alloc: Global, n: usize) -> Result<Self, Memory> {
        Ok(Distances {
            steps: vec![in alloc; NONE; n]?,
            reached: Vec::with_capacity(alloc, n)?,
        })
    }

    /// The distance of a vertex.
    #[inline]
    pub(crate) fn to(&self, v: u32) -> u32 {
        at(&self.steps, v as usize)
    }

    /// The vertex that was reached last.
    pub(crate) fn farthest(&self) -> u32 {
        match self.reached.last() {
            Some(v) => *v,
            None => 0,
        }
    }

    /// Lets no search come to any of these vertices.
    pub(crate) fn block(&mut self, vertices: &[u32]) {
        for v in vertices {
            put(&mut self.steps, *v as usize, 0);
        }
    }

    /// Reaches a vertex, unless it was reached before.
    #[inline]
    fn reach(&mut self, v: u32, steps: u32) -> Result<(), Memory> {
        if let Some(mine) = self.steps.get_mut(v as usize) {
            if *mine == NONE {
                *mine = steps;
                self.reached.push(v).map_err(AllocError::from)?;
            }
        }
        Ok(())
    }

    /// Reaches the neighbours of a vertex.
    fn reach_neighbours(&mut self, rows: &Neighbours, v: u32) -> Result<(), Memory> {
        let steps = self.to(v).saturating_add(1);
        let row = rows.row(v);
        for k in row.start..row.end {
            self.reach(rows.listed(k), steps)?;
        }
        Ok(())
    }

    /// Reaches what can be reached from a vertex, unless it was reached before. Says where that is
    /// listed.
    pub(crate) fn search(
        &mut self,
        rows: &Neighbours,
        from: u32,
        stop: &Option<Stop>,
    ) -> Result<Span, Unfinished>
        ensures halts { IfErr result (λ e. e ≡ Halted → IsSome stop.now) }
    {
        let start = self.reached.len();
        self.reach(from, 0)?;
        for k in start..self.steps.len() {
            let Some(v) = self.reached.get(k) else {
                break;
            };
            let v = *v;
            look_at(stop)?;
            self.reach_neighbours(rows, v)?;
        }
        Ok(Span {
            start,
            end: self.reached.len(),
        })
    }

    /// The distances from one vertex.
    pub(crate) fn from(
        alloc: Global,
        rows: &Neighbours,
        v: u32,
        stop: &Option<Stop>,
    ) -> Result<Self, Unfinished>
        ensures halts { IfErr result (λ e. e ≡ Halted → IsSome stop.now) }
    {
        let mut distances = Distances::new(alloc, rows.ends.len())?;
        distances.search(rows, v, stop)?;
        Ok(distances)
    }
}
