//! What is left of a graph once some of its vertices are eliminated, as a graph of its own.
ghost use Rattle.std.specs.Prelude.{◌≡◌, IfErr, IsSome};
ghost use Rattle.halting.specs.declared.unfinished.Unfinished.TheVariants.{Halted};

use crate::lists::{NONE, Span, at};
use crate::neighbours::Neighbours;
use crate::piece::{Piece, give_places};
use crate::quotient_graph::QuotientGraph;
use halting::{Stop, Unfinished, look_at};
use road_graph::Memory;
use std::alloc::{AllocError, Global};

impl QuotientGraph {
    /// Adds the vertices of a list that are left to the newest row, and marks them.
    fn add_neighbours(
        &mut self,
        rows: &mut Neighbours,
        places: &[u32],
        list: Span,
        mark: u32,
    ) -> Result<(), Memory> {
        for k in list.start..list.end {
            let u = self.listed(k);
            let node = self.node_mut(u);
            if node.size > 0 && node.mark != mark {
                node.mark = mark;
                rows.push(at(places, u as usize))?;
            }
        }
        Ok(())
    }

    /// Adds the row of a vertex: its neighbours by edges and by elements.
    fn add_row(&mut self, rows: &mut Neighbours, places: &[u32], v: u32) -> Result<(), Memory> {
        let mark = self.new_mark();
        self.node_mut(v).mark = mark;
        let node = self.node(v);
        self.add_neighbours(rows, places, node.vertices(), mark)?;
        let elements = node.elements();
        for k in elements.start..elements.end {
            let element = self.node(self.listed(k));
            if element.degree > 0 {
                self.add_neighbours(rows, places, element.vertices(), mark)?;
            }
        }
        rows.end_row()
    }

    /// The vertices that are left.
    fn left(&self, alloc: Global) -> Result<Vec<u32>, Memory> {
        let mut left = Vec::new(alloc);
        for v in 0..self.vertices() {
            if self.node(v).size > 0 {
                left.push(v).map_err(AllocError::from)?;
            }
        }
        Ok(left)
    }

    /// The graph of the vertices that are left.
    pub(crate) fn remainder(
        &mut self,
        alloc: Global,
        stop: &Option<Stop>,
    ) -> Result<Piece, Unfinished>
        ensures halts { IfErr result (λ e. e ≡ Halted → IsSome stop.now) }
    {
        let names = self.left(alloc)?;
        let mut places = vec![in alloc; NONE; self.vertices() as usize]?;
        give_places(&names, Span::new(0, names.len()), &mut places);
        let mut rows = Neighbours::none(alloc);
        for v in &names {
            look_at(stop)?;
            self.add_row(&mut rows, &places, *v)?;
        }
        Ok(Piece {
            rows,
            names,
            depth: 0,
        })
    }
}
