//! Pieces: connected parts of a graph.
ghost use Rattle.std.specs.Prelude.{◌≡◌, IfErr, IsSome};
ghost use Rattle.halting.specs.declared.unfinished.Unfinished.TheVariants.{Halted};

use crate::lists::{NONE, Span, at, put, stored};
use crate::neighbours::Neighbours;
use halting::{Stop, Unfinished, look_at};
use road_graph::Memory;
use std::alloc::{AllocError, Global};

/// A part of a graph, as a graph of its own.
#[derive(Drop)]
pub(crate) struct Piece {
    pub(crate) rows: Neighbours,
    /// The vertex of the whole graph that each stands for.
    pub(crate) names: Vec<u32>,
    /// How many cuts it took to get it.
    pub(crate) depth: u32,
}

/// Gives the vertices of a list places from 0 on.
pub(crate) fn give_places(list: &[u32], span: Span, places: &mut [u32]) {
    for k in span.start..span.end {
        let place = stored(k.saturating_sub(span.start));
        put(places, at(list, k) as usize, place);
    }
}

impl Piece {
    /// Adds the row of a vertex to a part, at whose places its neighbours are.
    fn add_row(&self, part: &mut Piece, places: &[u32], v: u32) -> Result<(), Memory> {
        let row = self.rows.row(v);
        for k in row.start..row.end {
            let place = at(places, self.rows.listed(k) as usize);
            if place != NONE {
                part.rows.push(place)?;
            }
        }
        part.rows.end_row()?;
        let name = at(&self.names, v as usize);
        part.names.push(name).map_err(AllocError::from)?;
        Ok(())
    }

    /// The part that has these vertices of a list, which have no places yet, one cut deeper.
    pub(crate) fn part(
        &self,
        alloc: Global,
        found: (&[u32], Span),
        places: &mut [u32],
        stop: &Option<Stop>,
    ) -> Result<Piece, Unfinished>
        ensures halts { IfErr result (λ e. e ≡ Halted → IsSome stop.now) }
    {
        let mut part = Piece {
            rows: Neighbours::none(alloc),
            names: Vec::new(alloc),
            depth: self.depth.saturating_add(1),
        };
        let (list, span) = found;
        give_places(list, span, places);
        for k in span.start..span.end {
            look_at(stop)?;
            self.add_row(&mut part, places, at(list, k))?;
        }
        Ok(part)
    }
}
