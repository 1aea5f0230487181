//! Nested dissection (George, SIAM J. Numer. Anal. 10, 1973): a graph is cut, and so is each piece
//! until it is small.
ghost use Rattle.std.specs.Prelude.{◌≡◌, IfErr, IsSome};
ghost use Rattle.halting.specs.declared.unfinished.Unfinished.TheVariants.{Halted};

use crate::care::Care;
use crate::distances::Distances;
use crate::flow::Flow;
use crate::levels::Levels;
use crate::lists::{NONE, put};
use crate::piece::Piece;
use halting::{Stop, Unfinished};
use road_graph::Memory;
use std::alloc::{AllocError, Global};
use std::mem;

/// A graph in the course of dissection.
#[derive(Drop)]
pub(crate) struct Dissection {
    /// The largest piece that is not cut has so many vertices.
    whole: usize,
    pub(crate) flow: Flow,
    /// After so many gates for each vertex of a piece, no better cut is sought.
    share: u64,
    /// The pieces that are not cut yet.
    pieces: Vec<Piece>,
    /// The depth of each vertex of a cut; `NONE` for the others.
    depths: Vec<u32>,
    /// The greatest of them.
    pub(crate) deepest: u32,
}

impl Dissection {
    /// Adds the components that a cut leaves of a piece, except the small ones.
    fn split(
        &mut self,
        alloc: Global,
        piece: &Piece,
        cut: &[u32],
        stop: &Option<Stop>,
    ) -> Result<(), Unfinished>
        ensures halts { IfErr result (λ e. e ≡ Halted → IsSome stop.now) }
    {
        let n = piece.rows.ends.len();
        let mut places = vec![in alloc; NONE; n]?;
        let mut distances = Distances::new(alloc, n)?;
        distances.block(cut);
        for v in 0..piece.rows.vertices() {
            let span = distances.search(&piece.rows, v, stop)?;
            if span.len() > self.whole {
                let part = piece.part(alloc, (&distances.reached, span), &mut places, stop)?;
                self.pieces.push(part).map_err(AllocError::from)?;
            }
        }
        Ok(())
    }

    /// Notes the depth of the vertices of a cut.
    fn note(&mut self, piece: &Piece, cut: &[u32]) {
        self.deepest = self.deepest.max(piece.depth);
        for v in cut {
            if let Some(name) = piece.names.get(*v as usize) {
                put(&mut self.depths, *name as usize, piece.depth);
            }
        }
    }

    /// Cuts a piece, if there is a good cut.
    fn cut(&mut self, alloc: Global, piece: &Piece, stop: &Option<Stop>) -> Result<(), Unfinished>
        ensures halts { IfErr result (λ e. e ≡ Halted → IsSome stop.now) }
    {
        let share = self.share.saturating_mul(piece.names.len() as u64);
        let enough = self.flow.work.saturating_add(share);
        let cut = self.flow.least_cut(alloc, &piece.rows, enough, stop)?;
        if cut.len() > 0 {
            self.note(piece, &cut);
            self.split(alloc, piece, &cut, stop)?;
        }
        Ok(())
    }

    /// Cuts pieces, until the work of flows is spent: the others stay whole.
    fn cut_each(
        &mut self,
        alloc: Global,
        pieces: Vec<Piece>,
        stop: &Option<Stop>,
    ) -> Result<(), Unfinished>
        ensures halts { IfErr result (λ e. e ≡ Halted → IsSome stop.now) }
    {
        for piece in pieces {
            if self.flow.is_spent() {
                return Ok(());
            }
            self.cut(alloc, &piece, stop)?;
        }
        Ok(())
    }

    /// No cuts yet of what is left of a graph of n vertices, by flows that may reach so many gates.
    pub(crate) fn open(
        alloc: Global,
        n: usize,
        left: usize,
        care: Care,
        work: u64,
    ) -> Result<Self, Memory> {
        Ok(Dissection {
            whole: care.piece(left),
            flow: Flow::new(alloc, care.percent(), work),
            // A quarter of the work, so that pieces of pieces are cut too.
            share: work / 4 / (left as u64).max(1),
            pieces: Vec::new(alloc),
            depths: vec![in alloc; NONE; n]?,
            deepest: 0,
        })
    }

    /// Cuts what is left. Large pieces are cut before small ones, which lose least if they stay
    /// whole.
    pub(crate) fn cut_all(
        mut self,
        alloc: Global,
        rest: &Piece,
        stop: &Option<Stop>,
    ) -> Result<Self, Unfinished>
        ensures halts { IfErr result (λ e. e ≡ Halted → IsSome stop.now) }
    {
        self.split(alloc, rest, &[], stop)?;
        for _ in 0..self.depths.len() {
            if self.pieces.is_empty() {
                break;
            }
            let pieces = mem::replace(&mut self.pieces, Vec::new(alloc));
            self.cut_each(alloc, pieces, stop)?;
        }
        Ok(self)
    }

    /// The levels: what is in no cut first, and then the cuts from the deepest on.
    pub(crate) fn levels(&self, alloc: Global) -> Result<Levels, Memory> {
        let mut levels = Vec::with_capacity(alloc, self.depths.len())?;
        for depth in &self.depths {
            let level = if *depth == NONE {
                0
            } else {
                self.deepest.saturating_sub(*depth).saturating_add(1)
            };
            levels.push(level).map_err(AllocError::from)?;
        }
        Ok(Levels::new(levels))
    }
}
