//! A flow of as many units as there can be, from the first end of a piece to the last, with one in
//! each vertex at most (Dinic, Soviet Math. Dokl. 11, 1970).
ghost use Rattle.std.specs.Prelude.{◌≡◌, IfErr, IsSome};
ghost use Rattle.halting.specs.declared.unfinished.Unfinished.TheVariants.{Halted};

use crate::carrier::{CLOSED, Carrier, End, Gate, Way};
use crate::lists::{NONE, at, stored};
use crate::neighbours::Neighbours;
use halting::{Stop, Unfinished, look_at};
use road_graph::Memory;
use std::alloc::{AllocError, Global};

/// A flow in a connected graph, with what its searches need.
#[derive(Drop)]
pub(crate) struct Flow {
    carriers: Vec<Carrier>,
    /// The carrier of a number that is no vertex.
    other: Carrier,
    /// The vertices that units may go through: those outside the ends, and those at the rims.
    pub(crate) open: Vec<u32>,
    /// Those of them that are in the first end.
    pub(crate) firsts: Vec<u32>,
    /// Those of them that are in the last end.
    pub(crate) lasts: Vec<u32>,
    /// The gates that a search has reached.
    pub(crate) reached: Vec<Gate>,
    /// The gates of a path to the last end.
    pub(crate) path: Vec<Gate>,
    /// How many units there are.
    pub(crate) value: u32,
    /// How many gates all searches have reached.
    pub(crate) work: u64,
    /// So many of a hundred vertices are in each end.
    percent: u32,
    /// Once there are so many gates, flows are given up.
    most: u64,
}

/// The end that a rank of n is in, if so many of a hundred are in each.
fn end_of(rank: u32, n: u32, percent: u32) -> End {
    let most = u64::from(n).saturating_mul(u64::from(percent));
    let after = n.saturating_sub(1).saturating_sub(rank);
    if u64::from(rank).saturating_mul(100) < most {
        End::First
    } else if u64::from(after).saturating_mul(100) < most {
        End::Last
    } else {
        End::Neither
    }
}

impl Flow {
    /// No vertex yet, with so many of a hundred in each end, and flows that are given up after so
    /// many gates.
    pub(crate) fn new(alloc: Global, percent: u32, most: u64) -> Self {
        Flow {
            carriers: Vec::new(alloc),
            other: Carrier::new(End::Neither),
            open: Vec::new(alloc),
            firsts: Vec::new(alloc),
            lasts: Vec::new(alloc),
            reached: Vec::new(alloc),
            path: Vec::new(alloc),
            value: 0,
            work: 0,
            percent,
            most,
        }
    }

    /// What a vertex carries.
    #[inline]
    pub(crate) fn carrier(&self, v: u32) -> Carrier {
        match self.carriers.get(v as usize) {
            Some(carrier) => *carrier,
            None => self.other,
        }
    }

    /// What a vertex carries, to be changed.
    #[inline]
    pub(crate) fn carrier_mut(&mut self, v: u32) -> &mut Carrier {
        match self.carriers.get_mut(v as usize) {
            Some(carrier) => carrier,
            None => &mut self.other,
        }
    }

    /// Whether a vertex and all its neighbours are in the same end.
    fn is_inside(&self, rows: &Neighbours, v: u32) -> bool {
        let end = self.carrier(v).end;
        let row = rows.row(v);
        if end == End::Neither {
            return false;
        }
        for k in row.start..row.end {
            if self.carrier(rows.listed(k)).end != end {
                return false;
            }
        }
        true
    }

    /// Lets units go through a vertex.
    fn open(&mut self, v: u32) -> Result<(), Memory> {
        self.open.push(v).map_err(AllocError::from)?;
        match self.carrier(v).end {
            End::First => self.firsts.push(v).map_err(AllocError::from)?,
            End::Last => self.lasts.push(v).map_err(AllocError::from)?,
            End::Neither => {}
        }
        Ok(())
    }

    /// Gives each vertex its end by its rank, and no unit.
    fn clear(&mut self, ranks: &[u32]) -> Result<(), Memory> {
        self.carriers.clear();
        self.open.clear();
        self.firsts.clear();
        self.lasts.clear();
        self.value = 0;
        let n = stored(ranks.len());
        for rank in ranks {
            let carrier = Carrier::new(end_of(*rank, n, self.percent));
            self.carriers.push(carrier).map_err(AllocError::from)?;
        }
        Ok(())
    }

    /// Begins with no unit.
    pub(crate) fn begin(
        &mut self,
        rows: &Neighbours,
        ranks: &[u32],
        stop: &Option<Stop>,
    ) -> Result<(), Unfinished>
        ensures halts { IfErr result (λ e. e ≡ Halted → IsSome stop.now) }
    {
        self.clear(ranks)?;
        for v in 0..rows.vertices() {
            look_at(stop)?;
            if !self.is_inside(rows, v) {
                self.open(v)?;
            }
        }
        Ok(())
    }

    /// Adds a unit from each vertex of the first end that can have one, up to a bound.
    fn add_units(
        &mut self,
        rows: &Neighbours,
        bound: u32,
        stop: &Option<Stop>,
    ) -> Result<(), Unfinished>
        ensures halts { IfErr result (λ e. e ≡ Halted → IsSome stop.now) }
    {
        for k in 0..self.firsts.len() {
            let v = at(&self.firsts, k);
            let carrier = self.carrier(v);
            let may_begin = carrier.may_begin() && carrier.entry != NONE && carrier.entry != CLOSED;
            if may_begin && self.add_unit(rows, v, stop)? {
                self.value = self.value.saturating_add(1);
            }
            if self.value >= bound {
                return Ok(());
            }
        }
        Ok(())
    }

    /// Whether the searches have reached as many gates as they may.
    pub(crate) fn is_spent(&self) -> bool {
        self.work >= self.most
    }

    /// Adds units until there can be no more. Says whether it came to that before it came to the
    /// bound of units, or of gates.
    pub(crate) fn run(
        &mut self,
        rows: &Neighbours,
        bound: u32,
        stop: &Option<Stop>,
    ) -> Result<bool, Unfinished>
        ensures halts { IfErr result (λ e. e ≡ Halted → IsSome stop.now) }
    {
        for _ in 0..bound {
            if !self.search(rows, Way::Back, stop)? {
                return Ok(true);
            }
            self.add_units(rows, bound, stop)?;
            if self.value >= bound || self.is_spent() {
                return Ok(false);
            }
        }
        Ok(false)
    }
}
