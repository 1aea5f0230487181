//! The searches of a flow: from which gates one more unit could go to the last end, or to which it
//! could come from the first.
ghost use Rattle.std.specs.Prelude.{◌≡◌, IfErr, IsSome};
ghost use Rattle.halting.specs.declared.unfinished.Unfinished.TheVariants.{Halted};

use crate::carrier::{Gate, OUTSIDE, Way};
use crate::flow::Flow;
use crate::lists::{NONE, at};
use crate::neighbours::Neighbours;
use halting::{Stop, Unfinished, look_at};
use road_graph::Memory;
use std::alloc::AllocError;

impl Flow {
    /// The distance of a gate.
    #[inline]
    pub(crate) fn distance(&self, gate: Gate) -> u32 {
        match gate {
            Gate::Entry(v) => self.carrier(v).entry,
            Gate::Exit(v) => self.carrier(v).exit,
        }
    }

    /// Sets the distance of a gate.
    #[inline]
    pub(crate) fn set_distance(&mut self, gate: Gate, distance: u32) {
        match gate {
            Gate::Entry(v) => self.carrier_mut(v).entry = distance,
            Gate::Exit(v) => self.carrier_mut(v).exit = distance,
        }
    }

    /// Forgets what the last search found.
    fn forget(&mut self) {
        self.reached.clear();
        for k in 0..self.open.len() {
            let v = at(&self.open, k);
            let carrier = self.carrier_mut(v);
            carrier.entry = NONE;
            carrier.exit = NONE;
            carrier.tried = 0;
        }
    }

    /// Reaches a gate, unless it is closed or was reached before.
    #[inline]
    fn reach(&mut self, gate: Gate, distance: u32) -> Result<(), Memory> {
        if self.distance(gate) == NONE {
            self.set_distance(gate, distance);
            self.reached.push(gate).map_err(AllocError::from)?;
        }
        Ok(())
    }

    /// Reaches the gates that a search begins with.
    fn reach_end(&mut self, way: Way) -> Result<(), Memory> {
        let count = match way {
            Way::Back => self.lasts.len(),
            Way::On => self.firsts.len(),
        };
        for k in 0..count {
            let v = match way {
                Way::Back => at(&self.lasts, k),
                Way::On => at(&self.firsts, k),
            };
            self.reach(way.near(v), 0)?;
        }
        Ok(())
    }

    /// Goes on from the gate at which a vertex was reached: through it if it carries nothing, or
    /// along its unit.
    fn cross(&mut self, way: Way, v: u32, distance: u32) -> Result<(), Memory> {
        let carrier = self.carrier(v);
        let joined = carrier.joined(way);
        if !carrier.carries() {
            self.reach(way.far(v), distance)?;
        } else if joined != OUTSIDE {
            self.reach(way.far(joined), distance)?;
        }
        Ok(())
    }

    /// Goes on from the other gate of a vertex: to its neighbours, and through it if it carries a
    /// unit.
    fn spread(&mut self, rows: &Neighbours, way: Way, v: u32, distance: u32) -> Result<(), Memory> {
        if self.carrier(v).carries() {
            self.reach(way.near(v), distance)?;
        }
        let row = rows.row(v);
        for k in row.start..row.end {
            self.reach(way.near(rows.listed(k)), distance)?;
        }
        Ok(())
    }

    /// Goes on from a gate.
    fn go_on(&mut self, rows: &Neighbours, way: Way, gate: Gate) -> Result<(), Memory> {
        let distance = self.distance(gate).saturating_add(1);
        match (way, gate) {
            (Way::Back, Gate::Exit(v)) | (Way::On, Gate::Entry(v)) => self.cross(way, v, distance),
            (Way::Back, Gate::Entry(v)) | (Way::On, Gate::Exit(v)) => {
                self.spread(rows, way, v, distance)
            }
        }
    }

    /// Whether a unit may begin at a gate.
    fn begins(&self, gate: Gate) -> bool {
        match gate {
            Gate::Entry(v) => self.carrier(v).may_begin(),
            Gate::Exit(_) => false,
        }
    }

    /// Finds the distances of the gates that can be reached. Says whether a unit may begin at one.
    pub(crate) fn search(
        &mut self,
        rows: &Neighbours,
        way: Way,
        stop: &Option<Stop>,
    ) -> Result<bool, Unfinished>
        ensures halts { IfErr result (λ e. e ≡ Halted → IsSome stop.now) }
    {
        self.forget();
        self.reach_end(way)?;
        let mut found = false;
        for k in 0..self.open.len().saturating_mul(2) {
            let Some(gate) = self.reached.get(k) else {
                break;
            };
            let gate = *gate;
            look_at(stop)?;
            found = found || self.begins(gate);
            self.go_on(rows, way, gate)?;
        }
        self.work = self.work.saturating_add(self.reached.len() as u64);
        Ok(found)
    }
}
