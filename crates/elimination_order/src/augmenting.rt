//! The augmenting paths of a flow: each adds a unit, and may turn others aside.
ghost use Rattle.std.specs.Prelude.{◌≡◌, IfErr, IsSome};
ghost use Rattle.halting.specs.declared.unfinished.Unfinished.TheVariants.{Halted};

use crate::carrier::{CLOSED, Gate, OUTSIDE};
use crate::flow::Flow;
use crate::lists::NONE;
use crate::neighbours::Neighbours;
use halting::{Stop, Unfinished, look_at};
use road_graph::Memory;
use std::alloc::AllocError;

impl Flow {
    /// Whether a gate is the next on a way to the last end, from one of this distance.
    #[inline]
    fn leads(&self, distance: u32, gate: Gate) -> bool {
        self.distance(gate).saturating_add(1) == distance
    }

    /// The next gate after the entry of a vertex: its exit if it carries nothing, or else back
    /// along its unit.
    fn after_entry(&self, v: u32) -> Option<Gate> {
        let carrier = self.carrier(v);
        let from = if carrier.carries() { carrier.before } else { v };
        let gate = Gate::Exit(from);
        if from != OUTSIDE && self.leads(carrier.entry, gate) {
            Some(gate)
        } else {
            None
        }
    }

    /// The next gate after the exit of a vertex: its entry if it carries a unit, or that of a
    /// neighbour.
    fn after_exit(&mut self, rows: &Neighbours, v: u32) -> Option<Gate> {
        let carrier = self.carrier(v);
        if carrier.carries() && self.leads(carrier.exit, Gate::Entry(v)) {
            return Some(Gate::Entry(v));
        }
        let row = rows.row(v);
        for k in row.start.saturating_add(carrier.tried as usize)..row.end {
            let gate = Gate::Entry(rows.listed(k));
            if self.leads(carrier.exit, gate) {
                return Some(gate);
            }
            let carrier = self.carrier_mut(v);
            carrier.tried = carrier.tried.saturating_add(1);
        }
        None
    }

    /// The next gate on a way to the last end.
    fn after(&mut self, rows: &Neighbours, gate: Gate) -> Option<Gate> {
        match gate {
            Gate::Entry(v) => self.after_entry(v),
            Gate::Exit(v) => self.after_exit(rows, v),
        }
    }

    /// Undoes each step of units that the path goes back along.
    fn undo(&mut self) {
        for k in 1..self.path.len() {
            if let (Some(Gate::Entry(to)), Some(Gate::Exit(from))) = (
                self.path.get(k - 1),
                self.path.get(k),
            ) {
                let (to, from) = (*to, *from);
                if to != from {
                    self.carrier_mut(from).after = NONE;
                    self.carrier_mut(to).before = NONE;
                }
            }
        }
    }

    /// Lets a unit go from a vertex to another, the first from outside.
    fn join(&mut self, from: u32, to: u32) {
        self.carrier_mut(to).before = from;
        if from != OUTSIDE {
            self.carrier_mut(from).after = to;
        }
    }

    /// Lets a unit go along the path, and no other one for now.
    fn redo(&mut self) {
        let mut last = OUTSIDE;
        for k in 0..self.path.len() {
            if let Some(gate) = self.path.get(k) {
                let gate = *gate;
                match gate {
                    Gate::Exit(v) => last = v,
                    Gate::Entry(v) if v != last => self.join(last, v),
                    Gate::Entry(_) => {}
                }
                self.set_distance(gate, CLOSED);
            }
        }
        self.carrier_mut(last).after = OUTSIDE;
    }

    /// Whether a gate is an exit in the last end.
    fn is_last(&self, gate: Gate) -> bool {
        match gate {
            Gate::Entry(_) => false,
            Gate::Exit(v) => self.carrier(v).exit == 0,
        }
    }

    /// Adds a unit that begins at a vertex, if there is a way for it.
    pub(crate) fn add_unit(
        &mut self,
        rows: &Neighbours,
        v: u32,
        stop: &Option<Stop>,
    ) -> Result<bool, Unfinished>
        ensures halts { IfErr result (λ e. e ≡ Halted → IsSome stop.now) }
    {
        self.path.clear();
        self.path.push(Gate::Entry(v)).map_err(AllocError::from)?;
        for _ in 0..self.open.len().saturating_mul(8) {
            look_at(stop)?;
            let Some(gate) = self.path.last() else {
                return Ok(false);
            };
            let gate = *gate;
            if self.is_last(gate) {
                self.undo();
                self.redo();
                return Ok(true);
            }
            if let Some(next) = self.after(rows, gate) {
                self.path.push(next).map_err(AllocError::from)?;
            } else {
                self.set_distance(gate, CLOSED);
                self.path.pop();
            }
        }
        Ok(false)
    }
}
