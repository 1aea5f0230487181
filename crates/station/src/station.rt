//! A part with its seat, which may be sent to another thread.
ghost use Rattle.std.specs.Prelude.{◌≡◌, true, IsTrue, IfOk, IfErr};
ghost use Rattle.post_floor.specs.Data.{seat_of};
ghost use Rattle.station.specs.Station.{BelongsTo, IsOver, ReportedEnd};
ghost use Rattle.station.specs.Opened.{IsFreshPart, station_of};
ghost use Rattle.station.specs.Turn.{Turned};

mod readings;

use crate::finished::Finished;
use crate::turn::{Report, fill_all, handle_all, look_for_end, read_all};
use path_algebra::PathAlgebra;
use post_floor::{Floor, Seat};
use shard_part::{Part, Plan, QueueOrder};
use std::marker::Model;

/// One shard's part of a diffusion, with its seat on the floor that all parts share.
#[derive(Drop)]
pub struct Station<'g, A: PathAlgebra> {
    part: Part<'g, A>,
    seat: Seat<A>,
    plan: &'g Plan,
    order: QueueOrder,
    ended: bool,
}

impl<'g, A: PathAlgebra> Model for Station<'g, A> {
    ghost use Rattle.std.specs.Prelude.{◌≡◌};
    ghost use Rattle.station.specs.Station.{StationData, IsStation};

    ghost Value = { StationData A A.Value };

    ghost view = { λ s. record { part = s.part; seat = s.seat; ended = s.ended } };

    ghost invariant = { λ s. IsStation A.meaning (record { part = s.part; seat = s.seat; ended = s.ended }) × (s.plan.now ≡ s.part.setup.plan) × (s.order ≡ s.part.setup.order) };
}

impl<'g, A: PathAlgebra> Station<'g, A> {
    /// A part that was just opened, with its seat.
    pub(crate) fn new(
        floor: &Floor<A>,
        plan: &'g Plan,
        order: QueueOrder,
        part: Part<'g, A>,
        seat: Seat<A>,
    ) -> Self
        requires plan { plan.now ≡ floor.now.setup.plan }
        requires order { order ≡ floor.now.setup.order }
        requires part { IsFreshPart A.meaning floor.now part }
        requires seat { seat ≡ seat_of floor.now.id floor.now.setup.plan.shards part }
        ensures { result ≡ station_of floor.now.id floor.now.setup.plan.shards part.entry }
    {
        Station {
            part,
            seat,
            plan,
            order,
            ended: false,
        }
    }

    /// Takes what the other shards have sent, handles items, at most `budget`, and publishes what
    /// is for the others; last it looks whether the diffusion has ended. Best first, if the floor
    /// holds shards back, messages that are worse than it allows go on waiting. In order of arrival
    /// as many items are handled as the budget allows, or the queue is empty at the return. After a
    /// turn that reported the end, a turn does nothing.
    pub fn turn(&mut self, floor: &Floor<A>, budget: u32) -> Report
        requires { BelongsTo floor.now self.old }
        ensures turned { Turned A.meaning floor.now budget self.old result self.new }
        ensures over { IsTrue result.ended → IsOver A.meaning self.new }
    {
        if self.ended {
            return Report {
                handled: 0,
                taken: 0,
                published: 0,
                held: false,
                ended: true,
            };
        }
        let taken = read_all(floor, self.plan, &mut self.seat, &mut self.part);
        let (handled, held, _) = handle_all(floor, self.plan, self.order, &mut self.part, budget);
        let published = fill_all(floor, self.plan, &mut self.seat, &mut self.part);
        self.ended = look_for_end(floor, &mut self.seat, &self.part);
        Report {
            handled,
            taken,
            published,
            held,
            ended: self.ended,
        }
    }

    /// What `gather` takes of a station whose last turn reported the end: the tables of arcs, the
    /// queue and the outboxes are freed. Any other station comes back as it was.
    pub fn finish(self) -> Result<Finished<'g, A>, Station<'g, A>>
        ensures finished { IfOk result (λ f. ReportedEnd self.entry × (f ≡ self.entry)) }
        ensures back { IfErr result (λ s. (ReportedEnd self.entry → ⊥) × (s ≡ self.entry)) }
    {
        if !self.ended {
            return Err(self);
        }
        let Station {
            part,
            seat,
            plan,
            order: _,
            ended: _,
        } = self;
        Ok(Finished {
            part: part.close(),
            seat,
            plan,
        })
    }
}
