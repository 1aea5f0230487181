//! The table of words and slots that a floor is built on, and its rule.
use crate::view::View;
use atomic_table::{Shared, TableRule};
use path_algebra::PathAlgebra;
use shard_part::{Batch, Setup};
use std::marker::PhantomData;

/// What holds between any two steps on the words of a floor, whoever makes them: some events lead
/// from the opening to a state that all views and all mailboxes represent.
pub struct FloorRule<A> {
    of: PhantomData<A>,
}

impl<A: PathAlgebra> TableRule<Option<Batch<A::Value>>, View<A>, Setup<A>> for FloorRule<A> {
    ghost use Rattle.shard_part.specs.Opening.{opened_parts};
    ghost use Rattle.post_floor.specs.Floor.{FloorInvariant};
    ghost use Rattle.post_floor.specs.Seats.{knows};

    ghost holds = { λ k. FloorInvariant A.meaning k };

    ghost first = { λ k. knows k.plan.shards (opened_parts (A.meaning k.diffusion.algebra) k 0 k.plan.shards) };
}

/// What one caller knows of a table, and the slots that it has out.
pub(crate) type Pass<A> = atomic_table::Seat<Option<Batch<<A as PathAlgebra>::Value>>, View<A>>;

/// The words and slots of a floor, to be shared.
pub(crate) type Mailboxes<A> = Shared<
    Option<Batch<<A as PathAlgebra>::Value>>,
    View<A>,
    Setup<A>,
    FloorRule<A>,
>;
