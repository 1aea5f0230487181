//! The floor of a diffusion: opened, used by seats step by step, and closed.
ghost use Rattle.std.specs.Prelude.{◌≡◌, ◌≢◌, ⊤, ℕ, true, ◌<◌, map, IfOk, IfErr, IfSome, IsTrue, None, Some};
ghost use Rattle.shard_part.specs.Readings.{has_ended};
ghost use Rattle.shard_part.specs.Weights.{All};
ghost use Rattle.post_floor.specs.Boxes.{box_count};
ghost use Rattle.post_floor.specs.Closing.{AllSeated, IsClosed};
ghost use Rattle.post_floor.specs.Data.{IsAt, IsFresh, IsSameSeat, fill_box, read_box, seat_of};
ghost use Rattle.post_floor.specs.Floor.{fill_claims, read_claims};
ghost use Rattle.post_floor.specs.Hints.{IsAdvertised, IsLimit};
ghost use Rattle.post_floor.specs.Plays.{FillOutcome, PublishOutcome, ReadOutcome, ClearOutcome, LookOutcome, published_to};

use crate::claims::rotate_to;
use crate::close::{Closed, all_seated, free, join_all, pass_of};
use crate::exchange::{publish_batch, read_batch};
use crate::hints::{Advertised, Hints, Limit, limit_by};
use crate::mailbox::{DONE, EMPTY, mailbox_count, next_slot, word_of};
use crate::open::{batches, seat_all};
use crate::seat::Seat;
use crate::steps::{announce_word, clear_word, fill_word, look_word};
use crate::table::FloorRule;
use crate::view::View;
use atomic_table::Table;
use path_algebra::PathAlgebra;
use road_graph::{Memory, Vertex};
use shard_part::laws::part_holds;
use shard_part::{Batch, Part, Plan, Setup, Shard};
use std::alloc::Global;
use std::marker::{Brand, Model};

/// The mailboxes between the parts of a diffusion: four words and four slots for each ordered pair
/// of shards, and one done word. A word says whether its slot is empty, being filled, full or being
/// read.
#[derive(Drop)]
pub struct Floor<A: PathAlgebra> {
    pub(crate) table: Table<Option<Batch<A::Value>>, View<A>, Setup<A>, FloorRule<A>, Global>,
    pub(crate) shards: usize,
    pub(crate) hints: Hints,
}

impl<A: PathAlgebra> Model for Floor<A> {
    ghost use Rattle.std.specs.Prelude.{◌≡◌, ◌≤◌};
    ghost use Rattle.post_floor.specs.Data.{FloorData, IsTableSized};

    ghost Value = { FloorData A };

    ghost view = { λ f. record { id = f.table.shared.table_id; setup = f.table.shared.key; ahead = f.hints.ahead } };

    ghost invariant = { λ f. IsTableSized f.table.shared.table_id f.table.shared.key × (f.table.shared.key.plan.shards ≡ f.shards) × (f.shards ≤ 64) };
}

impl<A: PathAlgebra> Floor<A> {
    /// A floor with empty mailboxes, and a seat for each part, in order. The parts are those of all
    /// shards of the plan, as they were opened for one diffusion from the source. Each mailbox has
    /// room for an item on each arc between its two shards: no later call takes memory.
    pub fn open(
        alloc: Global,
        plan: &Plan,
        _source: Vertex,
        parts: &[Part<'_, A>],
    ) -> Result<(Floor<A>, Vec<Seat<A>>), Memory>
        requires fresh { IsFresh A.meaning plan.now _source parts.now }
        ensures floor { IfOk result (λ r. (r.0.setup.plan ≡ plan.now) ×
            All (λ p. p.setup ≡ r.0.setup) parts.now) }
        ensures seats { IfOk result
            (λ r. r.1.items ≡ map (seat_of r.0.id plan.now.shards) parts.now) }
        ensures unheld { IfOk result (λ r. r.0.ahead ≡ None) }
    {
        let shards = plan.shards() as usize;
        let first = &parts[0];
        part_holds(first);
        let words = Vec::from_elem(alloc, 0u64, mailbox_count(shards) + 1)?;
        let slots = batches(alloc, first, parts, shards)?;
        let setup = first.setup();
        let Ok((table, pass)) = Table::new(alloc, words.as_slice(), slots, &setup) else {
            return Err(Memory);
        };
        let seats = seat_all(alloc, &table.shared, pass, shards)?;
        let hints = Hints::new(alloc, shards)?;
        Ok((
            Floor {
                table,
                shards,
                hints,
            },
            seats,
        ))
    }

    /// From now on a shard takes no message that is worse than the best value that another one
    /// advertises, or that waits for another one there, extended by an arc of this weight.
    /// Stations go by this best first alone: in order of arrival it has no effect.
    pub fn hold_back(&mut self, ahead: u32)
        ensures { self.new ≡ record self.old { ahead = Some ahead } }
    {
        self.hints.hold_back(ahead);
    }

    /// How far a part may run ahead now, if shards are held back and another one advertises a
    /// value. Of what they advertise nothing is promised.
    pub fn limit(&self, part: &Part<'_, A>) -> Option<Limit<A::Value>>
        ensures order { IfSome result (λ l. IsTrue (A.order l.best l.value)) }
        ensures limit { IfSome result (λ l. (ahead : ℕ) × (self.now.ahead ≡ Some ahead) ×
            IsLimit (A.meaning part.now.setup.diffusion.algebra) (λ _ _. ⊤) self.now.setup.plan.shards
            part.now.shard ahead (Some l)) }
    {
        let ahead = self.hints.ahead()?;
        limit_by(
            &self.hints,
            part.algebra(),
            part.shard(),
            self.shards as u8,
            ahead,
        )
    }

    /// By what weight a part may run ahead of what it has sent, if shards are held back.
    pub fn ahead(&self) -> Option<u32>
        ensures { result ≡ self.now.ahead }
    {
        self.hints.ahead()
    }

    /// Advertises the best value that waits at a part, if shards are held back, and says so.
    pub fn advertise(&self, part: &Part<'_, A>) -> Option<Advertised<A::Value>>
        ensures { IsAdvertised A.order self.now part.now result }
    {
        if self.hints.ahead().is_none() {
            return None;
        }
        let best = part.best_waiting();
        Some(self.hints.advertise(part.algebra(), part.shard(), best))
    }

    /// Whether the next mailbox to a shard is empty. If so, this seat is filling it now.
    pub fn try_fill(&self, seat: &mut Seat<A>, part: &Part<'_, A>, to: Shard) -> bool
        requires at { IsAt A.meaning self.now seat.old part.now }
        requires shard { to < self.now.setup.plan.shards }
        ensures seat { IsSameSeat seat.old seat.new }
        ensures at { IsAt A.meaning self.now seat.new part.now }
        ensures told { FillOutcome result part.now (fill_box self.now seat.old to) seat.old.knows
            seat.new.knows }
    {
        let shards = self.shards;
        let slot = seat.next_fill[to.0 as usize];
        let word = word_of(shards, seat.own, to, slot);
        if fill_word::<A, Brand>(&self.table.shared, &mut seat.pass, part, word) != EMPTY {
            return false;
        }
        seat.claims.push_front(word);
        true
    }

    /// Moves the outbox to a shard into the mailbox that is being filled for it, which is full
    /// then.
    pub fn publish(&self, seat: &mut Seat<A>, part: &mut Part<'_, A>, to: Shard)
        requires at { IsAt A.meaning self.now seat.old part.old }
        requires shard { (to ≢ seat.old.shard) × (to < self.now.setup.plan.shards) }
        // A `try_fill` to this shard was true, and no `publish` to it has come since.
        requires claim { 0 < fill_claims (fill_box self.now seat.old to) seat.old.knows }
        ensures seat { IsSameSeat seat.old seat.new }
        ensures at { IsAt A.meaning self.now seat.new part.new }
        ensures part { part.new ≡ published_to to part.old }
        ensures told { PublishOutcome to part.new (fill_box self.now seat.old to) seat.old.knows
            seat.new.knows }
    {
        let shards = self.shards;
        let at = to.0 as usize;
        let slot = seat.next_fill[at];
        let word = word_of(shards, seat.own, to, slot);
        rotate_to(&mut seat.pass, &mut seat.claims, word);
        let sent = self.best_to_send(part, to);
        publish_batch(&self.table.shared, &mut seat.pass, part, to, word);
        seat.claims.pop_front();
        seat.next_fill[at] = next_slot(slot);
        if let Some(sent) = sent {
            self.hints.lower(part.algebra(), to, sent);
        }
    }

    /// The best value in an outbox, if shards are held back.
    fn best_to_send(&self, part: &Part<'_, A>, to: Shard) -> Option<A::Value>
        requires { to < part.now.setup.plan.shards }
    {
        if self.hints.ahead().is_none() {
            return None;
        }
        part.best_outgoing(to)
    }

    /// Whether the next mailbox from a shard is full. If so, its batch goes into the queue, and the
    /// seat reads it.
    pub fn try_read(&self, seat: &mut Seat<A>, part: &mut Part<'_, A>, from: Shard) -> bool
        requires at { IsAt A.meaning self.now seat.old part.old }
        requires shard { (from ≢ seat.old.shard) × (from < self.now.setup.plan.shards) }
        ensures seat { IsSameSeat seat.old seat.new }
        ensures at { IsAt A.meaning self.now seat.new part.new }
        ensures told { ReadOutcome A.meaning result part.old part.new
            (read_box self.now seat.old from) seat.old.knows seat.new.knows }
    {
        let shards = self.shards;
        let slot = seat.next_read[from.0 as usize];
        let word = word_of(shards, from, seat.own, slot);
        if read_batch(&self.table.shared, &mut seat.pass, part, word) {
            seat.claims.push_front(word);
            true
        } else {
            false
        }
    }

    /// Makes the mailbox that was read from a shard empty again.
    pub fn clear(&self, seat: &mut Seat<A>, part: &Part<'_, A>, from: Shard)
        requires at { IsAt A.meaning self.now seat.old part.now }
        requires shard { from < self.now.setup.plan.shards }
        // A `try_read` from this shard was true, and no `clear` from it has come since.
        requires claim { 0 < read_claims (read_box self.now seat.old from) seat.old.knows }
        ensures seat { IsSameSeat seat.old seat.new }
        ensures at { IsAt A.meaning self.now seat.new part.now }
        ensures told { ClearOutcome from part.now (read_box self.now seat.old from) seat.old.knows
            seat.new.knows }
    {
        let shards = self.shards;
        let at = from.0 as usize;
        let slot = seat.next_read[at];
        let word = word_of(shards, from, seat.own, slot);
        rotate_to(&mut seat.pass, &mut seat.claims, word);
        clear_word::<A, Brand>(&self.table.shared, &mut seat.pass, part, word);
        seat.claims.pop_front();
        seat.next_read[at] = next_slot(slot);
    }

    /// Announces the end, which the part knows: its diffusion has ended.
    pub fn announce(&self, seat: &mut Seat<A>, part: &Part<'_, A>)
        requires at { IsAt A.meaning self.now seat.old part.now }
        requires ended { has_ended part.now ≡ true }
        ensures seat { IsSameSeat seat.old seat.new }
        ensures at { IsAt A.meaning self.now seat.new part.now }
        ensures told { LookOutcome A.meaning true part.now (box_count self.now.setup.plan.shards)
            seat.old.knows seat.new.knows }
    {
        let done = mailbox_count(self.shards);
        announce_word::<A, Brand>(&self.table.shared, &mut seat.pass, part, done);
    }

    /// Whether the end was announced. If so, the state that the floor represents has ended and is
    /// quiet, and the part holds its share of it.
    pub fn look(&self, seat: &mut Seat<A>, part: &Part<'_, A>) -> bool
        requires at { IsAt A.meaning self.now seat.old part.now }
        ensures seat { IsSameSeat seat.old seat.new }
        ensures at { IsAt A.meaning self.now seat.new part.now }
        ensures told { LookOutcome A.meaning result part.now (box_count self.now.setup.plan.shards)
            seat.old.knows seat.new.knows }
    {
        let done = mailbox_count(self.shards);
        look_word::<A, Brand>(&self.table.shared, &mut seat.pass, part, done) == DONE
    }

    /// Closes the floor with the seats of all its shards, whatever claims they have open. If a
    /// shard's seat is missing, floor and seats come back as they were.
    ///
    /// What the seats know together and what the mailboxes held at the end represent one state,
    /// which some events lead to from the opening. The seats' counts are what these events did, and
    /// the state has ended if that was announced or a seat has seen it.
    pub fn close(self, mut seats: Vec<Seat<A>>) -> Result<Closed<A>, (Floor<A>, Vec<Seat<A>>)>
        requires seats { All (λ d. d.floor ≡ self.id) seats.items }
        ensures closed { IfOk result (λ r. AllSeated self.setup.plan.shards seats.items ×
            IsClosed A.meaning self.setup seats.items r) }
        ensures refused { IfErr result (λ r. (AllSeated self.setup.plan.shards seats.items → ⊥) ×
            (r.0 ≡ self) × (r.1 ≡ seats)) }
    {
        let Floor {
            table,
            shards,
            hints,
        } = self;
        if !all_seated(&seats, shards) {
            let floor = Floor {
                table,
                shards,
                hints,
            };
            return Err((floor, seats));
        }
        let Some(last) = seats.pop() else {
            unreachable!()
        };
        let pass = join_all(&table.shared, pass_of(last), seats);
        let end = table.close_with(pass);
        let closed = Closed::of(&end);
        free(end);
        Ok(closed)
    }
}
