//! Batches that move between a part and a mailbox.
ghost use Rattle.std.specs.Prelude.{◌≡◌, ◌≢◌, true, ◌<◌};
ghost use Rattle.atomic_table.specs.Table.{rest};
ghost use Rattle.post_floor.specs.Boxes.{box_count, dest, origin, IsBetween};
ghost use Rattle.post_floor.specs.Floor.{fill_claims};
ghost use Rattle.post_floor.specs.Plays.{IsNextFill, IsNextRead, HasEmpty, PublishOutcome, published_to, BatchOutcome};
ghost use Rattle.post_floor.specs.Data.{AtTable, IsSamePass};

use crate::mailbox::FULL;
use crate::steps::{publish_word, read_word};
use crate::table::{Mailboxes, Pass};
use path_algebra::PathAlgebra;
use shard_part::laws::part_holds;
use shard_part::{Part, Shard};
use std::marker::Brand;

/// Moves an outbox into the slot of a mailbox that is being filled, which is full then.
pub(crate) fn publish_batch<A: PathAlgebra>(
    table: &Mailboxes<A>,
    pass: &mut Pass<A>,
    part: &mut Part<'_, A>,
    to: Shard,
    word: usize,
)
    requires at { AtTable A.meaning table.now.table_id table.now.key pass.old.table_id pass.old.me.0
        part.old }
    requires setup { part.old.setup ≡ table.now.key }
    requires to { (to ≢ part.old.shard) × (to < table.now.key.plan.shards) }
    requires between { IsBetween table.now.key.plan.shards part.old.shard to word }
    requires next { IsNextFill table.now.key.plan.shards part.old.shard to word pass.old.me.0 }
    requires claim { 0 < fill_claims word pass.old.me.0 }
    requires held { HasEmpty table.now.key word pass.old.me }
    ensures pass { IsSamePass pass.old pass.new }
    ensures part { part.new ≡ published_to to part.old }
    ensures told { PublishOutcome to part.new word pass.old.me.0 pass.new.me.0 ×
        (pass.new.me.1 ≡ rest pass.old.me.1) }
{
    part_holds(part);
    let mut batch = table.exchange(pass, word, None).unwrap();
    part.swap_outbox(to, &mut batch);
    match table.exchange(pass, word, Some(batch)) {
        None => {}
        Some(_) => unreachable!(),
    }
    publish_word::<A, Brand>(table, pass, part, word);
}

/// Whether a mailbox is full. If so, it is being read now, and its batch goes into the queue.
pub(crate) fn read_batch<A: PathAlgebra>(
    table: &Mailboxes<A>,
    pass: &mut Pass<A>,
    part: &mut Part<'_, A>,
    word: usize,
) -> bool
    requires at { AtTable A.meaning table.now.table_id table.now.key pass.old.table_id pass.old.me.0
        part.old }
    requires setup { part.old.setup ≡ table.now.key }
    requires word { word < box_count table.now.key.plan.shards }
    requires to { dest table.now.key.plan.shards word ≡ part.old.shard }
    requires from { origin table.now.key.plan.shards word ≢ part.old.shard }
    requires next { IsNextRead table.now.key.plan.shards (origin table.now.key.plan.shards word)
        part.old.shard word pass.old.me.0 }
    ensures pass { IsSamePass pass.old pass.new }
    ensures told { BatchOutcome A.meaning result part.old part.new word pass.old.me pass.new.me }
{
    if read_word::<A, Brand>(table, pass, part, word) != FULL {
        return false;
    }
    let mut batch = table.exchange(pass, word, None).unwrap();
    part.receive(&mut batch);
    match table.exchange(pass, word, Some(batch)) {
        None => {}
        Some(_) => unreachable!(),
    }
    true
}
