//! The six steps of a seat: each reads or changes one word of the table, by one atomic operation.
//!
//! What a step reports of the seat's part is a type (`plays.rt`), in which a type `W` stands for
//! the part. A caller passes `Brand` for `W`, and its proof names the part.
ghost use Rattle.std.specs.Prelude.{◌≡◌, ◌≢◌, true, ◌<◌, [], ◌∷◌};
ghost use Rattle.shard_part.specs.Readings.{has_ended};
ghost use Rattle.post_floor.specs.Boxes.{box_count, dest, origin};
ghost use Rattle.post_floor.specs.Floor.{fill_claims, read_claims};
ghost use Rattle.post_floor.specs.Plays.{IsNextFill, IsNextRead, HasEmpty, FillStep, PublishStep, ReadStep, ClearStep, LookStep, AnnounceStep};
ghost use Rattle.post_floor.specs.Data.{IsSamePass, MakesStep, Publishing};

use crate::mailbox::{DONE, EMPTY, FILLING, FULL, READING};
use crate::plays::{Announce, Clear, Fill, Look, OfPart, Publish, Read};
use crate::table::{Mailboxes, Pass};
use path_algebra::PathAlgebra;
use shard_part::Part;

/// A mailbox that is empty is being filled.
pub(crate) fn fill_word<A: PathAlgebra, W: OfPart<A, A::Value>>(
    table: &Mailboxes<A>,
    pass: &mut Pass<A>,
    part: &Part<'_, A>,
    word: usize,
) -> u64
    requires step { MakesStep A.meaning table.now pass.old W.parts part.now }
    requires word { word < box_count table.now.key.plan.shards }
    requires next { IsNextFill table.now.key.plan.shards part.now.shard
        (dest table.now.key.plan.shards word) word pass.old.me.0 }
    ensures pass { IsSamePass pass.old pass.new }
    ensures told { FillStep A.meaning part.now word pass.old.me result pass.new.me }
{
    table.compare_exchange::<Fill<W>>(pass, word, EMPTY, FILLING)
}

/// A mailbox with the part's outbox in its slot is full.
pub(crate) fn publish_word<A: PathAlgebra, W: OfPart<A, A::Value>>(
    table: &Mailboxes<A>,
    pass: &mut Pass<A>,
    part: &Part<'_, A>,
    word: usize,
)
    requires told { W.parts ≡ part.now ∷ [] }
    requires batch { Publishing A.meaning table.now pass.old word part.now }
    requires claim { 0 < fill_claims word pass.old.me.0 }
    requires word { word < box_count table.now.key.plan.shards }
    requires next { IsNextFill table.now.key.plan.shards part.now.shard
        (dest table.now.key.plan.shards word) word pass.old.me.0 }
    requires other { dest table.now.key.plan.shards word ≢ part.now.shard }
    ensures pass { IsSamePass pass.old pass.new }
    ensures told { PublishStep A.meaning part.now word pass.old.me pass.new.me }
{
    table.store::<Publish<W>>(pass, word, FULL);
}

/// A mailbox that is full is being read.
pub(crate) fn read_word<A: PathAlgebra, W: OfPart<A, A::Value>>(
    table: &Mailboxes<A>,
    pass: &mut Pass<A>,
    part: &Part<'_, A>,
    word: usize,
) -> u64
    requires step { MakesStep A.meaning table.now pass.old W.parts part.now }
    requires word { word < box_count table.now.key.plan.shards }
    requires to { dest table.now.key.plan.shards word ≡ part.now.shard }
    requires from { origin table.now.key.plan.shards word ≢ part.now.shard }
    requires next { IsNextRead table.now.key.plan.shards (origin table.now.key.plan.shards word)
        part.now.shard word pass.old.me.0 }
    ensures pass { IsSamePass pass.old pass.new }
    ensures told { ReadStep A.meaning part.now word pass.old.me result pass.new.me }
{
    table.compare_exchange::<Read<W>>(pass, word, FULL, READING)
}

/// A mailbox whose slot is empty again is empty.
pub(crate) fn clear_word<A: PathAlgebra, W: OfPart<A, A::Value>>(
    table: &Mailboxes<A>,
    pass: &mut Pass<A>,
    part: &Part<'_, A>,
    word: usize,
)
    requires step { MakesStep A.meaning table.now pass.old W.parts part.now }
    requires slot { HasEmpty table.now.key word pass.old.me }
    requires claim { 0 < read_claims word pass.old.me.0 }
    requires word { word < box_count table.now.key.plan.shards }
    requires next { IsNextRead table.now.key.plan.shards (origin table.now.key.plan.shards word)
        part.now.shard word pass.old.me.0 }
    ensures pass { IsSamePass pass.old pass.new }
    ensures told { ClearStep A.meaning part.now word pass.old.me pass.new.me }
{
    table.store::<Clear<W>>(pass, word, EMPTY);
}

/// Reads the done word.
pub(crate) fn look_word<A: PathAlgebra, W: OfPart<A, A::Value>>(
    table: &Mailboxes<A>,
    pass: &mut Pass<A>,
    part: &Part<'_, A>,
    done: usize,
) -> u64
    requires step { MakesStep A.meaning table.now pass.old W.parts part.now }
    requires done { done ≡ box_count table.now.key.plan.shards }
    ensures pass { IsSamePass pass.old pass.new }
    ensures told { LookStep A.meaning part.now (box_count table.now.key.plan.shards) pass.old.me
        result pass.new.me }
{
    table.load::<Look<W>>(pass, done)
}

/// Announces the end in the done word.
pub(crate) fn announce_word<A: PathAlgebra, W: OfPart<A, A::Value>>(
    table: &Mailboxes<A>,
    pass: &mut Pass<A>,
    part: &Part<'_, A>,
    done: usize,
)
    requires step { MakesStep A.meaning table.now pass.old W.parts part.now }
    requires ended { has_ended part.now ≡ true }
    requires done { done ≡ box_count table.now.key.plan.shards }
    ensures pass { IsSamePass pass.old pass.new }
    ensures told { AnnounceStep A.meaning part.now (box_count table.now.key.plan.shards) pass.old.me
        pass.new.me }
{
    table.store::<Announce<W>>(pass, done, DONE);
}
