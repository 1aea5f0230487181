//! The words of the mailboxes and of the end, and the mailboxes by number.
ghost use Rattle.std.specs.Prelude.{◌≡◌, ◌<◌, ◌≤◌};
ghost use Rattle.post_floor.specs.Boxes.{slots_per_pair, box_count, mailbox, next_slot, IsBetween};

use shard_part::Shard;

/// The slot is empty.
pub(crate) const EMPTY: u64 = 0;

/// Its sender is filling it.
pub(crate) const FILLING: u64 = 1;

/// It has a batch.
pub(crate) const FULL: u64 = 2;

/// Its receiver is reading it.
pub(crate) const READING: u64 = 3;

/// The done word, once the end was announced.
pub(crate) const DONE: u64 = 1;

/// How many slots there are for each ordered pair of shards.
pub(crate) const SLOTS: usize = 4;

/// How many mailboxes there are between this many shards. It is also the number of the done word.
pub(crate) fn mailbox_count(shards: usize) -> usize
    requires { shards ≤ 64 }
    ensures { result ≡ box_count shards }
{
    shards * shards * SLOTS
}

/// The number of a mailbox.
#[tactic(auto, unfolding(crate::specs::Boxes::dest, crate::specs::Boxes::origin))]
pub(crate) fn word_of(shards: usize, from: Shard, to: Shard, slot: u8) -> usize
    requires { (shards ≤ 64) × (from < shards) × (to < shards) × (slot < slots_per_pair) }
    ensures number { result ≡ mailbox shards from to slot }
    ensures between { IsBetween shards from to result }
{
    (from.0 as usize * shards + to.0 as usize) * SLOTS + slot as usize
}

/// The slot after this one; after the last comes the first.
pub(crate) fn next_slot(slot: u8) -> u8
    requires { slot < slots_per_pair }
    ensures { result ≡ next_slot slot }
{
    if slot as usize + 1 == SLOTS {
        0
    } else {
        slot + 1
    }
}
