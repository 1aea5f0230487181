//! The claims of a seat, in the order of the slots that it has out.
ghost use Rattle.std.specs.Prelude.{◌≡◌, ◌∷◌, ℕ, ◌<◌, ◌≤◌, length, map};
ghost use Rattle.atomic_table.specs.Table.{rest};
ghost use Rattle.circular_buffer.specs.Buffer.{buffer};
ghost use Rattle.shard_store.specs.Setup.{SetupData};
ghost use Rattle.shard_store.specs.Totals.{total, is};
ghost use Rattle.post_floor.specs.declared.view.View.{View};
ghost use Rattle.post_floor.specs.Claims.{cycled, first_is};
ghost use Rattle.post_floor.specs.Data.{AreOpen};

use crate::table::Pass;
use circular_buffer::HeapCircularBuffer;
use path_algebra::PathAlgebra;

/// Moves the first claim to the end.
fn rotate(claims: &mut HeapCircularBuffer<usize>)
    requires { (0 < length claims.old.items) × (length claims.old.items ≤ claims.old.capacity) }
    ensures { claims.new ≡ buffer (cycled claims.old.items) claims.old.capacity }
{
    if let Some(word) = claims.pop_front() {
        claims.push_back(word);
    }
}

/// Whether the first claim is on a mailbox.
fn is_first(claims: &HeapCircularBuffer<usize>, word: usize) -> bool
    ensures { result ≡ first_is word claims.now.items }
{
    match claims.front() {
        Some(first) => *first == word,
        None => false,
    }
}

/// Rotates the claims and the slots until those of a mailbox are the first.
pub(crate) fn rotate_to<A: PathAlgebra>(
    pass: &mut Pass<A>,
    claims: &mut HeapCircularBuffer<usize>,
    word: usize,
)
    requires keys { map (λ x. x.0) pass.old.me.1 ≡ claims.old.items }
    requires room { length claims.old.items ≤ claims.old.capacity }
    requires claim { 0 < total (is word) claims.old.items }
    ensures pass { (pass.new.table_id ≡ pass.old.table_id) × (pass.new.id ≡ pass.old.id) ×
        (pass.new.me.0 ≡ pass.old.me.0) }
    ensures room { (claims.new.capacity ≡ claims.old.capacity) ×
        (length claims.new.items ≡ length claims.old.items) }
    ensures open { (t : SetupData A) (s : ℕ) (v : View A A.Value) →
        AreOpen t s v pass.old.me.1 claims.old.items → AreOpen t s v pass.new.me.1 claims.new.items }
    ensures first { (y : _) × (pass.new.me.1 ≡ (word, y) ∷ rest pass.new.me.1) }
{
    while !is_first(claims, word) {
        rotate(claims);
        pass.turn();
    }
}
