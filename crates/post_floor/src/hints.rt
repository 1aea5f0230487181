//! What each shard advertises to the others of the best value that waits for it, and how far they
//! may run ahead of it.
ghost use Rattle.std.specs.Prelude.{◌≡◌, ⊤, ℕ, ◌≢◌, IsTrue, IfOk, IfSome, IfNone, None, Some};
ghost use Rattle.post_floor.specs.Hints.{StandsFor, IsShown, IsBestShown, IsLimit};

use crossbeam_utils::CachePadded;
use path_algebra::{PathAlgebra, better_label, laws_hold};
use shard_part::Shard;
use std::alloc::{AllocError, Global};
use std::marker::Model;
use std::sync::atomic::{AtomicU64, Ordering};

/// The code that stands for no value: nothing waits, or nothing was advertised yet.
const NOTHING: u64 = u64::MAX;

/// How often it is tried to lower a word that others write at the same time.
const TRIES: u32 = 4;

/// How far a shard may run ahead of the others.
#[derive(Clone, Copy)]
pub struct Limit<V> {
    /// The best value that another shard advertises.
    pub best: V,
    /// The same after one more arc: what is worse is held back.
    pub value: V,
}

/// What a shard has advertised: whoever has one cannot have forgotten to.
#[derive(Drop)]
pub struct Advertised<V: Copy> {
    own: Shard,
    best: Option<V>,
}

impl<V: Copy> Model for Advertised<V> {
    ghost use Rattle.post_floor.specs.Hints.{Advert};

    ghost Value = { Advert V };

    ghost view = { λ a. record { shard = a.own; best = a.best } };
}

/// Shows of each shard the best value that waits for it, by its code: a hint, which may be late.
pub trait HintSource {
    /// The codes that it may show of the shard of this number.
    ghost may_show: { Self → ℕ → ℕ → Type 0 };

    /// The code of the best value that waits for a shard, or `u64::MAX` if there is none.
    fn shown(&self, shard: Shard) -> u64
        ensures { may_show self.now shard result };
}

/// A word for each shard, on a cache line of its own, with the code of the best value that waits
/// there, and by what weight a shard may run ahead.
#[derive(Drop)]
pub(crate) struct Hints {
    words: Vec<CachePadded<AtomicU64>>,
    pub(crate) ahead: Option<u32>,
}

impl HintSource for Hints {
    ghost may_show = { λ _ _ _. ⊤ };

    fn shown(&self, shard: Shard) -> u64 {
        match self.words.get(shard.0 as usize) {
            Some(word) => word.load(Ordering::Relaxed),
            None => NOTHING,
        }
    }
}

impl Hints {
    /// Nothing is advertised, and no shard is held back.
    pub(crate) fn new(alloc: Global, shards: usize) -> Result<Hints, AllocError>
        ensures { IfOk result (λ h. h.ahead ≡ None) }
    {
        let mut words = Vec::with_capacity(alloc, shards)?;
        for _ in 0..shards {
            words.push(CachePadded::new(AtomicU64::new(NOTHING)))?;
        }
        Ok(Hints { words, ahead: None })
    }

    /// From now on a shard may run ahead by this weight.
    pub(crate) fn hold_back(&mut self, ahead: u32)
        ensures { self.new.ahead ≡ Some ahead }
    {
        self.ahead = Some(ahead);
    }

    /// By what weight a shard may run ahead, if shards are held back.
    pub(crate) fn ahead(&self) -> Option<u32>
        ensures { result ≡ self.now.ahead }
    {
        self.ahead
    }

    /// Advertises the best value that waits at a shard.
    pub(crate) fn advertise<A: PathAlgebra>(
        &self,
        algebra: A,
        own: Shard,
        best: Option<A::Value>,
    ) -> Advertised<A::Value>
        ensures { (result.shard ≡ own) × (result.best ≡ best) }
    {
        if let Some(word) = self.words.get(own.0 as usize) {
            word.store(code_of(algebra, best), Ordering::Relaxed);
        }
        Advertised { own, best }
    }

    /// Advertises at a shard the best value that was sent to it, unless what it advertises is no
    /// worse. At its next turn it advertises what waits there again.
    pub(crate) fn lower<A: PathAlgebra>(&self, algebra: A, to: Shard, sent: A::Value) {
        if let Some(word) = self.words.get(to.0 as usize) {
            for _ in 0..TRIES {
                let code = word.load(Ordering::Relaxed);
                if is_as_good(algebra, code, sent) {
                    return;
                }
                let lowered = algebra.code(sent);
                if word
                    .compare_exchange(code, lowered, Ordering::Relaxed, Ordering::Relaxed)
                    .is_ok()
                {
                    return;
                }
            }
        }
    }
}

/// How far a shard may run ahead of the first `shards` shards, by what a source shows of them.
/// `Floor::limit` asks its own words; this is public, since its promise speaks of any source.
pub fn limit_by<A: PathAlgebra, H: HintSource>(
    hints: &H,
    algebra: A,
    own: Shard,
    shards: u8,
    ahead: u32,
) -> Option<Limit<A::Value>>
    ensures limit { IsLimit (A.meaning algebra) (H.may_show hints.now) shards own ahead result }
    ensures order { IfSome result (λ l. IsTrue (A.order l.best l.value)) }
{
    match best_of_others(hints, algebra, own, shards) {
        Some(best) => limit_after(algebra, best, ahead),
        None => None,
    }
}

/// The best value that a source shows of the first `shards` shards but one.
fn best_of_others<A: PathAlgebra, H: HintSource>(
    hints: &H,
    algebra: A,
    own: Shard,
    shards: u8,
) -> Option<A::Value>
    ensures value { IfSome result (λ x. IsTrue ((A.meaning algebra).is_value x)) }
    ensures best { IsBestShown (A.meaning algebra) (H.may_show hints.now) shards own result }
{
    let mut best = None;
    for shard in 0..shards {
        if shard != own.0 {
            best = better_label::<A>(best, value_shown(hints, algebra, Shard(shard)));
        }
    }
    best
}

/// The value that a source shows of a shard, if there is one.
fn value_shown<A: PathAlgebra, H: HintSource>(
    hints: &H,
    algebra: A,
    shard: Shard,
) -> Option<A::Value>
    ensures value { IfSome result (λ x. IsTrue ((A.meaning algebra).is_value x)) }
    ensures shown { IsShown (A.meaning algebra) (H.may_show hints.now) shard result }
{
    value_of(algebra, hints.shown(shard))
}

/// The code of a value, or of none.
fn code_of<A: PathAlgebra>(algebra: A, value: Option<A::Value>) -> u64 {
    match value {
        Some(value) => algebra.code(value),
        None => NOTHING,
    }
}

/// The value that a code stands for, if there is one.
fn value_of<A: PathAlgebra>(algebra: A, code: u64) -> Option<A::Value>
    ensures value { IfSome result (λ x. IsTrue ((A.meaning algebra).is_value x)) }
    ensures stands { StandsFor (A.meaning algebra) code result }
{
    laws_hold(algebra);
    if code == NOTHING {
        return None;
    }
    algebra.value_of(code)
}

/// A value, and the same after one more arc of this weight, if the arc may be taken.
fn limit_after<A: PathAlgebra>(algebra: A, best: A::Value, ahead: u32) -> Option<Limit<A::Value>>
    requires { IsTrue ((A.meaning algebra).is_value best) }
    ensures some { IfSome result (λ l. (l.best ≡ best) ×
        ((A.meaning algebra).extend best ahead ≡ Some l.value)) }
    ensures none { IfNone result ((A.meaning algebra).extend best ahead ≡ None) }
    ensures order { IfSome result (λ l. IsTrue (A.order l.best l.value)) }
{
    laws_hold(algebra);
    match algebra.extend(best, ahead) {
        Some(value) => Some(Limit { best, value }),
        None => None,
    }
}

/// Whether a code stands for a value that is no worse than this one.
fn is_as_good<A: PathAlgebra>(algebra: A, code: u64, sent: A::Value) -> bool {
    match value_of(algebra, code) {
        Some(value) => A::no_worse(value, sent),
        None => false,
    }
}
