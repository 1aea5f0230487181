//! Groups of things that are dealt to workers in turn, and put together again.
ghost use Rattle.std.specs.Prelude.{◌≡◌, ℕ, ◌<◌, ◌++◌, [], length, IfOk, OnOk, vec_len, slice_index_or};
ghost use Rattle.std.specs.List.{All};
ghost use Rattle.worker_fleet.specs.Dealt.{begins_at, following, dealt, share_of, of_group, PushesAt};

use batch_settings::Dealing;
use std::alloc::{AllocError, Global};

/// The worker to whom the first station of a diffusion goes.
fn begins_at(rule: Dealing, workers: usize, diffusion: usize) -> usize
    requires { 0 < workers }
    ensures worker { result ≡ begins_at rule workers diffusion }
    ensures below { result < workers }
{
    match rule {
        Dealing::Shards => 0,
        Dealing::Questions => diffusion % workers,
    }
}

/// Makes `count` empty lists.
pub(crate) fn empty_lists<T: Drop>(alloc: Global, count: usize) -> Result<Vec<Vec<T>>, AllocError>
    ensures len { IfOk result (λ v. vec_len v ≡ count) }
    ensures empty { IfOk result (λ v. All (λ list. list.items ≡ []) v.items) }
{
    let mut lists = Vec::new(alloc);
    for _ in 0..count {
        lists.push(Vec::new(alloc))?;
    }
    Ok(lists)
}

/// Appends a thing to one of the lists.
fn push_at<T: Drop>(lists: &mut Vec<Vec<T>>, at: usize, value: T) -> Result<(), AllocError>
    requires { at < vec_len lists.old }
    ensures len { vec_len lists.new ≡ vec_len lists.old }
    ensures put { OnOk result (PushesAt at value lists.old.items lists.new.items) }
{
    lists[at].push(value)?;
    Ok(())
}

/// The place after this one; the first comes after the last.
fn next_of(at: usize, count: usize) -> usize
    requires { at < count }
    ensures place { result ≡ following count at }
    ensures below { result < count }
{
    if at + 1 < count { at + 1 } else { 0 }
}

/// Deals the things of a group to the shares in turn, from this one on, each with the number of its
/// group.
fn deal<T: Drop>(
    shares: &mut Vec<Vec<(usize, T)>>,
    first: usize,
    group: usize,
    things: Vec<T>,
) -> Result<(), AllocError>
    requires { first < vec_len shares.old }
    ensures len { vec_len shares.new ≡ vec_len shares.old }
    ensures dealt { OnOk result ((w : ℕ) (d : _) → w < vec_len shares.old →
        (slice_index_or shares.new.items w d).items ≡ (slice_index_or shares.old.items w d).items ++
        dealt (vec_len shares.old) w first group things.items) }
{
    let mut worker = first;
    for thing in things {
        push_at(shares, worker, (group, thing))?;
        worker = next_of(worker, shares.len());
    }
    Ok(())
}

/// Deals the things of each group to the workers in turn, group by group, by this rule.
pub(crate) fn deal_all<T: Drop>(
    alloc: Global,
    groups: Vec<Vec<T>>,
    rule: Dealing,
    workers: usize,
) -> Result<Vec<Vec<(usize, T)>>, AllocError>
    requires { 0 < workers }
    ensures len { IfOk result (λ v. vec_len v ≡ workers) }
    ensures dealt { IfOk result (λ v. (w : ℕ) (d : _) → w < workers →
        (slice_index_or v.items w d).items ≡ share_of rule workers w 0 groups.items) }
{
    let mut shares = empty_lists(alloc, workers)?;
    let mut group = 0;
    for things in groups {
        deal(&mut shares, begins_at(rule, workers, group), group, things)?;
        group += 1;
    }
    Ok(shares)
}

/// Appends each thing to the list of its group.
pub(crate) fn put_all<T: Drop>(
    lists: &mut Vec<Vec<T>>,
    things: Vec<(usize, T)>,
) -> Result<(), AllocError>
    requires { All (λ p. p.0 < vec_len lists.old) things.items }
    ensures len { vec_len lists.new ≡ vec_len lists.old }
    ensures put { OnOk result ((q : ℕ) (d : _) → q < vec_len lists.old →
        (slice_index_or lists.new.items q d).items ≡ (slice_index_or lists.old.items q d).items ++
        of_group q things.items) }
{
    for (group, thing) in things {
        push_at(lists, group, thing)?;
    }
    Ok(())
}
