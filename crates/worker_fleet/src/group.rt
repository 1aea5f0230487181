//! The stations of a group of diffusions, dealt to workers, run to their end, and put together
//! again.
ghost use Rattle.std.specs.Prelude.{◌≡◌, ◌⊎◌, ℕ, ◌<◌, length, map, IfOk, IfErr, IfNone, IfSome, Some, ⊤, vec_len, slice_index_or};
ghost use Rattle.std.specs.List.{All};
ghost use Rattle.worker_fleet.specs.Turns.{IsOnItsFloor};
ghost use Rattle.worker_fleet.specs.Drives.{Drives};
ghost use Rattle.worker_fleet.specs.Groups.{gathered, HasShard, IsDone};
ghost use Rattle.worker_fleet.specs.Stops.{IsFirstStop, IsStop};

use crate::call_off::CallOff;
use crate::dealing::{deal_all, empty_lists, put_all};
use crate::driving::{Driven, Outcome, drive_unless};
use crate::fleet::{Assignment, run_each};
use crate::gate::Gate;
use crate::settings::{GroupSettings, TurnSettings};
use path_algebra::PathAlgebra;
use post_floor::Floor;
use station::Station;
use std::alloc::{AllocError, Global};
use std::sync::Wait;
use std::thread::{SpawnError, Threads};

/// Why a group was not run to its end.
#[derive(Clone, Copy, Debug, PartialEq, Eq)]
pub enum GroupFault {
    /// Memory, or a thread, was refused.
    Memory,
    /// A worker reached its limit of turns.
    Stalled,
    /// A worker's gate answered `false`.
    Gated,
}

impl From<AllocError> for GroupFault {
    ghost use Rattle.worker_fleet.specs.declared.group.GroupFault.TheVariants.{Memory};

    ghost from_gives = { λ _ e. e ≡ Memory };

    fn from(_error: AllocError) -> GroupFault {
        GroupFault::Memory
    }
}

/// What all workers of a group are given.
#[derive(Drop)]
struct GroupAssignment<'a, 't, A: PathAlgebra, G: Gate> {
    floors: &'a [Floor<A>],
    settings: &'a TurnSettings<'t, G>,
    call_off: &'a CallOff,
}

impl<'g, A: PathAlgebra, G: Gate> Assignment<Vec<(usize, Station<'g, A>)>>
    for GroupAssignment<'_, '_, A, G> {
    type Answer = Option<Driven<'g, A>>;

    ghost answers = { λ o worker stations r. IfSome r (Drives A.meaning o.floors.now
        o.settings.now.budget o.settings.now.limit (G.may_answer o.settings.now.gate.now) worker
        stations.items) };

    ghost was_refused = { λ _ _. ⊤ };

    fn note_refusal<F: Drop>(&self, _worker: u64, _refusal: SpawnError<F>)
        ensures { ⊤ }
    {}

    ghost called_off = { λ _. ⊤ };

    fn call_off(&self)
        ensures { ⊤ }
    {
        self.call_off.call_off();
    }
}

/// What all workers return, if none was called off.
fn all_driven<'g, A: PathAlgebra>(
    alloc: Global,
    answers: Vec<Option<Driven<'g, A>>>,
) -> Result<Vec<Driven<'g, A>>, AllocError>
    ensures { IfOk result (λ v. answers.entry.items ≡ map Some v.items) }
{
    let mut all = Vec::new(alloc);
    for answer in answers {
        let Some(driven) = answer else {
            return Err(AllocError);
        };
        all.push(driven)?;
    }
    Ok(all)
}

/// Drives each share of the stations on a thread of its own.
fn drive_each<'g, A: PathAlgebra, G: Gate, R: Threads + Wait>(
    rt: &R,
    alloc: Global,
    floors: &[Floor<A>],
    shares: Vec<Vec<(usize, Station<'g, A>)>>,
    settings: &TurnSettings<'_, G>,
) -> Result<Vec<Driven<'g, A>>, AllocError>
    requires { All (λ share. All (IsOnItsFloor floors.now) share.items) shares.items }
    ensures len { IfOk result (λ v. vec_len v ≡ vec_len shares.entry) }
    ensures each { IfOk result (λ v. (k : ℕ) (share : _) (r : _) → k < vec_len shares.entry →
        Drives A.meaning floors.now settings.now.budget settings.now.limit
        (G.may_answer settings.now.gate.now) k (slice_index_or shares.entry.items k share).items
        (slice_index_or v.items k r)) }
{
    let call_off = &CallOff::new();
    let assignment = GroupAssignment {
        floors,
        settings,
        call_off,
    };
    let answers = run_each(
        rt,
        alloc,
        shares,
        &assignment,
        &move |worker: u64, stations: Vec<(usize, Station<'_, A>)>| -> Option<Driven<'_, A>>
            requires { All (IsOnItsFloor floors.now) stations.items }
            ensures { IfSome result (Drives A.meaning floors.entry.now settings.entry.now.budget
                settings.entry.now.limit (G.may_answer settings.entry.now.gate.now) worker
                stations.entry.items) }
        { drive_unless(floors, stations, worker, settings, call_off) },
    )?;
    let driven = all_driven(alloc, answers)?;
    Ok(driven)
}

/// Why the least numbered worker stopped, of those that stopped before the end.
fn first_stop<A: PathAlgebra>(answers: &[Driven<'_, A>]) -> Option<GroupFault>
    ensures some { IfSome result (IsFirstStop answers.now) }
    ensures none { IfNone result (All (λ r. r.outcome ≡ Outcome.Ended) answers.now) }
{
    for worker in 0..answers.len() {
        match answers[worker].outcome {
            Outcome::Ended => {}
            Outcome::Stalled => return Some(GroupFault::Stalled),
            Outcome::Gated => return Some(GroupFault::Gated),
        }
    }
    None
}

/// The stations of each diffusion, from what all workers return.
fn regroup<'g, A: PathAlgebra>(
    alloc: Global,
    answers: Vec<Driven<'g, A>>,
    width: usize,
) -> Result<Vec<Vec<Station<'g, A>>>, AllocError>
    requires { All (λ r. All (λ p. p.0 < width) r.stations.items) answers.items }
    ensures len { IfOk result (λ v. vec_len v ≡ width) }
    ensures put { IfOk result (λ v. (q : ℕ) (d : _) → q < width → (slice_index_or v.items q d).items
        ≡ gathered q answers.entry.items) }
{
    let mut lists = empty_lists(alloc, width)?;
    for driven in answers {
        let Driven {
            outcome: _,
            turns: _,
            stations,
        } = driven;
        put_all(&mut lists, stations)?;
    }
    Ok(lists)
}

/// The stations of each diffusion, if all workers came to the end; else why the least numbered of
/// the others stopped.
fn end_group<'g, A: PathAlgebra>(
    alloc: Global,
    answers: Vec<Driven<'g, A>>,
    width: usize,
) -> Result<Vec<Vec<Station<'g, A>>>, GroupFault>
    requires { All (λ r. All (λ p. p.0 < width) r.stations.items) answers.items }
    ensures len { IfOk result (λ v. vec_len v ≡ width) }
    ensures put { IfOk result (λ v. (q : ℕ) (d : _) → q < width → (slice_index_or v.items q d).items
        ≡ gathered q answers.entry.items) }
    ensures ended { IfOk result (λ _. All (λ r. r.outcome ≡ Outcome.Ended) answers.entry.items) }
    ensures fault { IfErr result
        (λ f. ((f ≡ GroupFault.Memory) × All (λ r. r.outcome ≡ Outcome.Ended) answers.entry.items) ⊎
        IsFirstStop answers.entry.items f) }
{
    if let Some(fault) = first_stop(answers.as_slice()) {
        return Err(fault);
    }
    Ok(regroup(alloc, answers, width)?)
}

/// Runs the stations of a group of diffusions to their end, dealt to workers on threads of their
/// own.
///
/// Of n workers, worker w has the station of shard k of diffusion q if k is w modulo n, or, dealt
/// by questions, if q + k is: diffusion by diffusion, and in their order. A lack of memory, or of a
/// thread, is reported first; then why the least numbered worker of those that stopped before the
/// end stopped.
pub fn run_group<'g, A: PathAlgebra, G: Gate, R: Threads + Wait>(
    rt: &R,
    alloc: Global,
    floors: &[Floor<A>],
    diffusions: Vec<Vec<Station<'g, A>>>,
    settings: &GroupSettings<'_, G>,
) -> Result<Vec<Vec<Station<'g, A>>>, GroupFault>
    requires some { 0 < settings.now.workers }
    requires width { length floors.now ≡ vec_len diffusions }
    requires own { (q : ℕ) (d : _) → q < vec_len diffusions →
        All (λ s. IsOnItsFloor floors.now (q, s)) (slice_index_or diffusions.items q d).items }
    ensures len { IfOk result (λ v. vec_len v ≡ vec_len diffusions.entry) }
    ensures all { IfOk result (λ v. (q k : ℕ) (d e : _) → q < vec_len diffusions.entry →
        HasShard k (slice_index_or diffusions.entry.items q d).items →
        HasShard k (slice_index_or v.items q e).items) }
    ensures done { IfOk result (λ v. (q : ℕ) (d : _) → q < vec_len diffusions.entry →
        All (IsDone floors.now q) (slice_index_or v.items q d).items) }
    ensures fault { IfErr result (λ f. (f ≡ GroupFault.Memory) ⊎ IsStop A.meaning floors.now
        settings.now.dealing settings.now.turns.budget settings.now.turns.limit settings.now.workers
        (G.may_answer settings.now.turns.gate.now) diffusions.entry.items f) }
{
    let width = diffusions.len();
    let shares = deal_all(alloc, diffusions, settings.dealing, settings.workers)?;
    let answers = drive_each(rt, alloc, floors, shares, &settings.turns)?;
    end_group(alloc, answers, width)
}
