//! Workers on threads of their own.
ghost use Rattle.std.specs.Prelude.{◌≡◌, ℕ, ◌<◌, false, IfNone, IfOk, IfSome, vec_len, slice_index_or, IsTrue};
ghost use Rattle.worker_fleet.specs.Assigned.{IsAssigned};

use std::alloc::{AllocError, Global};
use std::snapshot::Snapshot;
use std::sync::Wait;
use std::thread;
use std::thread::{Promise, PromisedHandle, Scope, SpawnError, Threads};

/// What is asked of all workers together.
pub trait Assignment<J> {
    /// What a worker returns.
    type Answer: Send + Drop;

    /// What the worker of this number may answer to this job.
    ghost answers: { Self → ℕ → J → Self.Answer → Type 0 };

    /// That a thread for the worker of this number was refused.
    ghost was_refused: { Self → ℕ → Type 0 };

    /// Takes note that it was.
    fn note_refusal<F: Drop>(&self, worker: u64, refusal: SpawnError<F>)
        ensures { was_refused self.now worker };

    /// That its workers were called off.
    ghost called_off: { Self → Type 0 };

    /// Tells the workers that run that nothing is made of what they return, so that they need not
    /// go on.
    fn call_off(&self)
        ensures { called_off self.now };
}

/// What a worker is started with, by which its answer is known.
#[derive(Drop)]
pub struct Assigned<'a, J, K> {
    assignment: &'a K,
    worker: u64,
    job: Snapshot<J>,
}

impl<'a, J, K: Assignment<J>> Promise<K::Answer> for Assigned<'a, J, K> {
    ghost kept_by = { λ p r. K.answers p.assignment.now p.worker p.job.value r };
}

/// Starts one worker.
fn start_one<
    's,
    E,
    J: Send + Drop + 's,
    K: Assignment<J, Answer: 's>,
    W: Fn(u64, J) -> K::Answer + Sync,
>(
    scope: &Scope<'s, E>,
    assignment: &'s K,
    work: &'s W,
    worker: u64,
    job: J,
) -> Option<PromisedHandle<K::Answer, Assigned<'s, J, K>>>
    requires can { W.pre work.now worker job }
    requires does { (r : K.Answer) → W.post work.now worker job r →
        K.answers assignment.now worker job r }
    ensures some { IfSome result (λ h. IsAssigned assignment.entry.now worker job h.promise) }
    ensures none { IfNone result (K.was_refused assignment.now worker) }
{
    let assigned = Assigned {
        assignment,
        worker,
        job: Snapshot::of(&job),
    };
    let started = scope.spawn_with(
        assigned,
        move || -> K::Answer
            requires { W.pre work.now worker job }
            ensures { W.post work.entry.now worker job result }
        { work(worker, job) },
    );
    match started {
        Ok(handle) => Some(handle),
        Err(refusal) => {
            assignment.note_refusal(worker, refusal);
            None
        }
    }
}

/// Starts a worker for each job, and says whether all were started. It stops at the first that is
/// refused.
fn start_all<
    's,
    E,
    J: Send + Drop + 's,
    K: Assignment<J, Answer: 's>,
    W: Fn(u64, J) -> K::Answer + Sync,
>(
    scope: &Scope<'s, E>,
    alloc: Global,
    assignment: &'s K,
    work: &'s W,
    jobs: Vec<J>,
) -> Result<(Vec<PromisedHandle<K::Answer, Assigned<'s, J, K>>>, bool), AllocError>
    requires can { (k : ℕ) (job : J) → k < vec_len jobs → job ≡ slice_index_or jobs.items k job →
        W.pre work.now k job }
    requires does { (k : ℕ) (job : J) (r : K.Answer) → W.post work.now k job r →
        K.answers assignment.now k job r }
    ensures all { IfOk result (λ r. IsTrue r.1 → vec_len r.0 ≡ vec_len jobs) }
    ensures refused { IfOk result (λ r. r.1 ≡ false → K.was_refused assignment.now (vec_len r.0)) }
    ensures assigned { IfOk result (λ r. (k : ℕ) (h : _) (job : J) → k < vec_len r.0 →
        IsAssigned assignment.entry.now k (slice_index_or jobs.items k job)
        (slice_index_or r.0.items k h).promise) }
{
    let mut handles = Vec::with_capacity(alloc, jobs.len())?;
    let mut worker = 0u64;
    for job in jobs {
        let Some(handle) = start_one(scope, assignment, work, worker, job) else {
            return Ok((handles, false));
        };
        handles.push(handle).unwrap();
        worker += 1;
    }
    Ok((handles, true))
}

/// Joins each worker, after all were called off, and drops what it returns.
fn join_and_drop<'s, J: Drop, K: Assignment<J>, R: Threads>(
    rt: &R,
    _assignment: &K,
    handles: Vec<PromisedHandle<K::Answer, Assigned<'s, J, K>>>,
)
    requires { K.called_off _assignment.now }
{
    for handle in handles {
        drop(handle.join(rt));
    }
}

/// Joins all workers. If one was not started, or memory is refused, they are called off, and what
/// they return is dropped.
fn join_all<'s, J: Drop, K: Assignment<J>, R: Threads>(
    rt: &R,
    assignment: &K,
    handles: Vec<PromisedHandle<K::Answer, Assigned<'s, J, K>>>,
    all: bool,
) -> Result<Vec<K::Answer>, AllocError>
    ensures started { IfOk result (λ _. IsTrue all) }
    ensures len { IfOk result (λ v. vec_len v ≡ vec_len handles.entry) }
    ensures each { IfOk result (λ v. (k : ℕ) (r : K.Answer) → k < vec_len handles.entry →
        (h : _) × (h ≡ slice_index_or handles.entry.items k h) ×
        K.answers h.promise.assignment.now h.promise.worker h.promise.job.value
        (slice_index_or v.items k r)) }
{
    let handles = if all {
        match thread::join_promised(rt, handles) {
            Ok(answers) => return Ok(answers),
            Err(refused) => refused.value,
        }
    } else {
        handles
    };
    assignment.call_off();
    join_and_drop(rt, assignment, handles);
    Err(AllocError)
}

/// Does each job on a thread of its own, and waits for all of them; what they return comes in the
/// order of the jobs.
///
/// The work is given the number of its job. The error is out of memory: if a thread could not be
/// started, and then those that were started are called off, or if the list of results could not
/// grow. All that were started have been joined by then.
pub fn run_each<
    J: Send + Drop,
    K: Assignment<J>,
    W: Fn(u64, J) -> K::Answer + Sync,
    R: Threads + Wait,
>(
    rt: &R,
    alloc: Global,
    jobs: Vec<J>,
    assignment: &K,
    work: &W,
) -> Result<Vec<K::Answer>, AllocError>
    requires can { (k : ℕ) (job : J) → k < vec_len jobs → job ≡ slice_index_or jobs.items k job →
        W.pre work.now k job }
    requires does { (k : ℕ) (job : J) (r : K.Answer) → W.post work.now k job r →
        K.answers assignment.now k job r }
    ensures len { IfOk result (λ v. vec_len v ≡ vec_len jobs) }
    ensures each { IfOk result (λ v. (k : ℕ) (job : J) (r : K.Answer) → k < vec_len jobs →
        K.answers assignment.now k (slice_index_or jobs.items k job) (slice_index_or v.items k r)) }
{
    thread::scope(
        thread::scope_env(),
        rt,
        move |scope| -> Result<Vec<K::Answer>, AllocError>
            requires can { (k : ℕ) (job : J) → k < vec_len jobs → job ≡ slice_index_or jobs.items k
                job → W.pre work.now k job }
            requires does { (k : ℕ) (job : J) (r : K.Answer) → W.post work.now k job r →
                K.answers assignment.now k job r }
            ensures len { IfOk result (λ v. vec_len v ≡ vec_len jobs) }
            ensures each { IfOk result (λ v. (k : ℕ) (job : J) (r : K.Answer) → k < vec_len jobs →
                K.answers assignment.entry.now k (slice_index_or jobs.items k job)
                (slice_index_or v.items k r)) }
        {
            let (handles, all) = start_all(scope, alloc, assignment, work, jobs)?;
            join_all(rt, assignment, handles, all)
        },
    )
}
