//! Solves questions by workers, one diffusion for each source.
ghost use Rattle.std.specs.Prelude.{◌≡◌, ◌+◌, [], ◌∷◌, false, IfOk, IfErr, OnOk, Some};
ghost use Rattle.std.specs.Borrow.{sem};
ghost use Rattle.road_files.specs.Asked.{AreQuestionsOf, Question, asked_of, sources_of};
ghost use Rattle.road_files.specs.declared.questions.Kind.TheVariants.{Pairs};
ghost use Rattle.batch_run.specs.Batches.{AreNextAt, IsLabellingIn, IsSolvedIn, ReportedAccounts, StopsBatch, StopsOver, asked_in, kind_in, question_at};
ghost use Rattle.batch_run.specs.Lending.{EndsWorkers};
ghost use Rattle.question_solvers.specs.Questions.{HasPlace};
ghost use Rattle.question_solvers.specs.Solved.{IsSolvedFor};
ghost use Rattle.batch_run.specs.Solvers.{IsWorkerAfter, IsWorkerReady};

use crate::batch::{Batch, BatchOver};
use crate::solve::diffusion::Labelling;
use crate::solve::merge::merge_all;
use crate::solve::pace::Pace;
use crate::solve::queue::DiffusionQueue;
use crate::watcher::Watcher;
use answer_text::Answer;
use path_algebra::PathAlgebra;
use question_solvers::Solved;
use road_files::Questions;
use road_graph::{Graph, InGraph, Memory};
use route_tree::{route_between, tree_outgoing};
use shard_part::{CountedPlan, Plan};
use std::alloc::Global;
use std::collections::VecDeque;
use std::sync::Wait;
use std::thread::Threads;
use worker_fleet::{Gate, GroupFault};

/// Solves questions by diffusing computations, which workers run on threads.
#[derive(Drop)]
pub struct WorkerSolver<V: Copy> {
    pub(crate) graph: Graph,
    /// The diffusions of a batch, once it has begun.
    pub(crate) queue: Option<DiffusionQueue<V>>,
    /// What was solved, until another question comes.
    pub(crate) solved: Option<Solved<V>>,
}

/// Solves the question at a place by best labels from its sources, if it is not solved ahead.
fn solve_by_labels<A: PathAlgebra, R, T>(
    over: &BatchOver<'_, A, R, T>,
    by_head: &Option<InGraph>,
    i: usize,
    labelling: Labelling<A::Value>,
) -> Result<Solved<A::Value>, Memory>
    requires place { HasPlace over.now.batch.now.task.questions.now i }
    requires by_head { kind_in over.now ≡ Pairs → by_head.now ≡ Some over.now.graph.now }
    requires labels { (default : Question) → IsLabellingIn A.meaning over.now (sources_of
        (question_at over.now.batch.now i default)) labelling }
    ensures { IfOk result (IsSolvedIn A.meaning over.now i) }
{
    let (task, graph) = (&over.batch.task, over.graph);
    let (alloc, algebra) = (task.alloc, task.algebra);
    let labels = match labelling {
        Labelling::Solved(solved) => return Ok(solved),
        Labelling::Labels(labels) => labels,
    };
    match task.questions {
        Questions::Pairs(pairs) => {
            let Some(by_head) = by_head else {
                unreachable!()
            };
            let (source, target) = pairs[i];
            let (graph, pair) = (graph.outgoing(), (source, target));
            let found = route_between(alloc, algebra, graph, by_head, pair, &labels)?;
            Ok(Solved::Answer(Answer::Pair {
                source,
                target,
                found,
            }))
        }
        _ => {
            let sources = task.questions.sources(i);
            let tree = tree_outgoing(alloc, algebra, graph.outgoing(), sources, &labels)?;
            Ok(Solved::Tree { labels, tree })
        }
    }
}

/// Solves the question at a place by workers. The diffusions are reported.
fn solve_by_workers<A: PathAlgebra, R: Threads + Wait + Sync, T: Gate, O: Watcher>(
    over: &BatchOver<'_, A, R, T>,
    queue: &mut DiffusionQueue<A::Value>,
    i: usize,
    watcher: &mut O,
) -> Result<Solved<A::Value>, GroupFault>
    requires place { HasPlace over.now.batch.now.task.questions.now i }
    requires ready { AreNextAt A.meaning over.now i 0 queue.old }
    ensures solved { IfOk result (IsSolvedIn A.meaning over.now i) }
    ensures ready { OnOk result (AreNextAt A.meaning over.now (i + 1) 0 queue.new) }
    ensures stops { IfErr result (StopsOver A.meaning T.may_answer over.now) }
    ensures reported { ReportedAccounts A.meaning over.now.batch.now over.now.graph.now false i
        O.may_become watcher.old watcher.new result }
{
    let labelling = merge_all(over, queue, i, watcher)?;
    match solve_by_labels(over, &queue.by_head, i, labelling) {
        Ok(solved) => Ok(solved),
        Err(_) => Err(GroupFault::Memory),
    }
}

impl<V: Copy> WorkerSolver<V> {
    /// The solver over a graph, which is indexed. If memory is refused for that, workers look for
    /// arcs instead.
    pub fn new(alloc: Global, mut graph: Graph) -> Self
        ensures { result.graph ≡ graph }
    {
        let _ = graph.index(alloc);
        WorkerSolver {
            graph,
            queue: None,
            solved: None,
        }
    }
}

/// The graph by head, if the questions are pairs.
fn by_head_for(
    alloc: Global,
    questions: &Questions,
    graph: &Graph,
) -> Result<Option<InGraph>, Memory>
    ensures { IfOk result (λ by_head. (asked_of questions.now).kind ≡ Pairs → by_head ≡ Some graph.now) }
{
    match questions {
        Questions::Pairs(_) => Ok(Some(InGraph::of(alloc, graph.outgoing())?)),
        _ => Ok(None),
    }
}

/// Before the first question: cuts the graph into shards, sets the pace, and forgets what waits.
pub(crate) fn start_workers<A: PathAlgebra, R, T>(
    batch: &Batch<'_, A, R, T>,
    solver: &mut WorkerSolver<A::Value>,
) -> Result<(), Memory>
    ensures graph { solver.new.graph ≡ solver.old.graph }
    ensures ready { OnOk result (IsWorkerReady A.meaning batch.now 0 solver.new) }
{
    let (task, settings) = (&batch.task, batch.settings);
    let alloc = task.alloc;
    let plan = Plan::blocks(alloc, solver.graph.vertices(), settings.shards as u8)?;
    let counted = CountedPlan::of(alloc, &solver.graph, plan)?;
    let pace = Pace::of(settings, &solver.graph);
    let by_head = by_head_for(alloc, task.questions, &solver.graph)?;
    solver.queue = Some(DiffusionQueue {
        counted,
        pace,
        by_head,
        waiting: VecDeque::new(alloc),
    });
    Ok(())
}

/// Solves the question at a place, the next one, by diffusions, which are reported.
fn solve_in_turn<A: PathAlgebra, R: Threads + Wait + Sync, T: Gate, O: Watcher>(
    solver: &mut WorkerSolver<A::Value>,
    batch: &Batch<'_, A, R, T>,
    i: usize,
    watcher: &mut O,
) -> Result<Solved<A::Value>, GroupFault>
    requires place { HasPlace batch.now.task.questions.now i }
    requires within { AreQuestionsOf solver.old.graph.vertices batch.now.task.questions.now }
    requires ready { IsWorkerReady A.meaning batch.now i solver.old }
    ensures after { IsWorkerAfter A.meaning batch.now i solver.old solver.new result }
    ensures solved { IfOk result (IsSolvedFor (A.meaning batch.now.task.algebra) solver.old.graph
        (asked_in batch.now) i) }
    ensures stops { IfErr result (StopsBatch A.meaning T.may_answer batch.now solver.old.graph) }
    ensures reported { ReportedAccounts A.meaning batch.now solver.old.graph false i O.may_become
        watcher.old watcher.new result }
{
    solver.solved = None;
    let over = BatchOver {
        batch,
        graph: &solver.graph,
    };
    let Some(queue) = &mut solver.queue else {
        unreachable!()
    };
    solve_by_workers(&over, queue, i, watcher)
}

/// Solves the question at a place, the next one, and keeps the solution.
pub(crate) fn solve_next_by_workers<
    's,
    A: PathAlgebra,
    R: Threads + Wait + Sync,
    T: Gate,
    O: Watcher,
>(
    solver: &'s mut WorkerSolver<A::Value>,
    batch: &Batch<'_, A, R, T>,
    i: usize,
    watcher: &mut O,
) -> Result<&'s Solved<A::Value>, GroupFault>
    requires place { HasPlace batch.now.task.questions.now i }
    requires within { AreQuestionsOf solver.old.graph.vertices batch.now.task.questions.now }
    requires ready { IsWorkerReady A.meaning batch.now i solver.old }
    ensures* after { sem 𝓛 (EndsWorkers A.row A.Value.row A.PathAlgebra A.meaning batch.now i
        solver.entry result) }
    ensures solved { IfOk result (λ s. IsSolvedFor (A.meaning batch.now.task.algebra) solver.old.graph
        (asked_in batch.now) i s.now) }
    ensures stops { IfErr result (StopsBatch A.meaning T.may_answer batch.now solver.old.graph) }
    ensures reported { ReportedAccounts A.meaning batch.now solver.old.graph false i O.may_become
        watcher.old watcher.new result }
{
    let solved = solve_in_turn(solver, batch, i, watcher)?;
    Ok(solver.solved.insert(solved))
}
