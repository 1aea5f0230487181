//! Diffusions that are run together, on threads, to their end, and gathered.
ghost use Rattle.std.specs.Prelude.{◌≡◌, ◌≤◌, length, map, IfOk, IfErr};
ghost use Rattle.std.specs.List.{All, AllZip};
ghost use Rattle.road_graph.specs.GraphData.{HasVertex};
ghost use Rattle.batch_run.specs.Batches.{IsCountedIn, IsCutIn, IsEndedIn, IsGatheredFromIn, IsGatheredIn, IsOpenedIn, StopsOver};
ghost use Rattle.batch_run.specs.Cut.{pace_of};

use crate::batch::BatchOver;
use crate::solve::diffusion::{EndedDiffusion, GatheredDiffusion, gather_ended};
use crate::solve::pace::Pace;
use path_algebra::PathAlgebra;
use post_floor::Floor;
use rayon::prelude::*;
use road_graph::Vertex;
use scholten_core::roads_hold;
use shard_part::laws::plan_holds;
use shard_part::{CountedPlan, Plan};
use station::{Station, open_diffusion};
use std::alloc::{AllocError, Global};
use std::collections::VecDeque;
use std::sync::Wait;
use std::thread::Threads;
use worker_fleet::{Gate, GroupFault, GroupSettings, TurnSettings, run_group};

/// A floor, and its stations, for a diffusion from a source. Its shards are held back as the pace
/// says.
fn open_at_pace<'g, A: PathAlgebra, R, T>(
    over: &'g BatchOver<'_, A, R, T>,
    counted: &'g CountedPlan,
    source: Vertex,
    pace: Pace,
) -> Result<(Floor<A>, Vec<Station<'g, A>>), AllocError>
    requires graph { counted.now.roads ≡ over.now.graph.now }
    requires source { HasVertex over.now.graph.now source }
    ensures { IfOk result (IsOpenedIn A.meaning over.now counted.now.plan pace source) }
{
    let (alloc, algebra, graph) = (over.batch.task.alloc, over.batch.task.algebra, over.graph);
    let Ok(opened) = open_diffusion(alloc, algebra, graph, counted, source, pace.order) else {
        return Err(AllocError);
    };
    let (mut floor, stations) = opened;
    if let Some(ahead) = pace.ahead {
        floor.hold_back(ahead);
    }
    Ok((floor, stations))
}

/// A floor, and its stations, for a diffusion from each source, in order: side by side, on at most
/// as many threads as there are workers.
fn open_each<'g, A: PathAlgebra, R: Threads + Sync, T: Gate>(
    over: &'g BatchOver<'_, A, R, T>,
    counted: &'g CountedPlan,
    sources: &[Vertex],
    pace: Pace,
) -> Result<Vec<(Floor<A>, Vec<Station<'g, A>>)>, AllocError>
    requires graph { counted.now.roads ≡ over.now.graph.now }
    requires sources { All (HasVertex over.now.graph.now) sources.now }
    ensures { IfOk result (λ v. AllZip (IsOpenedIn A.meaning over.now counted.now.plan pace)
        sources.now v.items) }
{
    let (task, settings) = (&over.batch.task, over.batch.settings);
    let share = sources.len().div_ceil(settings.workers as usize);
    let opened: Result<Vec<(Floor<A>, Vec<Station<'g, A>>)>, AllocError> = sources
        .par_iter()
        .with_min_len(share)
        .map(
            |source: &Vertex| -> Result<(Floor<A>, Vec<Station<'_, A>>), AllocError>
                requires { HasVertex over.now.graph.now source.now ×
                    (counted.now.roads ≡ over.now.graph.now) }
                ensures { IfOk result (IsOpenedIn A.meaning over.entry.now counted.entry.now.plan
                    pace source.now) }
            { open_at_pace(over, counted, *source, pace) },
        )
        .collect(task.rt, task.alloc)?;
    opened
}

/// The floors, and the stations of each.
fn part_all<'g, A: PathAlgebra>(
    alloc: Global,
    opened: Vec<(Floor<A>, Vec<Station<'g, A>>)>,
) -> Result<(Vec<Floor<A>>, Vec<Vec<Station<'g, A>>>), AllocError>
    ensures floors { IfOk result (λ r. r.0.items ≡ map (λ o. o.0) opened.entry.items) }
    ensures stations { IfOk result (λ r. r.1.items ≡ map (λ o. o.1) opened.entry.items) }
{
    let mut floors = Vec::new(alloc);
    let mut lists = Vec::new(alloc);
    for diffusion in opened {
        let (floor, stations) = diffusion;
        floors.push(floor)?;
        lists.push(stations)?;
    }
    Ok((floors, lists))
}

/// The diffusions from each source, of which these are the floors and the stations, in order.
fn pair_all<'g, A: PathAlgebra>(
    alloc: Global,
    sources: &[Vertex],
    floors: Vec<Floor<A>>,
    lists: Vec<Vec<Station<'g, A>>>,
) -> Result<Vec<EndedDiffusion<'g, A>>, AllocError>
    requires floors { length floors.items ≡ length sources.now }
    requires stations { length lists.items ≡ length sources.now }
    ensures sources { IfOk result (λ v. map (λ e. e.source) v.items ≡ sources.now) }
    ensures floors { IfOk result (λ v. map (λ e. e.floor) v.items ≡ floors.items) }
    ensures stations { IfOk result (λ v. map (λ e. e.stations) v.items ≡ lists.entry.items) }
{
    let (mut floors, mut lists) = (VecDeque::from(floors), VecDeque::from(lists));
    let mut ended = Vec::new(alloc);
    for source in sources {
        let Some(floor) = floors.pop_front() else {
            unreachable!()
        };
        let Some(stations) = lists.pop_front() else {
            unreachable!()
        };
        ended.push(EndedDiffusion {
            source: *source,
            floor,
            stations,
        })?;
    }
    Ok(ended)
}

/// What each of some ended diffusions came to, in order: gathered side by side, on at most as many
/// threads as there are workers.
fn gather_each<'g, A: PathAlgebra, R: Threads + Sync, T: Gate>(
    over: &BatchOver<'_, A, R, T>,
    plan: &Plan,
    ended: Vec<EndedDiffusion<'g, A>>,
) -> Result<Vec<GatheredDiffusion<A::Value>>, AllocError>
    requires plan { IsCutIn over.now plan.now }
    requires ended { All (IsEndedIn over.now plan.now) ended.items }
    ensures { IfOk result (λ v. AllZip (IsGatheredFromIn A.meaning over.now) ended.entry.items
        v.items) }
{
    let (task, settings) = (&over.batch.task, over.batch.settings);
    let share = ended.len().div_ceil(settings.workers as usize);
    let gathered: Result<Vec<GatheredDiffusion<A::Value>>, AllocError> = ended
        .into_par_iter()
        .with_min_len(share)
        .map(
            |e: EndedDiffusion<'_, A>| -> Result<GatheredDiffusion<A::Value>, AllocError>
                requires { IsEndedIn over.now plan.now e × IsCutIn over.now plan.now }
                ensures { IfOk result (IsGatheredFromIn A.meaning over.entry.now e.entry) }
            { gather_ended(over, plan, e) },
        )
        .collect(task.rt, task.alloc)?;
    gathered
}

/// Runs diffusions that were opened, one from each source, to their end, together, and gathers
/// each, in order.
fn run_opened<'g, A: PathAlgebra, R: Threads + Wait + Sync, T: Gate>(
    over: &BatchOver<'_, A, R, T>,
    plan: &Plan,
    sources: &[Vertex],
    opened: Vec<(Floor<A>, Vec<Station<'g, A>>)>,
) -> Result<Vec<GatheredDiffusion<A::Value>>, GroupFault>
    requires plan { IsCutIn over.now plan.now }
    requires sources { All (HasVertex over.now.graph.now) sources.now }
    requires width { length sources.now ≤ over.now.batch.now.settings.now.width }
    requires opened { AllZip (IsOpenedIn A.meaning over.now plan.now
        (pace_of over.now.batch.now.settings.now over.now.graph.now)) sources.now opened.items }
    ensures gathered { IfOk result (λ v. All (IsGatheredIn A.meaning over.now) v.items) }
    ensures sources { IfOk result (λ v. map (λ d. d.source) v.items ≡ sources.now) }
    ensures counted { IfOk result (λ v. AllZip (IsCountedIn over.now plan.now)
        (map (λ o. o.0) opened.entry.items) v.items) }
    ensures stops { IfErr result (StopsOver A.meaning T.may_answer over.now) }
{
    let (task, settings) = (&over.batch.task, over.batch.settings);
    let (rt, alloc) = (task.rt, task.alloc);
    roads_hold(over.graph);
    plan_holds(plan);
    let (floors, opened) = part_all(alloc, opened)?;
    let how = GroupSettings {
        workers: settings.workers as usize,
        dealing: settings.dealing,
        turns: TurnSettings {
            budget: settings.budget as u32,
            limit: settings.turns,
            gate: over.batch.gate,
        },
    };
    let lists = run_group(rt, alloc, floors.as_slice(), opened, &how)?;
    let ended = pair_all(alloc, sources, floors, lists)?;
    let gathered = gather_each(over, plan, ended)?;
    Ok(gathered)
}

/// Runs diffusions from each source to their end, together, and gathers each, in order.
pub(crate) fn run_together<A: PathAlgebra, R: Threads + Wait + Sync, T: Gate>(
    over: &BatchOver<'_, A, R, T>,
    counted: &CountedPlan,
    pace: Pace,
    sources: &[Vertex],
) -> Result<Vec<GatheredDiffusion<A::Value>>, GroupFault>
    requires cut { IsCutIn over.now counted.now.plan }
    requires graph { counted.now.roads ≡ over.now.graph.now }
    requires pace { pace ≡ pace_of over.now.batch.now.settings.now over.now.graph.now }
    requires sources { All (HasVertex over.now.graph.now) sources.now }
    requires width { length sources.now ≤ over.now.batch.now.settings.now.width }
    ensures gathered { IfOk result (λ v. All (IsGatheredIn A.meaning over.now) v.items) }
    ensures sources { IfOk result (λ v. map (λ d. d.source) v.items ≡ sources.now) }
    ensures stops { IfErr result (StopsOver A.meaning T.may_answer over.now) }
{
    let opened = open_each(over, counted, sources, pace)?;
    run_opened(over, counted.plan(), sources, opened)
}
