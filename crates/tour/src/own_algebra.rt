//! Files and an algebra of one's own: a bundle is answered from bytes to bytes, and its answers are
//! judged.
ghost use Rattle.std.specs.Prelude.{Some, [], IfOk};
ghost use Rattle.batch_inputs.specs.Spelled.{IsBundleOf};
ghost use Rattle.batch_run.specs.Ran.{Done};
ghost use Rattle.tour.specs.InMemory.{in_memory};
ghost use Rattle.tour.specs.Stops.{stops};

use crate::fault::Fault;
use crate::stops::Stops;
use answer_check::{Verdict, check};
use answer_text::read_answers;
use batch_run::{OpenGate, Run, Settings, Unwatched, run_bundle};
use road_files::{Questions, read_bundle_as};
use road_graph::OutGraph;
use std::alloc::Global;
use std::sync::Wait;
use std::thread::Threads;
use text_lines::Plain;

/// Five vertices, and a question from vertex 1 to all of them.
const BUNDLE: &str =
    "p sp 5 7\na 1 2 4\na 1 3 1\na 3 2 2\na 2 4 5\na 3 4 8\na 4 4 0\na 5 1 3\np aux sp ss 1\ns 1\n";

/// An answer that is wrong at vertex 4, where 13 is the best.
const WRONG: &str = "p ans ss 1 own\ns 1\nd 1 0 0 0\nd 2 6 1 1\nd 3 3 1 1\nd 4 14 2 2\nu 5\n";

/// The text of the right answers to a bundle.
fn answered<R: Threads + Wait + Sync>(rt: &R, alloc: Global, bundle: &str) -> Result<Vec<u8>, Fault>
    ensures { IfOk result (λ text. Done stops (IsBundleOf (Some bundle.now)) (in_memory [])
        (in_memory text.items)) }
{
    let mut input = Plain::new(bundle.as_bytes());
    let mut out = Plain::new(Vec::new(alloc));
    let settings = Settings::default();
    let run = Run {
        rt,
        alloc,
        settings: &settings,
        gate: &OpenGate,
    };
    run_bundle(&run, Stops, &mut input, &mut out, &mut Unwatched)?;
    Ok(out.into_inner())
}

/// Whether these are the right answers to a bundle, and if not, the first place where they are
/// wrong.
fn judged<R: Threads + Sync>(
    rt: &R,
    alloc: Global,
    bundle: &str,
    answers: &[u8],
) -> Result<Verdict, Fault> {
    let mut bundle = Plain::new(bundle.as_bytes());
    let (graph, questions): (OutGraph, Questions) = read_bundle_as(alloc, &mut bundle)?;
    let answers = read_answers(alloc, &mut Plain::new(answers), graph.vertices())?;
    Ok(check(rt, alloc, Stops, &graph, &questions, &answers)?)
}

/// Prints the answers to the bundle, and what the judge says of them and of wrong ones.
pub fn show<R: Print + AllocGlobal + Threads + Wait + Sync>(rt: &R) -> Result<(), Fault> {
    let alloc = rt.alloc();
    let answers = answered(rt, alloc, BUNDLE)?;
    for byte in &answers {
        print!(rt; "{}", char::from(*byte))?;
    }
    println!(rt; "{:?}", judged(rt, alloc, BUNDLE, answers.as_slice())?)?;
    Ok(println!(rt; "{:?}", judged(rt, alloc, BUNDLE, WRONG.as_bytes())?)?)
}
