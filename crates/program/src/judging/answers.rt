//! Judges answers, from bytes to a verdict.
ghost use Rattle.std.specs.Prelude.{◌≡◌, ◌≢◌, ◌≤◌, ◌⊎◌, IfOk, IfErr};
ghost use Rattle.road_files.specs.Asked.{AskWithin, asked_of};
ghost use Rattle.path_algebra.specs.declared.name.AlgebraName.TheVariants.{Own};
ghost use Rattle.answer_text.specs.AnswerData.{answer_list};
ghost use Rattle.batch_inputs.specs.Inputs.{HasReadPair};
ghost use Rattle.path_algebra.specs.Choices.{GoTogether, Under, limit_of, name_of};
ghost use Rattle.answer_check.specs.Verdicts.{IsVerdict};
ghost use Rattle.program.specs.Judgements.{HasReadAnswers, RanJudge, outcome_of_pair};
ghost use Rattle.program.specs.Verdicts.{AreInputs, IsAnswersFault, IsReadingFault};

use answer_check::{Verdict, check};
use answer_text::{Answers, read_answers};
use batch_run::{
    BatchInput, BatchRead, File, PairInput, RunFault, SETTINGS, fault_in, fault_of_run,
};
use path_algebra::{AlgebraChoice, AlgebraName, with_algebra};
use road_files::Questions;
use road_graph::{Memory, OutGraph};
use std::alloc::Global;
use std::thread::Threads;
use text_lines::{MEMORY, RoadRead};

/// A name in the header of answers that the program has no algebra for.
const NO_SUCH_NAME: u8 = 31;

/// The algebra of the name that answers carry, with the limit that the command line gives.
fn algebra_named(name: AlgebraName, limit: Option<u64>) -> Result<AlgebraChoice, RunFault>
    ensures name { IfOk result (λ chosen. name_of chosen ≡ name) }
    ensures limit { IfOk result (λ chosen. limit_of chosen ≡ limit) }
    ensures fault { IfErr result (λ f.
        ((name ≡ Own) × (f ≡ record { number = 31; file = File.Answers; line = 0 }))
        ⊎ ((name ≢ Own) × (GoTogether name limit → ⊥) × (f ≡ record { number = 43; file = File.NoFile; line = 0 }))) }
{
    if name == AlgebraName::Own {
        return Err(RunFault {
            number: NO_SUCH_NAME,
            file: File::Answers,
            line: 0,
        });
    }
    match AlgebraChoice::named(name, limit) {
        Some(chosen) => Ok(chosen),
        None => Err(fault_of_run(SETTINGS)),
    }
}

/// A graph, questions over it, and answers for it, as they were read.
#[derive(Drop)]
struct Inputs {
    graph: OutGraph,
    questions: Questions,
    answers: Answers,
}

/// Judges what was read under the chosen algebra.
fn judge_under<R: Threads + Sync>(
    rt: &R,
    alloc: Global,
    chosen: AlgebraChoice,
    inputs: &Inputs,
) -> Result<Verdict, Memory>
    requires { AskWithin inputs.now.graph.vertices inputs.now.questions }
    ensures { IfOk result (λ verdict. Under chosen (λ V A. IsVerdict A inputs.now.graph
        (asked_of inputs.now.questions) (answer_list inputs.now.answers) verdict)) }
{
    let (graph, questions, answers) = (&inputs.graph, &inputs.questions, &inputs.answers);
    with_algebra!(
        chosen,
        |algebra| check(rt, alloc, algebra, graph, questions, answers)
    )
}

/// Reads the three inputs in order, and reports the first fault.
fn read_inputs<G: RoadRead, Q: RoadRead, S: RoadRead>(
    alloc: Global,
    graph_in: &mut G,
    questions_in: &mut Q,
    answers_in: &mut S,
) -> Result<Inputs, RunFault>
    ensures read { IfOk result (λ i. AreInputs (G.seen graph_in.old).left
        (Q.seen questions_in.old).left (S.seen answers_in.old).left i.graph (asked_of i.questions)
        (answer_list i.answers)) }
    ensures within { IfOk result (λ i. AskWithin i.graph.vertices i.questions) }
    ensures pair { HasReadPair (G.seen graph_in.old) (G.seen graph_in.new) (Q.seen questions_in.old)
        (Q.seen questions_in.new) (outcome_of_pair result) }
    ensures answers { IfErr result (λ f. f.file ≡ File.Answers → IsAnswersFault
        (G.seen graph_in.old).left (Q.seen questions_in.old).left (S.seen answers_in.old).left f) }
    ensures read_answers { HasReadAnswers (S.seen answers_in.old) (S.seen answers_in.new) result }
    ensures kinds { IfErr result IsReadingFault }
    ensures placed { IfErr result (λ f. f.number ≤ 3 → f.line ≡ 0) }
{
    let mut pair = PairInput {
        graph: graph_in,
        questions: questions_in,
    };
    let read: BatchRead<OutGraph> = match pair.read(alloc) {
        Ok(read) => read,
        Err(fault) => return Err(fault),
    };
    match read_answers(alloc, answers_in, read.graph.vertices()) {
        Ok(answers) => Ok(Inputs {
            graph: read.graph,
            questions: read.questions,
            answers,
        }),
        Err(fault) => Err(fault_in(File::Answers, fault)),
    }
}

/// Judges the answers of one input to the questions of another over the graph of a third, under the
/// algebra that the answers name. The inputs are read first, in this order; then an algebra of a
/// caller's own is fault 31 of the answers, and a limit that does not go with the algebra is fault
/// 43.
pub fn judge<R: AllocGlobal + Threads + Sync, G: RoadRead, Q: RoadRead, S: RoadRead>(
    rt: &R,
    graph_in: &mut G,
    questions_in: &mut Q,
    answers_in: &mut S,
    limit: Option<u64>,
) -> Result<Verdict, RunFault>
    ensures { RanJudge limit (G.seen graph_in.old) (G.seen graph_in.new) (Q.seen questions_in.old)
        (Q.seen questions_in.new) (S.seen answers_in.old) (S.seen answers_in.new) result }
{
    let alloc = rt.alloc();
    let inputs = match read_inputs(alloc, graph_in, questions_in, answers_in) {
        Ok(inputs) => inputs,
        Err(fault) => return Err(fault),
    };
    let chosen = match algebra_named(inputs.answers.name, limit) {
        Ok(chosen) => chosen,
        Err(fault) => return Err(fault),
    };
    match judge_under(rt, alloc, chosen, &inputs) {
        Ok(verdict) => Ok(verdict),
        Err(_) => Err(fault_of_run(MEMORY)),
    }
}
