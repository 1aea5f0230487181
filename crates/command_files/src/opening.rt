//! What a command tries before it reads: its words, and the inputs of their names in order.
ghost use Rattle.std.specs.Prelude.{◌≡◌, ◌≢◌, ◌↔◌, [], ◌∷◌, IfOk, IfErr, IsSome, IsTrue, map};
ghost use Rattle.std.specs.Option.{option_map};
ghost use Rattle.batch_inputs.specs.declared.faults.RunFault.{RunFault};
ghost use Rattle.command_files.specs.Inputs.{NamesStdinOnce, IsNamed, opened_input, stdin_name};
ghost use Rattle.command_files.specs.Opening.{AreOpened, CannotChoose, CannotOpen, HasOpened, IsChosen, IsMissing, OpensInput, inputs_bundled, inputs_judged, inputs_ordered, inputs_paired, missing, name_of_order, one_if, order_input};

use crate::files::FileSystem;
use crate::opened_input::OpenedInput;
use crate::refusal::Refusal;
use batch_inputs::{File, RunFault, SETTINGS, fault_of_run};
use command_args::{BundleArgs, CheckArgs, OrderArgs, RunOptions};
use path_algebra::{AlgebraChoice, AlgebraName};
use text_lines::READ_FAILED;

/// The name of standard input.
pub const STDIN_NAME: &str = "-";

/// The algebra that options ask for. They are refused if they ask for two solvers, if they name an
/// order without factors, if accounts are wanted of a solver that counts nothing, and if the limit is
/// missing or does not belong.
pub fn choose(options: &RunOptions<'_>, accounts: bool) -> Result<AlgebraChoice, Refusal>
    ensures chosen { IfOk result (IsChosen options.now accounts) }
    ensures refused { IfErr result (CannotChoose options.now accounts) }
{
    if options.settings.plain && options.settings.factors {
        return Err(Refusal::TwoSolvers);
    }
    if options.order.is_some() && !options.settings.factors {
        return Err(Refusal::Unfactored);
    }
    if accounts && (options.settings.plain || options.settings.factors) {
        return Err(Refusal::Uncounted);
    }
    match AlgebraName::from_text(options.algebra.as_bytes()) {
        Some(name) => match AlgebraChoice::named(name, options.limit) {
            Some(chosen) => Ok(chosen),
            None => Err(Refusal::Fault(fault_of_run(SETTINGS))),
        },
        None => Err(Refusal::Fault(fault_of_run(SETTINGS))),
    }
}

/// Whether standard input is named at most once.
fn names_stdin_once(names: &[&str]) -> bool
    ensures { IsTrue result ↔ NamesStdinOnce (map (λ name. name.now) names.now) }
{
    names.iter().filter(|name| STDIN_NAME == **name).count() <= 1
}

/// The fault of a file that can't be opened.
fn missing(file: File) -> RunFault
    ensures { result ≡ missing file }
{
    RunFault {
        number: READ_FAILED,
        file,
        line: 0,
    }
}

/// Opens the input of a name: standard input, or a file.
fn open<P: FileSystem>(
    files: &mut P,
    path: &str,
    file: File,
) -> Result<OpenedInput<P::File, P::Stdin>, Refusal>
    ensures opens { OpensInput P.opens path.now files.old files.new }
    ensures named { IfOk result (IsNamed path.now) }
    ensures unread { IfOk result (λ opened. (opened_input P.File.seen P.Stdin.seen opened).asked ≡ 0) }
    ensures fault { IfErr result (λ r. (r ≡ Refusal.Fault (missing file)) × (path.now ≢ stdin_name)) }
{
    if path == STDIN_NAME {
        return Ok(OpenedInput::Stdin(files.stdin()));
    }
    match files.open(path) {
        Ok(opened) => Ok(OpenedInput::File(opened)),
        Err(_) => Err(Refusal::Fault(missing(file))),
    }
}

/// Opens the input of an order of elimination, if one is named.
fn open_order<P: FileSystem>(
    files: &mut P,
    name: Option<&str>,
) -> Result<Option<OpenedInput<P::File, P::Stdin>>, Refusal>
    ensures opened { IfOk result (λ order. AreOpened P.opens (order_input (name_of_order name.entry))
        (one_if (option_map (opened_input P.File.seen P.Stdin.seen) order)) files.old files.new) }
    ensures refused { IfErr result (λ r. (f : RunFault) × (r ≡ Refusal.Fault f)
        × IsMissing P.opens (order_input (name_of_order name.entry)) files.old files.new f) }
{
    let Some(path) = name else {
        return Ok(None);
    };
    let order = open(files, path, File::Order)?;
    Ok(Some(order))
}

/// Whether standard input is at most one of this input and an order, if one is named.
fn is_once_with(name: &str, order: Option<&str>) -> bool
    ensures { IsTrue result ↔ NamesStdinOnce (map (λ n. n.0) ((name.now, File.Bundle)
        ∷ order_input (name_of_order order.entry))) }
{
    match order {
        None => true,
        Some(order) => names_stdin_once(&[name, order]),
    }
}

/// Whether standard input is at most one of these inputs and an order, if one is named.
fn are_once_with(first: &str, second: &str, order: Option<&str>) -> bool
    ensures { IsTrue result ↔ NamesStdinOnce (map (λ n. n.0) ((first.now, File.Graph)
        ∷ (second.now, File.Questions) ∷ order_input (name_of_order order.entry))) }
{
    match order {
        None => names_stdin_once(&[first, second]),
        Some(order) => names_stdin_once(&[first, second, order]),
    }
}

/// Opens the inputs of `solve` or `serve` in order: a graph, questions or requests, and an order, if
/// one is named.
pub fn open_pair<P: FileSystem>(
    files: &mut P,
    graph: &str,
    questions: &str,
    options: &RunOptions<'_>,
) -> Result<
    (
        OpenedInput<P::File, P::Stdin>,
        OpenedInput<P::File, P::Stdin>,
        Option<OpenedInput<P::File, P::Stdin>>,
    ),
    Refusal,
>
    ensures opened { let seen = opened_input P.File.seen P.Stdin.seen in
        IfOk result (λ i. HasOpened P.opens (inputs_paired graph.now questions.now options.now)
        (seen i.0 ∷ seen i.1 ∷ one_if (option_map seen i.2)) files.old files.new) }
    ensures refused { IfErr result (CannotOpen P.opens
        (inputs_paired graph.now questions.now options.now) files.old files.new) }
{
    if !are_once_with(graph, questions, options.order) {
        return Err(Refusal::StdinTwice);
    }
    let graph = open(files, graph, File::Graph)?;
    let questions = open(files, questions, File::Questions)?;
    let order = open_order(files, options.order)?;
    Ok((graph, questions, order))
}

/// Opens the inputs of `bundle` in order: standard input, and an order, if one is named.
pub fn open_to_bundle<P: FileSystem>(
    files: &mut P,
    args: &BundleArgs<'_>,
) -> Result<
    (
        OpenedInput<P::File, P::Stdin>,
        Option<OpenedInput<P::File, P::Stdin>>,
    ),
    Refusal,
>
    ensures opened { let seen = opened_input P.File.seen P.Stdin.seen in
        IfOk result (λ i. HasOpened P.opens (inputs_bundled args.now)
        (seen i.0 ∷ one_if (option_map seen i.1)) files.old files.new) }
    ensures refused { IfErr result (CannotOpen P.opens (inputs_bundled args.now) files.old
        files.new) }
{
    if !is_once_with(STDIN_NAME, args.options.order) {
        return Err(Refusal::StdinTwice);
    }
    let bundle = open(files, STDIN_NAME, File::Bundle)?;
    let order = open_order(files, args.options.order)?;
    Ok((bundle, order))
}

/// Opens the input of `order`: a graph.
pub fn open_to_order<P: FileSystem>(
    files: &mut P,
    args: &OrderArgs<'_>,
) -> Result<OpenedInput<P::File, P::Stdin>, Refusal>
    ensures opened { IfOk result (λ graph. AreOpened P.opens (inputs_ordered args.now)
        (opened_input P.File.seen P.Stdin.seen graph ∷ []) files.old files.new) }
    ensures refused { IfErr result (λ r. (f : RunFault) × (r ≡ Refusal.Fault f)
        × IsMissing P.opens (inputs_ordered args.now) files.old files.new f) }
{
    open(files, args.graph, File::Graph)
}

/// Opens the inputs of `check` in order: a graph, questions, and answers.
pub fn open_to_check<P: FileSystem>(
    files: &mut P,
    args: &CheckArgs<'_>,
) -> Result<
    (
        OpenedInput<P::File, P::Stdin>,
        OpenedInput<P::File, P::Stdin>,
        OpenedInput<P::File, P::Stdin>,
    ),
    Refusal,
>
    ensures opened { let seen = opened_input P.File.seen P.Stdin.seen in
        IfOk result (λ i. HasOpened P.opens (inputs_judged args.now)
        (seen i.0 ∷ seen i.1 ∷ seen i.2 ∷ []) files.old files.new) }
    ensures refused { IfErr result (CannotOpen P.opens (inputs_judged args.now) files.old
        files.new) }
{
    if !names_stdin_once(&[args.graph, args.questions, args.answers]) {
        return Err(Refusal::StdinTwice);
    }
    let graph = open(files, args.graph, File::Graph)?;
    let questions = open(files, args.questions, File::Questions)?;
    let answers = open(files, args.answers, File::Answers)?;
    Ok((graph, questions, answers))
}
