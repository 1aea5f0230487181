//! What help says, in lines of at most 80 columns. What the faults mean is in their table.

// What the exit statuses mean, after these lines.
macro_rules! with_statuses {
    ($($before:literal)*) => {
        concat!(
            $($before,)*
            "Exit status:\n",
            "  0  answered, valid, or help was requested\n",
            "  1  invalid\n",
            "  2  wrong usage, or fault 43\n",
            "  3  an input is missing, malformed or too dense: faults 1, 2, 10 to 36, 44\n",
            "  4  out of memory: fault 3\n",
            "  5  the output could not be written: fault 42\n",
            "  6  stopped: faults 40 and 41\n",
            "A fault is one line on standard error: `diffuse: fault N FILE line L`.\n",
            "`diffuse faults N` explains it."
        )
    };
}

// With which options to answer, between these lines.
macro_rules! with_advice {
    ($($before:literal)*; $($after:literal)*) => {
        concat!(
            $($before,)*
            "For answers give `--plain` (few questions) or `--factors` (many pairs over\n",
            "one network). Without either the diffusing computation runs, which takes\n",
            "many times as long for the same bytes.",
            $($after,)*
        )
    };
}

/// The version of the program, and the line of the toolchain that proves it.
pub const VERSION: &str = "1.2.0 (rattle-kit-13)";

/// What the program is for.
pub const PURPOSE: &str = with_advice!(
    "Answers path questions over road graphs: best values, hops and routes.\n";
    " If a command ends with status 0,\n"
    "what it wrote is right; this is proved of inputs and outputs that reveal\n"
    "their bytes to the contracts, and files and pipes run the same code"
);

/// With which options to answer.
pub const ADVICE: &str = with_advice!(;);

/// The algebras, and what each calls best.
pub const ALGEBRA: &str = concat!(
    "Which value is best:\n",
    "  shortest  the least sum of weights\n",
    "  widest    the greatest least weight\n",
    "  reach     any: whether there is a walk at all\n",
    "  hops      the fewest arcs\n",
    "  reliable  the greatest product of chances (weights in millionths,\n",
    "            values in units of 10^-12, rounded down: the product of\n",
    "            246 arcs of 0.9 is 0, and then only hops decide)\n",
    "  within    the least sum of weights, up to `--limit`",
);

/// The names of the algebras, in short.
pub const NAMES: &str = concat!(
    "Algebras: shortest, widest, reach, hops, reliable, within (with --limit).\n",
    "`--help` explains them, and lists the exit statuses.",
);

/// What a graph's file contains.
pub const GRAPH: &str = concat!(
    "A road graph, a .gr file of the 9th DIMACS Implementation Challenge:\n",
    "`p sp VERTICES ARCS`, then one line `a FROM TO WEIGHT` per arc. One of\n",
    "the files may be `-`, standard input; a file of that name is `./-`.\n",
    "For a compressed graph, write `<(zcat FILE.gz)`",
);

/// What a file of questions contains.
pub const QUESTIONS: &str = concat!(
    "The questions:\n",
    "  a .ss file, `s V`: from V to all vertices;\n",
    "  a .p2p file, `q S T`: from S to T, with the route;\n",
    "  a .ms file, `m V1 .. Vj`: from the nearest of several to all",
);

/// What a file of answers contains.
pub const JUDGED: &str = concat!(
    "The answers to judge, in the format of `diffuse solve`; their first\n",
    "line names the algebra",
);

/// When a limit is given.
pub const LIMIT: &str = concat!(
    "The greatest sum of weights, 0 to 9223372036854775808. Required with\n",
    "`--algebra within`, and allowed only there; otherwise fault 43.",
);

/// When a limit is given for answers.
pub const LIMIT_OF_ANSWERS: &str = concat!(
    "The limit of the answers, 0 to 9223372036854775808. Required if their\n",
    "first line says `within`, and allowed only then; otherwise fault 43.",
);

/// The one-thread solver.
pub const PLAIN: &str = concat!(
    "Answer each question by a search of its own, with a binary heap. Best\n",
    "for a few questions. With it, or with `--factors`, the options\n",
    "`--workers`, `--shards`, `--deal`, `--budget`, `--turns`,\n",
    "`--best-first` and `--ahead` have no effect, but must be in range.",
);

/// The solver by factors of the graph.
pub const FACTORS: &str = concat!(
    "Factor the graph once, then answer each question by substitution;\n",
    "only near pairs, which a search of at most 500 steps decides, need\n",
    "a search.\n",
    "Best for many questions over one road graph, under shortest, within\n",
    "or hops. Not with `--plain`. A graph that is too dense to factor, or\n",
    "whose sums could exceed 2^63, is answered as with `--plain`.",
);

/// An order of one's own, by which the graph is factored.
pub const ORDER: &str = concat!(
    "Factor the graph by the order of elimination in FILE, whose line V is\n",
    "the place of vertex V, from 0. `diffuse order` and `ndmetis` write\n",
    "such files. Any order gives the same answers. Only with `--factors`.",
);

/// How many questions are run together.
pub const WIDTH: &str = concat!(
    "Questions in progress at a time, 1 to 64. Memory grows with it. With\n",
    "`--plain` they are solved in parallel, on all processors; so are\n",
    "pairs with `--factors`.",
);

/// How many threads there are.
pub const WORKERS: &str = "Threads that run the diffusing computation, 1 to 64.";

/// How many parts the vertices are divided into.
pub const SHARDS: &str = concat!(
    "Shards that the vertices are divided into, 1 to 64. `--deal` says\n",
    "which worker owns which.",
);

/// How much a shard does before the next has its turn.
pub const BUDGET: &str = concat!(
    "Messages and signals per turn of a shard, 1 to 65536. Left out: 1024,\n",
    "or 65536 with `--best-first --deal questions`.",
);

/// Which of the waiting messages a shard handles next.
pub const BEST_FIRST: &str = concat!(
    "Let each shard handle its best waiting message next, not the oldest.\n",
    "On road graphs this sends far fewer messages.",
);

/// How far a shard may run ahead of the others.
pub const AHEAD: &str = concat!(
    "With `--best-first`: a message waits while it is worse than the best\n",
    "one that waits at another shard or was sent to one, extended by an\n",
    "arc of weight W, 0 to 4294967295. Left out, W is a fifth of the mean\n",
    "weight of the arcs.",
);

/// How shards are dealt to workers.
pub const DEAL: &str = concat!(
    "How the workers share the questions in progress: by `shards`, worker k\n",
    "of n has every n-th shard of each, starting with the k-th; by\n",
    "`questions`, each question starts one worker further, so that with\n",
    "one shard each worker has whole questions.",
);

/// How long a worker goes on.
pub const TURNS: &str = concat!(
    "Turns of a worker per group of questions, 0 to 1000000000000. When a\n",
    "worker has used them up, the command stops\n",
    "with fault 40.",
);

/// Where the counts of a run go.
pub const ACCOUNTS: &str = concat!(
    "Write what each diffusion sent, delivered, signalled and accepted to\n",
    "FILE. It must not be an input, or a file that standard output or error\n",
    "is redirected to. Not with `--plain` or `--factors`, which count\n",
    "nothing.",
);

/// Whether a run says how far it is.
pub const PROGRESS: &str = concat!(
    "Report on standard error how many questions are answered, after each\n",
    "hundredth of them, and of `--factors` the order's links and triangles\n",
    "and the outcome.",
);

/// Whether a run says how long it took.
pub const TIMES: &str = concat!(
    "Report on standard error, at the end, the seconds spent on reading,\n",
    "solving and writing.",
);

/// What a bundle is.
pub const BUNDLE: &str = concat!(
    "Answers a graph and its questions from standard input: the lines of a .gr\n",
    "file, followed by those of a .ss, .p2p or .ms file",
);

/// What a service is.
pub const SERVE: &str = concat!(
    "Reads a graph once, and then answers requests from standard input, each as soon\n",
    "as it is complete. A request is the text of a .ss, .p2p or .ms file, and its\n",
    "reply is what `solve` writes for it",
);

/// What the graph of a service is.
pub const SERVED_GRAPH: &str = concat!(
    "A road graph, a .gr file of the 9th DIMACS Implementation Challenge.\n",
    "It is read once, before the first request, and cannot be `-`",
);

/// How replies are read, and what the exit statuses mean.
pub const REPLIES: &str = with_statuses!(
    "A reply to a request with a fault is the line `f NUMBER LINE`, where LINE counts\n"
    "all lines of standard input. If the run stops at fault 3 or 40, that line\n"
    "follows the first answers, which are right. After a fault the service continues\n"
    "with the next `p` line.\n"
    "\n"
);

/// How answers are read, and what the exit statuses mean.
pub const ANSWERS: &str = with_statuses!(
    "An answer for all vertices has a line `d V VALUE HOPS PARENT` for each vertex V\n"
    "that is reached, and `u V` for each that is not. An answer for a pair is\n"
    "`d VALUE HOPS` and the route `r V1 .. Vk`, or `u` if there is none.\n"
    "\n"
);

/// How a verdict is read, in short.
pub const VERDICT: &str = concat!(
    "Prints `valid`, or `invalid Q V R`: answer Q is wrong at vertex V.\n",
    "`--help` lists the reasons R and the exit statuses.",
);

/// How a verdict is read, and what the exit statuses mean.
pub const VERDICTS: &str = with_statuses!(
    "Prints `valid`, with exit status 0, or `invalid Q V R`, with exit status 1: the\n"
    "first wrong place is in answer Q, at vertex V, for reason R:\n"
    "  1  wrong header, question, source or number of lines\n"
    "  2  there is a better value, or none at all\n"
    "  3  not a possible value, or no arc from the parent gives it\n"
    "  4  wrong hops\n"
    "  5  a lower-numbered parent gives the same value and hops\n"
    "  6  marked unreached, but a walk leads there\n"
    "  7  another route\n"
    "Q and V are 0 if no answer or vertex is meant. Of equal routes the right one has\n"
    "the fewest hops and then the lowest-numbered parents, so right values from\n"
    "another program may be `invalid` for reason 4 or 5.\n"
    "\n"
);

/// What an order is.
pub const PLACES: &str = concat!(
    "Line V of the order is the place of vertex V, from 0. It is found by nested\n",
    "dissection, with the care that `--factors` takes for many pairs: write it\n",
    "once, and give it with `--order` to all later runs.",
);

/// What the exit statuses mean.
pub const STATUSES: &str = with_statuses!();

/// Which faults are explained.
pub const NUMBERS: &str = "Fault numbers, such as `13` or `12 13`; all faults if none is given";

/// Where the numbers of faults are met.
pub const EXPLAINED: &str = concat!(
    "A fault is one line on standard error, as in `diffuse: fault 13 graph line 1`.\n",
    "A number that is no fault's is wrong usage, with exit status 2.",
);
