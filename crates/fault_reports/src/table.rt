//! The table of faults.
ghost use Rattle.fault_reports.specs.Explained.{IsFaultTable};

use crate::rows::FaultRow;

/// The faults that a command can end with, and the one of a caller's gate.
const FAULTS: &[FaultRow] = &[
    FaultRow {
        number: 1,
        meaning: "an input could not be opened or read",
        example: "`diffuse solve nowhere.gr roads.ss`",
        cause: "no such file, a directory, or no permission to read it",
    },
    FaultRow {
        number: 2,
        meaning: "an input exceeds 4294967296 bytes, and no line within them has a fault",
        example: "`diffuse bundle < /dev/zero`",
        cause: "an endless stream, or more questions than belong in one file",
    },
    FaultRow {
        number: 3,
        meaning: "memory, or the start of a worker, was refused",
        example: "`ulimit -v 100000; diffuse solve --workers 64 roads.gr roads.ss`",
        cause: "too little memory; `--plain` and a small `--width` need the least",
    },
    FaultRow {
        number: 10,
        meaning: "no problem line before this line, or none at all",
        example: "a graph that begins with `a 1 2 3`, or is empty",
        cause: "the first lines were cut off, or the command before a pipe failed",
    },
    FaultRow {
        number: 11,
        meaning: "a second problem line",
        example: "`p sp 2 1` twice in a graph",
        cause: "two files in one",
    },
    FaultRow {
        number: 12,
        meaning: "a problem line with wrong fields or words",
        example: "`p max 2 1` or `p edge 2 1` in a graph",
        cause: concat!(
            "another format: write `p sp VERTICES ARCS`; or GRAPH and QUESTIONS\n",
            "    were given in the other order"
        ),
    },
    FaultRow {
        number: 13,
        meaning: "a line that this file does not have",
        example: "`x 1 2 3` in a graph, `q 1 2` in a .ss file",
        cause: "in line 1 of a graph, a compressed file: give `<(zcat FILE)`",
    },
    FaultRow {
        number: 14,
        meaning: "a wrong number of fields",
        example: "`a 1 2` in a graph",
        cause: "arcs without weights, or with more columns than `a FROM TO WEIGHT`",
    },
    FaultRow {
        number: 15,
        meaning: "not a number",
        example: "`a 1 2 0.5` or `a 1 2 -3` in a graph",
        cause: "a decimal point or a sign: scale the weights to whole numbers",
    },
    FaultRow {
        number: 16,
        meaning: "a number that is too large",
        example: "`a 1 2 4294967296` in a graph",
        cause: concat!(
            "a weight above 4294967295, or more than 33554432 vertices,\n",
            "    134217728 arcs or 1048576 questions; in an order, places from 1 on"
        ),
    },
    FaultRow {
        number: 17,
        meaning: "no such vertex",
        example: "`a 0 2 3` in a graph",
        cause: "vertices that are numbered from 0, or questions over another graph",
    },
    FaultRow {
        number: 18,
        meaning: "more lines than the problem line announces",
        example: "`p sp 2 0` and then `a 1 2 3`",
        cause: concat!(
            "roads that were counted once, and written as an arc each way; or an\n",
            "    order of a graph with more vertices"
        ),
    },
    FaultRow {
        number: 19,
        meaning: "fewer lines than the problem line announces",
        example: "`p sp 2 1` and nothing else",
        cause: concat!(
            "a file that was cut short, as by a download that broke off; or an\n",
            "    order of a graph with fewer vertices"
        ),
    },
    FaultRow {
        number: 20,
        meaning: "a place that an earlier line of an order has",
        example: "`0` twice in an order",
        cause: "another list of numbers, such as the parts that `gpmetis` writes",
    },
    FaultRow {
        number: 30,
        meaning: "answers that do not begin with a header",
        example: "answers that begin with `s 1`",
        cause: "another file was given for the answers, or their first line is missing",
    },
    FaultRow {
        number: 31,
        meaning: "a header with wrong fields or words, or an algebra that is not here",
        example: "`p ans ss 1 fastest`",
        cause: concat!(
            "a misspelled name; or, without a line, `own`, a caller's own algebra,\n",
            "    whose answers only the library can judge"
        ),
    },
    FaultRow {
        number: 32,
        meaning: "a line of answers where it does not belong",
        example: "`u 4` where vertex 5 is next",
        cause: "lines that were sorted, left out or written twice",
    },
    FaultRow {
        number: 33,
        meaning: "a wrong number of fields in a line of answers",
        example: "`d 2 3 2` in the answer to `s 1`",
        cause: "a vertex line is `d V VALUE HOPS PARENT`; of a pair, `d VALUE HOPS`",
    },
    FaultRow {
        number: 34,
        meaning: "not a number, in answers",
        example: "`d 2 0.5 1 1`",
        cause: "a decimal point or a sign, or `inf` where the line `u V` belongs",
    },
    FaultRow {
        number: 35,
        meaning: "a number that is too large, in answers",
        example: "`d 2 18446744073709551616 1 1`",
        cause: "a huge value for a vertex that is not reached: write `u V`",
    },
    FaultRow {
        number: 36,
        meaning: "answers that end before the last one is complete",
        example: "`p ans ss 1 shortest` and nothing else",
        cause: "the run that wrote them ended with a fault, or has not ended",
    },
    FaultRow {
        number: 40,
        meaning: "a worker reached its limit of turns",
        example: "`diffuse solve --turns 0 roads.gr roads.ss`",
        cause: "a limit that is too low for this graph: leave `--turns` out",
    },
    FaultRow {
        number: 41,
        meaning: "a gate stopped a worker",
        example: "none: the gate of this program is always open",
        cause: "a gate of a caller's own, in a program that uses the library",
    },
    FaultRow {
        number: 42,
        meaning: "the output could not be written",
        example: "`diffuse solve roads.gr roads.ss > /dev/full`",
        cause: "a full disk, or a reader that has gone, such as `head` in `| head`",
    },
    FaultRow {
        number: 43,
        meaning: "options that do not go with the algebra: `--limit` or `--factors`",
        example: "`diffuse solve --algebra hops --limit 5 roads.gr roads.ss`",
        cause: concat!(
            "`--limit` is required with `within`, and allowed only there; for\n",
            "    `check`, the answers name the algebra. Or the algebra has no factors:\n",
            "    only shortest, within and hops have. A setting out of its range is\n",
            "    wrong usage of the program, and 43 in the library"
        ),
    },
    FaultRow {
        number: 44,
        meaning: "a graph that is too dense to factor, so it has no order",
        example: "`diffuse order` of 1000 vertices that are all joined",
        cause: "more arcs than roads have: answer it without `--factors`",
    },
];

/// What is known of each fault, in the order of their numbers: each with its own meaning.
pub fn all_faults() -> &'static [FaultRow]
    ensures { IsFaultTable result.now }
{
    FAULTS
}
