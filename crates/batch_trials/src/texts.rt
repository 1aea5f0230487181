//! A graph, questions about it, and what they are answered.

/// Five vertices, of which the last is reached from nowhere.
pub const FIVE: &str = "p sp 5 7\na 1 2 4\na 1 3 1\na 3 2 2\na 2 4 5\na 3 4 8\na 4 4 0\na 5 1 3\n";

/// One question, from the first vertex.
pub const FROM_ONE: &str = "p aux sp ss 1\ns 1\n";

/// What is written before the first answer to `FROM_ONE`.
pub const HEADER: &str = "p ans ss 1 shortest\n";

/// What `FROM_ONE` over `FIVE` is answered under the least sum of weights.
pub const SHORTEST: &str =
    "p ans ss 1 shortest\ns 1\nd 1 0 0 0\nd 2 3 2 3\nd 3 1 1 1\nd 4 8 3 2\nu 5\n";

/// What `FROM_ONE` over `FIVE` is answered under the greatest width.
pub const FIVE_WIDEST: &str =
    "p ans ss 1 widest\ns 1\nd 1 4294967296 0 0\nd 2 4 1 1\nd 3 1 1 1\nd 4 4 2 2\nu 5\n";

/// What `FROM_ONE` over `FIVE` is answered under reachability.
pub const FIVE_REACH: &str =
    "p ans ss 1 reach\ns 1\nd 1 0 0 0\nd 2 0 1 1\nd 3 0 1 1\nd 4 0 2 2\nu 5\n";

/// Three vertices, with a cycle of weight 0.
pub const CYCLE: &str = "p sp 3 4\na 1 2 0\na 2 3 0\na 3 2 0\na 1 3 0\n";

/// What `FROM_ONE` over `CYCLE` is answered under the least sum of weights.
pub const CYCLE_SHORTEST: &str = "p ans ss 1 shortest\ns 1\nd 1 0 0 0\nd 2 0 1 1\nd 3 0 1 1\n";

/// A wide walk to 4, and an arc to 4 that is not as wide.
pub const WALK: &str = "p sp 5 5\na 1 2 5\na 2 3 5\na 3 4 5\na 1 4 4\na 4 5 3\n";

/// What `FROM_ONE` over `WALK` is answered under the greatest width.
pub const WALK_WIDEST: &str =
    "p ans ss 1 widest\ns 1\nd 1 4294967296 0 0\nd 2 5 1 1\nd 3 5 2 2\nd 4 5 3 3\nd 5 3 4 4\n";

/// Three questions, all from the first vertex.
pub const THRICE: &str = "p aux sp ss 3\ns 1\ns 1\ns 1\n";

/// What is written before the first answer to `THRICE`.
pub const NONE_OF_THREE: &str = "p ans ss 3 shortest\n";

/// What is written before the second answer to `THRICE` over `FIVE`.
pub const ONE_OF_THREE: &str =
    "p ans ss 3 shortest\ns 1\nd 1 0 0 0\nd 2 3 2 3\nd 3 1 1 1\nd 4 8 3 2\nu 5\n";

/// What `THRICE` over `FIVE` is answered.
pub const ALL_OF_THREE: &str =
    "p ans ss 3 shortest\ns 1\nd 1 0 0 0\nd 2 3 2 3\nd 3 1 1 1\nd 4 8 3 2\nu 5\ns 1\nd 1 0 0 0\nd 2 3 2 3\nd 3 1 1 1\nd 4 8 3 2\nu 5\ns 1\nd 1 0 0 0\nd 2 3 2 3\nd 3 1 1 1\nd 4 8 3 2\nu 5\n";

/// Three pairs, of which two have the same source.
pub const PAIRS: &str = "p aux sp p2p 3\nq 1 4\nq 1 2\nq 5 2\n";

/// What `PAIRS` over `FIVE` is answered.
pub const ROUTES: &str =
    "p ans p2p 3 shortest\nq 1 4\nd 8 3\nr 1 3 2 4\nq 1 2\nd 3 2\nr 1 3 2\nq 5 2\nd 6 3\nr 5 1 3 2\n";

/// Two questions from several sources.
pub const SEVERAL: &str = "p aux sp ms 2\nm 4 5\nm 5 2\n";

/// What `SEVERAL` over `FIVE` is answered.
pub const NEAREST: &str =
    "p ans ms 2 shortest\nm 4 5\nd 1 3 1 5\nd 2 6 3 3\nd 3 4 2 1\nd 4 0 0 0\nd 5 0 0 0\nm 5 2\nd 1 3 1 5\nd 2 0 0 0\nd 3 4 2 1\nd 4 5 1 2\nd 5 0 0 0\n";
