//! To which workers work is dealt.

/// To which workers the stations of a group of diffusions are dealt. Those of one diffusion go to
/// the workers in turn.
#[derive(Clone, Copy, PartialEq, Eq, Debug)]
pub enum Dealing {
    /// The first station of each diffusion goes to worker 0, so that a worker has the same shards
    /// of all.
    Shards,
    /// The first station of diffusion q goes to worker q modulo their number, so that with one
    /// shard a worker has whole diffusions.
    Questions,
}
