//! Chunks of answers, each of which one thread judges.

ghost use Rattle.std.specs.Prelude.{◌≡◌, ◌+◌, ◌<◌, ◌≤◌};
ghost use Rattle.answer_check.specs.Chunks.{chunk_start};

/// How many answers a chunk has at most.
const CHUNK: usize = 64;

/// Chunks of answers, one after the other from `start` on, up to `end`.
#[derive(Clone, Copy)]
pub(crate) struct Chunks {
    pub(crate) start: usize,
    pub(crate) end: usize,
    /// How many answers a chunk has, but for the last ones.
    pub(crate) each: usize,
    pub(crate) count: usize,
}

impl Chunks {
    /// The next chunks of `total` answers, as many as `count`. Answers that are few are shared
    /// evenly.
    pub(crate) fn next(count: usize, start: usize, total: usize) -> Chunks
        requires some { 1 ≤ count }
        requires start { start < total }
        ensures start { result.start ≡ start }
        ensures count { result.count ≡ count }
        ensures further { start < result.end }
        ensures inside { result.end ≤ total }
        ensures whole { chunk_start result count ≡ result.end }
    {
        let each = ((total - start) / count).clamp(1, CHUNK);
        let end = start.saturating_add(count.saturating_mul(each)).min(total);
        Chunks {
            start,
            end,
            each,
            count,
        }
    }

    /// Where chunk k begins.
    fn start_of(self, k: usize) -> usize
        ensures { result ≡ chunk_start self k }
    {
        let after = k.saturating_mul(self.each);
        self.start.saturating_add(after).min(self.end)
    }

    /// Where chunk k begins and ends.
    pub(crate) fn chunk(self, k: usize) -> (usize, usize)
        requires { k < self.count }
        ensures start { result.0 ≡ chunk_start self k }
        ensures end { result.1 ≡ chunk_start self (k + 1) }
    {
        (self.start_of(k), self.start_of(k + 1))
    }
}
