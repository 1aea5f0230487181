//! The line of a vertex, built from its end to its start, so that no number has to be moved.
ghost use Rattle.std.specs.Prelude.{◌≡◌, ℕ, ◌+◌, ◌<◌, ◌≤◌, ◌++◌, ◌∷◌, [], codes, decimal, length};
ghost use Rattle.text_lines.specs.Texts.{spelled};
ghost use Rattle.answer_text.specs.AnswerText.{vertex_words};

use crate::answers::Reached;
use itoa::write_digits;
use std::marker::Model;

/// How many bytes the line of a vertex has room for: it has at most 86.
const ROOM: usize = 96;

/// Room for the line of a vertex. Its view is what has been built so far: the bytes at its end.
#[derive(Drop)]
pub struct VertexLine {
    bytes: [u8; ROOM],
    start: usize,
}

impl Model for VertexLine {
    ghost use Rattle.std.specs.Prelude.{◌≡◌, ℕ, ◌≤◌, List, drop, length};

    ghost Value = { List ℕ };

    ghost view = { λ l. drop l.start l.bytes };

    ghost invariant = { λ l. (length l.bytes ≡ 96) × (l.start ≤ 96) };
}

impl VertexLine {
    /// An empty line.
    pub fn new() -> Self
        ensures { result ≡ [] }
    {
        VertexLine {
            bytes: [0; ROOM],
            start: ROOM,
        }
    }

    /// Empties the line.
    #[inline(always)]
    fn clear(&mut self)
        ensures bytes { self.new ≡ [] }
        ensures len { length self.new ≡ 0 }
    {
        self.start = ROOM;
    }

    /// Puts a byte before what there is.
    #[inline(always)]
    fn put(&mut self, byte: u8)
        requires { length self.old < 96 }
        ensures bytes { self.new ≡ byte ∷ self.old }
        ensures len { length self.new ≡ length self.old + 1 }
    {
        self.start -= 1;
        self.bytes[self.start] = byte;
    }

    /// Puts a space and a number before what there is.
    #[inline(always)]
    fn put_spaced(&mut self, n: u64)
        requires { length self.old + 21 ≤ 96 }
        ensures bytes { self.new ≡ 32 ∷ (decimal n ++ self.old) }
        ensures len { length self.new ≤ length self.old + 21 }
    {
        self.put_number(n);
        self.put(b' ');
    }

    /// Puts a number before what there is.
    #[inline(always)]
    fn put_number(&mut self, n: u64)
        requires { length self.old + 20 ≤ 96 }
        ensures bytes { self.new ≡ decimal n ++ self.old }
        ensures len { length self.new ≤ length self.old + 20 }
    {
        self.start = write_digits(n, &mut self.bytes, self.start);
    }

    #[tactic(auto, unfolding(text_lines::specs::Texts::spelled))]
    fn fill_reached(&mut self, vertex: u64, reached: Reached)
        ensures { self.new ≡ spelled (codes "d" ∷ decimal vertex ∷ decimal reached.code ∷ decimal
            reached.hops ∷ decimal reached.parent ∷ []) }
    {
        self.clear();
        self.put(b'\n');
        self.put_spaced(u64::from(reached.parent));
        self.put_spaced(u64::from(reached.hops));
        self.put_spaced(reached.code);
        self.put_spaced(vertex);
        self.put(b'd');
    }

    #[tactic(auto, unfolding(text_lines::specs::Texts::spelled))]
    fn fill_unreached(&mut self, vertex: u64)
        ensures { self.new ≡ spelled (codes "u" ∷ decimal vertex ∷ []) }
    {
        self.clear();
        self.put(b'\n');
        self.put_spaced(vertex);
        self.put(b'u');
    }

    /// Makes this the line of a vertex, whatever it was.
    pub(crate) fn fill(&mut self, vertex: u64, reached: Option<Reached>)
        ensures { self.new ≡ spelled (vertex_words vertex reached) }
    {
        match reached {
            Some(reached) => self.fill_reached(vertex, reached),
            None => self.fill_unreached(vertex),
        }
    }

    /// All bytes.
    #[inline(always)]
    pub(crate) fn as_bytes(&self) -> &[u8]
        ensures { result.now ≡ self.now }
    {
        &self.bytes[self.start..]
    }
}
