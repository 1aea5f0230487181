//! The moves that events are made of, each a few writes to the tables.
ghost use Rattle.std.specs.Prelude.{◌≡◌, ℕ, ◌≤◌, ◌<◌, length, Some, false};
ghost use Rattle.scholten_core.specs.declared.token.Token.TheVariants.{Held};
ghost use Rattle.scholten_core.specs.Diffusion.{arrive, rest, freed, is_idle, pump_one, improves as improves_on, is_due as due};
ghost use Rattle.scholten_core.specs.CoreView.{state_of, network_of};

use crate::core_tables::CoreTables;
use crate::token::Token;
use crate::values::{answer_to, better_of, engaged_by, extended, improves, is_same};
use path_algebra::PathAlgebra;
use road_graph::{ArcNo, Vertex};

impl<'g, A: PathAlgebra> CoreTables<'g, A> {
    /// A message is taken: the label becomes the better one, and a neutral vertex is engaged. Says
    /// whether the label changed.
    pub fn arrive(&mut self, a: ArcNo, v: Vertex, value: A::Value) -> bool
        requires head { v ≡ (network_of self.old).head a }
        requires within { v ≤ self.old.diffusion.roads.vertices }
        requires busy { is_idle ((state_of self.old).token a) ≡ false }
        ensures same { self.new.diffusion ≡ self.old.diffusion }
        ensures improved { result ≡ improves_on (A.meaning self.old.diffusion.algebra) value
            ((state_of self.old).label v) }
        ensures state { state_of self.new ≡ arrive (A.meaning self.old.diffusion.algebra)
            (network_of self.old) a value (state_of self.old) }
    {
        let improved = improves(self.algebra, value, self.label(v));
        let label = better_of(improved, value, self.label(v));
        let engager = engaged_by(self.engager(v), a);
        let answer = answer_to(self.engager(v));
        self.labels[v.0 as usize] = label;
        self.engagers[v.0 as usize] = engager;
        self.tokens[a.0 as usize] = answer;
        improved
    }

    /// A signal is taken: its arc is idle.
    pub fn free(&mut self, a: ArcNo, v: Vertex)
        requires tail { v ≡ (network_of self.old).tail a }
        requires within { v ≤ self.old.diffusion.roads.vertices }
        requires busy { is_idle ((state_of self.old).token a) ≡ false }
        ensures same { self.new.diffusion ≡ self.old.diffusion }
        ensures state { state_of self.new ≡ freed (A.meaning self.old.diffusion.algebra)
            (network_of self.old) a (state_of self.old) }
    {
        self.tokens[a.0 as usize] = Token::Idle;
        self.deficits[v.0 as usize] -= 1;
    }

    /// An engaged vertex with no busy arc out becomes neutral: its engager's arc gets a signal.
    pub fn rest(&mut self, v: Vertex)
        requires within { v ≤ self.old.diffusion.roads.vertices }
        requires held { (e : ℕ) → (state_of self.old).engager v ≡ Some e → (state_of self.old).token
            e ≡ Held }
        ensures same { self.new.diffusion ≡ self.old.diffusion }
        ensures state { state_of self.new ≡ rest (A.meaning self.old.diffusion.algebra)
            (network_of self.old) v (state_of self.old) }
    {
        if let Some(e) = self.engager(v) {
            if self.deficit(v) == 0 {
                self.tokens[e.0 as usize] = Token::Signal;
                self.engagers[v.0 as usize] = None;
            }
        }
    }

    /// Whether an arc out of a vertex is idle, and its last offered label is not the vertex's.
    fn is_due(&self, v: Vertex, b: ArcNo) -> bool
        requires high { b ≤ length self.now.diffusion.roads.arcs }
        requires within { v ≤ self.now.diffusion.roads.vertices }
        requires tail { (network_of self.now).tail b ≡ v }
        ensures { result ≡ due (A.meaning self.now.diffusion.algebra) (network_of self.now) v
            (state_of self.now) b }
    {
        self.token(b).is_idle() && !is_same(self.algebra, self.last_offer(b), self.label(v))
    }

    /// Offers the label to an arc if it is due: sends it, extended, unless the extension is
    /// refused.
    pub fn offer(&mut self, v: Vertex, b: ArcNo)
        requires low { 1 ≤ b }
        requires high { b ≤ length self.old.diffusion.roads.arcs }
        requires within { v ≤ self.old.diffusion.roads.vertices }
        requires tail { (network_of self.old).tail b ≡ v }
        ensures same { self.new.diffusion ≡ self.old.diffusion }
        ensures state { state_of self.new ≡ pump_one (A.meaning self.old.diffusion.algebra)
            (network_of self.old) v b (state_of self.old) }
    {
        if self.is_due(v, b) {
            let label = self.label(v);
            let extension = extended(self.algebra, self.label(v), self.weight(b));
            self.told[b.0 as usize] = label;
            if let Some(value) = extension {
                self.tokens[b.0 as usize] = Token::Message(value);
                self.deficits[v.0 as usize] += 1;
            }
        }
    }
}
