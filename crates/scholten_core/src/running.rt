//! The core itself: tables that represent a state that some list of events leads to.
ghost use Rattle.std.specs.Prelude.{◌≡◌, ℕ, ◌≤◌, ◌<◌, ◌+◌, ◌^◌, ◌↔◌, ◌∷◌, [], length, IfOk, OnErr, IfSome, IsTrue, true, false};
ghost use Rattle.road_graph.specs.GraphData.{HasVertex};
ghost use Rattle.path_algebra.specs.Walks.{IsWalkValue};
ghost use Rattle.scholten_core.specs.declared.token.Token.TheVariants.{Idle, Held};
ghost use Rattle.scholten_core.specs.declared.event.Event.TheVariants.{Deliver, Accept};
ghost use Rattle.scholten_core.specs.Network.{network};
ghost use Rattle.scholten_core.specs.Diffusion.{opening, step, run_from, is_enabled, count_enabled, HasEnded, IsQuiet as IsQuietState};
ghost use Rattle.scholten_core.specs.Deficit.{deficit};
ghost use Rattle.scholten_core.specs.Progress.{CanGoOn};
ghost use Rattle.scholten_core.specs.Rooted.{IsRooted};
ghost use Rattle.scholten_core.specs.Reached.{IsReached, LabelsAreBest};
ghost use Rattle.scholten_core.specs.CoreView.{state_of, network_of};

use crate::arcs::ENTRY;
use crate::core_tables::CoreTables;
use crate::event::Event;
use crate::laws::roads_hold;
use crate::token::Token;
use path_algebra::{PathAlgebra, laws_hold};
use road_graph::{ArcNo, Graph, Memory, Vertex};
use std::alloc::Global;
use std::marker::Model;

/// No message is on the arc.
#[derive(Clone, Copy, Debug, PartialEq, Eq)]
pub struct NoMessage;

/// No signal is on the arc.
#[derive(Clone, Copy, Debug, PartialEq, Eq)]
pub struct NoSignal;

/// One diffusing computation: which labels are best over all walks from a source?
#[derive(Drop)]
pub struct Core<'g, A: PathAlgebra> {
    tables: CoreTables<'g, A>,
}

impl<'g, A: PathAlgebra> Model for Core<'g, A> {
    ghost use Rattle.scholten_core.specs.CoreView.{CoreView, IsRun};

    ghost Value = { CoreView A A.Value };

    ghost view = { λ c. c.tables };

    ghost invariant = { λ c. IsRun A.meaning c.tables };
}

impl<'g, A: PathAlgebra> Core<'g, A> {
    /// A fresh core: a message with the origin on arc 0, and nothing else. Makes all tables, so no
    /// later call takes memory.
    pub fn open(
        alloc: Global,
        algebra: A,
        graph: &'g Graph,
        source: Vertex,
    ) -> Result<Core<'g, A>, Memory>
        requires { HasVertex graph.now source }
        ensures diffusion { IfOk result (λ c. c.diffusion ≡ record {
          algebra = algebra;
          roads = graph.now;
          source = source;
        }) }
        ensures state { IfOk result (λ c. state_of c ≡ opening (A.meaning algebra)
            (network graph.now source)) }
    {
        roads_hold(graph);
        let tables = CoreTables::open(alloc, algebra, graph, source)?;
        Ok(Core { tables })
    }

    /// The message on an arc is handled at the arc's head. Refused, with nothing changed, if no
    /// message is there.
    pub fn deliver(&mut self, a: ArcNo) -> Result<(), NoMessage>
        ensures same { self.new.diffusion ≡ self.old.diffusion }
        ensures done { IfOk result (λ _. (is_enabled (state_of self.old) (Deliver a) ≡ true) ×
            (state_of self.new ≡ step (A.meaning self.old.diffusion.algebra) (network_of self.old)
            (state_of self.old) (Deliver a))) }
        ensures refused { OnErr result ((is_enabled (state_of self.old) (Deliver a) ≡ false) ×
            (self.new ≡ self.old)) }
    {
        laws_hold(self.tables.algebra());
        match self.tables.token(a) {
            Token::Message(value) => {
                let v = self.tables.head(a);
                self.tables.take_message(a, v, value);
                self.tables.rest(v);
                Ok(())
            }
            _ => Err(NoMessage),
        }
    }

    /// The signal on an arc is handled at the arc's tail. Refused, with nothing changed, if no
    /// signal is there.
    pub fn accept(&mut self, a: ArcNo) -> Result<(), NoSignal>
        ensures same { self.new.diffusion ≡ self.old.diffusion }
        ensures done { IfOk result (λ _. (is_enabled (state_of self.old) (Accept a) ≡ true) ×
            (state_of self.new ≡ step (A.meaning self.old.diffusion.algebra) (network_of self.old)
            (state_of self.old) (Accept a))) }
        ensures refused { OnErr result ((is_enabled (state_of self.old) (Accept a) ≡ false) ×
            (self.new ≡ self.old)) }
    {
        laws_hold(self.tables.algebra());
        match self.tables.token(a) {
            Token::Signal => {
                let v = self.tables.tail(a);
                if a == ENTRY {
                    self.tables.free(a, v);
                } else {
                    self.tables.take_signal(a, v);
                    self.tables.rest(v);
                }
                Ok(())
            }
            _ => Err(NoSignal),
        }
    }

    /// Applies an event, and says whether it was enabled.
    fn apply(&mut self, event: Event) -> bool
        ensures same { self.new.diffusion ≡ self.old.diffusion }
        ensures state { state_of self.new ≡ step (A.meaning self.old.diffusion.algebra)
            (network_of self.old) (state_of self.old) event }
        ensures enabled { result ≡ is_enabled (state_of self.old) event }
    {
        match event {
            Event::Deliver(a) => self.deliver(a).is_ok(),
            Event::Accept(a) => self.accept(a).is_ok(),
        }
    }

    /// Applies the events in order, skips those that are not enabled, and says how many were.
    pub fn run(&mut self, events: &[Event]) -> usize
        ensures same { self.new.diffusion ≡ self.old.diffusion }
        ensures state { state_of self.new ≡ run_from (A.meaning self.old.diffusion.algebra)
            (network_of self.old) (state_of self.old) events.now }
        ensures count { result ≡ count_enabled (A.meaning self.old.diffusion.algebra)
            (network_of self.old) (state_of self.old) events.now }
    {
        let mut enabled = 0;
        for event in events {
            if self.apply(*event) {
                enabled += 1;
            }
        }
        enabled
    }

    /// Whether the signal on arc 0 has been accepted. Then nothing is under way, and each label is
    /// best; until then there is an arc at which `deliver` or `accept` succeeds.
    pub fn ended(&self) -> bool
        ensures ended { IsTrue result ↔ HasEnded (state_of self.now) }
        ensures quiet { IsTrue result → IsQuietState (state_of self.now) }
        ensures best { IsTrue result → LabelsAreBest (A.meaning self.now.diffusion.algebra)
            self.now.diffusion.roads self.now.diffusion.source (state_of self.now) }
        ensures going { (IsTrue result → ⊥) → CanGoOn (network_of self.now) (state_of self.now) }
        ensures reached { IsReached (A.meaning self.now.diffusion.algebra) self.now.diffusion.roads
            self.now.diffusion.source (state_of self.now) }
    {
        laws_hold(self.tables.algebra());
        self.tables.token(ENTRY).is_idle()
    }

    /// Whether every arc is idle and every vertex neutral.
    pub fn quiet(&self) -> bool
        ensures { IsTrue result ↔ IsQuietState (state_of self.now) }
    {
        self.ended()
    }

    /// The label of a vertex, the value of some walk to it, or none so far.
    pub fn label(&self, v: Vertex) -> Option<A::Value>
        requires { HasVertex self.now.diffusion.roads v }
        ensures label { result ≡ (state_of self.now).label v }
        ensures walk { IfSome result (λ x. IsWalkValue (A.meaning self.now.diffusion.algebra)
            self.now.diffusion.roads (self.now.diffusion.source ∷ []) v x) }
    {
        laws_hold(self.tables.algebra());
        self.tables.label(v)
    }

    /// The arc that engages a vertex, none for a neutral one.
    pub fn engager(&self, v: Vertex) -> Option<ArcNo>
        requires { HasVertex self.now.diffusion.roads v }
        ensures engager { result ≡ (state_of self.now).engager v }
        ensures held { IfSome result (λ e. ((state_of self.now).token e ≡ Held) ×
            ((network_of self.now).head e ≡ v)) }
        ensures rooted { IsRooted (A.meaning self.now.diffusion.algebra) (network_of self.now)
            (state_of self.now) }
    {
        laws_hold(self.tables.algebra());
        self.tables.engager(v)
    }

    /// What is on an arc; a message has the value of some walk to the arc's head.
    pub fn token(&self, a: ArcNo) -> Token<A::Value>
        requires { a ≤ length self.now.diffusion.roads.arcs }
        ensures token { result ≡ (state_of self.now).token a }
        ensures walk { (x : A.Value) → result ≡ Token.Message x →
            IsWalkValue (A.meaning self.now.diffusion.algebra) self.now.diffusion.roads
            (self.now.diffusion.source ∷ []) ((network_of self.now).head a) x }
    {
        laws_hold(self.tables.algebra());
        self.tables.token(a)
    }

    /// How many arcs out of a vertex are busy: 0 for a neutral one.
    pub fn deficit(&self, v: Vertex) -> u32
        requires { HasVertex self.now.diffusion.roads v }
        ensures { result ≡ deficit (network_of self.now) v (state_of self.now) }
    {
        self.tables.deficit(v)
    }
}
