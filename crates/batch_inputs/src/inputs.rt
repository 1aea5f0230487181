//! Reads the graph and the questions of a batch.
ghost use Rattle.std.specs.Prelude.{◌≡◌, ◌≢◌, ◌+◌, ◌≤◌, ◌↔◌, ◌⊎◌, ℕ, List, Option, None, Result, Ok, Err, IfOk, OnOk, IfErr, IfSome, length};
ghost use Rattle.std.specs.Option.{option_map};
ghost use Rattle.std.specs.Io.KnownBytes.{IsAtEnd};
ghost use Rattle.road_graph.specs.GraphData.{GraphData};
ghost use Rattle.road_files.specs.Asked.{AreQuestionsOf, Asked, asked_of};
ghost use Rattle.batch_inputs.specs.Spelled.{IsPairOf};
ghost use Rattle.batch_inputs.specs.InputFaults.{IsNumberOf};
ghost use Rattle.batch_inputs.specs.declared.faults.File.{File};
ghost use Rattle.batch_inputs.specs.declared.faults.RunFault.{RunFault};

use crate::faults::{File, RunFault, fault_in};
use elimination_order::Order;
use graph_text::{FromArcs, read_gr_as};
use road_files::{Questions, read_bundle_as, read_questions};
use std::alloc::Global;
use text_lines::RoadRead;

/// What is read of a batch.
#[derive(Drop)]
pub struct BatchRead<G> {
    /// A graph of any kind.
    pub graph: G,
    /// Questions over it.
    pub questions: Questions,
    /// The order in which its vertices are eliminated, if one is given.
    pub order: Option<Order>,
}

/// What the graph and the questions of a batch are read from.
pub trait BatchInput {
    // It spells this graph, and these questions over it.
    ghost is_read: { Self → GraphData → Asked → Type 0 };

    // It spells this order of so many vertices, or none.
    ghost spells_order: { Self → ℕ → Option (List ℕ) → Type 0 } = { λ _ _ order. order ≡ None };

    // A fault of it names this file.
    ghost is_own: { File → Type 0 };

    // What a run with this outcome did to it, from the one moment to the other.
    ghost has_read: { Self → Self → Result (Unit {0}) RunFault → Type 0 };

    /// Reads a graph of any kind, and questions over it, and maybe an order of its vertices, and
    /// reports the first fault.
    fn read<G: FromArcs>(&mut self, alloc: Global) -> Result<BatchRead<G>, RunFault>
        ensures read { IfOk result (λ r. is_read self.old (G.roads r.graph) (asked_of r.questions)) }
        ensures within { IfOk result (λ r. AreQuestionsOf (G.roads r.graph).vertices r.questions) }
        ensures order { IfOk result (λ r. IfSome r.order (λ order. length order.vertices.items ≡ (G.roads r.graph).vertices)) }
        ensures ordered { IfOk result (λ r. spells_order self.old (G.roads r.graph).vertices (option_map (λ o. o.vertices.items) r.order)) }
        ensures done { OnOk result (has_read self.old self.new (Ok tt)) }
        ensures fault { IfErr result (λ f. has_read self.old self.new (Err f)) }
        ensures kinds { IfErr result (λ f. is_own f.file × IsNumberOf f.file f.number) }
        ensures named { IfErr result (λ f. f.file ≢ File.NoFile) }
        ensures placed { IfErr result (λ f. f.number ≤ 3 → f.line ≡ 0) };

    // What is true of it after a success is true after a later fault of the run.
    ghost later: { (old new : Self) (f : RunFault) → f.file ≡ File.NoFile → f.number ≢ 43 → has_read old new (Ok tt) → has_read old new (Err f) };

    // After a fault of the settings it is as it was.
    ghost unread: { (s : Self) → has_read s s (Err (record { number = 43; file = File.NoFile; line = 0 })) };
}

/// A graph in one input, and questions over it in another.
#[derive(Drop)]
pub struct PairInput<'i, G, Q> {
    pub graph: &'i mut G,
    pub questions: &'i mut Q,
}

impl<G: RoadRead, Q: RoadRead> BatchInput for PairInput<'_, G, Q> {
    ghost use Rattle.std.specs.Prelude.{◌≡◌};
    ghost use Rattle.std.proofs.Common.{refl};
    ghost use Rattle.batch_inputs.specs.Spelled.{IsPairOf};
    ghost use Rattle.batch_inputs.specs.InputFaults.{IsPairFile};
    ghost use Rattle.batch_inputs.specs.Inputs.{HasReadPair};
    ghost use Rattle.batch_inputs.specs.InputLaws.{pair_later, pair_unread};

    ghost is_read = { λ s. IsPairOf (G.seen s.graph.now).left (Q.seen s.questions.now).left };

    ghost is_own = { IsPairFile };

    ghost has_read = { λ old new outcome. (new.graph.ghost_name ≡ old.graph.ghost_name) × (new.questions.ghost_name ≡ old.questions.ghost_name) ×
        HasReadPair (G.seen old.graph.now) (G.seen new.graph.now)
        (Q.seen old.questions.now) (Q.seen new.questions.now) outcome };

    ghost later = { λ old new f file other h. (h.0, h.1, pair_later _ _ _ _ f file other h.2) };

    ghost unread = { λ s. (refl, refl, pair_unread _ _) };

    fn read<B: FromArcs>(&mut self, alloc: Global) -> Result<BatchRead<B>, RunFault> {
        let graph: B = match read_gr_as(alloc, self.graph) {
            Ok(graph) => graph,
            Err(fault) => return Err(fault_in(File::Graph, fault)),
        };
        match read_questions(alloc, self.questions, graph.count_vertices()) {
            Ok(questions) => Ok(BatchRead {
                graph,
                questions,
                order: None,
            }),
            Err(fault) => Err(fault_in(File::Questions, fault)),
        }
    }
}

/// A graph and questions over it, in one input.
#[derive(Drop)]
pub struct BundleInput<'i, B> {
    pub bundle: &'i mut B,
}

impl<B: RoadRead> BatchInput for BundleInput<'_, B> {
    ghost use Rattle.std.specs.Prelude.{◌≡◌};
    ghost use Rattle.std.proofs.Common.{refl};
    ghost use Rattle.batch_inputs.specs.Spelled.{IsBundleOf};
    ghost use Rattle.batch_inputs.specs.InputFaults.{IsBundleFile};
    ghost use Rattle.batch_inputs.specs.Inputs.{HasReadBundle};
    ghost use Rattle.batch_inputs.specs.InputLaws.{bundle_later, bundle_unread};

    ghost is_read = { λ s. IsBundleOf (B.seen s.bundle.now).left };

    ghost is_own = { IsBundleFile };

    ghost has_read = { λ old new outcome. (new.bundle.ghost_name ≡ old.bundle.ghost_name) ×
        HasReadBundle (B.seen old.bundle.now) (B.seen new.bundle.now) outcome };

    ghost later = { λ old new f file other h. (h.0, bundle_later _ _ f file other h.1) };

    ghost unread = { λ s. (refl, bundle_unread _) };

    fn read<G: FromArcs>(&mut self, alloc: Global) -> Result<BatchRead<G>, RunFault> {
        match read_bundle_as(alloc, self.bundle) {
            Ok((graph, questions)) => Ok(BatchRead {
                graph,
                questions,
                order: None,
            }),
            Err(fault) => Err(fault_in(File::Bundle, fault)),
        }
    }
}
