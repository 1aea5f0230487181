//! The graph of a service, read as that of a batch without questions.
use batch_run::{BatchInput, BatchRead, File, RunFault, fault_in};
use graph_text::{FromArcs, read_gr_as};
use road_files::Questions;
use std::alloc::Global;
use text_lines::RoadRead;

/// A graph in an input, and no questions.
#[derive(Drop)]
pub(crate) struct GraphInput<'i, G> {
    pub(crate) graph: &'i mut G,
}

impl<G: RoadRead> BatchInput for GraphInput<'_, G> {
    ghost use Rattle.std.specs.Prelude.{◌≡◌};
    ghost use Rattle.std.proofs.Common.{refl, sym, ◌∙◌};
    ghost use Rattle.graph_text.specs.GraphFiles.{gr_rules};
    ghost use Rattle.batch_inputs.specs.declared.faults.File.TheVariants.{Graph, NoFile};
    ghost use Rattle.batch_inputs.specs.Spelled.{IsReadAs};
    ghost use Rattle.service.specs.GraphInput.{HasReadGraph, IsGraphFile, graph_later, graph_unread};

    ghost is_read = { λ s g _. IsReadAs gr_rules (G.seen s.graph.now).left g };

    ghost is_own = { IsGraphFile };

    ghost has_read = { λ old new outcome. (new.graph.ghost_name ≡ old.graph.ghost_name) ×
        HasReadGraph (G.seen old.graph.now) (G.seen new.graph.now) outcome };

    ghost later = { λ old new f file other h. (h.0, graph_later _ _ f (λ e. let bad : Graph ≡ NoFile = sym e ∙ file in cc) other h.1) };

    ghost unread = { λ s. (refl, graph_unread _) };

    fn read<B: FromArcs>(&mut self, alloc: Global) -> Result<BatchRead<B>, RunFault> {
        match read_gr_as(alloc, self.graph) {
            Ok(graph) => Ok(BatchRead {
                graph,
                questions: Questions::Sources(Vec::new(alloc)),
                order: None,
            }),
            Err(fault) => Err(fault_in(File::Graph, fault)),
        }
    }
}
