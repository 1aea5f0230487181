//! Reads an order of elimination after the graph and the questions of a batch.
ghost use Rattle.std.specs.Prelude.{◌≡◌, ◌≤◌, IfOk, OnOk, IfErr, IfSome, None, length};
ghost use Rattle.std.specs.Option.{option_map};
ghost use Rattle.batch_inputs.specs.Orders.{HasOrderFaultIn, HasReadOrderIf, SpellsOrder};
ghost use Rattle.batch_inputs.specs.InputFaults.{IsOrderNumber};

use crate::faults::{File, RunFault, fault_in};
use crate::inputs::{BatchInput, BatchRead};
use elimination_order::Order;
use graph_text::FromArcs;
use order_files::read_order;
use std::alloc::Global;
use text_lines::RoadRead;

/// The order of this number of vertices in an input, if there is one.
fn read_order_if<O: RoadRead>(
    alloc: Global,
    from: &mut Option<O>,
    vertices: u32,
) -> Result<Option<Order>, RunFault>
    ensures each { IfOk result (λ read. IfSome read (λ order. length order.vertices.items ≡ vertices)) }
    ensures spelled { IfOk result (λ read. SpellsOrder (λ order. order ≡ None) vertices
        (option_map O.seen from.old) (option_map (λ o. o.vertices.items) read)) }
    ensures read { OnOk result (HasReadOrderIf vertices (option_map O.seen from.old)
        (option_map O.seen from.new)) }
    ensures fault { IfErr result (HasOrderFaultIn vertices (option_map O.seen from.old)
        (option_map O.seen from.new)) }
    ensures numbered { IfErr result (λ f. IsOrderNumber f.number) }
    ensures placed { IfErr result (λ f. f.number ≤ 3 → f.line ≡ 0) }
{
    let Some(input) = from else {
        return Ok(None);
    };
    match read_order(alloc, input, vertices) {
        Ok(order) => Ok(Some(order)),
        Err(fault) => Err(fault_in(File::Order, fault)),
    }
}

/// A graph and questions in an input, and in another, if there is one, an order of elimination: by
/// it the graph is factored, if factors are to answer. It is read last.
#[derive(Drop)]
pub struct OrderedInput<'i, 'o, I, O> {
    pub input: &'i mut I,
    pub order: &'o mut Option<O>,
}

impl<I: BatchInput, O: RoadRead> BatchInput for OrderedInput<'_, '_, I, O> {
    ghost use Rattle.std.specs.Prelude.{◌≡◌};
    ghost use Rattle.std.specs.Option.{option_map};
    ghost use Rattle.std.proofs.Common.{refl, inl, inr};
    ghost use Rattle.batch_inputs.specs.Orders.{HasReadOrdered, IsOrderedFile, IsRunFile, SpellsOrder};

    ghost is_read = { λ s. I.is_read s.input.now };

    ghost spells_order = { λ s n. SpellsOrder (I.spells_order s.input.now n) n (option_map O.seen s.order.now) };

    ghost is_own = { IsOrderedFile I.is_own };

    ghost has_read = { λ old new outcome. (new.input.ghost_name ≡ old.input.ghost_name) × (new.order.ghost_name ≡ old.order.ghost_name) ×
        HasReadOrdered (I.is_read old.input.now) I.is_own IsRunFile (I.has_read old.input.now new.input.now)
        (option_map O.seen old.order.now) (option_map O.seen new.order.now) outcome };

    ghost later = { λ old new f file other h. (h.0, h.1, inr (inr (I.later old.input.now new.input.now f file other h.2.0, file, other, h.2.1))) };

    ghost unread = { λ s. (refl, refl, inl (I.unread s.input.now, inr refl, refl)) };

    fn read<G: FromArcs>(&mut self, alloc: Global) -> Result<BatchRead<G>, RunFault> {
        let mut read: BatchRead<G> = match self.input.read(alloc) {
            Ok(read) => read,
            Err(fault) => return Err(fault),
        };
        let order = read_order_if(alloc, self.order, read.graph.count_vertices())?;
        if order.is_some() {
            read.order = order;
        }
        Ok(read)
    }
}
