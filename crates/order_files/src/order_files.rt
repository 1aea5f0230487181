//! Reads files of an order.
ghost use Rattle.std.specs.Prelude.{◌≡◌, IfOk, length};
ghost use Rattle.text_lines.specs.Reads.{ReadsText};
ghost use Rattle.order_files.specs.OrderFiles.{order_rules};

use crate::order_parser::OrderParser;
use elimination_order::Order;
use std::alloc::Global;
use text_lines::{MEMORY, ReadFault, RoadRead, read_whole};

/// An order of this number of vertices, by their places in a file.
pub fn read_order<R: RoadRead>(
    alloc: Global,
    from: &mut R,
    vertices: u32,
) -> Result<Order, ReadFault>
    ensures reads { ReadsText (R.seen from.old) (R.seen from.new) (order_rules vertices)
        (λ order. order.vertices.items) 10 20 result }
    ensures each { IfOk result (λ order. length order.vertices.items ≡ vertices) }
{
    match OrderParser::new(alloc, vertices) {
        Ok(parser) => read_whole(from, parser),
        Err(_) => Err(ReadFault {
            number: MEMORY,
            line: 0,
        }),
    }
}
