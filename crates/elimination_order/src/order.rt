//! An order of the vertices of a graph.
ghost use Rattle.std.specs.Prelude.{◌≡◌, length};
ghost use Rattle.elimination_order.specs.Orders.{StandAtPlaces};

use road_graph::Vertex;

/// The vertices 1 to n in an order, and the place of each in it, counted from 0.
#[derive(Drop)]
pub struct Order {
    pub vertices: Vec<Vertex>,
    pub places: Vec<u32>,
    ghost whole: { length places.items ≡ length vertices.items },
    ghost stand: { StandAtPlaces (length vertices.items) vertices.items places.items },
}
