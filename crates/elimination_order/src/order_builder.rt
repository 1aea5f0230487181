//! An order in the making.
ghost use Rattle.std.specs.Prelude.{◌≡◌, ◌≢◌, ℕ, ◌+◌, ◌<◌, ◌≤◌, ◌↔◌, ◌^◌, None, IfOk, IfSome, IsTrue, length, slice_index, slice_set};
ghost use Rattle.elimination_order.specs.Orders.{HasEachPlace, StandAtPlaces, filled};

use crate::lists::at;
use crate::order::Order;
use road_graph::{Memory, Vertex};
use std::alloc::Global;

/// An order in the making: the vertices get their places one after the other, from 1 on.
#[derive(Drop)]
pub struct OrderBuilder {
    /// How many vertices have their places.
    count: u32,
    /// The vertex at each place, 0 while it has none.
    vertices: Vec<Vertex>,
    /// The places of these vertices, then 0.
    places: Vec<u32>,
    ghost few: { length vertices.items < 2 ^ 32 },
    ghost whole: { length places.items ≡ length vertices.items },
    ghost room: { count ≤ length vertices.items },
    ghost stand: { StandAtPlaces count vertices.items places.items },
    ghost counted: { filled vertices.items ≡ count },
}

impl OrderBuilder {
    /// No places yet, of n vertices.
    pub fn new(alloc: Global, n: u32) -> Result<Self, Memory>
        ensures vertices { IfOk result (λ s. length s.vertices.items ≡ n) }
        ensures count { IfOk result (λ s. s.count ≡ 0) }
        ensures free { IfOk result (λ s. (i : ℕ) → slice_index s.vertices.items i ≡ 0) }
    {
        Ok(OrderBuilder {
            count: 0,
            vertices: vec![in alloc; Vertex(0); n as usize]?,
            places: vec![in alloc; 0u32; n as usize]?,
        })
    }

    /// Whether there is such a place, and no vertex has it.
    pub fn is_free(&self, place: u32) -> bool
        ensures { IsTrue result ↔ ((place < length self.now.vertices.items)
            × (slice_index self.now.vertices.items place ≡ 0)) }
    {
        let i = place as usize;
        i < self.vertices.len() && self.vertices[i].0 == 0
    }

    /// Whether each vertex has its place.
    pub fn is_full(&self) -> bool
        ensures { IsTrue result ↔ (self.now.count ≡ length self.now.vertices.items) }
    {
        self.count as usize == self.vertices.len()
    }

    /// Gives the next vertex a place.
    pub fn place_next(&mut self, place: u32)
        requires next { self.old.count < length self.old.vertices.items }
        requires place { place < length self.old.vertices.items }
        requires free { slice_index self.old.vertices.items place ≡ 0 }
        ensures count { self.new.count ≡ self.old.count + 1 }
        ensures vertices { self.new.vertices.items ≡ slice_set self.old.vertices.items place
            (self.old.count + 1) }
        ensures places { self.new.places.items ≡ slice_set self.old.places.items self.old.count
            place }
    {
        self.places[self.count as usize] = place;
        self.count += 1;
        self.vertices[place as usize] = Vertex(self.count);
    }

    /// The first place that no vertex has, if all before one are taken.
    fn first_free(&self, from: u32) -> u32
        requires next { self.now.count < length self.now.vertices.items }
        requires taken { (i : ℕ) → i < from → slice_index self.now.vertices.items i ≢ 0 }
        ensures inside { result < length self.now.vertices.items }
        ensures free { slice_index self.now.vertices.items result ≡ 0 }
        ensures taken { (i : ℕ) → i < result → slice_index self.now.vertices.items i ≢ 0 }
    {
        let mut place = from;
        while self.vertices[place as usize].0 != 0 {
            place += 1;
        }
        place
    }

    /// The order, once each vertex has its place.
    pub fn build(self) -> Order
        requires { self.count ≡ length self.vertices.items }
        ensures vertices { result.vertices ≡ self.vertices }
        ensures places { result.places ≡ self.places }
    {
        Order {
            vertices: self.vertices,
            places: self.places,
        }
    }
}

impl Order {
    /// The order in which each vertex has its place of this list; none if the list does not have
    /// each place once.
    pub fn of_places(alloc: Global, places: &[u32]) -> Result<Option<Order>, Memory>
        requires { length places.now < 2 ^ 32 }
        ensures places { IfOk result (λ made. IfSome made (λ order. order.places.items ≡ places.now)) }
        ensures some { IfOk result (λ made. IfSome made (λ _. HasEachPlace places.now)) }
        ensures none { IfOk result (λ made. made ≡ None → HasEachPlace places.now → ⊥) }
    {
        let mut builder = OrderBuilder::new(alloc, places.len() as u32)?;
        for place in places {
            if !builder.is_free(*place) {
                return Ok(None);
            }
            builder.place_next(*place);
        }
        Ok(Some(builder.build()))
    }
}

/// The order of the vertices 1 to n by these places, one for each; a vertex that has none of its
/// own gets the first that is free.
pub(crate) fn order_by(alloc: Global, n: u32, places: &[u32]) -> Result<Order, Memory>
    ensures { IfOk result (λ order. length order.vertices.items ≡ n) }
{
    let mut builder = OrderBuilder::new(alloc, n)?;
    let mut first = 0;
    for i in 0..n {
        let place = at(places, i as usize);
        if builder.is_free(place) {
            builder.place_next(place);
        } else {
            first = builder.first_free(first);
            builder.place_next(first);
        }
    }
    Ok(builder.build())
}
