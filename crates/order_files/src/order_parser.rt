//! Parses the lines of a file of an order.
ghost use Rattle.std.specs.Prelude.{◌≡◌, ◌≢◌, ℕ, ◌<◌, [], List, length, map, refl, Err, IfOk};
ghost use Rattle.text_lines.specs.Slots.{word_in};
ghost use Rattle.order_files.specs.OrderFiles.{place_taken, order_line};

use elimination_order::{Order, OrderBuilder};
use graph_text::number_up_to;
use graph_text::rules::{FIELDS, TOO_FEW, TOO_MANY};
use road_graph::Memory;
use std::alloc::Global;
use text_lines::{LineFault, LineParser, Rule, Slot};

/// A place that an earlier line has.
const SAME_PLACE: Rule = Rule { number: 20 };

/// Parses the lines of a file of an order.
#[derive(Drop)]
pub struct OrderParser {
    vertices: u32,
    order: OrderBuilder,
    ghost whole: { length order.vertices.items ≡ vertices },
}

impl OrderParser {
    ghost use Rattle.order_files.specs.OrderTakes.{HasNoted, Takes};

    /// A parser before the first line, of an order of this number of vertices.
    pub fn new(alloc: Global, vertices: u32) -> Result<Self, Memory>
        ensures vertices { IfOk result (λ s. s.vertices ≡ vertices) }
        ensures none { IfOk result (λ s. HasNoted s []) }
    {
        Ok(OrderParser {
            vertices,
            order: OrderBuilder::new(alloc, vertices)?,
        })
    }

    /// Gives the next vertex this place.
    fn place_next(&mut self, place: u32) -> Result<(), LineFault>
        requires next { self.old.order.count < self.old.vertices }
        requires place { place < self.old.vertices }
        ensures taken { (places : List ℕ) → HasNoted self.old places → Takes
            (place_taken places place) self.new result }
        ensures memory { result ≢ Err LineFault.Memory }
        ensures vertices { self.new.vertices ≡ self.old.vertices }
    {
        if !self.order.is_free(place) {
            return Err(LineFault::Broken(SAME_PLACE));
        }
        self.order.place_next(place);
        Ok(())
    }

    /// Parses a line by its first six fields.
    #[tactic(auto, unfolding(crate::specs::OrderFiles::order_line))]
    pub fn parse_line(&mut self, slots: &[Slot]) -> Result<(), LineFault>
        ensures taken { (places : List ℕ) → HasNoted self.old places → Takes
            (order_line self.old.vertices places (map word_in slots.now)) self.new result }
        ensures vertices { self.new.vertices ≡ self.old.vertices }
    {
        if slots.is_empty() || slots[0].begins_with(b'c') {
            return Ok(());
        }
        if self.order.is_full() {
            return Err(LineFault::Broken(TOO_MANY));
        }
        if slots.len() != 1 {
            return Err(LineFault::Broken(FIELDS));
        }
        let place = number_up_to(&slots[0], self.vertices - 1)?;
        self.place_next(place)
    }
}

impl LineParser for OrderParser {
    ghost use Rattle.order_files.specs.OrderTakes.{order_meaning};

    type Value = Order;

    ghost meaning = { order_meaning };

    fn field(&mut self, _slot: &Slot) -> Result<(), LineFault> {
        Ok(())
    }

    fn line(&mut self, slots: &[Slot]) -> Result<(), LineFault> {
        self.parse_line(slots)
    }

    fn short_line(&mut self, _letter: u8, _numbers: (u64, u64, u64)) -> bool {
        false
    }

    fn finish(self) -> Result<Order, LineFault> {
        if !self.order.is_full() {
            return Err(LineFault::Broken(TOO_FEW));
        }
        Ok(self.order.build())
    }

    ghost stops_short = { λ s at places noted. (refl, tt) };
}
