//! Writes orders, each in its one spelling.
ghost use Rattle.std.specs.Prelude.{◌≡◌, map};
ghost use Rattle.text_lines.specs.Texts.{spelled, text_of};
ghost use Rattle.text_lines.specs.Written.{WritesText};
ghost use Rattle.order_files.specs.WrittenOrders.{place_words, places_text};

use elimination_order::Order;
use text_lines::{Line, RoadWrite, WriteFault, push_number, write_bytes};

/// The line of a place.
#[tactic(auto, unfolding(text_lines::specs::Texts::spelled))]
fn fill_place(line: &mut Line, place: u32)
    ensures { line.new.bytes ≡ spelled (place_words place) }
{
    line.clear();
    push_number(line, u64::from(place));
    line.push_str("\n");
}

fn write_places<W: RoadWrite>(to: &mut W, places: &[u32]) -> Result<(), WriteFault>
    ensures { WritesText (W.seen to.old) (W.seen to.new) (text_of (map place_words places.now))
        result }
{
    let mut line = Line::new();
    for i in 0..places.len() {
        fill_place(&mut line, places[i]);
        write_bytes(to, line.as_str().as_bytes())?;
    }
    Ok(())
}

/// Writes an order as lines of the places of its vertices: the whole text, or a prefix of it if a
/// write fails.
pub fn write_order<W: RoadWrite>(to: &mut W, order: &Order) -> Result<(), WriteFault>
    ensures { WritesText (W.seen to.old) (W.seen to.new) (places_text order.now.places.items)
        result }
{
    write_places(to, &order.places)
}
