//! Numbers and vertices in fields.
ghost use Rattle.std.specs.Prelude.{ℕ, ◌≤◌, IfOk};
ghost use Rattle.text_lines.specs.Slots.{word_in};
ghost use Rattle.text_lines.specs.Takes.{Agrees};
ghost use Rattle.graph_text.specs.Vertices.{IsVertexOf};
ghost use Rattle.graph_text.specs.Numbers.{up_to, vertex_in};

use crate::rules::{NO_VERTEX, NOT_A_NUMBER, TOO_LARGE};
use road_graph::Vertex;
use text_lines::{LineFault, Slot, limited_number};

/// The number in a field, up to a limit.
pub fn number_up_to(slot: &Slot, limit: u32) -> Result<u32, LineFault>
    ensures rule { Agrees (up_to limit (word_in slot.now).number) result }
    ensures limit { IfOk result (λ n. n ≤ limit) }
{
    let number = limited_number(slot, u64::from(limit), NOT_A_NUMBER, TOO_LARGE)?;
    Ok(number as u32)
}

/// The vertex in a field, of a graph with this number of vertices.
pub fn vertex_of(slot: &Slot, vertices: u32) -> Result<Vertex, LineFault>
    ensures rule { Agrees (vertex_in vertices (word_in slot.now).number) result }
    ensures vertex { IfOk result (IsVertexOf vertices) }
{
    match slot.number {
        None => Err(LineFault::Broken(NOT_A_NUMBER)),
        Some(n) if n == 0 || n > u128::from(vertices) => Err(LineFault::Broken(NO_VERTEX)),
        Some(n) => Ok(Vertex(n as u32)),
    }
}
