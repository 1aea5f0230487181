//! The tables of a shard before any event.
ghost use Rattle.std.specs.Prelude.{◌≡◌, IfOk};
ghost use Rattle.shard_store.specs.Outgoing.{local_vertices};
ghost use Rattle.shard_store.specs.Rows.{rows_of, AreIdle};

use crate::layout::ShardLayout;
use crate::local_vertices::LocalVertices;
use crate::tables::{ArcTable, Tables, VertexTable};
use std::alloc::{AllocError, Global};

/// Tables in which nothing has happened, except that arc 0 may be busy. The value fills the places
/// of those that are not there yet.
pub fn idle_tables<V: Copy>(
    alloc: Global,
    layout: &ShardLayout,
    own: LocalVertices,
    value: V,
) -> Result<Tables<V>, AllocError>
    requires { own ≡ local_vertices layout.now.setup layout.now.shard }
    ensures { IfOk result (λ t. AreIdle layout.now (rows_of t)) }
{
    let entry = layout.is_first();
    let mut vertices = VertexTable::idle(alloc, own.len(), value)?;
    let count = layout.write_starts(&own, &mut vertices);
    let mut arcs = ArcTable::idle(alloc, count, value)?;
    vertices.set_deficit(0, u32::from(entry));
    arcs.set_busy(0, entry);
    Ok(Tables {
        own,
        vertices,
        arcs,
    })
}
