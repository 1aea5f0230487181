//! What a part knows of its vertices and of the arcs out of them, by place.
ghost use Rattle.std.specs.Prelude.{◌≡◌, ◌<◌, Some, None, false, length, get_or, set, replicate, IfOk};

use crate::local_vertices::LocalVertices;
use road_graph::ArcNo;
use scholten_core::ENTRY;
use std::alloc::{AllocError, Global};
use std::marker::Model;

/// The tables of a part.
#[derive(Drop)]
pub struct Tables<V> {
    pub own: LocalVertices,
    pub vertices: VertexTable<V>,
    pub arcs: ArcTable<V>,
}

/// What is known of one vertex.
#[derive(Clone, Copy)]
pub struct VertexRow<V> {
    /// Its label, if it has one, and else any value.
    pub value: V,
    /// Its engager, if it has one, and else any arc.
    pub engager: ArcNo,
    /// How many arcs out of it are busy.
    pub deficit: u32,
    /// Where the arcs out of it begin in the table of arcs.
    pub offset: u32,
    pub labelled: bool,
    pub engaged: bool,
}

/// What is known of one arc, except the label that it was last offered.
#[derive(Clone, Copy)]
pub struct ArcMarks {
    pub told: bool,
    pub busy: bool,
}

/// What is known of the vertices. The fields of one vertex are together, since handling an item
/// reads most of them.
#[derive(Drop)]
pub struct VertexTable<V> {
    rows: Vec<VertexRow<V>>,
}

/// What is known of the arcs. The marks of many arcs are close in memory, and a label is loaded
/// only if the arc was offered one.
#[derive(Drop)]
pub struct ArcTable<V> {
    marks: Vec<ArcMarks>,
    /// The label that each arc was last offered, if any, and else any value.
    labels: Vec<V>,
}

impl<V> Model for VertexTable<V> {
    ghost use Rattle.shard_store.specs.Tables.{VertexLists, vertex_lists};

    ghost Value = { VertexLists V };

    ghost view = { λ t. vertex_lists t.rows.items };
}

impl<V> Model for ArcTable<V> {
    ghost use Rattle.std.specs.Prelude.{◌≡◌, length};
    ghost use Rattle.shard_store.specs.Tables.{ArcLists, arc_lists};

    ghost Value = { ArcLists V };

    ghost view = { λ t. arc_lists t.marks.items t.labels.items };

    ghost invariant = { λ t. length t.marks.items ≡ length t.labels.items };
}

impl<V: Copy> VertexTable<V> {
    /// The rows of `n` vertices without a label or an engager, none of whose arcs is busy. The
    /// value fills the places of labels, and 0 says where their arcs begin.
    pub fn idle(alloc: Global, n: usize, value: V) -> Result<VertexTable<V>, AllocError>
        ensures { IfOk result (λ t. t ≡ record {
          labels = replicate n None;
          engagers = replicate n
              None;
          deficits = replicate n 0;
          offsets = replicate n 0;
        }) }
    {
        let row = VertexRow {
            value,
            engager: ENTRY,
            deficit: 0,
            offset: 0,
            labelled: false,
            engaged: false,
        };
        let rows = filled(alloc, row, n)?;
        Ok(VertexTable { rows })
    }

    /// The label of the vertex at a place.
    pub fn label(&self, j: usize) -> Option<V>
        requires { j < length self.now.labels }
        ensures { result ≡ get_or self.now.labels j None }
    {
        let row = self.rows[j];
        if row.labelled { Some(row.value) } else { None }
    }

    /// Sets the label of the vertex at a place.
    pub fn set_label(&mut self, j: usize, label: V)
        requires { j < length self.old.labels }
        ensures { self.new ≡ record self.old { labels = set self.old.labels j (Some label) } }
    {
        let row = self.rows[j];
        self.rows[j] = VertexRow {
            value: label,
            labelled: true,
            ..row
        };
    }

    /// The engager of the vertex at a place.
    pub fn engager(&self, j: usize) -> Option<ArcNo>
        requires { j < length self.now.engagers }
        ensures { result ≡ get_or self.now.engagers j None }
    {
        let row = self.rows[j];
        if row.engaged { Some(row.engager) } else { None }
    }

    /// Sets the engager of the vertex at a place.
    pub fn set_engager(&mut self, j: usize, engager: Option<ArcNo>)
        requires { j < length self.old.engagers }
        ensures { self.new ≡ record self.old { engagers = set self.old.engagers j engager } }
    {
        let row = self.rows[j];
        self.rows[j] = VertexRow {
            engager: engager.unwrap_or(row.engager),
            engaged: engager.is_some(),
            ..row
        };
    }

    /// How many arcs out of the vertex at a place are busy.
    pub fn deficit(&self, j: usize) -> u32
        requires { j < length self.now.deficits }
        ensures { result ≡ get_or self.now.deficits j 0 }
    {
        self.rows[j].deficit
    }

    /// Sets how many arcs out of the vertex at a place are busy.
    pub fn set_deficit(&mut self, j: usize, deficit: u32)
        requires { j < length self.old.deficits }
        ensures { self.new ≡ record self.old { deficits = set self.old.deficits j deficit } }
    {
        self.rows[j].deficit = deficit;
    }

    /// Where the arcs out of the vertex at a place begin in the table of arcs.
    pub fn offset(&self, j: usize) -> u32
        requires { j < length self.now.offsets }
        ensures { result ≡ get_or self.now.offsets j 0 }
    {
        self.rows[j].offset
    }

    /// Sets where the arcs out of the vertex at a place begin.
    pub fn set_offset(&mut self, j: usize, offset: u32)
        requires { j < length self.old.offsets }
        ensures { self.new ≡ record self.old { offsets = set self.old.offsets j offset } }
    {
        self.rows[j].offset = offset;
    }
}

impl<V: Copy> ArcTable<V> {
    /// The rows of `n` idle arcs that were offered nothing. The value fills the places of labels.
    pub fn idle(alloc: Global, n: usize, value: V) -> Result<ArcTable<V>, AllocError>
        ensures { IfOk result (λ t. t ≡ record {
          busy = replicate n false;
          told = replicate n None;
        }) }
    {
        let marks = ArcMarks {
            told: false,
            busy: false,
        };
        let marks = filled(alloc, marks, n)?;
        let labels = filled(alloc, value, n)?;
        Ok(ArcTable { marks, labels })
    }

    /// Whether the arc at a place is busy.
    pub fn is_busy(&self, i: usize) -> bool
        requires { i < length self.now.busy }
        ensures { result ≡ get_or self.now.busy i false }
    {
        self.marks[i].busy
    }

    /// Makes the arc at a place busy or idle.
    pub fn set_busy(&mut self, i: usize, busy: bool)
        requires { i < length self.old.busy }
        ensures { self.new ≡ record self.old { busy = set self.old.busy i busy } }
    {
        self.marks[i].busy = busy;
    }

    /// The label that the arc at a place was last offered.
    pub fn last_offer(&self, i: usize) -> Option<V>
        requires { i < length self.now.told }
        ensures { result ≡ get_or self.now.told i None }
    {
        if self.marks[i].told {
            Some(self.labels[i])
        } else {
            None
        }
    }

    /// Notes that the arc at a place was offered a label, or none.
    pub fn set_last_offer(&mut self, i: usize, label: Option<V>)
        requires { i < length self.old.told }
        ensures { self.new ≡ record self.old { told = set self.old.told i label } }
    {
        match label {
            Some(value) => {
                self.labels[i] = value;
                self.marks[i].told = true;
            }
            None => self.marks[i].told = false,
        }
    }
}

/// One value n times, by copies: a clone is not known to be equal for every type.
fn filled<T: Copy>(alloc: Global, value: T, n: usize) -> Result<Vec<T>, AllocError>
    ensures { IfOk result (λ v. v.items ≡ replicate n value) }
{
    let mut all = Vec::with_capacity(alloc, n)?;
    for _i in 0..n {
        all.push(value)?;
    }
    Ok(all)
}
