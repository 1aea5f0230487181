//! One label for each vertex.
ghost use Rattle.std.specs.Prelude.{◌≡◌, Option};
ghost use Rattle.path_algebra.specs.Walks.{better_label};

use crate::algebra::PathAlgebra;
use road_graph::Vertex;
use std::marker::Model;

/// The better of two labels, the only one, or none.
pub fn better_label<A: PathAlgebra>(l: Option<A::Value>, m: Option<A::Value>) -> Option<A::Value>
    ensures { result ≡ better_label A.order l m }
{
    match (l, m) {
        (Some(y), Some(z)) => Some(if A::no_worse(y, z) { y } else { z }),
        (None, Some(z)) => Some(z),
        (l, None) => l,
    }
}

/// For each vertex of a graph a value, or none.
#[derive(Drop)]
pub struct Labels<V: Copy> {
    list: Vec<Option<V>>,
}

impl<V: Copy> Model for Labels<V> {
    ghost use Rattle.std.specs.Prelude.{List, Option};

    ghost Value = { List (Option V) };

    ghost view = { λ l. l.list.items };
}

impl<V: Copy> Labels<V> {
    ghost use Rattle.std.specs.Prelude.{◌≡◌, ℕ, ◌-◌, ◌≤◌, length, slice_set};
    ghost use Rattle.path_algebra.specs.Walks.{label_of, better_label};

    /// The labels of vertices 1, 2, .. in the order of a list.
    pub fn from_vec(list: Vec<Option<V>>) -> Self
        ensures { result ≡ list.items }
    {
        Labels { list }
    }

    /// How many vertices have a place here.
    pub fn vertices(&self) -> usize
        ensures { result ≡ length self.now }
    {
        self.list.len()
    }

    /// The label of a vertex.
    pub fn of(&self, v: Vertex) -> Option<V>
        requires low { 1 ≤ v }
        requires high { v ≤ length self.now }
        ensures { result ≡ label_of self.now v }
    {
        self.list[v.0 as usize - 1]
    }

    /// Gives a vertex a label, or takes it away.
    pub fn set(&mut self, v: Vertex, label: Option<V>)
        requires low { 1 ≤ v }
        requires high { v ≤ length self.old }
        ensures { self.new ≡ slice_set self.old (v - 1) label }
    {
        let i = v.0 as usize - 1;
        self.list[i] = label;
    }

    /// At each vertex the better of the two labels, the only one, or none.
    pub fn merge<A: PathAlgebra<Value = V>>(&mut self, _algebra: A, other: &Labels<V>)
        requires { length other.now ≡ length self.old }
        ensures count { length self.new ≡ length self.old }
        ensures labels { (v : ℕ) →
            label_of self.new v ≡ better_label A.order (label_of self.old v) (label_of other.now v) }
    {
        for i in 0..self.vertices() {
            let better = better_label::<A>(self.list[i], other.list[i]);
            self.list[i] = better;
        }
    }
}
