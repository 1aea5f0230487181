//! Degree lists: vertices by their degree.

use crate::lists::{NONE, at, put};
use road_graph::Memory;
use std::alloc::Global;

/// Which vertex of a list comes first.
#[derive(Clone, Copy)]
pub(crate) enum Turn {
    /// The one that was inserted last.
    Newest,
    /// The one that was inserted first.
    Oldest,
}

/// The vertices before and after a vertex in its list; before the first one is the last.
#[derive(Clone, Copy)]
struct Beside {
    before: u32,
    after: u32,
}

/// Vertices by index from 0, in a list for each degree.
#[derive(Drop)]
pub(crate) struct DegreeLists {
    /// The first vertex of each list.
    firsts: Vec<u32>,
    beside: Vec<Beside>,
    /// No list below this has a vertex.
    least: usize,
    turn: Turn,
}

impl DegreeLists {
    /// Empty lists for n vertices.
    pub(crate) fn new(alloc: Global, n: usize, turn: Turn) -> Result<Self, Memory> {
        let alone = Beside {
            before: NONE,
            after: NONE,
        };
        Ok(DegreeLists {
            firsts: vec![in alloc; NONE; n]?,
            beside: vec![in alloc; alone; n]?,
            least: 0,
            turn,
        })
    }

    /// Says which vertex comes before a vertex.
    #[inline]
    fn set_before(&mut self, v: u32, before: u32) {
        if let Some(beside) = self.beside.get_mut(v as usize) {
            beside.before = before;
        }
    }

    /// Says which vertex comes after a vertex.
    #[inline]
    fn set_after(&mut self, v: u32, after: u32) {
        if let Some(beside) = self.beside.get_mut(v as usize) {
            beside.after = after;
        }
    }

    /// Puts a vertex between others of a list that lie side by side.
    fn link(&mut self, v: u32, before: u32, after: u32) {
        if let Some(beside) = self.beside.get_mut(v as usize) {
            beside.before = before;
            beside.after = after;
        }
    }

    /// Puts a vertex into the list of its degree.
    pub(crate) fn insert(&mut self, v: u32, degree: u32) {
        let first = at(&self.firsts, degree as usize);
        let last = match self.beside.get(first as usize) {
            Some(beside) => beside.before,
            None => v,
        };
        match self.turn {
            Turn::Oldest if first != NONE => {
                self.link(v, last, NONE);
                self.set_after(last, v);
            }
            _ => {
                self.link(v, last, first);
                put(&mut self.firsts, degree as usize, v);
            }
        }
        self.set_before(first, v);
        self.least = self.least.min(degree as usize);
    }

    /// Takes a vertex out of the list of its degree.
    pub(crate) fn remove(&mut self, v: u32, degree: u32) {
        if let Some(beside) = self.beside.get(v as usize) {
            let Beside { before, after } = *beside;
            let first = at(&self.firsts, degree as usize);
            if first == v {
                put(&mut self.firsts, degree as usize, after);
            } else {
                self.set_after(before, after);
            }
            let next = if after == NONE { first } else { after };
            self.set_before(next, before);
        }
    }

    /// The first vertex of the least list that has one.
    pub(crate) fn first(&mut self) -> Option<u32> {
        for degree in self.least..self.firsts.len() {
            let first = at(&self.firsts, degree);
            if first != NONE {
                self.least = degree;
                return Some(first);
            }
        }
        None
    }
}
