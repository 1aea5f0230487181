//! Lists of numbers that grow at their front, all in one.
ghost use Rattle.std.specs.Prelude.{◌≡◌, ℕ, ◌<◌, All, Contains, IfOk, OnOk, length};
ghost use Rattle.path_factors.specs.Chains.{AreBelow, HasValue, IsMore};

use road_graph::Memory;
use std::alloc::{AllocError, Global};
use std::marker::Model;

/// A number in a list. Items are numbered from 1 in the order in which they come.
#[derive(Clone, Copy)]
struct Item {
    value: u32,
    /// The item after it; 0 if it is the last.
    next: u32,
}

/// Lists of numbers.
#[derive(Drop)]
pub(crate) struct Chains {
    /// The first item of each list; 0 if it has none.
    firsts: Vec<u32>,
    items: Vec<Item>,
}

impl Model for Chains {
    ghost use Rattle.path_factors.specs.Chains.{ChainData, AreChains};

    ghost Value = { ChainData };

    ghost view = { λ c. record { firsts = c.firsts.items; items = c.items.items } };

    ghost invariant = { λ c. AreChains (record { firsts = c.firsts.items; items = c.items.items }) };
}

impl Chains {
    /// Empty lists, with room for so many numbers.
    pub(crate) fn new(alloc: Global, lists: usize, items: usize) -> Result<Self, Memory>
        ensures lists { IfOk result (λ c. length c.firsts ≡ lists) }
        ensures empty { IfOk result (λ c. length c.items ≡ 0) }
    {
        Ok(Chains {
            firsts: vec![in alloc; 0; lists]?,
            items: Vec::with_capacity(alloc, items)?,
        })
    }

    /// Puts a number in front of a list.
    pub(crate) fn push(&mut self, list: usize, value: u32) -> Result<(), Memory>
        requires { list < length self.old.firsts }
        ensures has { OnOk result (HasValue self.new list value) }
        ensures more { OnOk result ((n : ℕ) → value < n → IsMore n self.old self.new) }
    {
        let next = self.firsts[list];
        self.items
            .push(Item { value, next })
            .map_err(AllocError::from)?;
        let Ok(item) = u32::try_from(self.items.len()) else {
            return Err(Memory);
        };
        self.firsts[list] = item;
        Ok(())
    }

    /// Adds the numbers of a list to others.
    pub(crate) fn read(&self, list: usize, into: &mut Vec<u32>) -> Result<(), Memory>
        requires { list < length self.now.firsts }
        ensures has { OnOk result ((x : ℕ) → HasValue self.now list x → Contains into.new.items x) }
        ensures below { OnOk result ((n : ℕ) → AreBelow n self.now → All (λ x. x < n) into.old.items →
            All (λ x. x < n) into.new.items) }
    {
        let mut item = self.firsts[list] as usize;
        while 0 < item {
            let Item { value, next } = self.items[item - 1];
            into.push(value).map_err(AllocError::from)?;
            item = next as usize;
        }
        Ok(())
    }
}
