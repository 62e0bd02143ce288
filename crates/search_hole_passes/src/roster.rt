//! Trees with how many work at each cell.

use crate::floats::of_cost;
use crate::graph::HoleGraph;
use crate::tree::HoleTree;
use crate::weighing::weight;
use model_rosters::{Cell, Instance, Memory};
use std::alloc::Global;

/// A roster of trees with how many work at each cell.
#[derive(Drop)]
pub struct HoleRoster {
    pub trees: Vec<HoleTree>,
    pub counts: Vec<u32>,
}

/// Counts one employee more at each of these cells.
fn raise(counts: &mut [u32], cells: &[u32]) {
    for &cell in cells {
        if let Some(count) = counts.get_mut(cell as usize) {
            *count = count.saturating_add(1);
        }
    }
}

/// Counts one employee less at each of these cells.
fn lower(counts: &mut [u32], cells: &[u32]) {
    for &cell in cells {
        if let Some(count) = counts.get_mut(cell as usize) {
            *count = count.saturating_sub(1);
        }
    }
}

/// Returns what one more employee saves at a cell where so many work.
fn saving(cell: &Cell, count: u32) -> f64 {
    of_cost(weight(cell, count)) - of_cost(weight(cell, count.saturating_add(1)))
}

impl HoleRoster {
    /// Returns a roster without trees.
    ///
    /// # Errors
    ///
    /// `Memory` where memory runs out.
    pub fn new(alloc: Global, instance: &Instance) -> Result<HoleRoster, Memory> {
        let counts = vec![in alloc; 0u32; instance.cells.len()]?;
        Ok(HoleRoster {
            trees: Vec::new(alloc),
            counts,
        })
    }

    /// Returns a copy.
    ///
    /// # Errors
    ///
    /// `Memory` where memory runs out.
    pub fn copied(&self, alloc: Global) -> Result<HoleRoster, Memory> {
        let mut trees = Vec::new(alloc);
        for tree in self.trees.as_slice() {
            trees.push(tree.copied(alloc)?)?;
        }
        let counts = Vec::from_slice(alloc, self.counts.as_slice())?;
        Ok(HoleRoster { trees, counts })
    }

    /// Adds a tree.
    ///
    /// # Errors
    ///
    /// `Memory` where memory runs out.
    pub fn push(&mut self, tree: HoleTree) -> Result<(), Memory> {
        raise(self.counts.as_mut_slice(), tree.cells.as_slice());
        self.trees.push(tree)?;
        Ok(())
    }

    /// Takes the last tree off.
    pub fn pop(&mut self) -> Option<HoleTree> {
        let tree = self.trees.pop()?;
        lower(self.counts.as_mut_slice(), tree.cells.as_slice());
        Some(tree)
    }

    /// Swaps a tree with the last one.
    fn swap_with_last(&mut self, place: usize) {
        let last = self.trees.len().saturating_sub(1);
        if place < self.trees.len() && last < self.trees.len() {
            self.trees.as_mut_slice().swap(place, last);
        }
    }

    /// Takes the tree at a place off; the last one stands there then.
    pub fn take(&mut self, place: usize) -> Option<HoleTree> {
        if place >= self.trees.len() {
            return None;
        }
        self.swap_with_last(place);
        self.pop()
    }

    /// Puts a tree at a place; the one that stood there is the last one then.
    ///
    /// # Errors
    ///
    /// `Memory` where memory runs out.
    pub fn put(&mut self, place: usize, tree: HoleTree) -> Result<(), Memory> {
        self.push(tree)?;
        self.swap_with_last(place);
        Ok(())
    }

    /// Leaves no more than so many trees.
    pub fn shorten(&mut self, count: usize) {
        for _ in count..self.trees.len() {
            let lost = self.pop();
            drop(lost);
        }
    }

    /// Returns how many trees are of a team.
    pub fn heads_of(&self, team: usize) -> u32 {
        let mut heads = 0u32;
        for tree in self.trees.as_slice() {
            if tree.team == team {
                heads = heads.saturating_add(1);
            }
        }
        heads
    }

    /// Says whether each team has as many as it needs, and no more than it may.
    pub fn is_staffed(&self, graph: &HoleGraph) -> bool {
        for (place, team) in graph.teams.as_slice().iter().enumerate() {
            let heads = self.heads_of(place);
            if heads < team.least || heads > team.most {
                return false;
            }
        }
        true
    }

    /// Returns what the trees cost.
    pub fn fixed_cost(&self) -> u64 {
        let mut total = 0u64;
        for tree in self.trees.as_slice() {
            total = total.saturating_add(tree.cost);
        }
        total
    }

    /// Returns what the roster costs, and more where a count is outside of its cell's range.
    pub fn cost(&self, instance: &Instance) -> u64 {
        let mut total = self.fixed_cost();
        let cells = instance.cells.as_slice();
        for (cell, count) in cells.iter().zip(self.counts.as_slice()) {
            total = total.saturating_add(weight(cell, *count));
        }
        total
    }

    /// Sets what one more employee saves at each cell.
    pub fn set_gains(&self, instance: &Instance, gains: &mut [f64]) {
        let cells = instance.cells.as_slice();
        let known = cells.iter().zip(self.counts.as_slice());
        for ((cell, count), gain) in known.zip(gains.iter_mut()) {
            *gain = saving(cell, *count);
        }
    }
}
