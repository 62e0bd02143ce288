//! A tree as cells, arcs and bytes.

use model_rosters::Memory;
use std::alloc::Global;

/// A tree as its cells, its arcs and the bytes of its word.
#[derive(Drop)]
pub struct HoleTree {
    /// The places of the cells where it works.
    pub cells: Vec<u32>,
    /// The numbers of its arcs.
    pub arcs: Vec<u32>,
    pub word: Vec<u8>,
    pub cost: u64,
    /// The place of its team.
    pub team: usize,
}

impl HoleTree {
    /// Returns a tree of nothing.
    pub fn new(alloc: Global) -> HoleTree {
        HoleTree {
            cells: Vec::new(alloc),
            arcs: Vec::new(alloc),
            word: Vec::new(alloc),
            cost: 0,
            team: 0,
        }
    }

    /// Leaves nothing of it.
    pub fn clear(&mut self) {
        self.cells.clear();
        self.arcs.clear();
        self.word.clear();
        self.cost = 0;
        self.team = 0;
    }

    /// Leaves of it a word of so many bytes 0.
    ///
    /// # Errors
    ///
    /// `Memory` where memory runs out.
    pub fn blank(&mut self, periods: u8) -> Result<(), Memory> {
        self.clear();
        for _ in 0..periods {
            self.word.push(0)?;
        }
        Ok(())
    }

    /// Returns a copy.
    ///
    /// # Errors
    ///
    /// `Memory` where memory runs out.
    pub fn copied(&self, alloc: Global) -> Result<HoleTree, Memory> {
        let cells = Vec::from_slice(alloc, self.cells.as_slice())?;
        let arcs = Vec::from_slice(alloc, self.arcs.as_slice())?;
        let word = Vec::from_slice(alloc, self.word.as_slice())?;
        Ok(HoleTree {
            cells,
            arcs,
            word,
            cost: self.cost,
            team: self.team,
        })
    }
}
