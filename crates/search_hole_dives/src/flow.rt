//! How many trees have each arc in the mean.

use model_rosters::Memory;
use search_hole_passes::greater;
use std::alloc::Global;

/// A scale below this is taken into the numbers.
const LEAST_SCALE: f64 = 1.0e-60;

/// How many trees have each arc in the mean: numbers with one scale.
#[derive(Drop)]
pub struct Flow {
    numbers: Vec<f64>,
    scale: f64,
}

impl Flow {
    /// Returns a flow of nothing over so many arcs.
    ///
    /// # Errors
    ///
    /// `Memory` where memory runs out.
    pub fn new(alloc: Global, arcs: usize) -> Result<Flow, Memory> {
        Ok(Flow {
            numbers: vec![in alloc; 0.0; arcs]?,
            scale: 1.0,
        })
    }

    /// Leaves nothing of it.
    pub fn clear(&mut self) {
        self.numbers.as_mut_slice().fill(0.0);
        self.scale = 1.0;
    }

    /// Leaves a share of it.
    pub fn shrink(&mut self, share: f64) {
        self.scale *= share;
        if self.scale < LEAST_SCALE {
            for number in self.numbers.as_mut_slice() {
                *number *= self.scale;
            }
            self.scale = 1.0;
        }
    }

    /// Adds so much to these arcs.
    pub fn add(&mut self, arcs: &[u32], weight: f64) {
        let raised = weight / self.scale;
        for &arc in arcs {
            if let Some(number) = self.numbers.as_mut_slice().get_mut(arc as usize) {
                *number += raised;
            }
        }
    }

    /// Takes a tree off these arcs.
    pub fn take(&mut self, arcs: &[u32]) {
        let one = 1.0 / self.scale;
        for &arc in arcs {
            if let Some(number) = self.numbers.as_mut_slice().get_mut(arc as usize) {
                *number = greater(*number - one, 0.0);
            }
        }
    }

    /// Returns how many trees have an arc.
    pub fn at(&self, arc: u32) -> f64 {
        match self.numbers.as_slice().get(arc as usize) {
            Some(number) => *number * self.scale,
            None => 0.0,
        }
    }
}
