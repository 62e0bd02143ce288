//! Products with the inverse.

use crate::state::State;
use lp_float_basis::ProductWorkspace;
use model_rosters::Memory;
use std::alloc::Global;

impl State {
    /// Returns the room for products with the inverse of a basis of this program.
    ///
    /// # Errors
    ///
    /// `Memory` where memory runs out.
    pub fn product_room(&self, alloc: Global) -> Result<ProductWorkspace, Memory> {
        Ok(ProductWorkspace::new(alloc, self.rows())?)
    }

    /// Leaves the inverse of the basis times a side, which has a number for each row: a number for each
    /// column of the basis, in the order of `basis` after a start or a run. Takes no memory.
    pub fn inverse_times(&self, side: &[f64], room: &mut ProductWorkspace, out: &mut [f64]) {
        self.basis.inverse_times(&self.columns, side, room, out);
    }

    /// Leaves costs, one for each column of the basis, times the inverse of the basis: a number for each row.
    /// The costs are in the order of `basis` after a start or a run. Takes no memory.
    pub fn times_inverse(&self, costs: &[f64], room: &mut ProductWorkspace, out: &mut [f64]) {
        self.basis.times_inverse(&self.columns, costs, room, out);
    }
}
