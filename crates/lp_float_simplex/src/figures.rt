//! What the steps keep of the columns.

use crate::bounds::Weight64;
use lp_float_basis::{Entry64, Price64, push_if_room, set_at, without_tiny};
use model_rosters::Memory;

/// What the steps keep of the columns.
#[derive(Drop)]
pub(crate) struct Figures {
    /// Their reduced costs, 0 where one is not free.
    pub(crate) reduced: Vec<Price64>,
    /// Their reference weights.
    pub(crate) weights: Vec<Weight64>,
    /// The entries of those that are touched, in the row that leaves in a dual step.
    pub(crate) entries: Vec<Entry64>,
    /// The places of the free columns whose entry there is not 0; room for all columns.
    pub(crate) touched: Vec<usize>,
}

impl Figures {
    /// Makes room for the places of all columns.
    ///
    /// # Errors
    ///
    /// `Memory` where memory runs out; nothing is said of the program then.
    pub(crate) fn make_room(&mut self) -> Result<(), Memory> {
        self.touched.clear();
        self.touched.reserve(self.reduced.len())?;
        Ok(())
    }

    /// Takes a further column in.
    ///
    /// # Errors
    ///
    /// `Memory` where memory runs out; nothing is said of the program then.
    pub(crate) fn add(&mut self) -> Result<(), Memory> {
        self.reduced.push(0.0)?;
        self.weights.push(1.0)?;
        self.entries.push(0.0)?;
        self.make_room()
    }

    /// Sets what is kept of a column that enters or leaves the basis.
    pub(crate) fn reset(&mut self, place: usize) {
        set_at(self.reduced.as_mut_slice(), place, 0.0);
        set_at(self.weights.as_mut_slice(), place, 1.0);
        set_at(self.entries.as_mut_slice(), place, 0.0);
    }

    /// Sets the entry of a free column in the row that leaves.
    pub(crate) fn touch(&mut self, place: usize, entry: Entry64) {
        let entry = without_tiny(entry);
        if entry != 0.0 {
            set_at(self.entries.as_mut_slice(), place, entry);
            push_if_room(&mut self.touched, place);
        }
    }
}
