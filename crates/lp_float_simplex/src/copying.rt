//! A program that becomes a copy of another one.

use crate::figures::Figures;
use crate::state::{Answers, Sides, State};
use lp_float_basis::{copy_items, copy_list};
use model_rosters::Memory;

impl Figures {
    /// Becomes a copy of others.
    fn copy_from(&mut self, other: &Figures) -> Result<(), Memory> {
        copy_list(&mut self.reduced, other.reduced.as_slice())?;
        copy_list(&mut self.weights, other.weights.as_slice())?;
        copy_list(&mut self.entries, other.entries.as_slice())?;
        self.make_room()
    }
}

impl Sides {
    /// Becomes a copy of as many others.
    fn copy_from(&mut self, other: &Sides) {
        copy_items(self.right.as_mut_slice(), other.right.as_slice());
        copy_items(
            self.perturbations.as_mut_slice(),
            other.perturbations.as_slice(),
        );
    }
}

impl Answers {
    /// Becomes a copy of as many others.
    fn copy_from(&mut self, other: &Answers) {
        copy_items(self.basis.as_mut_slice(), other.basis.as_slice());
        copy_items(self.values.as_mut_slice(), other.values.as_slice());
        copy_items(self.prices.as_mut_slice(), other.prices.as_slice());
    }
}

impl State {
    /// Copies all but the columns.
    fn copy_numbers(&mut self, other: &State) {
        self.sides.copy_from(&other.sides);
        self.basis.copy_from(&other.basis);
        self.positions.copy_from(&other.positions);
        copy_items(self.prices.as_mut_slice(), other.prices.as_slice());
        self.changes = other.changes;
        self.counts.drift = other.counts.drift;
        self.counts.since = other.counts.since;
        self.tolerances = other.tolerances;
        self.is_careful = other.is_careful;
        self.answers.copy_from(&other.answers);
    }

    /// Becomes a copy of another program with as many rows. Takes memory only where the other has more
    /// columns or entries than this one ever had.
    ///
    /// # Errors
    ///
    /// `Memory` where memory runs out; nothing is said of the program then.
    pub fn copy_from(&mut self, other: &State) -> Result<(), Memory> {
        self.columns.copy_from(&other.columns)?;
        self.figures.copy_from(&other.figures)?;
        self.copy_numbers(other);
        Ok(())
    }
}
