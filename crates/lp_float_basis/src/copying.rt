//! A basis that becomes a copy of another one.

use crate::basis::Basis;
use crate::kernel::{InverseRow, Kernel};
use crate::vectors::{copy_items, front, push_if_room};

/// Copies so many rows of the inverse, and as many of their numbers.
fn copy_rows(out: &mut [InverseRow], rows: &[InverseRow], count: usize) {
    for (copy, row) in out.iter_mut().zip(rows).take(count) {
        copy_items(
            copy.numbers.as_mut_slice(),
            front(row.numbers.as_slice(), count),
        );
    }
}

/// Copies a list that has room already, as far as the room goes.
fn copy_reserved(out: &mut Vec<usize>, items: &[usize]) {
    out.clear();
    for item in items {
        push_if_room(out, *item);
    }
}

impl Kernel {
    /// Becomes a copy of another kernel.
    fn copy_from(&mut self, other: &Kernel) {
        copy_rows(
            self.rows.as_mut_slice(),
            other.rows.as_slice(),
            other.size(),
        );
        copy_reserved(&mut self.listed, other.listed.as_slice());
        copy_reserved(&mut self.tight, other.tight.as_slice());
        copy_items(self.slots.as_mut_slice(), other.slots.as_slice());
    }
}

impl Basis {
    /// Becomes a copy of another basis of a program of as many rows. Takes no memory.
    pub fn copy_from(&mut self, other: &Basis) {
        self.kernel.copy_from(&other.kernel);
        copy_items(self.units.as_mut_slice(), other.units.as_slice());
    }
}
