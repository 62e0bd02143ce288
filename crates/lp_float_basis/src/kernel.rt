//! The inverse of the tight square.

use crate::numbers::Entry64;
use crate::vectors::{at, copy_items, place_at, push_if_room, set_all, set_at};

/// The slot of a row that has none.
pub(crate) const LOOSE: usize = usize::MAX;

/// The numbers of a listed column's row of the inverse, by the slots of the tight rows.
#[derive(Drop)]
pub(crate) struct InverseRow {
    pub(crate) numbers: Vec<Entry64>,
}

/// The listed columns of a basis, and the inverse of the square that they make with the tight rows: those
/// without a unit column in the basis. The other rows are loose, and have one there.
#[derive(Drop)]
pub(crate) struct Kernel {
    /// For each listed column its row of the inverse; rooms behind the last of them.
    pub(crate) rows: Vec<InverseRow>,
    /// The places of the listed columns.
    pub(crate) listed: Vec<usize>,
    /// The tight rows, as many, each in its slot.
    pub(crate) tight: Vec<usize>,
    /// The slot of each row.
    pub(crate) slots: Vec<usize>,
}

/// Returns the slot of a row; a loose one has none.
pub(crate) fn slot_of(slots: &[usize], row: usize) -> usize {
    match slots.get(row) {
        Some(slot) => *slot,
        None => LOOSE,
    }
}

/// Moves the numbers of so many rows from one slot to another.
fn move_numbers(rows: &mut [InverseRow], count: usize, from: usize, to: usize) {
    for row in rows.iter_mut().take(count) {
        let number = at(row.numbers.as_slice(), from);
        set_at(row.numbers.as_mut_slice(), to, number);
    }
}

impl Kernel {
    /// Returns how many columns it has.
    pub(crate) fn size(&self) -> usize {
        self.listed.len()
    }

    /// Leaves no column and no tight row.
    pub(crate) fn clear(&mut self) {
        self.listed.clear();
        self.tight.clear();
        set_all(self.slots.as_mut_slice(), LOOSE);
    }

    /// Puts a listed column in place of another one, with its row of the inverse.
    pub(crate) fn replace_listed(&mut self, slot: usize, place: usize, row: &[Entry64]) {
        set_at(self.listed.as_mut_slice(), slot, place);
        if let Some(own) = self.rows.as_mut_slice().get_mut(slot) {
            copy_items(own.numbers.as_mut_slice(), row);
        }
    }

    /// Takes a listed column out: the last one comes in its place.
    fn take_listed(&mut self, slot: usize) {
        let last = self.listed.len().saturating_sub(1);
        if slot < self.listed.len() {
            let _column = self.listed.swap_remove(slot);
        }
        if slot < last && last < self.rows.len() {
            self.rows.swap(slot, last);
        }
    }

    /// Takes a tight row out: the last one comes in its slot.
    fn take_tight(&mut self, slot: usize) {
        let last = self.tight.len().saturating_sub(1);
        if slot < self.tight.len() {
            let row = self.tight.swap_remove(slot);
            set_at(self.slots.as_mut_slice(), row, LOOSE);
        }
        if slot < last {
            let moved = place_at(self.tight.as_slice(), slot);
            set_at(self.slots.as_mut_slice(), moved, slot);
            move_numbers(self.rows.as_mut_slice(), self.listed.len(), last, slot);
        }
    }

    /// Takes a listed column and a tight row out.
    pub(crate) fn shrink(&mut self, column: usize, slot: usize) {
        self.take_listed(column);
        self.take_tight(slot);
    }

    /// Sets the numbers of a slot: what each listed column's entry in the column that enters takes of the
    /// number of the row that leaves.
    fn set_slot_numbers(&mut self, slot: usize, entering: &[Entry64], unit: Entry64) {
        let count = self.listed.len();
        let rows = self.rows.as_mut_slice().iter_mut().take(count);
        for (row, entry) in rows.zip(entering) {
            set_at(row.numbers.as_mut_slice(), slot, -*entry * unit);
        }
    }

    /// Puts a loose row in place of a tight one.
    pub(crate) fn replace_tight(
        &mut self,
        slot: usize,
        row: usize,
        entering: &[Entry64],
        unit: Entry64,
    ) {
        self.set_slot_numbers(slot, entering, unit);
        if let Some(tight) = self.tight.as_mut_slice().get_mut(slot) {
            set_at(self.slots.as_mut_slice(), *tight, LOOSE);
            *tight = row;
        }
        set_at(self.slots.as_mut_slice(), row, slot);
    }

    /// Takes a listed column in, and a loose row.
    pub(crate) fn grow(
        &mut self,
        place: usize,
        row: usize,
        numbers: &[Entry64],
        entering: &[Entry64],
        unit: Entry64,
    ) {
        let slot = self.tight.len();
        let column = self.listed.len();
        push_if_room(&mut self.tight, row);
        push_if_room(&mut self.listed, place);
        self.set_slot_numbers(slot, entering, unit);
        set_at(self.slots.as_mut_slice(), row, slot);
        if let Some(own) = self.rows.as_mut_slice().get_mut(column) {
            copy_items(own.numbers.as_mut_slice(), numbers);
            set_at(own.numbers.as_mut_slice(), slot, unit);
        }
    }
}
