//! A basis, its positions, and the room in which it works.

use crate::kernel::Kernel;
use crate::numbers::Entry64;
use crate::vectors::{place_at, set_at};

/// An entry of a column in a tight row: the row's slot, and whether the entry is 1 or -1.
#[derive(Clone, Copy, Drop)]
pub(crate) struct Pick {
    pub(crate) slot: usize,
    pub(crate) entry: Entry64,
}

/// The room in which a basis is made, solved with and updated.
#[derive(Drop)]
pub(crate) struct BasisWorkspace {
    /// The entries in tight rows of the column that enters.
    pub(crate) picks: Vec<Pick>,
    /// The column that enters, in terms of the basis: by positions.
    pub(crate) entering: Vec<Entry64>,
    /// The numbers of the row of the inverse that leaves, by slots.
    pub(crate) row: Vec<Entry64>,
    /// The sums of that row's numbers before each row of the program, and behind the last.
    pub(crate) sums: Vec<Entry64>,
    /// What changes from each row to the next where columns are taken off a row's number.
    pub(crate) changes: Vec<f64>,
    /// The rows that have a column of a basis that is being made.
    pub(crate) taken: Vec<bool>,
    /// The columns of a basis that is to be made.
    pub(crate) wanted: Vec<usize>,
}

/// A basis of a program, without its columns, which are lent.
///
/// What is kept by positions has first a number for each listed column of the basis, as many as there may be,
/// and then one for each row, for its unit column in the basis: 0 where it has none.
#[derive(Drop)]
pub struct Basis {
    pub(crate) kernel: Kernel,
    /// The place of each loose row's unit column in the basis; of no column for a tight row.
    pub(crate) units: Vec<usize>,
    pub(crate) room: BasisWorkspace,
    /// How many entries were touched.
    pub(crate) work: u64,
}

/// The place of no column.
pub const NO_COLUMN: usize = usize::MAX;

/// A position of the basis.
#[derive(Clone, Copy, Drop)]
pub enum Position {
    /// Among the listed columns.
    Listed(usize),
    /// In a row, whose unit column stands there.
    Unit(usize),
}

/// Returns the position of this number, in a program of so many rows.
pub fn position_of(number: usize, rows: usize) -> Position {
    if number < rows {
        Position::Listed(number)
    } else {
        Position::Unit(number - rows)
    }
}

/// A loose row and the number of its unit column, which a row of the inverse has there; no row where the
/// number is 0.
#[derive(Clone, Copy, Drop)]
pub struct UnitNumber {
    pub row: usize,
    pub number: Entry64,
}

/// Returns the entry of a row's unit column at this place, in a program of so many rows; 0 where there is
/// none.
pub(crate) fn sign_of(place: usize, rows: usize) -> Entry64 {
    if place < rows {
        1.0
    } else if place == NO_COLUMN {
        0.0
    } else {
        -1.0
    }
}

impl Basis {
    /// Returns how many rows there are.
    pub(crate) fn rows(&self) -> usize {
        self.units.len()
    }

    /// Returns how many listed columns it has; there are as many tight rows.
    pub fn size(&self) -> usize {
        self.kernel.size()
    }

    /// Returns the places of its listed columns.
    pub fn listed(&self) -> &[usize] {
        self.kernel.listed.as_slice()
    }

    /// Returns the tight rows, each in its slot.
    pub fn tight(&self) -> &[usize] {
        self.kernel.tight.as_slice()
    }

    /// Returns the place of each row's unit column; of no column for a tight row.
    pub fn units(&self) -> &[usize] {
        self.units.as_slice()
    }

    /// Returns the place of the column at a position.
    pub fn place(&self, position: Position) -> usize {
        match position {
            Position::Listed(slot) => place_at(self.kernel.listed.as_slice(), slot),
            Position::Unit(row) => place_at(self.units.as_slice(), row),
        }
    }

    /// Returns the column that was expressed last, by positions.
    pub fn entering(&self) -> &[Entry64] {
        self.room.entering.as_slice()
    }

    /// Returns the row of the inverse that was worked out last, by slots.
    pub fn row(&self) -> &[Entry64] {
        self.room.row.as_slice()
    }

    /// Returns the sums that were worked out last, before each row and behind the last.
    pub fn sums(&self) -> &[f64] {
        self.room.sums.as_slice()
    }

    /// Returns how many entries pivots have touched.
    pub fn work(&self) -> u64 {
        self.work
    }

    /// Puts a unit column into the basis in a row that is loose.
    pub fn set_unit(&mut self, row: usize, place: usize) {
        set_at(self.units.as_mut_slice(), row, place);
    }
}
