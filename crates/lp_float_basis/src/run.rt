//! Consecutive rows with one entry.

use crate::numbers::Entry64;

/// The sign of an entry.
#[derive(Clone, Copy, PartialEq, Eq, Drop)]
pub enum Sign {
    /// The entry 1.
    Plus,
    /// The entry -1.
    Minus,
}

/// Consecutive rows in which a column has the same entry: its product with a row of the inverse is the sum
/// of the row's numbers before `to`, less that before `from`. Rows of entry -1 run backwards.
#[derive(Clone, Copy, Drop)]
pub struct Run {
    pub from: u32,
    pub to: u32,
}

impl Run {
    /// Returns the run of one row.
    pub(crate) fn of_row(row: u32, sign: Sign) -> Run {
        let behind = row.saturating_add(1);
        match sign {
            Sign::Plus => Run {
                from: row,
                to: behind,
            },
            Sign::Minus => Run {
                from: behind,
                to: row,
            },
        }
    }

    /// Goes on with an entry in a row, if that is the next one and has this entry. Says whether it did.
    pub(crate) fn go_on(&mut self, row: u32, sign: Sign) -> bool {
        let behind = row.saturating_add(1);
        match sign {
            Sign::Plus if self.from < self.to && self.to == row => {
                self.to = behind;
                true
            }
            Sign::Minus if self.to < self.from && self.from == row => {
                self.from = behind;
                true
            }
            _ => false,
        }
    }
}

/// Returns the sum at a place, 0 where there is none.
fn sum_at(sums: &[Entry64], place: u32) -> Entry64 {
    match sums.get(place as usize) {
        Some(sum) => *sum,
        None => 0.0,
    }
}

/// Returns the product of a column with the row whose sums these are: at each place what stands before
/// it.
pub fn entry_by_sums(runs: &[Run], sums: &[Entry64]) -> Entry64 {
    let mut total = 0.0;
    for run in runs {
        total += sum_at(sums, run.to) - sum_at(sums, run.from);
    }
    total
}
