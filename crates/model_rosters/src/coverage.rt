//! How many work at a cell, and its penalty.

ghost use Rattle.std.specs.Prelude.{◌≡◌, ◌≤◌, ◌<◌, ◌-◌, length, map, count_by};
ghost use Rattle.model_rosters.specs.Coverage.{has_at, covered, penalty};
ghost use Rattle.model_rosters.specs.Duties.{duty};

use crate::grammar::Grammar;
use crate::instance::{Cell, Shift};

/// Returns what it costs that this many employees work at the cell: `under` for each missing one
/// and `over` for each further one.
pub fn penalty(cell: &Cell, count: u32) -> u64
    ensures { result ≡ penalty cell.now count }
{
    if count < cell.need {
        u64::from(cell.under) * u64::from(cell.need - count)
    } else {
        u64::from(cell.over) * u64::from(count - cell.need)
    }
}

/// Returns how many of the words have the cell's letter at the cell's period. A word that is
/// shorter has no letter there. There are at most 64 shifts, and the cell is one of the grammar's
/// day.
pub fn covered(grammar: &Grammar, shifts: &[Shift], cell: &Cell) -> u32
    requires few { length shifts.now ≤ 64 }
    requires code { cell.now.code < length grammar.now.codes }
    requires first { 1 ≤ cell.now.period }
    requires last { cell.now.period ≤ grammar.now.periods }
    ensures { result ≡ covered grammar.now cell.now (map duty shifts.now) }
{
    let byte = grammar.codes.as_slice()[cell.code as usize].byte;
    count_with(shifts, byte, cell.period as usize - 1) as u32
}

/// Returns how many of the words have the byte at the place, from 0.
fn count_with(shifts: &[Shift], byte: u8, place: usize) -> usize
    ensures { result ≡ count_by (λ shift. has_at byte shift.word place) shifts.now }
{
    shifts
        .iter()
        .filter(|shift| has_at(shift.word.as_slice(), byte, place))
        .count()
}

/// Returns whether the word has the byte at the place, from 0.
fn has_at(word: &[u8], byte: u8, place: usize) -> bool
    ensures { result ≡ has_at byte word.now place }
{
    match word.get(place) {
        Some(letter) => *letter == byte,
        None => false,
    }
}
