//! Whether a program is sound: unit columns first, nothing negative.
//!
//! That the first columns are those of the units, and that no right side and no cost is negative, is tried
//! before each call.

ghost use Rattle.std.specs.Prelude.{◌≡◌, ◌<◌, pos, ◌≤ℤ◌, All};
ghost use Rattle.std.specs.Bool.{OnTrue};
ghost use Rattle.law_bounds.specs.linear_programs.Program.{unit_vector};
ghost use Rattle.lp_fractions.specs.pivot_rows.Columns.{number_in};
ghost use Rattle.rows_tableaus.specs.Tables.{AreThree, IsUnit, HasUnits, IsSoundTable};

use crate::listed::{Entries, Listed};
use crate::reduced::entry;
use lp_fractions::Place;

/// Says whether the entry in a row is that of a unit column.
fn is_entry(places: &[Place], unit: usize, row: usize) -> bool
    requires three { AreThree places.now }
    requires row { row < 3 }
    ensures { OnTrue result (number_in places.now row ≡ unit_vector unit row) }
{
    entry(places, row) == unit_entry(unit, row)
}

fn unit_entry(unit: usize, row: usize) -> i128
    ensures { result ≡ unit_vector unit row }
{
    if unit == row { 1 } else { 0 }
}

/// Says whether a column is that of a unit.
fn is_unit(column: &Entries, unit: usize) -> bool
    ensures { OnTrue result (IsUnit unit column.now) }
{
    let places = column.places();
    is_entry(places, unit, 0) && is_entry(places, unit, 1) && is_entry(places, unit, 2)
}

/// Says whether the first three columns are those of the units.
fn has_units(columns: &[Entries]) -> bool
    ensures { OnTrue result (HasUnits columns.now) }
{
    columns.len() >= 3
        && is_unit(&columns[0], 0)
        && is_unit(&columns[1], 1)
        && is_unit(&columns[2], 2)
}

fn are_above(numbers: &[i64]) -> bool
    ensures { OnTrue result (All (λ z. pos 0 ≤ℤ z) numbers.now) }
{
    numbers.iter().all(|number| *number >= 0)
}

fn have_costs(columns: &[Entries]) -> bool
    ensures { OnTrue result (All (λ c. pos 0 ≤ℤ c.cost) columns.now) }
{
    columns.iter().all(|column| column.cost() >= 0)
}

/// Says whether the program is sound, and no cost is negative.
#[tactic(auto, using(crate::proofs::SoundTables::sound_table))]
pub(crate) fn is_sound(listed: &Listed) -> bool
    ensures { OnTrue result (IsSoundTable (record {
      right = listed.now.right;
      columns = listed.now.columns.items;
    })) }
{
    has_units(&listed.columns) && are_above(&listed.right) && have_costs(&listed.columns)
}
