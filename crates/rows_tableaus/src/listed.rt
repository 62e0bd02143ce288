//! A program of three rows whose columns are all listed, and what `Columns` asks of it.
//!
//! . `price_out` names the first column of negative reduced cost (`reduced`).

ghost use Rattle.std.specs.Prelude.{◌≡◌, IfOk};
ghost use Rattle.lp_fractions.specs.pivot_rows.Columns.{IsColumn, number_in};
ghost use Rattle.rows_tableaus.specs.Tables.{AreThree};

use crate::reduced::find_cheaper;
use lp_fractions::{Place, Tally};
use lp_tableaus::{Columns, ColumnsFault};
use model_rosters::Memory;
use std::alloc::Global;
use std::cell::Cell;
use std::marker::Model;

/// A cost, and the entries in three rows.
pub(crate) type ColumnParts = (i64, [i64; 3]);

/// A column of three rows.
#[derive(Drop)]
pub(crate) struct Entries {
    cost: i64,
    places: [Place; 3],
}

impl Model for Entries {
    ghost use Rattle.rows_tableaus.specs.Tables.{AreThree, Numbers};

    ghost Value = { Numbers };

    ghost view = { λ e. record { cost = e.cost; places = e.places } };

    ghost invariant = { λ e. AreThree e.places };
}

impl Entries {
    /// Returns the column of these numbers.
    pub(crate) fn new(cost: i64, entries: [i64; 3]) -> Entries {
        let places = [
            Place {
                row: 0,
                value: entries[0],
            },
            Place {
                row: 1,
                value: entries[1],
            },
            Place {
                row: 2,
                value: entries[2],
            },
        ];
        Entries { cost, places }
    }

    /// Returns the cost.
    pub(crate) fn cost(&self) -> i64
        ensures { result ≡ self.now.cost }
    {
        self.cost
    }

    /// Returns the places of the three entries.
    pub(crate) fn places(&self) -> &[Place]
        ensures value { result.now ≡ self.now.places }
        ensures three { AreThree self.now.places }
        ensures column { IsColumn 3 (number_in self.now.places) result.now }
    {
        &self.places
    }
}

/// A program of three rows, whose columns are all listed.
#[derive(Drop)]
pub(crate) struct Listed {
    pub right: [i64; 3],
    pub columns: Vec<Entries>,
    /// How many further questions whether to stop are answered by no; all, where there is no number.
    pub goes_on: Cell<Option<u32>>,
}

/// Returns the columns of three units with these costs, and those of some numbers behind them.
pub(crate) fn program_of(
    alloc: Global,
    right: [i64; 3],
    cost: i64,
    parts: &[ColumnParts],
) -> Result<Listed, Memory>
    ensures { IfOk result (λ l. l.right ≡ right) }
{
    let mut columns = Vec::new(alloc);
    for unit in [[1, 0, 0], [0, 1, 0], [0, 0, 1]] {
        columns.push(Entries::new(cost, unit))?;
    }
    for (cost, entries) in parts {
        columns.push(Entries::new(*cost, *entries))?;
    }
    Ok(Listed {
        right,
        columns,
        goes_on: Cell::new(None),
    })
}

impl Columns for Listed {
    ghost use Rattle.std.specs.Prelude.{ℕ, ◌≡◌, false, length};
    ghost use mathlib.Core.Path.{refl, ◌∙◌};
    ghost use Rattle.rows_tableaus.specs.Tables.{Table, table_program, Lists};
    ghost use Rattle.rows_tableaus.specs.Tables.{lists-still};

    ghost Key = { ℕ };

    ghost Site = { Table };

    ghost site = { λ s. record { right = s.right; columns = s.columns.items } };

    ghost program = { table_program };

    ghost calm = { λ _. false };

    ghost State = { Table };

    ghost state = { λ s. record { right = s.right; columns = s.columns.items } };

    ghost Ready = { λ t. Unit {0} };

    ghost Lists = { Lists };

    ghost size = { λ t. length t.columns };

    ghost Kept = { λ a b. a ≡ b };

    ghost same = { λ a. refl };

    ghost chain = { λ a b c e f. e ∙ f };

    ghost still = { lists-still };

    fn rows(&self) -> usize {
        3
    }

    fn count(&self) -> usize {
        self.columns.len()
    }

    fn places(&self, column: usize) -> &[Place] {
        self.columns[column].places()
    }

    fn cost(&self, column: usize) -> i64 {
        self.columns[column].cost()
    }

    fn wanted(&self) -> &[u32] {
        &[]
    }

    fn is_over(&self) -> bool {
        let Some(left) = self.goes_on.get() else {
            return false;
        };
        self.goes_on.set(Some(left.saturating_sub(1)));
        left == 0
    }

    fn price_out(
        &mut self,
        y: &[i128],
        kappa: i128,
        tally: &mut Tally,
    ) -> Result<Option<usize>, ColumnsFault> {
        let _count = tally.wide();
        match find_cheaper(self.columns.as_slice(), y, kappa) {
            Ok(found) => Ok(found),
            Err(Memory) => Err(ColumnsFault::Memory),
        }
    }
}
