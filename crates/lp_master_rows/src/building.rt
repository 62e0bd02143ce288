//! The rows, added one by one.

ghost use Rattle.std.specs.Prelude.{ℕ, ◌≡◌, ◌≤◌, ◌<◌, ◌+◌, ◌++◌, ◌^◌, pos, cond, [], ◌∷◌, length, OnOk};
ghost use Rattle.model_rosters.specs.Folds.{Each};
ghost use Rattle.law_bounds.specs.master_laws.Rows.{cut_rows, has_floor, has_ceiling};
ghost use Rattle.model_rosters.specs.Limits.{IsSmallCut};
ghost use Rattle.lp_master_rows.specs.NodeRows.{kind_row, kind_cell, kind_rows, kind_cells, bounds_from, with_rows, letter_of};

use crate::rows::{BoundRows, CellLetter, NodeRows};
use crate::sense::Sense;
use model_rosters::{Cell, Cut, List, Memory, Side};
use std::alloc::Global;

/// What a row asks of a cell.
#[derive(Clone, Copy, Drop)]
pub(crate) enum Kind {
    Need,
    Floor,
    Ceiling,
}

/// Returns the rows of the cell's floor and ceiling, the next ones of either kind being these.
fn bounds_of(cell: &Cell, floor: u32, ceiling: u32) -> BoundRows
    ensures floor { result.floor ≡ cond (has_floor cell.now) (Some floor) None }
    ensures ceiling { result.ceiling ≡ cond (has_ceiling cell.now) (Some ceiling) None }
{
    BoundRows {
        floor: if cell.floor > 0 { Some(floor) } else { None },
        ceiling: if cell.ceiling < 64 {
            Some(ceiling)
        } else {
            None
        },
    }
}

impl NodeRows {
    /// Returns no rows.
    pub(crate) fn empty(alloc: Global) -> NodeRows
        ensures { result ≡ record { right = []; senses = []; letters = []; bounds = [] } }
    {
        NodeRows {
            right: List::new(alloc),
            senses: List::new(alloc),
            letters: List::new(alloc),
            bounds: List::new(alloc),
        }
    }

    /// Adds a row.
    ///
    /// # Errors
    ///
    /// `Memory` where memory runs out; nothing is said of the rows then.
    pub(crate) fn add_row(&mut self, right: i64, sense: Sense) -> Result<(), Memory>
        ensures { OnOk result (self.new ≡ record self.old {
          right = self.old.right ++ right ∷ [];
          senses = self.old.senses ++ sense ∷ [];
        }) }
    {
        self.right.push(right)?;
        self.senses.push(sense)
    }

    /// Adds a row to which a tree brings the cell's letter.
    fn add_letter_row(&mut self, cell: &Cell, right: u32, sense: Sense) -> Result<(), Memory>
        ensures { OnOk result (self.new ≡ record self.old {
          right = self.old.right ++ pos right ∷ [];
          senses = self.old.senses ++ sense ∷ [];
          letters = self.old.letters ++ letter_of cell.now ∷ [];
        }) }
    {
        self.letters.push(CellLetter {
            code: cell.code,
            period: cell.period,
        })?;
        self.add_row(i64::from(right), sense)
    }

    /// Adds the row of a kind that the cell has, if any.
    fn add_kind(&mut self, kind: Kind, cell: &Cell) -> Result<(), Memory>
        ensures { OnOk result (self.new ≡ with_rows self.old (kind_cell kind cell.now)
            (kind_row kind cell.now)) }
    {
        match kind {
            Kind::Need => {
                let (under, over) = (cell.under, cell.over);
                self.add_letter_row(cell, cell.need, Sense::About { under, over })
            }
            Kind::Floor if cell.floor > 0 => self.add_letter_row(cell, cell.floor, Sense::AtLeast),
            Kind::Ceiling if cell.ceiling < 64 => self.add_letter_row(
                cell,
                cell.ceiling,
                Sense::AtMost,
            ),
            _ => Ok(()),
        }
    }

    /// Adds the rows of a kind that the cells have.
    ///
    /// # Errors
    ///
    /// `Memory` where memory runs out; nothing is said of the rows then.
    pub(crate) fn add_cells(&mut self, kind: Kind, cells: &[Cell]) -> Result<(), Memory>
        ensures { OnOk result (self.new ≡ with_rows self.old (kind_cells kind cells.now)
            (kind_rows kind cells.now)) }
    {
        for cell in cells {
            self.add_kind(kind, cell)?;
        }
        Ok(())
    }

    /// Adds the row of a cut.
    fn add_cut(&mut self, cut: &Cut) -> Result<(), Memory>
        ensures { OnOk result (self.new ≡ with_rows self.old [] (cut_rows (cut.now ∷ []))) }
    {
        match cut.side {
            Side::Low => self.add_row(i64::from(cut.b), Sense::AtMost),
            Side::High => self.add_row(i64::from(cut.b) + 1, Sense::AtLeast),
        }
    }

    /// Adds the rows of the cuts.
    ///
    /// # Errors
    ///
    /// `Memory` where memory runs out; nothing is said of the rows then.
    pub(crate) fn add_cuts(&mut self, cuts: &[Cut]) -> Result<(), Memory>
        ensures { OnOk result (self.new ≡ with_rows self.old [] (cut_rows cuts.now)) }
    {
        for cut in cuts {
            self.add_cut(cut)?;
        }
        Ok(())
    }

    /// Tells where the rows of the cells' floors and ceilings stand, from these first ones on.
    ///
    /// # Errors
    ///
    /// `Memory` where memory runs out; nothing is said of the rows then.
    pub(crate) fn add_bounds(
        &mut self,
        cells: &[Cell],
        floors: u32,
        ceilings: u32,
    ) -> Result<(), Memory>
        requires floors { floors + length cells.now < 2 ^ 32 }
        requires ceilings { ceilings + length cells.now < 2 ^ 32 }
        ensures { OnOk result (self.new ≡ record self.old {
          bounds = self.old.bounds
              ++ bounds_from floors ceilings cells.now;
        }) }
    {
        let (mut floor, mut ceiling) = (floors, ceilings);
        for cell in cells {
            self.bounds.push(bounds_of(cell, floor, ceiling))?;
            floor += u32::from(cell.floor > 0);
            ceiling += u32::from(cell.ceiling < 64);
        }
        Ok(())
    }
}
