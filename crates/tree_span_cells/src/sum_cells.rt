//! Cells for any sums.

ghost use Rattle.std.specs.Prelude.{◌≡◌, IfOk};
ghost use Rattle.model_rosters.specs.Sound.{IsSound};
ghost use Rattle.tree_span_cells.specs.Cells.{AreMade, IsLayoutOf, IsReady};

use crate::cells::Cells;
use crate::layout::{count_cells, count_spots};
use crate::packed_sum::PackedSum;
use crate::present::Present;
use crate::slot::{Layout, Span};
use model_rosters::{Grammar, Memory};
use std::alloc::Global;
use std::marker::Model;

/// Cells for any sums, sixteen bytes each.
#[derive(Drop)]
pub struct SumCells {
    cells: Vec<PackedSum>,
    present: Present,
}

impl Model for SumCells {
    ghost use Rattle.tree_span_cells.specs.Cells.{Held};

    ghost Value = { Held };

    ghost view = { λ s. record { sums = s.cells.items; present = s.present } };
}

impl SumCells {
    /// Returns so many cells, and so many spots for the spans.
    ///
    /// # Errors
    ///
    /// `Memory` where memory runs out; nothing is kept then.
    pub fn new(alloc: Global, count: usize, spots: usize) -> Result<SumCells, Memory>
        ensures { IfOk result (AreMade count spots) }
    {
        let cells = vec![in alloc; PackedSum::new(None); count]?;
        let present = Present::new(alloc, spots)?;
        Ok(SumCells { cells, present })
    }

    /// Returns the cells for the layout of a sound grammar: 16 bytes for each slot on each span of the
    /// day, and 32 bytes for each slot at each period.
    ///
    /// # Errors
    ///
    /// `Memory` where memory runs out; nothing is kept then.
    pub fn for_layout(alloc: Global, grammar: &Grammar, layout: &Layout) -> Result<SumCells, Memory>
        requires sound { IsSound grammar.now }
        requires layout { IsLayoutOf grammar.now layout.now }
        ensures { IfOk result (IsReady grammar.now layout.now) }
    {
        let count = count_cells(grammar, layout);
        let spots = count_spots(grammar, layout);
        SumCells::new(alloc, count, spots)
    }
}

impl Cells for SumCells {
    ghost use Rattle.std.specs.Prelude.{◌^◌, IfSome};
    ghost use Rattle.model_rosters.specs.Sums.{Within};

    ghost held = { λ s. s };

    ghost can_hold = { λ s. IfSome s (Within (2 ^ 110)) };

    // Returns the sum at a place.
    fn sum(&self, place: usize) -> Option<i128> {
        self.cells[place].sum()
    }

    // Returns the number of the sum at a place.
    fn number(&self, place: usize) -> i128 {
        self.cells[place].number()
    }

    // Sets the sum at a place.
    fn set(&mut self, place: usize, sum: Option<i128>) {
        self.cells[place] = PackedSum::new(sum);
    }

    // Returns the spans that are noted.
    fn present(&self) -> &Present {
        &self.present
    }

    // Notes a span.
    fn note(&mut self, from: usize, to: usize, span: Span) {
        self.present.note(from, to, span);
    }

    // Forgets the spans.
    fn clear(&mut self) {
        self.present.clear();
    }
}
