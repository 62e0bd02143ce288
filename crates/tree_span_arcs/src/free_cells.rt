//! Cells of one byte for sums under them.

ghost use Rattle.std.specs.Prelude.{◌≡◌, IfOk};
ghost use Rattle.model_rosters.specs.Sound.{IsSound};
ghost use Rattle.tree_span_cells.specs.Cells.{AreMade, IsLayoutOf, IsReady};

use model_rosters::{Grammar, Memory};
use std::alloc::Global;
use std::marker::Model;
use tree_span_cells::{Cells, Layout, NO_NUMBER, Present, Span, count_cells, count_spots};

/// Cells for sums under free prices, one byte each: a sum that is there is 0.
#[derive(Drop)]
pub struct FreeCells {
    there: Vec<bool>,
    present: Present,
}

impl Model for FreeCells {
    ghost use Rattle.std.specs.Prelude.{map};
    ghost use Rattle.tree_span_cells.specs.Cells.{Held};
    ghost use Rattle.tree_span_arcs.specs.Flags.{free_sum};

    ghost Value = { Held };

    ghost view = { λ s. record { sums = map free_sum s.there.items; present = s.present } };
}

impl FreeCells {
    /// Returns so many cells, and so many spots for the spans.
    ///
    /// # Errors
    ///
    /// `Memory` where memory runs out; nothing is kept then.
    pub fn new(alloc: Global, count: usize, spots: usize) -> Result<FreeCells, Memory>
        ensures { IfOk result (AreMade count spots) }
    {
        let there = vec![in alloc; false; count]?;
        let present = Present::new(alloc, spots)?;
        Ok(FreeCells { there, present })
    }

    /// Returns the cells for the layout of a sound grammar: one byte for each slot on each span of the
    /// day, and 32 bytes for each slot at each period.
    ///
    /// # Errors
    ///
    /// `Memory` where memory runs out; nothing is kept then.
    pub fn for_layout(
        alloc: Global,
        grammar: &Grammar,
        layout: &Layout,
    ) -> Result<FreeCells, Memory>
        requires sound { IsSound grammar.now }
        requires layout { IsLayoutOf grammar.now layout.now }
        ensures { IfOk result (IsReady grammar.now layout.now) }
    {
        let count = count_cells(grammar, layout);
        let spots = count_spots(grammar, layout);
        FreeCells::new(alloc, count, spots)
    }
}

impl Cells for FreeCells {
    ghost use Rattle.tree_span_arcs.specs.Flags.{IsFree};

    ghost held = { λ s. s };

    ghost can_hold = { IsFree };

    // Returns 0 where a sum is there.
    fn sum(&self, place: usize) -> Option<i128> {
        if self.there[place] { Some(0) } else { None }
    }

    // Returns the number of the sum at a place.
    fn number(&self, place: usize) -> i128 {
        if self.there[place] { 0 } else { NO_NUMBER }
    }

    // Notes whether a sum is there.
    fn set(&mut self, place: usize, sum: Option<i128>) {
        self.there[place] = sum.is_some();
    }

    // Returns the spans that are noted.
    fn present(&self) -> &Present {
        &self.present
    }

    // Notes a span.
    fn note(&mut self, from: usize, to: usize, span: Span) {
        self.present.note(from, to, span);
    }

    // Forgets the spans.
    fn clear(&mut self) {
        self.present.clear();
    }
}
