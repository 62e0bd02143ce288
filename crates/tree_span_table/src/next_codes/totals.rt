//! The totals that are pushed top down.

ghost use Rattle.std.specs.Prelude.{◌≡◌, IfOk, length};
ghost use Rattle.model_rosters.specs.Sound.{IsSound};
ghost use Rattle.tree_span_cells.specs.Cells.{IsLayoutOf};
ghost use Rattle.tree_span_table.specs.next_codes.Totals.{AreCounted, AreNone};

use model_rosters::{Grammar, Memory};
use std::alloc::Global;
use tree_span_cells::{Layout, PackedSum, count_cells};

/// The least sums found so far of the trees of the day in which something stands on a span.
#[derive(Drop)]
pub struct Totals {
    /// The sum for each slot on each span, by the places of the cells.
    pub cells: Vec<PackedSum>,
    /// The sum for each code at each period.
    pub letters: Vec<PackedSum>,
}

// Cells of so many sums, none of which is there.
fn no_sums(alloc: Global, count: usize) -> Result<Vec<PackedSum>, Memory>
    ensures count { IfOk result (λ v. length v.items ≡ count) }
    ensures none { IfOk result (λ v. AreNone v.items) }
{
    let cells = vec![in alloc; PackedSum::new(None); count]?;
    Ok(cells)
}

impl Totals {
    /// Returns no sums, with room for those of a sound grammar: 16 bytes for each cell of its layout, and
    /// for each code at each period.
    ///
    /// # Errors
    ///
    /// `Memory` where memory runs out; nothing is kept then.
    pub fn for_layout(alloc: Global, grammar: &Grammar, layout: &Layout) -> Result<Totals, Memory>
        requires sound { IsSound grammar.now }
        requires layout { IsLayoutOf grammar.now layout.now }
        ensures counted { IfOk result (AreCounted grammar.now layout.now) }
        ensures none { IfOk result (λ t. AreNone t.letters.items) }
    {
        let cells = no_sums(alloc, count_cells(grammar, layout))?;
        let letters = no_sums(alloc, grammar.codes.len() * grammar.periods as usize)?;
        Ok(Totals { cells, letters })
    }

    /// Forgets all sums.
    pub fn clear(&mut self)
        ensures cells { length self.new.cells.items ≡ length self.old.cells.items }
        ensures letters { length self.new.letters.items ≡ length self.old.letters.items }
        ensures no_cells { AreNone self.new.cells.items }
        ensures no_letters { AreNone self.new.letters.items }
    {
        self.cells.as_mut_slice().fill(PackedSum::new(None));
        self.letters.as_mut_slice().fill(PackedSum::new(None));
    }
}
