//! The entries of a column, row by row.

ghost use Rattle.std.specs.Prelude.{ℕ, ℤ, ◌≡◌, ◌≤◌, ◌<◌, ◌+◌, pos, cond, Some, nat_lt, [], length, slice_get, slice_index_or, OnOk};
ghost use Rattle.model_rosters.specs.declared.instance.Cut.{Cut as PathCut};
ghost use Rattle.model_rosters.specs.Folds.{count};
ghost use Rattle.model_rosters.specs.Arcs.{same_arc};
ghost use Rattle.tree_pool.specs.Pools.{PoolTree, letters_from};
ghost use Rattle.lp_master_rows.specs.declared.rows.CellLetter.{CellLetter as RowLetter};
ghost use Rattle.lp_master_rows.specs.NodeRows.{is_letter};
ghost use Rattle.lp_master_rows.specs.Entries.{with_entry, AreListed};

use crate::rows::CellLetter;
use lp_fractions::Place;
use model_rosters::{Cut, List, Memory};
use tree_pool::Pool;

/// The entries of a column, listed row by row.
#[derive(Drop)]
pub(crate) struct Entries {
    places: List<Place>,
    // How many rows are listed.
    rows: u32,
}

impl Entries {
    /// Returns the entries of no row, in the memory of a list, whatever it held.
    pub(crate) fn over(list: List<Place>) -> Entries
        ensures { result ≡ record { places = []; rows = 0 } }
    {
        let mut places = list;
        places.truncate(0);
        Entries { places, rows: 0 }
    }

    /// Returns the entries that are not 0.
    pub(crate) fn into_places(self) -> List<Place>
        ensures { result ≡ self.places }
    {
        let Entries { places, rows: _ } = self;
        places
    }

    /// Adds the entry of the next row: 1 where `brings` holds, and else 0.
    ///
    /// # Errors
    ///
    /// `Memory` where memory runs out; nothing is said of the entries then.
    pub(crate) fn add(&mut self, brings: bool) -> Result<(), Memory>
        ensures { OnOk result (self.new ≡ with_entry self.old brings) }
    {
        if brings {
            self.places.push(Place {
                row: self.rows,
                value: 1,
            })?;
        }
        self.rows = self.rows.saturating_add(1);
        Ok(())
    }

    /// Adds the entries of rows to which a tree brings these letters, where it has them.
    ///
    /// # Errors
    ///
    /// `Memory` where memory runs out; nothing is said of the entries then.
    pub(crate) fn add_letters(&mut self, letters: &[CellLetter], codes: &[u8]) -> Result<(), Memory>
        ensures { OnOk result ((entry : ℕ → ℤ) → AreListed 0 entry self.old → length letters.now ≤ 1500 →
            ((k : ℕ) (l : RowLetter) → slice_get letters.now k ≡ Some l →
            entry k ≡ pos (count (is_letter l) (letters_from 1 codes.now)))
            → AreListed (length letters.now) entry self.new) }
    {
        for letter in letters {
            self.add(has_letter(codes, letter))?;
        }
        Ok(())
    }

    /// Adds the entries of the rows of cuts, to which a tree brings their arcs, where it has them.
    ///
    /// # Errors
    ///
    /// `Memory` where memory runs out; nothing is said of the entries then.
    pub(crate) fn add_cuts(
        &mut self,
        cuts: &[Cut],
        pool: &Pool,
        column: usize,
    ) -> Result<(), Memory>
        requires column { column < length pool.now }
        ensures { OnOk result ((n : ℕ) (entry : ℕ → ℤ) (x : PoolTree) → slice_get pool.now column ≡ Some x →
            AreListed n entry self.old → n + length cuts.now ≤ 1500 →
            ((k : ℕ) (c : PathCut) → slice_get cuts.now k ≡ Some c →
            entry (n + k) ≡ pos (cond (nat_lt 0 (count (same_arc c.arc) x.arcs)) 1 0))
            → AreListed (n + length cuts.now) entry self.new) }
    {
        for cut in cuts {
            self.add(pool.has_arc(column, &cut.arc))?;
        }
        Ok(())
    }
}

/// Says whether a word of these codes has the letter.
fn has_letter(codes: &[u8], letter: &CellLetter) -> bool
    ensures { count (is_letter letter.now) (letters_from 1 codes.now) ≡ cond result 1 0 }
{
    if letter.period == 0 {
        return false;
    }
    match codes.get(letter.period as usize - 1) {
        Some(code) => letter.code == *code,
        None => false,
    }
}
