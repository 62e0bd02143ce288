//! The rows, and their calls.

ghost use Rattle.std.specs.Prelude.{ℕ, ℤ, ◌+ℤ◌, ◌≡◌, ◌≤◌, ◌<◌, ◌+◌, ◌++◌, ◌^◌, pos, Some, List as Items, ◌∷◌, length, slice_get, unsigned_abs, count_by, All, IfOk, IfSome, IfNone};
ghost use Rattle.model_rosters.specs.declared.instance.Cut.{Cut as PathCut};
ghost use Rattle.model_rosters.specs.declared.instance.Instance.{Instance as Day};
ghost use Rattle.model_rosters.specs.Folds.{Each};
ghost use Rattle.model_rosters.specs.SoundInstance.{IsSoundInstance};
ghost use Rattle.model_rosters.specs.Trees.{Parts};
ghost use Rattle.lp_fractions.specs.Row.{at};
ghost use Rattle.law_bounds.specs.BestPrices.{artificial_cost};
ghost use Rattle.law_bounds.specs.master_laws.Rows.{Row, rows_of, number_at, HoldsAt, has_floor, has_ceiling};
ghost use Rattle.law_bounds.specs.master_laws.Master.{missing_cost, beyond_cost, HasBeyond};
ghost use Rattle.law_bounds.specs.master_laws.Rounding.{cell_lines, line_sums, first_head, numbers_from};
ghost use Rattle.lp_fractions.specs.pivot_rows.Columns.{IsColumn};
ghost use Rattle.tree_pool.specs.Pools.{PoolTree, IsPoolTree};
ghost use Rattle.model_rosters.specs.Limits.{IsSmallCut};
ghost use Rattle.lp_master_rows.specs.NodeRows.{AreRows, IsBelow, price_in, prices_from};

use crate::building::Kind;
use crate::entries::Entries;
use crate::sense::Sense;
use lp_fractions::Place;
use model_rosters::{Cell, Cut, Instance, List, Memory, greatest_cost};
use std::alloc::Global;
use tree_pool::Pool;

/// Returns how many rows the master of a node has. Takes no memory.
pub fn count_rows(instance: &Instance, cuts: &[Cut]) -> usize
    requires sound { IsSoundInstance instance.now }
    requires few { length cuts.now < 2 ^ 31 }
    ensures { result ≡ length (rows_of instance.now cuts.now) }
{
    let cells = instance.cells.as_slice();
    cells.len() + count_floors(cells) + count_ceilings(cells) + 2 + cuts.len()
}

/// Returns what an artificial column costs: more than any roster for each of 64 employees. Takes no memory.
pub fn artificial_price(instance: &Instance) -> i64
    requires { IsSoundInstance instance.now }
    ensures { result ≡ pos (artificial_cost instance.now) }
{
    let price = 64 * (greatest_cost(instance) + 1);
    price as i64
}

/// Returns how many cells have a row of their floor.
fn count_floors(cells: &[Cell]) -> usize
    ensures { result ≡ count_by has_floor cells.now }
{
    cells.iter().filter(|cell| cell.floor > 0).count()
}

/// Returns how many cells have a row of their ceiling.
fn count_ceilings(cells: &[Cell]) -> usize
    ensures { result ≡ count_by has_ceiling cells.now }
{
    cells.iter().filter(|cell| cell.ceiling < 64).count()
}

/// The rows of a node's master, in this order: those of the cells, of floors above 0, of ceilings
/// below 64, of the heads (at least, at most) and of the cuts.
#[derive(Drop)]
pub struct NodeRows {
    pub(crate) right: List<i64>,
    pub(crate) senses: List<Sense>,
    // The letters that trees bring to the rows before those of the heads.
    pub(crate) letters: List<CellLetter>,
    // The further rows of each cell.
    pub(crate) bounds: List<BoundRows>,
}

/// The letter of a cell.
#[derive(Clone, Copy, Drop)]
pub(crate) struct CellLetter {
    pub(crate) code: u8,
    pub(crate) period: u8,
}

/// The rows of a cell's floor and ceiling, where it has them.
#[derive(Clone, Copy, Drop)]
pub(crate) struct BoundRows {
    pub(crate) floor: Option<u32>,
    pub(crate) ceiling: Option<u32>,
}

impl NodeRows {
    /// Returns the rows of the node at a path of cuts, base cuts first.
    ///
    /// # Errors
    ///
    /// `Memory` where memory runs out; nothing is kept then.
    pub fn new(alloc: Global, instance: &Instance, cuts: &[Cut]) -> Result<NodeRows, Memory>
        requires sound { IsSoundInstance instance.now }
        requires cuts { Each IsSmallCut cuts.now }
        requires few { length (rows_of instance.now cuts.now) ≤ 1500 }
        ensures { IfOk result (AreRows instance.now cuts.now) }
    {
        let cells = instance.cells.as_slice();
        let mut rows = NodeRows::empty(alloc);
        rows.add_cells(Kind::Need, cells)?;
        rows.add_cells(Kind::Floor, cells)?;
        let ceilings = rows.letters.len();
        rows.add_cells(Kind::Ceiling, cells)?;
        rows.add_row(i64::from(instance.heads_min), Sense::AtLeast)?;
        rows.add_row(i64::from(instance.heads_max), Sense::AtMost)?;
        rows.add_cuts(cuts)?;
        rows.add_bounds(cells, cells.len() as u32, ceilings as u32)?;
        Ok(rows)
    }

    /// Returns the right sides, one for each row.
    pub fn right(&self) -> &[i64]
        ensures length { (i : Day) (cuts : Items PathCut) → AreRows i cuts self.now →
            length result.now ≡ length (rows_of i cuts) }
        ensures value { (i : Day) (cuts : Items PathCut) → AreRows i cuts self.now → (r : ℕ) →
            r < length (rows_of i cuts) → at result.now r ≡ number_at (λ x. pos x.right) (rows_of i cuts) r }
    {
        self.right.as_slice()
    }

    /// Returns what a unit that is missing in a row costs, `artificial` being the cost of an
    /// artificial column; 0 for the slack of a row that asks at most its right side.
    pub fn missing_cost(&self, row: usize, artificial: i64) -> i64
        requires row { (i : Day) × (cuts : Items PathCut) × AreRows i cuts self.now
            × (row < length (rows_of i cuts)) }
        ensures { (i : Day) (cuts : Items PathCut) → AreRows i cuts self.now →
            artificial ≡ pos (artificial_cost i) →
            result ≡ number_at (λ x. pos (missing_cost (artificial_cost i) x.sense)) (rows_of i cuts) row }
    {
        self.senses.as_slice()[row].missing_cost(artificial)
    }

    /// Returns what a unit beyond a row's right side costs; `None` exactly where the row asks at most
    /// its right side.
    pub fn beyond_cost(&self, row: usize) -> Option<i64>
        requires row { (i : Day) × (cuts : Items PathCut) × AreRows i cuts self.now
            × (row < length (rows_of i cuts)) }
        ensures some { (i : Day) (cuts : Items PathCut) → AreRows i cuts self.now →
            IfSome result (λ c. HoldsAt HasBeyond (rows_of i cuts) row
            × (c ≡ number_at (λ x. pos (beyond_cost x.sense)) (rows_of i cuts) row)) }
        ensures none { (i : Day) (cuts : Items PathCut) → AreRows i cuts self.now →
            IfNone result (HoldsAt HasBeyond (rows_of i cuts) row → ⊥) }
    {
        self.senses.as_slice()[row].beyond_cost()
    }

    /// Returns the row of the heads that asks at least the least number of them. The row after it
    /// asks at most the greatest, and the rows of the cuts follow.
    pub fn first_head(&self) -> usize
        ensures { (i : Day) (cuts : Items PathCut) → AreRows i cuts self.now → result ≡ first_head i }
    {
        self.letters.len()
    }

    /// Returns the entries that are not 0 of a tree of the pool in the rows, in the order of the rows.
    ///
    /// # Errors
    ///
    /// `Memory` where memory runs out; nothing is kept then.
    pub fn places_of(
        &self,
        alloc: Global,
        cuts: &[Cut],
        pool: &Pool,
        column: usize,
    ) -> Result<List<Place>, Memory>
        requires column { column < length pool.now }
        ensures { IfOk result (λ places. (i : Day) (t : Parts) (x : PoolTree) → AreRows i cuts.now self.now →
            slice_get pool.now column ≡ Some x → IsPoolTree i.grammar t x →
            IsColumn (length (rows_of i cuts.now)) (number_at (λ r. pos (r.brings t)) (rows_of i cuts.now))
            places) }
    {
        self.put_places(List::new(alloc), cuts, pool, column)
    }

    /// Returns the same entries in the memory of a list, whatever it held.
    ///
    /// # Errors
    ///
    /// `Memory` where memory runs out; nothing is kept then.
    pub fn put_places(
        &self,
        room: List<Place>,
        cuts: &[Cut],
        pool: &Pool,
        column: usize,
    ) -> Result<List<Place>, Memory>
        requires column { column < length pool.now }
        ensures { IfOk result (λ places. (i : Day) (t : Parts) (x : PoolTree) → AreRows i cuts.now self.now →
            slice_get pool.now column ≡ Some x → IsPoolTree i.grammar t x →
            IsColumn (length (rows_of i cuts.now)) (number_at (λ r. pos (r.brings t)) (rows_of i cuts.now))
            places) }
    {
        let mut entries = Entries::over(room);
        entries.add_letters(self.letters.as_slice(), pool.codes(column))?;
        entries.add(true)?;
        entries.add(true)?;
        entries.add_cuts(cuts, pool, column)?;
        Ok(entries.into_places())
    }

    /// Leaves in `out` the price of each cell, which is the sum of the prices of its rows, then those
    /// of the two rows of the heads, and then those of the cuts. Takes no memory.
    ///
    /// There is a price for each row, each within 2^56 in size.
    pub fn gather(&self, y: &[i128], cells: usize, out: &mut [i128])
        requires y { All (λ (z : ℤ). unsigned_abs z ≤ 2 ^ 56) y.now }
        requires out { (i : Day) × (cuts : Items PathCut) × AreRows i cuts self.now × (cells ≡ length i.cells)
            × (length y.now ≡ length (rows_of i cuts)) × (length out.old ≡ cells + 2 + length cuts) }
        ensures { (i : Day) (cuts : Items PathCut) → AreRows i cuts self.now → cells ≡ length i.cells →
            length y.now ≡ length (rows_of i cuts) → length out.old ≡ cells + 2 + length cuts →
            out.new ≡ line_sums (cell_lines i (at y.now))
            ++ at y.now (first_head i) ∷ at y.now (first_head i + 1)
            ∷ numbers_from (at y.now) (first_head i + 2) cuts }
    {
        let first = self.first_head();
        let others = &y[first..];
        let (prices, rest) = out.split_at_mut(cells);
        self.gather_cells(y, prices);
        rest.copy_from_slice(others);
    }

    /// Leaves in `out` the price of each cell.
    fn gather_cells(&self, y: &[i128], out: &mut [i128])
        requires y { All (λ (z : ℤ). unsigned_abs z ≤ 2 ^ 56) y.now }
        requires bounds { All (IsBelow (length y.now)) self.now.bounds }
        requires cells { length self.now.bounds ≤ length y.now }
        requires out { length out.old ≡ length self.now.bounds }
        ensures { out.new ≡ prices_from (at y.now) 0 self.now.bounds }
    {
        for (cell, bounds) in self.bounds.as_slice().iter().enumerate() {
            out[cell] = cell_price(y, cell, bounds);
        }
    }
}

/// Returns the price of a cell, the sum of those of its rows.
fn cell_price(y: &[i128], cell: usize, bounds: &BoundRows) -> i128
    requires y { All (λ (z : ℤ). unsigned_abs z ≤ 2 ^ 56) y.now }
    requires cell { cell < length y.now }
    requires bounds { IsBelow (length y.now) bounds.now }
    ensures { result ≡ at y.now cell +ℤ price_in (at y.now) bounds.now.floor
        +ℤ price_in (at y.now) bounds.now.ceiling }
{
    y[cell] + price_in(y, bounds.floor) + price_in(y, bounds.ceiling)
}

/// Returns the price of a row, 0 where there is none.
fn price_in(y: &[i128], row: Option<u32>) -> i128
    requires row { IfSome row (λ r. r < length y.now) }
    requires y { All (λ (z : ℤ). unsigned_abs z ≤ 2 ^ 56) y.now }
    ensures value { result ≡ price_in (at y.now) row }
    ensures within { unsigned_abs result ≤ 2 ^ 56 }
{
    match row {
        Some(row) => y[row as usize],
        None => 0,
    }
}
