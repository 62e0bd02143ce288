//! Whether cells are those of demands.

ghost use Rattle.std.specs.Prelude.{
  ℕ,
  ◌≡◌,
  ◌≢◌,
  ◌≤◌,
  ◌<◌,
  ◌+◌,
  ◌↔◌,
  All,
  IsTrue,
  IfSome,
  MatchOption,
  Some,
  length,
  slice_get,
};
ghost use Rattle.model_rosters.specs.Demands.{IsWork, IsOneDemand, IsCellOf, AreCells};

use crate::grammar::Grammar;
use crate::instance::Cell;

/// Returns whether the cells are those of demands of different work codes, each for all periods in
/// order.
pub(crate) fn are_cells(grammar: &Grammar, cells: &[Cell]) -> bool
    requires { 1 ≤ grammar.now.periods }
    ensures { IsTrue result ↔ AreCells grammar.now cells.now }
{
    let mut rest = cells;
    while !rest.is_empty() {
        match after_demand(grammar, rest) {
            Some(after) => rest = after,
            None => return false,
        }
    }
    true
}

/// Returns the cells after those of the first demand, or none where the first cells are no demand's
/// or its code is demanded again.
fn after_demand<'a>(grammar: &Grammar, cells: &'a [Cell]) -> Option<&'a [Cell]>
    requires periods { 1 ≤ grammar.now.periods }
    requires some { 1 ≤ length cells.now }
    ensures value { MatchOption result
        (AreCells grammar.now cells.now → ⊥)
        (λ after. AreCells grammar.now cells.now ↔ AreCells grammar.now after.now) }
    ensures shorter { IfSome result (λ after. length after.now < length cells.now) }
{
    let periods = grammar.periods as usize;
    if cells.len() < periods {
        return None;
    }
    let (first, rest) = cells.split_at(periods);
    if is_demand(grammar, first) && lack_code(rest, first[0].code) {
        Some(rest)
    } else {
        None
    }
}

/// Returns whether the cells are those of one demand.
fn is_demand(grammar: &Grammar, cells: &[Cell]) -> bool
    requires periods { 1 ≤ grammar.now.periods }
    requires whole { length cells.now ≡ grammar.now.periods }
    requires few { length cells.now < 256 }
    ensures { IsTrue result ↔ IsOneDemand grammar.now cells.now }
{
    let first = &cells[0];
    may_be_demanded(grammar, first) && are_of(cells, first)
}

/// Returns whether the cell's code and what a difference costs may be those of a demand.
fn may_be_demanded(grammar: &Grammar, cell: &Cell) -> bool
    ensures { IsTrue result
        ↔ (IsWork grammar.now cell.now.code × (cell.now.under ≤ 10000) × (cell.now.over ≤ 10000)) }
{
    is_work(grammar, cell.code) && cell.under <= 10_000 && cell.over <= 10_000
}

/// Returns whether no cell has the code.
fn lack_code(cells: &[Cell], code: u8) -> bool
    ensures { IsTrue result ↔ All (λ c. c.code ≢ code) cells.now }
{
    cells.iter().all(|cell| cell.code != code)
}

/// Returns whether the code is one for work.
fn is_work(grammar: &Grammar, code: u8) -> bool
    ensures { IsTrue result ↔ IsWork grammar.now code }
{
    match grammar.codes.as_slice().get(code as usize) {
        Some(def) => def.work,
        None => false,
    }
}

/// Returns whether the cells stand in order of periods from 1, are of one code and cost what the
/// first does, and are within the limits.
fn are_of(cells: &[Cell], first: &Cell) -> bool
    requires { length cells.now < 256 }
    ensures { IsTrue result ↔ ((k : ℕ) (c : Cell) → slice_get cells.now k ≡ Some c
        → IsCellOf first.now.code first.now.under first.now.over (k + 1) c) }
{
    for (place, cell) in cells.iter().enumerate() {
        if !is_cell_of(cell, first, place + 1) {
            return false;
        }
    }
    true
}

/// Says whether a cell is that of a period in a demand with the same code and penalties as the first cell.
fn is_cell_of(cell: &Cell, first: &Cell, period: usize) -> bool
    ensures { IsTrue result
        ↔ IsCellOf first.now.code first.now.under first.now.over period cell.now }
{
    cell.code == first.code
        && cell.under == first.under
        && cell.over == first.over
        && cell.period as usize == period
        && cell.need <= 64
        && cell.floor <= 64
        && cell.ceiling <= 64
}
