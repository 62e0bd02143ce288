//! Prices of rules and letters.

ghost use Rattle.std.specs.Prelude.{
  ℕ,
  ◌≡◌,
  ◌≤◌,
  ◌<◌,
  ◌+◌,
  ◌*ℤ◌,
  ◌^◌,
  pos,
  All,
  Some,
  length,
  slice_get,
};
ghost use Rattle.model_rosters.specs.Filled.{AreRulePrices, AreLetterPrices, HasPlace, HasSmallCost};
ghost use Rattle.model_rosters.specs.Reduced.{cell_prices};
ghost use Rattle.model_rosters.specs.RoomPrices.{letter_place};
ghost use Rattle.model_rosters.specs.Sums.{Within};

use crate::grammar::Rule;
use crate::instance::Cell;

/// Sets each number to the denominator times the rule's cost.
pub(crate) fn set_rules(numbers: &mut [i128], rules: &[Rule], d: u128)
    requires length { length numbers.old ≡ length rules.now }
    requires small { d ≤ 2 ^ 80 }
    requires costs { All HasSmallCost rules.now }
    ensures value { AreRulePrices d rules.now numbers.new }
    ensures within { All (Within (2 ^ 96)) numbers.new }
{
    for (place, rule) in rules.iter().enumerate() {
        numbers[place] = rule_price(rule, d);
    }
}

/// Returns the denominator times the rule's cost.
fn rule_price(rule: &Rule, d: u128) -> i128
    requires small { d ≤ 2 ^ 80 }
    requires cost { HasSmallCost rule.now }
    ensures value { result ≡ pos d *ℤ pos rule.now.cost }
    ensures within { Within (2 ^ 96) result }
{
    d as i128 * i128::from(rule.cost)
}

/// Sets the number of each letter to what the cells pay for it, negated.
pub(crate) fn set_letters(numbers: &mut [i128], periods: usize, cells: &[Cell], prices: &[i128])
    requires short { periods ≤ 96 }
    requires prices { length prices.now ≡ length cells.now }
    requires few { length cells.now ≤ 65536 }
    requires small { All (Within (2 ^ 80)) prices.now }
    requires places { All (HasPlace periods (length numbers.old)) cells.now }
    ensures value { AreLetterPrices periods (cell_prices cells.now prices.now) numbers.new }
    ensures within { All (Within (2 ^ 96)) numbers.new }
{
    numbers.fill(0);
    for (place, cell) in cells.iter().enumerate() {
        numbers[place_of(cell, periods)] -= prices[place];
    }
}

/// Returns where the number of the cell's letter stands.
fn place_of(cell: &Cell, periods: usize) -> usize
    requires short { periods ≤ 96 }
    requires first { 1 ≤ cell.now.period }
    ensures { result ≡ letter_place periods cell.now.code cell.now.period }
{
    cell.code as usize * periods + (cell.period as usize - 1)
}
