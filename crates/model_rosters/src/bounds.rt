//! The greatest cost of a roster, and the rounding loss.

ghost use Rattle.std.specs.Prelude.{◌≡◌, ◌≤◌, ◌*◌, ◌+◌, max, length, All};
ghost use Rattle.model_rosters.specs.Folds.{sum_n};
ghost use Rattle.model_rosters.specs.Room.{most_uses};
ghost use Rattle.model_rosters.specs.GreatestCost.{
  greatest_rule_cost,
  greatest_penalty,
  greatest_cost,
};
ghost use Rattle.model_rosters.specs.Limits.{IsLimitedCell};
ghost use Rattle.model_rosters.specs.RoundingLoss.{rounding_loss};
ghost use Rattle.model_rosters.specs.SoundInstance.{IsSoundInstance};

use crate::grammar::Rule;
use crate::instance::{Cell, Instance};

/// Returns what no roster costs more than: for each employee the greatest number of rule uses of a
/// tree at the greatest rule cost, and for each cell its greatest penalty. It is at most
/// 4,525,440,000.
pub fn greatest_cost(instance: &Instance) -> u64
    requires { IsSoundInstance instance.now }
    ensures value { result ≡ greatest_cost instance.now }
    ensures within { result ≤ 4525440000 }
{
    let grammar = &instance.grammar;
    let uses = (2 * u64::from(grammar.periods) - 1) * grammar.names.len() as u64;
    let rule_cost = u64::from(greatest_rule_cost(grammar.rules.as_slice()));
    u64::from(instance.heads_max) * (uses * rule_cost)
        + greatest_penalties(instance.cells.as_slice(), instance.heads_max)
}

/// Returns the greatest loss of the Lagrangian value where prices are rounded to whole numbers
/// over their denominator, at a path of at most 1,500 cuts. It is below 2^20.
pub fn rounding_loss(instance: &Instance, cuts: u32) -> u64
    requires sound { IsSoundInstance instance.now }
    requires few { cuts ≤ 1500 }
    ensures value { result ≡ rounding_loss instance.now cuts }
    ensures within { result ≤ 247296 }
{
    let terms = u64::from(instance.grammar.periods)
        + 2 * u64::from(cuts)
        + instance.cells.len() as u64;
    u64::from(instance.heads_max) * terms
}

/// Returns the greatest cost of a rule, and 0 where there is none.
fn greatest_rule_cost(rules: &[Rule]) -> u32
    ensures { result ≡ greatest_rule_cost rules.now }
{
    let mut greatest = 0;
    for rule in rules {
        greatest = rule.cost.max(greatest);
    }
    greatest
}

/// Returns the greatest penalty of the cell where at most this many employees work.
fn greatest_penalty(cell: &Cell, most: u32) -> u64
    ensures { result ≡ greatest_penalty most cell.now }
{
    let missing = u64::from(cell.under) * u64::from(cell.need);
    missing.max(u64::from(cell.over) * u64::from(most))
}

/// Returns the sum of the cells' greatest penalties.
fn greatest_penalties(cells: &[Cell], most: u32) -> u64
    requires few { length cells.now ≤ 768 }
    requires limited { All IsLimitedCell cells.now }
    requires heads { most ≤ 64 }
    ensures value { result ≡ sum_n (greatest_penalty most) cells.now }
    ensures within { result ≤ 640000 * length cells.now }
{
    let mut sum = 0;
    for cell in cells {
        sum += greatest_penalty(cell, most);
    }
    sum
}
