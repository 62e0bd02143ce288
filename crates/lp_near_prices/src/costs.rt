//! What the trees and the residuals cost.

ghost use Rattle.std.specs.Prelude.{ℕ, ℤ, ◌≡◌, ◌≤◌, ◌<◌, ◌-◌, ◌*◌, ◌^◌, pos, cond, nat_lt, nat_eq, unsigned_abs, Some, List as Items, All, IfSome, IfNone, length, slice_get};
ghost use Rattle.model_rosters.specs.declared.instance.Cut.{Cut as PathCut};
ghost use Rattle.model_rosters.specs.declared.instance.Instance.{Instance as Day};
ghost use Rattle.model_rosters.specs.declared.grammar.Grammar.{Grammar as Rules};
ghost use Rattle.model_rosters.specs.Arcs.{cost};
ghost use Rattle.model_rosters.specs.Folds.{Each, sum_n};
ghost use Rattle.model_rosters.specs.Limits.{IsSmallCut};
ghost use Rattle.model_rosters.specs.RoundingLoss.{rounding_loss};
ghost use Rattle.model_rosters.specs.SoundInstance.{IsSoundInstance};
ghost use Rattle.model_rosters.specs.Trees.{Parts};
ghost use Rattle.law_bounds.specs.linear_programs.Solution.{Weighted};
ghost use Rattle.law_bounds.specs.BestPrices.{artificial_cost, rounding_denominator};
ghost use Rattle.law_bounds.specs.master_laws.Rows.{Row, rows_of};
ghost use Rattle.lp_master_rows.specs.NodeRows.{AreRows};
ghost use Rattle.law_bounds.specs.near_laws.Completed.{weighted_cost, residual_cost, IsKept};
ghost use Rattle.lp_near_prices.specs.Listed.{IsListed, AreWeightsOf};
ghost use Rattle.lp_near_prices.specs.Shares.{unit, cost_in, has_cost, pick, share, ArePriced};
ghost use Rattle.lp_near_prices.specs.Sums.{AreSums};
ghost use Rattle.tree_pool.specs.Pools.{PoolTree, IsPoolTree};

use crate::listed::ListedTree;
use crate::within::UNIT;
use lp_master_rows::{NodeRows, artificial_price, count_rows};
use model_rosters::{Cut, Instance, rounding_loss};
use tree_pool::Pool;

/// Returns what the listed trees cost.
pub(crate) fn tree_costs(pool: &Pool, listed: &[ListedTree]) -> u128
    requires listed { All (IsListed (length pool.now)) listed.now }
    requires few { length listed.now ≤ 2 ^ 13 }
    ensures value { (i : Day) (ws : Items (Weighted Parts)) → AreWeightsOf i.grammar pool.now listed.now ws →
        result ≡ weighted_cost i ws }
    ensures small { result ≤ 2 ^ 107 }
{
    let mut sum = 0;
    for tree in listed {
        sum += tree_cost(pool, tree);
    }
    sum
}

/// Returns what a listed tree costs.
fn tree_cost(pool: &Pool, tree: &ListedTree) -> u128
    requires listed { IsListed (length pool.now) tree.now }
    ensures value { (g : Rules) (t : Parts) (x : PoolTree) → slice_get pool.now tree.now.column ≡ Some x →
        IsPoolTree g t x → result ≡ tree.now.weight * cost g t }
    ensures small { result ≤ 2 ^ 94 }
{
    u128::from(tree.weight) * u128::from(pool.cost(tree.column))
}

/// Returns what the residual of a row costs, to which trees bring so much; none where more is brought
/// than the right side and there is no column for it.
fn share_of(brought: u128, right: i64, missing: i64, beyond: Option<i64>) -> Option<u128>
    requires brought { brought ≤ 2 ^ 75 }
    requires right { unsigned_abs right ≤ 64 }
    requires missing { unsigned_abs missing ≤ 2 ^ 39 }
    requires beyond { cost_in beyond ≤ 2 ^ 39 }
    ensures value { result ≡ pick (nat_lt (unit * unsigned_abs right) brought) (has_cost beyond)
        ((brought - unit * unsigned_abs right) * cost_in beyond)
        ((unit * unsigned_abs right - brought) * unsigned_abs missing) }
    ensures small { IfSome result (λ c. c ≤ 2 ^ 114) }
{
    let most = u128::from(UNIT) * u128::from(right.unsigned_abs());
    if most < brought {
        return match beyond {
            Some(cost) => Some((brought - most) * u128::from(cost.unsigned_abs())),
            None => None,
        };
    }
    Some((most - brought) * u128::from(missing.unsigned_abs()))
}

/// Returns what the residual of a row costs.
fn row_cost(rows: &NodeRows, row: usize, brought: u128, artificial: i64) -> Option<u128>
    requires row { (i : Day) × (cuts : Items PathCut) × ArePriced i cuts rows.now artificial
        × (row < length (rows_of i cuts)) }
    requires brought { brought ≤ 2 ^ 75 }
    ensures value { (i : Day) (cuts : Items PathCut) (x : Row) → ArePriced i cuts rows.now artificial →
        slice_get (rows_of i cuts) row ≡ Some x → result ≡ share (artificial_cost i) unit x brought }
    ensures small { IfSome result (λ c. c ≤ 2 ^ 114) }
{
    let right = rows.right()[row];
    share_of(
        brought,
        right,
        rows.missing_cost(row, artificial),
        rows.beyond_cost(row),
    )
}

/// Returns what the residuals of all rows cost, to which trees bring these sums; none where some row is
/// exceeded and has no column for it.
pub(crate) fn residual_costs(
    instance: &Instance,
    cuts: &[Cut],
    rows: &NodeRows,
    sums: &[u128],
) -> Option<u128>
    requires cuts { Each IsSmallCut cuts.now }
    requires rows { AreRows instance.now cuts.now rows.now }
    requires count { length sums.now ≡ length (rows_of instance.now cuts.now) }
    requires sums { All (λ s. s ≤ 2 ^ 75) sums.now }
    ensures some { IfSome result (λ c. (ws : Items (Weighted Parts)) →
        AreSums ws (rows_of instance.now cuts.now) sums.now →
        Each (IsKept unit ws) (rows_of instance.now cuts.now)
        × (c ≡ sum_n (residual_cost (artificial_cost instance.now) unit ws)
        (rows_of instance.now cuts.now))) }
    ensures none { IfNone result ((ws : Items (Weighted Parts)) →
        AreSums ws (rows_of instance.now cuts.now) sums.now →
        Each (IsKept unit ws) (rows_of instance.now cuts.now) → ⊥) }
    ensures small { IfSome result (λ c. c ≤ 2 ^ 125) }
{
    let artificial = artificial_price(instance);
    let mut sum = 0;
    for row in 0..count_rows(instance, cuts) {
        match row_cost(rows, row, sums[row], artificial) {
            Some(cost) => sum += cost,
            None => return None,
        }
    }
    Some(sum)
}

/// Returns what rounding to the denominator may have taken off the value.
pub(crate) fn loss_of(instance: &Instance, d: u64, cuts: usize) -> u64
    requires sound { IsSoundInstance instance.now }
    requires few { cuts ≤ 1500 }
    ensures { result ≡ cond (nat_eq d rounding_denominator) (rounding_loss instance.now cuts) 0 }
{
    if d == 1_048_576 {
        rounding_loss(instance, cuts as u32)
    } else {
        0
    }
}
