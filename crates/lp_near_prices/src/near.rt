//! The judgement on near prices: `lp_near_prices`, and its answer.

ghost use Rattle.std.specs.Prelude.{◌≡◌, ◌↔◌, ◌≤◌, ◌^◌, pos, ◌*ℤ◌, ◌+ℤ◌, ◌≤ℤ◌, List as Items, length, All, IfOk, IfSome, IsTrue};
ghost use Rattle.model_rosters.specs.Folds.{Each};
ghost use Rattle.model_rosters.specs.Limits.{IsSmallCut};
ghost use Rattle.model_rosters.specs.PriceLimits.{FitPrices};
ghost use Rattle.model_rosters.specs.SoundInstance.{IsSoundInstance};
ghost use Rattle.model_rosters.specs.Sums.{Within};
ghost use Rattle.model_rosters.specs.Trees.{Parts};
ghost use Rattle.law_bounds.specs.linear_programs.Solution.{Weighted};
ghost use Rattle.law_bounds.specs.BestPrices.{AreBest, loss};
ghost use Rattle.law_bounds.specs.Infeasible.{IsPlainlyInfeasible};
ghost use Rattle.law_bounds.specs.Lagrangian.{IsLeastReduced, lagrangian_sum};
ghost use Rattle.lp_master_rows.specs.NodeRows.{AreRows};
ghost use Rattle.law_bounds.specs.near_laws.Laws.{AreNear};
ghost use Rattle.lp_near_prices.specs.declared.near.Near.TheVariants.{Best as is_best};
ghost use Rattle.lp_near_prices.specs.Listed.{IsListed, AreWeightsOf};
ghost use Rattle.lp_near_prices.specs.Shares.{unit};
ghost use Rattle.tree_pool.specs.Pools.{IsPool};

use crate::costs::{loss_of, residual_costs, tree_costs};
use crate::listed::ListedTree;
use crate::sums::sums_of;
use crate::within::is_within;
use check_parts::lagrangian_sum;
use lp_master_rows::NodeRows;
use model_rosters::{Cut, Instance, Memory, Prices};
use std::alloc::Global;
use tree_pool::Pool;

/// What weighted trees say of prices.
#[derive(Clone, Copy, Debug, PartialEq, Eq, Drop)]
pub enum Near {
    /// The prices are best.
    Best,
    /// The trees do not show it.
    NotShown,
}

/// Says whether a cost in units of 2^-56 is at most the prices' value with the loss.
fn is_near(
    instance: &Instance,
    cuts: &[Cut],
    prices: &Prices,
    least: Option<i128>,
    cost: u128,
) -> bool
    requires sound { IsSoundInstance instance.now }
    requires cuts { Each IsSmallCut cuts.now }
    requires few { length cuts.now ≤ 1500 }
    requires fit { FitPrices instance.now prices.now.d prices.now.cell prices.now.mult cuts.now }
    requires within { IfSome least (Within (2 ^ 110)) }
    ensures { IsTrue result ↔ ((pos cost *ℤ pos prices.now.d)
        ≤ℤ ((lagrangian_sum instance.now prices.now cuts.now least
        +ℤ pos (loss instance.now prices.now cuts.now)) *ℤ pos unit)) }
{
    let cell = prices.cell.as_slice();
    let mult = prices.mult.as_slice();
    let value = lagrangian_sum(instance, prices.d, cell, mult, cuts, least);
    is_within(
        cost,
        prices.d,
        value,
        loss_of(instance, prices.d, cuts.len()),
    )
}

/// Says whether weighted trees show that prices are the best ones at a path of cuts: exactly where no
/// row without a column for what is beyond is exceeded, and the value of the prices is within the loss
/// of the cost of the trees, completed by the rows' own columns.
///
/// Weights are in units of 2^-56.
///
/// # Errors
///
/// `Memory` where memory runs out; there is no answer then.
pub fn near_prices(
    alloc: Global,
    instance: &Instance,
    cuts: &[Cut],
    rows: &NodeRows,
    pool: &Pool,
    listed: &[ListedTree],
    prices: &Prices,
    least: Option<i128>,
) -> Result<Near, Memory>
    requires sound { IsSoundInstance instance.now }
    requires busy { IsPlainlyInfeasible instance.now → ⊥ }
    requires cuts { Each IsSmallCut cuts.now }
    requires rows { AreRows instance.now cuts.now rows.now }
    requires pool { IsPool instance.now.grammar pool.now }
    requires listed { All (IsListed (length pool.now)) listed.now }
    requires few { length listed.now ≤ 2 ^ 13 }
    requires fit { FitPrices instance.now prices.now.d prices.now.cell prices.now.mult cuts.now }
    requires least { IsLeastReduced instance.now prices.now cuts.now least }
    requires within { IfSome least (Within (2 ^ 110)) }
    ensures near { IfOk result (λ n. (ws : Items (Weighted Parts)) →
        AreWeightsOf instance.now.grammar pool.now listed.now ws →
        (n ≡ is_best) ↔ AreNear instance.now cuts.now ws (2 ^ 56) prices.now) }
    ensures best { IfOk result (λ n. n ≡ is_best → AreBest instance.now prices.now cuts.now) }
{
    let sums = sums_of(alloc, instance, cuts, rows, pool, listed)?;
    let Some(residuals) = residual_costs(instance, cuts, rows, sums.as_slice()) else {
        return Ok(Near::NotShown);
    };
    let cost = tree_costs(pool, listed) + residuals;
    if is_near(instance, cuts, prices, least, cost) {
        Ok(Near::Best)
    } else {
        Ok(Near::NotShown)
    }
}
