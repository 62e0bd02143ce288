//! Near ends: prices that weighted trees show to be best.

ghost use Rattle.std.specs.Prelude.{◌^◌, Bool, List as Items, length, IsTrue, IfOk, IfSome};
ghost use Rattle.model_rosters.specs.PriceLimits.{FitPrices};
ghost use Rattle.model_rosters.specs.Sums.{Within};
ghost use Rattle.model_rosters.specs.Trees.{Parts};
ghost use Rattle.law_bounds.specs.linear_programs.Solution.{Weighted};
ghost use Rattle.law_bounds.specs.BestPrices.{AreBest};
ghost use Rattle.law_bounds.specs.Lagrangian.{IsLeastReduced};
ghost use Rattle.tree_cheapest.specs.Pricers.{IsMadeFor};
ghost use Rattle.law_bounds.specs.near_laws.Laws.{AreNear};
ghost use Rattle.lp_near_prices.specs.Listed.{AreWeightsOf};
ghost use Rattle.lp_master_rows.specs.search_day.Days.{IsDay};
ghost use Rattle.search_masters.specs.Ends.{FitNode};
ghost use Rattle.search_masters.specs.Listed.{MayBeListed};
ghost use Rattle.search_masters.specs.Tasks.{MaySolve, EndsCounted};

use crate::ends::NodeEnd;
use crate::listed::{may_be_listed, weights_of};
use crate::rounding::near_rounded;
use lp_master_rows::{Day, NodeTask};
use lp_near_prices::{ListedTree, Near, NearHint, near_prices};
use model_rosters::{Cut, Memory, PriceRoom, Prices};
use std::alloc::Global;
use tree_cheapest::Pricer;
use tree_pool::Pool;

/// Returns the least reduced cost of a tree of the day.
fn least_reduced(
    alloc: Global,
    day: &Day,
    cuts: &[Cut],
    prices: &Prices,
    pricer: &mut Pricer,
) -> Result<Option<i128>, Memory>
    requires day { IsDay day.now }
    requires pricer { IsMadeFor day.now.graph.now pricer.old }
    requires fit { FitPrices day.now.instance.now prices.now.d prices.now.cell prices.now.mult cuts.now }
    ensures least { IfOk result (IsLeastReduced day.now.instance.now prices.now cuts.now) }
    ensures within { IfOk result (λ least. IfSome least (Within (2 ^ 110))) }
    ensures pricer { IsMadeFor day.now.graph.now pricer.new }
{
    let mult = prices.mult.as_slice();
    let mut room = PriceRoom::for_cuts(alloc, day.instance, mult.len())?;
    room.set_parts(day.instance, prices.d, prices.cell.as_slice(), mult, cuts);
    let least = pricer.cheapest(day.graph, &room);
    Ok(least)
}

/// Says whether listed trees show that prices are best.
fn show_best(
    alloc: Global,
    task: &NodeTask,
    listed: &[ListedTree],
    prices: &Prices,
    pool: &Pool,
    pricer: &mut Pricer,
) -> Result<bool, Memory>
    requires may { MaySolve task.now pricer.old pool.now }
    requires listed { MayBeListed (length pool.now) listed.now }
    requires fit { FitNode task.now.day.instance.now task.now.cuts.now prices.now }
    ensures best { IfOk result (λ b. IsTrue b →
        AreBest task.now.day.instance.now prices.now task.now.cuts.now) }
    ensures near { IfOk result (λ b. IsTrue b → (ws : Items (Weighted Parts)) →
        AreWeightsOf task.now.day.instance.now.grammar pool.now listed.now ws →
        AreNear task.now.day.instance.now task.now.cuts.now ws (2 ^ 56) prices.now) }
    ensures pricer { IsMadeFor task.now.day.graph.now pricer.new }
{
    let (instance, cuts) = (task.day.instance, task.cuts);
    let least = least_reduced(alloc, &task.day, cuts, prices, pricer)?;
    let rows = task.rows;
    match near_prices(alloc, instance, cuts, rows, pool, listed, prices, least)? {
        Near::Best => Ok(true),
        Near::NotShown => Ok(false),
    }
}

/// Returns the end of a node's master whose prices and weights are those of a hint, rounded, where the
/// weights show the prices to be best. Any numbers are lawful.
///
/// # Errors
///
/// `Memory` where memory runs out; the pricer is still one for the graph then.
pub(crate) fn near_end(
    alloc: Global,
    task: &NodeTask,
    hint: &NearHint,
    pool: &Pool,
    pricer: &mut Pricer,
) -> Result<Option<NodeEnd>, Memory>
    requires { MaySolve task.now pricer.old pool.now }
    ensures end { IfOk result (λ some. IfSome some (λ end. (calm : Bool) →
        EndsCounted task.now pool.now calm end)) }
    ensures pricer { IsMadeFor task.now.day.graph.now pricer.new }
{
    let listed = hint.listed.as_slice();
    if !may_be_listed(listed, pool.len()) {
        return Ok(None);
    }
    let Some(prices) = near_rounded(alloc, task, hint.y.as_slice())? else {
        return Ok(None);
    };
    let is_shown = show_best(alloc, task, listed, &prices, pool, pricer)?;
    if !is_shown {
        return Ok(None);
    }
    let weights = weights_of(alloc, listed)?;
    Ok(Some(NodeEnd::Near { prices, weights }))
}
