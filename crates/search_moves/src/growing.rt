//! One more tree for a team.

ghost use Rattle.std.specs.Prelude.{OnOk, length};
ghost use Rattle.tree_pool.specs.Pools.{IsPool};
ghost use Rattle.lp_master_rows.specs.search_day.Rooms.{Grows};
ghost use Rattle.search_moves.specs.Drafts.{IsDraft};
ghost use Rattle.search_moves.specs.ShortPricings.{IsShortPriced};
ghost use Rattle.search_moves.specs.Tools.{AreTools, StayTools};

use crate::blending::Blend;
use crate::choice::next_team;
use crate::draft::Draft;
use crate::short_pricing::ShortPricing;
use crate::trees::least_column;
use lp_master_rows::Day;
use model_rosters::Memory;
use tree_pool::Pool;

/// Adds a cheapest tree of the team that is to have one more employee, at the prices for which the short
/// order is filled; false where there is no such team. Over all trees of the day the least sum is `least`.
fn add_cheapest(
    day: &Day,
    pricing: &ShortPricing,
    least: Option<i128>,
    pool: &mut Pool,
    draft: &mut Draft,
) -> Result<bool, Memory>
    requires priced { IsShortPriced day.now pricing.now.short least }
    requires pool { IsPool day.now.instance.now.grammar pool.old }
    requires draft { IsDraft day.now.instance.now (length pool.old) draft.old }
    ensures draft { OnOk result (IsDraft day.now.instance.now (length pool.new) draft.new) }
    ensures pool { Grows day.now pool.old pool.new }
{
    let Some(team) = next_team(day, pricing, least, pool, &draft.columns) else {
        return Ok(false);
    };
    let Some(column) = least_column(day, pricing, least, &team, &mut draft.room, pool)? else {
        return Ok(false);
    };
    draft.push(day.instance, pool, column)?;
    Ok(true)
}

/// Adds a cheapest tree of the team that is to have one more employee; false where there is no such team.
///
/// # Errors
///
/// `Memory` where memory runs out; nothing is said of the draft then. The short order and the room of prices
/// are still those of the graph and of the instance, and the pool has its trees under their numbers, and
/// perhaps further trees of the day.
pub(crate) fn grow(
    day: &Day,
    pricing: &mut ShortPricing,
    pool: &mut Pool,
    draft: &mut Draft,
) -> Result<bool, Memory>
    requires tools { AreTools day.now pricing.old pool.old draft.old }
    ensures draft { OnOk result (IsDraft day.now.instance.now (length pool.new) draft.new) }
    ensures tools { StayTools day.now pricing.old pricing.new pool.old pool.new }
{
    let least = draft.price(day, pricing);
    add_cheapest(day, pricing, least, pool, draft)
}

/// Adds a cheapest tree of the team that is to have one more employee, where the node's prices are these,
/// blended; false where there is no such team.
///
/// # Errors
///
/// `Memory` where memory runs out; nothing is said of the draft then. The short order and the room of prices
/// are still those of the graph and of the instance, and the pool has its trees under their numbers, and
/// perhaps further trees of the day.
pub(crate) fn grow_blended(
    day: &Day,
    worths: &[i64],
    blend: Blend,
    pricing: &mut ShortPricing,
    pool: &mut Pool,
    draft: &mut Draft,
) -> Result<bool, Memory>
    requires tools { AreTools day.now pricing.old pool.old draft.old }
    ensures draft { OnOk result (IsDraft day.now.instance.now (length pool.new) draft.new) }
    ensures tools { StayTools day.now pricing.old pricing.new pool.old pool.new }
{
    let least = draft.price_blended(day, worths, blend, pricing);
    add_cheapest(day, pricing, least, pool, draft)
}

/// Adds trees, each a cheapest one of the team that is to have one more employee, while there is such a team.
///
/// # Errors
///
/// `Memory` where memory runs out; nothing is said of the draft then. The short order and the room of prices
/// are still those of the graph and of the instance, and the pool has its trees under their numbers, and
/// perhaps further trees of the day.
pub(crate) fn fill_up(
    day: &Day,
    pricing: &mut ShortPricing,
    pool: &mut Pool,
    draft: &mut Draft,
) -> Result<(), Memory>
    requires tools { AreTools day.now pricing.old pool.old draft.old }
    ensures draft { OnOk result (IsDraft day.now.instance.now (length pool.new) draft.new) }
    ensures tools { StayTools day.now pricing.old pricing.new pool.old pool.new }
{
    for _ in 0..day.instance.heads_max {
        if !grow(day, pricing, pool, draft)? {
            return Ok(());
        }
    }
    Ok(())
}
