//! A tree for a cheapest one of its team.

ghost use Rattle.std.specs.Prelude.{◌≡◌, ◌<◌, OnOk, length};
ghost use Rattle.search_moves.specs.Drafts.{IsDraft};
ghost use Rattle.search_moves.specs.Tools.{AreTools, StayTools};

use crate::counts::{count_in, count_out};
use crate::draft::Draft;
use crate::short_pricing::ShortPricing;
use crate::teams::team_of;
use crate::trees::least_column;
use lp_master_rows::Day;
use model_rosters::Memory;
use search_watch::Watch;
use tree_pool::Pool;

/// Puts in place of a tree, which is not counted, a cheapest one of its team.
///
/// # Errors
///
/// `Memory` where memory runs out; nothing is said of the draft then. The short order and the room of prices
/// are still those of the graph and of the instance, and the pool has its trees under their numbers, and
/// perhaps further trees of the day.
pub(crate) fn refill(
    day: &Day,
    place: usize,
    pricing: &mut ShortPricing,
    pool: &mut Pool,
    draft: &mut Draft,
) -> Result<(), Memory>
    requires tools { AreTools day.now pricing.old pool.old draft.old }
    requires place { place < length draft.old.columns.items }
    ensures draft { OnOk result (IsDraft day.now.instance.now (length pool.new) draft.new) }
    ensures length { length draft.new.columns.items ≡ length draft.old.columns.items }
    ensures tools { StayTools day.now pricing.old pricing.new pool.old pool.new }
{
    let column = draft.columns[place];
    let Some(team) = team_of(day.instance, pool, column) else {
        count_in(
            day.instance.cells.as_slice(),
            pool.codes(column),
            &mut draft.counts,
        );
        return Ok(());
    };
    let cells = day.instance.cells.as_slice();
    let least = draft.price(day, pricing);
    let found = least_column(day, pricing, least, &team, &mut draft.room, pool)?;
    let new = found.unwrap_or(column);
    count_in(cells, pool.codes(new), &mut draft.counts);
    draft.columns[place] = new;
    Ok(())
}

/// Puts in place of a tree a cheapest one of its team, the others being as they are.
fn exchange(
    day: &Day,
    place: usize,
    pricing: &mut ShortPricing,
    pool: &mut Pool,
    draft: &mut Draft,
) -> Result<(), Memory>
    requires tools { AreTools day.now pricing.old pool.old draft.old }
    requires place { place < length draft.old.columns.items }
    ensures draft { OnOk result (IsDraft day.now.instance.now (length pool.new) draft.new) }
    ensures length { length draft.new.columns.items ≡ length draft.old.columns.items }
    ensures tools { StayTools day.now pricing.old pricing.new pool.old pool.new }
{
    let column = draft.columns[place];
    count_out(
        day.instance.cells.as_slice(),
        pool.codes(column),
        &mut draft.counts,
    );
    refill(day, place, pricing, pool, draft)
}

/// Exchanges each tree from a place on once, in their order. The watch is asked before each of them; where it
/// is over the others stay as they are.
///
/// # Errors
///
/// `Memory` where memory runs out; nothing is said of the draft then. The short order and the room of prices
/// are still those of the graph and of the instance, and the pool has its trees under their numbers, and
/// perhaps further trees of the day.
pub(crate) fn exchange_from<W: Watch>(
    day: &Day,
    first: usize,
    pricing: &mut ShortPricing,
    pool: &mut Pool,
    draft: &mut Draft,
    watch: &W,
) -> Result<(), Memory>
    requires tools { AreTools day.now pricing.old pool.old draft.old }
    ensures draft { OnOk result (IsDraft day.now.instance.now (length pool.new) draft.new) }
    ensures tools { StayTools day.now pricing.old pricing.new pool.old pool.new }
{
    for place in first..draft.columns.len() {
        if watch.is_over() {
            return Ok(());
        }
        exchange(day, place, pricing, pool, draft)?;
    }
    Ok(())
}
