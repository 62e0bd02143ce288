//! The whole call: a roster completed, and made better.

ghost use Rattle.std.specs.Prelude.{◌<◌, All, IfOk, OnOk, length};
ghost use Rattle.tree_pool.specs.Pools.{IsPool};
ghost use Rattle.lp_master_rows.specs.search_day.Days.{IsDay};
ghost use Rattle.lp_master_rows.specs.search_day.Rooms.{Grows};
ghost use Rattle.search_moves.specs.Drafts.{IsDraft};
ghost use Rattle.search_moves.specs.ShortPricings.{AreShortPricing};
ghost use Rattle.search_moves.specs.Tools.{AreTools, StayTools};

use crate::copying::{copied_all, drafted};
use crate::descending::descend;
use crate::draft::Draft;
use crate::exchanging::exchange_from;
use crate::growing::fill_up;
use crate::guide::Guide;
use crate::short_pricing::ShortPricing;
use lp_master_rows::Day;
use model_rosters::{List, Memory};
use search_watch::Watch;
use std::alloc::Global;
use tree_pool::Pool;

/// Completes a draft, exchanges its trees one by one, and then makes it better by moves.
fn improve<W: Watch>(
    alloc: Global,
    day: &Day,
    guide: &Guide,
    pricing: &mut ShortPricing,
    tried: &mut Pool,
    draft: &mut Draft,
    watch: &W,
) -> Result<(), Memory>
    requires tools { AreTools day.now pricing.old tried.old draft.old }
    ensures draft { OnOk result (IsDraft day.now.instance.now (length tried.new) draft.new) }
    ensures tools { StayTools day.now pricing.old pricing.new tried.old tried.new }
{
    fill_up(day, pricing, tried, draft)?;
    exchange_from(day, 0, pricing, tried, draft, watch)?;
    descend(alloc, day, guide, pricing, tried, draft, watch)
}

/// Improves a draft, and puts its trees into the pool.
fn improve_into<W: Watch>(
    alloc: Global,
    day: &Day,
    guide: &Guide,
    pricing: &mut ShortPricing,
    tried: &mut Pool,
    draft: &mut Draft,
    pool: &mut Pool,
    watch: &W,
) -> Result<List<usize>, Memory>
    requires tools { AreTools day.now pricing.old tried.old draft.old }
    requires pool { IsPool day.now.instance.now.grammar pool.old }
    ensures within { IfOk result (λ found. All (λ c. c < length pool.new) found) }
    ensures pricing { AreShortPricing day.now pricing.new }
    ensures pool { Grows day.now pool.old pool.new }
{
    improve(alloc, day, guide, pricing, tried, draft, watch)?;
    copied_all(alloc, day, tried, draft.columns.as_slice(), pool)
}

/// Completes a roster, exchanges its shifts one by one, and then makes it better by moves.
///
/// The trees stand in the pool, some of them several times. First further trees of the day are added: where a
/// team has fewer than its least number a cheapest one of such a team, and else one that saves, of a team
/// that is not full. Then each tree gives way to a cheapest one of its team. Then there are moves: one to
/// five trees go, and as many come, each a cheapest one of such a team at the prices of the counts, blended
/// with those of the node and with a little noise, and one more where it saves; then each of them gives way
/// to a cheapest one. A move is taken back where the roster costs more by it. Which trees go is drawn by
/// numbers that look like chance. A tree costs what the roster's cost rises by it, where a count outside of
/// its cell's range counts as more than any cost. The roster that comes of it need not be allowed. Of the
/// trees that are tried the pool gets those alone that stand in the roster at the end. Where the watch is
/// over, no further tree is exchanged and no further move made.
///
/// # Errors
///
/// `Memory` where memory runs out; the pool may have further trees.
pub fn complete<W: Watch>(
    alloc: Global,
    day: &Day,
    columns: &[usize],
    guide: &Guide,
    pricing: &mut ShortPricing,
    pool: &mut Pool,
    watch: &W,
) -> Result<List<usize>, Memory>
    requires day { IsDay day.now }
    requires columns { All (λ c. c < length pool.old) columns.now }
    requires pricing { AreShortPricing day.now pricing.old }
    requires pool { IsPool day.now.instance.now.grammar pool.old }
    ensures within { IfOk result (λ found. All (λ c. c < length pool.new) found) }
    ensures pricing { AreShortPricing day.now pricing.new }
    ensures pool { Grows day.now pool.old pool.new }
{
    let mut tried = Pool::new(alloc);
    match drafted(alloc, day, pool, columns, &mut tried) {
        Ok(mut draft) => {
            let found = improve_into(
                alloc, day, guide, pricing, &mut tried, &mut draft, pool, watch,
            );
            drop(draft);
            drop(tried);
            found
        }
        Err(fault) => {
            drop(tried);
            Err(fault)
        }
    }
}
