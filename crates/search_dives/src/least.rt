//! A cheap tree, put into the pool.

ghost use Rattle.std.specs.Prelude.{◌≡◌, ◌<◌, IfOk, IfSome, length};
ghost use Rattle.model_rosters.specs.tree_laws.DaySteps.{AreDaySteps};
ghost use Rattle.tree_short_order.specs.Shorts.{IsShortFor};
ghost use Rattle.tree_pool.specs.Pools.{IsPool};
ghost use Rattle.lp_master_rows.specs.search_day.Days.{IsDay};
ghost use Rattle.lp_master_rows.specs.search_day.Rooms.{Grows};
ghost use Rattle.search_dives.specs.Parts.{CanFill};

use lp_master_rows::Day;
use model_rosters::{LetterPrice, Memory, TreeRoom};
use tree_pool::Pool;
use tree_short_order::ShortOrder;

/// Leaves a cheap tree of the day in the room, and returns about its sum; `None` where none of the short
/// order is found.
pub(crate) fn find_least<P: LetterPrice>(
    day: &Day,
    prices: &P,
    order: &mut ShortOrder,
    room: &mut TreeRoom,
) -> Option<i128>
    requires { CanFill day.now order.old room.old }
    ensures found { IfSome result (λ _. AreDaySteps day.now.instance.now.grammar room.new.steps) }
    ensures order { IsShortFor day.now.graph.now order.new }
    ensures kept { room.new.most ≡ room.old.most }
{
    let Some(least) = order.cheapest(day.graph, prices) else {
        return None;
    };
    order.tree(day.graph, room);
    Some(least)
}

/// Returns the number of the tree in the room, which the pool gets where it lacks it.
///
/// # Errors
///
/// `Memory` where memory runs out; the pool has its trees under their numbers then, and perhaps further trees
/// of the day.
pub(crate) fn pooled(day: &Day, room: &TreeRoom, pool: &mut Pool) -> Result<usize, Memory>
    requires day { IsDay day.now }
    requires steps { AreDaySteps day.now.instance.now.grammar room.now.steps }
    requires pool { IsPool day.now.instance.now.grammar pool.old }
    ensures within { IfOk result (λ c. c < length pool.new) }
    ensures pool { Grows day.now pool.old pool.new }
{
    pool.add(&day.instance.grammar, room.steps())
}
