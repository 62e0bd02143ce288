//! Cheapest trees of teams.

ghost use Rattle.std.specs.Prelude.{◌≡◌, ◌≢◌, ◌<◌, [], IsTrue, IfOk, IfSome, length};
ghost use Rattle.model_rosters.specs.Folds.{In};
ghost use Rattle.model_rosters.specs.Room.{most_uses};
ghost use Rattle.model_rosters.specs.Teams.{teams};
ghost use Rattle.check_parts.specs.roster_part.TeamViews.{team_view};
ghost use Rattle.model_rosters.specs.tree_laws.DaySteps.{AreDaySteps};
ghost use Rattle.tree_pool.specs.Pools.{IsPool};
ghost use Rattle.lp_master_rows.specs.search_day.Rooms.{Grows};
ghost use Rattle.search_moves.specs.ShortPricings.{IsShortDay, IsShortPriced};

use crate::short_pricing::ShortPricing;
use check_parts::Team;
use lp_master_rows::Day;
use model_rosters::{Memory, TreeRoom};
use search_candidates::team_arc;
use tree_pool::Pool;

/// Returns the least sum over the trees of a team that is a group.
fn group_sum(day: &Day, pricing: &ShortPricing, team: &Team) -> Option<i128>
    requires priced { IsShortDay day.now pricing.now.short }
    requires team { In (team_view team.now) (teams day.now.instance.now) }
{
    let arc = day.graph.find(&team_arc(day.instance, team))?;
    pricing.short.sum_under(day.graph, &pricing.room, arc)
}

/// Returns the least sum over the trees of a team. Over all trees of the day it is `least`.
pub(crate) fn team_sum(
    day: &Day,
    pricing: &ShortPricing,
    least: Option<i128>,
    team: &Team,
) -> Option<i128>
    requires priced { IsShortDay day.now pricing.now.short }
    requires team { In (team_view team.now) (teams day.now.instance.now) }
{
    if day.instance.groups.is_empty() {
        return least;
    }
    group_sum(day, pricing, team)
}

/// Leaves in the room the steps of a tree of least sum of a team that is a group, where it has a sum.
fn write_group_tree(day: &Day, pricing: &ShortPricing, team: &Team, room: &mut TreeRoom) -> bool
    requires priced { IsShortDay day.now pricing.now.short }
    requires groups { day.now.instance.now.groups ≢ [] }
    requires team { In (team_view team.now) (teams day.now.instance.now) }
    requires room { room.old.most ≡ most_uses day.now.instance.now.grammar }
    ensures yes { IsTrue result → AreDaySteps day.now.instance.now.grammar room.new.steps }
    ensures kept { room.new.most ≡ room.old.most }
{
    let Some(arc) = day.graph.find(&team_arc(day.instance, team)) else {
        return false;
    };
    let short = &pricing.short;
    if short.sum_under(day.graph, &pricing.room, arc).is_none() {
        return false;
    }
    short.tree_under(day.graph, arc, room);
    true
}

/// Leaves in the room the steps of a tree of least sum of a team, and says whether it has one. Over all
/// trees of the day the least sum is `least`.
fn write_tree(
    day: &Day,
    pricing: &ShortPricing,
    least: Option<i128>,
    team: &Team,
    room: &mut TreeRoom,
) -> bool
    requires priced { IsShortPriced day.now pricing.now.short least }
    requires team { In (team_view team.now) (teams day.now.instance.now) }
    requires room { room.old.most ≡ most_uses day.now.instance.now.grammar }
    ensures yes { IsTrue result → AreDaySteps day.now.instance.now.grammar room.new.steps }
    ensures kept { room.new.most ≡ room.old.most }
{
    if !day.instance.groups.is_empty() {
        return write_group_tree(day, pricing, team, room);
    }
    if least.is_none() {
        return false;
    }
    pricing.short.tree(day.graph, room);
    true
}

/// Returns the number of a tree of least sum of a team, which is added to the pool where it is not there;
/// `None` where the team has none.
///
/// # Errors
///
/// `Memory` where memory runs out; the pool has its trees under their numbers then, and perhaps further trees
/// of the day.
pub(crate) fn least_column(
    day: &Day,
    pricing: &ShortPricing,
    least: Option<i128>,
    team: &Team,
    room: &mut TreeRoom,
    pool: &mut Pool,
) -> Result<Option<usize>, Memory>
    requires priced { IsShortPriced day.now pricing.now.short least }
    requires team { In (team_view team.now) (teams day.now.instance.now) }
    requires room { room.old.most ≡ most_uses day.now.instance.now.grammar }
    requires pool { IsPool day.now.instance.now.grammar pool.old }
    ensures within { IfOk result (λ found. IfSome found (λ c. c < length pool.new)) }
    ensures kept { room.new.most ≡ room.old.most }
    ensures pool { Grows day.now pool.old pool.new }
{
    if !write_tree(day, pricing, least, team, room) {
        return Ok(None);
    }
    let column = pool.add(&day.instance.grammar, room.steps())?;
    Ok(Some(column))
}
