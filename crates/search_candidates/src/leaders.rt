//! A cheapest tree of each team, as often as it needs employees.

ghost use Rattle.std.specs.Prelude.{◌≡◌, ◌++◌, IfOk, OnOk};
ghost use Rattle.model_rosters.specs.Folds.{In};
ghost use Rattle.model_rosters.specs.Room.{most_uses};
ghost use Rattle.model_rosters.specs.Teams.{teams};
ghost use Rattle.check_parts.specs.roster_part.TeamViews.{team_view};
ghost use Rattle.tree_pool.specs.Pools.{IsPool};
ghost use Rattle.lp_master_rows.specs.search_day.Rooms.{Grows};
ghost use Rattle.search_candidates.specs.Leaders.{AddsTeam, FindsLeaders, numbers_like};
ghost use Rattle.search_candidates.specs.Priced.{IsPricedByCosts};

use crate::lead::lead;
use check_parts::{Team, team_at, team_count};
use lp_master_rows::{Day, Pricing};
use model_rosters::{List, Memory, TreeRoom};
use std::alloc::Global;
use tree_pool::Pool;

// Adds a number so often. After want of memory it may stand there less often.
fn push_copies(columns: &mut List<usize>, column: usize, count: u32) -> Result<(), Memory>
    ensures { OnOk result (columns.new ≡ columns.old ++ numbers_like count column) }
{
    for _ in 0..count {
        columns.push(column)?;
    }
    Ok(())
}

// Adds a cheapest tree of a team as often as it needs employees; false where it has none and needs some.
fn add_team(
    day: &Day,
    pricing: &Pricing,
    team: &Team,
    room: &mut TreeRoom,
    pool: &mut Pool,
    columns: &mut List<usize>,
) -> Result<bool, Memory>
    requires priced { IsPricedByCosts day.now pricing.now }
    requires team { In (team_view team.now) (teams day.now.instance.now) }
    requires room { room.old.most ≡ most_uses day.now.instance.now.grammar }
    requires pool { IsPool day.now.instance.now.grammar pool.old }
    ensures added { IfOk result (AddsTeam day.now.instance.now (team_view team.now) pool.old pool.new
        columns.old columns.new) }
    ensures kept { room.new.most ≡ room.old.most }
    ensures pool { Grows day.now pool.old pool.new }
{
    if team.least == 0 {
        return Ok(true);
    }
    if !lead(day, pricing, team, room) {
        return Ok(false);
    }
    let column = pool.add(&day.instance.grammar, room.steps())?;
    push_copies(columns, column, team.least)?;
    Ok(true)
}

/// Returns for each team the number of a cheapest tree, as often as it needs employees. `None` where
/// a team that needs some has no tree. The pricer is filled for the costs.
///
/// # Errors
///
/// `Memory` where memory runs out; the pool has its trees under their numbers then, and perhaps further trees
/// of the day.
pub fn leaders(
    alloc: Global,
    day: &Day,
    pricing: &Pricing,
    pool: &mut Pool,
) -> Result<Option<List<usize>>, Memory>
    requires priced { IsPricedByCosts day.now pricing.now }
    requires pool { IsPool day.now.instance.now.grammar pool.old }
    ensures found { IfOk result (FindsLeaders day.now.instance.now pool.new) }
    ensures pool { Grows day.now pool.old pool.new }
{
    let mut room = TreeRoom::for_grammar(alloc, &day.instance.grammar)?;
    let mut columns = List::new(alloc);
    for place in 0..team_count(day.instance) {
        let team = team_at(day.instance, place);
        if !add_team(day, pricing, &team, &mut room, pool, &mut columns)? {
            return Ok(None);
        }
    }
    Ok(Some(columns))
}
