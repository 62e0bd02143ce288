//! Teams of trees.

ghost use Rattle.std.specs.Prelude.{◌<◌, All, IfSome, length};
ghost use Rattle.model_rosters.specs.Folds.{In};
ghost use Rattle.model_rosters.specs.SoundInstance.{IsSoundInstance};
ghost use Rattle.model_rosters.specs.Teams.{teams};
ghost use Rattle.check_parts.specs.roster_part.TeamViews.{team_view};

use check_parts::{Team, team_at, team_count};
use model_rosters::Instance;
use tree_pool::Pool;

/// Returns the number of the team of a tree of the pool.
fn number_of(instance: &Instance, pool: &Pool, column: usize) -> u8
    requires { column < length pool.now }
{
    if instance.groups.is_empty() {
        return 0;
    }
    let own = instance
        .grammar
        .rules
        .len()
        .saturating_sub(instance.groups.len());
    match pool.tree(column).steps.as_slice().first() {
        Some(step) => step.rule.saturating_sub(own.min(255) as u8),
        None => 0,
    }
}

/// Returns how many of the trees are of the team of a number.
pub(crate) fn heads_of(instance: &Instance, pool: &Pool, columns: &[usize], number: u8) -> u32
    requires { All (λ c. c < length pool.now) columns.now }
{
    let mut heads = 0u32;
    for &column in columns {
        if number_of(instance, pool, column) == number {
            heads = heads.saturating_add(1);
        }
    }
    heads
}

/// Returns the team of a tree of the pool.
pub(crate) fn team_of(instance: &Instance, pool: &Pool, column: usize) -> Option<Team>
    requires sound { IsSoundInstance instance.now }
    requires column { column < length pool.now }
    ensures { IfSome result (λ t. In (team_view t) (teams instance.now)) }
{
    let place = (number_of(instance, pool, column) as usize).saturating_sub(1);
    if place < team_count(instance) {
        return Some(team_at(instance, place));
    }
    None
}
