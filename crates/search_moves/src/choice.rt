//! Whose turn it is.

ghost use Rattle.std.specs.Prelude.{ℕ, ◌≡◌, ◌<◌, All, IfSome, length};
ghost use Rattle.model_rosters.specs.Folds.{In};
ghost use Rattle.model_rosters.specs.Teams.{teams};
ghost use Rattle.check_parts.specs.roster_part.TeamViews.{team_view};
ghost use Rattle.search_moves.specs.ShortPricings.{IsShortDay};

use crate::short_pricing::ShortPricing;
use crate::teams::heads_of;
use crate::trees::team_sum;
use check_parts::{Team, team_at, team_count};
use lp_master_rows::Day;
use tree_pool::Pool;

/// One more employee of a team.
#[derive(Clone, Copy, Drop)]
struct Choice {
    /// The place of the team.
    place: usize,
    /// Whether the team has fewer than its least number.
    is_needed: bool,
    /// What the employee costs.
    sum: i128,
}

/// Says whether a choice comes before another: needed ones first, and then by what they cost.
fn comes_before(choice: &Choice, other: &Choice) -> bool {
    if choice.is_needed != other.is_needed {
        return choice.is_needed;
    }
    choice.sum < other.sum
}

/// Returns the choice that comes first.
fn first_of(best: Option<Choice>, other: Option<Choice>) -> Option<Choice>
    ensures { (n : ℕ) → IfSome best (λ c. c.place < n) → IfSome other (λ c. c.place < n)
        → IfSome result (λ c. c.place < n) }
{
    let Some(old) = best else {
        return other;
    };
    let Some(new) = other else {
        return best;
    };
    if comes_before(&new, &old) {
        return other;
    }
    best
}

/// Returns the choice of the team at a place, where it has so many employees and least sum; `None` where it
/// is full, has no tree, or has enough employees and would not save by one more.
fn choice_of(place: usize, team: &Team, heads: u32, sum: Option<i128>) -> Option<Choice>
    ensures { IfSome result (λ c. c.place ≡ place) }
{
    if heads >= team.most {
        return None;
    }
    let sum = sum?;
    let is_needed = heads < team.least;
    if !is_needed && sum >= 0 {
        return None;
    }
    Some(Choice {
        place,
        is_needed,
        sum,
    })
}

/// Returns the choice that comes first of all teams.
fn best_choice(
    day: &Day,
    pricing: &ShortPricing,
    least: Option<i128>,
    pool: &Pool,
    columns: &[usize],
) -> Option<Choice>
    requires priced { IsShortDay day.now pricing.now.short }
    requires columns { All (λ c. c < length pool.now) columns.now }
    ensures { IfSome result (λ c. c.place < length (teams day.now.instance.now)) }
{
    let mut best = None;
    for place in 0..team_count(day.instance) {
        let team = team_at(day.instance, place);
        let heads = heads_of(day.instance, pool, columns, team.number);
        let sum = team_sum(day, pricing, least, &team);
        best = first_of(best, choice_of(place, &team, heads, sum));
    }
    best
}

/// Returns the team that is to have one more employee: of those below their least numbers, and else of
/// those that save by it, the one with the least sum. `None` where there is none.
pub(crate) fn next_team(
    day: &Day,
    pricing: &ShortPricing,
    least: Option<i128>,
    pool: &Pool,
    columns: &[usize],
) -> Option<Team>
    requires priced { IsShortDay day.now pricing.now.short }
    requires columns { All (λ c. c < length pool.now) columns.now }
    ensures { IfSome result (λ t. In (team_view t) (teams day.now.instance.now)) }
{
    let choice = best_choice(day, pricing, least, pool, columns)?;
    Some(team_at(day.instance, choice.place))
}
