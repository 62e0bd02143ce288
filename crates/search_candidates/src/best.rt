//! The best roster so far: `limit` and `offer`.

ghost use Rattle.std.specs.Prelude.{◌≡◌, ◌≤◌, IfSome};
ghost use Rattle.model_rosters.specs.SoundInstance.{IsSoundInstance};
ghost use Rattle.search_candidates.specs.Rosters.{IsGoodRoster};
ghost use Rattle.search_candidates.specs.Offers.{limit_of, IsBetter};

use crate::Roster;
use model_rosters::{Instance, greatest_cost};

/// Returns the cost of the best roster; where there is none, one more than the greatest cost of the day.
pub fn limit(instance: &Instance, best: &Option<Roster>) -> u64
    requires { IsSoundInstance instance.now }
    ensures { result ≡ limit_of instance.now best.now }
{
    match best {
        Some(roster) => roster.cost,
        None => greatest_cost(instance) + 1,
    }
}

/// Takes a roster as the best one where it costs less.
pub fn offer(instance: &Instance, best: &mut Option<Roster>, found: Option<Roster>)
    requires sound { IsSoundInstance instance.now }
    requires best { IfSome best.old (IsGoodRoster instance.now) }
    requires good { IfSome found (IsGoodRoster instance.now) }
    ensures better { IsBetter instance.now best.old best.new }
    ensures least { limit_of instance.now best.new ≤ limit_of instance.now found }
{
    match found {
        Some(roster) => {
            if roster.cost < limit(instance, best) {
                *best = Some(roster);
            }
        }
        None => {}
    }
}
