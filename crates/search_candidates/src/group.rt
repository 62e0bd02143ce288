//! The team of a tree.

ghost use Rattle.std.specs.Prelude.{◌≡◌};
ghost use Rattle.model_rosters.specs.SoundInstance.{IsSoundInstance};
ghost use Rattle.model_rosters.specs.Trees.{Parts, IsDayTree, steps};
ghost use Rattle.model_rosters.specs.tree_laws.DaySteps.{AreDaySteps};
ghost use Rattle.search_candidates.specs.Spelled.{IsOfNumber};

use model_rosters::{Instance, Step};

/// Returns the number of the team of a tree of the day: 0 without groups, and else that of the group
/// whose rule comes first.
pub fn group_of(instance: &Instance, uses: &[Step]) -> u8
    requires sound { IsSoundInstance instance.now }
    requires uses { AreDaySteps instance.now.grammar uses.now }
    ensures { (t : Parts) → IsDayTree instance.now.grammar t → uses.now ≡ steps 1 t
        → IsOfNumber instance.now t result }
{
    if instance.groups.is_empty() {
        return 0;
    }
    let own = instance.grammar.rules.len() - instance.groups.len();
    (uses[0].rule as usize - own) as u8
}
