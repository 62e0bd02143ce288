//! Teams and their names.

ghost use Rattle.std.specs.Prelude.{◌≡◌, ◌<◌, Some, length, slice_get};
ghost use Rattle.model_rosters.specs.SoundInstance.{IsSoundInstance};
ghost use Rattle.model_rosters.specs.Teams.{teams};
ghost use Rattle.check_certificates.specs.Sound.{IsGroupNumber};
ghost use Rattle.check_parts.specs.roster_part.TeamViews.{team_view, IsTeamName};

use model_rosters::Instance;

/// Employees whose words one name derives.
#[derive(Clone, Copy, Drop)]
pub struct Team {
    /// The number of the group, or 0 on a day without groups.
    pub number: u8,
    /// The position of the name in the grammar's `names`.
    pub name: u8,
    /// The least number of employees.
    pub least: u32,
    /// The greatest number of employees.
    pub most: u32,
}

/// Returns how many teams there are.
pub fn team_count(instance: &Instance) -> usize
    requires { IsSoundInstance instance.now }
    ensures { result ≡ length (teams instance.now) }
{
    instance.groups.len().max(1)
}

/// Returns the team at a place, from 0.
pub fn team_at(instance: &Instance, place: usize) -> Team
    requires sound { IsSoundInstance instance.now }
    requires place { place < length (teams instance.now) }
    ensures { slice_get (teams instance.now) place ≡ Some (team_view result) }
{
    match instance.groups.as_slice().get(place) {
        Some(group) => Team {
            number: place as u8 + 1,
            name: group.name,
            least: group.heads_min,
            most: group.heads_max,
        },
        None => Team {
            number: 0,
            name: instance.grammar.start,
            least: instance.heads_min,
            most: instance.heads_max,
        },
    }
}

/// Returns the name of the team of a number.
pub(crate) fn team_name(instance: &Instance, number: u8) -> u8
    requires sound { IsSoundInstance instance.now }
    requires number { IsGroupNumber instance.now.groups number }
    ensures value { IsTeamName instance.now number result }
    ensures within { result < length instance.now.grammar.names }
{
    match (number as usize).checked_sub(1) {
        Some(place) => instance.groups.as_slice()[place].name,
        None => instance.grammar.start,
    }
}
