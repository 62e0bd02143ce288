//! The arc of a team's rule, and a cheapest tree of a team.

ghost use Rattle.std.specs.Prelude.{◌≡◌, ◌≢◌, ◌+◌, []};
ghost use Rattle.model_rosters.specs.Cuts.{group_arc as arc_of_rule};
ghost use Rattle.model_rosters.specs.Folds.{In};
ghost use Rattle.model_rosters.specs.Room.{most_uses};
ghost use Rattle.model_rosters.specs.SoundInstance.{IsSoundInstance};
ghost use Rattle.model_rosters.specs.Teams.{teams};
ghost use Rattle.law_bounds.specs.DutyTrees.{own_rules};
ghost use Rattle.check_parts.specs.roster_part.TeamViews.{team_view};
ghost use Rattle.search_candidates.specs.Leaders.{TellsLeader};
ghost use Rattle.search_candidates.specs.Priced.{IsPricedByCosts};

use check_parts::Team;
use lp_master_rows::{Day, Pricing};
use model_rosters::{ArcKey, Instance, TreeRoom, group_arc};

/// Returns the arc by which the rule of a team that is a group stands on the whole day.
pub fn team_arc(instance: &Instance, team: &Team) -> ArcKey
    requires sound { IsSoundInstance instance.now }
    requires team { In (team_view team.now) (teams instance.now) }
    ensures { result ≡ arc_of_rule instance.now.grammar.periods (own_rules instance.now + team.now.number) }
{
    let own = instance.grammar.rules.len() - instance.groups.len();
    let rule = (own + team.number as usize) as u8;
    group_arc(instance.grammar.periods, rule)
}

// Leaves in the room the steps of a cheapest tree of a team that is a group.
fn lead_group(day: &Day, pricing: &Pricing, team: &Team, room: &mut TreeRoom) -> bool
    requires priced { IsPricedByCosts day.now pricing.now }
    requires team { In (team_view team.now) (teams day.now.instance.now) }
    requires groups { day.now.instance.now.groups ≢ [] }
    requires room { room.old.most ≡ most_uses day.now.instance.now.grammar }
    ensures leads { TellsLeader day.now.instance.now (team_view team.now) room.new result }
    ensures kept { room.new.most ≡ room.old.most }
{
    let Some(arc) = day.graph.find(&team_arc(day.instance, team)) else {
        return false;
    };
    let pricer = &pricing.pricer;
    if pricer.sum_under(day.graph, &pricing.room, arc).is_none() {
        return false;
    }
    pricer.tree_under(day.graph, &pricing.room, arc, room);
    true
}

/// Leaves in the room the steps of a cheapest tree of the day of a team, and says whether it has one.
/// The pricer is filled for the costs.
pub fn lead(day: &Day, pricing: &Pricing, team: &Team, room: &mut TreeRoom) -> bool
    requires priced { IsPricedByCosts day.now pricing.now }
    requires team { In (team_view team.now) (teams day.now.instance.now) }
    requires room { room.old.most ≡ most_uses day.now.instance.now.grammar }
    ensures leads { TellsLeader day.now.instance.now (team_view team.now) room.new result }
    ensures kept { room.new.most ≡ room.old.most }
{
    if !day.instance.groups.is_empty() {
        return lead_group(day, pricing, team, room);
    }
    if day.graph.root().is_none() {
        return false;
    }
    pricing.pricer.tree(day.graph, &pricing.room, room);
    true
}
