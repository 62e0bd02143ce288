//! Trees that save, or are needed.

use model_rosters::Memory;
use search_hole_passes::{HoleRoster, HoleTree, NEVER, NONE, Part, Passer, Site, Way};
use std::alloc::Global;

/// The team that a further tree is best of.
#[derive(Clone, Copy, Drop)]
struct Choice {
    sum: f64,
    team: usize,
    /// Whether the team has fewer employees than it needs.
    is_needed: bool,
}

impl Choice {
    /// Says whether it may not be taken: it has no tree, or its tree saves nothing and is not needed.
    fn is_idle(self) -> bool {
        self.sum >= NEVER || (self.sum >= 0.0 && !self.is_needed)
    }

    /// Returns the better one of this and a team with a least sum: teams that need one come first.
    fn or(self, other: Choice) -> Choice {
        if other.is_needed != self.is_needed {
            return if other.is_needed { other } else { self };
        }
        if other.sum < self.sum { other } else { self }
    }
}

/// Returns the team that a further tree is best of, after a pass.
fn best_choice(site: Site, part: &Part, passer: &mut Passer, roster: &HoleRoster) -> Choice {
    let mut choice = Choice {
        sum: NONE,
        team: 0,
        is_needed: false,
    };
    for (place, team) in site.graph.teams.as_slice().iter().enumerate() {
        let heads = roster.heads_of(place);
        if heads < team.most {
            choice = choice.or(Choice {
                sum: passer.lead(site.graph, part, place),
                team: place,
                is_needed: heads < team.least,
            });
        }
    }
    choice
}

/// Adds a tree of a part that saves most, of a team that needs one where there is such a team. Says whether
/// it did.
fn grow_one(
    alloc: Global,
    site: Site,
    part: &Part,
    passer: &mut Passer,
    roster: &mut HoleRoster,
) -> Result<bool, Memory> {
    roster.set_gains(site.instance, passer.gains.as_mut_slice());
    passer.pass(site.graph, part);
    let choice = best_choice(site, part, passer, roster);
    if choice.is_idle() {
        return Ok(false);
    }
    let _sum = passer.lead(site.graph, part, choice.team);
    let mut tree = HoleTree::new(alloc);
    passer.write(site.graph, part, Way::Sums, &mut tree)?;
    roster.push(tree)?;
    Ok(true)
}

/// Adds trees of a part that save, or are needed.
///
/// # Errors
///
/// `Memory` where memory runs out.
pub fn grow(
    alloc: Global,
    site: Site,
    part: &Part,
    passer: &mut Passer,
    roster: &mut HoleRoster,
) -> Result<(), Memory> {
    let most = site.instance.heads_max as usize;
    for _ in roster.trees.len()..most {
        if !grow_one(alloc, site, part, passer, roster)? {
            return Ok(());
        }
    }
    Ok(())
}
