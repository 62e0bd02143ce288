//! Each tree for a cheapest one.

use model_rosters::Memory;
use search_hole_passes::{HoleRoster, HoleTree, NEVER, NONE, Part, Passer, Site, Way};
use std::alloc::Global;

/// Says whether a team has as many as it needs.
fn may_lose(site: Site, team: usize, roster: &HoleRoster) -> bool {
    match site.graph.teams.as_slice().get(team) {
        Some(own) => roster.heads_of(team) >= own.least,
        None => false,
    }
}

/// Returns the team of which a tree in place of one of a team is cheapest, after a pass; `None` where there
/// is none.
fn cheapest_team(
    site: Site,
    old: usize,
    part: &Part,
    passer: &mut Passer,
    roster: &HoleRoster,
) -> Option<usize> {
    let may_change = may_lose(site, old, roster);
    let mut least = NONE;
    let mut chosen = old;
    for (place, team) in site.graph.teams.as_slice().iter().enumerate() {
        if place == old || (may_change && roster.heads_of(place) < team.most) {
            let sum = passer.lead(site.graph, part, place);
            if sum < least {
                least = sum;
                chosen = place;
            }
        }
    }
    if least < NEVER { Some(chosen) } else { None }
}

/// Returns a cheapest tree in place of one of a team; `None` where there is none.
fn other_tree(
    alloc: Global,
    site: Site,
    old: usize,
    part: &Part,
    passer: &mut Passer,
    roster: &HoleRoster,
) -> Result<Option<HoleTree>, Memory> {
    roster.set_gains(site.instance, passer.gains.as_mut_slice());
    passer.pass(site.graph, part);
    let Some(team) = cheapest_team(site, old, part, passer, roster) else {
        return Ok(None);
    };
    let _sum = passer.lead(site.graph, part, team);
    let mut tree = HoleTree::new(alloc);
    passer.write(site.graph, part, Way::Sums, &mut tree)?;
    Ok(Some(tree))
}

/// Exchanges the tree at a place for a cheapest one.
fn exchange_one(
    alloc: Global,
    site: Site,
    place: usize,
    part: &Part,
    passer: &mut Passer,
    roster: &mut HoleRoster,
) -> Result<(), Memory> {
    let Some(old) = roster.take(place) else {
        return Ok(());
    };
    match other_tree(alloc, site, old.team, part, passer, roster)? {
        Some(tree) => {
            drop(old);
            roster.put(place, tree)
        }
        None => roster.put(place, old),
    }
}

/// Exchanges the trees from a place on one by one, each for a cheapest one.
///
/// # Errors
///
/// `Memory` where memory runs out.
pub fn exchange(
    alloc: Global,
    site: Site,
    first: usize,
    part: &Part,
    passer: &mut Passer,
    roster: &mut HoleRoster,
) -> Result<(), Memory> {
    for place in first..roster.trees.len() {
        exchange_one(alloc, site, place, part, passer, roster)?;
    }
    Ok(())
}
