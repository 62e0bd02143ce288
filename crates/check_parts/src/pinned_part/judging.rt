//! Whether the numbers at the places balance, and the count of the root.

ghost use Rattle.std.specs.Prelude.{◌≡◌, ◌≢◌, ◌≤◌, ◌<◌, ◌↔◌, IsTrue, MatchOption, length};
ghost use Rattle.model_rosters.specs.Sound.{IsSound};
ghost use Rattle.model_rosters.specs.arc_laws.OrNodes.{root_of};
ghost use Rattle.check_parts.specs.pinned_part.Places.{node_place, place_count};
ghost use Rattle.check_parts.specs.pinned_part.Net.{AreZero, IsWithinHeads, size_at};

use crate::pinned_part::places::{name_place, node_count};
use model_rosters::{Grammar, Instance};

/// Returns the place of the start name on the whole day.
pub fn root_place(grammar: &Grammar) -> usize
    requires { IsSound grammar.now }
    ensures place { result ≡ node_place grammar.now (root_of grammar.now) }
    ensures within { result < place_count grammar.now }
{
    name_place(grammar, grammar.start, 1, grammar.periods)
}

/// Returns the size of the number at a place.
pub fn size_at(nodes: &[i64], place: usize) -> u64
    requires { place < length nodes.now }
    ensures { result ≡ size_at nodes.now place }
{
    nodes[place].unsigned_abs()
}

/// Returns whether the count of the root is in the range of the heads.
pub fn are_heads(instance: &Instance, nodes: &[i64]) -> bool
    requires sound { IsSound instance.now.grammar }
    requires length { length nodes.now ≡ place_count instance.now.grammar }
    ensures { IsTrue result ↔ IsWithinHeads instance.now nodes.now }
{
    let heads = size_at(nodes, root_place(&instance.grammar));
    u64::from(instance.heads_min) <= heads && heads <= u64::from(instance.heads_max)
}

/// Returns whether each name and suffix but the root is balanced.
pub fn are_zero(grammar: &Grammar, nodes: &[i64]) -> bool
    requires sound { IsSound grammar.now }
    requires length { length nodes.now ≡ place_count grammar.now }
    ensures { IsTrue result ↔ AreZero grammar.now nodes.now }
{
    let root = root_place(grammar);
    for place in 0..node_count(grammar) {
        if place != root && nodes[place] != 0 {
            return false;
        }
    }
    true
}
