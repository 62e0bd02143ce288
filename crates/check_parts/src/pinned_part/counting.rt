//! An arc, counted at its places.

ghost use Rattle.std.specs.Prelude.{ℕ, ◌≡◌, ◌≤◌, ◌<◌, ◌+ℤ◌, ◌-ℤ◌, ◌^◌, pos, IfSome, length, map, slice_index_or, slice_set};
ghost use Rattle.model_rosters.specs.Grammar.{InDay};
ghost use Rattle.model_rosters.specs.Sound.{IsSound, Exists};
ghost use Rattle.model_rosters.specs.arc_laws.OrNodes.{made, symbol_node, used};
ghost use Rattle.tree_span_arcs.specs.Shapes.{IsSplit};
ghost use Rattle.check_parts.specs.pinned_part.Places.{node_place, place_count};
ghost use Rattle.check_parts.specs.pinned_part.Net.{IsCounted, size_at, one_or_two};

use crate::pinned_part::places::{letter_place, name_place, suffix_place};
use model_rosters::{ArcKey, Grammar, Sym, rule_of};

// The place of the node that an arc makes.
fn made_place(grammar: &Grammar, arc: &ArcKey) -> usize
    requires sound { IsSound grammar.now }
    requires shaped { IsSplit grammar.now arc.now }
    ensures place { result ≡ node_place grammar.now (made grammar.now arc.now) }
    ensures within { result < place_count grammar.now }
{
    if arc.suffix == 0 {
        let rule = rule_of(grammar, arc.rule);
        name_place(grammar, rule.left, arc.start, arc.len)
    } else {
        suffix_place(grammar, arc.rule, arc.suffix, arc.start, arc.len)
    }
}

// The place of a symbol on a span, that of a code at the span's first period.
fn symbol_place(grammar: &Grammar, symbol: Sym, start: u8, len: u8) -> usize
    requires sound { IsSound grammar.now }
    requires exists { Exists (length grammar.now.codes) (length grammar.now.names) symbol }
    requires day { InDay grammar.now.periods start len }
    ensures place { result ≡ node_place grammar.now (symbol_node symbol start len) }
    ensures within { result < place_count grammar.now }
{
    match symbol {
        Sym::Code(code) => letter_place(grammar, code, start),
        Sym::Name(name) => name_place(grammar, name, start, len),
    }
}

// The places of the nodes that an arc uses.
#[derive(Clone, Copy, Drop)]
struct Uses {
    // That of its first part.
    first: usize,
    // That of what follows the first part, if anything does.
    rest: Option<usize>,
}

// The places of the nodes that an arc uses.
fn used_places(grammar: &Grammar, arc: &ArcKey) -> Uses
    requires sound { IsSound grammar.now }
    requires shaped { IsSplit grammar.now arc.now }
    ensures places { map (node_place grammar.now) (used grammar.now arc.now) ≡ one_or_two result.first
        result.rest }
    ensures first { result.first < place_count grammar.now }
    ensures rest { IfSome result.rest (λ p. p < place_count grammar.now) }
{
    let right = rule_of(grammar, arc.rule).right.as_slice();
    let from = arc.suffix as usize;
    let first = symbol_place(grammar, right[from], arc.start, arc.part);
    if from + 1 == right.len() {
        return Uses { first, rest: None };
    }
    let start = arc.start + arc.part;
    let len = arc.len - arc.part;
    let rest = if from + 2 == right.len() {
        symbol_place(grammar, right[from + 1], start, len)
    } else {
        suffix_place(grammar, arc.rule, arc.suffix + 1, start, len)
    };
    Uses {
        first,
        rest: Some(rest),
    }
}

// Adds a count to the number at a place.
fn add(nodes: &mut [i64], place: usize, count: u32)
    requires place { place < length nodes.old }
    requires room { size_at nodes.old place ≤ 2 ^ 60 }
    ensures { nodes.new ≡ slice_set nodes.old place (slice_index_or nodes.old place (pos 0) +ℤ pos count) }
{
    nodes[place] += i64::from(count);
}

// Takes a count away from the number at a place.
fn take(nodes: &mut [i64], place: usize, count: u32)
    requires place { place < length nodes.old }
    requires room { size_at nodes.old place ≤ 2 ^ 60 }
    ensures { nodes.new ≡ slice_set nodes.old place (slice_index_or nodes.old place (pos 0) -ℤ pos count) }
{
    nodes[place] -= i64::from(count);
}

/// Adds an arc's count at the place of the node that it makes, and takes it away at the places of
/// those that it uses.
pub fn count_arc(grammar: &Grammar, nodes: &mut [i64], arc: &ArcKey, count: u32)
    requires sound { IsSound grammar.now }
    requires shaped { IsSplit grammar.now arc.now }
    requires length { length nodes.old ≡ place_count grammar.now }
    requires count { count ≤ 64 }
    requires room { (p : ℕ) → p < length nodes.old → size_at nodes.old p ≤ 2 ^ 50 }
    ensures { IsCounted grammar.now arc.now count nodes.old nodes.new }
{
    let uses = used_places(grammar, arc);
    add(nodes, made_place(grammar, arc), count);
    take(nodes, uses.first, count);
    if let Some(rest) = uses.rest {
        take(nodes, rest, count);
    }
}
