//! The place of each name, suffix and letter.

ghost use Rattle.std.specs.Prelude.{◌≡◌, ◌≤◌, ◌<◌, ◌+◌, ◌-◌, ◌*◌, ◌^◌, length};
ghost use Rattle.model_rosters.specs.Grammar.{InDay};
ghost use Rattle.model_rosters.specs.Sound.{IsSound};
ghost use Rattle.model_rosters.specs.arc_laws.OrNodes.{name as name_node, suffix as suffix_node, leaf as leaf_node};
ghost use Rattle.check_parts.specs.pinned_part.Places.{width, node_count, place_count, span_place, node_place, IsPlaced};

use model_rosters::Grammar;
use tree_span_cells::SpanIndex;

// How many names and suffixes have places on each span.
fn width(grammar: &Grammar) -> usize
    requires { IsSound grammar.now }
    ensures value { result ≡ width grammar.now }
    ensures within { result ≤ 537 }
{
    grammar.names.len() + 7 * grammar.rules.len()
}

/// Returns how many places there are for names and suffixes.
pub fn node_count(grammar: &Grammar) -> usize
    requires { IsSound grammar.now }
    ensures value { result ≡ node_count grammar.now }
    ensures within { result < 2 ^ 40 }
{
    SpanIndex::new(grammar.periods).count() * width(grammar)
}

/// Returns how many places there are in all.
pub fn place_count(grammar: &Grammar) -> usize
    requires { IsSound grammar.now }
    ensures { result ≡ place_count grammar.now }
{
    node_count(grammar) + grammar.codes.len() * 96
}

// The place of the n-th name or suffix on a span.
fn span_place(grammar: &Grammar, start: u8, len: u8, number: usize) -> usize
    requires sound { IsSound grammar.now }
    requires day { InDay grammar.now.periods start len }
    requires number { number < width grammar.now }
    ensures place { result ≡ span_place grammar.now start len number }
    ensures within { result < node_count grammar.now }
{
    SpanIndex::new(grammar.periods).place(start, len) * width(grammar) + number
}

/// Returns the place of a name on a span.
pub fn name_place(grammar: &Grammar, name: u8, start: u8, len: u8) -> usize
    requires sound { IsSound grammar.now }
    requires placed { IsPlaced grammar.now (name_node name start len) }
    ensures place { result ≡ node_place grammar.now (name_node name start len) }
    ensures within { result < node_count grammar.now }
{
    span_place(grammar, start, len, name as usize)
}

/// Returns the place of the suffix of a rule, from its second symbol on, on a span.
pub fn suffix_place(grammar: &Grammar, rule: u8, from: u8, start: u8, len: u8) -> usize
    requires sound { IsSound grammar.now }
    requires placed { IsPlaced grammar.now (suffix_node rule from start len) }
    ensures place { result ≡ node_place grammar.now (suffix_node rule from start len) }
    ensures within { result < node_count grammar.now }
{
    let number = (rule as usize - 1) * 7 + (from as usize - 1);
    span_place(grammar, start, len, grammar.names.len() + number)
}

/// Returns the place of a code in a period.
pub fn letter_place(grammar: &Grammar, code: u8, period: u8) -> usize
    requires sound { IsSound grammar.now }
    requires placed { IsPlaced grammar.now (leaf_node (record { code = code; period = period })) }
    ensures place { result ≡ node_place grammar.now (leaf_node (record { code = code; period = period })) }
    ensures within { result < place_count grammar.now }
{
    node_count(grammar) + (code as usize * 96 + (period as usize - 1))
}
