//! Which names derive a word of the day.

ghost use Rattle.std.specs.Prelude.{◌<◌, ◌↔◌, IsTrue, length};
ghost use Rattle.model_rosters.specs.Sound.{IsSound};
ghost use Rattle.model_rosters.specs.Trees.{Parts, IsTreeOf};
ghost use Rattle.tree_span_table.specs.Tables.{IsMadeFor};
ghost use Rattle.check_parts.specs.priced_part.Filled.{IsFilledForAll, TellsDerived};

use model_rosters::Grammar;
use tree_span_table::Table;

/// How many names a grammar has at most.
const MOST_NAMES: usize = 33;

/// Returns whether the name derives no word of the day.
fn is_empty(grammar: &Grammar, table: &Table, name: u8) -> bool
    requires sound { IsSound grammar.now }
    requires made { IsMadeFor grammar.now table.now }
    requires filled { IsFilledForAll grammar.now table.now }
    requires name { name < length grammar.now.names }
    ensures { IsTrue result ↔ ((t : Parts) → IsTreeOf grammar.now name t → ⊥) }
{
    table.value(grammar, name).is_none()
}

/// Returns of each name whether it derives a word of the day. The table is filled for prices under
/// which each tree of the day has a sum.
pub fn derived_names(grammar: &Grammar, table: &Table) -> [bool; MOST_NAMES]
    requires sound { IsSound grammar.now }
    requires made { IsMadeFor grammar.now table.now }
    requires filled { IsFilledForAll grammar.now table.now }
    ensures { TellsDerived grammar.now result }
{
    let mut derives = [false; MOST_NAMES];
    for name in 0..grammar.names.len() {
        derives[name] = !is_empty(grammar, table, name as u8);
    }
    derives
}
