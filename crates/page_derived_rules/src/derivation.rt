//! A tree of least sum by a table, and its text.

ghost use Rattle.std.specs.Prelude.{◌≡◌, IfOk, length};
ghost use Rattle.page_derived_rules.specs.RuledTrees.{SaysWithRules};
ghost use Rattle.model_rosters.specs.Shifts.{IsPrice};
ghost use Rattle.model_rosters.specs.Sound.{IsSound};
ghost use Rattle.model_rosters.specs.word_prices.Prices.{word_view};
ghost use Rattle.tree_span_table.specs.Tables.{IsFilled, IsMadeFor};

use crate::text::ruled_text;
use model_rosters::{Grammar, List, Memory, TreeRoom, WordPrices};
use std::alloc::Global;
use tree_span_table::Table;

// Says the price of a word, and the tree of least sum that a filled table has for it, with its rules.
fn tree_with_rules(
    alloc: Global,
    prices: &WordPrices<'_>,
    table: &Table,
    price: u64,
) -> Result<List<u8>, Memory>
    requires sound { IsSound prices.now.grammar.now }
    requires made { IsMadeFor prices.now.grammar.now table.now }
    requires filled { IsFilled prices.now.grammar.now (word_view prices.now.grammar.now prices.now.word.now)
        table.now }
    requires length { length prices.now.word.now ≡ prices.now.grammar.now.periods }
    requires price { IsPrice prices.now.grammar.now prices.now.grammar.now.start prices.now.word.now price }
    ensures { IfOk result (SaysWithRules prices.now.grammar.now prices.now.word.now price) }
{
    let grammar = prices.grammar;
    let mut room = TreeRoom::for_grammar(alloc, grammar)?;
    table.tree(grammar, prices, &mut room);
    ruled_text(alloc, grammar, prices.word, price, room.steps())
}

// Says how the rules derive a word of this price, by a table.
fn derivation_by(alloc: Global, prices: &WordPrices<'_>, price: u64) -> Result<List<u8>, Memory>
    requires sound { IsSound prices.now.grammar.now }
    requires length { length prices.now.word.now ≡ prices.now.grammar.now.periods }
    requires price { IsPrice prices.now.grammar.now prices.now.grammar.now.start prices.now.word.now price }
    ensures { IfOk result (SaysWithRules prices.now.grammar.now prices.now.word.now price) }
{
    let grammar = prices.grammar;
    let mut table = Table::for_instance(alloc, grammar)?;
    table.least(grammar, prices);
    tree_with_rules(alloc, prices, &table, price)
}

/// Says how the rules of a sound grammar derive a word of this price: what `explain` says of the word, and
/// behind each `use` line the line of its rule, as the rules text has it.
///
/// # Errors
///
/// `Memory` where memory runs out; there is no text then.
pub fn derivation_with_rules(
    alloc: Global,
    grammar: &Grammar,
    word: &[u8],
    price: u64,
) -> Result<List<u8>, Memory>
    requires sound { IsSound grammar.now }
    requires price { IsPrice grammar.now grammar.now.start word.now price }
    ensures { IfOk result (SaysWithRules grammar.now word.now price) }
{
    let prices = WordPrices::new(grammar, word);
    derivation_by(alloc, &prices, price)
}
