//! The first trees by cost.

ghost use Rattle.std.specs.Prelude.{◌≡◌, ◌≤◌, IfOk, OnOk, length};
ghost use Rattle.model_rosters.specs.Folds.{Each};
ghost use Rattle.model_rosters.specs.Sound.{IsSound};
ghost use Rattle.tree_ranking.specs.Ranking.{IsRankedTree};
ghost use Rattle.tree_questions.specs.Prices.{cost_view};
ghost use Rattle.tree_questions.specs.Ranked.{AddsTree, AddsTrees, IsTreesText, RankedAnswer};

use crate::cost_prices::CostPrices;
use crate::day_answer::DayAnswer;
use crate::word::add_word;
use model_rosters::{Grammar, List, Memory};
use std::alloc::Global;
use text_lines::{field, put, signed_field};
use tree_ranking::{Ranked, rank};

// Appends the line of a tree with its number, from 1.
fn add_tree(
    grammar: &Grammar,
    number: u64,
    ranked: &Ranked,
    out: &mut List<u8>,
) -> Result<(), Memory>
    requires sound { IsSound grammar.now }
    requires tree { IsRankedTree grammar.now (cost_view grammar.now) ranked.now }
    ensures { OnOk result (AddsTree grammar.now number ranked.now out.old out.new) }
{
    put(out, b"tree")?;
    field(out, number)?;
    signed_field(out, &ranked.sum)?;
    out.push(b' ')?;
    add_word(grammar, ranked.tree.as_slice(), out)?;
    out.push(b'\n')?;
    Ok(())
}

// Appends the lines of trees.
fn add_trees(grammar: &Grammar, ranked: &[Ranked], out: &mut List<u8>) -> Result<(), Memory>
    requires sound { IsSound grammar.now }
    requires trees { Each (IsRankedTree grammar.now (cost_view grammar.now)) ranked.now }
    requires few { length ranked.now ≤ 1000 }
    ensures { OnOk result (AddsTrees grammar.now ranked.now out.old out.new) }
{
    for (place, tree) in ranked.iter().enumerate() {
        add_tree(grammar, place as u64 + 1, tree, out)?;
    }
    Ok(())
}

// Returns the text of trees: how many there are, and a line for each.
fn trees_text(alloc: Global, grammar: &Grammar, ranked: &[Ranked]) -> Result<List<u8>, Memory>
    requires sound { IsSound grammar.now }
    requires trees { Each (IsRankedTree grammar.now (cost_view grammar.now)) ranked.now }
    requires few { length ranked.now ≤ 1000 }
    ensures { IfOk result (IsTreesText grammar.now ranked.now) }
{
    let mut out = List::new(alloc);
    put(&mut out, b"trees")?;
    field(&mut out, ranked.len() as u64)?;
    out.push(b'\n')?;
    add_trees(grammar, ranked, &mut out)?;
    Ok(out)
}

/// Answers which trees of the day are the first ones by cost, and with the same cost by their lists of rule
/// uses, at most `most` of them, 1 to 1,000.
///
/// It says `trees COUNT`, and then a line `tree J COST WORD` for each in order. The status is 0, or 1 exactly
/// where the day has no tree. Trees of one word, and trees by different rules, are different trees.
///
/// # Errors
///
/// `Memory` where memory runs out; there is no answer then.
pub fn ranked_answer(alloc: Global, grammar: &Grammar, most: u32) -> Result<DayAnswer, Memory>
    requires sound { IsSound grammar.now }
    requires some { 1 ≤ most }
    requires few { most ≤ 1000 }
    ensures { IfOk result (λ a. RankedAnswer grammar.now most a.status a.output) }
{
    let prices = CostPrices::new(grammar);
    let ranked = rank(alloc, grammar, &prices, most)?;
    let output = trees_text(alloc, grammar, ranked.as_slice())?;
    if ranked.is_empty() {
        return Ok(DayAnswer { status: 1, output });
    }
    Ok(DayAnswer { status: 0, output })
}
