//! From steps to arcs.

ghost use Rattle.std.specs.Prelude.{◌≡◌, ◌++◌, IfOk, OnOk};
ghost use Rattle.model_rosters.specs.Arcs.{arcs as arcs_of, parts_arcs};
ghost use Rattle.model_rosters.specs.Sound.{IsSound};
ghost use Rattle.model_rosters.specs.Trees.{steps as steps_of};
ghost use Rattle.tree_pool.specs.grammar_core.Lists.{AreSteps, AreArcsOf};
ghost use Rattle.tree_pool.specs.grammar_core.Walks.{next_len as len_of_next, own_arcs, AsksTree, AsksParts, TurnsTree, TurnsParts};

use crate::grammar_core::cursor::Cursor;
use crate::grammar_core::suffix::{Suffix, has_arc};
use model_rosters::{ArcKey, Grammar, List, Memory, Rule, Step, Sym, rule_of};
use std::alloc::Global;

/// Returns the arcs of a tree in preorder from its steps: an arc, then the arcs of its first part,
/// then those of the parts that follow.
///
/// # Errors
///
/// `Memory` where memory runs out.
pub fn tree_to_items(
    alloc: Global,
    grammar: &Grammar,
    tree: &[Step],
) -> Result<List<ArcKey>, Memory>
    requires sound { IsSound grammar.now }
    requires tree { AreSteps grammar.now tree.now }
    ensures { IfOk result (AreArcsOf grammar.now tree.now) }
{
    let mut steps = Cursor::new(tree);
    let mut arcs = List::new(alloc);
    let Some(root) = steps.next() else {
        unreachable!();
    };
    let rule = rule_of(grammar, root.rule);
    add_parts(grammar, rule, Suffix::of(root), &mut steps, &mut arcs)?;
    Ok(arcs)
}

// Adds the arcs of the tree of a symbol, whose steps come next.
#[cycle(to_items)]
fn add_tree(
    grammar: &Grammar,
    symbol: Sym,
    steps: &mut Cursor<Step>,
    arcs: &mut List<ArcKey>,
) -> Result<(), Memory>
    requires { AsksTree grammar.now symbol steps_of steps.old }
    ensures { OnOk result (TurnsTree grammar.now symbol steps_of arcs_of steps.old arcs.old steps.new
        arcs.new) }
{
    let Sym::Name(_) = symbol else {
        return Ok(());
    };
    let Some(step) = steps.next() else {
        unreachable!();
    };
    let rule = rule_of(grammar, step.rule);
    add_parts(grammar, rule, Suffix::of(step), steps, arcs)
}

// Adds the arcs of the parts of a suffix, whose steps come next.
#[cycle(to_items)]
fn add_parts(
    grammar: &Grammar,
    rule: &Rule,
    suffix: Suffix,
    steps: &mut Cursor<Step>,
    arcs: &mut List<ArcKey>,
) -> Result<(), Memory>
    requires { AsksParts grammar.now rule.now suffix (steps_of suffix.start) steps.old }
    ensures { OnOk result (TurnsParts grammar.now rule.now suffix (steps_of suffix.start)
        (parts_arcs suffix.rule suffix.from suffix.start) steps.old arcs.old steps.new arcs.new) }
{
    let right = rule.right.as_slice();
    let from = suffix.from as usize;
    if from == right.len() {
        return Ok(());
    }
    let symbol = right[from];
    let part = next_len(symbol, steps);
    add_arc(arcs, suffix.arc(part), right.len())?;
    add_tree(grammar, symbol, steps, arcs)?;
    add_parts(grammar, rule, suffix.after(part), steps, arcs)
}

// How many periods the tree of a symbol covers, whose steps come next.
fn next_len(symbol: Sym, steps: &Cursor<Step>) -> u8
    ensures { result ≡ len_of_next symbol steps.now }
{
    if let Sym::Code(_) = symbol {
        return 1;
    }
    match steps.peek() {
        Some(step) => step.len,
        None => 0,
    }
}

// Adds the arc of a part of so many symbols, if it has one.
fn add_arc(arcs: &mut List<ArcKey>, arc: ArcKey, symbols: usize) -> Result<(), Memory>
    ensures { OnOk result (arcs.new ≡ arcs.old ++ own_arcs symbols arc) }
{
    if has_arc(arc.suffix as usize, symbols) {
        arcs.push(arc)?;
    }
    Ok(())
}
