//! From arcs to steps.

ghost use Rattle.std.specs.Prelude.{◌≡◌, ◌∷◌, List as Items, true, false, IfOk, OnOk};
ghost use Rattle.model_rosters.specs.declared.grammar.ArcKey.{ArcKey as Key};
ghost use Rattle.model_rosters.specs.Arcs.{arcs as arcs_of, parts_arcs};
ghost use Rattle.model_rosters.specs.Sound.{IsSound};
ghost use Rattle.model_rosters.specs.Trees.{steps as steps_of};
ghost use Rattle.tree_pool.specs.grammar_core.Lists.{AreArcs, AreStepsOf};
ghost use Rattle.tree_pool.specs.grammar_core.Walks.{has_arc as has_own_arc, AsksTree, AsksParts, TurnsTree, TurnsParts};

use crate::grammar_core::cursor::Cursor;
use crate::grammar_core::suffix::{Suffix, has_arc};
use model_rosters::{ArcKey, Grammar, List, Memory, Rule, Step, Sym, Tree, rule_of};
use std::alloc::Global;

/// Returns the steps of a tree in preorder from its arcs, as `tree_to_items` gives them.
///
/// # Errors
///
/// `Memory` where memory runs out.
pub fn items_to_tree(alloc: Global, grammar: &Grammar, arcs: &[ArcKey]) -> Result<Tree, Memory>
    requires sound { IsSound grammar.now }
    requires arcs { AreArcs grammar.now arcs.now }
    ensures { IfOk result (AreStepsOf grammar.now arcs.now) }
{
    let mut arcs = Cursor::new(arcs);
    let mut tree = List::new(alloc);
    let Some(root) = arcs.peek() else {
        unreachable!();
    };
    let step = whole_step(root);
    tree.push(step)?;
    let rule = rule_of(grammar, step.rule);
    add_parts(grammar, rule, Suffix::of(step), &mut arcs, &mut tree)?;
    Ok(tree)
}

// The rule use that has this arc as its first.
fn whole_step(arc: ArcKey) -> Step
    ensures { result ≡ record { rule = arc.rule; start = arc.start; len = arc.len } }
{
    Step {
        rule: arc.rule,
        start: arc.start,
        len: arc.len,
    }
}

// Adds the steps of the tree of a symbol, whose arcs come next.
#[cycle(to_tree)]
fn add_tree(
    grammar: &Grammar,
    symbol: Sym,
    arcs: &mut Cursor<ArcKey>,
    tree: &mut Tree,
) -> Result<(), Memory>
    requires { AsksTree grammar.now symbol arcs_of arcs.old }
    ensures { OnOk result (TurnsTree grammar.now symbol arcs_of steps_of arcs.old tree.old arcs.new
        tree.new) }
{
    let Sym::Name(_) = symbol else {
        return Ok(());
    };
    let Some(first) = arcs.peek() else {
        unreachable!();
    };
    let step = whole_step(first);
    tree.push(step)?;
    let rule = rule_of(grammar, step.rule);
    add_parts(grammar, rule, Suffix::of(step), arcs, tree)
}

// Adds the steps of the parts of a suffix, whose arcs come next.
#[cycle(to_tree)]
fn add_parts(
    grammar: &Grammar,
    rule: &Rule,
    suffix: Suffix,
    arcs: &mut Cursor<ArcKey>,
    tree: &mut Tree,
) -> Result<(), Memory>
    requires { AsksParts grammar.now rule.now suffix (parts_arcs suffix.rule suffix.from suffix.start)
        arcs.old }
    ensures { OnOk result (TurnsParts grammar.now rule.now suffix
        (parts_arcs suffix.rule suffix.from suffix.start) (steps_of suffix.start) arcs.old tree.old arcs.new
        tree.new) }
{
    let right = rule.right.as_slice();
    let from = suffix.from as usize;
    if from == right.len() {
        return Ok(());
    }
    let symbol = right[from];
    let part = take_part(suffix, right.len(), arcs);
    add_tree(grammar, symbol, arcs, tree)?;
    add_parts(grammar, rule, suffix.after(part), arcs, tree)
}

// Takes the arc of the first part of a suffix of so many symbols, if it has one, and returns how many
// periods that part covers.
fn take_part(suffix: Suffix, symbols: usize, arcs: &mut Cursor<ArcKey>) -> u8
    ensures own { has_own_arc suffix.from symbols ≡ true → (key : Key) (rest : Items Key)
        → arcs.old ≡ key ∷ rest
        → (result ≡ key.part) × (arcs.new ≡ rest) }
    ensures none { has_own_arc suffix.from symbols ≡ false → (result ≡ suffix.len) × (arcs.new ≡ arcs.old) }
{
    if !has_arc(suffix.from as usize, symbols) {
        return suffix.len;
    }
    match arcs.next() {
        Some(arc) => arc.part,
        None => 0,
    }
}
