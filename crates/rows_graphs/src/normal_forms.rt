//! How many items two grammars have, and the arcs of a word (`tree_pool::grammar_core`).

ghost use Rattle.std.specs.Prelude.{◌≡◌};
ghost use Rattle.model_sample_days.specs.RestAndWork.{rest_and_work};

use crate::days::{one_block, three_words};
use model_rosters::{ArcKey, Grammar, Memory, Step, is_sound};
use model_sample_days::tree_of_a_block;
use std::alloc::Global;
use std::test::Fail;
use tree_pool::{items_to_tree, normalise, tree_to_items};

/// Whether the normal form of a grammar has so many items.
fn has_items(alloc: Global, grammar: &Grammar, count: usize) -> Result<bool, Memory> {
    if !is_sound(grammar) {
        return Ok(false);
    }
    let normal = normalise(alloc, grammar)?;
    Ok(normal.items.len() == count)
}

#[test]
fn the_items_of_one_block(rt: HostRuntime) -> Result<(), Memory> {
    let grammar = one_block(rt.alloc())?;
    let has_items = has_items(rt.alloc(), &grammar, 10);
    drop(grammar);
    assert!(rt; has_items?);
    Ok(())
}

#[test]
fn the_items_of_three_words(rt: HostRuntime) -> Result<(), Memory> {
    let grammar = three_words(rt.alloc())?;
    let has_items = has_items(rt.alloc(), &grammar, 6);
    drop(grammar);
    assert!(rt; has_items?);
    Ok(())
}

/// An arc by its rule, its suffix, its start, its length and its part.
type ArcParts = (u8, u8, u8, u8, u8);

/// The arcs of the tree of the word.
static ARCS: [ArcParts; 7] = [
    (4, 0, 1, 4, 1),
    (8, 0, 1, 1, 1),
    (4, 1, 2, 3, 2),
    (5, 0, 2, 2, 2),
    (7, 0, 2, 2, 1),
    (6, 0, 3, 1, 1),
    (8, 0, 4, 1, 1),
];

fn is_arc(arc: &ArcKey, parts: &ArcParts) -> bool {
    let (rule, suffix, start, len, part) = *parts;
    *arc == ArcKey {
        rule,
        suffix,
        start,
        len,
        part,
    }
}

fn are_arcs(arcs: &[ArcKey], parts: &[ArcParts]) -> bool {
    arcs.len() == parts.len()
        && arcs
            .iter()
            .zip(parts)
            .all(|(arc, parts)| is_arc(arc, parts))
}

/// Whether the tree of the word has its arcs, and these have the tree again.
fn has_arcs_of_a_word(alloc: Global, grammar: &Grammar) -> Result<bool, Memory>
    requires { grammar.now ≡ rest_and_work }
{
    if !is_sound(grammar) {
        return Ok(false);
    }
    tree_of_a_block();
    let tree = [
        Step {
            rule: 4,
            start: 1,
            len: 4,
        },
        Step {
            rule: 8,
            start: 1,
            len: 1,
        },
        Step {
            rule: 5,
            start: 2,
            len: 2,
        },
        Step {
            rule: 7,
            start: 2,
            len: 2,
        },
        Step {
            rule: 6,
            start: 3,
            len: 1,
        },
        Step {
            rule: 8,
            start: 4,
            len: 1,
        },
    ];
    let arcs = tree_to_items(alloc, grammar, &tree)?;
    let are_arcs = are_arcs(arcs.as_slice(), &ARCS);
    let back = items_to_tree(alloc, grammar, arcs.as_slice());
    drop(arcs);
    let back = back?;
    let is_back = back.as_slice() == tree.as_slice();
    drop(back);
    Ok(are_arcs && is_back)
}

#[test]
fn the_arcs_of_a_word(rt: HostRuntime) -> Result<(), Fail> {
    let grammar = one_block(rt.alloc())?;
    let has_arcs = has_arcs_of_a_word(rt.alloc(), &grammar);
    drop(grammar);
    assert!(rt; has_arcs?);
    Ok(())
}
