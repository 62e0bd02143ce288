//! The normal form.

ghost use Rattle.std.specs.Prelude.{IfOk};
ghost use Rattle.model_rosters.specs.Sound.{IsSound};
ghost use Rattle.tree_pool.specs.grammar_core.Items.{IsNormal};

use crate::grammar_core::items::items_of;
use crate::grammar_core::order::order_of;
use model_rosters::{Grammar, List, Memory, Sym};
use std::alloc::Global;

/// What follows the first symbol of an item.
#[derive(Clone, Copy, Debug, PartialEq, Eq, Drop)]
pub enum Second {
    /// Nothing: the rule has one symbol.
    Nothing,
    /// The rule's last symbol.
    One(Sym),
    /// The rule's next suffix, by the position of its item.
    Rest(u16),
}

/// A suffix of a rule's right side as a first symbol and what follows it.
#[derive(Clone, Copy, Debug, PartialEq, Eq, Drop)]
pub struct Item {
    /// The number of the rule, from 1.
    pub rule: u8,
    /// The position in the right side, from 0, at which the suffix begins.
    pub suffix: u8,
    /// The symbol at that position.
    pub first: Sym,
    /// What follows it.
    pub second: Second,
}

/// A grammar in items of at most two parts.
#[derive(Debug, Drop)]
pub struct Normal {
    /// The items in the order of rules and suffixes. A rule of `m` symbols has the suffixes 0 to
    /// `m - 2`, and a rule of one symbol the suffix 0.
    pub items: List<Item>,
    /// Each name once; the right name of a one-symbol rule stands before its left name.
    pub order: List<u8>,
}

/// Returns the normal form of a sound grammar.
///
/// # Errors
///
/// `Memory` where memory runs out.
pub fn normalise(alloc: Global, grammar: &Grammar) -> Result<Normal, Memory>
    requires { IsSound grammar.now }
    ensures { IfOk result (IsNormal grammar.now) }
{
    Ok(Normal {
        items: items_of(alloc, grammar)?,
        order: order_of(alloc, grammar)?,
    })
}
