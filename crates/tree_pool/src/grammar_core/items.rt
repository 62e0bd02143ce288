//! The items of all rules.

ghost use Rattle.std.specs.Prelude.{◌≡◌, ◌≤◌, ◌<◌, length, IfOk, OnOk};
ghost use Rattle.model_rosters.specs.Sound.{IsSound};
ghost use Rattle.tree_pool.specs.grammar_core.Items.{item_count, AreItems};
ghost use Rattle.tree_pool.specs.grammar_core.Adding.{AddsItems, Continues, IsItemOf};

use crate::grammar_core::normal::{Item, Second};
use model_rosters::{Grammar, List, Memory, Sym, rule_of};
use std::alloc::Global;

// How many items a rule of so many symbols has.
fn count(symbols: usize) -> usize
    requires { 1 ≤ symbols }
    ensures { result ≡ item_count symbols }
{
    if symbols == 1 { 1 } else { symbols - 1 }
}

// What follows the first symbol at a suffix, where the item of the rule's next suffix has the
// position `next`.
fn second(right: &[Sym], suffix: u8, next: u16) -> Second
    requires some { 1 ≤ length right.now }
    requires within { suffix < item_count (length right.now) }
    ensures { Continues right.now suffix next result }
{
    let from = suffix as usize;
    if right.len() == 1 {
        return Second::Nothing;
    }
    if from + 2 == right.len() {
        return Second::One(right[from + 1]);
    }
    Second::Rest(next)
}

// The item of a suffix.
fn item(number: u8, right: &[Sym], suffix: u8, next: u16) -> Item
    requires some { 1 ≤ length right.now }
    requires within { suffix < item_count (length right.now) }
    ensures { IsItemOf number right.now suffix next result }
{
    Item {
        rule: number,
        suffix,
        first: right[suffix as usize],
        second: second(right, suffix, next),
    }
}

// Adds the items of a rule.
fn add_items(items: &mut List<Item>, number: u8, right: &[Sym]) -> Result<(), Memory>
    requires some { 1 ≤ length right.now }
    requires eight { length right.now ≤ 8 }
    requires few { length items.old ≤ 504 }
    ensures { OnOk result (AddsItems number right.now (item_count (length right.now)) items.old items.new) }
{
    for suffix in 0..count(right.len()) {
        let next = items.len() as u16 + 1;
        items.push(item(number, right, suffix as u8, next))?;
    }
    Ok(())
}

/// Returns the items of all rules, in the order of rules and suffixes.
///
/// # Errors
///
/// `Memory` where memory runs out; nothing is kept then.
pub fn items_of(alloc: Global, grammar: &Grammar) -> Result<List<Item>, Memory>
    requires { IsSound grammar.now }
    ensures { IfOk result (AreItems grammar.now) }
{
    let mut items = List::new(alloc);
    for index in 0..grammar.rules.len() {
        let number = index as u8 + 1;
        let rule = rule_of(grammar, number);
        add_items(&mut items, number, rule.right.as_slice())?;
    }
    Ok(items)
}
