//! Lengths that spans can have.

ghost use Rattle.std.specs.Prelude.{ℕ, ◌≡◌, ◌≤◌, ◌<◌, ◌+◌, ◌↔◌, Some, IsTrue, IfOk, length, drop, slice_get, slice_index_or, [], ◌∷◌};
ghost use Rattle.model_rosters.specs.declared.grammar.Grammar.{Grammar as Rules};
ghost use Rattle.model_rosters.specs.Grammar.{IsInWindow};
ghost use Rattle.model_rosters.specs.Sound.{IsSound};
ghost use Rattle.tree_span_cells.specs.declared.slot.Slot.{Slot as Use};
ghost use Rattle.tree_span_cells.specs.Building.{IsSlotOf};
ghost use Rattle.tree_span_cells.specs.Lengths.{IsAmong, Hold, HoldNames, HoldRule, HoldSlot, AreLengths, NamesWithin};

use crate::slot::Slot;
use model_rosters::{Grammar, Memory, Rule, Sym, Window, rule_of};
use std::alloc::Global;

/// Lengths that spans can have, from the least to the greatest.
#[derive(Clone, Copy, Drop)]
pub struct Lengths {
    /// The least length.
    pub least: u8,
    /// The greatest length.
    pub most: u8,
}

// How often the lengths of names are narrowed. One round is enough where each rule leads to names that
// appear later alone; lengths that more rounds would narrow are wide, and still hold.
const ROUNDS: u8 = 4;

impl Lengths {
    /// Returns all lengths of spans of a day.
    pub fn all() -> Lengths
        ensures { (l : ℕ) → l ≤ 96 → IsAmong result l }
    {
        Lengths { least: 0, most: 96 }
    }

    /// Returns no lengths.
    pub fn none() -> Lengths {
        Lengths { least: 96, most: 0 }
    }

    /// Returns whether a length is among these.
    pub fn holds(self, len: u8) -> bool
        ensures { IsTrue result ↔ IsAmong self len }
    {
        self.least <= len && len <= self.most
    }

    /// Returns the lengths that two spans side by side have together.
    pub fn then(self, other: Lengths) -> Lengths
        ensures { (l m : ℕ) → l + m ≤ 96 → IsAmong self l → IsAmong other m → IsAmong result (l + m) }
    {
        Lengths {
            least: self.least.saturating_add(other.least),
            most: self.most.saturating_add(other.most),
        }
    }

    /// Returns these lengths as far as a window has them.
    pub fn within(self, window: Window) -> Lengths
        ensures { (l : ℕ) → IsAmong self l → IsInWindow window l → IsAmong result l }
    {
        Lengths {
            least: self.least.max(window.lo),
            most: self.most.min(window.hi),
        }
    }

    /// Returns these lengths and others, and those between.
    pub fn or(self, other: Lengths) -> Lengths
        ensures left { (l : ℕ) → IsAmong self l → IsAmong result l }
        ensures right { (l : ℕ) → IsAmong other l → IsAmong result l }
    {
        Lengths {
            least: self.least.min(other.least),
            most: self.most.max(other.most),
        }
    }
}

// The lengths of a symbol's trees, from those of names.
fn symbol_lengths(names: &[Lengths], symbol: Sym) -> Lengths
    requires { (x : ℕ) → symbol ≡ Sym.Name x → x < length names.now }
    ensures { (g : Rules) → HoldNames g names.now → Hold g (symbol ∷ []) result }
{
    match symbol {
        Sym::Code(_) => Lengths { least: 1, most: 1 },
        Sym::Name(name) => names[name as usize],
    }
}

// The lengths of what the symbols of a right side from one on derive, from those of names.
fn suffix_lengths(names: &[Lengths], right: &[Sym], from: usize) -> Lengths
    requires names { NamesWithin right.now (length names.now) }
    requires from { from ≤ length right.now }
    ensures { (g : Rules) → HoldNames g names.now → Hold g (drop from right.now) result }
{
    let mut lengths = Lengths { least: 0, most: 0 };
    for place in (from..right.len()).rev() {
        lengths = symbol_lengths(names, right[place]).then(lengths);
    }
    lengths
}

// The lengths of the spans on which a rule stands if it is one of the name, none if it is not.
fn rule_lengths(names: &[Lengths], rule: &Rule, name: u8) -> Lengths
    requires names { NamesWithin rule.now.right (length names.now) }
    ensures { (g : Rules) → HoldNames g names.now → rule.now.left ≡ name → HoldRule g rule.now result }
{
    if rule.left != name {
        return Lengths::none();
    }
    suffix_lengths(names, rule.right.as_slice(), 0).within(rule.span)
}

// The lengths of the trees of a name, from those of all names.
fn name_lengths(grammar: &Grammar, names: &[Lengths], name: u8) -> Lengths
    requires sound { IsSound grammar.now }
    requires names { length names.now ≡ length grammar.now.names }
    ensures { HoldNames grammar.now names.now → Hold grammar.now (Sym.Name name ∷ []) result }
{
    let mut lengths = Lengths::none();
    for index in 0..grammar.rules.len() {
        let rule = rule_of(grammar, index as u8 + 1);
        lengths = lengths.or(rule_lengths(names, rule, name));
    }
    lengths
}

// Narrows the lengths of all names, the last one first.
fn narrow(grammar: &Grammar, names: &mut [Lengths])
    requires sound { IsSound grammar.now }
    requires names { length names.old ≡ length grammar.now.names }
    requires hold { HoldNames grammar.now names.old }
    ensures names { length names.new ≡ length grammar.now.names }
    ensures hold { HoldNames grammar.now names.new }
{
    for name in (0..names.len()).rev() {
        names[name] = name_lengths(grammar, names, name as u8);
    }
}

// Returns the lengths of the trees of each name.
fn all_names(alloc: Global, grammar: &Grammar) -> Result<Vec<Lengths>, Memory>
    requires { IsSound grammar.now }
    ensures count { IfOk result (λ v. length v.items ≡ length grammar.now.names) }
    ensures hold { IfOk result (λ v. HoldNames grammar.now v.items) }
{
    let mut names = vec![in alloc; Lengths::all(); grammar.names.len()]?;
    for _ in 0..ROUNDS {
        narrow(grammar, names.as_mut_slice());
    }
    Ok(names)
}

// Returns the lengths of what a slot stands for, from those of all names.
fn lengths_of(grammar: &Grammar, names: &[Lengths], slot: Slot) -> Lengths
    requires sound { IsSound grammar.now }
    requires names { length names.now ≡ length grammar.now.names }
    requires hold { HoldNames grammar.now names.now }
    requires slot { IsSlotOf grammar.now slot }
    ensures { HoldSlot grammar.now slot result }
{
    match slot {
        Slot::OfName(name) => names[name as usize],
        Slot::OfSuffix(suffix) => {
            let rule = rule_of(grammar, suffix.rule);
            suffix_lengths(names, rule.right.as_slice(), suffix.from as usize)
        }
    }
}

/// Returns for each slot the lengths of the spans on which what it stands for can have trees.
///
/// # Errors
///
/// `Memory` where memory runs out; nothing is kept then.
pub fn slot_lengths(
    alloc: Global,
    grammar: &Grammar,
    slots: &[Slot],
) -> Result<Vec<Lengths>, Memory>
    requires sound { IsSound grammar.now }
    requires slots { (s : ℕ) (w : Use) → slice_get slots.now s ≡ Some w → IsSlotOf grammar.now w }
    ensures { IfOk result (λ v. AreLengths grammar.now slots.now v.items (length slots.now)) }
{
    let names = all_names(alloc, grammar)?;
    let mut lengths = vec![in alloc; Lengths::all(); slots.len()]?;
    for slot in 0..slots.len() {
        lengths[slot] = lengths_of(grammar, names.as_slice(), slots[slot]);
    }
    Ok(lengths)
}
