//! The layout of a grammar.

ghost use Rattle.std.specs.Prelude.{ℕ, ◌≡◌, ◌≤◌, ◌<◌, ◌+◌, ◌-◌, ◌*◌, [], List as Items, Some, length, slice_get, IfOk, OnOk};
ghost use Rattle.model_rosters.specs.Sound.{IsSound};
ghost use Rattle.tree_span_cells.specs.declared.slot.Slot.{Slot as Use};
ghost use Rattle.tree_span_cells.specs.Cells.{IsLayoutOf};
ghost use Rattle.model_rosters.specs.tree_laws.RankOrder.{IsPlaced, IsDone};
ghost use Rattle.tree_span_cells.specs.Building.{AddsSuffixes, SuffixSlots, NameSlots, AreNamed};

use crate::SpanIndex;
use crate::chains::Chains;
use crate::lengths::slot_lengths;
use crate::slot::{Layout, Slot, Suffix};
use model_rosters::{Grammar, List, Memory, rule_of, unit_ranks};
use std::alloc::Global;

// Adds slots for the suffixes of a rule of so many symbols that want one.
fn add_suffixes(slots: &mut List<Slot>, number: u8, symbols: usize) -> Result<(), Memory>
    requires { symbols ≤ 8 }
    ensures { OnOk result (AddsSuffixes number (symbols - 2) slots.old slots.new) }
{
    for earlier in 0..symbols.saturating_sub(2) {
        let suffix = Suffix {
            rule: number,
            from: earlier as u8 + 1,
        };
        slots.push(Slot::OfSuffix(suffix))?;
    }
    Ok(())
}

// Adds slots for the suffixes of all rules, and returns the slot at which those of each rule begin.
fn add_rules(
    alloc: Global,
    grammar: &Grammar,
    slots: &mut List<Slot>,
) -> Result<List<usize>, Memory>
    requires sound { IsSound grammar.now }
    requires empty { slots.old ≡ [] }
    ensures { IfOk result (λ starts. SuffixSlots grammar.now slots.new starts (length grammar.now.rules)) }
{
    let mut starts = List::new(alloc);
    for index in 0..grammar.rules.len() {
        let number = index as u8 + 1;
        let rule = rule_of(grammar, number);
        starts.push(slots.len())?;
        add_suffixes(slots, number, rule.right.len())?;
    }
    Ok(starts)
}

// Adds slots for the names of a rank.
fn add_rank(
    slots: &mut List<Slot>,
    names: &mut [usize],
    ranks: &[u8],
    rank: u8,
) -> Result<(), Memory>
    requires few { length names.old ≤ 33 }
    requires ranks { length ranks.now ≡ 33 }
    ensures { OnOk result ((base : Items Use) (m : ℕ)
        → NameSlots ranks.now base slots.old names.old (IsPlaced ranks.now rank 0) m
        → NameSlots ranks.now base slots.new names.new (IsPlaced ranks.now rank (length names.old))
        (m + length names.old)) }
{
    for name in 0..names.len() {
        if ranks[name] == rank {
            names[name] = slots.len();
            slots.push(Slot::OfName(name as u8))?;
        }
    }
    Ok(())
}

// Adds slots for the names, from the highest rank to the lowest.
fn add_ranks(slots: &mut List<Slot>, names: &mut [usize], ranks: &[u8]) -> Result<(), Memory>
    requires few { length names.old ≤ 33 }
    requires ranks { length ranks.now ≡ 33 }
    ensures { let n = length names.old in OnOk result ((base : Items Use)
        → NameSlots ranks.now base slots.old names.old (IsDone ranks.now n 0) 0
        → NameSlots ranks.now base slots.new names.new (IsDone ranks.now n n) (n * n)) }
{
    let count = names.len();
    for turn in 0..count {
        let rank = (count - 1 - turn) as u8;
        add_rank(slots, names, ranks, rank)?;
    }
    Ok(())
}

// Adds slots for all names, those with a higher rank first, and returns the slot of each.
fn add_names(alloc: Global, grammar: &Grammar, slots: &mut List<Slot>) -> Result<Vec<usize>, Memory>
    requires sound { IsSound grammar.now }
    requires unnamed { (s x : ℕ) → slice_get slots.old s ≡ Some (Slot.OfName x) → ⊥ }
    ensures { IfOk result (λ names. AreNamed grammar.now slots.old slots.new names.items) }
{
    let Ok(ranks) = unit_ranks(grammar) else {
        unreachable!();
    };
    let mut names = vec![in alloc; 0; grammar.names.len()]?;
    add_ranks(slots, names.as_mut_slice(), &ranks)?;
    Ok(names)
}

/// Returns the layout of a grammar's table.
///
/// # Errors
///
/// `Memory` where memory runs out; nothing is kept then.
pub fn layout_of(alloc: Global, grammar: &Grammar) -> Result<Layout, Memory>
    requires { IsSound grammar.now }
    ensures { IfOk result (IsLayoutOf grammar.now) }
{
    let mut slots = List::new(alloc);
    let suffixes = add_rules(alloc, grammar, &mut slots)?;
    let names = add_names(alloc, grammar, &mut slots)?;
    let slots = slots.into_vec();
    let lengths = slot_lengths(alloc, grammar, slots.as_slice())?;
    Ok(Layout {
        spans: SpanIndex::new(grammar.periods),
        slots,
        names,
        suffixes: suffixes.into_vec(),
        chains: Chains::new(alloc, grammar)?,
        lengths,
    })
}
