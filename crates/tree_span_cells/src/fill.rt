//! All cells, filled.

ghost use Rattle.std.specs.Prelude.{ℕ, ◌≡◌, ◌≤◌, ◌<◌, ◌+◌, ◌*◌, ◌^◌, Some, IfSome, length, slice_get};
ghost use Rattle.model_rosters.specs.Grammar.{InDay};
ghost use Rattle.model_rosters.specs.Sound.{IsSound};
ghost use Rattle.model_rosters.specs.Sums.{Within};
ghost use Rattle.tree_span_cells.specs.Places.{shorter, place_of};
ghost use Rattle.tree_span_cells.specs.declared.slot.Slot.{Slot as Use};
ghost use Rattle.tree_span_cells.specs.Cells.{IsReady, IsPut, AreMade, SlotLeast, FitsCells, RightBefore, AreFilled, cell_count, spot_count, place};

use crate::cells::Cells;
use crate::layout::spot_of;
use crate::names::least_rule;
use crate::parts::least_part;
use crate::slot::{Layout, Slot, Span};
use model_rosters::{Grammar, LetterPrice, rule_of};

// The least sum of what a slot stands for on a span.
fn slot_least<P: LetterPrice, C: Cells>(
    grammar: &Grammar,
    prices: &P,
    layout: &Layout,
    cells: &C,
    slot: usize,
    span: Span,
) -> Option<i128>
    requires sound { IsSound grammar.now }
    requires ready { IsReady grammar.now layout.now (C.held cells.now) }
    requires day { InDay grammar.now.periods span.start span.len }
    requires slot { slot < length layout.now.slots.items }
    requires before { RightBefore grammar.now (P.view prices.now) layout.now (C.held cells.now)
        (place layout.now slot span.start span.len) }
    ensures least { (what : Use) → slice_get layout.now.slots.items slot ≡ Some what
        → SlotLeast grammar.now (P.view prices.now) what span.start span.len result }
    ensures within { IfSome result (Within (2 ^ 110)) }
{
    match layout.slots[slot] {
        Slot::OfName(name) => least_rule(grammar, prices, layout, cells, name, span).sum,
        Slot::OfSuffix(suffix) => {
            let rule = rule_of(grammar, suffix.rule);
            least_part(grammar, prices, layout, cells, rule, suffix, span).sum
        }
    }
}

// The least sum of what a slot stands for on a span; none at once where the span has a length that it
// never has.
fn cell_least<P: LetterPrice, C: Cells>(
    grammar: &Grammar,
    prices: &P,
    layout: &Layout,
    cells: &C,
    slot: usize,
    span: Span,
) -> Option<i128>
    requires sound { IsSound grammar.now }
    requires ready { IsReady grammar.now layout.now (C.held cells.now) }
    requires day { InDay grammar.now.periods span.start span.len }
    requires slot { slot < length layout.now.slots.items }
    requires before { RightBefore grammar.now (P.view prices.now) layout.now (C.held cells.now)
        (place layout.now slot span.start span.len) }
    ensures least { (what : Use) → slice_get layout.now.slots.items slot ≡ Some what
        → SlotLeast grammar.now (P.view prices.now) what span.start span.len result }
    ensures within { IfSome result (Within (2 ^ 110)) }
{
    if !layout.lengths[slot].holds(span.len) {
        return None;
    }
    slot_least(grammar, prices, layout, cells, slot, span)
}

// Puts the sum of a slot on a span at a place, and notes the span where there is one.
fn put<C: Cells>(
    layout: &Layout,
    cells: &mut C,
    place: usize,
    slot: usize,
    span: Span,
    sum: Option<i128>,
)
    requires made { AreMade (cell_count layout.now) (spot_count layout.now) (C.held cells.old) }
    requires place { place < cell_count layout.now }
    requires slot { slot < length layout.now.slots.items }
    requires few { length layout.now.slots.items < 65536 }
    requires periods { layout.now.spans ≤ 96 }
    requires day { InDay layout.now.spans span.start span.len }
    requires sum { C.can_hold sum }
    ensures { IsPut layout.now place slot span.start span.len sum (C.held cells.old) (C.held cells.new) }
{
    cells.set(place, sum);
    if sum.is_some() {
        let from = spot_of(layout, slot, span.start);
        let to = spot_of(layout, slot, span.end());
        cells.note(from, to, span);
    }
}

// The span that comes after one: by length, then by start.
fn after(periods: u8, span: Span) -> Span
    requires few { periods ≤ 96 }
    requires day { InDay periods span.start span.len }
    ensures place { place_of periods result.start result.len ≡ place_of periods span.start span.len + 1 }
    ensures day { place_of periods result.start result.len < shorter periods periods
        → InDay periods result.start result.len }
{
    if span.end() <= periods {
        Span {
            start: span.start + 1,
            len: span.len,
        }
    } else {
        Span {
            start: 1,
            len: span.len + 1,
        }
    }
}

// Fills the cells of a span, which stands at a place.
fn fill_span<P: LetterPrice, C: Cells>(
    grammar: &Grammar,
    prices: &P,
    layout: &Layout,
    cells: &mut C,
    place: usize,
    span: Span,
)
    requires sound { IsSound grammar.now }
    requires ready { IsReady grammar.now layout.now (C.held cells.old) }
    requires place { place < shorter layout.now.spans layout.now.spans }
    requires day { InDay layout.now.spans span.start span.len }
    requires at { place_of layout.now.spans span.start span.len ≡ place }
    requires before { RightBefore grammar.now (P.view prices.now) layout.now (C.held cells.old)
        (place * length layout.now.slots.items) }
    requires fits { FitsCells grammar.now (P.view prices.now) layout.now C.can_hold }
    ensures made { (m n : ℕ) → AreMade m n (C.held cells.old) → AreMade m n (C.held cells.new) }
    ensures before { RightBefore grammar.now (P.view prices.now) layout.now (C.held cells.new)
        ((place + 1) * length layout.now.slots.items) }
{
    let width = layout.slots.len();
    for slot in 0..width {
        let sum = cell_least(grammar, prices, layout, cells, slot, span);
        put(layout, cells, place * width + slot, slot, span, sum);
    }
}

/// Fills all cells.
pub fn fill_cells<P: LetterPrice, C: Cells>(
    grammar: &Grammar,
    prices: &P,
    layout: &Layout,
    cells: &mut C,
)
    requires sound { IsSound grammar.now }
    requires ready { IsReady grammar.now layout.now (C.held cells.old) }
    requires fits { FitsCells grammar.now (P.view prices.now) layout.now C.can_hold }
    ensures made { (m n : ℕ) → AreMade m n (C.held cells.old) → AreMade m n (C.held cells.new) }
    ensures filled { AreFilled grammar.now (P.view prices.now) layout.now (C.held cells.new) }
{
    cells.clear();
    let mut span = Span { start: 1, len: 1 };
    for place in 0..layout.spans.count() {
        fill_span(grammar, prices, layout, cells, place, span);
        span = after(grammar.periods, span);
    }
}
