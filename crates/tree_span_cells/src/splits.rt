//! The least sum of a suffix between two slots.

ghost use Rattle.std.specs.Prelude.{ℕ, ◌≡◌, ◌≤◌, ◌<◌, ◌+◌, ◌-◌, ◌^◌, pos, Some, None, IfSome, OnSome, length, drop, slice_index_or};
ghost use Rattle.std.specs.Bool.{OnTrue};
ghost use Rattle.model_rosters.specs.declared.grammar.ArcKey.{ArcKey as Arc};
ghost use Rattle.model_rosters.specs.Grammar.{rule_at, InDay};
ghost use Rattle.model_rosters.specs.Sound.{IsSound, Exists};
ghost use Rattle.model_rosters.specs.Sums.{Within, PartsLeast};
ghost use Rattle.model_rosters.specs.tree_laws.Laws.{arc_at};
ghost use Rattle.tree_span_cells.specs.Cells.{AreMade, IsReady, ShorterRight, cell_count, spot, spot_count};
ghost use Rattle.tree_span_cells.specs.Choices.{ChosenPart};
ghost use Rattle.tree_span_cells.specs.Numbers.{sum_below};
ghost use Rattle.tree_span_cells.specs.Periods.{Has, set_at};
ghost use Rattle.tree_span_cells.specs.Splits.{IsSymbolSlot, IsRestSlot};

use crate::cells::Cells;
use crate::layout::{number_at, slot_of, spot_of};
use crate::periods::Periods;
use crate::slot::{Layout, Span, Suffix};
use crate::sums::{Choice, LeastPart};
use model_rosters::{ArcKey, Grammar, LetterPrice, Rule, Sym};

/// The slots of a first part and of what follows it.
#[derive(Clone, Copy, Drop)]
pub struct Split {
    pub head: usize,
    pub tail: usize,
}

// Says whether prices tell that no arc costs anything.
fn is_free<P: LetterPrice>(prices: &P) -> bool
    ensures { OnTrue result ((a : Arc) → (P.view prices.now).arc_of a ≡ pos 0) }
{
    match prices.arc_prices() {
        Some(entries) => entries.is_empty(),
        None => false,
    }
}

// The price of the arc of a first part, which is not asked where no arc costs anything.
fn arc_price<P: LetterPrice>(prices: &P, free: bool, suffix: Suffix, span: Span, part: u8) -> i128
    requires { OnTrue free ((a : Arc) → (P.view prices.now).arc_of a ≡ pos 0) }
    ensures value { result ≡ (P.view prices.now).arc_of
        (arc_at suffix.rule suffix.from span.start span.len part) }
    ensures within { Within (2 ^ 96) result }
{
    if free {
        return 0;
    }
    prices.arc(&ArcKey {
        rule: suffix.rule,
        suffix: suffix.from,
        start: span.start,
        len: span.len,
        part,
    })
}

// The slot of a symbol's cells, none of a code.
fn symbol_slot<C: Cells>(
    grammar: &Grammar,
    layout: &Layout,
    cells: &C,
    symbol: Sym,
) -> Option<usize>
    requires ready { IsReady grammar.now layout.now (C.held cells.now) }
    requires exists { Exists (length grammar.now.codes) (length grammar.now.names) symbol }
    ensures { IfSome result (IsSymbolSlot grammar.now layout.now (C.held cells.now) symbol) }
{
    match symbol {
        Sym::Code(_) => None,
        Sym::Name(name) => Some(layout.names[name as usize]),
    }
}

// The slot of the cells of a suffix that is not the whole right side, none of a code alone.
fn rest_slot<C: Cells>(
    grammar: &Grammar,
    layout: &Layout,
    cells: &C,
    rule: &Rule,
    suffix: Suffix,
) -> Option<usize>
    requires sound { IsSound grammar.now }
    requires ready { IsReady grammar.now layout.now (C.held cells.now) }
    requires rule { rule_at grammar.now suffix.rule ≡ Some rule.now }
    requires inner { 1 ≤ suffix.from }
    requires within { suffix.from < length rule.now.right }
    ensures { IfSome result (IsRestSlot grammar.now layout.now (C.held cells.now) suffix.rule suffix.from
        (drop suffix.from rule.now.right)) }
{
    let right = rule.right.as_slice();
    let from = suffix.from as usize;
    if from + 1 == right.len() {
        symbol_slot(grammar, layout, cells, right[from])
    } else {
        Some(slot_of(grammar, layout, rule, suffix))
    }
}

/// Returns the slots of a suffix's first symbol and of the others; none where one of the two is a
/// code alone.
pub fn split_of<C: Cells>(
    grammar: &Grammar,
    layout: &Layout,
    cells: &C,
    rule: &Rule,
    suffix: Suffix,
) -> Option<Split>
    requires sound { IsSound grammar.now }
    requires ready { IsReady grammar.now layout.now (C.held cells.now) }
    requires rule { rule_at grammar.now suffix.rule ≡ Some rule.now }
    requires within { suffix.from + 2 ≤ length rule.now.right }
    ensures head { IfSome result (λ s. IsSymbolSlot grammar.now layout.now (C.held cells.now)
        (slice_index_or rule.now.right suffix.from (Sym.Code 0)) s.head) }
    ensures tail { IfSome result (λ s. IsRestSlot grammar.now layout.now (C.held cells.now) suffix.rule
        (suffix.from + 1) (drop (suffix.from + 1) rule.now.right) s.tail) }
{
    let symbol = rule.right.as_slice()[suffix.from as usize];
    let next = Suffix {
        rule: suffix.rule,
        from: suffix.from + 1,
    };
    let head = symbol_slot(grammar, layout, cells, symbol)?;
    let tail = rest_slot(grammar, layout, cells, rule, next)?;
    Some(Split { head, tail })
}

// The least sum of the parts of a suffix on a span, the first of them so many periods long, as a number.
fn split_least<P: LetterPrice, C: Cells>(
    grammar: &Grammar,
    prices: &P,
    layout: &Layout,
    cells: &C,
    rule: &Rule,
    suffix: Suffix,
    split: Split,
    free: bool,
    span: Span,
    part: u8,
) -> i128
    requires sound { IsSound grammar.now }
    requires ready { IsReady grammar.now layout.now (C.held cells.now) }
    requires day { InDay grammar.now.periods span.start span.len }
    requires rule { rule_at grammar.now suffix.rule ≡ Some rule.now }
    requires within { suffix.from + 2 ≤ length rule.now.right }
    requires shorter { ShorterRight grammar.now (P.view prices.now) layout.now (C.held cells.now) span.len }
    requires some { 1 ≤ part }
    requires others { part < span.len }
    requires head { IsSymbolSlot grammar.now layout.now (C.held cells.now)
        (slice_index_or rule.now.right suffix.from (Sym.Code 0)) split.head }
    requires tail { IsRestSlot grammar.now layout.now (C.held cells.now) suffix.rule (suffix.from + 1)
        (drop (suffix.from + 1) rule.now.right) split.tail }
    requires free { OnTrue free ((a : Arc) → (P.view prices.now).arc_of a ≡ pos 0) }
    ensures { ChosenPart grammar.now (P.view prices.now) suffix.rule suffix.from
        (slice_index_or rule.now.right suffix.from (Sym.Code 0)) rule.now.right span.start span.len part
        (sum_below result) }
{
    let first = Span {
        start: span.start,
        len: part,
    };
    let others = Span {
        start: span.start + part,
        len: span.len - part,
    };
    let head = number_at(layout, cells, split.head, first);
    let tail = number_at(layout, cells, split.tail, others);
    let arc = arc_price(prices, free, suffix, span, part);
    head + (arc + tail)
}

// The split points of a suffix on a span, with cells for its first symbol and for the others.
fn slot_points<C: Cells>(layout: &Layout, cells: &C, split: Split, span: Span) -> Periods
    requires few { length layout.now.slots.items < 65536 }
    requires made { AreMade (cell_count layout.now) (spot_count layout.now) (C.held cells.now) }
    requires periods { layout.now.spans ≤ 96 }
    requires day { InDay layout.now.spans span.start span.len }
    requires head { split.head < length layout.now.slots.items }
    requires tail { split.tail < length layout.now.slots.items }
    ensures { (n : ℕ)
        → Has (set_at (C.held cells.now).present.ends.items (spot layout.now split.head span.start)) n
        → Has (set_at (C.held cells.now).present.starts.items
        (spot layout.now split.tail (span.start + span.len))) n
        → Has result n }
{
    let from = spot_of(layout, split.head, span.start);
    let to = spot_of(layout, split.tail, span.end());
    let present = cells.present();
    present.ends[from].both(present.starts[to])
}

/// Returns the least sum of the parts of a suffix on a span, with cells for its first symbol and for
/// the others, and the length of a first part that has it.
pub fn least_split<P: LetterPrice, C: Cells>(
    grammar: &Grammar,
    prices: &P,
    layout: &Layout,
    cells: &C,
    rule: &Rule,
    suffix: Suffix,
    split: Split,
    span: Span,
) -> Choice
    requires sound { IsSound grammar.now }
    requires ready { IsReady grammar.now layout.now (C.held cells.now) }
    requires day { InDay grammar.now.periods span.start span.len }
    requires rule { rule_at grammar.now suffix.rule ≡ Some rule.now }
    requires within { suffix.from + 2 ≤ length rule.now.right }
    requires shorter { ShorterRight grammar.now (P.view prices.now) layout.now (C.held cells.now) span.len }
    requires head { IsSymbolSlot grammar.now layout.now (C.held cells.now)
        (slice_index_or rule.now.right suffix.from (Sym.Code 0)) split.head }
    requires tail { IsRestSlot grammar.now layout.now (C.held cells.now) suffix.rule (suffix.from + 1)
        (drop (suffix.from + 1) rule.now.right) split.tail }
    ensures least { PartsLeast grammar.now (P.view prices.now) suffix.rule suffix.from
        (drop suffix.from rule.now.right) span.start span.len result.sum }
    ensures chosen { OnSome result.sum (ChosenPart grammar.now (P.view prices.now) suffix.rule suffix.from
        (slice_index_or rule.now.right suffix.from (Sym.Code 0)) rule.now.right span.start span.len
        result.number result.sum) }
{
    let free = is_free(prices);
    let end = span.end();
    let points = slot_points(layout, cells, split, span);
    let mut best = LeastPart::none();
    let mut point = points.first_in(span.start + 1, end);
    while point < end {
        let part = point - span.start;
        let number = split_least(
            grammar, prices, layout, cells, rule, suffix, split, free, span, part,
        );
        best.take(number, part);
        point = points.first_in(point + 1, end);
    }
    best.choice()
}
