//! The least sums of symbols and suffixes.

ghost use Rattle.std.specs.Prelude.{◌≡◌, ◌≤◌, ◌<◌, ◌+◌, ◌^◌, ℕ, Some, IfSome, OnSome, length, drop, slice_index_or};
ghost use Rattle.model_rosters.specs.Grammar.{rule_at, InDay};
ghost use Rattle.model_rosters.specs.Sound.{IsSound};
ghost use Rattle.model_rosters.specs.Sums.{Within, SymbolLeast, PartsLeast};
ghost use Rattle.tree_span_cells.specs.Cells.{IsReady, NameRight, Right, ShorterRight};
ghost use Rattle.tree_span_cells.specs.Choices.{ChosenPart};
ghost use Rattle.tree_span_cells.specs.Splits.{IsCode};

use crate::cells::Cells;
use crate::layout::sum_at;
use crate::points::split_points;
use crate::slot::{Layout, Span, Suffix};
use crate::splits::{least_split, split_of};
use crate::sums::{self, Choice};
use model_rosters::{ArcKey, Grammar, LetterPrice, Rule, Sym};

/// Returns the least sum of a symbol's trees on a span.
pub fn symbol_least<P: LetterPrice, C: Cells>(
    grammar: &Grammar,
    prices: &P,
    layout: &Layout,
    cells: &C,
    symbol: Sym,
    span: Span,
) -> Option<i128>
    requires sound { IsSound grammar.now }
    requires ready { IsReady grammar.now layout.now (C.held cells.now) }
    requires day { InDay grammar.now.periods span.start span.len }
    requires name { (x : ℕ) → symbol ≡ Sym.Name x → (x < length grammar.now.names)
        × NameRight grammar.now (P.view prices.now) layout.now (C.held cells.now) x span.start span.len }
    ensures least { SymbolLeast grammar.now (P.view prices.now) symbol span.start span.len result }
    ensures within { IfSome result (Within (2 ^ 110)) }
{
    match symbol {
        Sym::Code(code) => {
            if span.len == 1 {
                prices.letter(code, span.start)
            } else {
                None
            }
        }
        Sym::Name(name) => sum_at(layout, cells, layout.names[name as usize], span),
    }
}

/// Returns the least sum of the parts of a suffix that is not the whole right side, on a span.
pub fn rest_least<P: LetterPrice, C: Cells>(
    grammar: &Grammar,
    prices: &P,
    layout: &Layout,
    cells: &C,
    rule: &Rule,
    suffix: Suffix,
    span: Span,
) -> Option<i128>
    requires sound { IsSound grammar.now }
    requires ready { IsReady grammar.now layout.now (C.held cells.now) }
    requires day { InDay grammar.now.periods span.start span.len }
    requires rule { rule_at grammar.now suffix.rule ≡ Some rule.now }
    requires inner { 1 ≤ suffix.from }
    requires within { suffix.from < length rule.now.right }
    requires right { Right grammar.now (P.view prices.now) layout.now (C.held cells.now) span.start span.len }
    ensures least { PartsLeast grammar.now (P.view prices.now) suffix.rule suffix.from
        (drop suffix.from rule.now.right) span.start span.len result }
    ensures within { IfSome result (Within (2 ^ 110)) }
{
    let right = rule.right.as_slice();
    let from = suffix.from as usize;
    if from + 1 == right.len() {
        let last = right[from];
        symbol_least(grammar, prices, layout, cells, last, span)
    } else {
        let slot = layout.suffixes[suffix.rule as usize - 1] + (from - 1);
        sum_at(layout, cells, slot, span)
    }
}

// The least sum of the parts of a suffix of two or more symbols on a span, the first of them so many
// periods long.
#[inline(always)]
fn part_least<P: LetterPrice, C: Cells>(
    grammar: &Grammar,
    prices: &P,
    layout: &Layout,
    cells: &C,
    rule: &Rule,
    suffix: Suffix,
    span: Span,
    part: u8,
) -> Option<i128>
    requires sound { IsSound grammar.now }
    requires ready { IsReady grammar.now layout.now (C.held cells.now) }
    requires day { InDay grammar.now.periods span.start span.len }
    requires rule { rule_at grammar.now suffix.rule ≡ Some rule.now }
    requires within { suffix.from + 2 ≤ length rule.now.right }
    requires shorter { ShorterRight grammar.now (P.view prices.now) layout.now (C.held cells.now) span.len }
    requires some { 1 ≤ part }
    requires others { part < span.len }
    ensures { ChosenPart grammar.now (P.view prices.now) suffix.rule suffix.from
        (slice_index_or rule.now.right suffix.from (Sym.Code 0)) rule.now.right span.start span.len part
        result }
{
    let symbol = rule.right.as_slice()[suffix.from as usize];
    let next = Suffix {
        rule: suffix.rule,
        from: suffix.from + 1,
    };
    let first = Span {
        start: span.start,
        len: part,
    };
    let others = Span {
        start: span.start + part,
        len: span.len - part,
    };
    let head = symbol_least(grammar, prices, layout, cells, symbol, first);
    if head.is_none() {
        return None;
    }
    let tail = rest_least(grammar, prices, layout, cells, rule, next, others);
    if tail.is_none() {
        return None;
    }
    let arc = prices.arc(&ArcKey {
        rule: suffix.rule,
        suffix: suffix.from,
        start: span.start,
        len: span.len,
        part,
    });
    sums::add_part(head, arc, tail)
}

// The least sum of the parts of a suffix on a span whose first symbol is a code, and the length of a
// first part that has it, which is one period.
fn code_part<P: LetterPrice, C: Cells>(
    grammar: &Grammar,
    prices: &P,
    layout: &Layout,
    cells: &C,
    rule: &Rule,
    suffix: Suffix,
    span: Span,
) -> Choice
    requires sound { IsSound grammar.now }
    requires ready { IsReady grammar.now layout.now (C.held cells.now) }
    requires day { InDay grammar.now.periods span.start span.len }
    requires rule { rule_at grammar.now suffix.rule ≡ Some rule.now }
    requires within { suffix.from + 2 ≤ length rule.now.right }
    requires code { IsCode (slice_index_or rule.now.right suffix.from (Sym.Code 0)) }
    requires shorter { ShorterRight grammar.now (P.view prices.now) layout.now (C.held cells.now) span.len }
    ensures least { PartsLeast grammar.now (P.view prices.now) suffix.rule suffix.from
        (drop suffix.from rule.now.right) span.start span.len result.sum }
    ensures chosen { OnSome result.sum (ChosenPart grammar.now (P.view prices.now) suffix.rule suffix.from
        (slice_index_or rule.now.right suffix.from (Sym.Code 0)) rule.now.right span.start span.len
        result.number result.sum) }
{
    let none = Choice::none();
    if span.len == 1 {
        return none;
    }
    let sum = part_least(grammar, prices, layout, cells, rule, suffix, span, 1);
    none.or(sum, 1)
}

/// Returns the least sum of the parts of a suffix of two or more symbols on a span, and the length of
/// a first part that has it.
pub fn least_part<P: LetterPrice, C: Cells>(
    grammar: &Grammar,
    prices: &P,
    layout: &Layout,
    cells: &C,
    rule: &Rule,
    suffix: Suffix,
    span: Span,
) -> Choice
    requires sound { IsSound grammar.now }
    requires ready { IsReady grammar.now layout.now (C.held cells.now) }
    requires day { InDay grammar.now.periods span.start span.len }
    requires rule { rule_at grammar.now suffix.rule ≡ Some rule.now }
    requires within { suffix.from + 2 ≤ length rule.now.right }
    requires shorter { ShorterRight grammar.now (P.view prices.now) layout.now (C.held cells.now) span.len }
    ensures least { PartsLeast grammar.now (P.view prices.now) suffix.rule suffix.from
        (drop suffix.from rule.now.right) span.start span.len result.sum }
    ensures chosen { OnSome result.sum (ChosenPart grammar.now (P.view prices.now) suffix.rule suffix.from
        (slice_index_or rule.now.right suffix.from (Sym.Code 0)) rule.now.right span.start span.len
        result.number result.sum) }
    ensures within { IfSome result.sum (Within (2 ^ 110)) }
{
    if let Sym::Code(_) = rule.right.as_slice()[suffix.from as usize] {
        return code_part(grammar, prices, layout, cells, rule, suffix, span);
    }
    if let Some(split) = split_of(grammar, layout, cells, rule, suffix) {
        return least_split(grammar, prices, layout, cells, rule, suffix, split, span);
    }
    let points = split_points(grammar, layout, cells, rule, suffix, span);
    let end = span.end();
    let mut best = Choice::none();
    let mut point = points.first_in(span.start + 1, end);
    while point < end {
        let part = point - span.start;
        let sum = part_least(grammar, prices, layout, cells, rule, suffix, span, part);
        best = best.or(sum, part);
        point = points.first_in(point + 1, end);
    }
    best
}
