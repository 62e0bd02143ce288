//! The split points of a suffix.

ghost use Rattle.std.specs.Prelude.{ℕ, ◌≡◌, ◌≤◌, ◌<◌, ◌+◌, ◌-◌, ◌⊎◌, Some, None, length, drop, slice_index_or};
ghost use Rattle.model_rosters.specs.Grammar.{rule_at, InDay};
ghost use Rattle.model_rosters.specs.Sound.{IsSound, Exists};
ghost use Rattle.model_rosters.specs.Sums.{PriceView, SymbolLeast, PartsLeast};
ghost use Rattle.tree_span_cells.specs.Cells.{IsReady, Right, ShorterRight};
ghost use Rattle.tree_span_cells.specs.Choices.{ChosenPart};
ghost use Rattle.tree_span_cells.specs.Periods.{Has};

use crate::cells::Cells;
use crate::layout::{slot_of, spot_of};
use crate::periods::Periods;
use crate::slot::{Layout, Span, Suffix};
use model_rosters::{Grammar, Rule, Sym};

// The ends of the spans from a start on which a symbol has a sum.
fn symbol_ends<C: Cells>(
    grammar: &Grammar,
    layout: &Layout,
    cells: &C,
    symbol: Sym,
    start: u8,
) -> Periods
    requires ready { IsReady grammar.now layout.now (C.held cells.now) }
    requires exists { Exists (length grammar.now.codes) (length grammar.now.names) symbol }
    requires few { grammar.now.periods ≤ 96 }
    requires start { start ≤ grammar.now.periods }
    ensures { (p : PriceView) (m : ℕ) → Right grammar.now p layout.now (C.held cells.now) start m
        → Has result (start + m) ⊎ SymbolLeast grammar.now p symbol start m None }
{
    match symbol {
        Sym::Code(_) => Periods::none().with(start + 1),
        Sym::Name(name) => {
            let spot = spot_of(layout, layout.names[name as usize], start);
            cells.present().ends[spot]
        }
    }
}

// The starts of the spans to an end on which a symbol has a sum.
fn symbol_starts<C: Cells>(
    grammar: &Grammar,
    layout: &Layout,
    cells: &C,
    symbol: Sym,
    end: u8,
) -> Periods
    requires ready { IsReady grammar.now layout.now (C.held cells.now) }
    requires exists { Exists (length grammar.now.codes) (length grammar.now.names) symbol }
    requires few { grammar.now.periods ≤ 96 }
    requires some { 1 ≤ end }
    requires end { end ≤ grammar.now.periods + 1 }
    ensures { (p : PriceView) (i m : ℕ) → i + m ≡ end → Right grammar.now p layout.now (C.held cells.now) i m
        → Has result i ⊎ SymbolLeast grammar.now p symbol i m None }
{
    match symbol {
        Sym::Code(_) => Periods::none().with(end - 1),
        Sym::Name(name) => {
            let spot = spot_of(layout, layout.names[name as usize], end);
            cells.present().starts[spot]
        }
    }
}

// The starts of the spans to an end on which a suffix that is not the whole right side has a sum.
fn rest_starts<C: Cells>(
    grammar: &Grammar,
    layout: &Layout,
    cells: &C,
    rule: &Rule,
    suffix: Suffix,
    end: u8,
) -> Periods
    requires sound { IsSound grammar.now }
    requires ready { IsReady grammar.now layout.now (C.held cells.now) }
    requires rule { rule_at grammar.now suffix.rule ≡ Some rule.now }
    requires inner { 1 ≤ suffix.from }
    requires within { suffix.from < length rule.now.right }
    requires some { 1 ≤ end }
    requires end { end ≤ grammar.now.periods + 1 }
    ensures { (p : PriceView) (i m : ℕ) → i + m ≡ end → Right grammar.now p layout.now (C.held cells.now) i m
        → Has result i ⊎ PartsLeast grammar.now p suffix.rule suffix.from (drop suffix.from rule.now.right) i
        m None }
{
    let right = rule.right.as_slice();
    let from = suffix.from as usize;
    if from + 1 == right.len() {
        symbol_starts(grammar, layout, cells, right[from], end)
    } else {
        let spot = spot_of(layout, slot_of(grammar, layout, rule, suffix), end);
        cells.present().starts[spot]
    }
}

/// Returns the split points of a suffix of two or more symbols on a span: the periods at which its
/// first part can end and the others begin, since there are sums of both.
pub fn split_points<C: Cells>(
    grammar: &Grammar,
    layout: &Layout,
    cells: &C,
    rule: &Rule,
    suffix: Suffix,
    span: Span,
) -> Periods
    requires sound { IsSound grammar.now }
    requires ready { IsReady grammar.now layout.now (C.held cells.now) }
    requires day { InDay grammar.now.periods span.start span.len }
    requires rule { rule_at grammar.now suffix.rule ≡ Some rule.now }
    requires within { suffix.from + 2 ≤ length rule.now.right }
    ensures { (p : PriceView) (m : ℕ) → ShorterRight grammar.now p layout.now (C.held cells.now) span.len
        → 1 ≤ m → m < span.len
        → Has result (span.start + m)
        ⊎ ChosenPart grammar.now p suffix.rule suffix.from
        (slice_index_or rule.now.right suffix.from (Sym.Code 0))
        rule.now.right span.start span.len m None }
{
    let symbol = rule.right.as_slice()[suffix.from as usize];
    let next = Suffix {
        rule: suffix.rule,
        from: suffix.from + 1,
    };
    let ends = symbol_ends(grammar, layout, cells, symbol, span.start);
    let starts = rest_starts(grammar, layout, cells, rule, next, span.end());
    ends.both(starts)
}
