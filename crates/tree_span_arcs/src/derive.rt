//! Whether a symbol or a suffix derives on a span.

ghost use Rattle.std.specs.Prelude.{◌≡◌, ◌≤◌, ◌<◌, ◌↔◌, IsTrue, length, drop, [], ◌∷◌};
ghost use Rattle.model_rosters.specs.Grammar.{rule_at, InDay};
ghost use Rattle.model_rosters.specs.Sound.{IsSound, Exists};
ghost use Rattle.tree_span_cells.specs.Cells.{IsReady, AreFilled};
ghost use Rattle.tree_span_arcs.specs.Marks.{free_view, HasSome};

use crate::free::Free;
use crate::free_cells::FreeCells;
use model_rosters::{Grammar, Rule, Sym};
use tree_span_cells::{Layout, Span, Suffix, rest_least, symbol_least};

/// Returns whether a symbol has a tree on a span, by cells that are filled for free prices.
pub fn symbol_derives(
    grammar: &Grammar,
    layout: &Layout,
    cells: &FreeCells,
    symbol: Sym,
    span: Span,
) -> bool
    requires sound { IsSound grammar.now }
    requires ready { IsReady grammar.now layout.now cells.now }
    requires filled { AreFilled grammar.now free_view layout.now cells.now }
    requires day { InDay grammar.now.periods span.start span.len }
    requires exists { Exists (length grammar.now.codes) (length grammar.now.names) symbol }
    ensures { IsTrue result ↔ HasSome grammar.now (symbol ∷ []) span.start span.len }
{
    symbol_least(grammar, &Free, layout, cells, symbol, span).is_some()
}

/// Returns whether a suffix that is not the whole right side has parts on a span, by cells that are
/// filled for free prices.
pub fn rest_derives(
    grammar: &Grammar,
    layout: &Layout,
    cells: &FreeCells,
    rule: &Rule,
    suffix: Suffix,
    span: Span,
) -> bool
    requires sound { IsSound grammar.now }
    requires ready { IsReady grammar.now layout.now cells.now }
    requires filled { AreFilled grammar.now free_view layout.now cells.now }
    requires day { InDay grammar.now.periods span.start span.len }
    requires rule { rule_at grammar.now suffix.rule ≡ Some rule.now }
    requires inner { 1 ≤ suffix.from }
    requires within { suffix.from < length rule.now.right }
    ensures { IsTrue result ↔ HasSome grammar.now (drop suffix.from rule.now.right) span.start span.len }
{
    rest_least(grammar, &Free, layout, cells, rule, suffix, span).is_some()
}
