//! The least sums of names and their rules.

ghost use Rattle.std.specs.Prelude.{◌≡◌, ◌≤◌, ◌<◌, ◌+◌, ◌^◌, ℕ, Some, IfSome, OnSome, length, drop, [], ◌∷◌};
ghost use Rattle.model_rosters.specs.declared.grammar.Rule.{Rule as RuleValue};
ghost use Rattle.model_rosters.specs.Grammar.{rule_at, InDay};
ghost use Rattle.model_rosters.specs.Trees.{On};
ghost use Rattle.model_rosters.specs.Sound.{IsSound};
ghost use Rattle.model_rosters.specs.Sums.{Within, IsLeast, tree_sum, SymbolLeast, PartsLeast};
ghost use Rattle.model_rosters.specs.tree_laws.Parts.{root};
ghost use Rattle.tree_span_cells.specs.Cells.{IsReady, NameRight, LaterRight, ShorterRight};
ghost use Rattle.tree_span_cells.specs.Choices.{ChosenRule};

use crate::cells::Cells;
use crate::may_stand;
use crate::parts::{least_part, symbol_least};
use crate::slot::{Layout, Span, Suffix};
use crate::sums::{self, Choice};
use model_rosters::{ArcKey, Grammar, LetterPrice, Rule, Sym, rule_of};

/// Returns the least sum of the parts of a rule's right side on a span.
pub fn right_least<P: LetterPrice, C: Cells>(
    grammar: &Grammar,
    prices: &P,
    layout: &Layout,
    cells: &C,
    rule: &Rule,
    number: u8,
    span: Span,
) -> Option<i128>
    requires sound { IsSound grammar.now }
    requires ready { IsReady grammar.now layout.now (C.held cells.now) }
    requires day { InDay grammar.now.periods span.start span.len }
    requires rule { rule_at grammar.now number ≡ Some rule.now }
    requires shorter { ShorterRight grammar.now (P.view prices.now) layout.now (C.held cells.now) span.len }
    requires unit { (x : ℕ) → rule.now.right ≡ Sym.Name x ∷ []
        → NameRight grammar.now (P.view prices.now) layout.now (C.held cells.now) x span.start span.len }
    ensures least { PartsLeast grammar.now (P.view prices.now) number 0 rule.now.right span.start span.len
        result }
    ensures within { IfSome result (Within (2 ^ 110)) }
{
    let right = rule.right.as_slice();
    if right.len() == 1 {
        let only = right[0];
        let part = symbol_least(grammar, prices, layout, cells, only, span);
        if part.is_none() {
            return None;
        }
        let arc = prices.arc(&ArcKey {
            rule: number,
            suffix: 0,
            start: span.start,
            len: span.len,
            part: span.len,
        });
        sums::add(part, Some(arc))
    } else {
        let whole = Suffix {
            rule: number,
            from: 0,
        };
        least_part(grammar, prices, layout, cells, rule, whole, span).sum
    }
}

// The least sum of the trees of a name by one rule on a span.
fn rule_least<P: LetterPrice, C: Cells>(
    grammar: &Grammar,
    prices: &P,
    layout: &Layout,
    cells: &C,
    name: u8,
    number: u8,
    span: Span,
) -> Option<i128>
    requires sound { IsSound grammar.now }
    requires ready { IsReady grammar.now layout.now (C.held cells.now) }
    requires day { InDay grammar.now.periods span.start span.len }
    requires some { 1 ≤ number }
    requires rule { number ≤ length grammar.now.rules }
    requires left { (rule : RuleValue) → rule_at grammar.now number ≡ Some rule → rule.left ≡ name }
    requires shorter { ShorterRight grammar.now (P.view prices.now) layout.now (C.held cells.now) span.len }
    requires later { LaterRight grammar.now (P.view prices.now) layout.now (C.held cells.now) name span.start
        span.len }
    ensures least { IsLeast (λ t. On grammar.now (Sym.Name name ∷ []) span.start span.len t
        × (root t ≡ number))
        (tree_sum (P.view prices.now) span.start) result }
    ensures chosen { OnSome result (ChosenRule grammar.now (P.view prices.now) name span.start span.len number
        result) }
{
    let rule = rule_of(grammar, number);
    if !may_stand(rule, grammar.periods, span.start, span.len) {
        return None;
    }
    let parts = right_least(grammar, prices, layout, cells, rule, number, span);
    if parts.is_none() {
        return None;
    }
    let cost = prices.rule(number);
    sums::add(Some(cost), parts)
}

/// Returns the least sum of the trees of a name on a span, and a rule that has it.
pub fn least_rule<P: LetterPrice, C: Cells>(
    grammar: &Grammar,
    prices: &P,
    layout: &Layout,
    cells: &C,
    name: u8,
    span: Span,
) -> Choice
    requires sound { IsSound grammar.now }
    requires ready { IsReady grammar.now layout.now (C.held cells.now) }
    requires name { name < length grammar.now.names }
    requires day { InDay grammar.now.periods span.start span.len }
    requires shorter { ShorterRight grammar.now (P.view prices.now) layout.now (C.held cells.now) span.len }
    requires later { LaterRight grammar.now (P.view prices.now) layout.now (C.held cells.now) name span.start
        span.len }
    ensures least { SymbolLeast grammar.now (P.view prices.now) (Sym.Name name) span.start span.len
        result.sum }
    ensures chosen { OnSome result.sum (ChosenRule grammar.now (P.view prices.now) name span.start span.len
        result.number result.sum) }
    ensures within { IfSome result.sum (Within (2 ^ 110)) }
{
    let rules = grammar.rules.len();
    let mut best = Choice::none();
    let mut number = layout.chains.first[name as usize];
    while number as usize <= rules {
        let sum = rule_least(grammar, prices, layout, cells, name, number, span);
        best = best.or(sum, number);
        number = layout.chains.next[number as usize - 1];
    }
    best
}
