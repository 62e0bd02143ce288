//! From a name to the parts of its rules.

ghost use Rattle.std.specs.Prelude.{ℕ, ◌≡◌, ◌≤◌, ◌<◌, ◌+◌, ◌^◌, ◌+ℤ◌, Some, length};
ghost use Rattle.model_rosters.specs.declared.grammar.Rule.{Rule as RuleValue};
ghost use Rattle.model_rosters.specs.Grammar.{rule_at, InDay, Stands};
ghost use Rattle.model_rosters.specs.Sums.{Within};
ghost use Rattle.tree_span_cells.specs.Cells.{name_slot, place};
ghost use Rattle.tree_span_table.specs.next_codes.Totals.{AreLowered, AreThrough, PartsAround, SymbolAround};
ghost use Rattle.tree_span_table.specs.next_codes.Pushes.{IsPushing, RightDone, NameDone};

use crate::next_codes::lowering::lower_symbol;
use crate::next_codes::parts::push_parts;
use crate::next_codes::totals::Totals;
use model_rosters::{ArcKey, Grammar, LetterPrice, Rule, Sym, rule_of};
use tree_span_cells::{Layout, Span, Suffix, SumCells, add, may_stand, symbol_least};

// Pushes the sum of what stands around the only part of a right side of one symbol to that part.
fn push_only<P: LetterPrice>(
    grammar: &Grammar,
    prices: &P,
    layout: &Layout,
    inside: &SumCells,
    totals: &mut Totals,
    rule: &Rule,
    number: u8,
    span: Span,
    outside: i128,
)
    requires pushing { IsPushing grammar.now (P.view prices.now) layout.now inside.now totals.old }
    requires day { InDay grammar.now.periods span.start span.len }
    requires rule { rule_at grammar.now number ≡ Some rule.now }
    requires one { length rule.now.right ≡ 1 }
    requires around { PartsAround grammar.now (P.view prices.now) number 0 rule.now.right span.start span.len
        outside }
    requires outside { Within (2 ^ 112) outside }
    ensures done { RightDone grammar.now (P.view prices.now) layout.now totals.new number rule.now.right
        span.start span.len outside }
    ensures lowered { AreLowered (place layout.now (name_slot layout.now rule.now.left) span.start span.len)
        totals.old totals.new }
    ensures through { AreThrough grammar.now (P.view prices.now) layout.now totals.new }
{
    let only = rule.right.as_slice()[0];
    let part = symbol_least(grammar, prices, layout, inside, only, span);
    let arc = prices.arc(&ArcKey {
        rule: number,
        suffix: 0,
        start: span.start,
        len: span.len,
        part: span.len,
    });
    let Some(sum) = add(part, Some(arc)) else {
        return;
    };
    let total = outside + sum;
    lower_symbol(grammar, layout, totals, only, span, total);
}

// Pushes the sum of what stands around a rule's parts on a span to those parts.
fn push_right<P: LetterPrice>(
    grammar: &Grammar,
    prices: &P,
    layout: &Layout,
    inside: &SumCells,
    totals: &mut Totals,
    rule: &Rule,
    number: u8,
    span: Span,
    outside: i128,
)
    requires pushing { IsPushing grammar.now (P.view prices.now) layout.now inside.now totals.old }
    requires day { InDay grammar.now.periods span.start span.len }
    requires rule { rule_at grammar.now number ≡ Some rule.now }
    requires around { PartsAround grammar.now (P.view prices.now) number 0 rule.now.right span.start span.len
        outside }
    requires outside { Within (2 ^ 112) outside }
    ensures done { RightDone grammar.now (P.view prices.now) layout.now totals.new number rule.now.right
        span.start span.len outside }
    ensures lowered { AreLowered (place layout.now (name_slot layout.now rule.now.left) span.start span.len)
        totals.old totals.new }
    ensures through { AreThrough grammar.now (P.view prices.now) layout.now totals.new }
{
    if rule.right.len() == 1 {
        push_only(
            grammar, prices, layout, inside, totals, rule, number, span, outside,
        );
    } else {
        let whole = Suffix {
            rule: number,
            from: 0,
        };
        push_parts(
            grammar, prices, layout, inside, totals, rule, whole, span, outside,
        );
    }
}

// Pushes the sum of what stands around a name on a span to the parts of one of its rules.
fn push_rule<P: LetterPrice>(
    grammar: &Grammar,
    prices: &P,
    layout: &Layout,
    inside: &SumCells,
    totals: &mut Totals,
    name: u8,
    number: u8,
    span: Span,
    outside: i128,
)
    requires pushing { IsPushing grammar.now (P.view prices.now) layout.now inside.now totals.old }
    requires day { InDay grammar.now.periods span.start span.len }
    requires some { 1 ≤ number }
    requires rule { number ≤ length grammar.now.rules }
    requires left { (rule : RuleValue) → rule_at grammar.now number ≡ Some rule → rule.left ≡ name }
    requires around { SymbolAround grammar.now (P.view prices.now) (Sym.Name name) span.start span.len
        outside }
    requires outside { Within (2 ^ 111) outside }
    ensures done { (rule : RuleValue) → rule_at grammar.now number ≡ Some rule
        → Stands grammar.now.periods rule span.start span.len
        → RightDone grammar.now (P.view prices.now) layout.now totals.new number rule.right span.start
        span.len (outside +ℤ (P.view prices.now).rule_of number) }
    ensures lowered { AreLowered (place layout.now (name_slot layout.now name) span.start span.len)
        totals.old totals.new }
    ensures through { AreThrough grammar.now (P.view prices.now) layout.now totals.new }
{
    let rule = rule_of(grammar, number);
    if !may_stand(rule, grammar.periods, span.start, span.len) {
        return;
    }
    let around = outside + prices.rule(number);
    push_right(
        grammar, prices, layout, inside, totals, rule, number, span, around,
    );
}

/// Pushes the sum of what stands around a name on a span to the parts of its rules.
pub fn push_name<P: LetterPrice>(
    grammar: &Grammar,
    prices: &P,
    layout: &Layout,
    inside: &SumCells,
    totals: &mut Totals,
    name: u8,
    span: Span,
    outside: i128,
)
    requires pushing { IsPushing grammar.now (P.view prices.now) layout.now inside.now totals.old }
    requires day { InDay grammar.now.periods span.start span.len }
    requires name { name < length grammar.now.names }
    requires around { SymbolAround grammar.now (P.view prices.now) (Sym.Name name) span.start span.len
        outside }
    requires outside { Within (2 ^ 111) outside }
    ensures done { NameDone grammar.now (P.view prices.now) layout.now totals.new name span.start span.len
        outside (length grammar.now.rules + 1) }
    ensures lowered { AreLowered (place layout.now (name_slot layout.now name) span.start span.len)
        totals.old totals.new }
    ensures through { AreThrough grammar.now (P.view prices.now) layout.now totals.new }
{
    let rules = grammar.rules.len();
    let mut number = layout.chains.first[name as usize];
    while number as usize <= rules {
        push_rule(
            grammar, prices, layout, inside, totals, name, number, span, outside,
        );
        number = layout.chains.next[number as usize - 1];
    }
}
