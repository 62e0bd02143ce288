//! From a suffix to its first part and what follows.

ghost use Rattle.std.specs.Prelude.{◌≡◌, ◌≤◌, ◌<◌, ◌+◌, ◌*◌, ◌^◌, Some, length, drop};
ghost use Rattle.model_rosters.specs.Grammar.{rule_at, InDay};
ghost use Rattle.model_rosters.specs.Sums.{Within};
ghost use Rattle.tree_span_cells.specs.Places.{place_of};
ghost use Rattle.tree_span_table.specs.next_codes.Totals.{AreLowered, AreThrough, PartsAround};
ghost use Rattle.tree_span_table.specs.next_codes.Pushes.{IsPushing, PartDone, PartsDone};

use crate::next_codes::lowering::{lower_rest, lower_symbol};
use crate::next_codes::totals::Totals;
use model_rosters::{ArcKey, Grammar, LetterPrice, Rule};
use tree_span_cells::{
    Layout, Span, Suffix, SumCells, add_part, rest_least, split_points, symbol_least,
};

// Pushes the sum of what stands around the parts of a suffix of two or more symbols on a span to a first
// part of a length and to the others.
fn push_part<P: LetterPrice>(
    grammar: &Grammar,
    prices: &P,
    layout: &Layout,
    inside: &SumCells,
    totals: &mut Totals,
    rule: &Rule,
    suffix: Suffix,
    span: Span,
    outside: i128,
    part: u8,
)
    requires pushing { IsPushing grammar.now (P.view prices.now) layout.now inside.now totals.old }
    requires day { InDay grammar.now.periods span.start span.len }
    requires rule { rule_at grammar.now suffix.rule ≡ Some rule.now }
    requires within { suffix.from + 2 ≤ length rule.now.right }
    requires around { PartsAround grammar.now (P.view prices.now) suffix.rule suffix.from
        (drop suffix.from rule.now.right) span.start span.len outside }
    requires outside { Within (2 ^ 112) outside }
    requires some { 1 ≤ part }
    requires others { part < span.len }
    ensures done { PartDone grammar.now (P.view prices.now) layout.now totals.new suffix.rule suffix.from
        rule.now.right span.start span.len outside part }
    ensures lowered { AreLowered (place_of layout.now.spans span.start span.len * length
        layout.now.slots.items) totals.old totals.new }
    ensures through { AreThrough grammar.now (P.view prices.now) layout.now totals.new }
{
    let symbol = rule.right.as_slice()[suffix.from as usize];
    let next = Suffix {
        rule: suffix.rule,
        from: suffix.from + 1,
    };
    let first = Span {
        start: span.start,
        len: part,
    };
    let others = Span {
        start: span.start + part,
        len: span.len - part,
    };
    let head = symbol_least(grammar, prices, layout, inside, symbol, first);
    let tail = rest_least(grammar, prices, layout, inside, rule, next, others);
    let arc = prices.arc(&ArcKey {
        rule: suffix.rule,
        suffix: suffix.from,
        start: span.start,
        len: span.len,
        part,
    });
    let Some(sum) = add_part(head, arc, tail) else {
        return;
    };
    let total = outside + sum;
    lower_symbol(grammar, layout, totals, symbol, first, total);
    lower_rest(grammar, layout, totals, rule, next, others, total);
}

/// Pushes the sum of what stands around the parts of a suffix of two or more symbols on a span to its
/// first parts and the others.
pub fn push_parts<P: LetterPrice>(
    grammar: &Grammar,
    prices: &P,
    layout: &Layout,
    inside: &SumCells,
    totals: &mut Totals,
    rule: &Rule,
    suffix: Suffix,
    span: Span,
    outside: i128,
)
    requires pushing { IsPushing grammar.now (P.view prices.now) layout.now inside.now totals.old }
    requires day { InDay grammar.now.periods span.start span.len }
    requires rule { rule_at grammar.now suffix.rule ≡ Some rule.now }
    requires within { suffix.from + 2 ≤ length rule.now.right }
    requires around { PartsAround grammar.now (P.view prices.now) suffix.rule suffix.from
        (drop suffix.from rule.now.right) span.start span.len outside }
    requires outside { Within (2 ^ 112) outside }
    ensures done { PartsDone grammar.now (P.view prices.now) layout.now totals.new suffix.rule suffix.from
        rule.now.right span.start span.len outside span.len }
    ensures lowered { AreLowered (place_of layout.now.spans span.start span.len * length
        layout.now.slots.items) totals.old totals.new }
    ensures through { AreThrough grammar.now (P.view prices.now) layout.now totals.new }
{
    let points = split_points(grammar, layout, inside, rule, suffix, span);
    let end = span.end();
    let mut point = points.first_in(span.start + 1, end);
    while point < end {
        let part = point - span.start;
        push_part(
            grammar, prices, layout, inside, totals, rule, suffix, span, outside, part,
        );
        point = points.first_in(point + 1, end);
    }
}
