//! The least sums of the day.

ghost use Rattle.std.specs.Prelude.{◌≡◌, ◌^◌, ◌+◌, ◌-◌, ◌≤◌, ◌<◌, IfSome, Some, drop, length};
ghost use Rattle.model_rosters.specs.Grammar.{rule_at, InDay};
ghost use Rattle.model_rosters.specs.Sums.{Within, PartsLeast, arc_sum};
ghost use Rattle.model_rosters.specs.Trees.{Parts as Derived};
ghost use Rattle.tree_ranking.specs.Frames.{IsSums, IsFrame, OnFrame, right_of, after_part};

use crate::frame::Frame;
use model_rosters::{ArcKey, Grammar, LetterPrice, Rule, Sym, rule_of};
use tree_span_cells::{Layout, Span, Suffix, SumCells, add, least_part, rest_least, symbol_least};

/// The least sums of all names and suffixes on all spans of the day.
#[derive(Drop)]
pub struct Sums {
    /// Where they stand.
    pub layout: Layout,
    /// The sums.
    pub cells: SumCells,
}

// The least sum of the parts of a rule's right side on a span.
fn right_least<P: LetterPrice>(
    grammar: &Grammar,
    prices: &P,
    sums: &Sums,
    rule: &Rule,
    number: u8,
    span: Span,
) -> Option<i128>
    requires sums { IsSums grammar.now (P.view prices.now) sums.now }
    requires day { InDay grammar.now.periods span.start span.len }
    requires rule { rule_at grammar.now number ≡ Some rule.now }
    ensures least { PartsLeast grammar.now (P.view prices.now) number 0 rule.now.right span.start span.len
        result }
    ensures within { IfSome result (Within (2 ^ 111)) }
{
    let right = rule.right.as_slice();
    if right.len() == 1 {
        let only = right[0];
        let part = symbol_least(grammar, prices, &sums.layout, &sums.cells, only, span);
        let arc = prices.arc(&ArcKey {
            rule: number,
            suffix: 0,
            start: span.start,
            len: span.len,
            part: span.len,
        });
        add(part, Some(arc))
    } else {
        let whole = Suffix {
            rule: number,
            from: 0,
        };
        least_part(
            grammar,
            prices,
            &sums.layout,
            &sums.cells,
            rule,
            whole,
            span,
        )
        .sum
    }
}

/// Returns the least sum of what a frame derives.
pub fn frame_least<P: LetterPrice>(
    grammar: &Grammar,
    prices: &P,
    sums: &Sums,
    frame: Frame,
) -> Option<i128>
    requires sums { IsSums grammar.now (P.view prices.now) sums.now }
    requires frame { IsFrame grammar.now frame }
    ensures least { PartsLeast grammar.now (P.view prices.now) frame.suffix.rule frame.suffix.from
        (drop frame.suffix.from (right_of grammar.now frame.suffix.rule)) frame.span.start frame.span.len
        result }
    ensures within { IfSome result (Within (2 ^ 111)) }
{
    let Some(symbol) = frame.symbol(grammar) else {
        return if frame.span.len == 0 { Some(0) } else { None };
    };
    if frame.span.len == 0 {
        return None;
    }
    if frame.suffix.rule == 0 {
        return symbol_least(
            grammar,
            prices,
            &sums.layout,
            &sums.cells,
            symbol,
            frame.span,
        );
    }
    let rule = rule_of(grammar, frame.suffix.rule);
    if frame.suffix.from == 0 {
        right_least(grammar, prices, sums, rule, frame.suffix.rule, frame.span)
    } else {
        rest_least(
            grammar,
            prices,
            &sums.layout,
            &sums.cells,
            rule,
            frame.suffix,
            frame.span,
        )
    }
}

/// Returns the price of the arc of a frame's first part of so many periods, 0 where that is the last
/// part of several and has none.
pub fn part_price<P: LetterPrice>(grammar: &Grammar, prices: &P, frame: Frame, part: u8) -> i128
    requires frame { IsFrame grammar.now frame }
    requires some { frame.suffix.from < length (right_of grammar.now frame.suffix.rule) }
    requires fits { part ≤ frame.span.len }
    ensures value { (t : Derived) → OnFrame grammar.now (after_part frame part) t
        → arc_sum (P.view prices.now) frame.suffix.rule frame.suffix.from frame.span.start part t
        ≡ result }
    ensures within { Within (2 ^ 96) result }
{
    let next = frame.after(part);
    if 0 < frame.suffix.from && next.symbol(grammar).is_none() {
        return 0;
    }
    prices.arc(&ArcKey {
        rule: frame.suffix.rule,
        suffix: frame.suffix.from,
        start: frame.span.start,
        len: frame.span.len,
        part,
    })
}
