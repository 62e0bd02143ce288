//! Whether a suffix has parts on a span, and which arc comes next.

ghost use Rattle.std.specs.Prelude.{◌≡◌, ◌≤◌, ◌<◌, ◌+◌, ◌-◌, ◌↔◌, IsTrue, Some, length, drop};
ghost use Rattle.model_rosters.specs.Grammar.{rule_at, InDay};
ghost use Rattle.model_rosters.specs.Arcs.{IsArc};
ghost use Rattle.model_rosters.specs.Sound.{IsSound};
ghost use Rattle.tree_span_cells.specs.Cells.{IsLayoutOf, IsReady, AreFilled, cell_count};
ghost use Rattle.tree_span_arcs.specs.Order.{IsLongerPart, IsPartStep, IsSuffixStep, IsStep, IsSought, IsNextArc};
ghost use Rattle.tree_span_arcs.specs.Marks.{free_view, AreMarked, SuffixMarked, HasSplit, HasSpan};

use crate::derive::{rest_derives, symbol_derives};
use crate::free_cells::FreeCells;
use model_rosters::{ArcKey, Grammar, Rule, rule_of};
use tree_span_cells::{Layout, Span, Suffix, may_stand, place_of, slot_of, split_points};

// Whether a span is one of a day of so many periods.
fn in_day(periods: u8, span: Span) -> bool
    requires { periods ≤ 96 }
    ensures { IsTrue result ↔ InDay periods span.start span.len }
{
    1 <= span.start
        && 1 <= span.len
        && span.start <= periods
        && span.len <= periods + 1 - span.start
}

// Whether a first part of this length leaves room for another on a span of so many periods.
fn is_inner(part: u8, len: u8) -> bool
    ensures { IsTrue result ↔ (1 ≤ part) × (part < len) }
{
    1 <= part && part < len
}

// Whether an arc's rule exists, and its suffix stands on a span of the day.
fn has_span(grammar: &Grammar, arc: &ArcKey) -> bool
    requires { grammar.now.periods ≤ 96 }
    ensures { IsTrue result ↔ HasSpan grammar.now arc.now }
{
    let span = Span {
        start: arc.start,
        len: arc.len,
    };
    1 <= arc.rule && arc.rule as usize <= grammar.rules.len() && in_day(grammar.periods, span)
}

// Whether the parts of a suffix on a span are marked, those of a whole right side by the name on its
// left.
#[inline(always)]
fn is_marked(
    grammar: &Grammar,
    layout: &Layout,
    marks: &[bool],
    rule: &Rule,
    suffix: Suffix,
    span: Span,
) -> bool
    requires sound { IsSound grammar.now }
    requires layout { IsLayoutOf grammar.now layout.now }
    requires count { length marks.now ≡ cell_count layout.now }
    requires day { InDay grammar.now.periods span.start span.len }
    requires rule { rule_at grammar.now suffix.rule ≡ Some rule.now }
    ensures { IsTrue result ↔ SuffixMarked grammar.now layout.now marks.now rule.now suffix.rule suffix.from
        span.start span.len }
{
    let from = suffix.from as usize;
    if from == 0 {
        let slot = layout.names[rule.left as usize];
        may_stand(rule, grammar.periods, span.start, span.len)
            && marks[place_of(layout, slot, span)]
    } else if from + 2 <= rule.right.len() {
        let slot = slot_of(grammar, layout, rule, suffix);
        marks[place_of(layout, slot, span)]
    } else {
        false
    }
}

/// Returns whether a suffix has parts on a span, the first of them so many periods long.
#[inline(always)]
pub fn has_split(
    grammar: &Grammar,
    layout: &Layout,
    cells: &FreeCells,
    rule: &Rule,
    suffix: Suffix,
    span: Span,
    part: u8,
) -> bool
    requires sound { IsSound grammar.now }
    requires ready { IsReady grammar.now layout.now cells.now }
    requires filled { AreFilled grammar.now free_view layout.now cells.now }
    requires day { InDay grammar.now.periods span.start span.len }
    requires rule { rule_at grammar.now suffix.rule ≡ Some rule.now }
    requires within { suffix.from < length rule.now.right }
    ensures { IsTrue result ↔ HasSplit grammar.now (drop suffix.from rule.now.right) span.start span.len
        part }
{
    let right = rule.right.as_slice();
    let from = suffix.from as usize;
    let symbol = right[from];
    if from + 1 == right.len() {
        if part != span.len {
            return false;
        }
        return symbol_derives(grammar, layout, cells, symbol, span);
    }
    if !is_inner(part, span.len) {
        return false;
    }
    let next = Suffix {
        rule: suffix.rule,
        from: suffix.from + 1,
    };
    let first = Span {
        start: span.start,
        len: part,
    };
    let others = Span {
        start: span.start + part,
        len: span.len - part,
    };
    symbol_derives(grammar, layout, cells, symbol, first)
        && rest_derives(grammar, layout, cells, rule, next, others)
}

/// Returns whether an arc is one of the instance, by cells that are filled for free prices and marks
/// of what stands in trees of the day.
pub fn is_arc(
    grammar: &Grammar,
    layout: &Layout,
    cells: &FreeCells,
    marks: &[bool],
    arc: &ArcKey,
) -> bool
    requires sound { IsSound grammar.now }
    requires ready { IsReady grammar.now layout.now cells.now }
    requires filled { AreFilled grammar.now free_view layout.now cells.now }
    requires count { length marks.now ≡ cell_count layout.now }
    requires marked { AreMarked grammar.now layout.now marks.now }
    ensures { IsTrue result ↔ IsArc grammar.now arc.now }
{
    if !has_span(grammar, arc) {
        return false;
    }
    let span = Span {
        start: arc.start,
        len: arc.len,
    };
    let rule = rule_of(grammar, arc.rule);
    let suffix = Suffix {
        rule: arc.rule,
        from: arc.suffix,
    };
    if !is_marked(grammar, layout, marks, rule, suffix, span) {
        return false;
    }
    has_split(grammar, layout, cells, rule, suffix, span, arc.part)
}

// The length of the next longer first part with which a suffix may have parts on a span.
fn longer_part(
    grammar: &Grammar,
    layout: &Layout,
    cells: &FreeCells,
    rule: &Rule,
    suffix: Suffix,
    span: Span,
    part: u8,
) -> Option<u8>
    requires sound { IsSound grammar.now }
    requires ready { IsReady grammar.now layout.now cells.now }
    requires filled { AreFilled grammar.now free_view layout.now cells.now }
    requires rule { rule_at grammar.now suffix.rule ≡ Some rule.now }
    requires within { suffix.from < length rule.now.right }
    requires day { InDay grammar.now.periods span.start span.len }
    requires part { part < span.len }
    ensures { IsLongerPart grammar.now (drop suffix.from rule.now.right) span.start span.len part result }
{
    if suffix.from as usize + 1 == rule.right.len() {
        return Some(span.len);
    }
    let points = split_points(grammar, layout, cells, rule, suffix, span);
    let end = span.end();
    let point = points.first_in(span.start + part + 1, end);
    if point < end {
        Some(point - span.start)
    } else {
        None
    }
}

// The length of the next longer first part that may make an arc: the suffix is marked on the span, and
// may have such parts.
fn next_part(
    grammar: &Grammar,
    layout: &Layout,
    cells: &FreeCells,
    marks: &[bool],
    arc: ArcKey,
) -> Option<u8>
    requires sound { IsSound grammar.now }
    requires ready { IsReady grammar.now layout.now cells.now }
    requires filled { AreFilled grammar.now free_view layout.now cells.now }
    requires count { length marks.now ≡ cell_count layout.now }
    requires marked { AreMarked grammar.now layout.now marks.now }
    ensures { IsPartStep grammar.now arc result }
{
    if arc.len <= arc.part {
        return None;
    }
    if !has_span(grammar, &arc) {
        return None;
    }
    let rule = rule_of(grammar, arc.rule);
    let suffix = Suffix {
        rule: arc.rule,
        from: arc.suffix,
    };
    let span = Span {
        start: arc.start,
        len: arc.len,
    };
    if is_marked(grammar, layout, marks, rule, suffix, span) {
        longer_part(grammar, layout, cells, rule, suffix, span, arc.part)
    } else {
        None
    }
}

// The first key of a later suffix or rule.
fn next_suffix(grammar: &Grammar, arc: ArcKey) -> Option<ArcKey>
    requires sound { IsSound grammar.now }
    ensures { IsSuffixStep grammar.now arc result }
{
    let first = ArcKey {
        rule: arc.rule,
        suffix: 0,
        start: 1,
        len: 1,
        part: 1,
    };
    let rules = grammar.rules.len();
    if 1 <= arc.rule && arc.rule as usize <= rules {
        let symbols = rule_of(grammar, arc.rule).right.len();
        if arc.suffix as usize + 1 < symbols {
            return Some(ArcKey {
                suffix: arc.suffix + 1,
                ..first
            });
        }
    }
    if (arc.rule as usize) < rules {
        return Some(ArcKey {
            rule: arc.rule + 1,
            ..first
        });
    }
    None
}

// The first key after this one that may be an arc.
#[inline(always)]
fn step(
    grammar: &Grammar,
    layout: &Layout,
    cells: &FreeCells,
    marks: &[bool],
    arc: ArcKey,
) -> Option<ArcKey>
    requires sound { IsSound grammar.now }
    requires ready { IsReady grammar.now layout.now cells.now }
    requires filled { AreFilled grammar.now free_view layout.now cells.now }
    requires count { length marks.now ≡ cell_count layout.now }
    requires marked { AreMarked grammar.now layout.now marks.now }
    ensures { IsStep grammar.now arc result }
{
    let periods = grammar.periods;
    if let Some(part) = next_part(grammar, layout, cells, marks, arc) {
        return Some(ArcKey { part, ..arc });
    }
    if arc.start as usize + arc.len as usize <= periods as usize {
        return Some(ArcKey {
            len: arc.len + 1,
            part: 1,
            ..arc
        });
    }
    if arc.start < periods {
        return Some(ArcKey {
            start: arc.start + 1,
            len: 1,
            part: 1,
            ..arc
        });
    }
    next_suffix(grammar, arc)
}

// The first key after the given one that may be an arc, or the first of all.
fn first_key(
    grammar: &Grammar,
    layout: &Layout,
    cells: &FreeCells,
    marks: &[bool],
    after: Option<ArcKey>,
) -> Option<ArcKey>
    requires sound { IsSound grammar.now }
    requires ready { IsReady grammar.now layout.now cells.now }
    requires filled { AreFilled grammar.now free_view layout.now cells.now }
    requires count { length marks.now ≡ cell_count layout.now }
    requires marked { AreMarked grammar.now layout.now marks.now }
    ensures { IsSought grammar.now after result }
{
    match after {
        Some(arc) => step(grammar, layout, cells, marks, arc),
        None => Some(ArcKey {
            rule: 1,
            suffix: 0,
            start: 1,
            len: 1,
            part: 1,
        }),
    }
}

/// Returns the first arc of the instance after the given one, or the first of all where none is given.
pub fn next_arc(
    grammar: &Grammar,
    layout: &Layout,
    cells: &FreeCells,
    marks: &[bool],
    after: Option<ArcKey>,
) -> Option<ArcKey>
    requires sound { IsSound grammar.now }
    requires ready { IsReady grammar.now layout.now cells.now }
    requires filled { AreFilled grammar.now free_view layout.now cells.now }
    requires count { length marks.now ≡ cell_count layout.now }
    requires marked { AreMarked grammar.now layout.now marks.now }
    ensures { IsNextArc grammar.now after result }
{
    let mut next = first_key(grammar, layout, cells, marks, after);
    while let Some(arc) = next {
        if is_arc(grammar, layout, cells, marks, &arc) {
            return Some(arc);
        }
        next = step(grammar, layout, cells, marks, arc);
    }
    None
}
