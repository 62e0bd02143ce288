//! The arcs of one suffix on one span, listed or counted together.

ghost use Rattle.std.specs.Prelude.{ℕ, ◌≡◌, ◌≤◌, ◌<◌, ◌+◌, Some, IfOk, IfSome, length, drop};
ghost use Rattle.model_rosters.specs.Grammar.{rule_at, InDay};
ghost use Rattle.model_rosters.specs.Arcs.{IsArc};
ghost use Rattle.model_rosters.specs.Sound.{IsSound};
ghost use Rattle.tree_span_cells.specs.Cells.{IsReady, AreFilled, cell_count};
ghost use Rattle.tree_span_cells.specs.Periods.{Has};
ghost use Rattle.tree_span_arcs.specs.Ahead.{HasPassed, IsPassed};
ghost use Rattle.tree_span_arcs.specs.Order.{IsLongerPart, key_number};
ghost use Rattle.tree_span_arcs.specs.Marks.{free_view, AreMarked, HasSplit};

use crate::arcs::has_split;
use crate::free_cells::FreeCells;
use model_rosters::{ArcKey, Grammar, List, Memory, Rule, rule_of};
use tree_span_cells::{Layout, Periods, Span, Suffix, split_points};

// The length of the next longer first part with which a suffix of two or more symbols has parts on a
// span, whose split points are given.
fn next_split(
    grammar: &Grammar,
    layout: &Layout,
    cells: &FreeCells,
    rule: &Rule,
    suffix: Suffix,
    span: Span,
    points: Periods,
    part: u8,
) -> Option<u8>
    requires sound { IsSound grammar.now }
    requires ready { IsReady grammar.now layout.now cells.now }
    requires filled { AreFilled grammar.now free_view layout.now cells.now }
    requires day { InDay grammar.now.periods span.start span.len }
    requires rule { rule_at grammar.now suffix.rule ≡ Some rule.now }
    requires within { suffix.from + 2 ≤ length rule.now.right }
    requires points { (m : ℕ) → HasSplit grammar.now (drop suffix.from rule.now.right) span.start span.len m
        → Has points (span.start + m) }
    requires part { part ≤ span.len }
    ensures next { IsLongerPart grammar.now
        (drop suffix.from rule.now.right) span.start span.len part result }
    ensures split { IfSome result
        (HasSplit grammar.now (drop suffix.from rule.now.right) span.start span.len) }
{
    if part == span.len {
        return None;
    }
    let end = span.end();
    let mut point = points.first_in(span.start + part + 1, end);
    while point < end {
        let longer = point - span.start;
        if has_split(grammar, layout, cells, rule, suffix, span, longer) {
            return Some(longer);
        }
        point = points.first_in(point + 1, end);
    }
    None
}

/// Adds an arc of the instance to those that come before it, and all others with the same rule, suffix,
/// start and length that come after it, but for the last of them, which is given back.
///
/// # Errors
///
/// `Memory` where memory runs out; nothing is said of the list then.
pub fn list_run(
    grammar: &Grammar,
    layout: &Layout,
    cells: &FreeCells,
    marks: &[bool],
    arc: ArcKey,
    arcs: &mut List<ArcKey>,
) -> Result<ArcKey, Memory>
    requires sound { IsSound grammar.now }
    requires ready { IsReady grammar.now layout.now cells.now }
    requires filled { AreFilled grammar.now free_view layout.now cells.now }
    requires count { length marks.now ≡ cell_count layout.now }
    requires marked { AreMarked grammar.now layout.now marks.now }
    requires arc { IsArc grammar.now arc }
    ensures passed { IfOk result (λ last. IsPassed grammar.now arcs.old (Some arc)
        → IsPassed grammar.now arcs.new (Some last)) }
    ensures later { IfOk result (λ last. key_number arc ≤ key_number last) }
{
    let rule = rule_of(grammar, arc.rule);
    if arc.suffix as usize + 1 == rule.right.len() {
        return Ok(arc);
    }
    let suffix = Suffix {
        rule: arc.rule,
        from: arc.suffix,
    };
    let span = Span {
        start: arc.start,
        len: arc.len,
    };
    let points = split_points(grammar, layout, cells, rule, suffix, span);
    let mut last = arc;
    while let Some(part) = next_split(
        grammar, layout, cells, rule, suffix, span, points, last.part,
    ) {
        arcs.push(last)?;
        last = ArcKey { part, ..arc };
    }
    Ok(last)
}

/// How many arcs of a run come before its last one.
#[derive(Clone, Copy, Debug, PartialEq, Eq, Drop)]
pub struct Run {
    /// How many, from the given one on: at most 95.
    pub before: u64,
    /// The last one.
    pub last: ArcKey,
}

/// Counts an arc of the instance and all others with the same rule, suffix, start and length that come
/// after it, but for the last of them. Takes no memory.
pub fn count_run(
    grammar: &Grammar,
    layout: &Layout,
    cells: &FreeCells,
    marks: &[bool],
    arc: ArcKey,
) -> Run
    requires sound { IsSound grammar.now }
    requires ready { IsReady grammar.now layout.now cells.now }
    requires filled { AreFilled grammar.now free_view layout.now cells.now }
    requires count { length marks.now ≡ cell_count layout.now }
    requires marked { AreMarked grammar.now layout.now marks.now }
    requires arc { IsArc grammar.now arc }
    ensures passed { (passed : ℕ) → HasPassed grammar.now passed (Some arc)
        → HasPassed grammar.now (passed + result.before) (Some result.last) }
    ensures later { key_number arc ≤ key_number result.last }
{
    let rule = rule_of(grammar, arc.rule);
    let mut last = arc;
    let mut before = 0;
    if arc.suffix as usize + 1 == rule.right.len() {
        return Run { before, last };
    }
    let suffix = Suffix {
        rule: arc.rule,
        from: arc.suffix,
    };
    let span = Span {
        start: arc.start,
        len: arc.len,
    };
    let points = split_points(grammar, layout, cells, rule, suffix, span);
    while let Some(part) = next_split(
        grammar, layout, cells, rule, suffix, span, points, last.part,
    ) {
        before += 1;
        last = ArcKey { part, ..arc };
    }
    Run { before, last }
}
