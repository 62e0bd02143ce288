//! What stands in trees of the day.

ghost use Rattle.std.specs.Prelude.{◌≡◌, ◌≤◌, ◌<◌, ◌+◌, ◌-◌, ◌*◌, ℕ, IsTrue, Some, true, length, drop, slice_get, slice_index_or};
ghost use Rattle.model_rosters.specs.declared.grammar.Rule.{Rule as RuleValue};
ghost use Rattle.model_rosters.specs.Grammar.{rule_at, InDay};
ghost use Rattle.model_rosters.specs.Sound.{IsSound, Exists};
ghost use Rattle.tree_span_cells.specs.Places.{shorter, place_of};
ghost use Rattle.tree_span_cells.specs.declared.slot.Slot.{Slot as Use};
ghost use Rattle.tree_span_cells.specs.Cells.{IsLayoutOf, IsReady, AreFilled, cell_count, place, name_slot, suffix_slot};
ghost use Rattle.tree_span_arcs.specs.Marks.{free_view, mark, TreesStand, PartsStand, IsBefore, SymbolMarked, RestMarked, SplitMarked, PartsClosed, RuleClosed, SlotClosed, AreTrue, ClosedFrom, Adds, AreMarked};

use crate::derive::{rest_derives, symbol_derives};
use crate::free_cells::FreeCells;
use model_rosters::{Grammar, Rule, Sym, rule_of};
use tree_span_cells::{Layout, Slot, Span, Suffix, may_stand, place_of, slot_of, split_points};

// Marks a symbol on a span: a name by its slot, and a code not at all.
fn mark_symbol(grammar: &Grammar, layout: &Layout, marks: &mut [bool], symbol: Sym, span: Span)
    requires sound { IsSound grammar.now }
    requires layout { IsLayoutOf grammar.now layout.now }
    requires count { length marks.old ≡ cell_count layout.now }
    requires day { InDay grammar.now.periods span.start span.len }
    requires exists { Exists (length grammar.now.codes) (length grammar.now.names) symbol }
    requires stand { TreesStand grammar.now symbol span.start span.len }
    ensures adds { (n : ℕ) → IsBefore layout.now symbol span.start span.len n
        → Adds grammar.now layout.now n marks.old marks.new }
    ensures marked { SymbolMarked layout.now marks.new symbol span.start span.len }
{
    if let Sym::Name(name) = symbol {
        marks[place_of(layout, layout.names[name as usize], span)] = true;
    }
}

// Marks a suffix that is not the whole right side on a span.
fn mark_rest(
    grammar: &Grammar,
    layout: &Layout,
    marks: &mut [bool],
    rule: &Rule,
    suffix: Suffix,
    span: Span,
)
    requires sound { IsSound grammar.now }
    requires layout { IsLayoutOf grammar.now layout.now }
    requires count { length marks.old ≡ cell_count layout.now }
    requires day { InDay grammar.now.periods span.start span.len }
    requires rule { rule_at grammar.now suffix.rule ≡ Some rule.now }
    requires inner { 1 ≤ suffix.from }
    requires within { suffix.from < length rule.now.right }
    requires stand { PartsStand grammar.now suffix.rule suffix.from (drop suffix.from rule.now.right)
        span.start span.len }
    ensures adds { (n : ℕ) → place layout.now (length layout.now.slots.items) span.start span.len ≤ n
        → Adds grammar.now layout.now n marks.old marks.new }
    ensures marked { RestMarked layout.now marks.new suffix.rule suffix.from (drop suffix.from rule.now.right)
        span.start span.len }
{
    let right = rule.right.as_slice();
    let from = suffix.from as usize;
    if from + 1 == right.len() {
        mark_symbol(grammar, layout, marks, right[from], span);
    } else {
        let slot = slot_of(grammar, layout, rule, suffix);
        marks[place_of(layout, slot, span)] = true;
    }
}

// Whether a symbol is marked on a span. A code needs no mark.
#[inline(always)]
fn is_symbol_marked(
    grammar: &Grammar,
    layout: &Layout,
    marks: &[bool],
    symbol: Sym,
    span: Span,
) -> bool
    requires sound { IsSound grammar.now }
    requires layout { IsLayoutOf grammar.now layout.now }
    requires count { length marks.now ≡ cell_count layout.now }
    requires day { InDay grammar.now.periods span.start span.len }
    requires exists { Exists (length grammar.now.codes) (length grammar.now.names) symbol }
    ensures { IsTrue result → SymbolMarked layout.now marks.now symbol span.start span.len }
{
    match symbol {
        Sym::Code(_) => true,
        Sym::Name(name) => marks[place_of(layout, layout.names[name as usize], span)],
    }
}

// Whether a suffix that is not the whole right side is marked on a span.
#[inline(always)]
fn is_rest_marked(
    grammar: &Grammar,
    layout: &Layout,
    marks: &[bool],
    rule: &Rule,
    suffix: Suffix,
    span: Span,
) -> bool
    requires sound { IsSound grammar.now }
    requires layout { IsLayoutOf grammar.now layout.now }
    requires count { length marks.now ≡ cell_count layout.now }
    requires day { InDay grammar.now.periods span.start span.len }
    requires rule { rule_at grammar.now suffix.rule ≡ Some rule.now }
    requires inner { 1 ≤ suffix.from }
    requires within { suffix.from < length rule.now.right }
    ensures { IsTrue result → RestMarked layout.now marks.now suffix.rule suffix.from
        (drop suffix.from rule.now.right) span.start span.len }
{
    let right = rule.right.as_slice();
    let from = suffix.from as usize;
    if from + 1 == right.len() {
        is_symbol_marked(grammar, layout, marks, right[from], span)
    } else {
        let slot = slot_of(grammar, layout, rule, suffix);
        marks[place_of(layout, slot, span)]
    }
}

// Marks a first part of this length and the others, where both derive, whatever is marked.
fn mark_derived(
    grammar: &Grammar,
    layout: &Layout,
    cells: &FreeCells,
    marks: &mut [bool],
    rule: &Rule,
    suffix: Suffix,
    span: Span,
    part: u8,
)
    requires sound { IsSound grammar.now }
    requires ready { IsReady grammar.now layout.now cells.now }
    requires filled { AreFilled grammar.now free_view layout.now cells.now }
    requires count { length marks.old ≡ cell_count layout.now }
    requires day { InDay grammar.now.periods span.start span.len }
    requires rule { rule_at grammar.now suffix.rule ≡ Some rule.now }
    requires within { suffix.from + 2 ≤ length rule.now.right }
    requires stand { PartsStand grammar.now suffix.rule suffix.from (drop suffix.from rule.now.right)
        span.start span.len }
    requires some { 1 ≤ part }
    requires others { part < span.len }
    ensures adds { Adds grammar.now layout.now (place layout.now 0 span.start span.len) marks.old marks.new }
    ensures marked { SplitMarked grammar.now layout.now marks.new suffix.rule suffix.from
        (slice_index_or rule.now.right suffix.from (Sym.Code 0)) (drop (suffix.from + 1) rule.now.right)
        span.start part (span.len - part) }
{
    let symbol = rule.right.as_slice()[suffix.from as usize];
    let next = Suffix {
        rule: suffix.rule,
        from: suffix.from + 1,
    };
    let first = Span {
        start: span.start,
        len: part,
    };
    let others = Span {
        start: span.start + part,
        len: span.len - part,
    };
    if !symbol_derives(grammar, layout, cells, symbol, first) {
        return;
    }
    if !rest_derives(grammar, layout, cells, rule, next, others) {
        return;
    }
    mark_symbol(grammar, layout, marks, symbol, first);
    mark_rest(grammar, layout, marks, rule, next, others);
}

// Marks a first part of this length and the others, where both derive. Where both are marked, nothing is
// looked for.
#[inline(always)]
fn mark_split(
    grammar: &Grammar,
    layout: &Layout,
    cells: &FreeCells,
    marks: &mut [bool],
    rule: &Rule,
    suffix: Suffix,
    span: Span,
    part: u8,
)
    requires sound { IsSound grammar.now }
    requires ready { IsReady grammar.now layout.now cells.now }
    requires filled { AreFilled grammar.now free_view layout.now cells.now }
    requires count { length marks.old ≡ cell_count layout.now }
    requires day { InDay grammar.now.periods span.start span.len }
    requires rule { rule_at grammar.now suffix.rule ≡ Some rule.now }
    requires within { suffix.from + 2 ≤ length rule.now.right }
    requires stand { PartsStand grammar.now suffix.rule suffix.from (drop suffix.from rule.now.right)
        span.start span.len }
    requires some { 1 ≤ part }
    requires others { part < span.len }
    ensures adds { Adds grammar.now layout.now (place layout.now 0 span.start span.len) marks.old marks.new }
    ensures marked { SplitMarked grammar.now layout.now marks.new suffix.rule suffix.from
        (slice_index_or rule.now.right suffix.from (Sym.Code 0)) (drop (suffix.from + 1) rule.now.right)
        span.start part (span.len - part) }
{
    let symbol = rule.right.as_slice()[suffix.from as usize];
    let next = Suffix {
        rule: suffix.rule,
        from: suffix.from + 1,
    };
    let first = Span {
        start: span.start,
        len: part,
    };
    let others = Span {
        start: span.start + part,
        len: span.len - part,
    };
    if is_rest_marked(grammar, layout, marks, rule, next, others)
        && is_symbol_marked(grammar, layout, marks, symbol, first)
    {
        return;
    }
    mark_derived(grammar, layout, cells, marks, rule, suffix, span, part);
}

// Marks what the parts of a suffix of two or more symbols are made of on a span.
fn mark_parts(
    grammar: &Grammar,
    layout: &Layout,
    cells: &FreeCells,
    marks: &mut [bool],
    rule: &Rule,
    suffix: Suffix,
    span: Span,
)
    requires sound { IsSound grammar.now }
    requires ready { IsReady grammar.now layout.now cells.now }
    requires filled { AreFilled grammar.now free_view layout.now cells.now }
    requires count { length marks.old ≡ cell_count layout.now }
    requires day { InDay grammar.now.periods span.start span.len }
    requires rule { rule_at grammar.now suffix.rule ≡ Some rule.now }
    requires within { suffix.from + 2 ≤ length rule.now.right }
    requires stand { PartsStand grammar.now suffix.rule suffix.from (drop suffix.from rule.now.right)
        span.start span.len }
    ensures adds { Adds grammar.now layout.now (place layout.now 0 span.start span.len) marks.old marks.new }
    ensures closed { PartsClosed grammar.now layout.now marks.new suffix.rule suffix.from
        (drop suffix.from rule.now.right) span.start span.len }
{
    let points = split_points(grammar, layout, cells, rule, suffix, span);
    let end = span.end();
    let mut point = points.first_in(span.start + 1, end);
    while point < end {
        let part = point - span.start;
        mark_split(grammar, layout, cells, marks, rule, suffix, span, part);
        point = points.first_in(point + 1, end);
    }
}

// Marks what a rule's right side is made of on a span.
fn mark_right(
    grammar: &Grammar,
    layout: &Layout,
    cells: &FreeCells,
    marks: &mut [bool],
    rule: &Rule,
    number: u8,
    span: Span,
)
    requires sound { IsSound grammar.now }
    requires ready { IsReady grammar.now layout.now cells.now }
    requires filled { AreFilled grammar.now free_view layout.now cells.now }
    requires count { length marks.old ≡ cell_count layout.now }
    requires day { InDay grammar.now.periods span.start span.len }
    requires rule { rule_at grammar.now number ≡ Some rule.now }
    requires stand { PartsStand grammar.now number 0 rule.now.right span.start span.len }
    ensures adds { Adds grammar.now layout.now (place layout.now (name_slot layout.now rule.now.left)
        span.start span.len) marks.old marks.new }
    ensures closed { PartsClosed grammar.now layout.now marks.new number 0 rule.now.right span.start
        span.len }
{
    let right = rule.right.as_slice();
    if right.len() == 1 {
        mark_symbol(grammar, layout, marks, right[0], span);
    } else {
        let whole = Suffix {
            rule: number,
            from: 0,
        };
        mark_parts(grammar, layout, cells, marks, rule, whole, span);
    }
}

// Marks what the trees of a name by one rule are made of on a span.
fn mark_rule(
    grammar: &Grammar,
    layout: &Layout,
    cells: &FreeCells,
    marks: &mut [bool],
    name: u8,
    number: u8,
    span: Span,
)
    requires sound { IsSound grammar.now }
    requires ready { IsReady grammar.now layout.now cells.now }
    requires filled { AreFilled grammar.now free_view layout.now cells.now }
    requires count { length marks.old ≡ cell_count layout.now }
    requires day { InDay grammar.now.periods span.start span.len }
    requires some { 1 ≤ number }
    requires rule { number ≤ length grammar.now.rules }
    requires left { (rule : RuleValue) → rule_at grammar.now number ≡ Some rule → rule.left ≡ name }
    requires stand { TreesStand grammar.now (Sym.Name name) span.start span.len }
    ensures adds { Adds grammar.now layout.now (place layout.now (name_slot layout.now name) span.start
        span.len) marks.old marks.new }
    ensures closed { RuleClosed grammar.now layout.now marks.new name span.start span.len number }
{
    let rule = rule_of(grammar, number);
    if !may_stand(rule, grammar.periods, span.start, span.len) {
        return;
    }
    mark_right(grammar, layout, cells, marks, rule, number, span);
}

// Marks what the trees of a name are made of on a span.
fn mark_rules(
    grammar: &Grammar,
    layout: &Layout,
    cells: &FreeCells,
    marks: &mut [bool],
    name: u8,
    span: Span,
)
    requires sound { IsSound grammar.now }
    requires ready { IsReady grammar.now layout.now cells.now }
    requires filled { AreFilled grammar.now free_view layout.now cells.now }
    requires count { length marks.old ≡ cell_count layout.now }
    requires name { name < length grammar.now.names }
    requires day { InDay grammar.now.periods span.start span.len }
    requires stand { TreesStand grammar.now (Sym.Name name) span.start span.len }
    ensures adds { Adds grammar.now layout.now (place layout.now (name_slot layout.now name) span.start
        span.len) marks.old marks.new }
    ensures closed { SlotClosed grammar.now layout.now marks.new (Use.OfName name) span.start span.len }
{
    let rules = grammar.rules.len();
    let mut number = layout.chains.first[name as usize];
    while number as usize <= rules {
        mark_rule(grammar, layout, cells, marks, name, number, span);
        number = layout.chains.next[number as usize - 1];
    }
}

// Marks what a slot that is marked on a span is made of.
fn mark_slot(
    grammar: &Grammar,
    layout: &Layout,
    cells: &FreeCells,
    marks: &mut [bool],
    slot: usize,
    span: Span,
)
    requires sound { IsSound grammar.now }
    requires ready { IsReady grammar.now layout.now cells.now }
    requires filled { AreFilled grammar.now free_view layout.now cells.now }
    requires count { length marks.old ≡ cell_count layout.now }
    requires day { InDay grammar.now.periods span.start span.len }
    requires slot { slot < length layout.now.slots.items }
    requires truth { AreTrue grammar.now layout.now marks.old }
    ensures adds { Adds grammar.now layout.now (place layout.now slot span.start span.len) marks.old
        marks.new }
    ensures closed { (what : Use) → slice_get layout.now.slots.items slot ≡ Some what
        → mark layout.now marks.new slot span.start span.len ≡ true
        → SlotClosed grammar.now layout.now marks.new what span.start span.len }
{
    if !marks[place_of(layout, slot, span)] {
        return;
    }
    match layout.slots[slot] {
        Slot::OfName(name) => mark_rules(grammar, layout, cells, marks, name, span),
        Slot::OfSuffix(suffix) => {
            let rule = rule_of(grammar, suffix.rule);
            mark_parts(grammar, layout, cells, marks, rule, suffix, span);
        }
    }
}

// The span that comes before one: by length, then by start.
fn before(periods: u8, span: Span) -> Span
    requires few { periods ≤ 96 }
    requires day { InDay periods span.start span.len }
    ensures place { 1 ≤ place_of periods span.start span.len
        → place_of periods result.start result.len ≡ place_of periods span.start span.len - 1 }
    ensures day { 1 ≤ place_of periods span.start span.len → InDay periods result.start result.len }
{
    if span.start > 1 {
        Span {
            start: span.start - 1,
            len: span.len,
        }
    } else {
        Span {
            start: periods + 2 - span.len,
            len: span.len - 1,
        }
    }
}

// Marks what the marked slots of a span are made of, which stands at a place.
fn mark_span(
    grammar: &Grammar,
    layout: &Layout,
    cells: &FreeCells,
    marks: &mut [bool],
    place: usize,
    span: Span,
)
    requires sound { IsSound grammar.now }
    requires ready { IsReady grammar.now layout.now cells.now }
    requires filled { AreFilled grammar.now free_view layout.now cells.now }
    requires count { length marks.old ≡ cell_count layout.now }
    requires place { place < shorter layout.now.spans layout.now.spans }
    requires day { InDay layout.now.spans span.start span.len }
    requires at { place_of layout.now.spans span.start span.len ≡ place }
    requires truth { AreTrue grammar.now layout.now marks.old }
    requires closed { ClosedFrom grammar.now layout.now marks.old
        ((place + 1) * length layout.now.slots.items) }
    ensures adds { Adds grammar.now layout.now ((place + 1) * length layout.now.slots.items) marks.old
        marks.new }
    ensures closed { ClosedFrom grammar.now layout.now marks.new (place * length layout.now.slots.items) }
{
    for slot in (0..layout.slots.len()).rev() {
        mark_slot(grammar, layout, cells, marks, slot, span);
    }
}

// Marks what the marked slots of all spans are made of, the longest spans first.
fn mark_spans(grammar: &Grammar, layout: &Layout, cells: &FreeCells, marks: &mut [bool])
    requires sound { IsSound grammar.now }
    requires ready { IsReady grammar.now layout.now cells.now }
    requires filled { AreFilled grammar.now free_view layout.now cells.now }
    requires count { length marks.old ≡ cell_count layout.now }
    requires truth { AreTrue grammar.now layout.now marks.old }
    ensures adds { Adds grammar.now layout.now (cell_count layout.now) marks.old marks.new }
    ensures closed { ClosedFrom grammar.now layout.now marks.new 0 }
{
    let mut span = Span {
        start: 1,
        len: grammar.periods,
    };
    for place in (0..layout.spans.count()).rev() {
        mark_span(grammar, layout, cells, marks, place, span);
        span = before(grammar.periods, span);
    }
}

/// Marks the names and suffixes that stand in trees of the day, by cells that are filled for free
/// prices. Takes no memory.
pub fn mark_all(grammar: &Grammar, layout: &Layout, cells: &FreeCells, marks: &mut [bool])
    requires sound { IsSound grammar.now }
    requires ready { IsReady grammar.now layout.now cells.now }
    requires filled { AreFilled grammar.now free_view layout.now cells.now }
    requires count { length marks.old ≡ cell_count layout.now }
    ensures marked { AreMarked grammar.now layout.now marks.new }
{
    marks.fill(false);
    let day = Span {
        start: 1,
        len: grammar.periods,
    };
    mark_symbol(grammar, layout, marks, Sym::Name(grammar.start), day);
    mark_spans(grammar, layout, cells, marks);
}
