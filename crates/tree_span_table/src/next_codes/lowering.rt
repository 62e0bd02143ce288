//! Totals, lowered by what is pushed to them.

ghost use Rattle.std.specs.Prelude.{ℕ, ◌≡◌, ◌≤◌, ◌<◌, ◌+◌, ◌*◌, ◌^◌, IsTrue, Some, length, drop};
ghost use Rattle.model_rosters.specs.Grammar.{rule_at, InDay};
ghost use Rattle.model_rosters.specs.Sound.{Exists};
ghost use Rattle.model_rosters.specs.Sums.{PriceView, Within, AtMost};
ghost use Rattle.tree_span_cells.specs.Places.{place_of};
ghost use Rattle.tree_span_cells.specs.Cells.{IsLayoutOf, cell_count, name_slot, place};
ghost use Rattle.tree_span_table.specs.next_codes.Totals.{IsLowered, AreLowered, AreCounted, AreThrough, SymbolThrough, PartsThrough};
ghost use Rattle.tree_span_table.specs.next_codes.Pushes.{symbol_of, SymbolDue, RestDue};

use crate::next_codes::totals::Totals;
use model_rosters::{Grammar, Rule, Sym};
use tree_span_cells::{Layout, PackedSum, Span, Suffix, place_of, slot_of};

// Whether a sum is less than the best one, or there is none.
fn is_less(sum: i128, best: Option<i128>) -> bool
    ensures less { IsTrue result → AtMost (Some sum) best }
    ensures more { ¬ IsTrue result → AtMost best (Some sum) }
{
    match best {
        Some(best) => sum < best,
        None => true,
    }
}

// Lowers the sum at a place to another where that is less.
fn lower(cells: &mut [PackedSum], place: usize, sum: i128)
    requires place { place < length cells.old }
    requires sum { Within (2 ^ 110) sum }
    ensures { IsLowered place (Some sum) cells.old cells.new }
{
    if is_less(sum, cells[place].sum()) {
        cells[place] = PackedSum::new(Some(sum));
    }
}

/// Lowers the total of a symbol on a span to a sum where that is less.
pub fn lower_symbol(
    grammar: &Grammar,
    layout: &Layout,
    totals: &mut Totals,
    symbol: Sym,
    span: Span,
    sum: i128,
)
    requires layout { IsLayoutOf grammar.now layout.now }
    requires room { cell_count layout.now < 2 ^ 64 }
    requires periods { grammar.now.periods ≤ 96 }
    requires counted { AreCounted grammar.now layout.now totals.old }
    requires day { InDay grammar.now.periods span.start span.len }
    requires exists { Exists (length grammar.now.codes) (length grammar.now.names) symbol }
    requires sum { Within (2 ^ 110) sum }
    ensures due { SymbolDue layout.now totals.new symbol span.start span.len sum }
    ensures lowered { (n : ℕ)
        → ((x : ℕ) → symbol ≡ Sym.Name x → place layout.now (name_slot layout.now x) span.start span.len < n)
        → AreLowered n totals.old totals.new }
    ensures through { (p : PriceView) → SymbolThrough grammar.now p symbol span.start span.len sum
        → AreThrough grammar.now p layout.now totals.old → AreThrough grammar.now p layout.now totals.new }
{
    match symbol {
        Sym::Code(code) => {
            let place = code as usize * grammar.periods as usize + (span.start as usize - 1);
            lower(totals.letters.as_mut_slice(), place, sum);
        }
        Sym::Name(name) => {
            let place = place_of(layout, layout.names[name as usize], span);
            lower(totals.cells.as_mut_slice(), place, sum);
        }
    }
}

/// Lowers the total of the symbols of a right side from a suffix on, which is not the whole, on a span to
/// a sum where that is less.
pub fn lower_rest(
    grammar: &Grammar,
    layout: &Layout,
    totals: &mut Totals,
    rule: &Rule,
    suffix: Suffix,
    span: Span,
    sum: i128,
)
    requires layout { IsLayoutOf grammar.now layout.now }
    requires room { cell_count layout.now < 2 ^ 64 }
    requires periods { grammar.now.periods ≤ 96 }
    requires counted { AreCounted grammar.now layout.now totals.old }
    requires day { InDay grammar.now.periods span.start span.len }
    requires rule { rule_at grammar.now suffix.rule ≡ Some rule.now }
    requires inner { 1 ≤ suffix.from }
    requires within { suffix.from < length rule.now.right }
    requires last { Exists (length grammar.now.codes) (length grammar.now.names)
        (symbol_of rule.now.right suffix.from) }
    requires sum { Within (2 ^ 110) sum }
    ensures due { RestDue layout.now totals.new suffix.rule suffix.from rule.now.right span.start span.len
        sum }
    ensures lowered { (n : ℕ)
        → (place_of layout.now.spans span.start span.len + 1) * length layout.now.slots.items ≤ n
        → AreLowered n totals.old totals.new }
    ensures through { (p : PriceView)
        → PartsThrough grammar.now p suffix.rule suffix.from (drop suffix.from rule.now.right) span.start
        span.len sum
        → AreThrough grammar.now p layout.now totals.old → AreThrough grammar.now p layout.now totals.new }
{
    let right = rule.right.as_slice();
    let from = suffix.from as usize;
    if from + 1 == right.len() {
        lower_symbol(grammar, layout, totals, right[from], span, sum);
    } else {
        let slot = slot_of(grammar, layout, rule, suffix);
        let place = place_of(layout, slot, span);
        lower(totals.cells.as_mut_slice(), place, sum);
    }
}
