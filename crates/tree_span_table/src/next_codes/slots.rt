//! All totals, slot by slot.

ghost use Rattle.std.specs.Prelude.{ℕ, ℤ, ◌≡◌, ◌≤◌, ◌<◌, ◌+◌, ◌*◌, Some, length};
ghost use Rattle.model_rosters.specs.declared.grammar.Grammar.{Grammar as Rules};
ghost use Rattle.model_rosters.specs.Grammar.{InDay};
ghost use Rattle.tree_span_cells.specs.Places.{shorter, place_of};
ghost use Rattle.tree_span_cells.specs.Cells.{IsReady, AreFilled, cell_count, place};
ghost use Rattle.model_rosters.specs.Sound.{IsSound};
ghost use Rattle.model_rosters.specs.Sums.{SymbolLeast};
ghost use Rattle.tree_span_table.specs.next_codes.Marginals.{IsMarginal};
ghost use Rattle.tree_span_table.specs.next_codes.Totals.{AreLowered, AreThrough, AreCounted, letter_total};
ghost use Rattle.tree_span_table.specs.next_codes.Pushes.{IsPushing, DoneFrom, SymbolDue};

use crate::next_codes::lowering::lower_symbol;
use crate::next_codes::names::push_name;
use crate::next_codes::parts::push_parts;
use crate::next_codes::totals::Totals;
use model_rosters::{Grammar, LetterPrice, Sym, rule_of};
use tree_span_cells::{Layout, Slot, Span, SumCells, place_of, sum_at, symbol_least};

// Pushes the total of a slot on a span, where there is one, to the totals of what it is made of.
fn push_slot<P: LetterPrice>(
    grammar: &Grammar,
    prices: &P,
    layout: &Layout,
    inside: &SumCells,
    totals: &mut Totals,
    slot: usize,
    span: Span,
)
    requires pushing { IsPushing grammar.now (P.view prices.now) layout.now inside.now totals.old }
    requires day { InDay grammar.now.periods span.start span.len }
    requires slot { slot < length layout.now.slots.items }
    requires later { DoneFrom grammar.now (P.view prices.now) layout.now totals.old
        (place layout.now slot span.start span.len + 1) }
    ensures done { DoneFrom grammar.now (P.view prices.now) layout.now totals.new
        (place layout.now slot span.start span.len) }
    ensures lowered { AreLowered (place layout.now slot span.start span.len) totals.old totals.new }
    ensures through { AreThrough grammar.now (P.view prices.now) layout.now totals.new }
{
    let place = place_of(layout, slot, span);
    let Some(total) = totals.cells[place].sum() else {
        return;
    };
    let Some(sum) = sum_at(layout, inside, slot, span) else {
        return;
    };
    let outside = total - sum;
    match layout.slots[slot] {
        Slot::OfName(name) => {
            push_name(grammar, prices, layout, inside, totals, name, span, outside);
        }
        Slot::OfSuffix(suffix) => {
            let rule = rule_of(grammar, suffix.rule);
            push_parts(
                grammar, prices, layout, inside, totals, rule, suffix, span, outside,
            );
        }
    }
}

// Pushes the totals of the span at a place.
fn push_span<P: LetterPrice>(
    grammar: &Grammar,
    prices: &P,
    layout: &Layout,
    inside: &SumCells,
    totals: &mut Totals,
    place: usize,
)
    requires pushing { IsPushing grammar.now (P.view prices.now) layout.now inside.now totals.old }
    requires place { place < shorter layout.now.spans layout.now.spans }
    requires later { DoneFrom grammar.now (P.view prices.now) layout.now totals.old
        ((place + 1) * length layout.now.slots.items) }
    ensures done { DoneFrom grammar.now (P.view prices.now) layout.now totals.new
        (place * length layout.now.slots.items) }
    ensures lowered { AreLowered ((place + 1) * length layout.now.slots.items) totals.old totals.new }
    ensures through { AreThrough grammar.now (P.view prices.now) layout.now totals.new }
{
    let (start, len) = layout.spans.span(place);
    let span = Span { start, len };
    for slot in (0..layout.slots.len()).rev() {
        push_slot(grammar, prices, layout, inside, totals, slot, span);
    }
}

// Begins with the start name on the day, whose trees have nothing around them.
fn begin<P: LetterPrice>(
    grammar: &Grammar,
    prices: &P,
    layout: &Layout,
    inside: &SumCells,
    totals: &mut Totals,
)
    requires pushing { IsPushing grammar.now (P.view prices.now) layout.now inside.now totals.old }
    ensures due { (a : ℤ) → SymbolLeast grammar.now (P.view prices.now) (Sym.Name grammar.now.start) 1
        grammar.now.periods (Some a)
        → SymbolDue layout.now totals.new (Sym.Name grammar.now.start) 1 grammar.now.periods a }
    ensures counted { AreCounted grammar.now layout.now totals.new }
    ensures through { AreThrough grammar.now (P.view prices.now) layout.now totals.new }
{
    let day = Span {
        start: 1,
        len: grammar.periods,
    };
    let start = Sym::Name(grammar.start);
    if let Some(sum) = symbol_least(grammar, prices, layout, inside, start, day) {
        lower_symbol(grammar, layout, totals, start, day, sum);
    }
}

// Pushes the totals of all cells.
fn push_all<P: LetterPrice>(
    grammar: &Grammar,
    prices: &P,
    layout: &Layout,
    inside: &SumCells,
    totals: &mut Totals,
)
    requires pushing { IsPushing grammar.now (P.view prices.now) layout.now inside.now totals.old }
    ensures done { DoneFrom grammar.now (P.view prices.now) layout.now totals.new 0 }
    ensures lowered { AreLowered (cell_count layout.now) totals.old totals.new }
    ensures through { AreThrough grammar.now (P.view prices.now) layout.now totals.new }
{
    for place in (0..layout.spans.count()).rev() {
        push_span(grammar, prices, layout, inside, totals, place);
    }
}

/// Makes the total of each letter the least sum of the trees of the day that have it.
pub fn fill_totals<P: LetterPrice>(
    grammar: &Grammar,
    prices: &P,
    layout: &Layout,
    inside: &SumCells,
    totals: &mut Totals,
)
    requires sound { IsSound grammar.now }
    requires ready { IsReady grammar.now layout.now inside.now }
    requires filled { AreFilled grammar.now (P.view prices.now) layout.now inside.now }
    requires counted { AreCounted grammar.now layout.now totals.old }
    ensures counted { (g : Rules) → AreCounted g layout.now totals.old → AreCounted g layout.now totals.new }
    ensures marginals { (c i : ℕ) → c < length grammar.now.codes → 1 ≤ i → i ≤ grammar.now.periods
        → IsMarginal grammar.now (P.view prices.now) c i (letter_total layout.now totals.new c i) }
{
    totals.clear();
    begin(grammar, prices, layout, inside, totals);
    push_all(grammar, prices, layout, inside, totals);
}
