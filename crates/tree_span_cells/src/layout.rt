//! Slots, places and spots.

ghost use Rattle.std.specs.Prelude.{◌≡◌, ◌≤◌, ◌<◌, ◌+◌, ◌*◌, ◌^◌, Some, length};
ghost use Rattle.model_rosters.specs.Grammar.{rule_at, InDay};
ghost use Rattle.model_rosters.specs.Sound.{IsSound};
ghost use Rattle.tree_span_cells.specs.Places.{shorter};
ghost use Rattle.tree_span_cells.specs.Cells.{IsLayoutOf, place, cell, cell_count, spot, spot_count, suffix_slot};
ghost use Rattle.tree_span_cells.specs.Numbers.{number_of};

use crate::cells::Cells;
use crate::slot::{Layout, Span, Suffix};
use model_rosters::{Grammar, Rule};

/// Returns the slot of a suffix that is not the whole right side and not the last symbol alone.
pub fn slot_of(grammar: &Grammar, layout: &Layout, rule: &Rule, suffix: Suffix) -> usize
    requires layout { IsLayoutOf grammar.now layout.now }
    requires rule { rule_at grammar.now suffix.rule ≡ Some rule.now }
    requires inner { 1 ≤ suffix.from }
    requires two { suffix.from + 2 ≤ length rule.now.right }
    ensures slot { result ≡ suffix_slot layout.now suffix.rule suffix.from }
    ensures within { result < length layout.now.slots.items }
{
    layout.suffixes[suffix.rule as usize - 1] + (suffix.from as usize - 1)
}

/// Returns how many cells there are: one for each slot on each span of the day.
pub fn count_cells(grammar: &Grammar, layout: &Layout) -> usize
    requires sound { IsSound grammar.now }
    requires layout { IsLayoutOf grammar.now layout.now }
    ensures { result ≡ cell_count layout.now }
{
    layout.spans.count() * layout.slots.len()
}

/// Returns how many spots there are: one for each slot at each period of the day, at 0, and after the
/// last period.
pub fn count_spots(grammar: &Grammar, layout: &Layout) -> usize
    requires sound { IsSound grammar.now }
    requires layout { IsLayoutOf grammar.now layout.now }
    ensures { result ≡ spot_count layout.now }
{
    (grammar.periods as usize + 2) * layout.slots.len()
}

/// Returns where the cell of a slot on a span stands.
pub fn place_of(layout: &Layout, slot: usize, span: Span) -> usize
    requires day { InDay layout.now.spans span.start span.len }
    requires slot { slot < length layout.now.slots.items }
    requires room { shorter layout.now.spans layout.now.spans * length layout.now.slots.items < 2 ^ 64 }
    ensures place { result ≡ place layout.now slot span.start span.len }
    ensures within { result < shorter layout.now.spans layout.now.spans * length layout.now.slots.items }
{
    layout.spans.place(span.start, span.len) * layout.slots.len() + slot
}

/// Returns where the spans of a slot that begin or end at a period are noted.
pub fn spot_of(layout: &Layout, slot: usize, period: u8) -> usize
    requires slot { slot < length layout.now.slots.items }
    requires few { length layout.now.slots.items < 65536 }
    requires period { period ≤ layout.now.spans + 1 }
    ensures spot { result ≡ spot layout.now slot period }
    ensures within { result < spot_count layout.now }
{
    period as usize * layout.slots.len() + slot
}

/// Returns the sum in the cell of a slot on a span.
pub fn sum_at<C: Cells>(layout: &Layout, cells: &C, slot: usize, span: Span) -> Option<i128>
    requires day { InDay layout.now.spans span.start span.len }
    requires slot { slot < length layout.now.slots.items }
    requires room { shorter layout.now.spans layout.now.spans * length layout.now.slots.items < 2 ^ 64 }
    requires cells { length (C.held cells.now).sums ≡ shorter layout.now.spans layout.now.spans * length
        layout.now.slots.items }
    ensures { result ≡ cell layout.now (C.held cells.now) slot span.start span.len }
{
    cells.sum(place_of(layout, slot, span))
}

/// Returns the number of the sum in the cell of a slot on a span.
pub fn number_at<C: Cells>(layout: &Layout, cells: &C, slot: usize, span: Span) -> i128
    requires day { InDay layout.now.spans span.start span.len }
    requires slot { slot < length layout.now.slots.items }
    requires room { shorter layout.now.spans layout.now.spans * length layout.now.slots.items < 2 ^ 64 }
    requires cells { length (C.held cells.now).sums ≡ shorter layout.now.spans layout.now.spans * length
        layout.now.slots.items }
    ensures { result ≡ number_of (cell layout.now (C.held cells.now) slot span.start span.len) }
{
    cells.number(place_of(layout, slot, span))
}
