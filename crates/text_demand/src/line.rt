//! One line of a demand text.

ghost use Rattle.std.specs.Prelude.{◌≡◌};
ghost use Rattle.model_rosters.specs.Sound.{IsSound, IsPlain};
ghost use Rattle.text_demand_lines.specs.Steps.{Reads};
ghost use Rattle.text_demand.specs.Lines.{line_at};

use crate::need::{bound, need};
use model_rosters::Grammar;
use std::alloc::Global;
use text_demand_lines::{DemandFault, Draft, read_group, read_heads};
use text_lines::Line;

/// Reads a line.
///
/// # Errors
///
/// The line's first fault, as `line_at` says it, with the line's number. `Memory` may come at any time.
/// Nothing is said of the draft then.
#[tactic(auto, unfolding(crate::specs::Lines::line_at))]
pub fn line(
    alloc: Global,
    grammar: &Grammar,
    draft: &mut Draft,
    line: &Line<'_>,
) -> Result<(), DemandFault>
    requires sound { IsSound grammar.now }
    requires plain { IsPlain grammar.now }
    ensures value { Reads (λ _. (draft.new)) result
        (line_at line.now.number grammar.now draft.old line.now.words) }
{
    let number = line.number();
    let mut words = line.words();
    let Some(first) = words.next() else {
        return Err(DemandFault::UnknownLine { line: number });
    };
    if first == b"heads".as_slice() {
        read_heads(draft, number, &mut words)
    } else if first == b"group".as_slice() {
        read_group(grammar, draft, number, &mut words)
    } else if first == b"need".as_slice() {
        need(alloc, grammar, &mut draft.needs, number, &mut words)
    } else if first == b"least".as_slice() {
        let needs = draft.needs.as_slice();
        bound(alloc, grammar, needs, &mut draft.least, number, &mut words)
    } else if first == b"most".as_slice() {
        let needs = draft.needs.as_slice();
        bound(alloc, grammar, needs, &mut draft.most, number, &mut words)
    } else {
        Err(DemandFault::UnknownLine { line: number })
    }
}
