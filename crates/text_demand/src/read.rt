//! A demand text, read from its first line to its end.

ghost use Rattle.std.specs.Prelude.{◌≡◌, ◌<◌, ◌^◌, length, IfOk};
ghost use Rattle.model_rosters.specs.Sound.{IsSound, IsPlain};
ghost use Rattle.model_rosters.specs.SoundInstance.{IsSoundInstance};
ghost use Rattle.text_demand_lines.specs.Steps.{Reads};
ghost use Rattle.text_demand.specs.Lines.{item_at};
ghost use Rattle.text_demand.specs.InstanceOf.{no_draft, draft_of, instance_of};

use crate::from_draft::finish;
use crate::line::line;
use model_rosters::{Grammar, Instance, List};
use std::alloc::Global;
use text_demand_lines::{DemandFault, Draft};
use text_lines::{BadByte, Line, Lines};

// Returns the draft before any line.
fn no_draft(alloc: Global) -> Draft
    ensures { result ≡ no_draft }
{
    Draft {
        heads: None,
        groups: List::new(alloc),
        needs: List::new(alloc),
        least: List::new(alloc),
        most: List::new(alloc),
    }
}

// Reads a line, or refuses it for a bad byte.
fn item(
    alloc: Global,
    grammar: &Grammar,
    draft: &mut Draft,
    item: Result<Line<'_>, BadByte>,
) -> Result<(), DemandFault>
    requires sound { IsSound grammar.now }
    requires plain { IsPlain grammar.now }
    ensures value { Reads (λ _. (draft.new)) result (item_at grammar.now draft.old item.entry) }
{
    match item {
        Ok(words) => line(alloc, grammar, draft, &words),
        Err(BadByte { line }) => Err(DemandFault::BadByte { line }),
    }
}

// Reads all lines of a text.
fn lines(alloc: Global, grammar: &Grammar, text: &[u8]) -> Result<Draft, DemandFault>
    requires sound { IsSound grammar.now }
    requires plain { IsPlain grammar.now }
    requires short { length text.now < 2 ^ 32 }
    ensures { Reads (λ d. d) result (draft_of grammar.now text.now) }
{
    let mut draft = no_draft(alloc);
    let mut lines = Lines::new(text);
    while let Some(next) = lines.next() {
        item(alloc, grammar, &mut draft, next)?;
    }
    Ok(draft)
}

/// Reads a demand text for the grammar of its rules: the instance, which is sound, or the first fault of the
/// text. With groups the grammar of the instance is the given one extended by them.
///
/// A text that is too long is refused before all else. Then the lines are read in order, and the first that
/// cannot stand gives the fault; in a line a bad byte comes first, then its form. That neither a `heads` line
/// nor a `group` line stands comes last.
///
/// # Errors
///
/// The first fault of the text, in this order; `Memory` may come at any time. The grammar is dropped then.
#[tactic(auto, unfolding(crate::specs::InstanceOf::instance_of))]
pub fn read_demand(alloc: Global, grammar: Grammar, text: &[u8]) -> Result<Instance, DemandFault>
    requires sound { IsSound grammar }
    requires plain { IsPlain grammar }
    ensures value { Reads (λ i. i) result (instance_of grammar text.now) }
    ensures sound { IfOk result IsSoundInstance }
{
    if 1_048_576 < text.len() {
        return Err(DemandFault::TooLong);
    }
    let draft = lines(alloc, &grammar, text)?;
    finish(alloc, grammar, draft)
}
