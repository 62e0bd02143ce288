//! A line behind the day line.

ghost use Rattle.std.specs.Prelude.{◌≡◌};
ghost use Rattle.plan_fields.specs.Steps.{Reads};
ghost use Rattle.plan_lines.specs.DraftLines.{draft_line};

use crate::codes::{code_line, extra_line, need_line};
use crate::duties::duty_line;
use crate::money::money_line;
use crate::staff::staff_line;
use crate::starts::{change_line, starts_line, stretch_line};
use plan_faults::{Kind, LineFault};
use plan_fields::Draft;
use plan_words::Day;
use std::alloc::Global;
use text_lines::Words;

/// Reads a line of a kind behind the day line, behind its first word.
///
/// # Errors
///
/// The first fault of the line; `Memory` where memory runs out. Nothing is said of the draft then.
#[tactic(auto, unfolding(crate::specs::DraftLines::draft_line))]
pub(crate) fn draft_line(
    alloc: Global,
    day: &Day,
    draft: &mut Draft,
    number: u32,
    kind: Kind,
    words: &mut Words<'_>,
) -> Result<(), LineFault>
    ensures { Reads (λ _. (draft.new)) result (draft_line number day.now draft.old kind words.old) }
{
    match kind {
        Kind::Title => Ok(()),
        Kind::Day => Ok(()),
        Kind::Money => money_line(alloc, draft, words),
        Kind::Work => code_line(alloc, day, draft, true, words),
        Kind::Pause => code_line(alloc, day, draft, false, words),
        Kind::Extra => extra_line(alloc, day, draft, words),
        Kind::Change => change_line(alloc, draft, words),
        Kind::Stretch => stretch_line(alloc, day, draft, words),
        Kind::Starts => starts_line(alloc, day, draft, words),
        Kind::Duty => duty_line(alloc, day, draft, number, words),
        Kind::Staff => staff_line(alloc, draft, words),
        Kind::Need => need_line(alloc, day, draft, words),
    }
}
