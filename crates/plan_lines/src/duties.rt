//! Duty lines.

ghost use Rattle.std.specs.Prelude.{◌≡◌};
ghost use Rattle.plan_fields.specs.Steps.{Reads};
ghost use Rattle.plan_lines.specs.StaffLines.{duty_line, new_duty};

use plan_duties::{fits, read_duty};
use plan_faults::LineFault;
use plan_fields::{Draft, decimals_of};
use plan_meaning::Duty;
use plan_words::Day;
use std::alloc::Global;
use text_lines::Words;

// Reads the words of a duty line, and checks that the duty can be.
#[tactic(auto, unfolding(crate::specs::StaffLines::new_duty))]
fn new_duty(
    alloc: Global,
    day: &Day,
    draft: &Draft,
    number: u32,
    words: &mut Words<'_>,
) -> Result<Duty, LineFault>
    ensures { Reads (λ x. x) result (new_duty number day.now draft.now words.old) }
{
    let codes = draft.codes.as_slice();
    let duty = read_duty(alloc, day, decimals_of(draft), codes, number, words)?;
    fits(alloc, day, draft, &duty)?;
    Ok(duty)
}

/// Reads a duty line of the number `number`, behind its first word.
///
/// # Errors
///
/// The first fault of the words, then of what they ask together.
#[tactic(auto, unfolding(crate::specs::StaffLines::duty_line))]
pub(crate) fn duty_line(
    alloc: Global,
    day: &Day,
    draft: &mut Draft,
    number: u32,
    words: &mut Words<'_>,
) -> Result<(), LineFault>
    ensures { Reads (λ _. (draft.new)) result (duty_line number day.now draft.old words.old) }
{
    let duty = new_duty(alloc, day, draft, number, words)?;
    draft.duties.push(duty)?;
    Ok(())
}
