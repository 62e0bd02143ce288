//! The title and the clock.

ghost use Rattle.std.specs.Prelude.{◌≡◌, ◌++◌, [], ◌∷◌, OnOk};
ghost use Rattle.text_lines.specs.Written.{written};
ghost use Rattle.plan_labels.specs.LabelText.{clock_line, day_lines, title_lines};

use crate::line::two_words;
use model_rosters::{List, Memory};
use plan_meaning::{Plan, PlanDay};
use plan_words::put_clock;
use text_lines::{field, put};

/// The minutes from one midnight to the next.
const CLOCK_DAY: u32 = 1440;

// Appends the title, where there is one.
#[tactic(auto, unfolding(crate::specs::LabelText::title_lines))]
fn title_line(out: &mut List<u8>, title: &[u8]) -> Result<(), Memory>
    ensures { OnOk result (out.new ≡ out.old ++ written (title_lines title.now)) }
{
    if title.len() == 0 {
        return Ok(());
    }
    two_words(out, b"title", title)
}

// Appends when the day begins by the clock, and the minutes of a period.
fn clock_line(out: &mut List<u8>, day: &PlanDay) -> Result<(), Memory>
    ensures { OnOk result (out.new ≡ out.old ++ written (clock_line day.now ∷ [])) }
{
    put(out, b"clock ")?;
    put_clock(out, (day.begin % CLOCK_DAY) as u128)?;
    field(out, day.minutes as u64)?;
    out.push(b'\n')
}

/// Appends the lines of the day.
///
/// # Errors
///
/// `Memory` where memory runs out; a part may stand in `out` then.
pub(crate) fn day_lines(out: &mut List<u8>, plan: &Plan) -> Result<(), Memory>
    ensures { OnOk result (out.new ≡ out.old ++ written (day_lines plan.now)) }
{
    title_line(out, plan.title.as_slice())?;
    clock_line(out, &plan.day)
}
