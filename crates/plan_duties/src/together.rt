//! What a duty asks together.

ghost use Rattle.std.specs.Prelude.{◌≡◌, ◌≤◌, length};
ghost use Rattle.plan_duties.specs.Fits.{duty_fits, range_fits, range_of};
ghost use Rattle.plan_fields.specs.Steps.{Reads};

use crate::plus::parts_plus;
use crate::stretch::parts_fit;
use crate::sums::{parts_greatest, parts_least, sum_fits, times_fit};
use plan_faults::LineFault;
use plan_fields::Draft;
use plan_meaning::{Duty, Lengths};
use plan_words::Day;
use std::alloc::Global;

// Returns how long the duty's stretches last: as its line says, else as a line above does.
#[tactic(auto, unfolding(crate::specs::Fits::range_of))]
fn range_of(draft: &Draft, stretch: Option<Lengths>) -> Option<Lengths>
    ensures { result ≡ range_of draft.now stretch }
{
    match stretch {
        Some(range) => Some(range),
        None => draft.stretch,
    }
}

// Checks the parts one by one and together, where it is said how long stretches last.
#[tactic(auto, unfolding(crate::specs::Fits::range_fits))]
fn range_fits(
    alloc: Global,
    day: &Day,
    draft: &Draft,
    duty: &Duty,
    range: Option<Lengths>,
) -> Result<(), LineFault>
    requires { length duty.now.parts ≤ 8 }
    ensures { Reads (λ u. u) result (range_fits day.now draft.now duty.now range) }
{
    let Some(range) = range else {
        return Ok(());
    };
    let parts = duty.parts.as_slice();
    parts_fit(alloc, day, draft, range, parts)?;
    let least = parts_least(draft, range, parts);
    let greatest = parts_greatest(draft, range, parts);
    sum_fits(duty.lasts, least, greatest)
}

/// Checks what a duty line asks together: its plus, the parts one by one, their sum, and the times.
///
/// # Errors
///
/// The first fault in this order; `Memory` where memory runs out.
#[tactic(auto, unfolding(crate::specs::Fits::duty_fits))]
pub fn fits(alloc: Global, day: &Day, draft: &Draft, duty: &Duty) -> Result<(), LineFault>
    requires { length duty.now.parts ≤ 8 }
    ensures { Reads (λ u. u) result (duty_fits day.now draft.now duty.now) }
{
    parts_plus(day, draft, duty.plus, duty.parts.as_slice())?;
    range_fits(alloc, day, draft, duty, range_of(draft, duty.stretch))?;
    times_fit(day, duty.lasts, duty.begins, duty.ends)
}
