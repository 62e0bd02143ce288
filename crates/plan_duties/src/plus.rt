//! What a period costs with the plus.

ghost use Rattle.std.specs.Prelude.{◌≡◌};
ghost use Rattle.plan_duties.specs.Pluses.{all_pass, code_plus, line_plus, part_plus, parts_plus};
ghost use Rattle.plan_meaning.specs.Shifts.{is_paid};

use plan_faults::LineFault;
use plan_fields::{Draft, coded, costly_period, told};
use plan_meaning::{Part, PlanCode};
use plan_words::Day;

// Whether an hour of the code is paid, as work is, and a pause whose line costs.
fn is_paid(line: &PlanCode) -> bool
    ensures { result ≡ is_paid line.now }
{
    line.work || line.hour != 0
}

// Checks that no period of a code of this line costs too much with the plus.
#[tactic(auto, unfolding(crate::specs::Pluses::line_plus))]
fn line_plus(day: &Day, draft: &Draft, plus: u32, line: &PlanCode) -> Result<(), LineFault>
    ensures { result ≡ line_plus day.now draft.now plus line.now }
{
    if !is_paid(line) {
        return Ok(());
    }
    let hour = line.hour as u64 + plus as u64;
    match costly_period(day, draft.extras.as_slice(), line.code, hour) {
        Some(units) => Err(LineFault::Plus {
            code: line.code,
            units: told(units),
        }),
        None => Ok(()),
    }
}

// Checks that no period of a code costs too much with the plus.
#[tactic(auto, unfolding(crate::specs::Pluses::code_plus))]
fn code_plus(day: &Day, draft: &Draft, plus: u32, code: u8) -> Result<(), LineFault>
    ensures { result ≡ code_plus day.now draft.now plus code }
{
    match coded(draft.codes.as_slice(), code) {
        Some(line) => line_plus(day, draft, plus, line),
        None => Ok(()),
    }
}

// Checks that no period of these codes costs too much with the plus.
fn codes_plus(day: &Day, draft: &Draft, plus: u32, codes: &[u8]) -> Result<(), LineFault>
    ensures { result ≡ all_pass (code_plus day.now draft.now plus) codes.now }
{
    for code in codes {
        code_plus(day, draft, plus, *code)?;
    }
    Ok(())
}

// Checks that no period of a part costs too much with the plus.
#[tactic(auto, unfolding(crate::specs::Pluses::part_plus))]
fn part_plus(day: &Day, draft: &Draft, plus: u32, part: &Part) -> Result<(), LineFault>
    ensures { result ≡ part_plus day.now draft.now plus part.now }
{
    match part {
        Part::Work(codes) => codes_plus(day, draft, plus, codes.as_slice()),
        Part::Pause(code, _) => code_plus(day, draft, plus, *code),
    }
}

/// Checks that no period of the parts costs too much with the plus of their line.
///
/// # Errors
///
/// `Plus` of the first code from the left whose period does, with the units of the first such period.
pub(crate) fn parts_plus(
    day: &Day,
    draft: &Draft,
    plus: u32,
    parts: &[Part],
) -> Result<(), LineFault>
    ensures { result ≡ parts_plus day.now draft.now plus parts.now }
{
    for part in parts {
        part_plus(day, draft, plus, part)?;
    }
    Ok(())
}
