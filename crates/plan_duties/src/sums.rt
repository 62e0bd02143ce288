//! The parts together, and the times.

ghost use Rattle.std.specs.Prelude.{◌≡◌, ◌≤◌, ◌^◌, length};
ghost use Rattle.plan_duties.specs.Sums.{
  first_begin,
  first_end,
  greatest_block,
  last_begin,
  last_end,
  least_block,
  lies_between,
  part_greatest,
  part_least,
  parts_greatest,
  parts_least,
  sum_fits,
  times_fit,
  work_greatest,
  work_least,
};

use crate::stretch::{is_block, lasts_of};
use plan_faults::{DutyFault, LineFault};
use plan_fields::Draft;
use plan_meaning::{Lengths, Part, PlanCode, Times};
use plan_words::Day;

// Returns the least block of these codes, beside one that lasts so long.
fn least_block(lines: &[PlanCode], found: u32, codes: &[u8]) -> u32
    ensures { result ≡ least_block lines.now found codes.now }
{
    let mut least = found;
    for code in codes {
        least = least.min(lasts_of(lines, *code).least);
    }
    least
}

// Returns the greatest block of these codes, beside one that lasts so long.
fn greatest_block(lines: &[PlanCode], found: u32, codes: &[u8]) -> u32
    ensures { result ≡ greatest_block lines.now found codes.now }
{
    let mut greatest = found;
    for code in codes {
        greatest = greatest.max(lasts_of(lines, *code).greatest);
    }
    greatest
}

// Returns the least that a stretch of work over these codes takes.
#[tactic(auto, unfolding(crate::specs::Sums::work_least))]
fn work_least(draft: &Draft, range: Lengths, codes: &[u8]) -> u32
    ensures { result ≡ work_least draft.now range codes.now }
{
    let lines = draft.codes.as_slice();
    match codes {
        [] => range.least,
        [code, others @ ..] => {
            range
                .least
                .max(least_block(lines, lasts_of(lines, *code).least, others))
        }
    }
}

// Returns the greatest that a stretch of work over these codes takes.
#[tactic(auto, unfolding(crate::specs::Sums::work_greatest))]
fn work_greatest(draft: &Draft, range: Lengths, codes: &[u8]) -> u32
    ensures { result ≡ work_greatest draft.now range codes.now }
{
    let lines = draft.codes.as_slice();
    match codes {
        [code, others @ ..] if is_block(draft.change, codes) => {
            let found = lasts_of(lines, *code).greatest;
            range.greatest.min(greatest_block(lines, found, others))
        }
        _ => range.greatest,
    }
}

// Returns the least that a part takes.
#[tactic(auto, unfolding(crate::specs::Sums::part_least))]
fn part_least(draft: &Draft, range: Lengths, part: &Part) -> u32
    ensures { result ≡ part_least draft.now range part.now }
{
    match part {
        Part::Work(codes) => work_least(draft, range, codes.as_slice()),
        Part::Pause(code, _) => lasts_of(draft.codes.as_slice(), *code).least,
    }
}

// Returns the greatest that a part takes.
#[tactic(auto, unfolding(crate::specs::Sums::part_greatest))]
fn part_greatest(draft: &Draft, range: Lengths, part: &Part) -> u32
    ensures { result ≡ part_greatest draft.now range part.now }
{
    match part {
        Part::Work(codes) => work_greatest(draft, range, codes.as_slice()),
        Part::Pause(code, _) => lasts_of(draft.codes.as_slice(), *code).greatest,
    }
}

/// Returns the least that the parts take together.
pub(crate) fn parts_least(draft: &Draft, range: Lengths, parts: &[Part]) -> u64
    requires { length parts.now ≤ 8 }
    ensures { result ≡ parts_least draft.now range parts.now }
{
    let mut least: u64 = 0;
    for part in parts {
        least += part_least(draft, range, part) as u64;
    }
    least
}

/// Returns the greatest that the parts take together.
pub(crate) fn parts_greatest(draft: &Draft, range: Lengths, parts: &[Part]) -> u64
    requires { length parts.now ≤ 8 }
    ensures { result ≡ parts_greatest draft.now range parts.now }
{
    let mut greatest: u64 = 0;
    for part in parts {
        greatest += part_greatest(draft, range, part) as u64;
    }
    greatest
}

/// Checks that the parts together take a length of the duty.
///
/// # Errors
///
/// `Sum` where they take longer or shorter.
#[tactic(auto, unfolding(crate::specs::Sums::sum_fits))]
pub(crate) fn sum_fits(lasts: Lengths, least: u64, greatest: u64) -> Result<(), LineFault>
    ensures { result ≡ sum_fits lasts least greatest }
{
    if (lasts.greatest as u64) < least || greatest < lasts.least as u64 {
        return Err(LineFault::Duty {
            fault: DutyFault::Sum {
                least,
                greatest,
                duty: lasts,
            },
        });
    }
    Ok(())
}

// Returns the first moment at which a duty may begin.
#[tactic(auto, unfolding(crate::specs::Sums::first_begin))]
fn first_begin(day: &Day, begins: Option<Times>) -> u64
    ensures value { result ≡ first_begin day.now begins }
    ensures small { result ≤ 2 ^ 40 }
{
    match begins {
        Some(times) => day.begin_behind(&times.from),
        None => 0,
    }
}

// Returns the last moment at which a duty may begin.
#[tactic(auto, unfolding(crate::specs::Sums::last_begin))]
fn last_begin(day: &Day, begins: Option<Times>) -> u64
    ensures value { result ≡ last_begin day.now begins }
    ensures small { result ≤ 2 ^ 40 }
{
    match begins {
        Some(times) => day.begin_behind(&times.to),
        None => day.length() as u64,
    }
}

// Returns the first moment at which a duty may end.
#[tactic(auto, unfolding(crate::specs::Sums::first_end))]
fn first_end(day: &Day, ends: Option<Times>) -> u64
    ensures { result ≡ first_end day.now ends }
{
    match ends {
        Some(times) => day.end_behind(&times.from),
        None => 0,
    }
}

// Returns the last moment at which a duty may end.
#[tactic(auto, unfolding(crate::specs::Sums::last_end))]
fn last_end(day: &Day, ends: Option<Times>) -> u64
    ensures { result ≡ last_end day.now ends }
{
    match ends {
        Some(times) => day.end_behind(&times.to),
        None => day.length() as u64,
    }
}

// Whether a length of the duty lies between its times.
fn lies_between(day: &Day, lasts: Lengths, begins: Option<Times>, ends: Option<Times>) -> bool
    ensures { result ≡ lies_between day.now lasts begins ends }
{
    first_begin(day, begins) + lasts.least as u64 <= last_end(day, ends)
        && first_end(day, ends) <= last_begin(day, begins) + lasts.greatest as u64
}

/// Checks that a length of the duty lies between the times at which it begins and ends.
///
/// # Errors
///
/// `Nowhere` where none does.
#[tactic(auto, unfolding(crate::specs::Sums::times_fit))]
pub(crate) fn times_fit(
    day: &Day,
    lasts: Lengths,
    begins: Option<Times>,
    ends: Option<Times>,
) -> Result<(), LineFault>
    ensures { result ≡ times_fit day.now lasts begins ends }
{
    if lies_between(day, lasts, begins, ends) {
        return Ok(());
    }
    Err(LineFault::Duty {
        fault: DutyFault::Nowhere { duty: lasts },
    })
}
