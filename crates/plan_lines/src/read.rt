//! A text.

ghost use Rattle.std.specs.Prelude.{◌≡◌, ◌≢◌, ◌<◌, ◌^◌, length};
ghost use Rattle.plan_faults.specs.declared.fault.LineFault.TheVariants.{Memory as out_of_memory};
ghost use Rattle.plan_faults.specs.declared.fault.PlanFault.TheVariants as plan;
ghost use Rattle.plan_lines.specs.Plans.{Reads, item_at, plan_of, reading_of};

use crate::comment::before_comment;
use crate::finish::finish;
use crate::line::read_line;
use crate::reading::{Reading, nothing};
use plan_cells::{Line, Lines};
use plan_faults::{LineFault, PlanFault};
use plan_meaning::Plan;
use std::alloc::Global;

/// A text has at most so many bytes.
const MOST_BYTES: usize = 1_048_576;

// Returns the fault of a line with the line's number; want of memory is no fault of the line.
fn located(line: u32, fault: LineFault) -> PlanFault
    ensures lost { fault ≡ out_of_memory → result ≡ plan.Memory }
    ensures told { result ≢ plan.Memory → result ≡ plan.Line line fault }
{
    match fault {
        LineFault::Memory => PlanFault::Memory,
        fault => PlanFault::Line { line, fault },
    }
}

// Reads a line, and adds what it says.
fn item_at(alloc: Global, reading: &mut Reading, item: Line<'_>) -> Result<(), PlanFault>
    ensures { Reads (λ _. (reading.new)) result
        (item_at reading.old (record { number = item.entry.number; bytes = item.entry.bytes.now })) }
{
    match read_line(alloc, reading, item.number, before_comment(item.bytes)) {
        Ok(()) => Ok(()),
        Err(fault) => Err(located(item.number, fault)),
    }
}

// Reads all lines of a text.
fn reading_of(alloc: Global, text: &[u8]) -> Result<Reading, PlanFault>
    requires { length text.now < 2 ^ 32 }
    ensures { Reads (λ r. r) result (reading_of text.now) }
{
    let mut reading = nothing(alloc);
    let mut lines = Lines::new(text);
    while let Some(line) = lines.next() {
        item_at(alloc, &mut reading, line)?;
    }
    Ok(reading)
}

/// Reads a plan text, or the first fault of the text.
///
/// A text that is too long is refused before all else. Then the lines are read in order, and the first that
/// cannot stand gives the fault: in a line its signs come first, then its first word, its place, how many
/// words there are, the words from left to right, each pair at its second, and what they ask together. Then
/// come lines that are missing, and duties without a staff line.
///
/// # Errors
///
/// The first fault of the text, in this order; `Memory` may come at any time.
#[tactic(auto, unfolding(crate::specs::Plans::plan_of))]
pub fn read_plan(alloc: Global, text: &[u8]) -> Result<Plan, PlanFault>
    ensures { Reads (λ p. p) result (plan_of text.now) }
{
    if MOST_BYTES < text.len() {
        return Err(PlanFault::TooLong);
    }
    let reading = reading_of(alloc, text)?;
    finish(alloc, reading)
}
