//! A roster text, read from its first line to its end.

ghost use Rattle.std.specs.Prelude.{◌≡◌, ◌<◌, ◌≤◌, ◌^◌, [], length, IfOk};
ghost use Rattle.model_rosters.specs.SoundInstance.{IsSoundInstance};
ghost use Rattle.text_lines.specs.Lines.{text_items};
ghost use Rattle.check_values.specs.stated_rosters.RosterOf.{begins_report, item_at, roster_of, IsSoundRoster};
ghost use Rattle.check_values.specs.stated_rosters.Steps.{each, Reads};

use crate::stated_rosters::fault::RosterFault;
use crate::stated_rosters::line::{is_report, line};
use model_rosters::{Instance, List, Shift};
use std::alloc::Global;
use text_lines::{BadByte, Line, Lines};

/// A text has at most so many bytes.
const MOST_BYTES: usize = 1_048_576;

/// Whether the first line of a text is that of a report.
pub fn begins_report(text: &[u8]) -> bool
    requires { length text.now < 2 ^ 32 }
    ensures { result ≡ begins_report (text_items text.now) }
{
    let mut lines = Lines::new(text);
    match lines.next() {
        Some(Ok(line)) => is_report(&line),
        Some(Err(_)) => false,
        None => false,
    }
}

// Reads what a line gives.
fn item(
    alloc: Global,
    instance: &Instance,
    report: bool,
    shifts: &mut List<Shift>,
    item: Result<Line<'_>, BadByte>,
) -> Result<(), RosterFault>
    requires { length instance.now.groups ≤ 8 }
    ensures { Reads (λ _. (shifts.new)) result (item_at instance.now report shifts.old item.entry) }
{
    match item {
        Ok(words) => line(alloc, instance, report, shifts, &words),
        Err(BadByte { line }) => Err(RosterFault::BadByte { line }),
    }
}

// Reads all lines of a text.
fn lines(
    alloc: Global,
    instance: &Instance,
    report: bool,
    text: &[u8],
) -> Result<List<Shift>, RosterFault>
    requires groups { length instance.now.groups ≤ 8 }
    requires short { length text.now < 2 ^ 32 }
    ensures { Reads (λ shifts. shifts) result (each (item_at instance.now report) [] (text_items text.now)) }
{
    let mut shifts = List::new(alloc);
    let mut lines = Lines::new(text);
    while let Some(next) = lines.next() {
        item(alloc, instance, report, &mut shifts, next)?;
    }
    Ok(shifts)
}

/// Reads a roster text for an instance: its shifts in the order of their lines, each at the price 0, or the
/// first fault of the text. Whether a word is a shift of its group is not asked.
///
/// A text that is too long is refused before all else. Then the lines are read in order, and the first that
/// cannot stand gives the fault; in a line a bad byte comes first, then its form, then that 64 shifts stand
/// before, then its words from left to right.
///
/// # Errors
///
/// The first fault of the text, in this order; `Memory` may come at any time.
#[tactic(auto, unfolding(crate::specs::stated_rosters::RosterOf::roster_of))]
pub fn read_roster(
    alloc: Global,
    instance: &Instance,
    text: &[u8],
) -> Result<List<Shift>, RosterFault>
    requires { IsSoundInstance instance.now }
    ensures value { Reads (λ shifts. shifts) result (roster_of instance.now text.now) }
    ensures sound { IfOk result (IsSoundRoster instance.now) }
{
    if MOST_BYTES < text.len() {
        return Err(RosterFault::TooLong);
    }
    lines(alloc, instance, begins_report(text), text)
}
