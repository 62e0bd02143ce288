//! One line of a roster text.

ghost use Rattle.std.specs.Prelude.{◌≡◌, ◌≤◌, List as Items, length};
ghost use Rattle.model_rosters.specs.declared.instance.Shift.{Shift as Said};
ghost use Rattle.text_proof_pieces.specs.ShiftLines.{is_pair};
ghost use Rattle.check_values.specs.stated_rosters.RosterOf.{is_report, other_at, line_at};
ghost use Rattle.check_values.specs.stated_rosters.Steps.{Reads};

use crate::stated_rosters::fault::RosterFault;
use crate::stated_rosters::shift::shift;
use model_rosters::{Instance, List, Shift};
use std::alloc::Global;
use text_lines::{Line, Words};

// Whether these are two words, the first and the second.
fn is_pair(words: &mut Words<'_>, first: &[u8], second: &[u8]) -> bool
    ensures { result ≡ is_pair first.now second.now words.old }
{
    let Some(v) = words.next() else {
        return false;
    };
    let Some(w) = words.next() else {
        return false;
    };
    if let Some(_) = words.next() {
        return false;
    }
    v == first && w == second
}

/// Whether the line is the first of a report.
pub fn is_report(line: &Line<'_>) -> bool
    ensures { result ≡ is_report line.now.words }
{
    is_pair(&mut line.words(), b"report", b"1") || is_pair(&mut line.words(), b"report", b"2")
}

// Reads a line that is none of a shift, which a report may have.
#[tactic(auto, unfolding(crate::specs::stated_rosters::RosterOf::other_at))]
fn other_line(report: bool, line: &Line<'_>) -> Result<(), RosterFault>
    ensures { (shifts : Items Said)
        → Reads (λ _. shifts) result (other_at line.now.number report shifts line.now.words) }
{
    if !report {
        return Err(RosterFault::UnknownLine {
            line: line.number(),
        });
    }
    if is_pair(&mut line.words(), b"cost", b"none") {
        return Err(RosterFault::NoRoster {
            line: line.number(),
        });
    }
    Ok(())
}

/// Reads a line of a report, or of a list of shifts, and adds its shift to those before, where it has one.
///
/// # Errors
///
/// The first fault of the line; `Memory` where memory runs out.
#[tactic(auto, unfolding(crate::specs::stated_rosters::RosterOf::line_at))]
pub fn line(
    alloc: Global,
    instance: &Instance,
    report: bool,
    shifts: &mut List<Shift>,
    line: &Line<'_>,
) -> Result<(), RosterFault>
    requires { length instance.now.groups ≤ 8 }
    ensures { Reads (λ _. (shifts.new)) result
        (line_at line.now.number instance.now report shifts.old line.now.words) }
{
    let mut words = line.words();
    let Some(first) = words.next() else {
        return Err(RosterFault::UnknownLine {
            line: line.number(),
        });
    };
    if first == b"shift".as_slice() {
        shift(alloc, instance, shifts, line.number(), &mut words)
    } else {
        other_line(report, line)
    }
}
