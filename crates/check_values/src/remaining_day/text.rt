//! The texts of a remaining day, and of why there is none.

ghost use Rattle.std.specs.Prelude.{◌≡◌, ◌++◌, [], ◌∷◌, List as Items, IfOk, OnOk, codes as text, length};
ghost use Rattle.model_rosters.specs.Demands.{Demand};
ghost use Rattle.model_rosters.specs.SoundInstance.{IsSoundInstance};
ghost use Rattle.text_demand.specs.Written.{AreDemandsOf};
ghost use Rattle.check_values.specs.remaining_day.Answers.{IsRemaining, IsSaid, rest_status};
ghost use Rattle.check_values.specs.remaining_day.RestText.{kept_comment, rest_text, AreOf64Bits};
ghost use Rattle.check_values.specs.CauseText.{causes_text};

use crate::remaining_day::answer::{Remaining, Rest};
use crate::{Cause, cause_lines};
use model_rosters::{Instance, List, Memory, Shift};
use std::alloc::Global;
use text_demand::write_demand;
use text_lines::{field, put};

// Writes the comment that tells how many shifts are kept, and what they cost.
fn comment(out: &mut List<u8>, count: u64, paid: u64, penalty: u64) -> Result<(), Memory>
    ensures said { OnOk result (out.new ≡ out.old ++ 35 ∷ kept_comment count paid penalty ++ 10 ∷ []) }
    ensures wide { OnOk result (AreOf64Bits count paid penalty) }
{
    put(out, b"# kept shifts")?;
    field(out, count)?;
    put(out, b", paid")?;
    field(out, paid)?;
    put(out, b", penalty")?;
    field(out, penalty)?;
    out.push(b'\n')
}

// Writes the demand text of a remaining day, behind a comment line that tells how many shifts are kept,
// their prices and their penalty.
fn rest_text(alloc: Global, kept: &[Shift], rest: &Rest) -> Result<List<u8>, Memory>
    requires { IsSoundInstance rest.now.day }
    ensures said { IfOk result (λ written. (ds : Items Demand) → AreDemandsOf rest.now.day ds
        → written ≡ rest_text (length kept.now) rest.now ds) }
    ensures wide { IfOk result (λ _. AreOf64Bits (length kept.now) rest.now.paid rest.now.penalty) }
{
    let demand = write_demand(alloc, &rest.day)?;
    let mut out = List::new(alloc);
    comment(&mut out, kept.len() as u64, rest.paid, rest.penalty)?;
    put(&mut out, demand.as_slice())?;
    Ok(out)
}

// Writes a line for each cause for which no roster of the instance has the kept shifts.
fn causes_text(
    alloc: Global,
    instance: &Instance,
    kept: &[Shift],
    causes: &[Cause],
) -> Result<List<u8>, Memory>
    ensures { IfOk result (λ written. written ≡ causes_text instance.now kept.now causes.now) }
{
    let mut out = List::new(alloc);
    cause_lines(&mut out, instance, kept, causes)?;
    Ok(out)
}

// Returns the text of a day of which nobody is left.
fn nobody_left(alloc: Global) -> Result<List<u8>, Memory>
    ensures { IfOk result (λ written. written ≡ text "nobody left\n") }
{
    let mut out = List::new(alloc);
    put(&mut out, b"nobody left\n")?;
    Ok(out)
}

/// Writes what remains of a day beside kept shifts: the demand text of the remaining day, behind a comment
/// line that tells how many shifts are kept, their prices and their penalty; or the line `nobody left`; or a
/// line for each cause for which no roster of the day has the kept shifts.
///
/// # Errors
///
/// `Memory` where memory runs out; there is no text then.
pub fn write_remaining(
    alloc: Global,
    instance: &Instance,
    kept: &[Shift],
    remaining: &Remaining,
) -> Result<List<u8>, Memory>
    requires { IsRemaining instance.now kept.now remaining.now }
    ensures { IfOk result (IsSaid instance.now kept.now remaining.now) }
{
    match remaining {
        Remaining::Day(rest) => rest_text(alloc, kept, rest),
        Remaining::Nobody => nobody_left(alloc),
        Remaining::Impossible(causes) => causes_text(alloc, instance, kept, causes.as_slice()),
    }
}

/// Returns the status of an answer: 0 where a day remains, and else 1.
pub fn rest_status(remaining: &Remaining) -> u8
    ensures { result ≡ rest_status remaining.now }
{
    match remaining {
        Remaining::Day(_) => 0,
        Remaining::Nobody | Remaining::Impossible(_) => 1,
    }
}
