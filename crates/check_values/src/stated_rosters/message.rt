//! The line of a fault.

ghost use Rattle.std.specs.Prelude.{◌≡◌, ◌++◌, [], ◌∷◌, IfOk};
ghost use Rattle.check_values.specs.stated_rosters.FaultLine.{line_of, fault_text, fault_line};

use crate::stated_rosters::fault::RosterFault;
use model_rosters::{List, Memory};
use std::alloc::Global;
use text_lines::{put, put_place};

// Returns the line that a fault carries.
fn line_of(fault: &RosterFault) -> Option<u32>
    ensures { result ≡ line_of fault.now }
{
    match *fault {
        RosterFault::BadByte { line }
        | RosterFault::UnknownLine { line }
        | RosterFault::BadNumber { line }
        | RosterFault::OutOfRange { line }
        | RosterFault::NoName { line }
        | RosterFault::TooManyShifts { line }
        | RosterFault::NoRoster { line } => Some(line),
        RosterFault::TooLong | RosterFault::Memory => None,
    }
}

// Returns the words of a fault.
#[tactic(auto, unfolding(crate::specs::stated_rosters::FaultLine::fault_text))]
fn text_of(fault: &RosterFault) -> &'static str
    ensures { result.now ≡ fault_text fault.now }
{
    match *fault {
        RosterFault::BadByte { .. } => "bad byte",
        RosterFault::UnknownLine { .. } => "unknown line",
        RosterFault::BadNumber { .. } => "bad number",
        RosterFault::OutOfRange { .. } => "out of range",
        RosterFault::NoName { .. } => "no such name",
        RosterFault::TooManyShifts { .. } => "too many shifts, at most 64",
        RosterFault::NoRoster { .. } => "no roster",
        RosterFault::TooLong => "the text is too long",
        RosterFault::Memory => "out of memory",
    }
}

/// Returns the line that tells a fault, as `roster: line 3: unknown line` with a line feed. A fault that
/// carries no line has none in the text either.
///
/// # Errors
///
/// `Memory` where memory runs out; there is no line then.
pub fn fault_line(alloc: Global, fault: &RosterFault) -> Result<List<u8>, Memory>
    ensures { IfOk result (λ text. text ≡ fault_line fault.now) }
{
    let mut out = List::new(alloc);
    put(&mut out, b"roster: ")?;
    put_place(&mut out, line_of(fault))?;
    put(&mut out, text_of(fault).as_bytes())?;
    out.push(b'\n')?;
    Ok(out)
}
