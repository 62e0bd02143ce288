//! The line of a fault.

ghost use Rattle.std.specs.Prelude.{◌≡◌, ◌++◌, [], ◌∷◌, IfOk};
ghost use Rattle.text_demand_lines.specs.FaultLine.{line_of, fault_text, fault_line};

use crate::fault::DemandFault;
use model_rosters::{List, Memory};
use std::alloc::Global;
use text_lines::{put, put_place};

// Returns the line that a fault carries, if any.
fn line_of(fault: &DemandFault) -> Option<u32>
    ensures { result ≡ line_of fault.now }
{
    match *fault {
        DemandFault::BadByte { line }
        | DemandFault::UnknownLine { line }
        | DemandFault::BadNumber { line }
        | DemandFault::OutOfRange { line }
        | DemandFault::NotWork { line }
        | DemandFault::Twice { line }
        | DemandFault::WrongCount { line, .. }
        | DemandFault::NoNeed { line }
        | DemandFault::NoName { line }
        | DemandFault::Mixed { line }
        | DemandFault::TooManyGroups { line } => Some(line),
        DemandFault::NoHeads | DemandFault::TooLong | DemandFault::Memory => None,
    }
}

// Returns the words that tell a fault.
#[tactic(auto, unfolding(crate::specs::FaultLine::fault_text))]
fn text_of(fault: &DemandFault) -> &'static str
    ensures { result.now ≡ fault_text fault.now }
{
    match *fault {
        DemandFault::BadByte { .. } => "bad byte",
        DemandFault::UnknownLine { .. } => "unknown line",
        DemandFault::BadNumber { .. } => "bad number",
        DemandFault::OutOfRange { .. } => "out of range",
        DemandFault::NotWork { .. } => "not a work code",
        DemandFault::Twice { .. } => "said twice",
        DemandFault::WrongCount { .. } => "wrong count of needs",
        DemandFault::NoHeads => "no heads line",
        DemandFault::TooLong => "the text is too long",
        DemandFault::NoNeed { .. } => "no need line before",
        DemandFault::NoName { .. } => "no such name",
        DemandFault::Mixed { .. } => "heads and groups together",
        DemandFault::TooManyGroups { .. } => "too many groups, at most 8",
        DemandFault::Memory => "out of memory",
    }
}

/// Returns the line that tells a fault, as `demand: line 2: wrong count of needs` with a line feed. A fault
/// that carries no line has none in the text either.
///
/// # Errors
///
/// `Memory` where memory runs out; there is no line then.
pub fn fault_line(alloc: Global, fault: &DemandFault) -> Result<List<u8>, Memory>
    ensures { IfOk result (λ text. text ≡ fault_line fault.now) }
{
    let mut out = List::new(alloc);
    put(&mut out, b"demand: ")?;
    put_place(&mut out, line_of(fault))?;
    put(&mut out, text_of(fault).as_bytes())?;
    out.push(b'\n')?;
    Ok(out)
}
