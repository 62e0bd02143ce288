//! The line of a fault.

ghost use Rattle.std.specs.Prelude.{◌≡◌, ◌++◌, [], ◌∷◌, IfOk};
ghost use Rattle.page_labels.specs.FaultLine.{line_of, fault_text, fault_line};

use crate::fault::LabelFault;
use model_rosters::{List, Memory};
use std::alloc::Global;
use text_lines::{put, put_place};

// Returns the line that a fault carries.
fn line_of(fault: &LabelFault) -> Option<u32>
    ensures { result ≡ line_of fault.now }
{
    match *fault {
        LabelFault::BadByte { line }
        | LabelFault::UnknownLine { line }
        | LabelFault::BadNumber { line }
        | LabelFault::OutOfRange { line }
        | LabelFault::UnknownCode { line }
        | LabelFault::NoName { line }
        | LabelFault::BadName { line }
        | LabelFault::Twice { line }
        | LabelFault::AnotherShift { line }
        | LabelFault::NoShift { line } => Some(line),
        LabelFault::TooLong | LabelFault::Memory => None,
    }
}

// Returns the words of a fault.
#[tactic(auto, unfolding(crate::specs::FaultLine::fault_text))]
fn text_of(fault: &LabelFault) -> &'static str
    ensures { result.now ≡ fault_text fault.now }
{
    match *fault {
        LabelFault::BadByte { .. } => "bad byte",
        LabelFault::UnknownLine { .. } => "unknown line",
        LabelFault::BadNumber { .. } => "bad number",
        LabelFault::OutOfRange { .. } => "out of range",
        LabelFault::UnknownCode { .. } => "unknown code",
        LabelFault::NoName { .. } => "no such name",
        LabelFault::BadName { .. } => "bad name",
        LabelFault::Twice { .. } => "said twice",
        LabelFault::AnotherShift { .. } => "another shift",
        LabelFault::NoShift { .. } => "no such shift",
        LabelFault::TooLong => "the text is too long",
        LabelFault::Memory => "out of memory",
    }
}

/// Returns the line that tells a fault, as `labels: line 3: unknown line` with a line feed. A fault that
/// carries no line has none in the text either.
///
/// # Errors
///
/// `Memory` where memory runs out; there is no line then.
pub fn fault_line(alloc: Global, fault: &LabelFault) -> Result<List<u8>, Memory>
    ensures { IfOk result (λ text. text ≡ fault_line fault.now) }
{
    let mut out = List::new(alloc);
    put(&mut out, b"labels: ")?;
    put_place(&mut out, line_of(fault))?;
    put(&mut out, text_of(fault).as_bytes())?;
    out.push(b'\n')?;
    Ok(out)
}
