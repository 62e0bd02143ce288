//! The line of a fault.

ghost use Rattle.std.specs.Prelude.{◌≡◌, ◌++◌, [], ◌∷◌, IfOk};
ghost use Rattle.text_proof_pieces.specs.FaultLine.{line_of, fault_text, fault_line};

use crate::fault::ProofFault;
use model_rosters::{List, Memory};
use std::alloc::Global;
use text_lines::{put, put_place};

// Returns the line that a fault carries, if any.
fn line_of(fault: &ProofFault) -> Option<u32>
    ensures { result ≡ line_of fault.now }
{
    match *fault {
        ProofFault::BadByte { line }
        | ProofFault::UnknownLine { line }
        | ProofFault::BadNumber { line }
        | ProofFault::OutOfRange { line }
        | ProofFault::BadHeader { line }
        | ProofFault::Trailing { line }
        | ProofFault::TooManyNodes { line } => Some(line),
        ProofFault::CutShort | ProofFault::TooLong | ProofFault::Memory => None,
    }
}

// Returns the words that tell a fault.
#[tactic(auto, unfolding(crate::specs::FaultLine::fault_text))]
fn text_of(fault: &ProofFault) -> &'static str
    ensures { result.now ≡ fault_text fault.now }
{
    match *fault {
        ProofFault::BadByte { .. } => "bad byte",
        ProofFault::UnknownLine { .. } => "unknown line",
        ProofFault::BadNumber { .. } => "bad number",
        ProofFault::OutOfRange { .. } => "out of range",
        ProofFault::BadHeader { .. } => "bad header",
        ProofFault::CutShort => "the text ends early",
        ProofFault::Trailing { .. } => "text after the end",
        ProofFault::TooManyNodes { .. } => "too many nodes, at most 20001",
        ProofFault::TooLong => "the text is too long",
        ProofFault::Memory => "out of memory",
    }
}

/// Returns the line that tells a fault, as `proof: line 3: unknown line` with a line feed. A fault that
/// carries no line has none in the text either.
///
/// # Errors
///
/// `Memory` where memory runs out; there is no line then.
pub fn fault_line(alloc: Global, fault: &ProofFault) -> Result<List<u8>, Memory>
    ensures { IfOk result (λ text. text ≡ fault_line fault.now) }
{
    let mut out = List::new(alloc);
    put(&mut out, b"proof: ")?;
    put_place(&mut out, line_of(fault))?;
    put(&mut out, text_of(fault).as_bytes())?;
    out.push(b'\n')?;
    Ok(out)
}
