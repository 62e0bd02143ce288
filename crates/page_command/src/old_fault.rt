//! Why an old text is refused.

ghost use Rattle.std.specs.Prelude.{◌≡◌, ◌≤◌, ◌++◌, codes, drop, length, IfOk};
ghost use Rattle.page_command.specs.Old.{fault_line, old_line};
ghost use Rattle.text_proof_pieces.specs.FaultLine as proof_text;
ghost use Rattle.check_values.specs.stated_rosters.FaultLine as roster_text;

use check_values::RosterFault;
use model_rosters::{List, Memory};
use std::alloc::Global;
use text_lines::{field, put};
use text_proof_pieces::ProofFault;

/// Why an old text is refused.
#[derive(Clone, Copy, Debug, PartialEq, Eq, Drop)]
pub enum OldFault {
    /// The fault of a text that is read as a proof text.
    Proof(ProofFault),
    /// The fault of a text that is read as a report.
    Report(RosterFault),
    /// The shift of this number, from 1, whose word has another length than the day.
    WrongLength { shift: u32 },
    /// Memory ran out; the text may be right or wrong.
    Memory,
}

// Returns the line of another text's fault, with `old: ` in place of its first word.
fn renamed(alloc: Global, word: &[u8], line: &[u8]) -> Result<List<u8>, Memory>
    requires { length word.now ≤ length line.now }
    ensures { IfOk result (λ text. text ≡ codes "old: " ++ drop (length word.now) line.now) }
{
    let mut out = List::new(alloc);
    put(&mut out, b"old: ")?;
    put(&mut out, &line[word.len()..])?;
    Ok(out)
}

// Returns the line of a fault of an old certificate.
fn proof_line(alloc: Global, fault: &ProofFault) -> Result<List<u8>, Memory>
    ensures { IfOk result (λ text. text ≡ old_line (proof_text.line_of fault.now)
        (proof_text.fault_text fault.now)) }
{
    let line = text_proof_pieces::fault_line(alloc, fault)?;
    renamed(alloc, b"proof: ", line.as_slice())
}

// Returns the line of a fault of an old report.
fn report_line(alloc: Global, fault: &RosterFault) -> Result<List<u8>, Memory>
    ensures { IfOk result (λ text. text ≡ old_line (roster_text.line_of fault.now)
        (roster_text.fault_text fault.now)) }
{
    let line = check_values::fault_line(alloc, fault)?;
    renamed(alloc, b"roster: ", line.as_slice())
}

// Returns the line of a shift whose word has another length than the day.
fn length_line(alloc: Global, shift: u32) -> Result<List<u8>, Memory>
    ensures { IfOk result (λ text. text ≡ fault_line (OldFault.WrongLength shift)) }
{
    let mut out = List::new(alloc);
    put(&mut out, b"old: shift")?;
    field(&mut out, shift as u64)?;
    put(&mut out, b": wrong length\n")?;
    Ok(out)
}

// Returns the line of want of memory.
fn memory_line(alloc: Global) -> Result<List<u8>, Memory>
    ensures { IfOk result (λ text. text ≡ fault_line OldFault.Memory) }
{
    let mut out = List::new(alloc);
    put(&mut out, b"old: out of memory\n")?;
    Ok(out)
}

/// Returns the line that tells a fault, as `old: shift 2: wrong length` with a line feed: behind `old: `
/// stands what stands behind `proof: ` or `roster: ` in the line of the same fault of a proof text or a
/// roster text.
///
/// # Errors
///
/// `Memory` where memory runs out; there is no line then.
pub fn fault_line(alloc: Global, fault: &OldFault) -> Result<List<u8>, Memory>
    ensures { IfOk result (λ text. text ≡ fault_line fault.now) }
{
    match *fault {
        OldFault::Proof(fault) => proof_line(alloc, &fault),
        OldFault::Report(fault) => report_line(alloc, &fault),
        OldFault::WrongLength { shift } => length_line(alloc, shift),
        OldFault::Memory => memory_line(alloc),
    }
}
