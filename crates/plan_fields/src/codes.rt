//! Codes, and the lines that have them.

ghost use Rattle.std.specs.Prelude.{◌≡◌};
ghost use Rattle.std.specs.Option.{option_copied};
ghost use Rattle.plan_faults.specs.declared.fault.LineFault.TheVariants.{Code};
ghost use Rattle.plan_fields.specs.Codes.{coded, known_at, new_at, work_at};
ghost use Rattle.plan_fields.specs.Steps.{Reads};

use crate::words::code;
use plan_faults::{CodeFault, LineFault};
use plan_meaning::PlanCode;
use std::alloc::Global;

/// Returns the first line of a code.
pub fn coded(codes: &[PlanCode], code: u8) -> Option<&PlanCode>
    ensures { option_copied result ≡ coded codes.now code }
{
    for line in codes {
        if line.code == code {
            return Some(line);
        }
    }
    None
}

// Returns the fault of a code.
fn refused(code: u8, fault: CodeFault) -> LineFault
    ensures { result ≡ Code code fault }
{
    LineFault::Code { code, fault }
}

/// Reads a code that no line above has.
///
/// # Errors
///
/// The word's fault, or `Stands` of the code; `Memory` where memory runs out.
#[tactic(auto, unfolding(crate::specs::Codes::new_at))]
pub fn new_code(alloc: Global, codes: &[PlanCode], word: &[u8]) -> Result<u8, LineFault>
    ensures { Reads (λ n. n) result (new_at codes.now word.now) }
{
    let code = code(alloc, word)?;
    match coded(codes, code) {
        Some(_) => Err(refused(code, CodeFault::Stands)),
        None => Ok(code),
    }
}

/// Reads a code of a line above, and gives this line.
///
/// # Errors
///
/// The word's fault, or `Unknown` of the code; `Memory` where memory runs out.
#[tactic(auto, unfolding(crate::specs::Codes::known_at))]
pub fn known<'a>(
    alloc: Global,
    codes: &'a [PlanCode],
    word: &[u8],
) -> Result<&'a PlanCode, LineFault>
    ensures { Reads (λ line. line.now) result (known_at codes.now word.now) }
{
    let code = code(alloc, word)?;
    match coded(codes, code) {
        Some(line) => Ok(line),
        None => Err(refused(code, CodeFault::Unknown)),
    }
}

/// Reads a code of work of a line above.
///
/// # Errors
///
/// The word's fault, `Unknown` of the code, or `Pause` where it is no work; `Memory` where memory runs out.
#[tactic(auto, unfolding(crate::specs::Codes::work_at))]
pub fn work_code(alloc: Global, codes: &[PlanCode], word: &[u8]) -> Result<u8, LineFault>
    ensures { Reads (λ n. n) result (work_at codes.now word.now) }
{
    let line = known(alloc, codes, word)?;
    if !line.work {
        return Err(refused(line.code, CodeFault::Pause));
    }
    Ok(line.code)
}
