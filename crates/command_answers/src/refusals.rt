//! Why a text is refused.

ghost use Rattle.std.specs.Prelude.{◌≡◌, ◌≢◌, IfOk};
ghost use Rattle.text_rules.specs.FaultLine as rules_line;
ghost use Rattle.text_demand_lines.specs.FaultLine as demand_line;
ghost use Rattle.text_proof_pieces.specs.CertOf.{proof_fault};
ghost use Rattle.text_proof_pieces.specs.FaultLine as proof_line;

use crate::answer::Answer;
use model_rosters::Memory;
use std::alloc::Global;
use text_demand_lines::DemandFault;
use text_proof_pieces::{PieceFault, ProofFault};
use text_rules::RulesFault;

/// Says why a rules text is refused.
///
/// # Errors
///
/// `Memory` where memory runs out, or where that is the fault; there is no answer then.
pub fn rules_refusal(alloc: Global, fault: RulesFault) -> Result<Answer, Memory>
    ensures { IfOk result (λ a. (fault ≢ RulesFault.Memory) × (a.status ≡ 3)
        × (a.output ≡ rules_line.fault_line fault)) }
{
    match fault {
        RulesFault::Memory => Err(Memory),
        _ => Ok(Answer {
            status: 3,
            output: text_rules::fault_line(alloc, &fault)?,
        }),
    }
}

/// Says why a demand text is refused.
///
/// # Errors
///
/// `Memory` where memory runs out, or where that is the fault; there is no answer then.
pub fn demand_refusal(alloc: Global, fault: DemandFault) -> Result<Answer, Memory>
    ensures { IfOk result (λ a. (fault ≢ DemandFault.Memory) × (a.status ≡ 4)
        × (a.output ≡ demand_line.fault_line fault)) }
{
    match fault {
        DemandFault::Memory => Err(Memory),
        _ => Ok(Answer {
            status: 4,
            output: text_demand_lines::fault_line(alloc, &fault)?,
        }),
    }
}

/// Says why a proof text is refused.
///
/// # Errors
///
/// `Memory` where memory runs out; there is no answer then.
pub fn proof_refusal(alloc: Global, fault: PieceFault) -> Result<Answer, Memory>
    ensures { IfOk result (λ a. (a.status ≡ 5) × (a.output ≡ proof_line.fault_line (proof_fault fault))) }
{
    Ok(Answer {
        status: 5,
        output: text_proof_pieces::fault_line(alloc, &ProofFault::from(fault))?,
    })
}
