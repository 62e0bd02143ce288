//! Why a text is refused.

use model_rosters::Memory;
use thiserror::Error;

/// Why the reading of a proof text ends without its end. Lines count from 1.
#[derive(Clone, Copy, Debug, PartialEq, Eq, Drop)]
pub enum PieceFault {
    /// A byte before the comment that no line may hold.
    BadByte { line: u32 },
    /// A line of none of the forms, or at a place where it may not stand.
    UnknownLine { line: u32 },
    /// A word that is no number, where one is due.
    BadNumber { line: u32 },
    /// A number, a word or a line outside its range.
    OutOfRange { line: u32 },
    /// A first line that is not the one for the day.
    BadHeader { line: u32 },
    /// The text has no `end` line.
    CutShort,
    /// A line behind the whole tree or behind the `end` line.
    Trailing { line: u32 },
    /// A node behind 20,001 nodes.
    TooManyNodes { line: u32 },
    /// The text has more than 1,073,741,824 bytes.
    TooLong,
}

/// Why a proof text is refused. Lines count from 1.
#[derive(Clone, Copy, Debug, PartialEq, Eq, Drop, Error)]
pub enum ProofFault {
    /// A byte before the comment that no line may hold.
    #[error("line {line}: bad byte")]
    BadByte { line: u32 },
    /// A line of none of the forms, or at a place where it may not stand.
    #[error("line {line}: unknown line")]
    UnknownLine { line: u32 },
    /// A word that is no number, where one is due.
    #[error("line {line}: bad number")]
    BadNumber { line: u32 },
    /// A number, a word or a line outside its range.
    #[error("line {line}: out of range")]
    OutOfRange { line: u32 },
    /// A first line that is not the one for the day.
    #[error("line {line}: bad header")]
    BadHeader { line: u32 },
    /// The text has no `end` line.
    #[error("the text ends early")]
    CutShort,
    /// A line behind the whole tree or behind the `end` line.
    #[error("line {line}: text after the end")]
    Trailing { line: u32 },
    /// A node behind 20,001 nodes.
    #[error("line {line}: too many nodes, at most 20001")]
    TooManyNodes { line: u32 },
    /// The text has more than 1,073,741,824 bytes.
    #[error("the text is too long")]
    TooLong,
    /// Memory ran out; the text may be right or wrong.
    #[error("out of memory")]
    Memory,
}

impl From<Memory> for ProofFault {
    ghost use Rattle.std.specs.Prelude.{◌≡◌};
    ghost use Rattle.text_proof_pieces.specs.declared.fault.ProofFault.TheVariants.{Memory as out_of_memory};

    ghost from_gives = { λ _ fault. fault ≡ out_of_memory };

    // Returns the fault of want of memory.
    fn from(_memory: Memory) -> ProofFault {
        ProofFault::Memory
    }
}

impl From<PieceFault> for ProofFault {
    ghost use Rattle.std.specs.Prelude.{◌≡◌};
    ghost use Rattle.text_proof_pieces.specs.CertOf.{proof_fault};

    ghost from_gives = { λ piece fault. fault ≡ proof_fault piece };

    // Returns the fault of a piece as one of the text.
    fn from(fault: PieceFault) -> ProofFault {
        match fault {
            PieceFault::BadByte { line } => ProofFault::BadByte { line },
            PieceFault::UnknownLine { line } => ProofFault::UnknownLine { line },
            PieceFault::BadNumber { line } => ProofFault::BadNumber { line },
            PieceFault::OutOfRange { line } => ProofFault::OutOfRange { line },
            PieceFault::BadHeader { line } => ProofFault::BadHeader { line },
            PieceFault::CutShort => ProofFault::CutShort,
            PieceFault::Trailing { line } => ProofFault::Trailing { line },
            PieceFault::TooManyNodes { line } => ProofFault::TooManyNodes { line },
            PieceFault::TooLong => ProofFault::TooLong,
        }
    }
}
