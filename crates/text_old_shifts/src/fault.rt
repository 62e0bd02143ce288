//! Why the shifts of a text are not read.

use model_rosters::Memory;
use thiserror::Error;

/// Why the shifts of an old text are not read. Lines count from 1.
#[derive(Clone, Copy, Debug, PartialEq, Eq, Drop, Error)]
pub enum OldFault {
    /// A byte before the comment that no line may hold.
    #[error("line {line}: bad byte")]
    BadByte { line: u32 },
    /// A first line that is none of a proof text or a report.
    #[error("line {line}: bad header")]
    BadHeader { line: u32 },
    /// A shift's line of no form.
    #[error("line {line}: unknown line")]
    UnknownLine { line: u32 },
    /// A word that is no number, where one is due.
    #[error("line {line}: bad number")]
    BadNumber { line: u32 },
    /// A shift's word of more than 96 bytes.
    #[error("line {line}: out of range")]
    OutOfRange { line: u32 },
    /// A 65th line of a shift.
    #[error("line {line}: too many shifts, at most 64")]
    TooManyShifts { line: u32 },
    /// The line `cost none` of a report.
    #[error("line {line}: no roster")]
    NoRoster { line: u32 },
    /// The text has no line.
    #[error("the text ends early")]
    CutShort,
    /// The text has more than 1,073,741,824 bytes.
    #[error("the text is too long")]
    TooLong,
    /// Memory ran out; the text may be right or wrong.
    #[error("out of memory")]
    Memory,
}

impl From<Memory> for OldFault {
    ghost use Rattle.std.specs.Prelude.{◌≡◌};
    ghost use Rattle.text_old_shifts.specs.declared.fault.OldFault.TheVariants.{Memory as out_of_memory};

    ghost from_gives = { λ _ fault. fault ≡ out_of_memory };

    // Want of memory carries no line.
    fn from(_memory: Memory) -> OldFault {
        OldFault::Memory
    }
}
