//! Why a roster text is refused.

use model_rosters::Memory;
use thiserror::Error;

/// Why a roster text is refused. Lines count from 1.
#[derive(Clone, Copy, Debug, PartialEq, Eq, Drop, Error)]
pub enum RosterFault {
    /// A byte before the comment that no line may hold.
    #[error("line {line}: bad byte")]
    BadByte { line: u32 },
    /// A line that is none of a shift, where only those may stand, or one of a shift in another form.
    #[error("line {line}: unknown line")]
    UnknownLine { line: u32 },
    /// A word that is no number, where one is due.
    #[error("line {line}: bad number")]
    BadNumber { line: u32 },
    /// A shift's word of more than 96 bytes.
    #[error("line {line}: out of range")]
    OutOfRange { line: u32 },
    /// A word that is no name of a group of the day, where one is due.
    #[error("line {line}: no such name")]
    NoName { line: u32 },
    /// A 65th shift.
    #[error("line {line}: too many shifts, at most 64")]
    TooManyShifts { line: u32 },
    /// The line `cost none` of a report.
    #[error("line {line}: no roster")]
    NoRoster { line: u32 },
    /// The text has more than 1,048,576 bytes.
    #[error("the text is too long")]
    TooLong,
    /// Memory ran out; the text may be right or wrong.
    #[error("out of memory")]
    Memory,
}

impl From<Memory> for RosterFault {
    ghost use Rattle.std.specs.Prelude.{◌≡◌};
    ghost use Rattle.check_values.specs.declared.stated_rosters.fault.RosterFault.TheVariants.{Memory as out_of_memory};

    ghost from_gives = { λ _ fault. fault ≡ out_of_memory };

    // Want of memory carries no line.
    fn from(_memory: Memory) -> RosterFault {
        RosterFault::Memory
    }
}
