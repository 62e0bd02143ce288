//! Why a demand text is refused.

use model_rosters::Memory;
use thiserror::Error;

/// Why a demand text is refused. Lines count from 1.
#[derive(Clone, Copy, Debug, PartialEq, Eq, Drop, Error)]
pub enum DemandFault {
    /// A byte before the comment that no line may hold.
    #[error("line {line}: bad byte")]
    BadByte { line: u32 },
    /// A line of none of the five forms.
    #[error("line {line}: unknown line")]
    UnknownLine { line: u32 },
    /// A word that is no number, where one is due.
    #[error("line {line}: bad number")]
    BadNumber { line: u32 },
    /// A number outside its range.
    #[error("line {line}: out of range")]
    OutOfRange { line: u32 },
    /// A word that is no work code of the rules, where one is due.
    #[error("line {line}: not a work code")]
    NotWork { line: u32 },
    /// A second `heads` line, or a second line of the same form with one name or code.
    #[error("line {line}: said twice")]
    Twice { line: u32 },
    /// Not one number for each period, but `found`.
    #[error("line {line}: wrong count of needs")]
    WrongCount { line: u32, found: u32 },
    /// The text has neither a `heads` line nor a `group` line.
    #[error("no heads line")]
    NoHeads,
    /// The text has more than 1,048,576 bytes.
    #[error("the text is too long")]
    TooLong,
    /// A `least` or `most` line whose code has no `need` line before.
    #[error("line {line}: no need line before")]
    NoNeed { line: u32 },
    /// A word that is no name of the rules, where one is due.
    #[error("line {line}: no such name")]
    NoName { line: u32 },
    /// A `heads` line beside `group` lines.
    #[error("line {line}: heads and groups together")]
    Mixed { line: u32 },
    /// A ninth `group` line.
    #[error("line {line}: too many groups, at most 8")]
    TooManyGroups { line: u32 },
    /// Memory ran out; the text may be right or wrong.
    #[error("out of memory")]
    Memory,
}

impl From<Memory> for DemandFault {
    ghost use Rattle.std.specs.Prelude.{◌≡◌};
    ghost use Rattle.text_demand_lines.specs.declared.fault.DemandFault.TheVariants.{Memory as out_of_memory};

    ghost from_gives = { λ _ fault. fault ≡ out_of_memory };

    // Returns the fault of want of memory.
    fn from(_memory: Memory) -> DemandFault {
        DemandFault::Memory
    }
}
