//! Why a text is no report.

use model_rosters::Memory;
use thiserror::Error;

/// Why a text is not read as a report. Lines count from 1.
#[derive(Clone, Copy, Debug, PartialEq, Eq, Drop, Error)]
pub enum ReportFault {
    /// A byte before the comment that no line may hold.
    #[error("line {line}: bad byte")]
    BadByte { line: u32 },
    /// A line that does not fit its place.
    #[error("line {line}: bad line")]
    BadLine { line: u32 },
    /// The text ends before its last line.
    #[error("the text ends early")]
    CutShort,
    /// A line behind the last.
    #[error("line {line}: text after the end")]
    Trailing { line: u32 },
    /// Memory ran out; the text may be right or wrong.
    #[error("out of memory")]
    Memory,
}

impl From<Memory> for ReportFault {
    ghost use Rattle.std.specs.Prelude.{◌≡◌};
    ghost use Rattle.text_reports.specs.declared.fault.ReportFault.TheVariants.{Memory as out_of_memory};

    ghost from_gives = { λ _ fault. fault ≡ out_of_memory };

    // Returns the fault of want of memory.
    fn from(_memory: Memory) -> ReportFault {
        ReportFault::Memory
    }
}
