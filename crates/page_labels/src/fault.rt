//! Why a labels text is refused.

use model_rosters::Memory;
use thiserror::Error;

/// Why a labels text is refused. Lines count from 1.
#[derive(Clone, Copy, Debug, PartialEq, Eq, Drop, Error)]
pub enum LabelFault {
    /// Before the comment what is no UTF-8, or a character that no line may hold.
    #[error("line {line}: bad byte")]
    BadByte { line: u32 },
    /// A line of none of the nine forms.
    #[error("line {line}: unknown line")]
    UnknownLine { line: u32 },
    /// A word that is no time, or no number, where one is due.
    #[error("line {line}: bad number")]
    BadNumber { line: u32 },
    /// A time beyond 23:59, minutes beyond 1 to 1,440, words of more than 60 bytes, the number 0 of a shift,
    /// or more than 4 decimals.
    #[error("line {line}: out of range")]
    OutOfRange { line: u32 },
    /// A word that is no code of the rules, where one is due.
    #[error("line {line}: unknown code")]
    UnknownCode { line: u32 },
    /// A word that is no name of a group of the demand, where one is due.
    #[error("line {line}: no such name")]
    NoName { line: u32 },
    /// A `paid` line of a code of work, or an `off` line of one of work or of one that counts as paid.
    #[error("line {line}: bad name")]
    BadName { line: u32 },
    /// A second line of its kind, or of its kind and its code, group or shift.
    #[error("line {line}: said twice")]
    Twice { line: u32 },
    /// A name of a shift that the roster has under this number with another group or another word.
    #[error("line {line}: another shift")]
    AnotherShift { line: u32 },
    /// A name of a shift whose number is beyond the roster's shifts.
    #[error("line {line}: no such shift")]
    NoShift { line: u32 },
    /// The text has more than 65,536 bytes.
    #[error("the text is too long")]
    TooLong,
    /// Memory ran out; the text may be right or wrong.
    #[error("out of memory")]
    Memory,
}

impl From<Memory> for LabelFault {
    ghost use Rattle.std.specs.Prelude.{◌≡◌};
    ghost use Rattle.page_labels.specs.declared.fault.LabelFault.TheVariants.{Memory as out_of_memory};

    ghost from_gives = { λ _ fault. fault ≡ out_of_memory };

    // Want of memory carries no line.
    fn from(_memory: Memory) -> LabelFault {
        LabelFault::Memory
    }
}
