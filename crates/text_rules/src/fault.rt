//! Why a rules text is refused.

use model_rosters::Memory;
use std::fmt;
use thiserror::Error;

/// What there is too much of.
#[derive(Clone, Copy, Debug, PartialEq, Eq, Drop)]
pub enum Limit {
    /// Codes: at most 32.
    Codes,
    /// Work codes: at most 8.
    Work,
    /// Names: at most 32.
    Names,
    /// Rules: at most 64.
    Rules,
    /// Symbols of a right side: at most 8.
    Right,
}

impl fmt::Display for Limit {
    // Writes what there is too much of.
    fn fmt<W: fmt::Write>(&self, f: &mut fmt::Formatter<W>) -> fmt::Result {
        f.write_str(match self {
            Limit::Codes => "codes",
            Limit::Work => "work codes",
            Limit::Names => "names",
            Limit::Rules => "rules",
            Limit::Right => "symbols",
        })
    }
}

/// Why a rules text is refused. Lines and words count from 1.
#[derive(Clone, Copy, Debug, PartialEq, Eq, Drop, Error)]
pub enum RulesFault {
    /// A byte before the comment that no line may hold.
    #[error("line {line}: bad byte")]
    BadByte { line: u32 },
    /// A line of none of the five forms.
    #[error("line {line}: unknown line")]
    UnknownLine { line: u32 },
    /// A word that is no number, where one is due.
    #[error("line {line}: bad number")]
    BadNumber { line: u32 },
    /// A number outside its range.
    #[error("line {line}: out of range")]
    OutOfRange { line: u32 },
    /// A word that is no name, no code byte or no quoted code, where one is due.
    #[error("line {line}: bad name")]
    BadName { line: u32 },
    /// A second `periods` or `start` line, or a code or window that stands twice.
    #[error("line {line}: said twice")]
    Twice { line: u32 },
    /// A quoted code that no earlier line declares.
    #[error("line {line}: unknown code")]
    UnknownCode { line: u32 },
    /// One more of something than `most`.
    #[error("line {line}: too many {what}, at most {most}")]
    TooMany { line: u32, what: Limit, most: u32 },
    /// A rule with no symbol.
    #[error("line {line}: empty right side")]
    EmptyRight { line: u32 },
    /// The text has no `periods` line.
    #[error("no periods line")]
    NoPeriods,
    /// The text has no `start` line.
    #[error("no start line")]
    NoStart,
    /// The first name with no rule: where it appears first in the rules, or else the start line.
    #[error("line {line}: a name has no rule")]
    NoRule { line: u32, word: u32 },
    /// The first name that one-symbol rules lead back to: where it appears first in the rules.
    #[error("line {line}: a name leads back to itself by one-symbol rules")]
    UnitCycle { line: u32, word: u32 },
    /// The text has more than 1,048,576 bytes.
    #[error("the text is too long")]
    TooLong,
    /// Memory ran out; the text may be right or wrong.
    #[error("out of memory")]
    Memory,
}

impl From<Memory> for RulesFault {
    ghost use Rattle.std.specs.Prelude.{◌≡◌};
    ghost use Rattle.text_rules.specs.declared.fault.RulesFault.TheVariants.{Memory as out_of_memory};

    ghost from_gives = { λ _ fault. fault ≡ out_of_memory };

    // Returns the fault of want of memory.
    fn from(_memory: Memory) -> RulesFault {
        RulesFault::Memory
    }
}
