//! Why a plan text is refused.

use model_rosters::{List, Memory};
use plan_meaning::Lengths;
use plan_words::{DayFault, WordFault};

/// What a line says, by its first word.
#[derive(Clone, Copy, Debug, PartialEq, Eq, Drop)]
pub enum Kind {
    Title,
    Day,
    Money,
    Work,
    Pause,
    Extra,
    Change,
    Stretch,
    Starts,
    Duty,
    Staff,
    Need,
}

/// What a line may not hold before its comment.
#[derive(Clone, Copy, Debug, PartialEq, Eq, Drop)]
pub enum Signs {
    /// Bytes that are no UTF-8.
    NoText,
    /// A control sign.
    Control,
    /// A sign that is no printable ASCII, in a line that may hold no other.
    NotPlain,
}

/// Why a line cannot stand where it stands.
#[derive(Debug, PartialEq, Eq, Drop)]
pub enum StandFault {
    /// No line begins with this word.
    Unknown { word: List<u8> },
    /// It stands before the day line, and is no title.
    DayFirst,
    /// Such a line stands above.
    Second { kind: Kind },
    /// A need line of the code stands above.
    SecondNeed { code: u8 },
    /// A staff line of the name stands above.
    SecondStaff { name: List<u8> },
    /// What it comes before stands above: amounts, for a money line, else duties.
    Late { kind: Kind },
    /// Eight codes of work stand above.
    ManyWork,
    /// 23 pauses stand above.
    ManyPauses,
    /// Eight staff lines stand above.
    ManyStaff,
}

/// Why the second word of a pair cannot stand behind the first.
#[derive(Clone, Copy, Debug, PartialEq, Eq, Drop)]
pub enum PairFault {
    /// The first number is greater.
    More,
    /// The first length is longer.
    Longer,
    /// The first time is later.
    Later,
    /// The first time, a begin, is not before the second, an end.
    NotBefore,
}

/// Why a code cannot stand where it stands.
#[derive(Clone, Copy, Debug, PartialEq, Eq, Drop)]
pub enum CodeFault {
    /// A line above has it.
    Stands,
    /// No line above has it.
    Unknown,
    /// It is one of work, where parts of a duty stand.
    Work,
    /// It is that of a pause, where work is wanted.
    Pause,
}

/// Why a name cannot stand where it stands.
#[derive(Clone, Copy, Debug, PartialEq, Eq, Drop)]
pub enum NameFault {
    /// A line above has it.
    Stands,
    /// No duty line above has it.
    NoDuty,
}

/// Why duties cannot start at multiples of a length.
#[derive(Clone, Copy, Debug, PartialEq, Eq, Drop)]
pub enum StartsFault {
    /// It does not divide 24 hours.
    Uneven,
    /// It is so many periods, which are too many.
    Many { periods: u32 },
    /// No period begins then.
    Never,
}

/// Why a duty's parts, or what stands behind them, cannot be.
#[derive(Debug, PartialEq, Eq, Drop)]
pub enum PartFault {
    /// This word stands where the `=` is due.
    NoEqual { word: List<u8> },
    /// These codes of work have one twice, or none.
    Codes { word: List<u8> },
    /// Two stretches of work stand side by side.
    TwoStretches,
    /// Two rests of this pause stand side by side.
    TwoPauses { code: u8 },
    /// One time stands behind the code of a pause.
    OneTime { code: u8 },
    /// No part stands there.
    NoParts,
    /// So many parts stand there, which are too many.
    ManyParts { parts: u64 },
    /// This word, or what follows it, cannot stand behind the parts.
    Behind { word: List<u8> },
    /// This stands behind the parts already.
    Twice { word: List<u8> },
}

/// Why no shift of a duty line can be. Lengths are minutes.
#[derive(Debug, PartialEq, Eq, Drop)]
pub enum DutyFault {
    /// The least block of a code of this name is longer than a stretch may be.
    Block {
        name: List<u8>,
        least: u32,
        most: u32,
    },
    /// No blocks of these codes make a stretch of these lengths.
    NoBlocks {
        stretch: Lengths,
        codes: List<u8>,
    },
    /// The parts take so long together, which no length of the duty is.
    Sum {
        least: u64,
        greatest: u64,
        duty: Lengths,
    },
    /// No such length lies between the times of begin and end.
    Nowhere {
        duty: Lengths,
    },
}

/// Why staff lines cannot be.
#[derive(Debug, PartialEq, Eq, Drop)]
pub enum StaffFault {
    /// So many employees in all are too many.
    Many {
        employees: u32,
    },
    /// The duty of this name has no staff line; those that have one are these.
    Missing {
        name: List<u8>,
        named: List<List<u8>>,
    },
}

/// Why a line cannot stand. Words are held whole, as they stand in the text.
#[derive(Debug, PartialEq, Eq, Drop)]
pub enum LineFault {
    /// What its bytes are.
    Signs {
        signs: Signs,
    },
    /// Its place.
    Stand {
        fault: StandFault,
    },
    /// So many words stand behind the first, which are fewer than the least or more than the most, if any.
    Count {
        found: u64,
        least: u64,
        most: Option<u64>,
    },
    /// What one word says.
    Word {
        word: List<u8>,
        fault: WordFault,
    },
    /// What two words say together.
    Pair {
        first: List<u8>,
        second: List<u8>,
        fault: PairFault,
    },
    /// The times of the day and its periods.
    Day {
        begin: List<u8>,
        end: List<u8>,
        fault: DayFault,
    },
    /// A code.
    Code {
        code: u8,
        fault: CodeFault,
    },
    /// A name.
    Name {
        name: List<u8>,
        fault: NameFault,
    },
    /// A name of so many bytes, of which there may be 1 to so many.
    Bytes {
        found: u64,
        most: u64,
    },
    /// With this line a period of the code costs so many units, which are too many.
    Period {
        code: u8,
        units: u64,
    },
    /// With the line's plus a period of the code costs so many units, which are too many.
    Plus {
        code: u8,
        units: u64,
    },
    /// When duties start.
    Starts {
        word: List<u8>,
        fault: StartsFault,
    },
    /// The parts of a duty, and what stands behind them.
    Part {
        fault: PartFault,
    },
    /// What a duty line asks together.
    Duty {
        fault: DutyFault,
    },
    /// Employees.
    Staff {
        fault: StaffFault,
    },
    /// Memory ran out; the line may be right or wrong.
    Memory,
}

impl From<Memory> for LineFault {
    ghost use Rattle.std.specs.Prelude.{◌≡◌};
    ghost use Rattle.plan_faults.specs.declared.fault.LineFault.TheVariants.{Memory as out_of_memory};

    ghost from_gives = { λ _ fault. fault ≡ out_of_memory };

    // Want of memory is no fault of the line.
    fn from(_memory: Memory) -> LineFault {
        LineFault::Memory
    }
}

/// Why a plan text is refused. Lines count from 1.
#[derive(Debug, PartialEq, Eq, Drop)]
pub enum PlanFault {
    /// The text has more than 1,048,576 bytes.
    TooLong,
    /// A line cannot stand.
    Line { line: u32, fault: LineFault },
    /// No such line stands in the text.
    NoLine { kind: Kind },
    /// The plan takes so many rules and so many names, of which one number or both are too great.
    TooMuch { rules: u64, names: u64 },
    /// Memory ran out; the text may be right or wrong.
    Memory,
}

impl From<Memory> for PlanFault {
    ghost use Rattle.std.specs.Prelude.{◌≡◌};
    ghost use Rattle.plan_faults.specs.declared.fault.PlanFault.TheVariants.{Memory as out_of_memory};

    ghost from_gives = { λ _ fault. fault ≡ out_of_memory };

    // Want of memory is no fault of the text.
    fn from(_memory: Memory) -> PlanFault {
        PlanFault::Memory
    }
}
