//! The faults.

use crate::table::Kind;
use model_rosters::{List, Memory};
use plan_cells::CellFault;

/// Why the first line is refused.
#[derive(Debug, PartialEq, Eq, Drop)]
pub enum HeadingFault {
    /// This stands where the word `time` stands.
    NoTime { word: List<u8> },
    /// A heading that is no code of work, and no name of one.
    NoCode { title: List<u8> },
    /// A heading of a code of work without a need line.
    NoNeed { title: List<u8>, code: u8 },
    /// A second heading that asks the same.
    Twice { code: u8, kind: Kind },
    /// A code with a need line, of which no column says how many are needed.
    Missing { code: u8 },
}

/// Why a row is refused. Times are minutes behind midnight, lengths minutes.
#[derive(Debug, PartialEq, Eq, Drop)]
pub enum RowFault {
    /// This stands where a time stands.
    NoTime {
        word: List<u8>,
    },
    /// The first row is not at the day's begin.
    First {
        word: List<u8>,
        begin: u32,
    },
    /// Steps of so many minutes are no whole periods of so many minutes.
    Steps {
        step: u32,
        minutes: u32,
    },
    /// The day is over, which ends so many minutes behind the midnight before it begins.
    Behind {
        word: List<u8>,
        end: u32,
    },
    /// By steps of so many minutes another time comes.
    Other {
        word: List<u8>,
        comes: u32,
        step: u32,
    },
    /// Nothing stands in the row of this time under the heading of this code.
    NoNumber {
        minute: u32,
        code: u8,
        kind: Kind,
    },
    /// This stands under no heading.
    NoHeading {
        word: List<u8>,
    },
    /// This is no whole number.
    NoWhole {
        word: List<u8>,
    },
    /// This is no number from 0 to 64.
    Outside {
        word: List<u8>,
    },
    /// So many rows of so many minutes are not the day's minutes.
    Count {
        rows: usize,
        step: u32,
        day: u32,
    },
}

/// Why a forecast is refused. Lines count from 1.
#[derive(Debug, PartialEq, Eq, Drop)]
pub enum ForecastFault {
    /// The text has more than 1,048,576 bytes.
    TooLong,
    /// No line has a cell that says something.
    NoLine,
    /// Nothing stands behind the first line.
    NoRow,
    /// A line has no cells.
    Cells {
        line: u32,
        fault: CellFault,
    },
    /// The first line says no columns.
    Heading {
        line: u32,
        fault: HeadingFault,
    },
    /// A row cannot stand.
    Row {
        line: u32,
        fault: RowFault,
    },
    /// At this minute behind midnight more must be there of a code than may be.
    Above {
        code: u8,
        minute: u32,
        least: u8,
        most: u8,
    },
    /// Memory ran out; the text may be right or wrong.
    Memory,
}

impl From<Memory> for ForecastFault {
    ghost use Rattle.std.specs.Prelude.{◌≡◌};
    ghost use Rattle.plan_forecast.specs.declared.fault.ForecastFault.TheVariants.{Memory as out_of_memory};

    ghost from_gives = { λ _ fault. fault ≡ out_of_memory };

    // Want of memory carries no line.
    fn from(_memory: Memory) -> ForecastFault {
        ForecastFault::Memory
    }
}
