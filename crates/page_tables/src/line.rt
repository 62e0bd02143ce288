//! The lines of a page's tables, as values.

use model_rosters::List;

/// A line of the table of shifts: a shift, or a stretch of it where time off is named.
#[derive(Debug, PartialEq, Eq, Drop)]
pub struct ShiftLine {
    /// The number of the shift in the certificate, from 1.
    pub number: u32,
    /// What the shift's group is called, or nothing on a day without groups.
    pub group: List<u8>,
    /// Who works the shift, or nothing.
    pub who: List<u8>,
    /// When work or the stretch begins, or `-` without work.
    pub begin: List<u8>,
    /// When work or the stretch ends, or `-` without work.
    pub end: List<u8>,
    /// How many periods of work there are in the shift or in the stretch.
    pub work: u64,
    /// Whether the line is the first one of its shift, with paid time, price and codes.
    pub first: bool,
    /// How much time is paid of the shift.
    pub paid: List<u8>,
    /// What the shift costs.
    pub price: u64,
    /// The byte of each period's code.
    pub word: List<u8>,
}

/// How many begin and end at a time.
#[derive(Debug, PartialEq, Eq, Drop)]
pub struct MomentLine {
    /// The time, or the number of a period.
    pub time: List<u8>,
    /// How many begin then.
    pub begins: u64,
    /// How many end then.
    pub ends: u64,
}

/// How many employees have a shift, of those who may: of a group, or of all.
#[derive(Debug, PartialEq, Eq, Drop)]
pub struct HeadLine {
    /// What the group is called.
    pub group: List<u8>,
    /// How many of them have a shift.
    pub count: u64,
    /// How many have one at least.
    pub least: u32,
    /// How many have one at most.
    pub most: u32,
}

/// A code of the table of totals.
#[derive(Debug, PartialEq, Eq, Drop)]
pub struct TotalLine {
    /// The byte of the code, and what it is called behind it.
    pub code: List<u8>,
    /// In how many periods of all shifts the code stands.
    pub total: u64,
    /// Which share of the need for it is covered, in tenths of a percent, where any is needed.
    pub share: Option<u64>,
}

/// A run of shortage or of surplus.
#[derive(Debug, PartialEq, Eq, Drop)]
pub struct RunLine {
    /// The byte of the code, and what it is called behind it.
    pub code: List<u8>,
    /// When the run begins.
    pub first: List<u8>,
    /// When the run ends.
    pub last: List<u8>,
    /// How many employees are missing, or are there beyond the need, in each of its periods.
    pub count: u32,
    /// What they cost in all its periods.
    pub cost: u64,
}
