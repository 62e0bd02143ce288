//! Why a word says nothing.

/// Why a word cannot stand where it stands: what is said of it behind the word itself. Times and lengths are
/// minutes.
#[derive(Clone, Copy, Debug, PartialEq, Eq, Drop)]
pub enum WordFault {
    /// It is no code.
    NoCode,
    /// It is no name.
    NoName,
    /// It is no whole number.
    NoNumber,
    /// It is a number outside this range.
    Outside {
        low: u32,
        high: u32,
    },
    /// It is no amount.
    NoAmount,
    /// It has so many decimals, more than amounts have.
    Decimals {
        found: u64,
        have: u8,
    },
    /// It is so many units, which are too many.
    Units {
        units: u64,
    },
    /// So much an hour does not come out even in periods of so many minutes; these units next to it do.
    Uneven {
        minutes: u32,
        decimals: u8,
        below: u64,
        above: u64,
    },
    /// So much an hour is so many units a period, which are too many.
    PeriodUnits {
        units: u64,
    },
    /// It is no length.
    NoLength,
    /// It is no whole number of periods of so many minutes; these lengths next to it are.
    PartPeriod {
        minutes: u32,
        below: u32,
        above: u32,
    },
    /// It is so many periods, where 1 to `most` can stand.
    Periods {
        periods: u32,
        most: u32,
    },
    /// It is no time of a day.
    NoTime,
    /// No period begins then: they last so many minutes, from this time on.
    NoBegin {
        minutes: u32,
        begin: u32,
    },
    /// It is outside the day, which begins and ends so many minutes behind midnight.
    OutsideDay {
        begin: u32,
        end: u32,
    },
}

/// Why times and minutes make no day.
#[derive(Clone, Copy, Debug, PartialEq, Eq, Drop)]
pub enum DayFault {
    /// So many minutes are no whole number of periods of so many minutes.
    PartDay { length: u32, minutes: u32 },
    /// They are so many periods of so many minutes, which are too many.
    ManyPeriods { periods: u32, minutes: u32 },
}
