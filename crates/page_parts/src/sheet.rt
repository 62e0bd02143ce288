//! Where periods and rows stand.

ghost use Rattle.std.specs.Prelude.{◌≡◌, ◌≤◌, ◌+◌, ◌*◌, ◌/◌, ◌^◌, min, max};
ghost use Rattle.page_parts.specs.Axes.{chart_width, left_of, middle_of, right_of, axis_of, top_of, width_of};

/// Where the periods stand on the charts of a page.
#[derive(Clone, Copy, Debug, PartialEq, Eq, Drop)]
pub struct PeriodAxis {
    /// Where the first period begins, from the left.
    pub left: u32,
    /// How wide a period is.
    pub cell: u8,
    /// How many periods there are.
    pub periods: u8,
    /// How much room there is behind the last period.
    pub margin: u32,
}

// Returns how wide a period is, for so many, which share 740 pixels: at least 10 and at most 40.
fn width_of(periods: u8) -> u8
    ensures { result ≡ width_of periods }
{
    (740 / (periods as u32).max(1)).max(10).min(40) as u8
}

/// Returns the sheet of so many periods, with room for names of so many columns, at most 25, and for amounts
/// that are counted in words of so many, at most 60.
pub fn axis_of(periods: u8, longest: usize, money: usize) -> PeriodAxis
    ensures { result ≡ axis_of periods longest money }
{
    PeriodAxis {
        left: 56 + 8 * longest.min(25) as u32,
        cell: width_of(periods),
        periods,
        margin: 72 + 8 * money.min(60) as u32,
    }
}

// The product of two small numbers.
fn times(a: u8, b: u8) -> u64
    ensures product { result ≡ a * b }
    ensures small { result ≤ 65025 }
{
    u64::from(a) * u64::from(b)
}

/// Returns where the period behind so many begins.
pub fn left_of(sheet: PeriodAxis, place: u8) -> u64
    ensures value { result ≡ left_of sheet place }
    ensures small { result ≤ 2 ^ 33 }
{
    sheet.left as u64 + times(sheet.cell, place)
}

/// Returns where the middle of the period behind so many is.
pub fn middle_of(sheet: PeriodAxis, place: u8) -> u64
    ensures value { result ≡ middle_of sheet place }
    ensures small { result ≤ 2 ^ 34 }
{
    left_of(sheet, place) + (sheet.cell / 2) as u64
}

/// Returns where the last period ends.
pub fn right_of(sheet: PeriodAxis) -> u64
    ensures value { result ≡ right_of sheet }
    ensures small { result ≤ 2 ^ 33 }
{
    left_of(sheet, sheet.periods)
}

/// Returns how wide a chart is.
pub fn chart_width(sheet: PeriodAxis) -> u64
    ensures { result ≡ chart_width sheet }
{
    right_of(sheet) + sheet.margin as u64
}

/// Returns where a row begins, from 0.
pub fn top_of(row: u8) -> u64
    ensures value { result ≡ top_of row }
    ensures small { result ≤ 6662 }
{
    32 + 26 * row as u64
}
